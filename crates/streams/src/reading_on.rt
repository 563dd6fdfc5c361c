//! Reading a source on to its end.

ghost use Rattle.std.specs.Prelude.{◌≡◌, ◌↔◌, ◌⊎◌, false, IsTrue, IfSome, OnOk, IfErr, IsErrOf};
ghost use Rattle.std.specs.Io.KnownBytes.{IsAtEnd};
ghost use Rattle.streams.specs.Streams.{IsReadTo};
ghost use Rattle.streams.specs.declared.stream_fault.StreamFault.TheVariants.{ReadFailed, Memory};
ghost use Rattle.streams.specs.ReadingOn.{IsOfReading, IsToldFor, IsTooLong};

use crate::source::Source;
use crate::stream_fault::StreamFault;

/// Reads the rest of a source, and keeps none of it. Reads are counted. Only if the source has more bytes
/// than can be counted, `Memory` is returned.
pub fn read_on<R: Source>(reader: &mut R) -> Result<(), StreamFault>
    requires { R.failed reader.old ≡ false }
    ensures end { OnOk result (IsAtEnd (R.left reader.new)) }
    ensures failing { IsErrOf result StreamFault.ReadFailed ↔ IsTrue (R.failed reader.new) }
    ensures kinds { IfErr result IsOfReading }
    ensures memory { IsErrOf result StreamFault.Memory → IfSome (R.left reader.old) IsTooLong }
{
    let mut buffer = [0; 65536];
    for _ in 0..u64::MAX {
        match reader.read(&mut buffer) {
            Ok(0) => return Ok(()),
            Ok(_) => {}
            Err(_) => return Err(StreamFault::ReadFailed),
        }
    }
    Err(StreamFault::Memory)
}

/// Returns the fault of a stream. After a fault of its text it reads the rest of the source, and returns a
/// failure of that instead.
pub fn told_at_the_end<R: Source>(reader: &mut R, fault: StreamFault) -> StreamFault
    requires { (fault ≡ ReadFailed) ↔ IsTrue (R.failed reader.old) }
    ensures told { IsToldFor fault result }
    ensures memory { result ≡ Memory → (fault ≡ Memory) ⊎ IfSome (R.left reader.old) IsTooLong }
    ensures untouched { fault ≡ Memory → reader.new ≡ reader.old }
    ensures end { IsReadTo result (R.left reader.new) }
    ensures failing { (result ≡ ReadFailed) ↔ IsTrue (R.failed reader.new) }
{
    match fault {
        StreamFault::Text(_) => match read_on(reader) {
            Ok(()) => fault,
            Err(failure) => failure,
        },
        _ => fault,
    }
}
