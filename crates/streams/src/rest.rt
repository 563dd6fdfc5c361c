//! Reading the rest of a source.

ghost use Rattle.std.specs.Prelude.{◌≡◌, ◌↔◌, false, IsTrue, OnOk, IfErr, IfOk, IsErrOf};
ghost use Rattle.std.specs.Io.KnownBytes.{Consumes, IsAtEnd};
ghost use Rattle.streams.specs.ReadingOn.{IsOfReading};

use crate::source::Source;
use crate::stream_fault::StreamFault;
use std::alloc::Global;

/// Reads the rest of a source. If it returns `Memory`, no clause says how much was read.
pub fn read_all<R: Source>(alloc: Global, reader: &mut R) -> Result<Vec<u8>, StreamFault>
    requires { R.failed reader.old ≡ false }
    ensures all { IfOk result (λ bytes. Consumes (R.left reader.old) (R.left reader.new) bytes.items) }
    ensures end { OnOk result (IsAtEnd (R.left reader.new)) }
    ensures failing { IsErrOf result StreamFault.ReadFailed ↔ IsTrue (R.failed reader.new) }
    ensures kinds { IfErr result IsOfReading }
{
    let mut bytes = Vec::new(alloc);
    let mut buffer = [0; 65536];
    for _ in 0..u64::MAX {
        match reader.read(&mut buffer) {
            Ok(0) => return Ok(bytes),
            Ok(n) => bytes.extend_from_slice(&buffer[..n])?,
            Err(_) => return Err(StreamFault::ReadFailed),
        }
    }
    Err(StreamFault::Memory)
}
