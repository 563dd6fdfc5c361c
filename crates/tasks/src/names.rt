//! Reading the names of seats and conditions.

ghost use Rattle.std.specs.Prelude.{◌≡◌, ◌↔◌, Ok, false, IfErr, IfOk, IfSome, IsErrOf, IsTrue};
ghost use Rattle.picture.specs.Reading.{NamesRead};
ghost use Rattle.streams.specs.declared.stream_fault.StreamFault.TheVariants.{ReadFailed};
ghost use Rattle.tasks.specs.Names.{IsFaultOfNames};
ghost use Rattle.tasks.specs.declared.fault.Fault.TheVariants.{Stream};

use crate::fault::Fault;
use picture::naming::{Names, NamesFault, read_names};
use std::alloc::Global;
use streams::rest::read_all;
use streams::source::Source;

/// Returns the names that a source has. It is read to its end.
pub fn names_of<R: Source>(alloc: Global, reader: &mut R) -> Result<Names, Fault>
    requires { R.failed reader.old ≡ false }
    ensures ok { IfOk result (λ names. IfSome (R.left reader.old) (λ text. NamesRead text (Ok names))) }
    ensures err { IfErr result (IsFaultOfNames (R.left reader.old)) }
    ensures failing { IsErrOf result (Stream ReadFailed) ↔ IsTrue (R.failed reader.new) }
{
    let text = read_all(alloc, reader)?;
    match read_names(alloc, &text) {
        Ok(names) => Ok(names),
        Err(NamesFault::BadNaming(line)) => Err(Fault::BadNaming(line)),
        Err(NamesFault::OutOfMemory) => Err(Fault::Memory),
    }
}
