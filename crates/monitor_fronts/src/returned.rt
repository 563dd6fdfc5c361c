//! What a front type returns for the entry that ended a call.
ghost use Rattle.std.specs.Prelude.{◌≡◌};
ghost use Rattle.monitor_fronts.specs.Returned.{done_of, number_of, whether_of};

use history::entry::{End, Entry, Word};
use history::fault::Fault;

/// Whether the call got what it asked for. A refusal is its fault, and an interrupt is `Interrupted`.
pub fn whether(reply: Result<Entry, Fault>) -> Result<bool, Fault>
    ensures { result ≡ whether_of reply }
{
    match reply {
        Err(fault) => Err(fault),
        Ok(entry) => match entry.word {
            Word::Refused(fault) => Err(fault),
            Word::Missed => Ok(false),
            _ => match entry.end {
                End::Interrupt => Err(Fault::Interrupted),
                End::Timeout => Ok(false),
                _ => Ok(true),
            },
        },
    }
}

/// The same, without returning whether it did.
pub fn done(reply: Result<Entry, Fault>) -> Result<(), Fault>
    ensures { result ≡ done_of reply }
{
    match whether(reply) {
        Ok(_) => Ok(()),
        Err(fault) => Err(fault),
    }
}

/// The amount of the entry, which is the number of permits of a drain. A refusal is its fault.
pub fn number(reply: Result<Entry, Fault>) -> Result<u32, Fault>
    ensures { result ≡ number_of reply }
{
    match reply {
        Err(fault) => Err(fault),
        Ok(entry) => match entry.word {
            Word::Refused(fault) => Err(fault),
            _ => Ok(entry.n),
        },
    }
}
