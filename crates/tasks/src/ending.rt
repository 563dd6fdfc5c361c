//! How the program ends.

ghost use Rattle.std.specs.Prelude.{◌≡◌, MatchResult};
ghost use Rattle.tasks.specs.Fault.{status_of};

use crate::fault::Fault;

/// Returns the exit status. A fault is printed on standard error first, in one line.
pub fn status_of_end<R: Eprint>(rt: &R, done: Result<u8, Fault>) -> u8
    ensures { MatchResult done (λ status. result ≡ status) (λ fault. result ≡ status_of fault) }
{
    match done {
        Ok(status) => status,
        Err(fault) => {
            let _ = eprintln!(rt; "aqs: {fault}");
            fault.status()
        }
    }
}
