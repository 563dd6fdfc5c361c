//! Why the program ends early.

ghost use Rattle.std.specs.Prelude.{◌≡◌};
ghost use Rattle.example_guards.specs.declared.history_in_parts.failure.Failure.TheVariants.{Refused, WriteFailed};

use history::fault::Fault;
use std::io;
use thiserror::Error;

#[derive(Clone, Copy, Debug, PartialEq, Eq, Error)]
pub enum Failure {
    /// A step or a trim failed.
    #[error("{0}")]
    Refused(Fault),
    /// A seat whose turn it was had to wait.
    #[error("a turn was not taken")]
    NoTurn,
    /// The history has no text.
    #[error("a history without a text")]
    NoText,
    /// Standard output could not be written.
    #[error("write failed")]
    WriteFailed,
}

impl From<Fault> for Failure {
    ghost from_gives = { λ fault e. e ≡ Refused fault };

    fn from(fault: Fault) -> Failure {
        Failure::Refused(fault)
    }
}

impl From<io::Error> for Failure {
    ghost from_gives = { λ _ e. e ≡ WriteFailed };

    fn from(_error: io::Error) -> Failure {
        Failure::WriteFailed
    }
}
