//! What is told of a history.

ghost use Rattle.std.specs.Prelude.{◌≡◌};
ghost use Rattle.driver.specs.inner.Telling.{is_summed, kept_to_tell};

use crate::choice::Choice;
use crate::explained::kept_for;
use crate::notation::Notation;

/// What is told of a history.
#[derive(Clone, Copy, Debug, PartialEq, Eq)]
pub enum Telling {
    /// The verdict, and what a legal history adds up to.
    Audit(Notation),
    /// A picture of the chosen entries. If none were chosen, a history of more than 5,000 entries is summed up
    /// in columns, and of a shorter one the first 2,000 are drawn, or if it isn't legal the first illegal one
    /// and the 40 before it.
    Draw(Choice),
    /// A page that steps through the chosen entries. If none were chosen, through the first 2,000, or through the
    /// 2,000 before the first illegal one.
    Page(Choice),
    /// What explains the entry of a number. Without a number that is the first illegal entry, or the state
    /// after the last. The first illegal entry is also explained in place of a later one.
    Explain(Option<u64>, Notation),
    /// The summary of the entries before the first illegal one.
    Summary(Notation),
}

impl Telling {
    /// Returns how many entries are kept until all are read, if `folded` entries were folded.
    pub(crate) fn kept(self, folded: u64) -> u64
        ensures { result ≡ kept_to_tell self folded }
    {
        match self {
            Telling::Audit(_) | Telling::Summary(_) => 0,
            Telling::Draw(choice) | Telling::Page(choice) => choice.kept(folded),
            Telling::Explain(at, _) => kept_for(at, folded),
        }
    }

    /// Returns whether the entries are summed up.
    pub(crate) fn is_summed(self) -> bool
        ensures { result ≡ is_summed self }
    {
        match self {
            Telling::Summary(_) => true,
            _ => false,
        }
    }
}
