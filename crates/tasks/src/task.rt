//! What is done with a text.

use driver::choice::Choice;
use driver::form::Form;
use driver::notation::Notation;

/// What is done with a text that is read.
#[derive(Clone, Copy, Debug, PartialEq, Eq)]
pub enum Task {
    /// A steps text is replayed.
    Replay(Form),
    /// A history text is audited.
    Audit(Notation),
    /// The history of a history text is drawn.
    Draw(Choice),
    /// A page is written that steps through the history of a history text.
    Page(Choice),
    /// The entry of a number in a history text is explained; without a number the first illegal one.
    Explain(Option<u64>, Notation),
    /// A history text is summed up.
    Summary(Notation),
}
