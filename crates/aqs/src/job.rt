//! What a command line asks for.

use crate::page::Page;
use driver::notation::Notation;
use tasks::task::Task;

/// What is done for a command line.
#[derive(Clone, Copy, Debug, PartialEq, Eq)]
pub enum Job {
    /// A text is read and another written, by one thread.
    Answer(Task),
    /// The entry of a number in a history text is explained, or where another text is wrong.
    Explain(Option<u64>, Notation),
    /// The threads of a script are run.
    Run,
    /// A page of the manual is written.
    Tell(Page),
}
