//! The text of a run, and that of how a run stands whose time is over.
//!
//! For each object of a script, in order, the first has the object's name, its history text, the audit's
//! lines on that history, and the merged share of its passes. The last line has the number of answers that no
//! history records. If the report lists these answers, a line for each follows. [`RunText::of`] allocates all
//! memory. [`RunText::write`] allocates nothing, and writes the lines piece by piece. [`write_history`]
//! writes the history text of one object alone.
//!
//! [`standing_text`] has a line for each thread, with how many of its calls have ended and the call in which
//! it waits. After it come lines of what the thread holds. If threads wait for each other in a circle by
//! these lines, the last lines say in which. The threads were looked at one after another. So the text is a
//! finding: a thread that waits may be about to go on.
#![tactic(auto)]

mod answer_lines;
mod call_text;
mod circle;
mod entry_lines;
mod history_part;
mod link;
mod part;
mod report_text;
mod search;
mod standing;
mod thread_lines;
mod waiting;

pub use history_part::write_history;
pub use link::Link;
pub use report_text::RunText;
pub use standing::standing_text;
