//! Where a text is wrong: the line and the word, what is expected there, and an example of a right line.
//!
//! The readers of the texts tell the wrong line. They are asked for the word too: the first words of the line
//! are put before the end of an example, and the line that this gives is read.
#![tactic(auto)]

mod examples;
mod in_script;
mod in_text;
mod lines;
mod reader;
pub mod report;
pub mod wrong;
