//! The steps text: a header and the steps of its object's seats. In format 2 there may be trims between them.
//!
//! Each text is a steps text, with one header and one list of acts, or it has one first fault:
//! [`one_reading`]. A proper beginning of a steps text is cut short: [`cut_short`].
#![tactic(auto)]

mod act_line;
pub mod common_step;
mod end_line;
pub mod header;
mod law;
pub mod next_line;
mod step_line;
pub mod steps_text;

pub use crate::end_line::MOST_ACTS;
pub use crate::law::{cut_short, lines_are_short, one_reading};
pub use crate::step_line::{asked, condition};
pub use crate::steps_text::{StepsText, read_steps};
pub use streams::fault::{ReadFault, TextFault};
