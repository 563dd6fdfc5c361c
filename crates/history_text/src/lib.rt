//! The history text: a header, the entries of a history with their numbers, and two counts. In format 2 the
//! lines of the history's base come before its entries.
//!
//! Each text is a history text, with one base and one list of entries, or it has one first fault:
//! [`one_reading`]. A proper beginning of a history text is cut short: [`cut_short`]. A history that fits its
//! header is read as it was written: [`written_is_read`]. Each legal history on a good base fits:
//! [`legal_histories_fit`]. A text can be read even if its history isn't legal, and what is read fits:
//! [`what_is_read_fits`].
//!
//! A line is good exactly if some history begins with the lines before it and this line. The history is on
//! the opening base or on a good one (`specs/HistoryText.antt`). So a line of a base is good if some good
//! base begins with these lines, and bad if none does.
#![tactic(auto)]

mod base_fitting;
pub mod base_line;
mod base_reading;
mod base_so_far;
pub mod base_text;
pub mod base_under_way;
mod base_writing;
mod common_entry;
mod end_line;
pub mod entry_line;
mod entry_reading;
pub mod fitting;
pub mod history_text;
mod law;
pub mod next_entry;
pub mod place;
mod reading;
pub mod spelt_number;
mod waiting_rules;

pub use crate::fitting::fits;
pub use crate::history_text::write_text;
pub use crate::law::{
    cut_short, legal_histories_fit, lines_are_short, one_reading, texts_are_in_pieces,
    what_is_read_fits, written_is_read,
};
pub use crate::reading::read_text;
pub use streams::fault::{ReadFault, TextFault};
