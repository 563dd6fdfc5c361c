//! The names that a user gives to seats and conditions.
//!
//! They stand in a text of lines, each with its break: `SEAT NAME`, as `3 parser`, or `condition C NAME`, as
//! `condition 0 not-empty`. The lines are in any order. A name is 1 to 15 characters of printable ASCII, and
//! none of them is a space. A text without lines names nobody.
//!
//! [`read_names`] reads the text. It is refused at its first line that has another form, or that gives a
//! second name to a seat or a condition. [`Names`] are what it says. They are names and nothing else: an
//! object that lacks a seat or a condition of theirs is told as without them.

mod fault;
pub mod limits;
mod line;
mod names;
mod reading;
mod whom;

pub use fault::NamesFault;
pub use names::Names;
pub use reading::read_names;
pub use whom::Whom;
