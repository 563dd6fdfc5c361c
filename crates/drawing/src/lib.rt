//! What is drawn of a legal history: bars while a seat holds or waits, marks of other entries, and the curve
//! of free permits or of a latch's count.
//!
//! [`Drawing`](drawing::Drawing) takes the entries of a history one after another.
//! [`drawn_of`](drawn_entries::drawn_of) takes a list of them.
//!
//! A history begins on its base. Who holds and who waits is asked of a [`Ledger`](audit::ledger::Ledger).
#![tactic(auto)]

mod amounts;
pub mod bar;
mod barging;
pub mod drawing;
pub mod drawn_entries;
pub mod kind;
pub mod laws;
mod levels;
pub mod mark;
mod stretches;
