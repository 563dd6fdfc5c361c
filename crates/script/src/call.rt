//! A call of a worker.

use crate::action::Action;

/// One call that a worker makes.
#[derive(Clone, Copy, Debug, PartialEq, Eq)]
pub enum Call {
    /// It makes this call of an object. The object is given by its place among the script's objects, from 0.
    On(usize, Action),
    /// It interrupts the thread of this number, counted from 0.
    Interrupt(u16),
}
