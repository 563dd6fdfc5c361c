//! A link of a circle.

/// A thread that waits for an object, and one that holds something of it. All are given by their places in
/// the script.
#[derive(Clone, Copy, Debug, PartialEq, Eq)]
pub struct Link {
    pub waiter: usize,
    pub object: usize,
    pub holder: usize,
}
