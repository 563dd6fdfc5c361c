//! A history that may be folded, as somebody has seen it.

use crate::base::Base;
use crate::entry::Entry;
use std::collections::LinkedList;

/// A base and the entries after it, the newest first. No value of it exists at run time: only contracts use
/// it.
pub struct Point {
    pub base: Base,
    pub entries: LinkedList<Entry>,
}
