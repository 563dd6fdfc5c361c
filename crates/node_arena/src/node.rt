//! A node: an arrival, from when it joins until it is freed.

use history::arrival::Arrival;

/// An arrival, and whether it was cancelled: it left while it was between others.
#[derive(Clone, Copy, Debug, PartialEq, Eq)]
pub struct Node {
    pub arrival: Arrival,
    pub cancelled: bool,
}

/// The number of a node: its place, and how many nodes were placed before it. No two nodes of an arena ever
/// have the same number.
#[derive(Clone, Copy, Debug, PartialEq, Eq)]
pub struct NodeNo {
    pub place: usize,
    pub generation: u64,
}

/// A node with its number.
#[derive(Clone, Copy, Debug, PartialEq, Eq)]
pub struct NumberedNode {
    pub number: NodeNo,
    pub node: Node,
}
