//! Nodes under numbers, and lists that link them.
#![tactic(auto)]

pub mod arena;
pub mod linked_lists;
pub mod node;
pub mod node_list;
