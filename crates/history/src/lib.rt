//! The entries of a synchroniser's history, its header, the list that keeps them, and their spelling.
//!
//! Every other crate describes an object by the history of its entries. What a history means, which entry a
//! step makes, and which histories are legal is defined in `specs/`, and nowhere else.
#![tactic(auto)]

pub mod arrival;
pub mod base;
pub mod base_parts;
pub mod entries;
pub mod entry;
pub mod entry_reading;
pub mod entry_text;
pub mod fault;
mod fold;
pub mod header;
pub mod header_text;
pub mod holds;
pub mod laws;
pub mod limits;
pub mod number;
mod packed;
mod page;
mod pages;
pub mod pieces;
pub mod point;
pub mod step;
pub mod text;
pub mod words;
