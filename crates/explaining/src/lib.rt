//! Explains an entry of a history: the state before it, what its seat could have recorded there, and whom it
//! names.
//!
//! - [`state_before`](state::state_before) folds the entries before it into a base: the state.
//! - [`explain`](explanation::explain) finds what each step of the entry's seat makes in that state, and why.
//! - [`explained_text`](document::explained_text) tells it in lines of a fixed form, and
//!   [`explained_json`](json::explained_json) as one JSON object.
//!
//! The definitions are those of `history`. A state is a good base, and the questions are asked of an empty
//! history on it. The lines and the object have no definition: what makes them fails for want of memory alone,
//! and tests hold their words.
#![tactic(auto)]

pub mod document;
pub mod explanation;
mod fact;
pub mod found;
pub mod json;
pub mod laws;
pub mod naming;
mod sentence;
mod shown;
pub mod state;
mod steps;
pub mod way;
pub mod why;
pub mod words;
