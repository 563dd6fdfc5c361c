//! The page that steps through a history: one HTML file that needs no network.
//!
//! [`page_text`](document::page_text) writes a fixed head with the style, the stretches and entries of a
//! picture as JSON, and a fixed script that shows them. The script decides nothing about the history: what it
//! shows at an entry are the stretches that cover it.
//!
//! All that follows from the input, as the header, an entry's words and a name, stands in the JSON, and this
//! is escaped: nothing in it can end its element. Without names the page has no part for them.
#![tactic(auto)]

pub mod data;
pub mod document;
mod escape;
pub mod texts;
