//! The pictures of a history, as the texts of SVG 1.1 documents.
//!
//! [`svg_text`](document::svg_text) draws each entry of a [`Picture`](picture::Picture), which is the result
//! of `drawing` with the header and the range of entries that are shown.
//! [`overview_text`](columns::overview_text) sums a long history up in columns. Both have the same rows,
//! scale and head.
//!
//! No contract says where a bar stands: the cases of the repository compare whole pictures, and other checks
//! count again what a picture shows. A picture fails only if memory is lacking. Positions are sums that stop
//! at the greatest number; no history comes near it.
//!
//! A user's only texts in a picture are the names that were given to seats and conditions ([`naming`]). They
//! stand between tags, and are escaped: `escaping` alone writes them. All other words are this crate's, those of
//! `explaining`, the header's own spelling or a history text's, and all else is digits. None of these has a `<`,
//! a `&` or a quote.
#![tactic(auto)]

mod bars;
pub mod columns;
mod curve;
pub mod document;
mod escaping;
mod grid;
mod head;
mod looks;
mod marks;
pub mod naming;
pub mod picture;
mod pieces;
mod range;
mod rows;
mod sheet;
mod titles;
