//! JSON objects of what is told of a text.

use crate::document::UNFOLDED;
use crate::found::Told;
use crate::shown::{shown_of, verdict_word};
use history::base::Base;
use serde::Serialize;
use serde_json::to_vec;
use std::alloc::{AllocError, Global};

/// Returns a value as one JSON object, with a line break behind it.
pub fn object_of<T: Serialize>(alloc: Global, value: &T) -> Result<Vec<u8>, AllocError> {
    let Ok(mut object) = to_vec(alloc, value) else {
        return Err(AllocError);
    };
    object.push(b'\n')?;
    Ok(object)
}

/// Returns the object of what [`explained_text`](crate::document::explained_text) tells.
pub fn explained_json(alloc: Global, base: &Base, told: &Told) -> Result<Vec<u8>, AllocError> {
    object_of(alloc, &shown_of(alloc, base, told)?)
}

/// A history of which nothing is explained.
#[derive(Drop, Serialize)]
struct Unfolded {
    verdict: &'static str,
    #[serde(skip_serializing_if = "Option::is_none")]
    entry: Option<u64>,
    explained: Option<u64>,
    rule: &'static str,
}

/// Returns the object of what [`unfolded_text`](crate::document::unfolded_text) tells.
pub fn unfolded_json(alloc: Global, wrong: Option<u64>) -> Result<Vec<u8>, AllocError> {
    let value = Unfolded {
        verdict: verdict_word(wrong),
        entry: wrong,
        explained: None,
        rule: UNFOLDED,
    };
    object_of(alloc, &value)
}

/// Where a text is wrong, and what is expected there.
#[derive(Drop, Serialize)]
pub struct WrongText<'a> {
    pub line: Option<u64>,
    pub column: Option<u64>,
    /// The part of a script, if the text is one.
    #[serde(rename = "in")]
    pub part: Option<&'a str>,
    pub found: Option<&'a str>,
    pub expected: &'a [&'a str],
    pub example: Option<&'a str>,
}

/// What is told of a text of which no entry is explained.
#[derive(Drop, Serialize)]
#[serde(tag = "verdict")]
enum Unexplained<'a> {
    #[serde(rename = "right")]
    Right { text: &'a str },
    #[serde(rename = "wrong")]
    Wrong(&'a WrongText<'a>),
    #[serde(rename = "not read")]
    NotRead { file: &'a str, reason: &'a str },
}

/// Returns the object of a right text of another kind than a history.
pub fn right_json(alloc: Global, kind: &str) -> Result<Vec<u8>, AllocError> {
    object_of(alloc, &Unexplained::Right { text: kind })
}

/// Returns the object of a text that is wrong.
pub fn wrong_json(alloc: Global, wrong: &WrongText<'_>) -> Result<Vec<u8>, AllocError> {
    object_of(alloc, &Unexplained::Wrong(wrong))
}

/// Returns the object of a file that can't be read, with the system's reason.
pub fn unread_json(alloc: Global, name: &str, reason: &str) -> Result<Vec<u8>, AllocError> {
    object_of(alloc, &Unexplained::NotRead { file: name, reason })
}
