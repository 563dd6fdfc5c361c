//! A summary as one JSON object.

use crate::shown::shown_of;
use crate::summary::Summary;
use serde_json::to_vec;
use std::alloc::{AllocError, Global};

/// As [`summary_text`](crate::document::summary_text), as one JSON object.
pub fn summary_json(
    alloc: Global,
    folded: u64,
    wrong: Option<u64>,
    summary: &Summary,
) -> Result<Vec<u8>, AllocError> {
    let shown = shown_of(alloc, folded, wrong, summary)?;
    let Ok(mut object) = to_vec(alloc, &shown) else {
        return Err(AllocError);
    };
    object.push(b'\n')?;
    Ok(object)
}
