//! The HTML document.

ghost use Rattle.std.specs.Prelude.{IfOk};
ghost use Rattle.history.specs.Header.{IsInRange};
ghost use Rattle.web_page.specs.Page.{IsPage};

use crate::data::Data;
use crate::escape::put_escaped;
use crate::texts::{CLOSING, OPENING};
use history::entry::Entry;
use picture::naming::Names;
use picture::picture::Picture;
use serde_json::Value;
use std::alloc::{AllocError, Global};

/// Returns the page of a picture. `entries` are those that the picture shows, and `start` says who waits before
/// them, in order, or is null if that is not known. The page tells seats and conditions by their numbers, with the
/// names that they were given.
pub fn page_text(
    alloc: Global,
    names: &Names,
    picture: &Picture,
    entries: &[Entry],
    start: Value,
) -> Result<Vec<u8>, AllocError>
    requires { IsInRange picture.now.header }
    ensures { IfOk result (λ text. IsPage text.items) }
{
    let data = Data::of(alloc, names, picture, entries, start)?;
    let Ok(json) = serde_json::to_vec(alloc, &data) else {
        return Err(AllocError);
    };
    let mut out = Vec::new(alloc);
    out.extend_from_slice(OPENING)?;
    put_escaped(&mut out, &json)?;
    out.extend_from_slice(CLOSING)?;
    Ok(out)
}
