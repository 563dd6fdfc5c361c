//! The summary of a history.

ghost use Rattle.driver.specs.inner.Judged.{IsJudgedFor};
ghost use Rattle.driver.specs.declared.telling.Telling.TheVariants.{Summary};

use crate::judged::Judged;
use crate::notation::Notation;
use std::alloc::{AllocError, Global};
use summing::document::summary_text;
use summing::json::summary_json;

/// Returns the summary of the entries before the first illegal one in a notation.
pub(crate) fn summed_text(
    alloc: Global,
    notation: Notation,
    judged: Judged,
) -> Result<Vec<u8>, AllocError>
    requires { IsJudgedFor (Summary notation) judged }
{
    let folded = judged.folded();
    let wrong = judged.wrong();
    let Judged { summing, .. } = judged;
    let Some(summing) = summing else {
        unreachable!()
    };
    let Ok(summary) = summing.finish(alloc) else {
        return Err(AllocError);
    };
    match notation {
        Notation::Lines => summary_text(alloc, folded, wrong, &summary),
        Notation::Json => summary_json(alloc, folded, wrong, &summary),
    }
}
