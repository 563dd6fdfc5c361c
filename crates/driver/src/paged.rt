//! The page that steps through a history.

ghost use Rattle.driver.specs.inner.Judged.{IsSound};

use crate::choice::Choice;
use crate::drawn::{legal_front, picture_of};
use crate::explained::{entry_at, explained_at, front};
use crate::judged::Judged;
use crate::limits::UNCHOSEN;
use crate::notation::Notation;
use explaining::state::state_before;
use picture::naming::Names;
use serde_json::Value;
use std::alloc::{AllocError, Global};
use web_page::data::start_of;
use web_page::document::page_text;

/// Returns the page that steps through the chosen entries. If none were chosen and the history isn't legal, they end
/// before the first illegal one.
pub(crate) fn paged_text(
    alloc: Global,
    names: &Names,
    choice: Choice,
    judged: Judged,
) -> Result<Vec<u8>, AllocError>
    requires { IsSound judged }
{
    let wrong = judged.wrong();
    let choice = choice.or_near(wrong, UNCHOSEN);
    let folded = judged.folded();
    let end = choice.end(folded);
    let mut picture = picture_of(alloc, choice, end, &judged)?;
    let verdict = judged.judgement.verdict();
    let Judged { base, entries, .. } = judged;
    let legal = legal_front(&entries, verdict);
    let next = entry_at(&entries, legal.len() as u64);
    let first = choice.first(folded).min(legal.len() as u64);
    let (before, rest) = legal.split_at(first as usize);
    let shown = front(rest, end.saturating_sub(first));
    let Ok(state) = state_before(base, before) else {
        return Err(AllocError);
    };
    let Some(state) = state else {
        return page_text(alloc, names, &picture, shown, Value::Null);
    };
    let start = start_of(alloc, &state)?;
    if next.is_some() {
        picture.why = explained_at(alloc, Notation::Lines, state, rest, next, wrong)?;
    }
    page_text(alloc, names, &picture, shown, start)
}
