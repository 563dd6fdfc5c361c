//! The picture of a history.

ghost use Rattle.std.specs.Prelude.{◌≡◌, IfOk};
ghost use Rattle.driver.specs.inner.Judged.{IsSound};
ghost use Rattle.driver.specs.inner.Telling.{legal_front};
ghost use Rattle.history.specs.Header.{IsInRange};

use crate::choice::Choice;
use crate::explained::{entry_at, explained_at, front};
use crate::judged::Judged;
use crate::limits::UNCHOSEN_WRONG;
use crate::notation::Notation;
use audit::verdict::Verdict;
use drawing::drawn_entries::drawn_of;
use history::entry::Entry;
use picture::columns::overview_text;
use picture::document::svg_text;
use picture::naming::Names;
use picture::picture::Picture;
use std::alloc::{AllocError, Global};

/// Returns the picture of the chosen entries. If none were chosen, that of the first illegal entry and some before it,
/// or the summary in columns of a legal history with many.
pub(crate) fn drawn_text(
    alloc: Global,
    names: &Names,
    choice: Choice,
    judged: Judged,
) -> Result<Vec<u8>, AllocError>
    requires { IsSound judged }
{
    let wrong = judged.wrong();
    let choice = choice.or_near(wrong, UNCHOSEN_WRONG);
    if choice.is_summed(judged.count) {
        let whole = picture_of(alloc, choice, u64::MAX, &judged)?;
        return overview_text(alloc, names, &whole, &judged.entries);
    }
    let end = choice.end(judged.folded());
    let mut picture = picture_of(alloc, choice, end, &judged)?;
    let verdict = judged.judgement.verdict();
    let Judged { base, entries, .. } = judged;
    let legal = legal_front(&entries, verdict);
    let next = entry_at(&entries, legal.len() as u64);
    if next.is_some() {
        picture.why = explained_at(alloc, Notation::Lines, base, legal, next, wrong)?;
    }
    svg_text(alloc, names, &picture, front(&entries, end))
}

/// Returns what is to be drawn of the kept entries before this many and before the first illegal one.
pub(crate) fn picture_of(
    alloc: Global,
    choice: Choice,
    end: u64,
    judged: &Judged,
) -> Result<Picture, AllocError>
    requires { IsSound judged.now }
    ensures { IfOk result (λ picture. IsInRange picture.header) }
{
    let folded = judged.folded();
    let legal = legal_front(&judged.entries, judged.judgement.verdict());
    let shown = front(legal, end);
    let from = choice.first(folded);
    let drawn = drawn_of(alloc, &judged.base, from, shown)?;
    let entries = folded + judged.count;
    Ok(Picture {
        header: judged.header(),
        folded,
        from,
        to: shown.len() as u64,
        entries,
        is_cut: choice.is_cut(judged.count),
        wrong: judged.wrong(),
        why: Vec::new(alloc),
        drawn,
    })
}

/// Returns the entries before the first illegal one.
pub(crate) fn legal_front(entries: &[Entry], verdict: Verdict) -> &[Entry]
    ensures { result.now ≡ legal_front verdict entries.now }
{
    match verdict {
        Verdict::Legal => entries,
        Verdict::NotLegal(number) => front(entries, number),
    }
}
