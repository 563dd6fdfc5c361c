//! The verdict on a history.

ghost use Rattle.std.specs.Prelude.{◌≡◌, ◌↔◌, [], ℕ, IfOk, IsOkUnless};
ghost use Rattle.audit.specs.Below.{IsBasedWell, start_on, IsInRange, AreSeated, IsLegal};
ghost use Rattle.audit.specs.Auditor.{HasJudged};
ghost use Rattle.audit.specs.Verdict.{IsFirstWrong, IsJudgement, verdict_of};
ghost use Rattle.audit.specs.declared.verdict.Verdict.TheVariants.{Legal, NotLegal};

use crate::auditor::Auditor;
use crate::sums::Totals;
use history::entries::History;
use history::fault::Fault;
use history::header::Header;
use std::alloc::Global;

/// The verdict of an audit on a history.
#[derive(Clone, Copy, Debug, Drop, PartialEq, Eq)]
pub enum Verdict {
    /// Each entry is one that a step of its seat makes after the entries before it.
    Legal,
    /// The number of the first entry that no step of its seat makes. The first entry has number 0.
    NotLegal(u64),
}

/// A verdict, and the totals of a legal history.
#[derive(Clone, Copy, Debug, Drop, PartialEq, Eq)]
pub enum Judgement {
    /// As [`Verdict::Legal`], with the totals at the end.
    Legal(Totals),
    /// As [`Verdict::NotLegal`].
    NotLegal(u64),
}

impl Judgement {
    /// Returns the verdict without the totals.
    pub fn verdict(&self) -> Verdict
        ensures { result ≡ verdict_of self.now }
    {
        match self {
            Judgement::Legal(_) => Verdict::Legal,
            Judgement::NotLegal(number) => Verdict::NotLegal(*number),
        }
    }
}

/// Judges a history of the header's object, whatever its source, and adds up its totals if it is legal.
///
/// It begins on its base, or, if it has none, as the object is opened. It is legal if and only if each entry
/// is the one that some step of its seat makes after the entries before it. Room and the waiters that entries
/// name play no part. Entries after the first illegal one aren't judged, and each entry before it is judged
/// once.
///
/// The header must be in range, the base a good one of this header, and each entry of one of its seats. If an
/// allocation fails, returns `OutOfMemory`.
pub fn judge(alloc: Global, header: &Header, history: &History) -> Result<Judgement, Fault>
    requires range { IsInRange header.now }
    requires based { IsBasedWell header.now history.now.base }
    requires seated { AreSeated (start_on header.now history.now) history.now.entries }
    ensures judged { IfOk result (IsJudgement (start_on header.now history.now) history.now.entries) }
    ensures memory { IsOkUnless result Fault.OutOfMemory }
{
    let mut auditor = begun(alloc, header, history)?;
    for number in 0..history.len() {
        let Some(entry) = history.get(number) else {
            unreachable!()
        };
        auditor.follow(entry);
    }
    Ok(auditor.judgement())
}

/// Returns an auditor of what a history begins from, which has seen none of its entries.
fn begun(alloc: Global, header: &Header, history: &History) -> Result<Auditor, Fault>
    requires range { IsInRange header.now }
    requires based { IsBasedWell header.now history.now.base }
    ensures judged { IfOk result (HasJudged (start_on header.now history.now) []) }
    ensures memory { IsOkUnless result Fault.OutOfMemory }
{
    match history.base() {
        Some(base) => Auditor::open_on(alloc, base),
        None => Auditor::open(alloc, *header),
    }
}

/// Returns the verdict on a history, as [`judge`] finds it.
pub fn check(alloc: Global, header: &Header, history: &History) -> Result<Verdict, Fault>
    requires range { IsInRange header.now }
    requires based { IsBasedWell header.now history.now.base }
    requires seated { AreSeated (start_on header.now history.now) history.now.entries }
    ensures legal { IfOk result (λ v. (v ≡ Legal)
        ↔ IsLegal (start_on header.now history.now) history.now.entries) }
    ensures first { IfOk result (λ v. (no : ℕ) → v ≡ NotLegal no →
        IsFirstWrong (start_on header.now history.now) history.now.entries no) }
    ensures memory { IsOkUnless result Fault.OutOfMemory }
{
    match judge(alloc, header, history) {
        Ok(judgement) => Ok(judgement.verdict()),
        Err(fault) => Err(fault),
    }
}
