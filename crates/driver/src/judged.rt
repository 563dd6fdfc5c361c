//! Reading a history text, and judging its entries as their lines are read.

ghost use Rattle.std.specs.Prelude.{◌≡◌, ◌+◌, ◌<◌, ◌≤◌, ◌∷◌, ◌^◌, ◌↔◌, IsTrue, IfErr, IfOk, IfSome, IsErrOf, IsOkUnless, List, OnOk, Some, [], false, is_some, length};
ghost use Rattle.std.specs.Option.{option_copied};
ghost use Rattle.std.specs.Io.KnownBytes.{IsAtEnd};
ghost use Rattle.driver.specs.Below.{HasJudged, based, IsBasedWell, or_opening, IsGood, IsInRange, IsLegal, Start, Entry, MOST_FOLDED, history_form, IsReadNoFurther, Memory, HasSummed, verdict_of};
ghost use Rattle.driver.specs.HistoryReader.{IsStart, base_held};
ghost use Rattle.driver.specs.TextReader.{IsFaultOf};
ghost use Rattle.driver.specs.inner.HistoryReader.{IsFaultAfterBase};
ghost use Rattle.driver.specs.inner.Judged.{AreSums, CanFollow, CanSumUp, Follows, IsFollowed, IsJudgedOf, IsSound, kept_with};
ghost use Rattle.driver.specs.inner.Telling.{is_summed, wrong_of};

use crate::history_reader::HistoryReader;
use crate::telling::Telling;
use audit::auditor::Auditor;
use audit::verdict::{Judgement, Verdict};
use history::base::Base;
use history::entry::Entry;
use history::fault::Fault;
use history::header::Header;
use std::alloc::{AllocError, Global};
use streams::source::Source;
use streams::stream_fault::StreamFault;
use summing::summing::Summing;

/// A history that was read and judged.
#[derive(Drop)]
pub(crate) struct Judged {
    pub(crate) base: Base,
    /// How many entries come after the base.
    pub(crate) count: u64,
    /// How many calls ended, with those before the base.
    pub(crate) calls: u64,
    pub(crate) judgement: Judgement,
    /// The entries that were kept.
    pub(crate) entries: Vec<Entry>,
    /// The sums of the entries before the first illegal one.
    pub(crate) summing: Option<Summing>,
}

impl Judged {
    /// Returns how many entries were folded into the base.
    pub(crate) fn folded(&self) -> u64
        requires { IsGood self.now.base }
        ensures value { result ≡ self.now.base.entries }
        ensures few { result ≤ MOST_FOLDED }
    {
        self.base.entries as u64
    }

    /// Returns the number of the first illegal entry.
    pub(crate) fn wrong(&self) -> Option<u64>
        requires { IsSound self.now }
        ensures { result ≡ wrong_of self.now.base.entries (verdict_of self.now.judgement) }
    {
        match self.judgement.verdict() {
            Verdict::Legal => None,
            Verdict::NotLegal(number) => Some(self.folded() + number),
        }
    }

    /// Returns the header of the object.
    pub(crate) fn header(&self) -> Header
        ensures { result ≡ self.now.base.header }
    {
        self.base.header
    }
}

/// Reads a history text, and judges its entries from its base on, each as its line is read. Keeps of them what is
/// needed for what is told.
pub(crate) fn judged_of<R: Source>(
    alloc: Global,
    reader: &mut R,
    telling: Telling,
) -> Result<Judged, StreamFault>
    requires { R.failed reader.old ≡ false }
    ensures ok { IfOk result (IsJudgedOf telling (R.left reader.old)) }
    ensures err { IfErr result (IsFaultOf history_form (R.left reader.old) (R.left reader.new)) }
    ensures memory { OnOk result (IsReadNoFurther history_form (R.left reader.old) (R.left reader.new)) }
    ensures ended { OnOk result (IsAtEnd (R.left reader.new)) }
    ensures failing { IsErrOf result StreamFault.ReadFailed ↔ IsTrue (R.failed reader.new) }
{
    let mut entries = HistoryReader::open(alloc, reader)?;
    let following = follow_all(alloc, &mut entries, reader, telling)?;
    let count = entries.count();
    let calls = entries.calls();
    let base = base_of(alloc, entries)?;
    Ok(Judged {
        base,
        count,
        calls,
        judgement: following.auditor.judgement(),
        entries: following.kept,
        summing: following.summing,
    })
}

/// Returns what the history begins from.
fn base_of(alloc: Global, entries: HistoryReader) -> Result<Base, AllocError>
    ensures base { IfOk result (λ base. base ≡ base_held entries) }
    ensures header { IfOk result (λ base. base.header ≡ entries.header) }
    ensures range { IfOk result (λ base. IsInRange base.header) }
    ensures good { IfOk result IsGood }
{
    let header = entries.header();
    match entries.into_base() {
        Some(base) => Ok(base),
        None => match Base::open(alloc, &header) {
            Ok(base) => Ok(base),
            Err(_) => Err(AllocError),
        },
    }
}

/// What follows the entries of a history: an auditor, the first `most` entries, and the sums of the legal ones if
/// they are wanted.
#[derive(Drop)]
pub(crate) struct Following {
    pub(crate) auditor: Auditor,
    pub(crate) most: u64,
    pub(crate) kept: Vec<Entry>,
    pub(crate) summing: Option<Summing>,
}

impl Following {
    /// Takes one more entry of one of the seats.
    #[inline(always)]
    fn follow(&mut self, entry: Entry) -> Result<(), AllocError>
        requires { CanFollow self.old entry }
        ensures follows { OnOk result ((s : Start) (h : List Entry) → Follows s h self.old →
            entry.seat < s.header.seats → length h + 1 < 2 ^ 32 → Follows s (entry ∷ h) self.new) }
        ensures summing { is_some self.new.summing ≡ is_some self.old.summing }
    {
        self.auditor.follow(entry);
        sum_up(&mut self.summing, self.auditor.is_legal(), entry);
        keep(&mut self.kept, entry, self.most)
    }
}

/// Sums one more entry up, if sums are wanted and the entries are legal with this one.
#[inline(always)]
fn sum_up(summing: &mut Option<Summing>, is_legal: bool, entry: Entry)
    requires { CanSumUp summing.old is_legal entry }
    ensures sums { (s : Start) (h : List Entry) → IfSome summing.old (AreSums s h) →
        entry.seat < s.header.seats → length h + 1 < 2 ^ 32 → IsTrue is_legal ↔ IsLegal s (entry ∷ h) →
        IfSome summing.new (AreSums s (entry ∷ h)) }
    ensures same { is_some summing.new ≡ is_some summing.old }
{
    match summing {
        Some(sums) => add_legal(sums, is_legal, entry),
        None => {}
    }
}

/// Adds one more entry to the sums of legal ones, if they are legal with this one.
#[inline(always)]
fn add_legal(sums: &mut Summing, is_legal: bool, entry: Entry)
    requires { CanSumUp (Some sums.old) is_legal entry }
    ensures { (s : Start) (h : List Entry) → AreSums s h sums.old → entry.seat < s.header.seats →
        length h + 1 < 2 ^ 32 → IsTrue is_legal ↔ IsLegal s (entry ∷ h) → AreSums s (entry ∷ h) sums.new }
{
    if !is_legal {
        return;
    }
    sums.follow(entry);
}

/// Keeps the entry, if fewer were kept than the most that are.
#[inline(always)]
fn keep(kept: &mut Vec<Entry>, entry: Entry, most: u64) -> Result<(), AllocError>
    ensures { OnOk result (kept.new.items ≡ kept_with kept.old.items entry most) }
{
    if (kept.len() as u64) < most {
        kept.push(entry)?;
    }
    Ok(())
}

/// Follows the entries of a text from its base on, each as its line is read.
#[inline(always)]
fn follow_all<R: Source>(
    alloc: Global,
    entries: &mut HistoryReader,
    reader: &mut R,
    telling: Telling,
) -> Result<Following, StreamFault>
    requires reader { R.failed reader.old ≡ false }
    requires fresh { IsStart entries.old }
    ensures ok { IfOk result (IsFollowed entries.old (R.left reader.old) entries.new telling) }
    ensures err { IfErr result (IsFaultAfterBase entries.old (R.left reader.old) (R.left reader.new)) }
    ensures memory { OnOk result
        (IsFaultAfterBase entries.old (R.left reader.old) (R.left reader.new) Memory) }
    ensures ended { OnOk result (IsAtEnd (R.left reader.new)) }
    ensures failing { IsErrOf result StreamFault.ReadFailed ↔ IsTrue (R.failed reader.new) }
{
    let header = entries.header();
    let most = telling.kept(entries.folded());
    let Ok(mut following) = following_on(alloc, &header, entries.base(), most, telling.is_summed())
    else {
        return Err(StreamFault::Memory);
    };
    while let Some(entry) = entries.next(reader)? {
        match following.follow(entry) {
            Ok(()) => {}
            Err(_) => return Err(StreamFault::Memory),
        }
    }
    Ok(following)
}

/// Returns what has followed no entry of an object on a base, or as opened.
fn following_on(
    alloc: Global,
    header: &Header,
    base: Option<&Base>,
    most: u64,
    is_summed: bool,
) -> Result<Following, Fault>
    requires range { IsInRange header.now }
    requires based { IsBasedWell header.now (option_copied base) }
    ensures follows { IfOk result (Follows (based (or_opening header.now (option_copied base.entry))) []) }
    ensures summing { IfOk result (λ following. is_some following.summing ≡ is_summed) }
    ensures memory { IsOkUnless result Fault.OutOfMemory }
{
    let auditor = auditor_on(alloc, header, base)?;
    let summing = summing_on(alloc, header, base, is_summed)?;
    let kept = Vec::new(alloc);
    Ok(Following {
        auditor,
        most,
        kept,
        summing,
    })
}

/// Returns an auditor that has seen no entry of an object on a base, or as opened.
fn auditor_on(alloc: Global, header: &Header, base: Option<&Base>) -> Result<Auditor, Fault>
    requires range { IsInRange header.now }
    requires based { IsBasedWell header.now (option_copied base) }
    ensures judged { IfOk result (HasJudged (based (or_opening header.now (option_copied base.entry))) []) }
    ensures memory { IsOkUnless result Fault.OutOfMemory }
{
    match base {
        Some(base) => Auditor::open_on(alloc, base),
        None => Auditor::open(alloc, *header),
    }
}

/// Returns the sums of no entry of an object on a base, or as opened, if they are wanted.
fn summing_on(
    alloc: Global,
    header: &Header,
    base: Option<&Base>,
    is_summed: bool,
) -> Result<Option<Summing>, Fault>
    requires range { IsInRange header.now }
    requires based { IsBasedWell header.now (option_copied base) }
    ensures summed { IfOk result (λ sums.
        IfSome sums (HasSummed (based (or_opening header.now (option_copied base.entry))) [])) }
    ensures wanted { IfOk result (λ sums. is_some sums ≡ is_summed) }
    ensures memory { IsOkUnless result Fault.OutOfMemory }
{
    if !is_summed {
        return Ok(None);
    }
    match base {
        Some(base) => Ok(Some(Summing::open(alloc, base)?)),
        None => {
            let opening = Base::open(alloc, header)?;
            Ok(Some(Summing::open(alloc, &opening)?))
        }
    }
}
