//! Judging the entries of a history one after another.

ghost use Rattle.std.specs.Prelude.{◌≡◌, ◌<◌, ◌∷◌, ◌↔◌, [], List, IfOk, IsOkUnless, IsTrue};
ghost use Rattle.audit.specs.Below.{based, IsGood, IsInRange, IsLegal, Start, opening, Entry};
ghost use Rattle.audit.specs.Auditor.{CanFollow, HasJudged, IsAuditor};
ghost use Rattle.audit.specs.Ledger.{LedgerStand};
ghost use Rattle.audit.specs.Verdict.{IsJudgement};

use crate::ledger::Ledger;
use crate::verdict::Judgement;
use history::base::Base;
use history::entry::Entry;
use history::fault::Fault;
use history::header::Header;
use std::alloc::Global;

/// Judges a history whose entries come one after another, and keeps none of them.
///
/// Entries after the first illegal one are counted, and not judged.
#[derive(Drop)]
pub struct Auditor {
    ledger: Ledger,
    count: u64,
    wrong: Option<u64>,
}

impl Auditor {
    /// Returns an auditor of an object as opened. If an allocation fails, returns `OutOfMemory`.
    pub fn open(alloc: Global, header: Header) -> Result<Self, Fault>
        requires { IsInRange header }
        ensures judged { IfOk result (HasJudged (opening header) []) }
        ensures memory { IsOkUnless result Fault.OutOfMemory }
    {
        match Ledger::open(alloc, header) {
            Ok(ledger) => Ok(Auditor::new(ledger)),
            Err(fault) => Err(fault),
        }
    }

    /// Returns an auditor of an object that begins on a base. If an allocation fails, returns `OutOfMemory`.
    pub fn open_on(alloc: Global, base: &Base) -> Result<Self, Fault>
        requires range { IsInRange base.now.header }
        requires good { IsGood base.now }
        ensures judged { IfOk result (HasJudged (based base.now) []) }
        ensures memory { IsOkUnless result Fault.OutOfMemory }
    {
        match Ledger::open_on(alloc, base) {
            Ok(ledger) => Ok(Auditor::new(ledger)),
            Err(fault) => Err(fault),
        }
    }

    /// Returns an auditor with this ledger, which has seen no entry.
    fn new(ledger: Ledger) -> Self
        ensures { (s : Start) → LedgerStand s [] ledger → HasJudged s [] result }
    {
        Auditor {
            ledger,
            count: 0,
            wrong: None,
        }
    }

    /// Judges one more entry, of one of the seats. It allocates nothing.
    #[inline(always)]
    pub fn follow(&mut self, entry: Entry)
        requires { CanFollow self.old entry }
        ensures { (s : Start) (h : List Entry) → HasJudged s h self.old →
            entry.seat < s.header.seats → HasJudged s (entry ∷ h) self.new }
    {
        if self.wrong.is_none() && self.ledger.admits_at_once(entry) {
            self.ledger.follow(entry);
            self.count += 1;
        } else {
            self.follow_in_full(entry);
        }
    }

    /// As `follow`, for any entry.
    #[inline(never)]
    fn follow_in_full(&mut self, entry: Entry)
        requires { CanFollow self.old entry }
        ensures { (s : Start) (h : List Entry) → HasJudged s h self.old →
            entry.seat < s.header.seats → HasJudged s (entry ∷ h) self.new }
    {
        match self.wrong {
            Some(_) => {}
            None => if self.ledger.admits(entry) {
                self.ledger.follow(entry);
            } else {
                self.wrong = Some(self.count);
            }
        }
        self.count += 1;
    }

    /// Returns whether all entries so far are legal.
    #[inline(always)]
    pub fn is_legal(&self) -> bool
        ensures { (s : Start) (h : List Entry) → HasJudged s h self.now → IsTrue result ↔ IsLegal s h }
    {
        match self.wrong {
            None => true,
            Some(_) => false,
        }
    }

    /// Returns the judgement on the entries so far.
    pub fn judgement(&self) -> Judgement
        requires { IsAuditor self.now }
        ensures { (s : Start) (h : List Entry) → HasJudged s h self.now → IsJudgement s h result }
    {
        match self.wrong {
            Some(number) => Judgement::NotLegal(number),
            None => Judgement::Legal(self.ledger.add_up()),
        }
    }
}
