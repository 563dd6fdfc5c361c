//! The state after a part of a history, from which each question about the next entry is answered at once.

ghost use Rattle.std.specs.Prelude.{◌≡◌, ◌<◌, ◌∷◌, [], List, IfOk, IsOkUnless};
ghost use Rattle.audit.specs.Below.{based, IsGood, IsInRange, Start, opening, Entry};
ghost use Rattle.audit.specs.Ledger.{HasSeat, IsNext, LedgerStand};

use crate::holds::Holds;
use crate::waiting::Waiting;
use deciding::amounts::Amounts;
use history::base::Base;
use history::entry::Entry;
use history::fault::Fault;
use history::header::Header;
use std::alloc::Global;

/// The state after the first entries of a legal history: who holds what, who waits, and the numbers of
/// permits.
///
/// It is opened for no entries, or for those that a base has folded, and takes one more with each
/// [`note`](Ledger::note). It keeps no history: each question about the next entry is answered from its
/// counts and lists.
#[derive(Drop)]
pub struct Ledger {
    pub(crate) header: Header,
    pub(crate) holds: Holds,
    pub(crate) waiting: Waiting,
    pub(crate) amounts: Amounts,
}

impl Ledger {
    /// Returns the ledger of an object as opened. If an allocation fails, returns `OutOfMemory`.
    pub fn open(alloc: Global, header: Header) -> Result<Self, Fault>
        requires { IsInRange header }
        ensures stand { IfOk result (λ ledger. LedgerStand (opening header) [] ledger) }
        ensures memory { IsOkUnless result Fault.OutOfMemory }
    {
        let holds = Holds::open(alloc, header.seats)?;
        let waiting = Waiting::open(alloc, header)?;
        Ok(Ledger {
            header,
            holds,
            waiting,
            amounts: Amounts::open(header.object),
        })
    }

    /// Returns the ledger of a base with no entry after it. If an allocation fails, returns `OutOfMemory`.
    pub fn open_on(alloc: Global, base: &Base) -> Result<Self, Fault>
        requires range { IsInRange base.now.header }
        requires good { IsGood base.now }
        ensures stand { IfOk result (LedgerStand (based base.now) []) }
        ensures memory { IsOkUnless result Fault.OutOfMemory }
    {
        let holds = Holds::open_on(alloc, base)?;
        let waiting = Waiting::open_on(alloc, base)?;
        let amounts = Amounts::open_on(base, holds.readers);
        Ok(Ledger {
            header: base.header,
            holds,
            waiting,
            amounts,
        })
    }

    /// Takes one more entry if a step of its seat makes it, and ignores any other. It allocates nothing.
    pub fn note(&mut self, entry: Entry)
        requires { HasSeat self.old entry.seat }
        ensures follows { (s : Start) (h : List Entry) → LedgerStand s h self.old →
            entry.seat < s.header.seats → IsNext s h entry → LedgerStand s (entry ∷ h) self.new }
        ensures passes { (s : Start) (h : List Entry) → LedgerStand s h self.old → (IsNext s h entry → ⊥) →
            LedgerStand s h self.new }
    {
        if self.admits(entry) {
            self.follow(entry);
        }
    }

    /// Takes one more entry, which a step of its seat makes. It allocates nothing.
    #[inline(always)]
    pub(crate) fn follow(&mut self, entry: Entry)
        requires seat { HasSeat self.old entry.seat }
        requires next { (s : Start) (h : List Entry) → LedgerStand s h self.old → IsNext s h entry }
        ensures { (s : Start) (h : List Entry) → LedgerStand s h self.old → entry.seat < s.header.seats →
            LedgerStand s (entry ∷ h) self.new }
    {
        let object = self.header.object;
        self.waiting.note(entry);
        self.holds.note(object, entry);
        self.amounts.note(entry);
    }
}
