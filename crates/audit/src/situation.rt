//! The ledger's answers to the questions of a decision.

ghost use Rattle.std.specs.Prelude.{◌≡◌, List, true};
ghost use Rattle.audit.specs.Below.{IsClaim, HasSeat, is_none_or, is_seat, counts, free, is_semaphore, Start, Entry};
ghost use Rattle.audit.specs.Ledger.{LedgerStand};

use crate::ledger::Ledger;
use deciding::claim::Claim;
use deciding::situation::ObjectState;
use deciding::sleep::LastSleep;
use history::arrival::Arrival;
use history::entry::Mode;
use history::header::{Header, Object};

impl Ledger {
    #[inline(always)]
    fn owns(&self, seat: u16) -> bool
        ensures { result ≡ is_seat self.now.holds.owner seat }
    {
        self.holds.owner == Some(seat)
    }

    #[inline(always)]
    fn is_free_for(&self, seat: u16) -> bool
        ensures { result ≡ is_none_or self.now.holds.owner seat }
    {
        self.holds.owner.is_none_or(|owner| owner == seat)
    }

    /// Returns the free permits of a semaphore, else 0.
    #[inline(always)]
    fn permits(&self) -> i64
        requires { (s : Start) × (h : List Entry) × LedgerStand s h self.now }
        ensures { (s : Start) (h : List Entry) → LedgerStand s h self.now
            → is_semaphore s.header.object ≡ true → result ≡ free s h }
    {
        match self.header.object {
            Object::Semaphore(_, _) => self.free(),
            Object::Lock(_) | Object::ReadWrite(_) | Object::Latch(_) => 0,
        }
    }

    /// Returns what decides whether the seat could acquire.
    #[inline(always)]
    fn claim(&self, seat: u16) -> Claim
        requires { HasSeat LedgerStand self.now seat }
        ensures { (s : Start) (h : List Entry) → LedgerStand s h self.now → IsClaim (counts s h) seat result }
    {
        Claim {
            object: self.header.object,
            owns: self.owns(seat),
            admitted: self.is_free_for(seat),
            own: self.held(seat, Mode::X),
            reads: self.held(seat, Mode::S) > 0,
            readers: self.holds.readers,
            free: self.permits(),
            count: self.latch_count(),
        }
    }
}

impl ObjectState for Ledger {
    ghost use Rattle.audit.specs.Ledger.{LedgerStand};

    ghost stands = { LedgerStand };

    ghost is_history = { λ s h ledger st. st.past };

    fn header(&self) -> &Header {
        &self.header
    }

    fn is_strict(&self) -> bool {
        self.header.object.is_strict()
    }

    #[inline(always)]
    fn holds_back(&self, seat: u16, mode: Mode) -> bool {
        let first = self.waiting.line.first().map(|first| first.mode);
        self.claim(seat).holds_back(mode, first)
    }

    #[inline(always)]
    fn at_limit(&self, seat: u16, mode: Mode) -> bool {
        self.claim(seat).at_limit(mode)
    }

    #[inline(always)]
    fn could(&self, seat: u16, mode: Mode, n: u32) -> bool {
        self.claim(seat).could(mode, n)
    }

    #[inline(always)]
    fn held(&self, seat: u16, mode: Mode) -> u128 {
        match mode {
            Mode::X => self.holds.exclusive[seat as usize],
            Mode::S => self.holds.shared[seat as usize],
        }
    }

    fn free(&self) -> i64 {
        self.amounts.free as i64
    }

    fn latch_count(&self) -> u32 {
        match self.header.object {
            Object::Latch(opening) => u64::from(opening).saturating_sub(
                self.amounts.counted,
            ) as u32,
            Object::Lock(_) | Object::ReadWrite(_) | Object::Semaphore(_, _) => 0,
        }
    }

    fn queue_length(&self) -> u16 {
        self.waiting.line.live_len()
    }

    #[inline(always)]
    fn first(&self) -> Option<Arrival> {
        self.waiting.line.first()
    }

    #[inline(always)]
    fn place_of(&self, seat: u16) -> Option<Arrival> {
        self.waiting.line.place_of(seat)
    }

    #[inline(always)]
    fn sleeps(&self, seat: u16) -> bool {
        self.waiting.asleep.sleeper_of(seat).is_some()
    }

    fn waiters(&self, condition: u8) -> u16 {
        self.waiting.asleep.len(condition)
    }

    fn last_sleep(&self, seat: u16) -> LastSleep {
        self.waiting.last_sleep[seat as usize]
    }
}
