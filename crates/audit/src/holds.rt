//! The holds of each seat, the owner, and the number of readers.

ghost use Rattle.std.specs.Prelude.{◌≡◌, ◌≢◌, ℕ, ◌+◌, ◌*◌, ◌<◌, ◌≤◌, ◌^◌, ◌∷◌, List, IfOk, get_or, length, map, slice_index, true, [], IsOkUnless};
ghost use Rattle.audit.specs.Below.{based, holds_of, nothing, seat_of, seat_with, total, IsGood, IsInRange, is_lock, Start, opening, Entry, X, S, Header};
ghost use Rattle.audit.specs.Holds.{HoldsStand};
ghost use Rattle.audit.specs.inner.Holds.{IsOnlyOwner, owner_after};

use deciding::tables::{held_in, sum};
use history::base::{Base, SeatBase};
use history::entry::{Entry, Mode};
use history::fault::Fault;
use history::header::Object;
use history::holds::holds_after;
use std::alloc::Global;

/// The holds of each seat by mode. For a lock also the owner, so that no table is searched for it.
#[derive(Drop)]
pub(crate) struct Holds {
    pub(crate) exclusive: Vec<u128>,
    pub(crate) shared: Vec<u128>,
    pub(crate) owner: Option<u16>,
    pub(crate) readers: u128,
}

impl Holds {
    /// Returns tables in which nobody holds anything.
    pub(crate) fn open(alloc: Global, seats: u16) -> Result<Self, Fault>
        ensures stand { IfOk result (λ holds. (k : Header) → k.seats ≡ seats →
            HoldsStand (opening k) [] holds) }
        ensures memory { IsOkUnless result Fault.OutOfMemory }
    {
        let exclusive = vec![in alloc; 0; seats as usize]?;
        let shared = vec![in alloc; 0; seats as usize]?;
        Ok(Holds {
            exclusive,
            shared,
            owner: None,
            readers: 0,
        })
    }

    /// Returns tables in which the seats hold what they hold on a base.
    pub(crate) fn open_on(alloc: Global, base: &Base) -> Result<Self, Fault>
        requires range { IsInRange base.now.header }
        requires good { IsGood base.now }
        ensures stand { IfOk result (HoldsStand (based base.now) []) }
        ensures held { IfOk result (λ holds.
            holds.readers ≡ total base.now.header.seats (λ i. (seat_of base.now i).shared)) }
        ensures memory { IsOkUnless result Fault.OutOfMemory }
    {
        let exclusive = held_in(alloc, &base.seats, Mode::X)?;
        let shared = held_in(alloc, &base.seats, Mode::S)?;
        let readers = sum(&shared);
        Ok(Holds {
            exclusive,
            shared,
            owner: owner_of(&base.seats),
            readers,
        })
    }

    /// Updates the tables for one more entry of one of the seats.
    #[inline(always)]
    pub(crate) fn note(&mut self, object: Object, entry: Entry)
        requires seat { entry.seat < length self.old.exclusive.items
            × (entry.seat < length self.old.shared.items) }
        requires bounds { (s : Start) × (h : List Entry) × HoldsStand s h self.old × (length h + 1 < 2 ^ 32) }
        ensures { (s : Start) (h : List Entry) → HoldsStand s h self.old → s.header.object ≡ object →
            (is_lock object ≡ true → IsOnlyOwner s h × IsOnlyOwner s (entry ∷ h)) →
            HoldsStand s (entry ∷ h) self.new }
    {
        let seat = entry.seat as usize;
        match entry.mode {
            Mode::X => {
                let had = self.exclusive[seat];
                let has = holds_after(object, entry, had);
                self.exclusive[seat] = has;
                self.owner = owner_after(self.owner, entry.seat, has);
            }
            Mode::S => {
                let had = self.shared[seat];
                let has = holds_after(object, entry, had);
                self.shared[seat] = has;
                self.readers = self.readers - had + has;
            }
        }
    }
}

/// Returns the seat of a base that has exclusive holds, if any.
fn owner_of(seats: &[SeatBase]) -> Option<u16>
    requires { length seats.now ≤ u16.MAX }
    ensures { result ≡ seat_with (length seats.now) (λ i. (get_or seats.now i nothing).exclusive) }
{
    let mut owner = None;
    for seat in 0..seats.len() {
        if seats[seat].exclusive > 0 {
            owner = Some(seat as u16);
        }
    }
    owner
}

/// Returns the owner after this seat has `has` exclusive holds.
#[inline(always)]
fn owner_after(owner: Option<u16>, seat: u16, has: u128) -> Option<u16>
    ensures { result ≡ owner_after owner seat has }
{
    if has > 0 {
        return Some(seat);
    }
    owner.filter(|other| *other != seat)
}
