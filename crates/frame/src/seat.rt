//! What the core keeps of each seat.

ghost use Rattle.std.specs.Prelude.{◌≡◌, ◌+◌, ◌<◌, ◌^◌, length, if◌then◌else◌, slice_index_or, slice_set, false, IfSome};
ghost use Rattle.history.specs.Entry.{ends_call};
ghost use Rattle.frame.specs.Seat.{seat_after, seat_behind, no_holds, holds_in, telling, with_mark};

use deciding::sleep::LastSleep;
use history::entries::ends_call;
use history::entry::{End, Entry, Mode, Word};
use history::header::Object;
use history::holds::holds_after;

/// The calls and holds of a seat, its last sleep, and whether it was told that it could go.
#[derive(Clone, Copy, Debug, PartialEq, Eq)]
pub struct Seat {
    /// How many calls it ended, with those of folded entries.
    pub calls: u64,
    /// Exclusive holds.
    pub exclusive: u32,
    /// Shared holds. Those of a semaphore may pass 64 bits.
    pub shared: u128,
    /// Its last sleep at a condition.
    pub sleep: LastSleep,
    /// Whether it was told that it could go, as `Core::is_told` returns it.
    pub told: bool,
}

impl Seat {
    /// Returns a seat that ended no call, holds nothing and never slept.
    pub fn free() -> Seat
        ensures { result ≡ no_holds }
    {
        Seat {
            calls: 0,
            exclusive: 0,
            shared: 0,
            sleep: LastSleep {
                condition: 0,
                holds: 0,
                how: End::None,
            },
            told: false,
        }
    }

    pub fn holds(self, mode: Mode) -> u128
        ensures { result ≡ holds_in mode self }
    {
        match mode {
            Mode::X => u128::from(self.exclusive),
            Mode::S => self.shared,
        }
    }

    /// Updates the record for an entry of its seat.
    #[inline(always)]
    pub fn follow(&mut self, object: Object, entry: Entry)
        requires calls { self.old.calls + 1 < 2 ^ 64 }
        requires exclusive { (seat_after object entry self.old).exclusive < 2 ^ 32 }
        requires shared { (seat_after object entry self.old).shared < 2 ^ 128 }
        ensures { self.new ≡ seat_after object entry self.old }
    {
        self.calls = calls_after(self.calls, entry.word);
        match entry.mode {
            Mode::X => {
                self.exclusive = holds_after(object, entry, u128::from(self.exclusive)) as u32;
            }
            Mode::S => self.shared = holds_after(object, entry, self.shared),
        }
        match entry.word {
            Word::Await => {
                self.sleep = LastSleep {
                    condition: entry.at,
                    holds: entry.n,
                    how: End::Signalled,
                };
            }
            Word::Lapse => {
                self.sleep.how = entry.end;
                self.told = true;
            }
            Word::Granted | Word::Left | Word::Back => self.told = false,
            _ => {}
        }
    }
}

/// Returns how many calls a seat ended, after an entry with this word.
#[inline(always)]
fn calls_after(calls: u64, word: Word) -> u64
    requires { calls + 1 < 2 ^ 64 }
    ensures { result ≡ calls + (if ends_call word then 1 else 0) }
{
    calls + u64::from(ends_call(word))
}

/// Updates the record of the entry's seat in a table.
#[inline(always)]
pub fn update(seats: &mut Vec<Seat>, object: Object, entry: Entry)
    requires seat { entry.seat < length seats.old.items }
    requires calls { (slice_index_or seats.old.items entry.seat no_holds).calls + 1 < 2 ^ 64 }
    requires exclusive { (seat_behind object entry seats.old.items).exclusive < 2 ^ 32 }
    requires shared { (seat_behind object entry seats.old.items).shared < 2 ^ 128 }
    ensures { seats.new.items
        ≡ slice_set seats.old.items entry.seat (seat_behind object entry seats.old.items) }
{
    seats[entry.seat as usize].follow(object, entry);
}

/// Marks the waiter that an entry names, if it names one.
#[inline(always)]
pub fn tell(seats: &mut Vec<Seat>, name: Option<u16>)
    requires { IfSome name (λ seat. seat < length seats.old.items) }
    ensures { seats.new.items ≡ telling name seats.old.items }
{
    if let Some(seat) = name {
        seats[seat as usize].told = true;
    }
}

/// Clears the mark of a seat.
#[inline(always)]
pub fn untell(seats: &mut Vec<Seat>, seat: u16)
    requires { seat < length seats.old.items }
    ensures { seats.new.items ≡ with_mark false seat seats.old.items }
{
    seats[seat as usize].told = false;
}
