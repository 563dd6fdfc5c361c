//! How an entry changes the hooks.

ghost use Rattle.std.specs.Prelude.{◌≡◌, true, false, if◌then◌else◌, None};
ghost use Rattle.frame.specs.Below.{Counts, first_of, named_by, ready_by};
ghost use Rattle.frame.specs.Effects.{IsAllowed, OpensNobody, counts_after, may_name};

use crate::hooks::{Gave, Hooks, Taken};
use acquire_queue::queue::Queue;
use deciding::entries::named;
use history::entry::{Entry, Word};

/// Applies an entry to the hooks. Returns whether the entry may let another waiter go on.
#[inline(always)]
pub fn change<H: Hooks>(hooks: &mut H, entry: Entry) -> bool
    requires { (k : Counts) × H.agrees hooks.old k × IsAllowed entry.word k entry }
    ensures changed { (k : Counts) → H.agrees hooks.old k → IsAllowed entry.word k entry
        → H.agrees hooks.new (counts_after entry.word k entry) }
    ensures object { H.object_of hooks.new ≡ H.object_of hooks.old }
    ensures nobody { result ≡ false → (k : Counts) → H.agrees hooks.old k → IsAllowed entry.word k entry
        → OpensNobody entry.word k (counts_after entry.word k entry) entry.seat }
    ensures word { result ≡ true → may_name entry.word ≡ true }
{
    match entry.word {
        Word::Got | Word::TryGot => {
            let _taken = hooks.take(entry.seat, entry.mode, entry.n);
            false
        }
        Word::Granted => hooks.take(entry.seat, entry.mode, entry.n) == Taken::More,
        Word::Gave | Word::Counted => {
            hooks.give(entry.seat, entry.mode, entry.n) == Ok(Gave::Open)
        }
        Word::Left => true,
        Word::Await => {
            let _holds = hooks.let_go_all(entry.seat);
            true
        }
        Word::Back => {
            hooks.restore(entry.seat, entry.n);
            false
        }
        Word::Drained => {
            let _permits = hooks.drain();
            false
        }
        _ => false,
    }
}

/// Returns the seat of the head of the queue, if it could acquire what it asks for.
#[inline(always)]
pub fn first_ready<H: Hooks>(hooks: &H, queue: &Queue) -> Option<u16>
    ensures { (k : Counts) → H.agrees hooks.now k → result ≡ ready_by k (first_of queue.now.arrivals) }
{
    let first = queue.first()?;
    if hooks.could(first.seat, first.mode, first.n) {
        Some(first.seat)
    } else {
        None
    }
}

/// Returns the waiter that a seat's entry names, from the waiter that was ready before it and the state after
/// it.
#[inline(always)]
pub fn whom_named<H: Hooks>(
    may_name: bool,
    before: Option<u16>,
    hooks: &H,
    queue: &Queue,
    seat: u16,
) -> Option<u16>
    ensures { (k : Counts) → H.agrees hooks.now k
        → result ≡
        (if may_name then named_by before (ready_by k (first_of queue.now.arrivals)) seat else None) }
{
    if may_name {
        named(before, first_ready(hooks, queue), seat)
    } else {
        None
    }
}
