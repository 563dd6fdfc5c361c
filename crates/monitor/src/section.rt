//! The sections of the lock in which a seat makes a step.
//!
//! There are three ways to take the object: to wait for it, to take it if nobody has it, and to do so in a
//! program where nobody waits, and so nobody is woken either. What happens from then until the object is put
//! back is the same for all three, and stands here.
ghost use Rattle.std.specs.Prelude.{◌≡◌, false, true};
ghost use Rattle.frame.specs.Core.{counts_of};
ghost use Rattle.monitor.specs.Load.{Brings, LetsGo, Trades, given_by, holds_in, holds_of};
ghost use Rattle.monitor.specs.Shown.{shown};
ghost use Rattle.monitor.specs.inner.AtOnce.{reply_of};
ghost use Rattle.monitor.specs.inner.Load.{is_signal};
ghost use Rattle.monitor.specs.inner.Sections.{Taking, Went};
ghost use Rattle.word_lock.specs.Held.{held_ticket};
ghost use Rattle.word_lock.specs.Ticket.{Ticket};

use crate::load::Load;
use crate::pass::{share_after, share_behind};
use crate::under_lock::UnderLock;
use frame::hooks::Hooks;
use history::fault::Fault;
use history::step::{Answer, Step};
use word_lock::{Held, Token, WordLock};

// Makes a step of the seat with the object that its token took, and puts the object back. It wakes nobody. It
// returns the seat that the step named if it was done at once. Otherwise `answer` has its answer.
#[inline(always)]
pub(crate) fn step_taken<H: Hooks + Drop, L: Load>(
    lock: &WordLock<UnderLock<H, L>>,
    token: &mut Token,
    seat: u16,
    share: &mut u64,
    load: &mut L,
    held: Held<UnderLock<H, L>>,
    step: Step,
    answer: &mut Result<Answer, Fault>,
) -> Option<Option<u16>>
    requires own { (held_ticket held).lock ≡ lock.now }
    requires without { token.old.free ≡ false }
    requires taken { (t : Ticket) × Taking t (held_ticket held) held.value.laden.value.core seat share.old
        × L.carries load.old (holds_of (shown t seat share.old)) }
    requires rests { L.rests held.value.laden.value.load (counts_of held.value.laden.value.core) }
    requires brings { Brings L.is_counted (L.amount load.old) (given_by step) }
    requires fit { LetsGo step (holds_in held.value.laden.value.core seat) → L.fit load.old }
    ensures went { (t : Ticket) → Taking t (held_ticket held) held.value.laden.value.core seat share.old
        → Went t token.new seat share.old share.new step (reply_of seat step result answer.new) }
    ensures carries { L.carries load.new (holds_of (shown token.new seat share.new)) }
    ensures trades { (t : Ticket) → Taking t (held_ticket held) held.value.laden.value.core seat share.old
        → Trades L.fit L.is_counted L.amount load.old (shown t seat share.old)
        load.new (shown token.new seat share.new) }
{
    let mut held = held;
    let named = held.value.step(seat, step, load, answer);
    lock.unlock_quietly(token, held);
    *share = share_after(*share, named, answer);
    named
}

// The same for a signal. It changes nobody's holds, so the load stays where it is.
pub(crate) fn signal_taken<H: Hooks + Drop, L: Load>(
    lock: &WordLock<UnderLock<H, L>>,
    token: &mut Token,
    seat: u16,
    share: &mut u64,
    held: Held<UnderLock<H, L>>,
    step: Step,
) -> Result<Answer, Fault>
    requires own { (held_ticket held).lock ≡ lock.now }
    requires without { token.old.free ≡ false }
    requires taken { (t : Ticket) × Taking t (held_ticket held) held.value.laden.value.core seat share.old }
    requires rests { L.rests held.value.laden.value.load (counts_of held.value.laden.value.core) }
    requires signals { is_signal step ≡ true }
    ensures went { (t : Ticket) → Taking t (held_ticket held) held.value.laden.value.core seat share.old
        → Went t token.new seat share.old share.new step result }
{
    let mut held = held;
    let told = held.value.signal(seat, step);
    lock.unlock_quietly(token, held);
    *share = share_behind(*share, &told);
    told
}
