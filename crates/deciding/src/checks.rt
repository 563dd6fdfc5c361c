//! The steps that fail and aren't recorded, in whatever state.

ghost use Rattle.std.specs.Prelude.{◌≡◌};
ghost use Rattle.deciding.specs.Below.{is_wrong_mode, is_no_condition, is_bad_amount, is_bad_number, lacks_mode, is_lock, is_semaphore, is_latch, waits};
ghost use Rattle.deciding.specs.Checks.{refused_as};

use history::entry::Mode;
use history::fault::Fault;
use history::header::{Header, Object};
use history::limits::MOST_AMOUNT;
use history::step::Step;

/// Returns the fault of a step that the object doesn't have. The mode is checked first, then the condition,
/// then the amount.
#[inline(always)]
pub fn refused_as(header: &Header, step: Step) -> Option<Fault>
    ensures { result ≡ refused_as header.now step }
{
    if is_wrong_mode(header.object, step) {
        Some(Fault::WrongMode)
    } else if is_no_condition(header, step) {
        Some(Fault::NoSuchCondition)
    } else if is_bad_amount(header.object, step) {
        Some(Fault::BadAmount)
    } else {
        None
    }
}

/// Returns whether a step is for a waiter.
#[inline(always)]
pub fn waits(step: Step) -> bool
    ensures { result ≡ waits step }
{
    matches!(step, Step::Look | Step::Expire | Step::Interrupt)
}

/// Returns whether the object is a lock or a read-write lock: it has an owner and conditions, and keeps room
/// for each hold.
#[inline(always)]
pub fn is_lock(object: Object) -> bool
    ensures { result ≡ is_lock object }
{
    matches!(object, Object::Lock(_) | Object::ReadWrite(_))
}

#[inline(always)]
fn is_semaphore(object: Object) -> bool
    ensures { result ≡ is_semaphore object }
{
    matches!(object, Object::Semaphore(_, _))
}

#[inline(always)]
fn is_latch(object: Object) -> bool
    ensures { result ≡ is_latch object }
{
    matches!(object, Object::Latch(_))
}

#[inline(always)]
fn lacks_mode(object: Object, mode: Mode) -> bool
    ensures { result ≡ lacks_mode object mode }
{
    match object {
        Object::Lock(_) => matches!(mode, Mode::S),
        Object::ReadWrite(_) => false,
        Object::Semaphore(_, _) | Object::Latch(_) => matches!(mode, Mode::X),
    }
}

#[inline(always)]
fn is_wrong_mode(object: Object, step: Step) -> bool
    ensures { result ≡ is_wrong_mode object step }
{
    match step {
        Step::Acquire(mode, _)
        | Step::TryFair(mode, _)
        | Step::EntryInterrupt(mode, _)
        | Step::Give(mode, _) => lacks_mode(object, mode),
        Step::Try(mode, _) => lacks_mode(object, mode) || is_latch(object),
        Step::Await(_) | Step::Signal(_) | Step::SignalAll(_) => !is_lock(object),
        Step::Drain => !is_semaphore(object),
        Step::Look | Step::Expire | Step::Interrupt => false,
    }
}

#[inline(always)]
fn is_no_condition(header: &Header, step: Step) -> bool
    ensures { result ≡ is_no_condition header.now step }
{
    match step {
        Step::Await(condition) | Step::Signal(condition) | Step::SignalAll(condition) => {
            header.conditions <= condition
        }
        _ => false,
    }
}

#[inline(always)]
fn is_bad_amount(object: Object, step: Step) -> bool
    ensures { result ≡ is_bad_amount object step }
{
    match step {
        Step::Acquire(_, n)
        | Step::Try(_, n)
        | Step::TryFair(_, n)
        | Step::EntryInterrupt(_, n)
        | Step::Give(_, n) => is_bad_number(object, n),
        _ => false,
    }
}

#[inline(always)]
fn is_bad_number(object: Object, n: u32) -> bool
    ensures { result ≡ is_bad_number object n }
{
    MOST_AMOUNT < n || (!is_semaphore(object) && n != 1)
}
