//! The synchronisers for C and for languages that call C. Objects are opened, stepped and dropped by passes.
//!
//! A static library can neither sleep nor wake a thread. So a call that may wait is made of turns: the first
//! by `aqs_begin`, each later one by `aqs_go_on`. An answer says what the caller does next, in this order: it
//! unparks the seat that is named, sets its own interrupt again if the answer says so, and parks if the call
//! waits. All code that decides is here, and proved. C parks, unparks and reads the clock
//! (`bindings/c/aqs.c`).
//!
//! C holds each seat as an [`AqsPass`] of two words. It is empty, or owns a box with the seat and its share
//! of the object, so that threads share nothing that C could touch. No export requires anything of the
//! numbers that C passes: each number is checked, and a wrong one has an answer of its own. The duties of C
//! are in `bindings/c/aqs_core.h`.
//!
//! A contract says of each call that its answer is the monitor's own clause, in numbers. `specs/Calls.antt`
//! has them, and `specs/Codes.antt` the numbers.
#![tactic(auto)]

ghost use Rattle.std.specs.Prelude.{◌≡◌, MatchOption, None};
ghost use Rattle.aqs_c.specs.Calls.{IsPassBegun, IsPassEntry, IsPassGoneOn, IsPassNumber, IsPassStep, IsPassStepAtOnce, IsPassText, IsPassTrim, contention_seen, count_seen, permits_seen};
ghost use Rattle.aqs_c.specs.Opening.{IsOpening};

mod answers;
mod calls;
mod held;
mod loose;
mod opening;
mod pass;
mod seat;
mod steps;
mod text;

pub use crate::answers::{AqsAnswer, AqsContention};
use crate::answers::{BUSY, ENTRY, FAULT, NO_PASS, NOT_DONE, nothing};
pub use crate::calls::AqsCall;
pub use crate::held::Held;
pub use crate::opening::AqsHeader;
use crate::opening::open_places;
pub use crate::pass::AqsPass;
pub use crate::steps::AqsStep;
use crate::text::put_text;
use std::alloc::Global;

/// Opens an object, puts the pass of each seat into its place, and returns 0.
///
/// Otherwise no place has changed, and it returns the number of a fault, or 254 if a place isn't empty, or
/// 255 if a number of the header is out of range or there are not as many places as seats.
#[unsafe(no_mangle)]
pub extern "C" fn aqs_open(alloc: Global, header: AqsHeader, places: &mut [AqsPass]) -> u8
    ensures { IsOpening header places.old result places.new }
{
    open_places(alloc, header, places)
}

/// One step of a pass's seat, if no other call has the object.
#[unsafe(no_mangle)]
pub extern "C" fn aqs_step_now(
    alloc: Global,
    pass: &mut AqsPass,
    step: AqsStep,
    answer: &mut AqsAnswer,
)
    ensures { IsPassStep pass.old.held.value step answer.new pass.new.held.value }
{
    match pass.take(alloc) {
        None => {
            *answer = nothing(NO_PASS, 0);
        }
        Some(mut seat) => {
            *answer = seat.step(step);
            *pass = AqsPass::of(seat);
        }
    }
}

/// An acquire of a pass's seat that succeeds at once, or a release. Returns 1, or the number of the seat that has
/// to be unparked, and 2 more. Otherwise it returns 0, and nothing was recorded.
#[unsafe(no_mangle)]
pub extern "C" fn aqs_step_at_once(alloc: Global, pass: &mut AqsPass, step: AqsStep) -> u32
    ensures { IsPassStepAtOnce pass.old.held.value step result pass.new.held.value }
{
    match pass.take(alloc) {
        None => NOT_DONE,
        Some(mut seat) => {
            let done = seat.step_at_once(step);
            *pass = AqsPass::of(seat);
            done
        }
    }
}

/// The first turn of a call that may wait, if no other call has the object.
#[unsafe(no_mangle)]
pub extern "C" fn aqs_begin(
    alloc: Global,
    pass: &mut AqsPass,
    call: &AqsCall,
    answer: &mut AqsAnswer,
)
    ensures { IsPassBegun pass.old.held.value call.now answer.new pass.new.held.value }
{
    match pass.take(alloc) {
        None => {
            *answer = nothing(NO_PASS, 0);
        }
        Some(mut seat) => {
            *answer = seat.begin(*call);
            *pass = AqsPass::of(seat);
        }
    }
}

/// The next turn of a call that waits, if no other call has the object. `woke` says how its park ended: 0
/// by an unpark, 1 by its deadline, 2 by an interrupt.
#[unsafe(no_mangle)]
pub extern "C" fn aqs_go_on(alloc: Global, pass: &mut AqsPass, woke: u8, answer: &mut AqsAnswer)
    ensures { IsPassGoneOn pass.old.held.value woke answer.new pass.new.held.value }
{
    match pass.take(alloc) {
        None => {
            *answer = nothing(NO_PASS, 0);
        }
        Some(mut seat) => {
            *answer = seat.go_on(woke);
            *pass = AqsPass::of(seat);
        }
    }
}

/// The entry of a number since the last trim, counted from 0, if no other call has the object.
#[unsafe(no_mangle)]
pub extern "C" fn aqs_entry_now(
    alloc: Global,
    pass: &mut AqsPass,
    number: u64,
    answer: &mut AqsAnswer,
)
    ensures { IsPassEntry pass.old.held.value number answer.new pass.new.held.value }
{
    match pass.take(alloc) {
        None => {
            *answer = nothing(NO_PASS, 0);
        }
        Some(mut seat) => {
            *answer = seat.entry(number);
            *pass = AqsPass::of(seat);
        }
    }
}

/// The text of the history since the last trim, if no other call has the object. Returns 0, and `length` is
/// the length of the text, which is written if it fits. Otherwise it returns the kind of an answer, and
/// `length` is as it was. If no text is written, `out` is as it was.
#[unsafe(no_mangle)]
pub extern "C" fn aqs_text_now(
    alloc: Global,
    pass: &mut AqsPass,
    out: &mut [u8],
    length: &mut u64,
) -> u8
    ensures { IsPassText pass.old.held.value result pass.new.held.value out.old out.new length.old
        length.new }
{
    match pass.take(alloc) {
        None => NO_PASS,
        Some(mut seat) => {
            let found = seat.text(alloc);
            *pass = AqsPass::of(seat);
            match found {
                Some(Ok(text)) => {
                    *length = text.len() as u64;
                    put_text(out, &text);
                    ENTRY
                }
                None => BUSY,
                Some(Err(_)) => FAULT,
            }
        }
    }
}

/// Folds all entries into the base, if no other call has the object, so that their room is free again.
/// Returns 0, and `count` is how many. Otherwise it returns the kind of an answer, and `count` is as it was.
#[unsafe(no_mangle)]
pub extern "C" fn aqs_trim_now(alloc: Global, pass: &mut AqsPass, count: &mut u64) -> u8
    ensures { IsPassTrim pass.old.held.value result count.old count.new pass.new.held.value }
{
    match pass.take(alloc) {
        None => NO_PASS,
        Some(mut seat) => {
            let found = seat.trim();
            *pass = AqsPass::of(seat);
            match found {
                Some(Ok(folded)) => {
                    *count = folded;
                    ENTRY
                }
                None => BUSY,
                Some(Err(_)) => FAULT,
            }
        }
    }
}

/// Returns 0, and sets `permits` to the free permits of a semaphore, which may be below 0, or to 0 for any
/// other object. If another call has its turn, or the pass is empty, it returns the kind of an answer, and
/// `permits` is as it was.
#[unsafe(no_mangle)]
pub extern "C" fn aqs_available_now(alloc: Global, pass: &mut AqsPass, permits: &mut i64) -> u8
    ensures { IsPassNumber permits_seen pass.old.held.value result permits.old pass.new.held.value
        permits.new }
{
    match pass.take(alloc) {
        None => NO_PASS,
        Some(mut seat) => {
            let found = seat.available();
            *pass = AqsPass::of(seat);
            put_found(found, permits)
        }
    }
}

/// Returns 0, and sets `count` to the count of a latch, or to 0 for any other object. If another call has its
/// turn, or the pass is empty, it returns the kind of an answer, and `count` is as it was.
#[unsafe(no_mangle)]
pub extern "C" fn aqs_count_now(alloc: Global, pass: &mut AqsPass, count: &mut u32) -> u8
    ensures { IsPassNumber count_seen pass.old.held.value result count.old pass.new.held.value count.new }
{
    match pass.take(alloc) {
        None => NO_PASS,
        Some(mut seat) => {
            let found = seat.count();
            *pass = AqsPass::of(seat);
            put_found(found, count)
        }
    }
}

/// Returns 0, and sets `contention`: whether the object is owned, how many seats are in its queue, and how many
/// wait in all. If another call has its turn, or the pass is empty, it returns the kind of an answer, and
/// `contention` is as it was.
#[unsafe(no_mangle)]
pub extern "C" fn aqs_contention_now(
    alloc: Global,
    pass: &mut AqsPass,
    contention: &mut AqsContention,
) -> u8
    ensures { IsPassNumber contention_seen pass.old.held.value result contention.old pass.new.held.value
        contention.new }
{
    match pass.take(alloc) {
        None => NO_PASS,
        Some(mut seat) => {
            let found = seat.contention();
            *pass = AqsPass::of(seat);
            put_found(found, contention)
        }
    }
}

/// Drops a pass, and leaves it empty. The object is freed with the last of its passes.
#[unsafe(no_mangle)]
pub extern "C" fn aqs_drop(alloc: Global, pass: &mut AqsPass)
    ensures { pass.new.held.value ≡ None }
{
    drop(pass.take(alloc));
}

// Puts what was found into its place, and returns the kind of an answer.
fn put_found<N: Copy>(found: Option<N>, place: &mut N) -> u8
    ensures { MatchOption found ((result ≡ 3) × (place.new ≡ place.old))
        (λ n. (result ≡ 0) × (place.new ≡ n)) }
{
    match found {
        Some(value) => {
            *place = value;
            ENTRY
        }
        None => BUSY,
    }
}
