//! How an object is opened.
ghost use Rattle.std.specs.Prelude.{◌≡◌, ◌≤◌, ◌↔◌, [], All, IsTrue, IfOk, IfErr, IfSome, IfNone, Some, None, length, map, vec_len, vec_capacity};
ghost use Rattle.std.specs.Arc.{arc_value};
ghost use Rattle.aqs_c.specs.Below.{IsInRange, OutOfMemory, Header, Object, Policy};
ghost use Rattle.aqs_c.specs.Opening.{IsHeaderOf, IsObject, IsOpened, IsOpening, IsPolicy, idle};
ghost use Rattle.aqs_c.specs.Seated.{seated};

use crate::pass::AqsPass;
use crate::seat::Seat;
use any_object::AnyHooks;
use history::fault::Fault;
use history::header::{Header, Object, Policy};
use monitor::{Monitor, Pass};
use std::alloc::Global;
use std::sync::Arc;

/// Which object.
///
/// - `kind`: 0 a lock, 1 a read-write lock, 2 a semaphore, 3 a latch.
/// - `policy`: 0 fair, 1 not fair, 2 strict. A latch has none.
/// - `number`: a semaphore's permits, or a latch's count.
/// - `seats`: 1 to 256. `conditions`: 0 to 16, and 0 for a semaphore or a latch. `cap`: 16 or more.
#[repr(C)]
#[derive(Clone, Copy)]
pub struct AqsHeader {
    pub number: i32,
    pub cap: u32,
    pub seats: u16,
    pub conditions: u8,
    pub kind: u8,
    pub policy: u8,
}

const OPENED: u8 = 0;

const OUT_OF_MEMORY: u8 = 11;

const NOT_EMPTY: u8 = 254;

const OUT_OF_RANGE: u8 = 255;

fn policy_of(number: u8) -> Option<Policy>
    ensures some { IfSome result (λ p. IsPolicy p number) }
    ensures none { IfNone result ((p : Policy) → IsPolicy p number → ⊥) }
{
    match number {
        0 => Some(Policy::Fair),
        1 => Some(Policy::NonFair),
        2 => Some(Policy::Strict),
        _ => None,
    }
}

fn object_of(header: AqsHeader) -> Option<Object>
    ensures some { IfSome result (λ o. IsObject o header) }
    ensures none { IfNone result ((o : Object) → IsObject o header → ⊥) }
{
    match header.kind {
        0 => Some(Object::Lock(policy_of(header.policy)?)),
        1 => Some(Object::ReadWrite(policy_of(header.policy)?)),
        2 => Some(Object::Semaphore(policy_of(header.policy)?, header.number)),
        3 => {
            if header.number < 0 {
                None
            } else {
                Some(Object::Latch(header.number as u32))
            }
        }
        _ => None,
    }
}

// The header, if it is one that an object may have.
fn header_of(header: AqsHeader) -> Option<Header>
    ensures range { IfSome result IsInRange }
    ensures some { IfSome result (λ h. IsHeaderOf header h) }
    ensures none { IfNone result ((h : Header) → IsHeaderOf header h → IsInRange h → ⊥) }
{
    let object = object_of(header)?;
    let header = Header {
        object,
        seats: header.seats,
        conditions: header.conditions,
        cap: header.cap,
    };
    if header.in_range() {
        Some(header)
    } else {
        None
    }
}

fn are_empty(places: &[AqsPass]) -> bool
    ensures { IsTrue result ↔ All (λ p. p.held.value ≡ None) places.now }
{
    places.iter().all(|place| place.is_empty())
}

fn open_seat(
    alloc: Global,
    shared: &Arc<Monitor<AnyHooks>, Global>,
    right: Pass,
) -> Result<Box<Seat>, Fault>
    requires own { right.lock ≡ arc_value shared.now }
    ensures seat { IfOk result (λ seat. seat.value ≡ seated right None) }
    ensures err { IfErr result (λ fault. fault ≡ OutOfMemory) }
{
    let monitor = Arc::try_clone(shared)?;
    match Box::new(alloc, Seat::of(monitor, right)) {
        Ok(seat) => Ok(seat),
        Err(_) => Err(Fault::OutOfMemory),
    }
}

// A seat for each pass, in order.
fn open_seats(
    alloc: Global,
    shared: &Arc<Monitor<AnyHooks>, Global>,
    rights: Vec<Pass>,
) -> Result<Vec<Box<Seat>>, Fault>
    requires own { All (λ p. p.lock ≡ arc_value shared.now) rights.items }
    ensures seats { IfOk result (λ seats.
        map (λ seat. Some seat.value) seats.items ≡ map idle rights.items) }
    ensures err { IfErr result (λ fault. fault ≡ OutOfMemory) }
{
    let mut seats = Vec::new(alloc);
    for right in rights {
        let seat = open_seat(alloc, shared, right)?;
        if seats.push(seat).is_err() {
            return Err(Fault::OutOfMemory);
        }
    }
    Ok(seats)
}

// The passes of seats, in order.
fn put_passes(passes: &mut Vec<AqsPass>, seats: Vec<Box<Seat>>)
    requires room { (passes.old.items ≡ []) × (vec_len passes.old ≡ 0)
        × (length seats.items ≤ vec_capacity passes.old) }
    ensures { map (λ p. p.held.value) passes.new.items ≡ map (λ seat. Some seat.value) seats.items }
{
    for seat in seats {
        passes.push_reserved(AqsPass::of(seat));
    }
}

// An object of this header: the pass of each seat, in order.
fn open_passes(alloc: Global, header: &Header) -> Result<Vec<AqsPass>, Fault>
    requires { IsInRange header.now }
    ensures opened { IfOk result (λ passes. IsOpened header.now passes.items) }
    ensures err { IfErr result (λ fault. fault ≡ OutOfMemory) }
{
    let mut passes = Vec::with_capacity(alloc, header.seats as usize)?;
    let hooks = AnyHooks::open(alloc, header)?;
    let (monitor, rights) = Monitor::open(
        alloc,
        hooks,
        header.seats,
        header.conditions,
        header.cap,
    )?;
    let Ok(shared) = Arc::new(alloc, monitor) else {
        return Err(Fault::OutOfMemory);
    };
    let seats = open_seats(alloc, &shared, rights)?;
    put_passes(&mut passes, seats);
    Ok(passes)
}

/// Opens an object, and puts the pass of each seat into its place.
pub(crate) fn open_places(alloc: Global, header: AqsHeader, places: &mut [AqsPass]) -> u8
    ensures { IsOpening header places.old result places.new }
{
    let Some(header) = header_of(header) else {
        return OUT_OF_RANGE;
    };
    if places.len() != header.seats as usize {
        return OUT_OF_RANGE;
    }
    if !are_empty(places) {
        return NOT_EMPTY;
    }
    match open_passes(alloc, &header) {
        Err(_) => OUT_OF_MEMORY,
        Ok(mut passes) => {
            places.swap_with_slice(&mut passes);
            OPENED
        }
    }
}
