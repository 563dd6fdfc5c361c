//! The search for threads that wait for each other in a circle. No contract says what it finds: `circle`
//! looks whether it is a circle.

use crate::link::Link;
use crate::waiting::{is_holder, object_of};
use script::Worker;
use std::alloc::{AllocError, Global};
use workers::Standing;

/// Returns the link from a thread to the first of the threads that hold what it waits for. Only those that
/// may be in a circle count.
fn link_from(
    workers: &[Worker],
    standings: &[Standing],
    may_be: &[bool],
    waiter: usize,
) -> Option<Link> {
    let object = object_of(workers, standings, waiter)?;
    for (holder, may) in may_be.iter().enumerate() {
        if *may && is_holder(workers, standings, holder, object) {
            return Some(Link {
                waiter,
                object,
                holder,
            });
        }
    }
    None
}

fn is_set(flags: &[bool], place: usize) -> bool {
    match flags.get(place) {
        Some(flag) => *flag,
        None => false,
    }
}

fn clear(flags: &mut Vec<bool>, place: usize) {
    if let Some(flag) = flags.get_mut(place) {
        *flag = false;
    }
}

/// Returns for each thread whether it may be in a circle. Those that wait for none of the others that may be
/// are left out, until all of them do.
fn stuck(
    alloc: Global,
    workers: &[Worker],
    standings: &[Standing],
) -> Result<Vec<bool>, AllocError> {
    let mut may_be = Vec::with_capacity(alloc, standings.len())?;
    for _ in standings {
        may_be.push(true)?;
    }
    for _ in 0..standings.len() {
        let mut is_done = true;
        for waiter in 0..standings.len() {
            if is_set(&may_be, waiter) && link_from(workers, standings, &may_be, waiter).is_none() {
                clear(&mut may_be, waiter);
                is_done = false;
            }
        }
        if is_done {
            break;
        }
    }
    Ok(may_be)
}

/// Returns links in a circle, from its thread with the least number on, or none.
pub(crate) fn links_of(
    alloc: Global,
    workers: &[Worker],
    standings: &[Standing],
) -> Result<Vec<Link>, AllocError> {
    let may_be = stuck(alloc, workers, standings)?;
    let mut links = Vec::new(alloc);
    let Some(first) = may_be.iter().position(|may| *may) else {
        return Ok(links);
    };
    let mut waiter = first;
    // After a step for each thread it is in the circle, and after another one it has been at all of it.
    for _ in standings {
        waiter = holder_behind(workers, standings, &may_be, waiter);
    }
    let mut least = waiter;
    for _ in standings {
        waiter = holder_behind(workers, standings, &may_be, waiter);
        least = least.min(waiter);
    }
    waiter = least;
    for _ in standings {
        let Some(link) = link_from(workers, standings, &may_be, waiter) else {
            break;
        };
        links.push(link)?;
        waiter = link.holder;
        if waiter == least {
            break;
        }
    }
    Ok(links)
}

/// Returns the thread to which the link from a thread leads, or the thread itself if there is none.
fn holder_behind(
    workers: &[Worker],
    standings: &[Standing],
    may_be: &[bool],
    waiter: usize,
) -> usize {
    match link_from(workers, standings, may_be, waiter) {
        Some(link) => link.holder,
        None => waiter,
    }
}
