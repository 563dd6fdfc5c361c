//! Tests of parkings.

mod order;
mod threads;

use crate::word_locks::notes::Notes;
use std::alloc::AllocGlobal;
use std::process::Abort;
use word_lock::{Token, WordLock};

/// Returns the token of a lock that nobody takes. The deed of an unpark needs a token, and nothing else does.
fn lone_token<R: Abort + AllocGlobal>(rt: &R) -> Token {
    let notes = Notes::with_room(rt.alloc(), 0).expect(rt, "memory");
    let Ok((_lock, mut tokens)) = WordLock::open(rt.alloc(), notes, 1) else {
        panic!(rt; "memory")
    };
    tokens.pop().expect(rt, "a token")
}
