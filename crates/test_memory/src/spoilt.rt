//! Histories of which each byte is changed to each value. Each is refused, or written again byte for byte.

use crate::played::{Play, perform};
use crate::streamed::{Stream, through};
use crate::texts::{HISTORY, ON_COUNT, ON_READER, ON_SLEEPER, put_history_of_sleepers};
use std::process::Abort;
use std::time::Clock;
use streams::stream_fault::StreamFault;
use test_support::examples::situations;

/// Returns whether a text is refused, or read and written again as it is.
fn is_whole_or_refused(rt: &(impl AllocGlobal + Clock), text: &[u8], out: &mut Vec<u8>) -> bool {
    out.clear();
    match perform(rt, Play::Again(text), out) {
        Ok(is_written) => is_written && out.as_slice() == text,
        Err(fault) => matches!(fault, StreamFault::Text(_)),
    }
}

fn change_each(rt: &(impl Abort + AllocGlobal + Clock), text: &mut Vec<u8>, out: &mut Vec<u8>) {
    for at in 0..text.len() {
        let was = text.get(at).copied().unwrap_or_default();
        for step in 1..257u32 {
            if let Some(byte) = text.get_mut(at) {
                *byte = ((u32::from(was) + step) % 256) as u8;
            }
            let good = is_whole_or_refused(rt, text, out);
            assert!(rt; good, "byte {at}, {step} more");
        }
    }
}

#[test]
fn a_base_whose_256_seats_sleep_is_read_and_written_again(rt: HostRuntime) {
    let (mut text, mut out) = (String::new(rt.alloc()), Vec::new(rt.alloc()));
    assert!(rt; put_history_of_sleepers(&mut text).is_ok());
    let is_whole = is_whole_or_refused(&rt, text.as_bytes(), &mut out);
    assert!(rt; is_whole && out.len() == text.len());
}

#[test]
fn a_spoilt_history_is_refused_or_is_another(rt: HostRuntime) {
    let mut out = Vec::new(rt.alloc());
    for history in [HISTORY, ON_SLEEPER, ON_READER, ON_COUNT] {
        let mut text = Vec::from_slice(rt.alloc(), history).expect(&rt, "memory");
        change_each(&rt, &mut text, &mut out);
    }
    // Those of strict objects.
    for place in [26, 27] {
        let mut text = Vec::new(rt.alloc());
        let steps = situations().get(place).copied().unwrap_or_default();
        let came = through(rt.alloc(), Stream::History, steps.as_bytes(), &mut text);
        assert!(rt; came == Ok(true));
        change_each(&rt, &mut text, &mut out);
    }
}
