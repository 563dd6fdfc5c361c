//! How much a window reads at once, and what is read from a source after an allocation fails.

ghost use Rattle.std.specs.Prelude.{◌≡◌, ◌<◌, false};
ghost use Rattle.streams.specs.declared.limits.TheConstants.{LINE_BYTES};

use std::alloc::{AllocError, Global};
use std::test::Fail;
use streams::memory_source::MemorySource;
use streams::rest::read_all;
use streams::source::Source;
use streams::stream_fault::StreamFault;
use streams::window::Window;
use test_support::memory::Memory;

/// Reads until a whole line is there, or to the end of a source that hasn't failed.
fn read_line(window: &mut Window, source: &mut MemorySource) -> Result<(), StreamFault>
    requires { LINE_BYTES < window.old.places }
    ensures { window.new.places ≡ window.old.places }
{
    if source.has_failed() {
        return Err(StreamFault::ReadFailed);
    }
    window.read_line(source)
}

/// Returns whether a window that reads one line then has these bytes, and whether reading failed as stated.
fn sees(
    alloc: Global,
    source: &mut MemorySource,
    left: &[u8],
    fails: bool,
) -> Result<bool, AllocError> {
    let mut window = Window::open(alloc)?;
    let has_failed = read_line(&mut window, source) == Err(StreamFault::ReadFailed);
    Ok(has_failed == fails && window.bytes() == left)
}

fn source_of(
    alloc: Global,
    text: &[u8],
    piece: usize,
    fails_at: Option<u64>,
) -> Result<MemorySource, AllocError> {
    let bytes = Vec::from_slice(alloc, text)?;
    Ok(MemorySource::new(bytes, piece.max(1), fails_at))
}

/// A text in pieces of some size, the read that fails, the bytes that are then in the window, and whether
/// reading failed. What was read before a failure is in the window. After a whole line is in it nothing more
/// is read: the next read would fail. A read takes all that the source has.
const SEEN: [(&[u8], usize, Option<u64>, &[u8], bool); 6] = [
    (b"one two\n", 2, Some(0), b"", true),
    (b"one two\n", 2, Some(1), b"on", true),
    (b"one two\n", 2, Some(2), b"one ", true),
    (b"one\ntwo\n", 1, Some(4), b"one\n", false),
    (b"one\ntwo\n", 3, Some(2), b"one\ntw", false),
    (b"one\ntwo\n", 4096, Some(1), b"one\ntwo\n", false),
];

#[test]
fn a_window_reads_one_line_and_keeps_what_it_read(rt: HostRuntime) -> Result<(), Fail> {
    for (number, (text, piece, fails_at, left, fails)) in SEEN.iter().enumerate() {
        let mut source = source_of(rt.alloc(), text, *piece, *fails_at)?;
        let is_seen = sees(rt.alloc(), &mut source, left, *fails);
        assert!(rt; is_seen == Ok(true), "{number}");
    }
    Ok(())
}

/// Returns whether reading a source that hasn't failed fails without free memory.
fn lacks_memory(alloc: Global, source: &mut MemorySource) -> Result<bool, AllocError>
    requires { source.old.failed ≡ false }
{
    let _memory = Memory::take_all(alloc, 256)?;
    Ok(matches!(read_all(alloc, source), Err(StreamFault::Memory)))
}

/// After an allocation fails nothing more is read: the second read would fail.
#[test]
fn nothing_is_read_after_want_of_memory(rt: HostRuntime) -> Result<(), Fail> {
    let bytes = Vec::from_slice(rt.alloc(), &[b'7'; 1000])?;
    let mut source = MemorySource::new(bytes, 100, Some(1));
    let lacks = lacks_memory(rt.alloc(), &mut source);
    assert!(rt; lacks == Ok(true) && !source.has_failed());
    Ok(())
}
