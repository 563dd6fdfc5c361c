//! Devices that fail, take few bytes or have no more places; and the readers and writers of std as devices.

ghost use Rattle.std.specs.Prelude.{◌≤◌, IfOk};

use crate::streamed::{Came, Stream, Ways, streamed, through, through_to};
use crate::texts::{STEPS, THROUGH, put_pairs};
use std::alloc::Global;
use std::io;
use std::process::Abort;
use std::test::Fail;
use streams::device::Device;
use streams::sink::Sink;
use streams::source::Source;
use streams::stream_fault::StreamFault;

/// More places than any answer here needs.
const AMPLE: usize = 400_000;

const READ_FAILED: Came = Err(StreamFault::ReadFailed);

const WRITE_FAILED: Came = Err(StreamFault::WriteFailed);

/// No device fails, and all bytes go through in pieces.
fn in_pieces(piece: usize) -> Ways {
    Ways {
        piece,
        read: None,
        write: None,
        places: AMPLE,
    }
}

/// A text, what a stream must write for it, and room for what it writes when a device fails.
#[derive(Drop)]
struct Trial<'a> {
    stream: Stream,
    text: &'a [u8],
    wanted: Vec<u8>,
    out: Vec<u8>,
}

impl<'a> Trial<'a> {
    /// Returns the result of the text with these devices.
    fn came(&mut self, alloc: Global, ways: Ways) -> Came {
        streamed(alloc, self.stream, self.text, ways, &mut self.out)
    }

    fn is_whole(&mut self, alloc: Global, ways: Ways) -> bool {
        self.came(alloc, ways) == Ok(true) && self.out == self.wanted
    }

    /// Returns whether this read fails the stream, and nothing is written.
    fn fails_reading(&mut self, alloc: Global, piece: usize, call: u64) -> bool {
        let ways = Ways {
            read: Some(call),
            ..in_pieces(piece)
        };
        self.came(alloc, ways) == READ_FAILED && self.out.is_empty()
    }

    /// Returns whether a write fails the stream, after this number of bytes.
    fn fails_writing(&mut self, alloc: Global, ways: Ways, written: usize) -> bool {
        let came = self.came(alloc, ways);
        came == WRITE_FAILED && self.wanted.get(..written) == Some(self.out.as_slice())
    }
}

/// Each read fails in turn. After the last one there is no read to fail.
fn fail_each_read(rt: &(impl Abort + AllocGlobal), trial: &mut Trial, piece: usize) {
    let reads = trial.text.len().div_ceil(piece.max(1)) as u64;
    for call in 0..=reads {
        assert!(rt;
            trial.fails_reading(rt.alloc(), piece, call),
            "read {call} of {piece} bytes"
        );
    }
    let ways = Ways {
        read: Some(reads.saturating_add(1)),
        ..in_pieces(piece)
    };
    assert!(rt; trial.is_whole(rt.alloc(), ways), "reads of {piece} bytes");
}

/// Each write fails in turn, after as many pieces. After the last one there is no write to fail.
fn fail_each_write(rt: &(impl Abort + AllocGlobal), trial: &mut Trial, piece: usize) {
    let writes = trial.wanted.len().div_ceil(piece.max(1));
    for call in 0..writes {
        let ways = Ways {
            write: Some(call as u64),
            ..in_pieces(piece)
        };
        let written = call.saturating_mul(piece);
        assert!(rt;
            trial.fails_writing(rt.alloc(), ways, written),
            "write {call} of {piece}"
        );
    }
    let ways = Ways {
        write: Some(writes as u64),
        ..in_pieces(piece)
    };
    assert!(rt; trial.is_whole(rt.alloc(), ways), "writes of {piece} bytes");
}

/// If places are lacking, what fits is written.
fn fill_each_place(rt: &(impl Abort + AllocGlobal), trial: &mut Trial) {
    let whole = trial.wanted.len();
    for places in 0..whole {
        let ways = Ways {
            places,
            ..in_pieces(10)
        };
        assert!(rt;
            trial.fails_writing(rt.alloc(), ways, places),
            "{places} places"
        );
    }
    let ways = Ways {
        places: whole,
        ..in_pieces(10)
    };
    assert!(rt; trial.is_whole(rt.alloc(), ways), "{whole} places");
}

#[test]
fn each_read_and_each_write_fails_in_turn(rt: HostRuntime) -> Result<(), Fail> {
    for (stream, text) in THROUGH {
        let mut trial = Trial {
            stream,
            text,
            wanted: Vec::new(rt.alloc()),
            out: Vec::new(rt.alloc()),
        };
        let came = through(rt.alloc(), stream, text, &mut trial.wanted);
        assert!(rt; came == Ok(true));
        for piece in [1, 16] {
            fail_each_read(&rt, &mut trial, piece);
            fail_each_write(&rt, &mut trial, piece);
        }
        fill_each_place(&rt, &mut trial);
    }
    Ok(())
}

/// About as many bytes are written at once: a piece, less the room of the longest line.
const PIECE: usize = 65_280;

/// Each piece of a long answer fails to be written in turn. What was written before is a beginning of the
/// answer, and one piece longer each time.
fn fail_each_piece(rt: &(impl Abort + AllocGlobal), trial: &mut Trial) {
    let mut least = 0;
    for call in 0..4 {
        let ways = Ways {
            write: Some(call),
            ..in_pieces(1_000_000)
        };
        let came = trial.came(rt.alloc(), ways);
        let is_front = trial.wanted.starts_with(&trial.out) && trial.out.len() < trial.wanted.len();
        assert!(rt;
            came == WRITE_FAILED && is_front && least <= trial.out.len(),
            "{call} writes"
        );
        least = trial.out.len().saturating_add(PIECE);
    }
}

#[test]
fn each_piece_of_a_long_answer_fails_in_turn(rt: HostRuntime) -> Result<(), Fail> {
    let mut text = String::new(rt.alloc());
    put_pairs(&mut text, 8_000)?;
    for stream in [Stream::Replay, Stream::History] {
        let mut trial = Trial {
            stream,
            text: text.as_bytes(),
            wanted: Vec::new(rt.alloc()),
            out: Vec::new(rt.alloc()),
        };
        let came = through(rt.alloc(), stream, text.as_bytes(), &mut trial.wanted);
        assert!(rt; came == Ok(true) && 65_536 * 3 < trial.wanted.len());
        fail_each_piece(&rt, &mut trial);
    }
    Ok(())
}

/// The result of one call of a reader or a writer of std.
#[derive(Clone, Copy)]
enum Odd {
    Fails(io::ErrorKind),
    TakesNothing,
}

/// A reader and a writer that move at most `piece` bytes at once. Only the call with the number `at` has the
/// odd result.
#[derive(Drop)]
struct Calls {
    odd: Odd,
    at: usize,
    piece: usize,
    calls: usize,
}

impl Calls {
    fn new(odd: Odd, at: usize) -> Calls {
        Calls {
            odd,
            at,
            piece: 16,
            calls: 0,
        }
    }

    /// Returns the result of a call that may move `most` bytes.
    fn call(&mut self, most: usize) -> io::Result<usize>
        ensures { IfOk result (λ n. n ≤ most) }
    {
        let is_odd = self.calls == self.at;
        self.calls = self.calls.saturating_add(1);
        match self.odd {
            Odd::Fails(kind) if is_odd => Err(io::Error::from(kind)),
            Odd::TakesNothing if is_odd => Ok(0),
            _ => Ok(self.piece.min(most)),
        }
    }
}

impl io::Read for Calls {
    fn read(&mut self, buf: &mut [u8]) -> io::Result<usize> {
        self.call(buf.len())
    }
}

impl io::Write for Calls {
    fn write(&mut self, buf: &[u8]) -> io::Result<usize> {
        self.call(buf.len())
    }

    fn flush(&mut self) -> io::Result<()> {
        Ok(())
    }
}

/// An error is returned, also an interruption or a write that takes nothing. A second call might succeed, but
/// the device isn't called again.
#[test]
fn an_error_of_a_reader_or_a_writer_fails_once_and_for_all(rt: HostRuntime) {
    for kind in [
        io::ErrorKind::Interrupted,
        io::ErrorKind::WouldBlock,
        io::ErrorKind::BrokenPipe,
        io::ErrorKind::Other,
    ] {
        fail_first(&rt, Odd::Fails(kind), false);
    }
    fail_first(&rt, Odd::TakesNothing, true);
}

fn fail_first(rt: &(impl Abort + AllocGlobal), first: Odd, reads: bool) {
    let mut buffer = [0; 16];
    let mut reader = Device::new(Calls::new(first, 0));
    assert!(rt; reader.read(&mut buffer).is_ok() == reads);
    assert!(rt; Source::has_failed(&reader) != reads);
    let mut writer = Device::new(Calls::new(first, 0));
    assert!(rt; writer.write(b"line").is_err() && Sink::has_failed(&writer));
}

/// Each write in turn takes nothing, and fails the stream. After the last one there is no write to fail.
#[test]
fn each_write_that_takes_nothing_fails(rt: HostRuntime) -> Result<(), Fail> {
    for (stream, text) in THROUGH {
        let mut wanted = Vec::new(rt.alloc());
        let came = through(rt.alloc(), stream, text, &mut wanted);
        assert!(rt; came == Ok(true));
        let writes = wanted.len().div_ceil(16);
        for at in 0..writes.saturating_add(1) {
            let calls = Calls::new(Odd::TakesNothing, at);
            let told = if at < writes { WRITE_FAILED } else { Ok(true) };
            assert!(rt;
                through_to(rt.alloc(), stream, text, calls) == told,
                "write {at}"
            );
        }
    }
    Ok(())
}

/// A call moves as many bytes as the reader has and the writer takes.
#[test]
fn a_device_moves_all_that_it_can(rt: HostRuntime) {
    let mut buffer = [0; 16];
    assert!(rt; Device::new(STEPS).read(&mut buffer) == Ok(16));
    assert!(rt; buffer.as_slice() == &STEPS[..16]);
    let mut written = Vec::new(rt.alloc());
    assert!(rt; Device::new(&mut written).write(STEPS) == Ok(STEPS.len()));
    assert!(rt; written.as_slice() == STEPS);
}
