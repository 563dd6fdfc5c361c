//! The line on a terminal that says how much of a text was read.

ghost use Rattle.std.specs.Prelude.{◌≡◌, ◌++◌, IfOk, OnOk, false};
ghost use Rattle.aqs.specs.Progress.{MayShow, Notes, Puts, Wipes, line_text, of_all};

use history::number::put_number;
use std::alloc::{AllocError, Global};
use std::io::Write;
use streams::device::Device;
use streams::sink::Sink;
use streams::watched::Watch;
use streams::writing::write_all;

/// The line is written when more bytes than this were read, and again each time that this many more were
/// read.
const STEP: u64 = 50_000_000;

/// The unit of the line.
const MEGABYTE: u64 = 1_000_000;

/// What wipes a line, or as much of it as the line is long.
const SPACES: [u8; 60] = [b' '; 60];

/// How much of a text was read, and the line that says so on standard error. It is written over itself, and
/// wiped at the end. If standard error is no terminal, nothing is written.
#[derive(Drop)]
pub struct Progress<E> {
    alloc: Global,
    error: Device<E>,
    /// Whether standard error is a terminal.
    is_shown: bool,
    /// How many bytes the text has, if that is known.
    size: Option<u64>,
    read: u64,
    /// How many bytes may be read before the line is written again.
    next: u64,
    /// How long the line is that stands on the terminal, or 0.
    length: usize,
}

/// Appends of how many megabytes, if it is known how many bytes the text has, and no more were read.
fn put_all(line: &mut Vec<u8>, size: Option<u64>, read: u64) -> Result<(), AllocError>
    ensures { OnOk result (line.new.items ≡ line.old.items ++ of_all size read) }
{
    match size {
        Some(size) if read <= size => {
            line.extend_from_slice(b" of ")?;
            put_number(line, size / MEGABYTE)
        }
        _ => Ok(()),
    }
}

/// Returns what the line says of a text after this many bytes.
fn line_text(alloc: Global, size: Option<u64>, read: u64) -> Result<Vec<u8>, AllocError>
    ensures { IfOk result (λ line. line.items ≡ line_text size read) }
{
    let mut line = Vec::new(alloc);
    line.extend_from_slice(b"aqs: ")?;
    put_number(&mut line, read / MEGABYTE)?;
    put_all(&mut line, size, read)?;
    line.extend_from_slice(b" MB read")?;
    Ok(line)
}

/// Writes a piece. Nothing depends on it, so it is left out if it can't be written, and all that comes after
/// it.
fn put<E: Write>(error: &mut Device<E>, piece: &[u8])
    ensures { Puts E.contents error.old piece.now error.new }
{
    if !Sink::has_failed(error) {
        let _ = write_all(error, piece);
    }
}

impl<E: Write> Progress<E> {
    pub fn new(alloc: Global, error: E, is_shown: bool, size: Option<u64>) -> Self
        ensures error { result.error ≡ (error, false) }
        ensures shown { result.is_shown ≡ is_shown }
        ensures size { result.size ≡ size }
        ensures read { result.read ≡ 0 }
        ensures next { result.next ≡ 50000000 }
        ensures length { result.length ≡ 0 }
    {
        Progress {
            alloc,
            error: Device::new(error),
            is_shown,
            size,
            read: 0,
            next: STEP,
            length: 0,
        }
    }

    /// Writes the line on a terminal, if memory does not lack for it.
    fn tell(&mut self)
        ensures { MayShow E.contents self.old self.new }
    {
        if !self.is_shown {
            return;
        }
        if let Ok(line) = line_text(self.alloc, self.size, self.read) {
            self.wipe();
            put(&mut self.error, &line);
            self.length = line.len();
        }
    }

    /// Wipes the line.
    fn wipe(&mut self)
        ensures { Wipes E.contents self.old self.new }
    {
        if self.length > 0 {
            put(&mut self.error, b"\r");
            put(&mut self.error, &SPACES[..self.length.min(SPACES.len())]);
            put(&mut self.error, b"\r");
            self.length = 0;
        }
    }
}

impl<E: Write> Watch for Progress<E> {
    ghost notes = { λ old count new. Notes E.contents old count new };

    ghost ends = { λ old new. Wipes E.contents old new };

    fn note(&mut self, count: usize) {
        self.read = self.read.saturating_add(count as u64);
        if self.read > self.next {
            self.next = self.read.saturating_add(STEP);
            self.tell();
        }
    }

    fn end(&mut self) {
        self.wipe();
    }
}
