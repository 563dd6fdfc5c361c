//! The readers and writers of std as sources and sinks.

ghost use Rattle.std.specs.Prelude.{◌≡◌, Bool, false};

use crate::sink::Sink;
use crate::source::{DeviceFailed, Source};
use std::io;
use std::marker::Model;

/// A reader or a writer of std. It fails at its first error and stays failed. An interrupted call is an error
/// too, and so is a write that takes no byte of a piece that isn't empty.
#[derive(Debug, Drop)]
pub struct Device<T> {
    inner: T,
    failed: bool,
}

impl<T> Model for Device<T> {
    ghost Value = { T × Bool };

    ghost view = { λ d. (d.inner, d.failed) };
}

impl<T> Device<T> {
    pub fn new(inner: T) -> Self
        ensures { result ≡ (inner, false) }
    {
        Device {
            inner,
            failed: false,
        }
    }
}

impl<T: io::Read> Source for Device<T> {
    ghost left = { λ d. T.remaining d.0 };

    ghost failed = { λ d. d.1 };

    // No contract of std says what one read makes of a reader.
    ghost reads = { λ _ _. Unit {0} };

    fn read(&mut self, buf: &mut [u8]) -> Result<usize, DeviceFailed> {
        match self.inner.read(buf) {
            Ok(n) => Ok(n),
            Err(_) => {
                self.failed = true;
                Err(DeviceFailed)
            }
        }
    }

    fn has_failed(&self) -> bool {
        self.failed
    }
}

impl<T: io::Write> Sink for Device<T> {
    ghost held = { λ d. T.contents d.0 };

    ghost failed = { λ d. d.1 };

    fn write(&mut self, piece: &[u8]) -> Result<usize, DeviceFailed> {
        match self.inner.write(piece) {
            Ok(n) if n > 0 || piece.is_empty() => Ok(n),
            _ => {
                self.failed = true;
                Err(DeviceFailed)
            }
        }
    }

    fn has_failed(&self) -> bool {
        self.failed
    }
}
