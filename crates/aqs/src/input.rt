//! What the program reads.

use std::fs::OpenFile;
use std::io::{self, Read};

/// Where the text comes from. It is one type, so that the code which reads it is compiled once.
#[derive(Drop)]
pub enum Origin<I, F> {
    /// Standard input, if no file is named.
    Given(I),
    /// The file that was named.
    Named(F),
}

/// The source of the text, and why it failed, if it did.
#[derive(Drop)]
pub struct Input<I, F> {
    origin: Origin<I, F>,
    failure: Option<io::Error>,
}

impl<I, F> Input<I, F> {
    pub fn new(origin: Origin<I, F>) -> Self {
        Input {
            origin,
            failure: None,
        }
    }

    /// Returns why a read failed, if one did.
    pub fn failure(&self) -> Option<&io::Error> {
        self.failure.as_ref()
    }
}

impl<I, F: OpenFile> Input<I, F> {
    /// Returns how many bytes the file has that was named, if that is known.
    pub fn size(&self) -> Option<u64> {
        let Origin::Named(file) = &self.origin else {
            return None;
        };
        match file.metadata() {
            Ok(found) if found.is_file() => Some(found.len()),
            _ => None,
        }
    }
}

impl<I: Read, F: Read> Read for Input<I, F> {
    fn read(&mut self, buf: &mut [u8]) -> io::Result<usize> {
        let read = match &mut self.origin {
            Origin::Given(given) => given.read(buf),
            Origin::Named(file) => file.read(buf),
        };
        match read {
            Ok(count) => Ok(count),
            Err(error) => {
                let kind = error.kind();
                self.failure = Some(error);
                Err(io::Error::from(kind))
            }
        }
    }
}
