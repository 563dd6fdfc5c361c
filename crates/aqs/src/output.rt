//! What the program writes to.

use std::fs::{self, File, Metadata, OpenFile, OpenOptions};
use std::io::{self, Write};
use std::rt::Files;
use streams::stream_fault::StreamFault;
use tasks::fault::Fault;

/// The fault of a file that can't be made or written.
const UNWRITTEN: Fault = Fault::Stream(StreamFault::WriteFailed);

/// How many names are tried for a file beside another one.
const PARTS: u32 = 100;

/// A file that is written anew. What is written goes to a file beside it, which takes its place when it is
/// kept. Until then the file is as it was.
#[derive(Drop)]
pub struct Draft<F> {
    written: F,
    name: String,
    /// The name of the file beside it. None if a link, a device or a pipe is written in place.
    part: Option<String>,
}

impl<F: Write> Write for Draft<F> {
    fn write(&mut self, buf: &[u8]) -> io::Result<usize> {
        self.written.write(buf)
    }

    fn flush(&mut self) -> io::Result<()> {
        self.written.flush()
    }
}

/// Begins to write the file of a name. A file that may not be written is not replaced.
pub fn begin_draft<R: Files + AllocGlobal>(rt: &R, name: &str) -> Result<Draft<R::File>, Fault> {
    match fs::symlink_metadata(rt, name) {
        Ok(found) if found.is_file() => draft_for(rt, name, &found),
        Ok(_) => draft_in_place(rt, name),
        Err(_) => draft_beside(rt, name),
    }
}

/// Begins to write a link, a device or a pipe.
fn draft_in_place<R: Files + AllocGlobal>(rt: &R, name: &str) -> Result<Draft<R::File>, Fault> {
    let name = String::from_str(rt.alloc(), name)?;
    match File::create(rt, name.as_str()) {
        Ok(written) => Ok(Draft {
            written,
            name,
            part: None,
        }),
        Err(_) => Err(UNWRITTEN),
    }
}

/// Begins to write a file that is there. The new one gets its permissions.
fn draft_for<R: Files + AllocGlobal>(
    rt: &R,
    name: &str,
    found: &Metadata,
) -> Result<Draft<R::File>, Fault> {
    if OpenOptions::new().write(true).open(rt, name).is_err() {
        return Err(UNWRITTEN);
    }
    let draft = draft_beside(rt, name)?;
    match draft.written.set_permissions(found.permissions()) {
        Ok(()) => Ok(draft),
        Err(_) => {
            drop_draft(rt, draft);
            Err(UNWRITTEN)
        }
    }
}

/// Begins to write a file beside that of a name: the first of NAME.0.part, NAME.1.part .. that is not there.
fn draft_beside<R: Files + AllocGlobal>(rt: &R, name: &str) -> Result<Draft<R::File>, Fault> {
    if name.is_empty() {
        return Err(UNWRITTEN);
    }
    let own = String::from_str(rt.alloc(), name)?;
    for number in 0..PARTS {
        let part = format!(in rt.alloc(); "{name}.{number}.part")?;
        match File::create_new(rt, part.as_str()) {
            Ok(written) => {
                return Ok(Draft {
                    written,
                    name: own,
                    part: Some(part),
                });
            }
            Err(error) if error.kind() == io::ErrorKind::AlreadyExists => {}
            Err(_) => return Err(UNWRITTEN),
        }
    }
    Err(UNWRITTEN)
}

/// Puts what was written in the place of the file.
pub fn keep_draft<R: Files>(rt: &R, draft: Draft<R::File>) -> Result<(), Fault> {
    let Draft {
        written: _written,
        name,
        part,
    } = draft;
    let Some(part) = part else {
        return Ok(());
    };
    if fs::rename(rt, part.as_str(), name.as_str()).is_ok() {
        return Ok(());
    }
    let _ = fs::remove_file(rt, part.as_str());
    Err(UNWRITTEN)
}

/// Leaves the file as it was. One that is written in place keeps what it got.
pub fn drop_draft<R: Files>(rt: &R, draft: Draft<R::File>) {
    let Draft {
        written: _written,
        name: _name,
        part,
    } = draft;
    if let Some(part) = part {
        let _ = fs::remove_file(rt, part.as_str());
    }
}

/// Where the answer goes. It is one type, so that the code which writes it is compiled once.
#[derive(Drop)]
pub enum Output<O, F> {
    /// Standard output, if no file is named.
    Given(O),
    /// The file that was named.
    Named(Draft<F>),
}

impl<O: Write, F: Write> Write for Output<O, F> {
    fn write(&mut self, buf: &[u8]) -> io::Result<usize> {
        match self {
            Output::Given(given) => given.write(buf),
            Output::Named(file) => file.write(buf),
        }
    }

    fn flush(&mut self) -> io::Result<()> {
        match self {
            Output::Given(given) => given.flush(),
            Output::Named(file) => file.flush(),
        }
    }
}

/// Returns where the answer goes: to the file that is named, if one is.
pub fn open<R: Files + AllocGlobal, O: Drop>(
    rt: &R,
    given: O,
    name: Option<&str>,
) -> Result<Output<O, R::File>, Fault> {
    match name {
        None => Ok(Output::Given(given)),
        Some(name) => Ok(Output::Named(begin_draft(rt, name)?)),
    }
}

/// Ends an answer, and returns how it ends. After a fault the file that was named is as it was.
pub fn close<R: Files, O: Drop>(
    rt: &R,
    output: Output<O, R::File>,
    done: Result<u8, Fault>,
) -> Result<u8, Fault> {
    let Output::Named(draft) = output else {
        return done;
    };
    match done {
        Ok(status) => {
            keep_draft(rt, draft)?;
            Ok(status)
        }
        Err(fault) => {
            drop_draft(rt, draft);
            Err(fault)
        }
    }
}
