//! Texts of lines, and the streams that they are read from and written to.
//!
//! A text has a header line, a line for each item, an end line, and nothing after it. A form of text defines
//! what each line spells (`specs/Form.antt`). Which texts have a form, and the first fault of one that
//! doesn't, follows from the spellings alone (`specs/Reading.antt`). For a text that is being read, what was
//! read and what the next line spells are defined for any form (`specs/UnderWay.antt`). Suppose that the
//! lines of a form have no line break, spell one value each and can't be mistaken for another line. Then each
//! text has exactly one reading, and each proper beginning of a good text is cut short (`proofs/`).
//!
//! Sources of bytes and sinks for them can fail. If their bytes are known, the contracts refer to them. A
//! [`device::Device`] reads from or writes to the system. An [`until_end::UntilEnd`] does not read its source
//! again after the end. A [`watched::Watched`] tells how much is read of its source.
//! [`memory_source::MemorySource`] and [`memory_sink::MemorySink`] have their bytes in
//! memory, and can be set to fail at one call. A [`window::Window`] keeps the bytes of a source that were read
//! and are still needed. One definition states what a stream may do that reads a text and writes another, for
//! each form of text (`specs/Streams.antt`).
#![tactic(auto)]

pub mod at_once;
pub mod device;
pub mod fault;
pub mod header_line;
pub mod limits;
pub mod memory_sink;
pub mod memory_source;
pub mod once;
pub mod reading_on;
pub mod rest;
pub mod seat;
pub mod sink;
pub mod source;
pub mod stream_fault;
mod turns;
pub mod until_end;
pub mod watched;
pub mod window;
pub mod writing;
