//! From bytes to bytes: a stream function reads a text and writes another.
//!
//! It reads all, and reserves all memory, before it writes. So nothing is written for a text that is refused.
//! A replay performs each line as it is read, and keeps the answers in short form until they are written. All
//! that is told of a history comes from one stream, which judges each line as it is read. An audit and a summary
//! keep no entry. A drawing keeps the entries up to the last one that it draws, or all if none were chosen, and an
//! explanation those up to the one that it explains.
//! The contracts refer to the bytes of sources and sinks, if these are known.
#![tactic(auto)]

mod answer_line;
pub mod answers;
pub mod audit_json;
pub mod audit_stream;
pub mod audit_text;
mod audited;
mod base_reader;
pub mod choice;
mod code;
mod drawn;
mod end_of;
mod explained;
pub mod form;
pub mod history_reader;
mod judged;
pub mod limits;
pub mod line_writer;
pub mod notation;
mod paged;
mod piece;
pub mod replay;
pub mod replay_stream;
pub mod step_reader;
mod summed;
pub mod tape;
pub mod tell_stream;
pub mod telling;
