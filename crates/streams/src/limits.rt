//! The limits of a line and of what is read at once. Contracts and definitions cite them by name.

/// A line of a good text, without its break, has fewer bytes than this.
pub const LINE_BYTES: usize = 256;

/// How many bytes are read at once.
pub const PIECE: usize = 65_536;

/// The most bytes in a window: a piece, after what stays of an incomplete line.
pub const ROOM: usize = PIECE + LINE_BYTES;
