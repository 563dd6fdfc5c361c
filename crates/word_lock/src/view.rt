//! What a token knows. All of it exists only in proofs.

use history::entry::Entry;
use history::point::Point;
use std::collections::LinkedList;

/// A seat, and the entries that its token has added for it, the newest first. No value of it exists at run
/// time.
pub struct SeatLog {
    pub seat: u16,
    pub entries: LinkedList<Entry>,
}

/// What a token knows. No value of it exists at run time.
pub struct View {
    /// The log of each seat of the token. There are several if tokens were joined.
    pub logs: LinkedList<SeatLog>,
    /// How many logs, from the first on, go to the new token when this one is split.
    pub split_at: u64,
    /// What the token has seen of the value: what it last took, put back, or found at a look.
    pub seen: Point,
    /// What the tokens that were joined to this one had seen, until the next look.
    pub joined: LinkedList<Point>,
    /// Whether the token has taken the value. Then `seen` is what it took.
    pub holds: bool,
    /// False after the token was joined to another one.
    pub live: bool,
}
