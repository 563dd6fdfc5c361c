//! The position of a reader in a history text.

ghost use Rattle.std.specs.Prelude.{◌≡◌, ◌+◌, ◌<◌, ◌^◌};
ghost use Rattle.history_text.specs.NextLine.{behind};

use history::entries::ends_call;
use history::entry::Entry;
use history::header::Header;

/// The first line of a text: a header, and whether the lines of a base follow.
#[derive(Clone, Copy, Debug, PartialEq, Eq)]
pub struct Head {
    pub is_based: bool,
    pub header: Header,
}

/// How many lines of a base were read, how many entries were folded, how many entries were read after the
/// base, and how many calls all of these ended.
#[derive(Clone, Copy, Debug, PartialEq, Eq)]
pub struct Place {
    pub lines: u64,
    pub folded: u64,
    pub count: u64,
    pub calls: u64,
}

impl Place {
    /// Returns the position after one more entry.
    #[inline(always)]
    pub fn behind(self, entry: &Entry) -> Place
        requires { (self.count + 1 < 2 ^ 64) × (self.calls + 1 < 2 ^ 64) }
        ensures { result ≡ behind self entry.now }
    {
        Place {
            lines: self.lines,
            folded: self.folded,
            count: self.count + 1,
            calls: self.calls + u64::from(ends_call(entry.word)),
        }
    }
}
