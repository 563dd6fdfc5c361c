//! What is to be drawn.

use drawing::drawing::Drawn;
use history::header::Header;

/// What is to be drawn of a history.
#[derive(Drop)]
pub struct Picture {
    pub header: Header,
    /// How many entries were folded before the history's first. The numbers in a picture count these too.
    pub folded: u64,
    /// How many entries come before the first that is drawn.
    pub from: u64,
    /// How many entries come before the end of those that are drawn.
    pub to: u64,
    /// How many entries the history has, with those that were folded.
    pub entries: u64,
    /// Whether entries are left out although none were chosen.
    pub is_cut: bool,
    /// The first illegal entry, by the number that is shown.
    pub wrong: Option<u64>,
    /// The lines that explain it, if it was kept.
    pub why: Vec<u8>,
    /// The bars, marks and curve of the entries that are drawn.
    pub drawn: Drawn,
}

impl Picture {
    /// Returns whether the first illegal entry follows those that are drawn.
    pub(crate) fn ends_wrong(&self) -> bool {
        match self.wrong {
            Some(number) => {
                number == self.folded.saturating_add(self.to) && self.from <= self.to
            }
            None => false,
        }
    }
}
