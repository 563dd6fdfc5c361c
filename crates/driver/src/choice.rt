//! Which entries of a history are drawn.

ghost use Rattle.std.specs.Prelude.{◌≡◌};
ghost use Rattle.driver.specs.inner.Choice.{end_chosen, first_of, is_cut, is_summed, kept_of};

use crate::limits::{UNCHOSEN, UNSUMMED};

/// The first and the last entry to draw, by their numbers. The numbers count folded entries too.
#[derive(Clone, Copy, Debug, PartialEq, Eq)]
pub struct Choice {
    /// None: from the beginning.
    pub from: Option<u64>,
    /// None: to the end. If `from` is None too: to the 2,000th entry that wasn't folded, or a summary of all
    /// if there are more than 5,000.
    pub to: Option<u64>,
}

impl Choice {
    /// Returns this choice, or if none were chosen the first illegal entry, if there is one, and this many before it.
    pub(crate) fn or_near(self, wrong: Option<u64>, most: u64) -> Choice {
        match (self.from, self.to, wrong) {
            (None, None, Some(number)) => Choice {
                from: Some(number.saturating_sub(most)),
                to: wrong,
            },
            _ => self,
        }
    }

    /// Returns how many unfolded entries are before the first one to draw, if `folded` entries were folded.
    pub(crate) fn first(self, folded: u64) -> u64
        ensures { result ≡ first_of self folded }
    {
        match self.from {
            Some(number) => number.saturating_sub(folded),
            None => 0,
        }
    }

    /// Returns how many unfolded entries are before the end of those to draw, if `folded` entries were
    /// folded.
    pub(crate) fn end(self, folded: u64) -> u64
        ensures { result ≡ end_chosen self folded }
    {
        match self.to {
            Some(number) => number.saturating_add(1).saturating_sub(folded),
            None => match self.from {
                Some(_) => u64::MAX,
                None => UNCHOSEN,
            },
        }
    }

    /// Returns how many unfolded entries are kept until all are read, if `folded` entries were folded: all
    /// if none were chosen.
    pub(crate) fn kept(self, folded: u64) -> u64
        ensures { result ≡ kept_of self folded }
    {
        match self.from {
            Some(_) => self.end(folded),
            None => match self.to {
                Some(_) => self.end(folded),
                None => u64::MAX,
            },
        }
    }

    /// Returns whether the history is summed up in columns.
    pub(crate) fn is_summed(self, entries: u64) -> bool
        ensures { result ≡ is_summed self entries }
    {
        match self.from {
            Some(_) => false,
            None => match self.to {
                Some(_) => false,
                None => UNSUMMED < entries,
            },
        }
    }

    /// Returns whether entries are left out although none were chosen.
    pub(crate) fn is_cut(self, entries: u64) -> bool
        ensures { result ≡ is_cut self entries }
    {
        match self.from {
            Some(_) => false,
            None => match self.to {
                Some(_) => false,
                None => UNCHOSEN < entries,
            },
        }
    }
}
