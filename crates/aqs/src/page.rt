//! The pages.

ghost use Rattle.std.specs.Prelude.{◌≡◌};
ghost use Rattle.aqs.specs.Pages.{page_text};

use crate::texts::{ABOUT, AUDIT, DRAW, EXPLAIN, OVERVIEW, REPLAY, RUN, SUMMARY};

/// A page of the manual.
#[derive(Clone, Copy, Debug, PartialEq, Eq)]
pub enum Page {
    /// All commands.
    Overview,
    Replay,
    Audit,
    Explain,
    Summary,
    Draw,
    Run,
    /// The version, the kit, and what is proved.
    About,
}

/// Returns the text of a page.
pub fn page_text(page: Page) -> &'static [u8]
    ensures { result.now ≡ page_text page }
{
    match page {
        Page::Overview => OVERVIEW,
        Page::Replay => REPLAY,
        Page::Audit => AUDIT,
        Page::Explain => EXPLAIN,
        Page::Summary => SUMMARY,
        Page::Draw => DRAW,
        Page::Run => RUN,
        Page::About => ABOUT,
    }
}
