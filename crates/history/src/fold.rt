//! Folding entries into a base.

ghost use Rattle.std.specs.Prelude.{◌≡◌, ◌+◌, ◌<◌, ◌≤◌, ◌↔◌, ◌++◌, length, reverse, IsSomeAnd, IsTrue, IsFalse};
ghost use Rattle.std.specs.Option.{option_map};
ghost use Rattle.history.specs.declared.limits.TheConstants.{MOST_FOLDED};
ghost use Rattle.history.specs.Base.{folded};
ghost use Rattle.history.specs.Fold.{MayFold};
ghost use Rattle.history.specs.inner.Paged.{in_pages};

use crate::base::Base;
use crate::packed::Packed;
use crate::page::Page;
use crate::pages::Pages;

/// Folds all `count` entries into the base. Returns false, and changes nothing, if there is no base or its
/// limit would be passed.
pub(crate) fn fold_onto(base: &mut Option<Base>, entries: &Pages, count: u64) -> bool
    requires may { IsSomeAnd base.old (λ base. MayFold base (reverse entries.now.entries)) }
    requires count { count ≡ length (reverse entries.now.entries) }
    ensures folded { IsTrue result →
        base.new ≡ option_map (λ base. folded base (reverse entries.now.entries)) base.old }
    ensures full { IsFalse result ↔ IsSomeAnd base.old (λ base. MOST_FOLDED < base.entries + count) }
    ensures stays { IsFalse result → base.new ≡ base.old }
{
    match base {
        Some(base) => {
            let fits = base.may_fold(count);
            if fits {
                let (pages, hand) = entries.parts();
                fold_parts(base, pages, hand);
            }
            fits
        }
        None => false,
    }
}

/// Folds the entries of these pages into a base, and then those at hand.
fn fold_parts(base: &mut Base, pages: &[Page], hand: &[Packed])
    requires may { MayFold base.old (reverse (in_pages pages.now ++ hand.now)) }
    requires few { base.old.entries + length (reverse (in_pages pages.now ++ hand.now)) ≤ MOST_FOLDED }
    ensures { base.new ≡ folded base.old (reverse (in_pages pages.now ++ hand.now)) }
{
    fold_pages(base, pages);
    fold_entries(base, hand);
}

/// Folds the entries of these pages into a base, page by page.
fn fold_pages(base: &mut Base, pages: &[Page])
    requires may { MayFold base.old (reverse (in_pages pages.now)) }
    requires few { base.old.entries + length (reverse (in_pages pages.now)) ≤ MOST_FOLDED }
    ensures { base.new ≡ folded base.old (reverse (in_pages pages.now)) }
{
    for page in pages {
        fold_entries(base, page.entries());
    }
}

/// Folds entries into a base, the oldest first.
fn fold_entries(base: &mut Base, entries: &[Packed])
    requires may { MayFold base.old (reverse entries.now) }
    requires few { base.old.entries + length (reverse entries.now) ≤ MOST_FOLDED }
    ensures { base.new ≡ folded base.old (reverse entries.now) }
{
    for entry in entries {
        base.add(entry.entry());
    }
}
