//! What the definitions say about every spelling.
//!
//! Each of these functions does nothing: its contract is the law.

ghost use Rattle.std.specs.Prelude.{◌≡◌};
ghost use Rattle.history.specs.declared.entry.Entry.{Entry};
ghost use Rattle.history.specs.declared.header.Header.{Header};
ghost use Rattle.history.specs.EntryWords.{entry_words, IsWritten};
ghost use Rattle.history.specs.Header.{IsInRange};
ghost use Rattle.history.specs.Spelling.{part_of};
ghost use Rattle.history.specs.Text.{line_of};

/// No two headers have the same spelling.
pub fn one_header()
    ensures { (g h : Header) → IsInRange g → IsInRange h → part_of g ≡ part_of h → g ≡ h }
{}

/// No two entries of a seat have the same words.
pub fn one_entry()
    ensures { (e f : Entry) → IsWritten e → IsWritten f → e.seat ≡ f.seat →
        line_of (entry_words e) ≡ line_of (entry_words f) → e ≡ f }
{}
