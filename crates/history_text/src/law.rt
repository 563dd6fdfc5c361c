//! What the definitions say about each text.

ghost use Rattle.std.specs.Prelude.{◌≡◌, ◌≢◌, ◌≤◌, [], ◌++◌, List, ℕ, length, reverse};
ghost use Rattle.history_text.specs.Below.{Entry, Header, Base, HistoryView, base_on, start_on, IsBaseOf, IsGood, IsInRange, AreSeated, IsLegal, text_of, LINE_BYTES, IsCutShort, Reading, HasShortLines};
ghost use Rattle.history_text.specs.HistoryLines.{head_of};
ghost use Rattle.history_text.specs.HistoryText.{history_form, Fits, IsHistoryReading, IsHistoryText, IsRead};
ghost use Rattle.history_text.specs.Pieces.{history_text};
ghost use Rattle.history_text.specs.TextLines.{lines_on};

/// A text has one reading: it spells one base with its header and one list of entries, or it has one first
/// fault.
pub fn one_reading()
    ensures { (text : List ℕ) (a b : Reading Base Entry) → IsHistoryReading text a →
        IsHistoryReading text b → a ≡ b }
{}

/// Each proper beginning of a history text is cut short.
pub fn cut_short()
    ensures { (text : List ℕ) (b : Base) (entries : List Entry) → IsHistoryText text b entries →
        (front more : List ℕ) → front ++ more ≡ text → more ≢ [] → IsCutShort history_form front }
{}

/// The written text of a history that fits its header is the history text of its entries.
pub fn written_is_read()
    ensures { (h : Header) (kept : HistoryView) → IsInRange h → length kept.entries ≤ kept.cap →
        Fits h kept → IsHistoryText (history_text (base_on h kept) kept.entries) (base_on h kept)
        (reverse kept.entries) }
{}

/// Each legal history of an object in range, on a good base or on none, fits its header if its cap is the
/// header's. So it has a text, and is read as it was written.
pub fn legal_histories_fit()
    ensures { (h : Header) (kept : HistoryView) → IsInRange h → kept.cap ≡ h.cap →
        IsBaseOf h (base_on h kept) → IsLegal (start_on h kept) kept.entries →
        AreSeated (start_on h kept) kept.entries → Fits h kept }
{}

/// No line of a history text has 256 bytes or more.
pub fn lines_are_short()
    ensures { HasShortLines history_form LINE_BYTES }
{}

/// The one text of a history on a good base of an object in range has these lines in order: its first line,
/// the lines of the base, the lines of the entries, and a line that counts both. The numbers of the entries
/// continue after the folded ones.
pub fn texts_are_in_pieces()
    ensures { (b : Base) (entries : List Entry) → IsInRange b.header → IsGood b →
        text_of history_form (head_of b) (lines_on b (reverse entries)) ≡ history_text b entries }
{}

/// What is read from a text fits its header, so it has a text again.
pub fn what_is_read_fits()
    ensures { (text : List ℕ) (h : Header) (kept : HistoryView) → IsRead text h kept → Fits h kept }
{}
