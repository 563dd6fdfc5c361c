//! The last line of a history text.

ghost use Rattle.std.specs.Prelude.{◌≡◌, ◌∷◌, ◌↔◌, ◌<◌, ◌^◌, codes, decimal, IsTrue, IfSome};
ghost use Rattle.history.specs.Reading.{with_rest};
ghost use Rattle.history_text.specs.EntryLines.{counts_line};
ghost use Rattle.history_text.specs.EntryReading.{counts_at};

use history::words::Words;

/// Takes `end` and these two numbers, if they come next.
#[tactic(auto, unfolding(crate::specs::EntryReading::counts_at))]
fn counts(words: &mut Words<'_>, entries: u64, calls: u64) -> Option<()>
    ensures is { with_rest result words.new ≡ counts_at entries calls words.old }
    ensures found { IfSome result (λ _. words.old
        ≡ codes "end" ∷ decimal entries ∷ decimal calls ∷ words.new) }
{
    words.expect(b"end")?;
    words.number(entries, entries)?;
    words.number(calls, calls)?;
    Some(())
}

/// Returns whether the line ends a text with this number of entries, of which `calls` end a call.
pub fn is_end(line: &[u8], entries: u64, calls: u64) -> bool
    ensures { IsTrue result ↔ (line.now ≡ counts_line entries calls) }
{
    let mut words = Words::of(line);
    match counts(&mut words, entries, calls) {
        None => false,
        Some(()) => match words.next() {
            None => true,
            Some(_) => false,
        },
    }
}
