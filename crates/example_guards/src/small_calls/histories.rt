//! A caller of `history`.

ghost use Rattle.std.specs.Prelude.{◌≡◌, ◌<◌, ◌+◌, ◌∷◌, length, IsErrOf, OnOk, OnErr, ◌↔◌};
ghost use Rattle.history.specs.declared.fault.Fault.TheVariants.{HistoryFull};

use history::entries::History;
use history::entry::Entry;
use history::fault::Fault;

/// Adds the entry of a lock's acquire. Room for the entry of its release is reserved at the same time, so the
/// release can be recorded whatever happens in between.
pub fn add_acquire(history: &mut History, entry: Entry) -> Result<(), Fault>
    ensures added { OnOk result (history.new.entries ≡ entry ∷ history.old.entries) }
    ensures owed { OnOk result (history.new.owed ≡ history.old.owed + 1) }
    ensures full { IsErrOf result HistoryFull
        ↔ (history.old.cap < length history.old.entries + history.old.owed + 2) }
    ensures err { OnErr result (history.new ≡ history.old) }
{
    let owed = history.owed();
    if u64::from(history.cap()) <= owed {
        return Err(Fault::HistoryFull);
    }
    history.make_room(2)?;
    history.add(entry, owed + 1);
    Ok(())
}
