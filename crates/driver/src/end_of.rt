//! What follows the end line of a text.

ghost use Rattle.std.specs.Prelude.{◌≡◌, ◌<◌, ◌≤◌, ◌+◌, ◌^◌, ◌↔◌, false, length, None, Ok, IsTrue, IsErrOf};
ghost use Rattle.std.specs.Io.KnownBytes.{IsAtEnd, Keeps, prepend_known};
ghost use Rattle.driver.specs.inner.TextReader.{IsAfterEnd};
ghost use Rattle.streams.specs.declared.limits.TheConstants.{LINE_BYTES};
ghost use Rattle.streams.specs.Window.{room};

use streams::fault::TextFault;
use streams::source::Source;
use streams::stream_fault::StreamFault;
use streams::window::Window;

/// Checks that nothing follows the end line, which the window still holds.
pub(crate) fn end_of<T, R: Source>(
    window: &mut Window,
    reader: &mut R,
    count: u64,
) -> Result<Option<T>, StreamFault>
    requires reader { R.failed reader.old ≡ false }
    requires end { length window.old.bytes < LINE_BYTES }
    requires room { window.old.places ≡ room }
    requires few { count + 3 < 2 ^ 64 }
    ensures after { IsAfterEnd count (R.left reader.old) result }
    ensures ended { result ≡ Ok None → IsAtEnd (R.left reader.new) }
    ensures memory { IsErrOf result StreamFault.Memory → ⊥ }
    ensures failing { IsErrOf result StreamFault.ReadFailed ↔ IsTrue (R.failed reader.new) }
    ensures stays { Keeps (prepend_known window.old.bytes (R.left reader.old))
        (prepend_known window.new.bytes (R.left reader.new)) }
    ensures places { window.new.places ≡ window.old.places }
    ensures held { length window.new.bytes ≤ room }
{
    if window.read_more(reader)? > 0 {
        return Err(StreamFault::Text(TextFault::BadLine(count + 3)));
    }
    Ok(None)
}
