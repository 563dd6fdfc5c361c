//! Reading the lines of a base from their source, one after another.

ghost use Rattle.std.specs.Prelude.{◌≡◌, ◌≤◌, ◌↔◌, false, length, true, IsTrue, IsErrOf, IfOk};
ghost use Rattle.driver.specs.Below.{IsBaseOf, IsInRange, MOST_LINES, room};
ghost use Rattle.driver.specs.BaseReader.{IsPlacedBehind};
ghost use Rattle.driver.specs.inner.BaseReader.{IsBaseRead, IsLineTaken};

use history::base::Base;
use history_text::base_under_way::BaseUnderWay;
use history_text::place::{Head, Place};
use std::alloc::Global;
use streams::source::Source;
use streams::stream_fault::StreamFault;
use streams::window::Window;

/// Reads the base that follows the first line, and returns it with the reader's position after it. The window
/// continues with what follows.
pub(crate) fn read_base<R: Source>(
    alloc: Global,
    head: &Head,
    window: &mut Window,
    reader: &mut R,
) -> Result<(Base, Place), StreamFault>
    requires reader { R.failed reader.old ≡ false }
    requires range { IsInRange head.now.header }
    requires based { head.now.is_based ≡ true }
    requires room { window.old.places ≡ room }
    requires held { length window.old.bytes ≤ room }
    ensures read { IsBaseRead head.now window.old.bytes (R.left reader.old) result window.new.bytes
        (R.left reader.new) }
    ensures base { IfOk result (λ r. IsBaseOf head.now.header r.0 × (1 ≤ r.0.entries)) }
    ensures place { IfOk result (λ r. IsPlacedBehind r.0 r.1) }
    ensures places { window.new.places ≡ window.old.places }
    ensures held { length window.new.bytes ≤ room }
    ensures failing { IsErrOf result StreamFault.ReadFailed ↔ IsTrue (R.failed reader.new) }
{
    let Ok(mut base) = BaseUnderWay::open(alloc, &head.header) else {
        return Err(StreamFault::Memory);
    };
    while take_line(window, reader, &mut base)? {}
    Ok(base.finish())
}

/// Reads the next line of a base, and returns whether it was one. If not, the base is complete, and the whole
/// line is still in the window.
fn take_line<R: Source>(
    window: &mut Window,
    reader: &mut R,
    base: &mut BaseUnderWay,
) -> Result<bool, StreamFault>
    requires reader { R.failed reader.old ≡ false }
    requires room { window.old.places ≡ room }
    requires held { length window.old.bytes ≤ room }
    ensures taken { IsLineTaken base.old window.old.bytes (R.left reader.old) result base.new
        window.new.bytes (R.left reader.new) }
    ensures header { base.new.header ≡ base.old.header }
    ensures few { IfOk result (λ _. length base.new.lines ≤ MOST_LINES) }
    ensures places { window.new.places ≡ window.old.places }
    ensures held { length window.new.bytes ≤ room }
    ensures failing { IsErrOf result StreamFault.ReadFailed ↔ IsTrue (R.failed reader.new) }
{
    window.read_line(reader)?;
    let Some(left) = base.take_next(window.bytes())? else {
        return Ok(false);
    };
    window.keep_last(left);
    Ok(true)
}
