//! Writing all bytes to a sink.

ghost use Rattle.std.specs.Prelude.{◌≡◌, ◌↔◌, false, IsTrue, IsErr, OnOk, OnErr};
ghost use Rattle.std.specs.Io.KnownBytes.{Appends};
ghost use Rattle.streams.specs.Writing.{AppendsFront};

use crate::sink::Sink;
use crate::source::DeviceFailed;

/// Writes all the bytes. On an error only the first ones may have been written.
pub fn write_all<W: Sink>(writer: &mut W, bytes: &[u8]) -> Result<(), DeviceFailed>
    requires { W.failed writer.old ≡ false }
    ensures ok { OnOk result (Appends (W.held writer.old) (W.held writer.new) bytes.now) }
    ensures err { OnErr result (AppendsFront (W.held writer.old) (W.held writer.new) bytes.now) }
    ensures failing { IsTrue (W.failed writer.new) ↔ IsErr result }
{
    let mut at = 0;
    while at < bytes.len() {
        at += writer.write(&bytes[at..])?;
    }
    Ok(())
}
