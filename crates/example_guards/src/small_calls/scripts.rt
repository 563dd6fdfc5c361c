//! A caller of `script`, for its page CALLING.md.

ghost use Rattle.std.specs.Prelude.{◌≤◌, IfOk, IfErr};
ghost use Rattle.script.specs.Reading.{IsFault};

use script::{ScriptFault, read_script};
use std::alloc::Global;

/// Returns how many threads the script of a text has.
pub fn threads_of(alloc: Global, text: &[u8]) -> Result<usize, ScriptFault>
    ensures ok { IfOk result (λ threads. (1 ≤ threads) × (threads ≤ 256)) }
    ensures err { IfErr result (IsFault text.now) }
{
    match read_script(alloc, text) {
        Ok(script) => Ok(script.workers().len()),
        Err(fault) => Err(fault),
    }
}
