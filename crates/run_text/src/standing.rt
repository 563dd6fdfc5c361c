//! The whole text.

ghost use Rattle.std.specs.Prelude.{◌≡◌, ◌++◌, IfOk, OnOk};
ghost use Rattle.run_text.specs.Lines.{first_line};
ghost use Rattle.run_text.specs.StandingText.{IsStandingText};

use crate::call_text::put;
use crate::circle::{circle_of, put_circle};
use crate::thread_lines::put_threads;
use script::Script;
use std::alloc::{AllocError, Global};
use workers::Standing;

/// Appends that the run has not ended.
fn put_first(out: &mut Vec<u8>, milliseconds: u32) -> Result<(), AllocError>
    ensures { OnOk result (out.new.items ≡ out.old.items ++ first_line milliseconds) }
{
    put(out, b"not ended after ", u64::from(milliseconds))?;
    out.extend_from_slice(b" milliseconds; a thread may be about to go on\n")
}

/// Returns the text of how a run of a script stands that did not end within this many milliseconds.
pub fn standing_text(
    alloc: Global,
    milliseconds: u32,
    script: &Script,
    standings: &[Standing],
) -> Result<Vec<u8>, AllocError>
    ensures { IfOk result (λ text.
        IsStandingText milliseconds script.now standings.now text.items) }
{
    let objects = script.objects();
    let workers = script.workers();
    let circle = circle_of(alloc, workers, standings)?;
    let mut out = Vec::new(alloc);
    put_first(&mut out, milliseconds)?;
    put_threads(&mut out, objects, 0, workers, standings)?;
    put_circle(&mut out, objects, &circle)?;
    Ok(out)
}
