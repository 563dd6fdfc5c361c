//! Running a script for a limited time, or telling a terminal how a long run stands.

ghost use Rattle.std.specs.Prelude.{◌≡◌, ◌↔◌, false, IfErr, IfOk, IsErrOf, IsTrue};
ghost use Rattle.std.specs.Arc.{arc_value};
ghost use Rattle.streams.specs.declared.stream_fault.StreamFault.TheVariants.{WriteFailed};
ghost use Rattle.tasks.specs.Explain.{Says};
ghost use Rattle.tasks.specs.Timed.{IsFaultOfTimed, IsTimed};
ghost use Rattle.tasks.specs.declared.fault.Fault.TheVariants.{Stream};

use crate::explain::write_told;
use crate::fault::Fault;
use crate::ran::Ran;
use run_text::standing_text;
use script::Script;
use std::io::Write;
use std::sync::{Arc, Wait};
use std::thread::Threads;
use std::time::Clock;
use streams::sink::Sink;
use workers::{Keep, Running};

/// After how many milliseconds a terminal is told how a run stands that has no limit.
const PATIENCE: u32 = 10_000;

/// What comes after the lines of the threads.
const GOES_ON: &[u8] =
    b"aqs: the run goes on; Ctrl-C ends it, and --timeout M ends a run after M milliseconds\n";

/// How a run for a limited time went.
#[derive(Drop)]
pub enum Timed {
    /// It ended in time.
    Ended(Ran),
    /// It did not end in time: the text of how its threads stood. They may still run.
    Late(Vec<u8>),
}

/// Runs the threads of a script, and waits for their ends at most this many milliseconds, if there is a limit. Without
/// one a terminal is told how they stand if they take long.
///
/// # Errors
///
/// [`Fault::Run`], as of [`Running::report`], and [`Fault::Memory`] if memory lacks for the text.
pub fn run_within<T: AllocGlobal + Threads + Wait + Clock + Sync + Send + Copy + 'static, E: Write>(
    rt: &T,
    script: Arc<Script>,
    timeout: Option<u32>,
    keep: Keep,
    terminal: &mut Option<E>,
) -> Result<Timed, Fault>
    ensures timed { IfOk result (IsTimed timeout keep (arc_value script)) }
    ensures err { IfErr result (IsFaultOfTimed (arc_value script).workers) }
{
    let run = Running::start(rt, rt.alloc(), &script, keep)?;
    let milliseconds = timeout.unwrap_or(PATIENCE);
    if !run.ends_within(rt, milliseconds) {
        let standings = run.standings(rt.alloc())?;
        let text = standing_text(rt.alloc(), milliseconds, &*script, &standings)?;
        match timeout {
            Some(_) => return Ok(Timed::Late(text)),
            None => tell(terminal, &text),
        }
    }
    let report = run.report(rt)?;
    Ok(Timed::Ended(Ran::made(script, report)))
}

/// Tells a terminal, if there is one, how the threads of a run stand that goes on.
fn tell<E: Write>(terminal: &mut Option<E>, text: &[u8]) {
    if let Some(terminal) = terminal {
        let _ = terminal.write_all(b"aqs: ");
        let _ = terminal.write_all(text);
        let _ = terminal.write_all(GOES_ON);
    }
}

/// Writes how the threads of a late run stood. Returns the exit status, which is 1.
pub fn tell_late<W: Sink>(writer: &mut W, text: &[u8]) -> Result<u8, Fault>
    requires { W.failed writer.old ≡ false }
    ensures says { Says 1 text.now (W.held writer.old) (W.held writer.new) result }
    ensures write { IsErrOf result (Stream WriteFailed) ↔ IsTrue (W.failed writer.new) }
{
    write_told(writer, text, 1)
}
