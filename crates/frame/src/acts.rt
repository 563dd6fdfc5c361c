//! Running a list of steps, with trims between them.

ghost use Rattle.std.specs.Prelude.{◌≡◌, All, IfErr, IfOk};
ghost use Rattle.history.specs.declared.fault.Fault.TheVariants.{OutOfMemory};
ghost use Rattle.frame.specs.Acts.{AreDone, IsDone, IsOfSeats, IsOutcome, NoneLacks};

use crate::hooks::Hooks;
use crate::machine::Core;
use history::fault::Fault;
use history::step::{Answer, Step};
use std::alloc::Global;

/// One act of a list.
#[derive(Clone, Copy, Debug, PartialEq, Eq)]
pub enum Act {
    /// A step of a seat.
    Do(u16, Step),
    /// A trim: the entries are folded.
    Trim,
}

/// What an act returns, unless it returns an unrecorded fault.
#[derive(Clone, Copy, Debug, PartialEq, Eq)]
pub enum Done {
    /// The answer to a step.
    Answered(Answer),
    /// How many entries a trim folded.
    Trimmed(u64),
}

/// Performs steps and trims, one after another, and returns what each returned.
///
/// The list of results is reserved first. If that fails, `OutOfMemory` is returned and no act was performed;
/// there is no other fault. A step that returns `OutOfMemory` changes nothing, and the next act follows it.
pub fn run_acts<H: Hooks + Drop>(
    alloc: Global,
    core: &mut Core<H>,
    acts: &[Act],
) -> Result<Vec<Result<Done, Fault>>, Fault>
    requires { All (IsOfSeats core.old.header.seats) acts.now }
    ensures done { IfOk result (λ done. AreDone core.old acts.now done.items core.new) }
    // If no step lacked memory, answers, base, history and marks are those of the definitions.
    ensures outcome { IfOk result (λ done.
        NoneLacks done.items → IsOutcome core.old acts.now done.items core.new) }
    ensures header { core.new.header ≡ core.old.header }
    ensures err { IfErr result (λ fault. (fault ≡ OutOfMemory) × (core.new ≡ core.old)) }
{
    let mut done = Vec::with_capacity(alloc, acts.len())?;
    for act in acts {
        let outcome = perform(core, *act);
        done.push_reserved(outcome);
    }
    Ok(done)
}

/// Performs a step or a trim.
fn perform<H: Hooks + Drop>(core: &mut Core<H>, act: Act) -> Result<Done, Fault>
    requires { IsOfSeats core.old.header.seats act }
    ensures done { IsDone core.old act result core.new }
    ensures header { core.new.header ≡ core.old.header }
{
    match act {
        Act::Do(seat, step) => match core.step(seat, step) {
            Ok(answer) => Ok(Done::Answered(answer)),
            Err(fault) => Err(fault),
        },
        Act::Trim => match core.trim() {
            Ok(count) => Ok(Done::Trimmed(count)),
            Err(fault) => Err(fault),
        },
    }
}
