//! Running a list of steps.

ghost use Rattle.std.specs.Prelude.{◌≡◌, ◌<◌, All, IfOk, IfErr};
ghost use Rattle.history.specs.declared.fault.Fault.TheVariants.{OutOfMemory};
ghost use Rattle.frame.specs.Core.{start_of};
ghost use Rattle.frame.specs.Runs.{AreAnswered, AreResults, NoneLacksMemory};

use crate::hooks::Hooks;
use crate::machine::Core;
use history::fault::Fault;
use history::step::{Answer, Step};
use std::alloc::Global;

/// Performs steps, one after another, and returns the answer to each.
///
/// The list of answers is reserved first. If that fails, `OutOfMemory` is returned and no step was made;
/// there is no other fault. A step that returns `OutOfMemory` changes nothing, and the next step follows it.
pub fn run<H: Hooks + Drop>(
    alloc: Global,
    core: &mut Core<H>,
    steps: &[(u16, Step)],
) -> Result<Vec<Result<Answer, Fault>>, Fault>
    requires { All (λ step. step.0 < core.old.header.seats) steps.now }
    ensures answered { IfOk result (λ answers. AreAnswered core.old steps.now answers.items core.new) }
    // If no step lacked memory, answers, history and marks are those of the definitions.
    ensures results { IfOk result (λ answers.
        NoneLacksMemory answers.items → AreResults core.old steps.now answers.items core.new) }
    ensures header { core.new.header ≡ core.old.header }
    ensures err { IfErr result (λ fault. (fault ≡ OutOfMemory) × (core.new ≡ core.old)) }
{
    let mut answers = Vec::with_capacity(alloc, steps.len())?;
    for (seat, step) in steps {
        let answer = core.step(*seat, *step);
        answers.push_reserved(answer);
    }
    Ok(answers)
}
