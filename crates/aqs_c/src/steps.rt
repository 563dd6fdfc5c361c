//! Steps as numbers.
ghost use Rattle.std.specs.Prelude.{◌≡◌, ◌≤◌, IfSome, IfNone};
ghost use Rattle.history.specs.declared.step.Step.{Step};
ghost use Rattle.aqs_c.specs.Codes.{mode_number, IsCodeOf};

use history::entry::Mode;
use history::step::Step;

/// A step. `code` says which, and `mode` is 0 for exclusive, 1 for shared, or the number of a condition.
#[repr(C)]
#[derive(Clone, Copy)]
pub struct AqsStep {
    pub n: u32,
    pub code: u8,
    pub mode: u8,
}

pub(crate) fn mode_of(mode: u8) -> Option<Mode>
    ensures some { IfSome result (λ m. mode_number m ≡ mode) }
    ensures none { IfNone result (2 ≤ mode) }
{
    match mode {
        0 => Some(Mode::X),
        1 => Some(Mode::S),
        _ => None,
    }
}

/// The step of a code, if it is the code of one.
pub(crate) fn step_of(step: AqsStep) -> Option<Step>
    ensures some { IfSome result (λ s. IsCodeOf s step) }
    ensures none { IfNone result ((s : Step) → IsCodeOf s step → ⊥) }
{
    match step.code {
        0 => Some(Step::Acquire(mode_of(step.mode)?, step.n)),
        1 => Some(Step::Try(mode_of(step.mode)?, step.n)),
        2 => Some(Step::TryFair(mode_of(step.mode)?, step.n)),
        3 => Some(Step::EntryInterrupt(mode_of(step.mode)?, step.n)),
        4 => Some(Step::Give(mode_of(step.mode)?, step.n)),
        5 => Some(Step::Look),
        6 => Some(Step::Expire),
        7 => Some(Step::Interrupt),
        8 => Some(Step::Await(step.mode)),
        9 => Some(Step::Signal(step.mode)),
        10 => Some(Step::SignalAll(step.mode)),
        11 => Some(Step::Drain),
        _ => None,
    }
}
