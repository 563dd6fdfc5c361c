//! A line of a steps text: a step, or a trim.

ghost use Rattle.std.specs.Prelude.{◌≡◌, ◌≢◌, ◌≤◌, codes, IfSome, IfNone};
ghost use Rattle.frame.specs.declared.acts.Act.{Act};
ghost use Rattle.steps.specs.declared.header.Format.TheVariants.{Two};
ghost use Rattle.steps.specs.StepLines.{IsAct, act_line};

use crate::header::{Format, StepsHeader};
use crate::step_line::step_of;
use frame::acts::Act;

/// Returns the trim that a line spells, if the format has trims.
fn trim_of(line: &[u8], format: Format) -> Option<Act>
    ensures found { IfSome result (λ act. (act ≡ Act.Trim) × (format ≡ Two) × (line.now ≡ codes "trim")) }
    ensures none { IfNone result (format ≡ Two → line.now ≢ codes "trim") }
{
    match format {
        Format::Two if line == b"trim".as_slice() => Some(Act::Trim),
        _ => None,
    }
}

/// Returns the act that a line spells, under this header.
pub fn act_of(line: &[u8], header: &StepsHeader) -> Option<Act>
    requires { 1 ≤ header.now.header.seats }
    ensures found { IfSome result (λ act. IsAct header.now act × (line.now ≡ act_line act)) }
    ensures none { IfNone result ((act : Act) → IsAct header.now act → line.now ≢ act_line act) }
{
    match step_of(line, header.header.seats) {
        Some((seat, step)) => Some(Act::Do(seat, step)),
        None => trim_of(line, header.format),
    }
}
