//! Reading the lines of a steps text, one after another.

ghost use Rattle.std.specs.Prelude.{◌≡◌, ◌+◌, ◌<◌, ◌≤◌, ◌^◌, Err, Ok, None, length, IfOk, IfErr, IsErrOf};
ghost use Rattle.history.specs.Header.{IsInRange};
ghost use Rattle.history.specs.Text.{HasNoBreak, ended};
ghost use Rattle.streams.specs.Reading.{IsReading};
ghost use Rattle.streams.specs.declared.fault.TextFault.TheVariants.{CutShort};
ghost use Rattle.streams.specs.UnderWay.{IsHeaderOf, IsLineBehind};
ghost use Rattle.steps.specs.StepLines.{end_line};
ghost use Rattle.steps.specs.StepsText.{steps_form, steps_so_far};

use crate::act_line::act_of;
use crate::common_step::common_step;
use crate::end_line::is_end;
use crate::header::{StepsHeader, header_on};
use frame::acts::Act;
use history::text::first_line;
use streams::fault::TextFault;

/// Returns the header of a text, and what follows its line.
pub fn header_of(text: &[u8]) -> Result<(StepsHeader, &[u8]), TextFault>
    ensures ok { IfOk result (IsHeaderOf steps_form text.now) }
    ensures err { IfErr result (λ fault. IsReading steps_form text.now (Err fault)) }
    ensures cut { IsErrOf result CutShort → HasNoBreak text.now }
    ensures shorter { IfOk result (λ r. length r.1.now ≤ length text.now) }
    ensures range { IfOk result (λ r. IsInRange r.0.header) }
{
    let Some((line, after)) = first_line(text) else {
        return Err(TextFault::CutShort);
    };
    match header_on(line) {
        Some(header) => Ok((header, after)),
        None => Err(TextFault::BadHeader),
    }
}

/// As `next_line`, word by word.
#[inline(never)]
fn line_by_words(
    rest: &[u8],
    header: &StepsHeader,
    count: u64,
) -> Result<Option<(Act, usize)>, TextFault>
    requires seats { 1 ≤ header.now.header.seats }
    requires few { count + 3 < 2 ^ 64 }
    ensures line { IsLineBehind steps_form (steps_so_far header.now count) rest.now result }
    ensures cut { IsErrOf result CutShort → HasNoBreak rest.now }
    ensures last { result ≡ Ok None → rest.now ≡ ended (end_line count) }
{
    let Some((line, after)) = first_line(rest) else {
        return Err(TextFault::CutShort);
    };
    if is_end(line, count) {
        if after.is_empty() {
            return Ok(None);
        }
        return Err(TextFault::BadLine(count + 3));
    }
    match act_of(line, header) {
        Some(act) => Ok(Some((act, after.len()))),
        None => Err(TextFault::BadLine(count + 2)),
    }
}

/// Returns the act of the next line after `count` acts were read, and how many bytes follow it. Returns None
/// if that is the end line, and nothing follows it.
#[inline(always)]
pub fn next_line(
    rest: &[u8],
    header: &StepsHeader,
    count: u64,
) -> Result<Option<(Act, usize)>, TextFault>
    requires seats { 1 ≤ header.now.header.seats }
    requires few { count + 3 < 2 ^ 64 }
    ensures line { IsLineBehind steps_form (steps_so_far header.now count) rest.now result }
    ensures cut { IsErrOf result CutShort → HasNoBreak rest.now }
    ensures last { result ≡ Ok None → rest.now ≡ ended (end_line count) }
{
    match common_step(rest, header.header.seats) {
        Some(((seat, common), left)) => Ok(Some((Act::Do(seat, common.step()), left))),
        None => line_by_words(rest, header, count),
    }
}
