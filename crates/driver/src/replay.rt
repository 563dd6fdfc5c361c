//! The answers to the steps and trims of a text.

ghost use Rattle.std.specs.Prelude.{◌≡◌, ◌≢◌, ◌<◌, ◌≤◌, ◌↔◌, [], All, Err, false, IfErr, IfOk, IsErrOf, IsTrue, List, ℕ, OnErr, OnOk, Option, reverse};
ghost use Rattle.std.specs.Io.KnownBytes.{IsAtEnd};
ghost use Rattle.driver.specs.Below.{CoreView, IsOfSeats, IsStepped, Step, opening_base, IsBasedWell, IsSpelt, Memory, step_of, steps_form};
ghost use Rattle.driver.specs.inner.Answering.{Answered};
ghost use Rattle.driver.specs.inner.Logged.{IsLogged, IsStepLogged};
ghost use Rattle.driver.specs.ReplayStream.{AreAnswersBehind};
ghost use Rattle.driver.specs.StepReader.{progress};
ghost use Rattle.driver.specs.TextReader.{IsFaultOn};

use crate::code::Code;
use crate::step_reader::StepReader;
use crate::tape::Tape;
use frame::acts::Act;
use frame::hooks::Hooks;
use frame::machine::{Core, entry_at_once};
use history::entry::Mode;
use history::fault::Fault;
use history::step::{Answer, Step};
use std::alloc::{AllocError, Global};
use steps::MOST_ACTS;
use steps::common_step::Common;
use streams::source::Source;
use streams::stream_fault::StreamFault;

/// Keeps the line of the answer to a step.
#[inline(always)]
fn keep<H: Hooks + Drop>(
    core: &Core<H>,
    tape: &mut Tape,
    seat: u16,
    answer: Result<Answer, Fault>,
) -> Result<(), AllocError>
    requires told { (old : CoreView) × (step : Step) × IsStepped old seat step answer core.now }
    requires made { answer ≢ Err Fault.OutOfMemory }
    ensures { (old : CoreView) (step : Step) → IsStepped old seat step answer core.now →
        OnOk result (IsStepLogged old tape.old seat step core.now tape.new) }
{
    if let Some(code) = Code::of(seat, &answer) {
        return tape.push(code);
    }
    core.recall_lawful();
    tape.push_answer(seat, answer)
}

/// Performs a step, and keeps its line.
#[inline(never)]
fn answer_step<H: Hooks + Drop>(
    core: &mut Core<H>,
    tape: &mut Tape,
    seat: u16,
    step: Step,
) -> Result<(), AllocError>
    requires { seat < core.old.header.seats }
    ensures { OnOk result (IsStepLogged core.old tape.old seat step core.new tape.new) }
{
    let answer = core.step(seat, step);
    if let Err(Fault::OutOfMemory) = answer {
        return Err(AllocError);
    }
    keep(core, tape, seat, answer)
}

/// As `answer_step`, for a step that is mostly done at once: so its entry is known, and its code.
#[inline(always)]
fn at_once<H: Hooks + Drop>(
    core: &mut Core<H>,
    tape: &mut Tape,
    seat: u16,
    step: Step,
) -> Result<(), AllocError>
    requires { seat < core.old.header.seats }
    ensures { OnOk result (IsStepLogged core.old tape.old seat step core.new tape.new) }
{
    let Some(name) = core.step_at_once(seat, step) else {
        return answer_step(core, tape, seat, step);
    };
    let answer = Answer::Recorded(entry_at_once(seat, step), name);
    keep(core, tape, seat, Ok(answer))
}

// The next three are called for most steps of a lock that is asked for. Each knows its step.
#[inline(never)]
fn queue<H: Hooks + Drop>(core: &mut Core<H>, tape: &mut Tape, seat: u16) -> Result<(), AllocError>
    requires { seat < core.old.header.seats }
    ensures { OnOk result (IsStepLogged core.old tape.old seat (Step.Acquire Mode.X 1) core.new tape.new) }
{
    let Some(answer) = core.acquire(seat, Mode::X, 1) else {
        return answer_step(core, tape, seat, Step::Acquire(Mode::X, 1));
    };
    keep(core, tape, seat, Ok(answer))
}

#[inline(never)]
fn give<H: Hooks + Drop>(core: &mut Core<H>, tape: &mut Tape, seat: u16) -> Result<(), AllocError>
    requires { seat < core.old.header.seats }
    ensures { OnOk result (IsStepLogged core.old tape.old seat (Step.Give Mode.X 1) core.new tape.new) }
{
    let Some(answer) = core.give(seat, Mode::X, 1) else {
        return answer_step(core, tape, seat, Step::Give(Mode::X, 1));
    };
    keep(core, tape, seat, Ok(answer))
}

#[inline(never)]
fn look<H: Hooks + Drop>(core: &mut Core<H>, tape: &mut Tape, seat: u16) -> Result<(), AllocError>
    requires { seat < core.old.header.seats }
    ensures { OnOk result (IsStepLogged core.old tape.old seat Step.Look core.new tape.new) }
{
    let Some(answer) = core.look(seat) else {
        return answer_step(core, tape, seat, Step::Look);
    };
    keep(core, tape, seat, Ok(answer))
}

/// Performs a common step, and keeps its line. In most arms the step is known.
#[inline(always)]
fn answer_common<H: Hooks + Drop>(
    core: &mut Core<H>,
    tape: &mut Tape,
    seat: u16,
    common: Common,
) -> Result<(), AllocError>
    requires { seat < core.old.header.seats }
    ensures { OnOk result (IsStepLogged core.old tape.old seat (step_of common) core.new tape.new) }
{
    let alone = core.queue_length() == 0;
    match common {
        Common::Acquire if alone => at_once(core, tape, seat, Step::Acquire(Mode::X, 1)),
        Common::AcquireShared if alone => at_once(core, tape, seat, Step::Acquire(Mode::S, 1)),
        Common::Give if alone => at_once(core, tape, seat, Step::Give(Mode::X, 1)),
        Common::GiveShared if alone => at_once(core, tape, seat, Step::Give(Mode::S, 1)),
        Common::Acquire => queue(core, tape, seat),
        Common::Give => give(core, tape, seat),
        Common::Look => look(core, tape, seat),
        _ => answer_step(core, tape, seat, common.step()),
    }
}

/// Performs the common steps that are next, and keeps their lines. It is the only one that calls
/// `answer_common` for a kind of hooks, whatever the source, so that it is compiled with it as one.
#[inline(never)]
fn answer_commons<H: Hooks + Drop>(
    core: &mut Core<H>,
    tape: &mut Tape,
    steps: &mut StepReader,
) -> Result<(), AllocError>
    requires { core.old.header ≡ steps.old.header.header }
    ensures further { OnOk result (steps.old.count ≤ steps.new.count) }
    ensures ok { OnOk result ((left : Option (List ℕ)) → Answered (progress steps.old left)
        (progress steps.new left) core.old tape.old core.new tape.new) }
    ensures err { OnErr result ((left : Option (List ℕ)) →
        IsFaultOn steps_form (progress steps.old left) left Memory) }
{
    while let Some((seat, common)) = steps.next_common() {
        answer_common(core, tape, seat, common)?;
    }
    Ok(())
}

/// Performs an act, and keeps its line.
#[inline(never)]
fn answer_act<H: Hooks + Drop>(
    core: &mut Core<H>,
    tape: &mut Tape,
    act: Act,
) -> Result<(), AllocError>
    requires { IsOfSeats core.old.header.seats act }
    ensures { OnOk result (IsLogged core.old tape.old act core.new tape.new) }
{
    match act {
        Act::Do(seat, step) => answer_step(core, tape, seat, step),
        Act::Trim => tape.push_trim(&core.trim()),
    }
}

/// Performs the acts of a text on a new core, each as its line is read. Returns the answers.
///
/// A fault of the text or of its source ends the replay. So does a step that returns `OutOfMemory`. If a text
/// has more acts than a good one may have, the rest is read up to its fault and not performed.
pub fn replay<H: Hooks + Drop, R: Source>(
    alloc: Global,
    core: &mut Core<H>,
    steps: &mut StepReader,
    reader: &mut R,
) -> Result<Tape, StreamFault>
    requires reader { R.failed reader.old ≡ false }
    requires header { core.old.header ≡ steps.old.header.header }
    requires base { core.old.base ≡ opening_base steps.old.header.header }
    requires fresh { core.old.entries ≡ [] }
    ensures ok { IfOk result (λ tape. AreAnswersBehind (progress steps.old (R.left reader.old))
        (record {
          header = steps.old.header;
          base = core.new.base;
          entries = core.new.entries;
          lines = tape.lines;
        })) }
    ensures based { OnOk result (IsBasedWell steps.old.header.header (Some core.new.base)) }
    ensures spelt { OnOk result (All IsSpelt (reverse core.new.entries)) }
    ensures err { IfErr result (IsFaultOn steps_form (progress steps.old (R.left reader.old))
        (R.left reader.new)) }
    ensures memory { OnOk result (IsFaultOn steps_form (progress steps.old (R.left reader.old))
        (R.left reader.new) Memory) }
    ensures ended { OnOk result (IsAtEnd (R.left reader.new)) }
    ensures failing { IsErrOf result StreamFault.ReadFailed ↔ IsTrue (R.failed reader.new) }
{
    let mut tape = Tape::new(alloc);
    loop {
        answer_commons(core, &mut tape, steps)?;
        let Some(act) = steps.next(reader)? else {
            core.recall_lawful();
            return Ok(tape);
        };
        if steps.count() > MOST_ACTS {
            steps.read_to_fault(reader)?;
            return Err(StreamFault::Memory);
        }
        answer_act(core, &mut tape, act)?;
    }
}
