//! The steps that may have made an entry.

ghost use Rattle.std.specs.Prelude.{◌≡◌};
ghost use Rattle.history.specs.declared.entry.Entry.{Entry};
ghost use Rattle.audit.specs.inner.Candidates.{candidates, refusal_candidates, only, either};

use history::entry::{Entry, Word};
use history::fault::Fault;
use history::step::Step;

/// Three steps, some of which may be the same. If any step of its seat makes an entry, one of its candidates
/// does.
#[derive(Clone, Copy, Drop)]
pub(crate) struct Candidates {
    pub(crate) first: Step,
    pub(crate) second: Step,
    pub(crate) third: Step,
}

/// Returns the candidates of an entry.
pub(crate) fn possible_steps(entry: Entry) -> Candidates
    ensures { result ≡ candidates entry }
{
    let Entry { mode, n, at, .. } = entry;
    match entry.word {
        Word::Got => either(Step::Acquire(mode, n), Step::TryFair(mode, n)),
        Word::TryGot => only(Step::Try(mode, n)),
        Word::Queued => only(Step::Acquire(mode, n)),
        Word::Granted | Word::Back => only(Step::Look),
        Word::Missed => either(Step::Try(mode, n), Step::TryFair(mode, n)),
        Word::Left | Word::Lapse => either(Step::Expire, Step::Interrupt),
        Word::Gave | Word::Counted => only(Step::Give(mode, n)),
        Word::Refused(fault) => refusal_candidates(fault, entry),
        Word::Await => only(Step::Await(at)),
        Word::Signal => only(Step::Signal(at)),
        Word::SignalAll => only(Step::SignalAll(at)),
        Word::Drained => only(Step::Drain),
    }
}

/// A call on a condition by a seat that isn't the owner is refused. An await of condition 0 is refused in the
/// same way, and each object with conditions has a condition 0.
fn refusal_candidates(fault: Fault, entry: Entry) -> Candidates
    ensures { result ≡ refusal_candidates fault entry.mode entry.n }
{
    let Entry { mode, n, .. } = entry;
    match fault {
        Fault::TooManyHolds => Candidates {
            first: Step::Acquire(mode, n),
            second: Step::Try(mode, n),
            third: Step::TryFair(mode, n),
        },
        Fault::Interrupted => only(Step::EntryInterrupt(mode, n)),
        Fault::NotOwner => either(Step::Give(mode, n), Step::Await(0)),
        Fault::TooManyPermits => only(Step::Give(mode, n)),
        Fault::HoldsRead => only(Step::Await(0)),
        Fault::OutOfPhase
        | Fault::NoSuchCondition
        | Fault::BadAmount
        | Fault::WrongMode
        | Fault::HistoryFull
        | Fault::OutOfMemory
        | Fault::TrimFull => only(Step::Look),
    }
}

fn only(step: Step) -> Candidates
    ensures { result ≡ only step }
{
    Candidates {
        first: step,
        second: step,
        third: step,
    }
}

fn either(first: Step, second: Step) -> Candidates
    ensures { result ≡ either first second }
{
    Candidates {
        first,
        second,
        third: second,
    }
}
