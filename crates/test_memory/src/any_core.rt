//! A core of any object, whose calls check what the core's own calls require of their caller. Its observers
//! are combined into one number, to compare.

ghost use Rattle.std.specs.Prelude.{◌<◌, All, IsTrue, ⊤};
ghost use Rattle.frame.specs.Acts.{IsOfSeats};

use any_object::AnyHooks;
use frame::acts::{Act, Done, run_acts};
use frame::machine::Core;
use frame::run::run;
use history::entry::Mode;
use history::fault::Fault;
use history::header::Header;
use history::step::{Answer, Step};
use std::alloc::Global;
use std::marker::Model;

/// The core of any object.
type Inner = Core<AnyHooks>;

/// The result of an act.
pub type Outcome = Result<Done, Fault>;

fn open(alloc: Global, header: &Header) -> Result<Inner, Fault> {
    if !header.in_range() {
        return Err(Fault::BadAmount);
    }
    let hooks = AnyHooks::open(alloc, header)?;
    Core::open(alloc, hooks, header.seats, header.conditions, header.cap)
}

fn are_seated(seats: u16, steps: &[(u16, Step)]) -> bool
    ensures { IsTrue result → All (λ s. s.0 < seats) steps.now }
{
    steps.iter().all(|step| step.0 < seats)
}

fn is_of_seats(seats: u16, act: Act) -> bool
    ensures { IsTrue result → IsOfSeats seats act }
{
    match act {
        Act::Do(seat, _step) => seat < seats,
        Act::Trim => true,
    }
}

fn are_of_seats(seats: u16, acts: &[Act]) -> bool
    ensures { IsTrue result → All (IsOfSeats seats) acts.now }
{
    acts.iter().all(|act| is_of_seats(seats, *act))
}

/// Combines two numbers into one that depends on both.
fn mixed(sum: u64, number: u64) -> u64 {
    (sum ^ number).wrapping_mul(1_099_511_628_211)
}

/// Combines what a seat holds with its mark.
fn told_of_seat(core: &Inner, seat: u16) -> u64 {
    if core.header().seats <= seat {
        return 0;
    }
    let exclusive = (core.holds(seat, Mode::X) % 1_000_000_000) as u64;
    let shared = (core.holds(seat, Mode::S) % 1_000_000_000) as u64;
    mixed(mixed(exclusive, shared), u64::from(core.is_told(seat)))
}

/// A core of the object that a header names. Contracts see nothing of it, which keeps the proofs of callers
/// small.
#[derive(Drop)]
pub struct AnyCore {
    core: Inner,
}

impl Model for AnyCore {
    ghost Value = { ⊤ };

    ghost view = { λ _. tt };
}

impl AnyCore {
    /// Opens a core of the header. Returns `BadAmount` if no object has such a header.
    pub fn open(alloc: Global, header: &Header) -> Result<AnyCore, Fault> {
        match open(alloc, header) {
            Ok(core) => Ok(AnyCore { core }),
            Err(fault) => Err(fault),
        }
    }

    /// Performs a step. Returns `OutOfPhase` if the core lacks the seat.
    fn step(&mut self, seat: u16, asked: Step) -> Result<Answer, Fault> {
        if self.core.header().seats <= seat {
            return Err(Fault::OutOfPhase);
        }
        self.core.step(seat, asked)
    }

    /// Performs a step or a trim.
    pub fn act(&mut self, act: Act) -> Outcome {
        match act {
            Act::Do(seat, asked) => match self.step(seat, asked) {
                Ok(answer) => Ok(Done::Answered(answer)),
                Err(fault) => Err(fault),
            },
            Act::Trim => match self.core.trim() {
                Ok(count) => Ok(Done::Trimmed(count)),
                Err(fault) => Err(fault),
            },
        }
    }

    /// Performs the steps. Returns `OutOfPhase` if the core lacks the seat of one of them.
    pub fn run(
        &mut self,
        alloc: Global,
        steps: &[(u16, Step)],
    ) -> Result<Vec<Result<Answer, Fault>>, Fault> {
        if !are_seated(self.core.header().seats, steps) {
            return Err(Fault::OutOfPhase);
        }
        run(alloc, &mut self.core, steps)
    }

    /// As `run`, for steps and trims.
    pub fn run_acts(&mut self, alloc: Global, acts: &[Act]) -> Result<Vec<Outcome>, Fault> {
        if !are_of_seats(self.core.header().seats, acts) {
            return Err(Fault::OutOfPhase);
        }
        run_acts(alloc, &mut self.core, acts)
    }

    pub fn header(&self) -> &Header {
        self.core.header()
    }

    pub fn places(&self) -> u64 {
        self.core.history().places()
    }

    pub fn entries(&self) -> u64 {
        self.core.history().len()
    }

    pub fn calls(&self) -> u64 {
        self.core.history().calls()
    }

    /// Returns whether the core has the seat, and has told it that it could go.
    pub fn is_told(&self, seat: u16) -> bool {
        seat < self.core.header().seats && self.core.is_told(seat)
    }

    /// Returns all that the core's observers return, except its places, as one number.
    pub fn told(&self) -> u64 {
        self.core.recall_lawful();
        let history = self.core.history();
        let balance = self.core.balance();
        let mut sum = mixed(history.len(), history.calls());
        sum = mixed(sum, history.owed());
        sum = mixed(sum, u64::from(self.core.queue_length()));
        sum = mixed(sum, u64::from(self.core.waiters(0)));
        sum = mixed(sum, u64::from(self.core.waiters(1)));
        sum = mixed(sum, u64::from(self.core.is_held()));
        sum = mixed(sum, self.core.available().unsigned_abs());
        sum = mixed(sum, u64::from(self.core.count()));
        sum = mixed(sum, (balance.shared % 1_000_000_000) as u64);
        for seat in 0..4 {
            sum = mixed(sum, told_of_seat(&self.core, seat));
        }
        sum
    }
}
