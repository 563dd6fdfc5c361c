//! Why a step failed.

use std::alloc::AllocError;
use std::error::Error;
use std::fmt;

/// The error of a step or a call. The first five are recorded as an entry `Refused`. After any other nothing
/// has changed and nothing is recorded.
#[derive(Clone, Copy, Debug, PartialEq, Eq)]
pub enum Fault {
    /// A release, await or signal by a seat without the hold.
    NotOwner,
    /// The seat, or all seats together, have the greatest number of holds.
    TooManyHolds,
    /// A release past `MOST_AMOUNT` free permits.
    TooManyPermits,
    /// An interrupt was pending at entry.
    Interrupted,
    /// An await by an owner with read holds.
    HoldsRead,
    /// A step that doesn't fit the seat's phase.
    OutOfPhase,
    /// A condition that the object doesn't have.
    NoSuchCondition,
    /// An amount above `MOST_AMOUNT`, or other than 1 on anything but a semaphore.
    BadAmount,
    /// A step or mode that the object doesn't have.
    WrongMode,
    /// The history has no room for the entry and for what it would owe.
    HistoryFull,
    /// An allocation failed.
    OutOfMemory,
    /// The base would have more folded entries than the limit allows.
    TrimFull,
}

impl Fault {
    ghost use Rattle.std.specs.Prelude.{◌≡◌};
    ghost use Rattle.history.specs.Fault.{fault_number, fault_name};

    /// Returns its number in the table of faults, from 1. Faults 1 to 5 are recorded.
    pub fn number(self) -> u8
        ensures { result ≡ fault_number self }
    {
        match self {
            Fault::NotOwner => 1,
            Fault::TooManyHolds => 2,
            Fault::TooManyPermits => 3,
            Fault::Interrupted => 4,
            Fault::HoldsRead => 5,
            Fault::OutOfPhase => 6,
            Fault::NoSuchCondition => 7,
            Fault::BadAmount => 8,
            Fault::WrongMode => 9,
            Fault::HistoryFull => 10,
            Fault::OutOfMemory => 11,
            Fault::TrimFull => 12,
        }
    }

    /// Returns its name, which is also its word in a text.
    pub fn name(self) -> &'static str
        ensures { result.now ≡ fault_name self }
    {
        match self {
            Fault::NotOwner => "NotOwner",
            Fault::TooManyHolds => "TooManyHolds",
            Fault::TooManyPermits => "TooManyPermits",
            Fault::Interrupted => "Interrupted",
            Fault::HoldsRead => "HoldsRead",
            Fault::OutOfPhase => "OutOfPhase",
            Fault::NoSuchCondition => "NoSuchCondition",
            Fault::BadAmount => "BadAmount",
            Fault::WrongMode => "WrongMode",
            Fault::HistoryFull => "HistoryFull",
            Fault::OutOfMemory => "OutOfMemory",
            Fault::TrimFull => "TrimFull",
        }
    }
}

impl fmt::Display for Fault {
    ghost use Rattle.std.specs.Prelude.{Some};
    ghost use Rattle.history.specs.Fault.{fault_name};

    ghost output = { λ fault. Some (fault_name fault) };

    fn fmt<W: fmt::Write>(&self, f: &mut fmt::Formatter<W>) -> fmt::Result {
        f.write_str(self.name())
    }
}

impl Error for Fault {}

impl From<AllocError> for Fault {
    ghost use Rattle.std.specs.Prelude.{◌≡◌};
    ghost use Rattle.history.specs.declared.fault.Fault.TheVariants.{OutOfMemory};

    ghost from_gives = { λ _ fault. fault ≡ OutOfMemory };

    fn from(_error: AllocError) -> Fault {
        Fault::OutOfMemory
    }
}
