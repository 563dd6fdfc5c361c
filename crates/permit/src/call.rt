//! Calls, as `ScriptedParking` records them.

/// A call that was made, with its arguments.
#[derive(Clone, Copy, Debug, PartialEq, Eq)]
pub enum Call {
    Park {
        seat: u16,
        until: Option<u64>,
        interruptible: bool,
    },
    Unpark {
        seat: u16,
    },
    Interrupt {
        seat: u16,
    },
}
