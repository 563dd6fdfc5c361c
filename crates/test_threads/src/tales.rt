//! Tales of each object.

use permit::Call;

/// Rows of a tale, each written `seat Call => answer`.
macro_rules! rows {
    ($($seat:literal $ask:ident $(($($of:expr),*))? => $told:expr),* $(,)?) => {
        &[$(($seat, $crate::asks::Ask::$ask $(($($of),*))?, $told)),*]
    };
}

pub mod fronts;
mod known;
mod woken;

const PLAIN: Call = Call::Park {
    seat: 1,
    until: None,
    interruptible: false,
};

const HEARS: Call = Call::Park {
    seat: 1,
    until: None,
    interruptible: true,
};

/// Milliseconds from the moment at which the clock stays.
const A_MINUTE: u32 = 60_000;

const TIMED: Call = Call::Park {
    seat: 1,
    until: Some(60_000),
    interruptible: true,
};

const WAKES: Call = Call::Unpark { seat: 1 };

const INTERRUPTS: Call = Call::Interrupt { seat: 1 };
