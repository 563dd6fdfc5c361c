//! Threads that run a script.
//!
//! [`run_threads`] opens the objects of a script and starts a thread for each worker. Worker `t` has seat `t`
//! in every object, and one [`Pass`](monitor::Pass) of each. It makes its calls in order, round after round.
//! All threads share one `ThreadParking`, so a worker interrupts another by its number. No worker makes its
//! first call before all threads are started.
//!
//! When all have ended, each object is closed. The [`Report`] has what closing returns. Each history is
//! proved to be legal, so none is audited. [`Keep`] says whether the report also lists the answers that no history
//! records.
//!
//! A [`Running`] is a run in threads of its own. Whoever started it waits for its end at most a given time, and
//! asks how each thread stands: how many of its calls have ended, whether it waits, and what it holds.
//!
//! Proved of a report: for each worker and object there is one pass, and that worker's calls produced it.
//! Every call changed its pass as the monitor's call promises. Each object's history is legal from its base
//! and agrees with the entries of each pass. The passes' merged share is the number of its calls, folded ones
//! too. The judgement is Legal with the history's totals.
//!
//! Not claimed: that a run ends, that threads run at the same time, and the order of their entries.
#![tactic(auto)]

mod act;
mod fault;
mod gate;
mod kept;
mod notes;
mod opened;
mod passes;
mod post;
mod reply;
mod report;
mod run;
mod standing;
mod start;
mod threads;
mod unrecorded;
mod within;
mod work;

pub use fault::RunFault;
pub use gate::{Gate, OpenGate};
pub use report::{ObjectReport, Report};
pub use run::run_threads;
pub use standing::{Held, Standing};
pub use unrecorded::{Keep, Unrecorded};
pub use within::Running;
