//! Trims of a lock's core, by one thread.
//!
//! A trim looks at the seats and at no entry. But the entries that were made before it fill the processor's caches,
//! so it may find the seats there or not. To tell the two apart, other memory can be written over before each trim.

ghost use Rattle.std.specs.Prelude.{◌≡◌, ◌<◌};

use frame::Step;
use frame::machine::Core;
use history::entry::Mode;
use history::fault::Fault;
use history::header::Policy;
use reentrant::lock::LockHooks;
use std::alloc::Global;
use std::io;
use std::time::{Clock, Duration, Instant};

/// How many pairs precede each trim, and how many trims there are, if the command line names none.
const FEW: (u64, u64) = (500, 20);

const SEATS: u16 = 16;

/// How many bytes are written over before a trim that is to find nothing in the caches.
const OTHER_BYTES: usize = 64 << 20;

/// Makes pairs of an acquire and a release.
fn make_pairs(core: &mut Core<LockHooks>, pairs: u64) -> Result<(), Fault>
    requires { 0 < core.old.header.seats }
    ensures { core.new.header ≡ core.old.header }
{
    for _ in 0..pairs {
        core.step(0, Step::Acquire(Mode::X, 1))?;
        core.step(0, Step::Give(Mode::X, 1))?;
    }
    Ok(())
}

/// Trims once. Returns the time that it took, which is 0 without a clock.
fn time_of_one<R: Clock>(rt: &R, core: &mut Core<LockHooks>) -> Result<Duration, Fault>
    ensures { core.new.header ≡ core.old.header }
{
    let start = Instant::now(rt).ok();
    core.trim()?;
    match start {
        Some(start) => Ok(start.elapsed(rt).unwrap_or(Duration::ZERO)),
        None => Ok(Duration::ZERO),
    }
}

/// Returns the time of as many trims, each behind as many pairs, without the time of the pairs. Before each trim
/// `other` is written over.
fn time_of_trims<R: Clock>(
    rt: &R,
    alloc: Global,
    pairs: u64,
    trims: u64,
    other: &mut [u8],
) -> Result<Duration, Fault> {
    let hooks = LockHooks::open(Policy::NonFair);
    let mut core = Core::open(alloc, hooks, SEATS, 0, u32::MAX)?;
    let mut time = Duration::ZERO;
    for _ in 0..trims {
        make_pairs(&mut core, pairs)?;
        other.fill(1);
        time = time.saturating_add(time_of_one(rt, &mut core)?);
    }
    Ok(time)
}

/// Returns the time of trims with warm caches, or with cold ones.
fn measured<R: Clock>(
    rt: &R,
    alloc: Global,
    pairs: u64,
    trims: u64,
    cold: bool,
) -> Result<Duration, Fault> {
    let bytes = if cold { OTHER_BYTES } else { 0 };
    let Ok(mut other) = vec![in alloc; 0u8; bytes] else {
        return Err(Fault::OutOfMemory);
    };
    time_of_trims(rt, alloc, pairs, trims, other.as_mut_slice())
}

/// Trims as the words ask, and prints a line. It has the time only if there are words.
pub fn run<R: Print + AllocGlobal + Clock>(
    rt: &R,
    pairs: Option<&str>,
    trims: Option<&str>,
    cold: bool,
) -> io::Result<()> {
    let measures = pairs.is_some();
    let pairs = pairs.and_then(|word| word.parse::<u64>().ok());
    let trims = trims.and_then(|word| word.parse::<u64>().ok());
    let (pairs, trims) = pairs.zip(trims).unwrap_or(FEW);
    match measured(rt, rt.alloc(), pairs, trims, cold) {
        Ok(_) if !measures => println!(rt; "{trims} trims, each behind {pairs} pairs"),
        Ok(time) => {
            let each = time.as_nanos() / u128::from(trims).max(1);
            let caches = if cold { "cold" } else { "warm" };
            println!(rt;
                "{trims} trims, each behind {pairs} pairs, {caches} caches: {each} nanoseconds each"
            )
        }
        Err(_) => println!(rt; "{trims} trims, each behind {pairs} pairs: out of memory"),
    }
}
