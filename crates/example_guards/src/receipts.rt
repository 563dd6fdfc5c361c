//! Two threads write into a journal that a read-write lock guards. Each finds its entry again, as a reader.
//!
//! Proved: an entry that a thread wrote stands there later, at the same place. Prints what they find.
ghost use Rattle.std.specs.Prelude.{◌≡◌, IfOk, Some};
ghost use Rattle.boxcar.specs.Table.{Shows};
ghost use Rattle.guarded.specs.Guarding.{CanLock};

use crate::journal::{Entries, Journal, Named, Receipt};
use boxcar::tag::Tag;
use guarded::RwMutex;
use history::fault::Fault;
use monitor::Pass;
use monitor_fronts::two_passes;
use permit::ThreadParking;
use std::alloc::Global;
use std::marker::Brand;
use std::sync::Wait;
use std::thread::Threads;
use std::time::Clock;
use std::{io, thread};

/// Writes an entry.
fn write<K: Named, R: Wait + Clock>(
    rt: &R,
    parking: &ThreadParking,
    journal: &RwMutex<Journal<K>>,
    pass: &mut Pass,
    entry: u64,
) -> Result<Receipt, Fault>
    requires { CanLock journal.now parking.now pass.old }
    ensures can { CanLock journal.now parking.now pass.new }
    ensures shows { IfOk result (Shows K.table) }
    ensures entry { IfOk result (λ receipt. receipt.value ≡ entry) }
{
    let mut guard = RwMutex::write(pass, journal, rt, parking)?;
    guard.value_mut().write(rt, entry)
}

/// Reads the entry of a receipt, together with other readers.
fn read<K: Named, R: Wait + Clock>(
    rt: &R,
    parking: &ThreadParking,
    journal: &RwMutex<Journal<K>>,
    pass: &mut Pass,
    receipt: &Receipt,
) -> Result<Option<u64>, Fault>
    requires can { CanLock journal.now parking.now pass.old }
    requires shows { Shows K.table receipt.now }
    ensures can { CanLock journal.now parking.now pass.new }
    ensures there { IfOk result (λ found. found ≡ Some receipt.now.value) }
{
    let journal = RwMutex::read(pass, journal, rt, parking)?;
    Ok(journal.value().at(receipt.index(), receipt))
}

/// Writes an entry, lets the journal go, and finds the entry later.
fn write_and_find<K: Named, R: Wait + Clock>(
    rt: &R,
    parking: &ThreadParking,
    journal: &RwMutex<Journal<K>>,
    pass: &mut Pass,
    entry: u64,
) -> Result<Option<u64>, Fault>
    requires { CanLock journal.now parking.now pass.old }
    ensures can { CanLock journal.now parking.now pass.new }
    ensures there { IfOk result (λ found. found ≡ Some entry) }
{
    let receipt = write(rt, parking, journal, pass, entry)?;
    read(rt, parking, journal, pass, &receipt)
}

/// Two threads write and find.
fn find<K: Named + Send + Sync, R: Threads + Wait + Clock + Sync>(
    rt: &R,
    alloc: Global,
    entries: Entries,
    a: u64,
    b: u64,
) -> Result<(Option<u64>, Option<u64>), Fault>
    requires { entries ≡ K.table }
    ensures { IfOk result (λ found. (found.0 ≡ Some a) × (found.1 ≡ Some b)) }
{
    let parking = ThreadParking::open(rt, alloc, 2)?;
    let (journal, passes) = RwMutex::new(alloc, Journal::<K>::new(entries), 2)?;
    let (mut one, mut two) = two_passes(passes);
    let (first, second) = thread::join_mut(
        rt,
        &mut || write_and_find(rt, &parking, &journal, &mut one, a),
        &mut || write_and_find(rt, &parking, &journal, &mut two, b),
    );
    Ok((first?, second?))
}

/// Opens a journal for two threads.
fn play<R: Threads + Wait + Clock + Sync>(
    rt: &R,
    alloc: Global,
    a: u64,
    b: u64,
) -> Result<(Option<u64>, Option<u64>), Fault>
    ensures { IfOk result (λ found. (found.0 ≡ Some a) × (found.1 ≡ Some b)) }
{
    let entries = Entries::new(alloc, Tag::empty())?;
    find::<Brand, R>(rt, alloc, entries, a, b)
}

/// Runs the example.
pub fn run<R: Print + AllocGlobal + Threads + Wait + Clock + Sync>(rt: &R) -> io::Result<()> {
    match play(rt, rt.alloc(), 7, 11) {
        Ok((Some(a), Some(b))) => println!(rt; "the threads find their entries: {a} and {b}"),
        Ok(_) => println!(rt; "an entry is missing"),
        Err(fault) => println!(rt; "{fault}: the journal was given up"),
    }
}
