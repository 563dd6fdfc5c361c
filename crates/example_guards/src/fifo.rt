//! Two threads put into a queue, and one takes: what is taken as number k is what was put at place k.
//!
//! All that was put stands in a journal. The lock keeps the invariant that what was taken is its beginning, and what
//! waits is the rest. A ledger counts what was taken: who has the whole share knows the number of what it takes next.
ghost use Rattle.std.specs.Prelude.{◌≡◌, ◌+◌, ◌<◌, IfErr, IfNone, IfOk, IfSome};
ghost use Rattle.boxcar.specs.Table.{Shows};
ghost use Rattle.example_guards.specs.Places.{IsInOrder, IsTaken};
ghost use Rattle.guarded.specs.Guarding.{CanLock};

use crate::journal::{Entries, Journal, Named, Receipt};
use boxcar::tag::Tag;
use guarded::{Keeps, Mutex};
use history::fault::Fault;
use monitor::Pass;
use monitor_fronts::two_passes;
use permit::ThreadParking;
use std::alloc::Global;
use std::collections::VecDeque;
use std::marker::Brand;
use std::sync::Wait;
use std::sync::ledger::{Blank, Book, Ledger, Share};
use std::thread::Threads;
use std::time::Clock;
use std::{io, thread};

/// All that was put, the receipts of what waits, and how much was taken, which the book says too.
#[derive(Drop)]
pub struct Queue<K: Named + Ledger> {
    journal: Journal<K>,
    waiting: VecDeque<Receipt>,
    taken: usize,
    takes: Book<K>,
}

/// What was taken is the beginning of what was put, and what waits is the rest, in order.
pub struct InOrder;

impl<K: Named + Ledger> Keeps<Queue<K>> for InOrder {
    ghost use Rattle.example_guards.specs.Places.{IsInOrder};

    ghost invariant = { λ queue. IsInOrder K.table queue.waiting.items queue.taken queue.journal.length
        queue.takes.total };
}

impl<K: Named + Ledger> Queue<K> {
    /// Puts an item after the last one.
    #[tactic(auto, using(crate::proofs::Places::are_next_with))]
    pub fn put<R: Wait>(&mut self, rt: &R, item: u64) -> Result<Receipt, Fault>
        requires kept { IsInOrder K.table self.old.waiting.items self.old.taken self.old.journal.length
            self.old.takes.total }
        ensures kept { IsInOrder K.table self.new.waiting.items self.new.taken self.new.journal.length
            self.new.takes.total }
        ensures shows { IfOk result (Shows K.table) }
        ensures item { IfOk result (λ receipt. receipt.value ≡ item) }
        ensures place { IfOk result (λ receipt. receipt.index ≡ self.old.journal.length) }
        ensures put { IfOk result (λ _. self.new.journal.length ≡ self.old.journal.length + 1) }
        ensures stays { IfErr result (λ _. (self.new.waiting.items ≡ self.old.waiting.items)
            × (self.new.journal.length ≡ self.old.journal.length)) }
        ensures taken { self.new.taken ≡ self.old.taken }
    {
        self.waiting.reserve(1)?;
        let receipt = self.journal.write(rt, item)?;
        self.waiting.push_back_reserved(receipt.again());
        Ok(receipt)
    }

    /// Takes the first item that waits.
    pub fn take(&mut self, mine: &mut Share<K>) -> Option<Receipt>
        requires kept { IsInOrder K.table self.old.waiting.items self.old.taken self.old.journal.length
            self.old.takes.total }
        requires whole { (mine.old.parts ≡ K.parts) × (0 < K.parts) }
        ensures kept { IsInOrder K.table self.new.waiting.items self.new.taken self.new.journal.length
            self.new.takes.total }
        ensures shows { IfSome result (Shows K.table) }
        ensures first { IfSome result (λ receipt. receipt.index ≡ mine.old.amount) }
        ensures counted { IfSome result (λ _. mine.new.amount ≡ mine.old.amount + 1) }
        ensures none { IfNone result ((self.old.taken ≡ self.old.journal.length) × (mine.new ≡ mine.old)) }
        ensures journal { self.new.journal.length ≡ self.old.journal.length }
        ensures parts { mine.new.parts ≡ mine.old.parts }
    {
        let receipt = self.waiting.pop_front()?;
        self.takes.audit(mine);
        self.takes.add(mine, 1);
        self.taken += 1;
        Some(receipt)
    }
}

/// Puts an item. The receipt shows its place among all that was put.
fn put<K: Named + Ledger, R: Wait + Clock>(
    rt: &R,
    parking: &ThreadParking,
    queue: &Mutex<Queue<K>, InOrder>,
    pass: &mut Pass,
    item: u64,
) -> Result<Receipt, Fault>
    requires { CanLock queue.now parking.now pass.old }
    ensures can { CanLock queue.now parking.now pass.new }
    ensures shows { IfOk result (Shows K.table) }
    ensures item { IfOk result (λ receipt. receipt.value ≡ item) }
{
    let mut guard = Mutex::lock(pass, queue, rt, parking)?;
    guard.value_mut().put(rt, item)
}

/// Takes the first item that waits, by the thread that takes all. Its place is the number of those that it took before.
fn take<K: Named + Ledger, R: Wait + Clock>(
    rt: &R,
    parking: &ThreadParking,
    queue: &Mutex<Queue<K>, InOrder>,
    pass: &mut Pass,
    mine: &mut Share<K>,
) -> Result<Option<Receipt>, Fault>
    requires can { CanLock queue.now parking.now pass.old }
    requires whole { (mine.old.parts ≡ K.parts) × (0 < K.parts) }
    ensures can { CanLock queue.now parking.now pass.new }
    ensures shows { IfOk result (λ taken. IfSome taken (Shows K.table)) }
    ensures first { IfOk result (λ taken. IfSome taken (λ receipt. receipt.index ≡ mine.old.amount)) }
    ensures counted { IfOk result (λ taken. IfSome taken (λ _. mine.new.amount ≡ mine.old.amount + 1)) }
    ensures none { IfOk result (λ taken. IfNone taken (mine.new ≡ mine.old)) }
    ensures stays { IfErr result (λ _. mine.new ≡ mine.old) }
    ensures parts { mine.new.parts ≡ mine.old.parts }
{
    let mut guard = Mutex::lock(pass, queue, rt, parking)?;
    Ok(guard.value_mut().take(mine))
}

/// Where two threads put their items, and the first two items that were taken.
#[derive(Clone, Copy)]
pub struct Delivered {
    first: usize,
    second: usize,
    taken: (u64, u64),
}

impl<K: Named + Ledger> Queue<K> {
    /// Returns the item that was taken. A thread that put an item at the same place put this one.
    fn item(&self, taken: &Receipt, first: &Receipt, second: &Receipt) -> u64
        requires taken { Shows K.table taken.now }
        requires first { Shows K.table first.now }
        requires second { Shows K.table second.now }
        ensures first { first.now.index ≡ taken.now.index → result ≡ first.now.value }
        ensures second { second.now.index ≡ taken.now.index → result ≡ second.now.value }
    {
        self.journal.agree(first, taken);
        self.journal.agree(second, taken);
        self.journal.entry(taken)
    }
}

/// Two threads put, and then one takes two items. None if there are fewer.
fn deliver<K: Named + Ledger + Send + Sync, R: Threads + Wait + Clock + Sync>(
    rt: &R,
    alloc: Global,
    entries: Entries,
    blank: Blank,
    a: u64,
    b: u64,
) -> Result<Option<Delivered>, Fault>
    requires table { entries ≡ K.table }
    requires ledger { (blank.name ≡ K.name) × (blank.parts ≡ K.parts) × (blank.parts ≡ 1) }
    ensures first { IfOk result (λ some. IfSome some (λ done. IsTaken a done.first done.taken)) }
    ensures second { IfOk result (λ some. IfSome some (λ done. IsTaken b done.second done.taken)) }
{
    let parking = ThreadParking::open(rt, alloc, 2)?;
    let (takes, mut mine) = blank.open::<K>();
    let queue = Queue {
        journal: Journal::new(entries),
        waiting: VecDeque::new(alloc),
        taken: 0,
        takes,
    };
    let (queue, passes) = Mutex::<Queue<K>, InOrder>::new_keeping(alloc, queue, 2)?;
    let (mut one, mut two) = two_passes(passes);
    let (first, second) = thread::join_mut(
        rt,
        &mut || put(rt, &parking, &queue, &mut one, a),
        &mut || put(rt, &parking, &queue, &mut two, b),
    );
    let (first, second) = (first?, second?);
    let Some(zero) = take(rt, &parking, &queue, &mut one, &mut mine)? else {
        return Ok(None);
    };
    let Some(next) = take(rt, &parking, &queue, &mut one, &mut mine)? else {
        return Ok(None);
    };
    let guard = Mutex::lock(&mut one, &queue, rt, &parking)?;
    let queue = guard.value();
    Ok(Some(Delivered {
        first: first.index(),
        second: second.index(),
        taken: (
            queue.item(&zero, &first, &second),
            queue.item(&next, &first, &second),
        ),
    }))
}

/// Opens a queue for two threads.
fn play<R: Threads + Wait + Clock + Sync>(
    rt: &R,
    alloc: Global,
    a: u64,
    b: u64,
) -> Result<Option<Delivered>, Fault>
    ensures first { IfOk result (λ some. IfSome some (λ done. IsTaken a done.first done.taken)) }
    ensures second { IfOk result (λ some. IfSome some (λ done. IsTaken b done.second done.taken)) }
{
    let entries = Entries::new(alloc, Tag::empty())?;
    deliver::<Brand, R>(rt, alloc, entries, Blank::new(1), a, b)
}

/// Runs the example.
pub fn run<R: Print + AllocGlobal + Threads + Wait + Clock + Sync>(rt: &R) -> io::Result<()> {
    match play(rt, rt.alloc(), 7, 11) {
        Ok(Some(done)) => {
            let (zero, one) = done.taken;
            let (a, b) = if done.first == 0 {
                (zero, one)
            } else {
                (one, zero)
            };
            println!(rt;
                "the threads put {a} and {b}, and these were taken in the order of their places"
            )
        }
        Ok(None) => println!(rt; "an item is missing"),
        Err(fault) => println!(rt; "{fault}: the queue was given up"),
    }
}
