//! The waiters of all conditions of one object.

ghost use Rattle.std.specs.Prelude.{◌≡◌, false, true, ℕ, ◌+◌, ◌^◌, ◌<◌, ◌≤◌, ◌==◌, if◌then◌else◌, [], ◌∷◌, ◌++◌, length, slice_get, is_some, Some, None, IfOk, IfErr, IfSome};
ghost use Rattle.std.specs.Bool.{OnFalse};
ghost use Rattle.history.specs.Line.{coming_back, place_of};
ghost use Rattle.history.specs.Sleepers.{has, without};
ghost use Rattle.history.specs.Steps.{at_most_one};
ghost use Rattle.condition_queue.specs.Moves.{Moves};
ghost use Rattle.condition_queue.specs.Sleepers.{asleep_on, sleeper_of, sleeps_on, SleepOnce};

use crate::sleeper::Sleeper;
use acquire_queue::queue::Queue;
use history::arrival::coming_back;
use history::fault::Fault;
use node_arena::linked_lists::LinkedLists;
use std::alloc::Global;
use std::marker::Model;

/// The waiters of each condition of an object, the longest waiting first. A seat waits on at most one
/// condition.
#[derive(Drop)]
pub struct Waiters {
    seats: u16,
    /// The seats that wait on each condition, linked by one record for each seat.
    lists: LinkedLists,
    /// How many seats wait on each condition.
    counts: Vec<u16>,
    /// What each seat waits on, so that no list is searched.
    table: Vec<Option<Sleeper>>,
}

impl Model for Waiters {
    ghost use Rattle.node_arena.specs.LinkedLists.{list_count};
    ghost use Rattle.condition_queue.specs.Sleepers.{Sleepers, AreLinkedSleepers};

    ghost Value = { Sleepers };

    ghost view = { λ w. record {
      seats = w.seats;
      conditions = list_count w.lists;
      lists = w.lists.lists;
      sleepers = w.table.items;
    } };

    ghost invariant = { λ w. AreLinkedSleepers w.seats w.lists w.counts.items w.table.items };
}

impl Waiters {
    /// Returns no waiters, with places for these conditions and seats. It reserves all that will ever be
    /// needed. The only fault is `OutOfMemory`.
    pub fn open(alloc: Global, conditions: u8, seats: u16) -> Result<Waiters, Fault>
        ensures empty { IfOk result (λ waiters. (c : ℕ) → asleep_on waiters c ≡ []) }
        ensures awake { IfOk result (λ waiters. (i : ℕ) → sleeper_of waiters i ≡ None) }
        ensures conditions { IfOk result (λ waiters. waiters.conditions ≡ conditions) }
        ensures seats { IfOk result (λ waiters. waiters.seats ≡ seats) }
        ensures refused { IfErr result (λ fault. fault ≡ Fault.OutOfMemory) }
    {
        let lists = LinkedLists::with_keys(alloc, conditions as usize, seats as usize)?;
        let counts = vec![in alloc; 0u16; conditions as usize]?;
        let table = vec![in alloc; None; seats as usize]?;
        Ok(Waiters {
            seats,
            lists,
            counts,
            table,
        })
    }

    /// Adds a seat to a condition's waiters, with the holds that it gave up. It allocates nothing.
    pub fn join(&mut self, c: u8, seat: u16, holds: u32)
        requires condition { c < self.old.conditions }
        requires seat { seat < self.old.seats }
        requires awake { sleeper_of self.old seat ≡ None }
        ensures lists { (d : ℕ) → asleep_on self.new d
            ≡ (if c == d then asleep_on self.old d ++ seat ∷ [] else asleep_on self.old d) }
        ensures sleepers { (i : ℕ) → sleeper_of self.new i
            ≡ (if seat == i then Some (record { condition = c; holds = holds }) else sleeper_of self.old i) }
        ensures conditions { self.new.conditions ≡ self.old.conditions }
        ensures seats { self.new.seats ≡ self.old.seats }
    {
        self.table[seat as usize] = Some(Sleeper {
            condition: c,
            holds,
        });
        self.lists.push_back(c as usize, seat as usize);
        self.counts[c as usize] += 1;
    }

    /// Removes a seat from the waiters of its condition, and returns whether it was one.
    pub fn leave(&mut self, seat: u16) -> bool
        ensures slept { result ≡ is_some (sleeper_of self.old seat) }
        ensures lists { (d : ℕ) → asleep_on self.new d
            ≡ (if sleeps_on d (sleeper_of self.old seat) then without seat (asleep_on self.old d)
            else asleep_on self.old d) }

        // The same, whatever it waited on.
        ensures left { (d : ℕ) → asleep_on self.new d ≡ without seat (asleep_on self.old d) }
        ensures sleepers { (i : ℕ) → sleeper_of self.new i
            ≡ (if seat == i then None else sleeper_of self.old i) }
        ensures awake { OnFalse result (self.new ≡ self.old) }
        ensures conditions { self.new.conditions ≡ self.old.conditions }
        ensures seats { self.new.seats ≡ self.old.seats }
    {
        match self.sleeper_of(seat) {
            None => false,
            Some(sleeper) => {
                self.table[seat as usize] = None;
                self.lists.unlink(seat as usize);
                self.counts[sleeper.condition as usize] -= 1;
                true
            }
        }
    }

    /// Moves the longest waiter of a condition to the end of the wait queue, from where it will come back.
    /// Returns how many it moved: 1, or 0 if nobody waits. It allocates nothing.
    pub fn move_first(&mut self, c: u8, queue: &mut Queue) -> u32
        requires condition { c < self.old.conditions }
        requires seats { self.old.seats ≤ queue.old.seats }
        requires apart { (i : ℕ) → has i (asleep_on self.old c) ≡ true
            → place_of i queue.old.arrivals ≡ None }
        requires countable { queue.old.joined + at_most_one (length (asleep_on self.old c)) < 2 ^ 64 }
        ensures moved { result ≡ at_most_one (length (asleep_on self.old c)) }
        ensures moves { Moves c result self.old self.new queue.old queue.new }
    {
        match self.first_on(c) {
            None => 0,
            Some(seat) => {
                self.leave(seat);
                queue.join(coming_back(seat));
                1
            }
        }
    }

    /// Moves all waiters of a condition to the end of the wait queue, in their order, and returns how many.
    /// It allocates nothing.
    pub fn move_all(&mut self, c: u8, queue: &mut Queue) -> u32
        requires condition { c < self.old.conditions }
        requires seats { self.old.seats ≤ queue.old.seats }
        requires apart { (i : ℕ) → has i (asleep_on self.old c) ≡ true
            → place_of i queue.old.arrivals ≡ None }
        requires countable { queue.old.joined + length (asleep_on self.old c) < 2 ^ 64 }
        ensures moved { result ≡ length (asleep_on self.old c) }
        ensures moves { Moves c result self.old self.new queue.old queue.new }
    {
        let sleepers = self.len(c);
        for _ in 0..sleepers {
            self.move_first(c, queue);
        }
        u32::from(sleepers)
    }

    /// Returns how many seats wait on a condition; 0 if the object lacks it.
    pub fn len(&self, c: u8) -> u16
        ensures len { result ≡ length (asleep_on self.now c) }
        ensures once { SleepOnce (asleep_on self.now c) }
    {
        match self.counts.get(c as usize) {
            None => 0,
            Some(count) => *count,
        }
    }

    /// Returns what a seat waits on, in constant time, or `None` if it waits on no condition.
    pub fn sleeper_of(&self, seat: u16) -> Option<Sleeper>
        ensures sleeper { result ≡ sleeper_of self.now seat }
        ensures listed { (c : ℕ) → has seat (asleep_on self.now c) ≡ sleeps_on c result }
        ensures condition { IfSome result (λ sleeper. sleeper.condition < self.now.conditions) }
    {
        *self.table.get(seat as usize)?
    }

    /// Returns the longest waiter of a condition.
    pub fn first_on(&self, c: u8) -> Option<u16>
        requires { c < self.now.conditions }
        ensures first { result ≡ slice_get (asleep_on self.now c) 0 }
        ensures once { SleepOnce (asleep_on self.now c) }
        ensures seat { IfSome result (λ seat. seat < self.now.seats) }
        ensures asleep { IfSome result (λ seat. sleeps_on c (sleeper_of self.now seat) ≡ true) }
        ensures listed { (d i : ℕ) → has i (asleep_on self.now d) ≡ sleeps_on d (sleeper_of self.now i) }
    {
        let seat = self.lists.front(c as usize)?;
        Some(seat as u16)
    }

    /// Returns the waiter right after another one of its condition. There is none after the last one, nor after a
    /// seat that waits on no condition.
    pub fn behind(&self, seat: u16) -> Option<u16>
        ensures next { (c k : ℕ) → slice_get (asleep_on self.now c) k ≡ Some seat
            → result ≡ slice_get (asleep_on self.now c) (k + 1) }
        ensures awake { sleeper_of self.now seat ≡ None → result ≡ None }
    {
        let _sleeper = self.sleeper_of(seat)?;
        let next = self.lists.behind(seat as usize)?;
        Some(next as u16)
    }
}
