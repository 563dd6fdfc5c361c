//! A queue of arrivals.

ghost use Rattle.std.specs.Prelude.{◌≡◌, ◌≢◌, ℕ, ◌+◌, ◌^◌, ◌<◌, ◌≤◌, ◌==◌, not, List, [], ◌∷◌, ◌++◌, length, map, drop, filter, position, Some, is_some, is_none, IfOk, IfErr, IfSome, IsSome, vec_capacity, vec_len};
ghost use Rattle.std.specs.Bool.{OnFalse};
ghost use Rattle.history.specs.Line.{first_of, place_of};
ghost use Rattle.history.specs.declared.arrival.Arrival.{Arrival};
ghost use Rattle.history.specs.Waiting.{StandOnce};
ghost use Rattle.acquire_queue.specs.Line.{live, number_of, left_by, plain_place, standing_behind, without_dead_head, swept, tidied, IsTidy};
ghost use Rattle.node_arena.specs.NodeList.{under, StandApart};

use history::arrival::Arrival;
use history::base::LinePlace;
use history::entry::End;
use history::fault::Fault;
use node_arena::node::{Node, NodeNo, NumberedNode};
use node_arena::node_list::NodeList;
use std::alloc::Global;
use std::marker::Model;

/// The wait queue of an object: at most one place for each of its seats, the longest waiting first.
///
/// A seat that leaves from between others leaves its node in place, marked as cancelled. So nothing is
/// searched and nothing is moved. A cancelled node is freed when it comes to the head, or when the waiter
/// after it retries. All cancelled nodes are freed when there are more of them than seats.
#[derive(Drop)]
pub struct Queue {
    seats: u16,
    /// How many nodes aren't cancelled.
    waiting: u16,
    nodes: NodeList,
    /// The number of each waiter's node, so that no node is searched for.
    table: Vec<Option<NodeNo>>,
}

impl Model for Queue {
    ghost use Rattle.acquire_queue.specs.Line.{Line, live, IsLinkedLine};

    ghost Value = { Line };

    ghost view = { λ q. record {
      seats = q.seats;
      joined = q.nodes.placed;
      arrivals = live q.nodes.nodes;
      nodes = q.nodes.nodes;
    } };

    ghost invariant = { λ q. IsLinkedLine q.seats q.waiting q.nodes q.table.items };
}

impl Queue {
    /// Returns an empty queue for `seats` seats. It reserves all that the queue will ever need. The only
    /// fault is `OutOfMemory`.
    pub fn open(alloc: Global, seats: u16) -> Result<Queue, Fault>
        ensures empty { IfOk result (λ queue. queue.arrivals ≡ []) }
        ensures seats { IfOk result (λ queue. queue.seats ≡ seats) }
        ensures joined { IfOk result (λ queue. queue.joined ≡ 0) }
        ensures refused { IfErr result (λ fault. fault ≡ Fault.OutOfMemory) }
    {
        let places = seats as usize;
        let nodes = NodeList::with_places(alloc, 2 * places)?;
        let table = vec![in alloc; None; places]?;
        Ok(Queue {
            seats,
            waiting: 0,
            nodes,
            table,
        })
    }

    /// Puts a seat that isn't in the queue at its end. It allocates nothing.
    pub fn join(&mut self, arrival: Arrival)
        requires seat { arrival.seat < self.old.seats }
        requires absent { place_of arrival.seat self.old.arrivals ≡ None }
        requires countable { self.old.joined + 1 < 2 ^ 64 }
        ensures line { self.new.arrivals ≡ self.old.arrivals ++ arrival ∷ [] }
        ensures standing { length self.new.nodes ≡ length self.old.nodes + 1 }
        ensures joined { self.new.joined ≡ self.old.joined + 1 }
        ensures seats { self.new.seats ≡ self.old.seats }
    {
        let number = self.nodes.push_back(Node {
            arrival,
            cancelled: false,
        });
        self.table[arrival.seat as usize] = Some(number);
        self.waiting += 1;
    }

    /// Returns how many joined since the opening, with those that were moved here from a condition.
    pub fn joined(&self) -> u64
        ensures { result ≡ self.now.joined }
    {
        self.nodes.placed()
    }

    /// Returns the head of the queue: the longest waiter.
    pub fn first(&self) -> Option<Arrival>
        ensures { result ≡ first_of self.now.arrivals }
    {
        Some(self.nodes.first()?.node.arrival)
    }

    /// Removes the head of the queue and returns it.
    pub fn take_first(&mut self) -> Option<Arrival>
        ensures first { result ≡ first_of self.old.arrivals }
        ensures line { self.new.arrivals ≡ drop 1 self.old.arrivals }

        // Its node is freed, with the cancelled ones right after it.
        ensures nodes { self.new.nodes ≡ without_dead_head (drop 1 self.old.nodes) }

        // The same, as the removal of its seat.
        ensures left { IfSome result (λ first.
            self.new.arrivals ≡ filter (λ a. not (first.seat == a.seat)) self.old.arrivals) }
        ensures joined { self.new.joined ≡ self.old.joined }
        ensures seats { self.new.seats ≡ self.old.seats }
    {
        let first = self.nodes.first()?;
        let arrival = first.node.arrival;
        self.nodes.remove(first.number);
        free_head(&mut self.nodes);
        self.table[arrival.seat as usize] = None;
        self.waiting -= 1;
        Some(arrival)
    }

    /// Takes a seat out of the queue, wherever it is, and returns whether it was there.
    pub fn leave(&mut self, seat: u16) -> bool
        ensures stood { result ≡ is_some (place_of seat self.old.arrivals) }
        ensures line { self.new.arrivals ≡ filter (λ a. not (seat == a.seat)) self.old.arrivals }
        ensures absent { OnFalse result (self.new ≡ self.old) }
        ensures head { (first : Arrival) → first_of self.old.arrivals ≡ Some first → first.seat ≡ seat →
            self.new.nodes ≡ without_dead_head (drop 1 self.old.nodes) }
        ensures standing { (first : Arrival) → first_of self.old.arrivals ≡ Some first → first.seat ≢ seat →
            length self.new.nodes
            ≡ standing_behind self.old.seats (length self.new.arrivals) (length self.old.nodes) }
        ensures joined { self.new.joined ≡ self.old.joined }
        ensures seats { self.new.seats ≡ self.old.seats }
    {
        let Some(number) = self.number_of(seat) else {
            return false;
        };
        self.table[seat as usize] = None;
        self.waiting -= 1;
        leave_node(&mut self.nodes, number);
        if self.nodes.len() > self.waiting as usize + self.seats as usize {
            free_cancelled(&mut self.nodes);
        }
        true
    }

    /// Returns how many wait before a seat, or `None` if it isn't in the queue.
    pub fn position(&self, seat: u16) -> Option<u16>
        ensures position { result ≡ position (λ a. a.seat == seat) self.now.arrivals }
        ensures stands { is_some result ≡ is_some (place_of seat self.now.arrivals) }
    {
        let _number = self.number_of(seat)?;
        place_in(&self.nodes, seat)
    }

    /// Returns what a seat in the queue asks for, in constant time.
    pub fn place_of(&self, seat: u16) -> Option<Arrival>
        ensures { result ≡ place_of seat self.now.arrivals }
    {
        let number = self.number_of(seat)?;
        Some(self.nodes.get(number)?.arrival)
    }

    /// Returns the number of a seat's node.
    fn number_of(&self, seat: u16) -> Option<NodeNo>
        ensures number { result ≡ number_of seat self.now.nodes }
        ensures live { self.now.arrivals ≡ live self.now.nodes }
    {
        *self.table.get(seat as usize)?
    }

    /// Returns how many seats wait.
    pub fn live_len(&self) -> u16
        ensures len { result ≡ length self.now.arrivals }
        ensures once { StandOnce self.now.arrivals }
        ensures below { (i : ℕ) → IsSome (place_of i self.now.arrivals) → i < self.now.seats }
    {
        self.waiting
    }

    /// Whether nobody waits.
    pub fn is_empty(&self) -> bool
        ensures { result ≡ (length self.now.arrivals == 0) }
    {
        self.waiting == 0
    }

    /// Frees all cancelled nodes. The queue is as before.
    pub fn sweep(&mut self)
        ensures nodes { self.new.nodes ≡ swept self.old.nodes }
        ensures line { self.new.arrivals ≡ self.old.arrivals }
        ensures joined { self.new.joined ≡ self.old.joined }
        ensures seats { self.new.seats ≡ self.old.seats }
    {
        // Those who wait stay where they stand.
        free_cancelled(&mut self.nodes);
    }

    /// Frees the cancelled nodes right before a waiter. The queue is as before.
    pub fn tidy_before(&mut self, seat: u16)
        ensures nodes { self.new.nodes ≡ tidied seat self.old.nodes }
        ensures tidy { IsTidy seat self.new.nodes }

        // Nothing changes if no cancelled node is right before it, or if the seat doesn't wait.
        ensures kept { IsTidy seat self.old.nodes → self.new ≡ self.old }
        ensures absent { place_of seat self.old.arrivals ≡ None → self.new ≡ self.old }
        ensures number { number_of seat self.new.nodes ≡ number_of seat self.old.nodes }
        ensures line { self.new.arrivals ≡ self.old.arrivals }
        ensures joined { self.new.joined ≡ self.old.joined }
        ensures seats { self.new.seats ≡ self.old.seats }
    {
        if let Some(number) = self.number_of(seat) {
            free_before(&mut self.nodes, seat, number);
        }
    }

    /// Replaces a list by those who wait, in their order, each without a sleep. It allocates nothing.
    pub fn write_line(&self, line: &mut Vec<LinePlace>)
        requires { length self.now.arrivals ≤ vec_capacity line.old }
        ensures items { line.new.items ≡ map plain_place self.now.arrivals }
        ensures capacity { vec_capacity line.new ≡ vec_capacity line.old }
    {
        line.clear();
        write_nodes(&self.nodes, line);
    }

    /// Returns how many nodes there are, with the cancelled ones.
    pub fn standing(&self) -> u16
        requires { self.now.seats < 2 ^ 15 }
        ensures standing { result ≡ length self.now.nodes }
        ensures live { self.now.arrivals ≡ live self.now.nodes }
    {
        self.nodes.len() as u16
    }
}

/// Takes out a node. The head is freed with the cancelled nodes after it; any other node is marked and stays.
fn leave_node(nodes: &mut NodeList, number: NodeNo)
    requires { IsSome (under number nodes.old.nodes) }
    ensures nodes { nodes.new.nodes ≡ left_by number nodes.old.nodes }
    ensures placed { nodes.new.placed ≡ nodes.old.placed }
    ensures places { nodes.new.places ≡ nodes.old.places }
{
    match nodes.first() {
        Some(first) if first.number.place == number.place => {
            nodes.remove(number);
            free_head(nodes);
        }
        _ => {
            nodes.cancel(number);
        }
    }
}

/// Frees the cancelled nodes at the head.
fn free_head(nodes: &mut NodeList)
    ensures nodes { nodes.new.nodes ≡ without_dead_head nodes.old.nodes }
    ensures placed { nodes.new.placed ≡ nodes.old.placed }
    ensures places { nodes.new.places ≡ nodes.old.places }
{
    while let Some(first) = nodes.first() {
        if !first.node.cancelled {
            break;
        }
        nodes.remove(first.number);
    }
}

/// Frees the cancelled nodes right before a waiter's node.
fn free_before(nodes: &mut NodeList, seat: u16, number: NodeNo)
    requires number { number_of seat nodes.old.nodes ≡ Some number }
    requires once { StandOnce (live nodes.old.nodes) }
    requires apart { StandApart nodes.old.nodes }
    ensures nodes { nodes.new.nodes ≡ tidied seat nodes.old.nodes }
    ensures placed { nodes.new.placed ≡ nodes.old.placed }
    ensures places { nodes.new.places ≡ nodes.old.places }
{
    while let Some(before) = nodes.before(number) {
        if !before.node.cancelled {
            return;
        }
        nodes.remove(before.number);
    }
}

/// Frees all cancelled nodes.
fn free_cancelled(nodes: &mut NodeList)
    ensures nodes { nodes.new.nodes ≡ swept nodes.old.nodes }
    ensures placed { nodes.new.placed ≡ nodes.old.placed }
    ensures places { nodes.new.places ≡ nodes.old.places }
{
    for place in 0..nodes.limit() {
        if let Some(standing) = nodes.at(place) {
            if standing.node.cancelled {
                nodes.remove(standing.number);
            }
        }
    }
}

/// Returns how many nodes that aren't cancelled are before a seat's.
fn place_in(nodes: &NodeList, seat: u16) -> Option<u16>
    requires { length (live nodes.now.nodes) < 2 ^ 16 }
    ensures { result ≡ position (λ a. a.seat == seat) (live nodes.now.nodes) }
{
    let mut before: u16 = 0;
    let mut next = nodes.first();
    for _ in 0..nodes.len() {
        let standing = next?;
        if !standing.node.cancelled {
            if standing.node.arrival.seat == seat {
                return Some(before);
            }
            before += 1;
        }
        next = nodes.behind(standing.number);
    }
    None
}

/// Appends the waiters of the nodes that aren't cancelled, in their order.
fn write_nodes(nodes: &NodeList, line: &mut Vec<LinePlace>)
    requires { vec_len line.old + length (live nodes.now.nodes) ≤ vec_capacity line.old }
    ensures items { line.new.items ≡ line.old.items ++ map plain_place (live nodes.now.nodes) }
    ensures capacity { vec_capacity line.new ≡ vec_capacity line.old }
{
    let mut next = nodes.first();
    for _ in 0..nodes.len() {
        match next {
            Some(standing) => {
                write_node(standing, line);
                next = nodes.behind(standing.number);
            }
            None => return,
        }
    }
}

/// Appends the waiter of a node, if it isn't cancelled.
fn write_node(standing: NumberedNode, line: &mut Vec<LinePlace>)
    requires { vec_len line.old + length (live (standing ∷ [])) ≤ vec_capacity line.old }
    ensures items { line.new.items ≡ line.old.items ++ map plain_place (live (standing ∷ [])) }
    ensures len { vec_len line.new ≡ vec_len line.old + length (live (standing ∷ [])) }
    ensures capacity { vec_capacity line.new ≡ vec_capacity line.old }
{
    if !standing.node.cancelled {
        line.push_reserved(plain_place(standing.node.arrival));
    }
}

/// Returns a place in the queue, without a sleep.
fn plain_place(who: Arrival) -> LinePlace
    ensures { result ≡ plain_place who }
{
    LinePlace {
        who,
        condition: 0,
        holds: 0,
        how: End::None,
    }
}
