//! Nodes under numbers that are never used again.

ghost use Rattle.std.specs.Prelude.{◌≡◌, ◌≢◌, ℕ, ◌+◌, ◌^◌, ◌<◌, ◌≤◌, ◌==◌, Some, None, IfOk, IfErr, IfSome, IsSome, OnSome, OnOk, IfNone, [], nat_le};
ghost use Rattle.node_arena.specs.declared.node.NodeNo.{NodeNo};
ghost use Rattle.node_arena.specs.Arena.{find, slot_at, standing_in, taken, Changes};

use crate::node::{Node, NodeNo, NumberedNode};
use history::fault::Fault;
use slab::Slab;
use std::alloc::Global;
use std::marker::Model;

/// A fixed number of places for nodes. Each node gets a number that no node had before. So a number finds
/// nothing after its node was freed, even if the place is in use again.
#[derive(Drop)]
pub struct Arena {
    places: usize,
    placed: u64,
    nodes: Slab<Slot>,
}

/// A node, and how many nodes were placed before it.
#[derive(Clone, Copy, Drop)]
struct Slot {
    generation: u64,
    node: Node,
}

impl Model for Arena {
    ghost use Rattle.std.specs.Prelude.{◌≤◌};
    ghost use Rattle.node_arena.specs.Arena.{Places, AllPlaced};

    ghost Value = { Places };

    ghost view = { λ a. record {
      slots = a.nodes.slots;
      places = a.places;
      limit = a.nodes.capacity;
      placed = a.placed;
    } };

    ghost invariant = { λ a. (a.places ≤ a.nodes.capacity) × AllPlaced a.placed a.nodes.slots };
}

impl Arena {
    /// Returns an arena with `places` places, all of them reserved. The only fault is `OutOfMemory`.
    pub fn with_places(alloc: Global, places: usize) -> Result<Arena, Fault>
        ensures empty { IfOk result (λ arena. arena.slots ≡ []) }
        ensures places { IfOk result (λ arena. arena.places ≡ places) }
        ensures placed { IfOk result (λ arena. arena.placed ≡ 0) }
        ensures refused { IfErr result (λ fault. fault ≡ Fault.OutOfMemory) }
    {
        let nodes = Slab::with_capacity(alloc, places)?;
        Ok(Arena {
            places,
            placed: 0,
            nodes,
        })
    }

    /// Puts a node at a free place, under a number that no node had before. It allocates nothing.
    pub fn place(&mut self, node: Node) -> NodeNo
        requires free { taken self.old < self.old.places }
        requires countable { self.old.placed + 1 < 2 ^ 64 }
        ensures found { find self.new result ≡ Some node }
        ensures others { (number : NodeNo) → number ≢ result → find self.new number ≡ find self.old number }
        ensures fresh { result.generation ≡ self.old.placed }
        ensures vacant { slot_at self.old result.place ≡ None }
        ensures changes { Changes self.old self.new result.place
            (Some (record { generation = result.generation; node = node })) }
        ensures within { result.place < self.new.limit }
        ensures taken { taken self.new ≡ taken self.old + 1 }
        ensures placed { self.new.placed ≡ self.old.placed + 1 }
    {
        let generation = self.placed;
        let place = self.nodes.insert_reserved(Slot { generation, node });
        self.placed += 1;
        NodeNo { place, generation }
    }

    /// Returns the node under a number, or `None` if it was freed.
    pub fn get(&self, number: NodeNo) -> Option<Node>
        ensures found { result ≡ find self.now number }
        ensures earlier { IsSome result → number.generation < self.now.placed }
    {
        let slot = *self.nodes.get(number.place)?;
        if slot.generation == number.generation {
            Some(slot.node)
        } else {
            None
        }
    }

    /// Returns the node at a place, with its number.
    pub fn at(&self, place: usize) -> Option<NumberedNode>
        ensures { result ≡ standing_in place (slot_at self.now place) }
    {
        let slot = *self.nodes.get(place)?;
        Some(NumberedNode {
            number: NodeNo {
                place,
                generation: slot.generation,
            },
            node: slot.node,
        })
    }

    /// Replaces the node under a number and returns the old one. If that was freed, returns `None` and
    /// changes nothing.
    pub fn replace(&mut self, number: NodeNo, node: Node) -> Option<Node>
        ensures found { result ≡ find self.old number }
        ensures now { OnSome result (find self.new number ≡ Some node) }
        ensures others { (other : NodeNo) → other ≢ number → find self.new other ≡ find self.old other }
        ensures changes { OnSome result (Changes self.old self.new number.place
            (Some (record { generation = number.generation; node = node }))) }
        ensures taken { taken self.new ≡ taken self.old }
        ensures placed { self.new.placed ≡ self.old.placed }
        ensures absent { IfNone result (self.new ≡ self.old) }
    {
        let old = self.get(number)?;
        if let Some(slot) = self.nodes.get_mut(number.place) {
            slot.node = node;
        }
        Some(old)
    }

    /// Returns a bound: the place of each number is below it.
    pub fn limit(&self) -> usize
        ensures limit { result ≡ self.now.limit }
        ensures places { self.now.places ≤ result }
        ensures below { (place : ℕ) → IsSome (slot_at self.now place) → place < result }
    {
        self.nodes.capacity()
    }

    /// Returns how many nodes there are.
    pub fn len(&self) -> usize
        ensures { result ≡ taken self.now }
    {
        self.nodes.len()
    }

    /// Frees the node under a number and returns it. If it was freed before, returns `None` and changes
    /// nothing.
    pub fn free(&mut self, number: NodeNo) -> Option<Node>
        ensures found { result ≡ find self.old number }
        ensures gone { find self.new number ≡ None }
        ensures others { (other : NodeNo) → other ≢ number → find self.new other ≡ find self.old other }
        ensures changes { OnSome result (Changes self.old self.new number.place None) }
        ensures taken { OnSome result (taken self.new + 1 ≡ taken self.old) }
        ensures placed { self.new.placed ≡ self.old.placed }
        ensures absent { IfNone result (self.new ≡ self.old) }
    {
        let node = self.get(number)?;
        let _slot = self.nodes.try_remove(number.place);
        Some(node)
    }

    /// Returns whether no place is free.
    pub fn is_full(&self) -> bool
        ensures { result ≡ nat_le self.now.places (taken self.now) }
    {
        self.nodes.len() >= self.places
    }

    /// Returns how many nodes were placed since the opening.
    pub fn placed(&self) -> u64
        ensures { result ≡ self.now.placed }
    {
        self.placed
    }
}
