//! A doubly linked list of nodes.

ghost use Rattle.std.specs.Prelude.{◌≡◌, ◌≢◌, ℕ, ◌+◌, ◌^◌, ◌<◌, ◌≤◌, ◌==◌, [], ◌∷◌, ◌++◌, drop, length, map, Some, None, IfOk, IfErr, IfSome, IfNone, OnSome, IsSome, slice_get, is_some};
ghost use Rattle.std.specs.Bool.{OnTrue, OnFalse};
ghost use Rattle.node_arena.specs.declared.node.Node.{Node};
ghost use Rattle.node_arena.specs.declared.node.NumberedNode.{NumberedNode};
ghost use Rattle.node_arena.specs.NodeList.{at_place, under, without_place, cancel_at, StandApart, standing_before};

use crate::arena::Arena;
use crate::linked_lists::LinkedLists;
use crate::node::{Node, NodeNo, NumberedNode};
use history::fault::Fault;
use std::alloc::Global;
use std::marker::Model;

/// Nodes from head to tail. A node joins at the tail. Any node is removed by its number, in constant time.
#[derive(Drop)]
pub struct NodeList {
    arena: Arena,
    /// The links between the places of the arena. The nodes are in list 0, the only list.
    links: LinkedLists,
}

impl Model for NodeList {
    ghost use Rattle.node_arena.specs.NodeList.{Nodes, nodes_of, IsLinked};

    ghost Value = { Nodes };

    ghost view = { λ l. record {
      nodes = nodes_of l.arena l.links;
      places = l.arena.places;
      limit = l.arena.limit;
      placed = l.arena.placed;
    } };

    ghost invariant = { λ l. IsLinked l.arena l.links };
}

impl NodeList {
    /// Returns an empty list with `places` places, all of them reserved. The only fault is `OutOfMemory`.
    pub fn with_places(alloc: Global, places: usize) -> Result<NodeList, Fault>
        ensures empty { IfOk result (λ list. list.nodes ≡ []) }
        ensures places { IfOk result (λ list. list.places ≡ places) }
        ensures placed { IfOk result (λ list. list.placed ≡ 0) }
        ensures refused { IfErr result (λ fault. fault ≡ Fault.OutOfMemory) }
    {
        let arena = Arena::with_places(alloc, places)?;
        let links = LinkedLists::with_keys(alloc, 1, arena.limit())?;
        Ok(NodeList { arena, links })
    }

    /// Puts a node at the tail, at a free place, under a number that no node had before.
    pub fn push_back(&mut self, node: Node) -> NodeNo
        requires free { length self.old.nodes < self.old.places }
        requires countable { self.old.placed + 1 < 2 ^ 64 }
        ensures nodes { self.new.nodes
            ≡ self.old.nodes ++ record { number = result; node = node } ∷ [] }
        ensures fresh { result.generation ≡ self.old.placed }
        ensures vacant { at_place result.place self.old.nodes ≡ None }
        ensures placed { self.new.placed ≡ self.old.placed + 1 }
        ensures places { self.new.places ≡ self.old.places }
    {
        let number = self.arena.place(node);
        self.links.push_back(0, number.place);
        number
    }

    /// Returns the node at the head.
    pub fn first(&self) -> Option<NumberedNode>
        ensures first { result ≡ slice_get self.now.nodes 0 }
        ensures apart { StandApart self.now.nodes }
    {
        let place = self.links.front(0)?;
        self.arena.at(place)
    }

    /// Returns how many nodes there are.
    pub fn len(&self) -> usize
        ensures { result ≡ length self.now.nodes }
    {
        self.arena.len()
    }

    /// Returns how many nodes were placed since the opening.
    pub fn placed(&self) -> u64
        ensures { result ≡ self.now.placed }
    {
        self.arena.placed()
    }

    /// Returns a bound: each place is below it.
    pub fn limit(&self) -> usize
        ensures limit { result ≡ self.now.limit }
        ensures below { (place : ℕ) → IsSome (at_place place self.now.nodes) → place < result }
        ensures apart { StandApart self.now.nodes }
    {
        self.arena.limit()
    }

    /// Returns the node at a place.
    pub fn at(&self, place: usize) -> Option<NumberedNode>
        ensures at { result ≡ at_place place self.now.nodes }
        ensures apart { StandApart self.now.nodes }
    {
        self.arena.at(place)
    }

    /// Returns the node right after another.
    pub fn behind(&self, number: NodeNo) -> Option<NumberedNode>
        requires { IsSome (under number self.now.nodes) }
        ensures { (k : ℕ) (node : Node) →
            slice_get self.now.nodes k ≡ Some (record { number = number; node = node }) →
            result ≡ slice_get self.now.nodes (k + 1) }
    {
        let place = self.links.behind(number.place)?;
        self.arena.at(place)
    }

    /// Returns the node right before another.
    pub fn before(&self, number: NodeNo) -> Option<NumberedNode>
        requires { IsSome (under number self.now.nodes) }
        ensures { (k : ℕ) (node : Node) →
            slice_get self.now.nodes k ≡ Some (record { number = number; node = node }) →
            result ≡ standing_before self.now.nodes k }
    {
        let place = self.links.before(number.place)?;
        self.arena.at(place)
    }

    /// Returns the node under a number, or `None` if it was freed.
    pub fn get(&self, number: NodeNo) -> Option<Node>
        ensures { result ≡ under number self.now.nodes }
    {
        self.arena.get(number)
    }

    /// Removes the node under a number from the list, frees it and returns it. Returns `None` if it was freed
    /// before.
    pub fn remove(&mut self, number: NodeNo) -> Option<Node>
        ensures found { result ≡ under number self.old.nodes }
        ensures nodes { OnSome result (self.new.nodes ≡ without_place number.place self.old.nodes) }
        ensures absent { IfNone result (self.new ≡ self.old) }
        ensures placed { self.new.placed ≡ self.old.placed }
        ensures places { self.new.places ≡ self.old.places }
    {
        let node = self.arena.free(number)?;
        self.links.unlink(number.place);
        Some(node)
    }

    /// Marks the node under a number as cancelled and leaves it in the list. Returns false if it was freed
    /// before.
    pub fn cancel(&mut self, number: NodeNo) -> bool
        ensures found { result ≡ is_some (under number self.old.nodes) }
        ensures nodes { OnTrue result (self.new.nodes ≡ cancel_at number.place self.old.nodes) }
        ensures absent { OnFalse result (self.new ≡ self.old) }
        ensures placed { self.new.placed ≡ self.old.placed }
        ensures places { self.new.places ≡ self.old.places }
    {
        match self.arena.get(number) {
            None => false,
            Some(node) => {
                self.arena.replace(
                    number,
                    Node {
                        arrival: node.arrival,
                        cancelled: true,
                    },
                );
                true
            }
        }
    }
}
