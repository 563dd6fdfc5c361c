//! Lists of keys that are linked by index, so that a key leaves its list in constant time.
//!
//! The links and their proof are those of `util::linked_list` in the kit's `futures`. That one doesn't return
//! a key's neighbours.
ghost use Rattle.std.specs.Prelude.{◌≡◌, ◌≢◌, ℕ, ◌+◌, ◌^◌, ◌<◌, ◌≤◌, [], ◌∷◌, ◌++◌, length, IfSome, IfNone, IfOk, OnOk, IsOk, slice_get, IsSome, vec_len};
ghost use Rattle.node_arena.specs.LinkedLists.{
  items,
  list_of,
  list_count,
  key_limit,
  one_before,
  without,
  IsIn,
  IsApart,
  IsEmpty,
  Moves,
};
ghost use Rattle.node_arena.specs.inner.LinkedLists.{SameLists};
ghost use Rattle.node_arena.specs.Links.{next_of, prev_of, Skips, Splices};

use std::alloc::{AllocError, Global};
use std::marker::Model;

/// A fixed number of lists over keys, such as the places of an arena. A key is in at most one list.
///
/// Only `with_keys` allocates.
#[derive(Drop)]
pub struct LinkedLists {
    // Each list is a ring through its head. The head of list `n` is at `n`, and the link of a key
    // is at `heads + key`.
    links: Vec<Link>,
    // The list that each key is in.
    owners: Vec<Option<u16>>,
    heads: usize,
}

#[derive(Clone, Copy)]
struct Link {
    prev: u16,
    next: u16,
}

/// The most links of all lists and keys, so that the number of each has 16 bits.
const MOST_LINKS: usize = 65_536;

impl Model for LinkedLists {
    ghost use Rattle.node_arena.specs.LinkedLists.{LinkedLists as Lists};

    ghost Value = { Lists };

    ghost use Rattle.node_arena.specs.Links.{lists_of, IsSound};
    ghost use Rattle.std.specs.Prelude.{◌≤◌, length};

    ghost view = { λ s. lists_of s.links.items s.owners.items s.heads };

    ghost invariant = { λ s. (IsSound s.links.items s.owners.items s.heads) × (length s.links.items ≤ 65536) };
}

// Joins the two neighbours of `at`.
fn skip(links: &mut Vec<Link>, at: usize)
    requires at_in { at < vec_len links.old }
    requires prev_in { prev_of links.old.items at < vec_len links.old }
    requires next_in { next_of links.old.items at < vec_len links.old }
    ensures skips { Skips links.old.items links.new.items at }
    ensures len { vec_len links.new ≡ vec_len links.old }
{
    let Link { prev, next } = links[at];
    links[prev as usize].next = next;
    links[next as usize].prev = prev;
}

// Puts `at` just before `next`.
fn splice(links: &mut Vec<Link>, at: u16, next: u16)
    requires at_in { at < vec_len links.old }
    requires next_in { next < vec_len links.old }
    requires prev_in { prev_of links.old.items next < vec_len links.old }
    requires not_next { at ≢ next }
    requires not_prev { at ≢ prev_of links.old.items next }
    ensures splices { Splices links.old.items links.new.items at next }
    ensures len { vec_len links.new ≡ vec_len links.old }
{
    let prev = links[next as usize].prev;
    links[at as usize] = Link { prev, next };
    links[prev as usize].next = at;
    links[next as usize].prev = at;
}

impl LinkedLists {
    /// Returns `lists` empty lists, numbered from 0, with a link for each key below `keys` and for no other.
    /// Fails if memory lacks, or for more than 65,536 lists and keys in all.
    pub fn with_keys(alloc: Global, lists: usize, keys: usize) -> Result<Self, AllocError>
        ensures count { IfOk result (λ s. list_count s ≡ lists) }
        ensures no_items { IfOk result (λ s. (list : ℕ) → items s list ≡ []) }
        ensures no_keys { IfOk result (λ s. (key : ℕ) → list_of s key ≡ None) }
        ensures room { IfOk result (λ s. key_limit s ≡ keys) }
    {
        let mut lists = LinkedLists::new(alloc, lists)?;
        if keys > 0 {
            lists.reserve_key(keys - 1)?;
        }
        Ok(lists)
    }

    /// Returns `lists` empty lists and no keys.
    fn new(alloc: Global, lists: usize) -> Result<Self, AllocError>
        ensures count { IfOk result (λ s. list_count s ≡ lists) }
        ensures no_items { IfOk result (λ s. (list : ℕ) → items s list ≡ []) }
        ensures no_keys { IfOk result (λ s. (key : ℕ) → list_of s key ≡ None) }
        ensures no_room { IfOk result (λ s. key_limit s ≡ 0) }
    {
        if lists > MOST_LINKS {
            return Err(AllocError);
        }
        let mut links = Vec::with_capacity(alloc, lists)?;
        for head in 0..lists {
            links.push_reserved(Link {
                prev: head as u16,
                next: head as u16,
            });
        }
        Ok(LinkedLists {
            links,
            owners: Vec::new(alloc),
            heads: lists,
        })
    }

    /// Makes room for a key and each key below it.
    fn reserve_key(&mut self, key: usize) -> Result<(), AllocError>
        ensures room { OnOk result (key < key_limit self.new) }
        ensures exact { key_limit self.old ≤ key → OnOk result (key_limit self.new ≡ key + 1) }
        ensures fits { OnOk result (key + 1 < 2 ^ 64) }
        ensures succeeds { key < key_limit self.old → IsOk result }
        ensures grows { key_limit self.old ≤ key_limit self.new }
        ensures same { SameLists self.old self.new }
    {
        if key < self.owners.len() {
            return Ok(());
        }
        if key >= MOST_LINKS - self.heads {
            return Err(AllocError);
        }
        self.links
            .resize(self.heads + key + 1, Link { prev: 0, next: 0 })?;
        self.owners.resize(key + 1, None)
    }

    /// Returns the list that `key` is in.
    pub fn list_of(&self, key: usize) -> Option<usize>
        ensures value { result ≡ list_of self.now key }
        ensures in_range { IfSome result (λ list. list < list_count self.now) }
        ensures absent { (list : ℕ) → result ≢ Some list → ¬ IsIn key (items self.now list) }
    {
        match self.owners.get(key) {
            Some(Some(owner)) => Some(*owner as usize),
            _ => None,
        }
    }

    /// Returns the first key of `list`.
    pub fn front(&self, list: usize) -> Option<usize>
        requires { list < list_count self.now }
        ensures value { result ≡ slice_get (items self.now list) 0 }
        ensures member { IfSome result (λ key. list_of self.now key ≡ Some list) }
        ensures empty { IfNone result (IsEmpty self.now list) }
        ensures apart { IsApart (items self.now list) }
    {
        let first = self.links[list].next as usize;
        if first == list {
            None
        } else {
            Some(first - self.heads)
        }
    }

    /// Returns the key right after `key` in its list.
    pub fn behind(&self, key: usize) -> Option<usize>
        requires { IsSome (list_of self.now key) }
        ensures { (list k : ℕ) → slice_get (items self.now list) k ≡ Some key →
            result ≡ slice_get (items self.now list) (k + 1) }
    {
        let next = self.links[self.heads + key].next as usize;
        if next < self.heads {
            None
        } else {
            Some(next - self.heads)
        }
    }

    /// Returns the key right before `key` in its list.
    pub fn before(&self, key: usize) -> Option<usize>
        requires { IsSome (list_of self.now key) }
        ensures { (list k : ℕ) → slice_get (items self.now list) k ≡ Some key →
            result ≡ one_before (items self.now list) k }
    {
        let prev = self.links[self.heads + key].prev as usize;
        if prev < self.heads {
            None
        } else {
            Some(prev - self.heads)
        }
    }

    /// Puts `key`, which is in no list, at the end of `list`.
    pub fn push_back(&mut self, list: usize, key: usize)
        requires list_in { list < list_count self.old }
        requires key_in { key < key_limit self.old }
        requires unlinked { list_of self.old key ≡ None }
        ensures moves { Moves self.old self.new key (Some list) }
        ensures last { items self.new list ≡ items self.old list ++ key ∷ [] }
        ensures others { (other : ℕ) → other ≢ list → items self.new other ≡ items self.old other }
    {
        splice(&mut self.links, (self.heads + key) as u16, list as u16);
        self.owners[key] = Some(list as u16);
    }

    /// Takes `key` out of its list, if it is in one, and returns that list.
    pub fn unlink(&mut self, key: usize) -> Option<usize>
        ensures value { result ≡ list_of self.old key }
        ensures in_range { IfSome result (λ list. list < list_count self.old) }
        ensures moves { Moves self.old self.new key None }
        ensures left { IfSome result
            (λ list. items self.new list ≡ without key (items self.old list)) }
        ensures shorter { IfSome result
            (λ list. length (items self.new list) + 1 ≡ length (items self.old list)) }
        ensures others { (other : ℕ) → result ≢ Some other
            → items self.new other ≡ items self.old other }
        ensures absent { (other : ℕ) → result ≢ Some other → ¬ IsIn key (items self.old other) }
    {
        let list = self.list_of(key)?;
        skip(&mut self.links, self.heads + key);
        self.owners[key] = None;
        Some(list)
    }
}
