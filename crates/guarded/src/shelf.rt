//! Items of a pool, one for each free permit, and items on their way into the pool or out of it.
ghost use Rattle.std.specs.Prelude.{◌≡◌, ◌<◌, ◌+◌, ◌^◌, ◌++◌, ℕ, [], drop, length, pos, take};

use crate::keeps::Keeps;
use monitor::{Holds, Load};
use std::collections::LinkedList;
use std::marker::PhantomData;

/// A place for items: in the pool, or with a call that acquires or releases some. Items move with their nodes, so a
/// move takes no memory. `I` says what is true of each item.
#[derive(Drop)]
pub struct Shelf<T, I> {
    pub(crate) items: LinkedList<T>,
    pub(crate) keeps: PhantomData<I>,
}

impl<T: Drop, I> Shelf<T, I> {
    // Drops an empty shelf.
    pub(crate) fn put_away(self)
        requires { length self.items ≡ 0 }
    {
        let Shelf { items, keeps: _ } = self;
        items.destroy_empty();
    }
}

// Leaves `free` items here. An acquire brings none, a release brings the items that it releases.
fn settle<T: Drop>(here: &mut LinkedList<T>, there: &mut LinkedList<T>, free: usize)
    requires { free < 2 ^ 63 }
    ensures takes { free < length here.old → there.old ≡ [] → (here.new ≡ take free here.old)
        × (there.new ≡ drop free here.old) }
    ensures gives { length here.old + length there.old ≡ free → 0 < length there.old
        → (here.new ≡ here.old ++ there.old) × (there.new ≡ []) }
    ensures stays { length here.old ≡ free → (here.new ≡ here.old) × (there.new ≡ there.old) }
{
    let lies = here.len();
    if lies == free {
        return;
    }
    if lies < free {
        let _ = here.append(there);
        return;
    }
    let Ok(taken) = here.split_off(free) else {
        unreachable!()
    };
    *there = taken;
}

// The same for a number of permits, which may be below 0 if nothing is here.
fn trade<T: Drop>(here: &mut LinkedList<T>, there: &mut LinkedList<T>, free: i64)
    ensures takes { (n : ℕ) → free ≡ pos n → n < length here.old → there.old ≡ []
        → (here.new ≡ take n here.old) × (there.new ≡ drop n here.old) }
    ensures gives { free ≡ pos (length here.old + length there.old) → 0 < length there.old
        → (here.new ≡ here.old ++ there.old) × (there.new ≡ []) }
    ensures stays { free ≡ pos (length here.old) → (here.new ≡ here.old) × (there.new ≡ there.old) }
{
    if free < 0 {
        return;
    }
    settle(here, there, free as usize);
}

impl<T: Drop, I: Keeps<T>> Load for Shelf<T, I> {
    ghost use Rattle.std.specs.Prelude.{length, true};
    ghost use Rattle.std.specs.Prelude.{All};
    ghost use Rattle.guarded.specs.Shelved.{Lies, alike_lies};

    ghost rests = { λ s k. Lies s.items k × All I.invariant s.items };

    ghost carries = { λ s _. All I.invariant s.items };

    ghost fit = { λ _. Unit {0} };

    ghost is_counted = { true };

    ghost amount = { λ s. length s.items };

    ghost alike = { λ s k l same lies. (alike_lies s.items k l same lies.0, lies.1) };

    fn trade(&mut self, there: &mut Self, _before: Holds, _after: Holds, free: i64) {
        trade(&mut self.items, &mut there.items, free);
    }
}
