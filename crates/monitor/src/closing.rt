//! Passes that meet, and the end of a monitor.
ghost use Rattle.std.specs.Prelude.{◌≡◌, All, IfOk, IfErr};
ghost use Rattle.history.specs.Entries.{start_on};
ghost use Rattle.monitor.specs.Calling.{CalledQuietly};
ghost use Rattle.monitor.specs.Closing.{Closes, IsMissing, shares};
ghost use Rattle.history.specs.Counts.{counts};
ghost use Rattle.monitor.specs.Shown.{IsSound};
ghost use Rattle.monitor.specs.declared.closing.CloseFault.TheVariants.{MissingPass};

use crate::load::Load;
use crate::monitor::Monitor;
use crate::pass::Pass;
use frame::Balance;
use frame::hooks::Hooks;
use history::entries::History;
use std::sync::Wait;

/// What a monitor leaves.
#[derive(Debug, Drop)]
pub struct Closed {
    /// All that was done to the object, in order: the base that was folded, and the entries after it.
    pub history: History,
    /// The merged share: how many calls all passes together saw end.
    pub share: u64,
    /// What the seats still hold, how many still wait, and what is free: the numbers after the last entry.
    pub balance: Balance,
}

/// Why a monitor can't be closed.
#[derive(Clone, Copy, Debug, PartialEq, Eq)]
pub enum CloseFault {
    /// The pass of some seat isn't in the list.
    MissingPass,
}

impl<H: Hooks + Drop, L: Load> Monitor<H, L> {
    /// Lets two passes see the same history. It allocates nothing and waits for nobody.
    pub fn meet(&self, one: Pass, two: Pass) -> (Pass, Pass)
        requires is_of { (one.lock ≡ self.now) × (two.lock ≡ self.now) }
        ensures called { CalledQuietly one result.0 × CalledQuietly two result.1 }
        ensures seen { result.0.seen ≡ result.1.seen }
        ensures mine { (result.0.mine ≡ one.mine) × (result.1.mine ≡ two.mine) }
        ensures share { (result.0.share ≡ one.share) × (result.1.share ≡ two.share) }
    {
        let Pass {
            token: a,
            seat: i,
            share: m,
        } = one;
        let Pass {
            token: b,
            seat: j,
            share: n,
        } = two;
        let (a, b) = self.lock.meet(a, b);
        let one = Pass {
            token: a,
            seat: i,
            share: m,
        };
        let two = Pass {
            token: b,
            seat: j,
            share: n,
        };
        (one, two)
    }

    /// [`close`](Monitor::close) with a load: it also returns what lay under the lock. What a holder still
    /// carries stays with that holder.
    pub fn close_with<R: Wait>(
        self,
        rt: &R,
        passes: Vec<Pass>,
    ) -> Result<(Closed, L), (Monitor<H, L>, Vec<Pass>, CloseFault)>
        requires is_of { All (λ p. p.lock ≡ self) passes.items }
        ensures closes { IfOk result (λ r. Closes self passes.items r.0) }
        ensures rests { IfOk result (λ r.
            L.rests r.1 (counts (start_on self.header r.0.history) r.0.history.entries)) }
        ensures missing { IfErr result (λ r. (r.2 ≡ MissingPass) × IsMissing self.header.seats passes.items) }
        ensures back { IfErr result (λ r. (r.0 ≡ self) × (r.1 ≡ passes)) }
    {
        let share = merge_shares(&passes);
        if passes.len() < self.seats as usize {
            return Err((self, passes, CloseFault::MissingPass));
        }
        let mut passes = passes;
        let Some(last) = passes.pop() else {
            unreachable!()
        };
        let Monitor { lock, seats: _ } = self;
        let mut joined = last.into_token();
        while let Some(pass) = passes.pop() {
            joined = lock.join(pass.into_token(), joined);
        }
        drop(passes);
        let kept = lock.close(rt, joined);
        let (core, load) = kept.into_parts();
        let balance = core.balance();
        let history = core.into_history();
        let _few = history.len();
        let closed = Closed {
            history,
            share: share as u64,
            balance,
        };
        Ok((closed, load))
    }
}

impl<H: Hooks + Drop> Monitor<H> {
    /// Takes the object for good, and waits until nobody has it. It allocates nothing.
    ///
    /// The passes of all seats are needed, in any order, since only all of them together know what everybody
    /// did. If one is missing, it returns the monitor and the passes as they were.
    pub fn close<R: Wait>(
        self,
        rt: &R,
        passes: Vec<Pass>,
    ) -> Result<Closed, (Monitor<H>, Vec<Pass>, CloseFault)>
        requires is_of { All (λ p. p.lock ≡ self) passes.items }
        ensures closes { IfOk result (λ c. Closes self passes.items c) }
        ensures missing { IfErr result (λ r. (r.2 ≡ MissingPass) × IsMissing self.header.seats passes.items) }
        ensures back { IfErr result (λ r. (r.0 ≡ self) × (r.1 ≡ passes)) }
    {
        match self.close_with(rt, passes) {
            Ok((closed, _none)) => Ok(closed),
            Err(refused) => Err(refused),
        }
    }
}

// The sum of the shares. That it fits 64 bits is known once the lock is closed: then no two passes are of one
// seat.
fn merge_shares(passes: &[Pass]) -> u128
    ensures sum { result ≡ shares passes.now }
    ensures shows { All (λ p. IsSound p) passes.now }
{
    let mut share: u128 = 0;
    let mut rest = passes;
    let _few = passes.len();
    while let Some((pass, tail)) = rest.split_first() {
        pass.is_true();
        share += u128::from(pass.share());
        rest = tail;
    }
    share
}
