//! Folding what was done to the object.
ghost use Rattle.std.specs.Prelude.{◌≡◌};
ghost use Rattle.monitor.specs.Calling.{Called};
ghost use Rattle.monitor.specs.Stepping.{IsTrim, IsTrimInAll, in_all};

use crate::load::Load;
use crate::monitor::Monitor;
use crate::pass::Pass;
use frame::hooks::Hooks;
use frame::machine::Core;
use history::fault::Fault;
use std::sync::Wait;

impl<H: Hooks + Drop, L: Load> Monitor<H, L> {
    /// Folds all entries into the base, and returns how many. Their room is free again. It waits for the
    /// object, and allocates nothing. Nothing else changes, for this pass or for any other.
    ///
    /// `TrimFull`: more entries would be folded than the limit allows. Then nothing has changed.
    pub fn trim<R: Wait>(&self, rt: &R, pass: &mut Pass) -> Result<u64, Fault>
        requires is_of { pass.old.lock ≡ self.now }
        ensures called { Called pass.old pass.new }
        ensures trimmed { IsTrim pass.old result pass.new }
    {
        let mut held = self.lock.lock(rt, &mut pass.token);
        let count = held.value.trim();
        self.lock.unlock(&mut pass.token, held);
        count
    }

    /// Trims as [`trim`](Monitor::trim) does, and returns how many entries are folded then in all. If two calls
    /// return the same number, nothing was recorded between them.
    pub fn trim_in_all<R: Wait>(&self, rt: &R, pass: &mut Pass) -> Result<u128, Fault>
        requires is_of { pass.old.lock ≡ self.now }
        ensures called { Called pass.old pass.new }
        ensures trimmed { IsTrimInAll pass.old result pass.new }
    {
        let mut turn = self.lock.lock(rt, &mut pass.token);
        let trimmed = turn.value.trim();
        let folded = folded_in(turn.value.core());
        self.lock.unlock(&mut pass.token, turn);
        in_all(trimmed, folded)
    }
}

// How many entries the base of a core has.
fn folded_in<H: Hooks + Drop>(core: &Core<H>) -> u128
    ensures { result ≡ core.now.base.entries }
{
    match core.history().base() {
        Some(base) => base.entries,
        None => 0,
    }
}

fn in_all(count: Result<u64, Fault>, folded: u128) -> Result<u128, Fault>
    ensures { result ≡ in_all count folded }
{
    match count {
        Ok(_) => Ok(folded),
        Err(fault) => Err(fault),
    }
}
