//! Folding the entries of a core.

ghost use Rattle.std.specs.Prelude.{◌≡◌, ◌↔◌, length, IfErr, IfOk, IsErrOf, OnOk};
ghost use Rattle.history.specs.declared.fault.Fault.TheVariants.{TrimFull};
ghost use Rattle.frame.specs.Core.{IsTrimFull, IsTrimmed, trimmed};

use super::Core;
use crate::hooks::Hooks;
use crate::snapshot::write_base;
use history::fault::Fault;

impl<H: Hooks + Drop> Core<H> {
    /// Folds all entries into the base, and returns how many there were. Their places become free. It
    /// allocates nothing, and looks at no entry: the base is written from the rest of the core.
    ///
    /// Only base and list change. Who holds, who waits and which room is owed stays.
    ///
    /// `TrimFull`: the base's limit of folded entries would be passed. Then nothing has changed.
    pub fn trim(&mut self) -> Result<u64, Fault>
        ensures count { IfOk result (λ count. count ≡ length self.old.entries) }
        ensures trimmed { OnOk result (self.new ≡ trimmed self.old) }
        ensures full { IsErrOf result TrimFull ↔ IsTrimFull self.old }
        ensures done { IsTrimmed self.old result self.new }
        ensures header { self.new.header ≡ self.old.header }
        ensures err { IfErr result (λ fault. (fault ≡ TrimFull) × (self.new ≡ self.old)) }
    {
        if !self.history.may_fold() {
            return Err(Fault::TrimFull);
        }
        let totals = self.balance();
        let count = self.history.len();
        let mut base = self.history.take_base();
        write_base(
            &mut base,
            count,
            &totals,
            &self.queue,
            &self.waiters,
            &self.seats,
        );
        self.history.begin_on(base);
        Ok(count)
    }
}
