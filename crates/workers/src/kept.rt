//! What is kept of answers that no history records, while a script is run.
ghost use Rattle.std.specs.Prelude.{◌≡◌, ◌+◌, ◌<◌, ◌≤◌, ◌^◌, [], IfErr, IfOk, IfSome, Some};
ghost use Rattle.workers.specs.Calls.{unrecorded_by};
ghost use Rattle.workers.specs.Reports.{IsListed};
ghost use Rattle.workers.specs.declared.fault.RunFault.TheVariants.{Memory};
ghost use Rattle.workers.specs.inner.Keeping.{Adds, Extends, IsKept, Joins};

use crate::fault::RunFault;
use crate::unrecorded::{Keep, Unrecorded};
use history::fault::Fault;
use script::Call;
use std::alloc::Global;

/// What is kept of answers that no history records.
#[derive(Drop)]
pub(crate) struct Kept {
    pub count: u64,
    /// Each of them, in order. It is None if they are only counted, or once an allocation failed.
    pub list: Option<Vec<Unrecorded>>,
}

/// Returns a list with more answers, or None if an allocation fails.
fn extended(list: Option<Vec<Unrecorded>>, more: &[Unrecorded]) -> Option<Vec<Unrecorded>>
    ensures { Extends list more.now result }
{
    let mut list = list?;
    match list.extend_from_slice(more) {
        Ok(()) => Some(list),
        Err(_) => None,
    }
}

impl Kept {
    /// Nothing is kept yet.
    pub(crate) fn new(alloc: Global, keep: Keep) -> Kept
        ensures { IsKept result [] }
    {
        match keep {
            Keep::Count => Kept {
                count: 0,
                list: None,
            },
            Keep::Each => Kept {
                count: 0,
                list: Some(Vec::new(alloc)),
            },
        }
    }

    /// Keeps what the call of this number returned, if it is a fault that no history records.
    pub(crate) fn add(&mut self, thread: u16, number: u64, call: Call, fault: Option<Fault>)
        requires { self.old.count < 2 ^ 63 }
        ensures adds { Adds self.old (unrecorded_by thread number call fault) self.new }
        ensures few { self.new.count ≤ self.old.count + 1 }
    {
        let Some(fault) = fault else {
            return;
        };
        self.count += 1;
        let answer = Unrecorded {
            thread,
            number,
            call,
            fault,
        };
        self.list = extended(self.list.take(), &[answer]);
    }

    /// Keeps later answers, too.
    pub(crate) fn join(&mut self, later: Kept)
        requires { self.old.count + later.count < 2 ^ 64 }
        ensures joins { Joins self.old later self.new }
        ensures count { self.new.count ≡ self.old.count + later.count }
    {
        let Kept { count, list } = later;
        self.count += count;
        let Some(list) = list else {
            self.list = None;
            return;
        };
        self.list = extended(self.list.take(), &list);
    }

    /// Returns the list of the answers, if it is asked for.
    pub(crate) fn into_list(self, keep: Keep) -> Result<Option<Vec<Unrecorded>>, RunFault>
        ensures asked { IfOk result (IsListed keep) }
        ensures list { IfOk result (λ listed. IfSome listed (λ list. self.list ≡ Some list)) }
        ensures err { IfErr result (λ fault. fault ≡ Memory) }
    {
        let Kept { count: _, list } = self;
        match keep {
            Keep::Count => Ok(None),
            Keep::Each => match list {
                Some(list) => Ok(Some(list)),
                None => Err(RunFault::Memory),
            },
        }
    }
}
