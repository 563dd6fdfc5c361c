//! An opened object of a script.
ghost use Rattle.std.specs.Prelude.{◌≡◌, ◌<◌, ◌≤◌, All, IfOk, IfErr};
ghost use Rattle.history.specs.Header.{IsInRange};
ghost use Rattle.monitor.specs.Closing.{passes_of};
ghost use Rattle.monitor.specs.Lawful.{blank};
ghost use Rattle.monitor.specs.Shown.{opening_passes};
ghost use Rattle.workers.specs.Reports.{IsPart};

use crate::fault::RunFault;
use crate::passes::Passes;
use crate::report::ObjectReport;
use any_object::AnyHooks;
use audit::sums::Totals;
use audit::verdict::Judgement;
use history::header::Header;
use monitor::Monitor;
use std::alloc::Global;
use std::marker::Model;
use std::sync::Wait;

/// A monitor and the header that it was opened with. Contracts see which monitor it is.
#[derive(Drop)]
pub(crate) struct Opened {
    header: Header,
    monitor: Monitor<AnyHooks>,
}

impl Model for Opened {
    ghost use Rattle.std.specs.Prelude.{◌≡◌};
    ghost use Rattle.history.specs.Header.{IsInRange};
    ghost use Rattle.word_lock.specs.Ticket.{LockId};

    ghost Value = { LockId };

    ghost view = { λ o. o.monitor };

    ghost invariant = { λ o. (o.monitor.header ≡ o.header) × IsInRange o.header };
}

impl Opened {
    /// Opens the object of a header, and returns it with a pass for each seat, in order.
    pub(crate) fn open(alloc: Global, header: Header) -> Result<(Opened, Passes), RunFault>
        requires { IsInRange header }
        ensures header { IfOk result (λ r. r.0.header ≡ header) }
        ensures passes { IfOk result (λ r. r.1 ≡ opening_passes r.0 (blank r.0.header) 0 header.seats) }
        ensures err { IfErr result (λ fault. fault ≡ RunFault.Memory) }
    {
        let Ok(hooks) = AnyHooks::open(alloc, &header) else {
            return Err(RunFault::Memory);
        };
        match Monitor::open(alloc, hooks, header.seats, header.conditions, header.cap) {
            Ok((monitor, list)) => Ok((Opened { header, monitor }, Passes { list })),
            Err(_) => Err(RunFault::Memory),
        }
    }

    pub(crate) fn monitor(&self) -> &Monitor<AnyHooks>
        ensures { result.now ≡ self.now }
    {
        &self.monitor
    }

    /// Closes the object with the passes of all its seats. The history is proved to be legal, so it isn't
    /// judged again: the totals are those of the object itself.
    pub(crate) fn close<R: Wait>(self, rt: &R, passes: Passes) -> ObjectReport
        requires own { All (λ p. p.lock ≡ self) passes }
        requires all { (seat : _) → seat < self.header.seats → 1 ≤ passes_of seat passes }
        ensures { IsPart self passes result }
    {
        let Opened { header, monitor } = self;
        match monitor.close(rt, passes.into_list()) {
            Ok(closed) => {
                let totals = Totals::of(header.object, &closed.balance);
                ObjectReport {
                    header,
                    history: closed.history,
                    judgement: Judgement::Legal(totals),
                    share: closed.share,
                }
            }
            Err(_) => unreachable!(),
        }
    }
}
