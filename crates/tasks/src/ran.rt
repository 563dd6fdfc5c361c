//! A script, and what a run of its threads left.

ghost use Rattle.std.specs.Prelude.{◌≡◌, ◌≤◌, ◌↔◌, false, All, IfErr, IfNone, IfOk, IfSome, IsErrOf, IsTrue, Some, length, slice_get};
ghost use Rattle.std.specs.Arc.{arc_value};
ghost use Rattle.history.specs.declared.header.Header.{Header};
ghost use Rattle.streams.specs.declared.stream_fault.StreamFault.TheVariants.{WriteFailed};
ghost use Rattle.tasks.specs.Ran.{IsFaultOfThreads, WritesRan};
ghost use Rattle.tasks.specs.declared.fault.Fault.TheVariants.{Stream};
ghost use Rattle.workers.specs.Reports.{IsListed, IsReport, IsSound};

use crate::fault::Fault;
use run_text::RunText;
use script::Script;
use std::alloc::Global;
use std::marker::Model;
use std::sync::{Arc, Wait};
use std::thread::Threads;
use std::time::Clock;
use streams::sink::Sink;
use streams::stream_fault::StreamFault;
use workers::{Keep, ObjectReport, OpenGate, Report, run_threads};

/// A script, and what a run of its threads left.
#[derive(Drop)]
pub struct Ran {
    script: Arc<Script>,
    report: Report,
}

impl Model for Ran {
    ghost use Rattle.std.specs.Arc.{arc_value};
    ghost use Rattle.std.specs.List.{All};
    ghost use Rattle.tasks.specs.Ran.{RanView};
    ghost use Rattle.workers.specs.Reports.{IsReport, IsSound};

    ghost Value = { RanView };

    ghost view = { λ r. record { script = arc_value r.script; report = r.report } };

    ghost invariant = { λ r. IsReport (arc_value r.script) r.report × All IsSound r.report.objects.items };
}

impl Ran {
    /// Runs the threads of a script to their ends. If they wait for each other, this may never return. `keep`
    /// says what is kept of the answers that no history records.
    ///
    /// # Errors
    ///
    /// [`Fault::Run`], as of [`run_threads`].
    pub fn of<T: AllocGlobal + Threads + Wait + Clock + Sync>(
        rt: &T,
        script: Arc<Script>,
        keep: Keep,
    ) -> Result<Ran, Fault>
        ensures ok { IfOk result (λ ran. ran.script ≡ arc_value script) }
        ensures listed { IfOk result (λ ran. IsListed keep ran.report.listed) }
        ensures err { IfErr result (IsFaultOfThreads (arc_value script).workers) }
    {
        let report = run_threads(rt, rt.alloc(), &*script, &OpenGate, keep)?;
        Ok(Ran { script, report })
    }

    /// The run of a script that has this report.
    pub(crate) fn made(script: Arc<Script>, report: Report) -> Ran
        requires report { IsReport (arc_value script) report }
        requires sound { All IsSound report.objects.items }
        ensures { result ≡ record { script = arc_value script; report = report } }
    {
        Ran { script, report }
    }

    /// Returns the name of the object at a place of the script, and what the run left of it.
    pub fn object(&self, place: usize) -> Option<(&str, &ObjectReport)>
        ensures name { IfSome result (λ o. (h : Header)
            × (slice_get self.now.script.objects place ≡ Some (o.0.now, h))) }
        ensures report { IfSome result (λ o. slice_get self.now.report.objects.items place ≡ Some o.1.now) }
        ensures sound { IfSome result (λ o. IsSound o.1.now) }
        ensures none { IfNone result (length self.now.script.objects ≤ place) }
    {
        let (name, _) = self.script.objects().get_index(place)?;
        let part = self.report.objects.get(place)?;
        Some((name.as_str(), part))
    }

    /// Writes the run text, with a line for each answer that is listed. Returns the exit status, which is 0,
    /// since each history is legal.
    ///
    /// # Errors
    ///
    /// The fault of an allocation, and then nothing was written, or of the sink. A sink that failed may have
    /// been given the first bytes of the run text.
    pub fn write<W: Sink>(self, alloc: Global, writer: &mut W) -> Result<u8, Fault>
        requires { W.failed writer.old ≡ false }
        ensures writes { WritesRan self (W.held writer.old) (W.held writer.new) result }
        ensures failing { IsErrOf result (Stream WriteFailed) ↔ IsTrue (W.failed writer.new) }
    {
        let Ran { script, report } = self;
        let text = RunText::of(alloc, &*script, report)?;
        match text.write(writer) {
            Ok(()) => Ok(0),
            Err(_) => Err(Fault::Stream(StreamFault::WriteFailed)),
        }
    }
}
