//! A script: objects, and threads that call them.

ghost use Rattle.std.specs.Prelude.{◌≡◌, IfErr, IfOk};
ghost use Rattle.script.specs.Building.{IsFaultOf};
ghost use Rattle.script.specs.Script.{IsScript, named};

use crate::building::fault_of;
use crate::fault::ScriptFault;
use crate::worker::Worker;
use history::header::Header;
use indexmap::IndexMap;
use std::marker::Model;

/// Objects with their names, and threads with the calls that each makes.
///
/// The thread at place `t` is worker `t`, counted from 0, and has seat `t` in every object. A script is read
/// by [`read_script`](crate::read_script), or made of its parts. Each meets all limits.
#[derive(Debug, Drop)]
pub struct Script {
    objects: IndexMap<String, Header>,
    workers: Vec<Worker>,
}

impl Model for Script {
    ghost use Rattle.script.specs.Script.{ScriptView, IsScript, named};

    ghost Value = { ScriptView };

    ghost view = { λ s. record { objects = named s.objects.entries; workers = s.workers.items } };

    ghost invariant = { λ s. IsScript (record {
      objects = named s.objects.entries;
      workers = s.workers.items;
    }) };
}

impl Script {
    /// Returns the script of these objects and workers. A call names its object by the place in the map.
    ///
    /// # Errors
    ///
    /// The first of these that applies, in the order in which [`read_script`](crate::read_script) looks for
    /// them:
    ///
    /// - [`ScriptFault::BadTop`] unless there are 1 to `MOST_OBJECTS` objects and 1 to `MOST_THREADS`
    ///   workers.
    /// - [`ScriptFault::BadObject`] for the first object with a name that no script has, or a header that
    ///   isn't in range or has another number of seats than there are workers.
    /// - [`ScriptFault::BadThread`] or [`ScriptFault::BadCall`] for the first worker without 1 to
    ///   `MOST_ROUNDS` rounds of at most `MOST_CALLS` calls, or with a call of no object, or an interrupt of
    ///   no worker.
    ///
    /// These numbers are the [`limits`](crate::limits) of a script.
    pub fn new(
        objects: IndexMap<String, Header>,
        workers: Vec<Worker>,
    ) -> Result<Script, ScriptFault>
        ensures kept { IfOk result
            (λ s. s ≡ record { objects = named objects.entries; workers = workers.items }) }
        ensures limits { IfOk result IsScript }
        ensures fault { IfErr result
            (IsFaultOf (record { objects = named objects.entries; workers = workers.items })) }
    {
        match fault_of(&objects, &workers) {
            Some(fault) => Err(fault),
            None => Ok(Script { objects, workers }),
        }
    }

    /// The script of parts that were found good.
    pub(crate) fn of_good(objects: IndexMap<String, Header>, workers: Vec<Worker>) -> Self
        requires { IsScript (record { objects = named objects.entries; workers = workers.items }) }
        ensures { result ≡ record { objects = named objects.entries; workers = workers.items } }
    {
        Script { objects, workers }
    }

    /// Returns the headers by the names of their objects, in the order of the script: at least 1, and at most
    /// [`MOST_OBJECTS`](crate::limits::MOST_OBJECTS).
    pub fn objects(&self) -> &IndexMap<String, Header>
        ensures value { named result.now.entries ≡ self.now.objects }
        ensures limits { IsScript self.now }
    {
        &self.objects
    }

    /// Returns the workers in their order: at least 1, and at most
    /// [`MOST_THREADS`](crate::limits::MOST_THREADS).
    pub fn workers(&self) -> &[Worker]
        ensures value { result.now ≡ self.now.workers }
        ensures limits { IsScript self.now }
    {
        self.workers.as_slice()
    }
}
