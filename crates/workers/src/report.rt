//! The report of a run.

ghost use Rattle.std.specs.Prelude.{◌≡◌};
ghost use Rattle.workers.specs.Reports.{is_legal};

use crate::unrecorded::Unrecorded;
use audit::verdict::Judgement;
use history::entries::History;
use history::header::Header;

/// What a run reports for one object.
#[derive(Debug, Drop)]
pub struct ObjectReport {
    pub header: Header,
    /// The object's whole history: the base that was folded, and the entries after it.
    pub history: History,
    /// The verdict on the history, and what it adds up to.
    pub judgement: Judgement,
    /// How many calls ended, added up over the passes of all workers.
    pub share: u64,
}

/// What a run reports.
#[derive(Debug, Drop)]
pub struct Report {
    /// The part of each object, in the order of the script.
    pub objects: Vec<ObjectReport>,
    /// How many calls of all workers returned a fault that no history records.
    pub unrecorded: u64,
    /// Each of these answers, if the run was to keep them.
    pub listed: Option<Vec<Unrecorded>>,
}

impl ObjectReport {
    /// Returns whether the history is legal.
    pub fn is_legal(&self) -> bool
        ensures { result ≡ is_legal self.now.judgement }
    {
        match self.judgement {
            Judgement::Legal(_) => true,
            Judgement::NotLegal(_) => false,
        }
    }
}
