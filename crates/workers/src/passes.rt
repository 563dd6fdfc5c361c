//! The passes of a worker, or of an object.
ghost use Rattle.std.specs.Prelude.{◌≡◌, ◌∷◌, ◌++◌, ◌≤◌, [], OnOk, length};
ghost use Rattle.workers.specs.Rows.{dealt};

use monitor::Pass;
use std::alloc::{AllocError, Global};
use std::marker::Model;

/// Passes in order. Contracts see what each pass shows.
#[derive(Drop)]
pub(crate) struct Passes {
    pub(crate) list: Vec<Pass>,
}

impl Model for Passes {
    ghost use Rattle.std.specs.Prelude.{List};
    ghost use Rattle.monitor.specs.Shown.{Shown};

    ghost Value = { List Shown };

    ghost view = { λ p. p.list.items };
}

impl Passes {
    pub(crate) fn new(alloc: Global) -> Passes
        ensures { result ≡ [] }
    {
        Passes {
            list: Vec::new(alloc),
        }
    }

    pub(crate) fn add(&mut self, pass: Pass) -> Result<(), AllocError>
        ensures { OnOk result (self.new ≡ self.old ++ pass ∷ []) }
    {
        self.list.push(pass)?;
        Ok(())
    }

    pub(crate) fn into_list(self) -> Vec<Pass>
        ensures { result.items ≡ self }
    {
        let Passes { list } = self;
        list
    }
}

/// Adds the passes to the rows, one to each row in order.
pub(crate) fn deal(passes: Passes, rows: &mut Vec<Passes>) -> Result<(), AllocError>
    requires { length passes ≤ length rows.old.items }
    ensures { OnOk result (rows.new.items ≡ dealt passes rows.old.items) }
{
    let mut place = 0;
    for pass in passes.into_list() {
        rows[place].add(pass)?;
        place += 1;
    }
    Ok(())
}
