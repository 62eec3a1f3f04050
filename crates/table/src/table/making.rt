//! How a table is made.
ghost use Rattle.std.specs.Prelude.{◌≡◌, true, false};
ghost use Rattle.process.specs.Meaning.{Blank};
ghost use Rattle.process.specs.Outcomes.{gave};
ghost use Rattle.table.specs.Examination.{examined};
ghost use Rattle.table.specs.Tables.{kept, tabled};
ghost use Rattle.table.specs.Leading.{Follows};
ghost use Rattle.table.specs.Means.{means};

use super::Table;
use super::reading::largest_choice;
use crate::arc::Arc;
use crate::examination::examine;

// Empties both lists where they have a fault.
fn clear_faulty(safe: &mut Vec<bool>, arcs: &mut Vec<Arc>)
    ensures rows { safe.new.items ≡ kept safe.old.items arcs.old.items safe.old.items }
    ensures arcs { arcs.new.items ≡ kept safe.old.items arcs.old.items arcs.old.items }
{
    if examine(safe, arcs).is_err() {
        safe.clear();
        arcs.clear();
    }
}

impl Table {
    /// The table of these rows and arcs, or the blank one where they have a fault.
    pub fn new(mut safe: Vec<bool>, mut arcs: Vec<Arc>) -> Table
        ensures meaning { means result ≡ tabled safe.items arcs.items }
        ensures follows { gave (examined safe.items arcs.items) ≡ true → Follows safe.items arcs.items (means result) }
        ensures blank { gave (examined safe.items arcs.items) ≡ false → Blank (means result) }
    {
        clear_faulty(&mut safe, &mut arcs);
        let choices = largest_choice(&arcs) as usize + 1;
        Table {
            safe,
            arcs,
            choices,
        }
    }
}
