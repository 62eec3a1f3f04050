//! Which lists make a table.
ghost use Rattle.std.specs.Prelude.{◌≡◌};
ghost use Rattle.table.specs.Faults.{told};
ghost use Rattle.table.specs.Examination.{ended, arc_fault, examined_arcs, examined};

use crate::arc::Arc;
use crate::table_fault::TableFault;

// Whether both ends of the arc are rows of a table of so many.
fn is_ended(arc: Arc, rows: usize) -> bool
    ensures { result ≡ ended rows arc }
{
    (arc.from as usize) < rows && (arc.to as usize) < rows
}

// The fault of an arc of a table of so many rows: of its choice, and then of its ends.
fn examine_arc(rows: usize, index: usize, arc: Arc) -> Result<(), TableFault>
    ensures { told result ≡ arc_fault rows index arc }
{
    if arc.choice > 4095 {
        return Err(TableFault::Choice { arc: index });
    }
    if !is_ended(arc, rows) {
        return Err(TableFault::End { arc: index });
    }
    Ok(())
}

// The first fault of the arcs.
fn examine_arcs(rows: usize, arcs: &[Arc]) -> Result<(), TableFault>
    ensures { told result ≡ examined_arcs rows 0 arcs.now }
{
    arcs.iter()
        .enumerate()
        .try_for_each(|(index, arc)| examine_arc(rows, index, *arc))
}

/// The first fault: first the size, then the arcs in their order, of each its choice and then its ends.
pub fn examine(safe: &[bool], arcs: &[Arc]) -> Result<(), TableFault>
    ensures { told result ≡ examined safe.now arcs.now }
{
    if safe.len() < 1 || safe.len() > 4096 || arcs.len() > 16384 {
        return Err(TableFault::Size);
    }
    examine_arcs(safe.len(), arcs)
}
