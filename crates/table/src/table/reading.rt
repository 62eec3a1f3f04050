//! What is read from the lists of a table.
ghost use Rattle.std.specs.Prelude.{◌≡◌};
ghost use Rattle.table.specs.Tables.{applies, flag_at, largest, lead};

use crate::arc::Arc;

// Whether there is a row of this number that is flagged safe.
pub(super) fn flag_of(safe: &[bool], row: u16) -> bool
    ensures { result ≡ flag_at safe.now row }
{
    safe.get(row as usize) == Some(&true)
}

// The largest choice, 0 without arcs.
pub(super) fn largest_choice(arcs: &[Arc]) -> u16
    ensures { result ≡ largest arcs.now }
{
    arcs.iter().fold(0, |most, arc| arc.choice.max(most))
}

// Whether the arc is for this choice at this row.
fn is_for(arc: Arc, row: u16, choice: usize) -> bool
    ensures { result ≡ applies row choice arc }
{
    arc.from == row && arc.choice as usize == choice
}

// Where the choice leads from the row, by the first arc for it.
pub(super) fn lead_of(arcs: &[Arc], row: u16, choice: usize) -> Option<u16>
    ensures { result ≡ lead row choice arcs.now }
{
    arcs.iter()
        .find(|arc| is_for(**arc, row, choice))
        .map(|arc| arc.to)
}
