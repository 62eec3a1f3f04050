//! A table as a process.
ghost use Rattle.std.specs.Prelude.{◌≡◌, length};
ghost use Rattle.table.specs.Tables.{row_of};
ghost use Rattle.table.specs.Means.{means};
ghost use Rattle.table.specs.Laws.{lawful_table, within_table};

use super::Table;
use super::reading::{flag_of, lead_of};
use process::{Process, Refusal};

// Writes the row of one cell.
fn put(out: &mut [u16], cell: u16)
    requires { length out.old ≡ 1 }
    ensures { out.new ≡ row_of cell }
{
    out[0] = cell;
}

impl Process for Table {
    ghost WIDEST = { 1 };

    const WIDEST: usize = 1;

    ghost MOST_CHOICES = { 4096 };

    const MOST_CHOICES: usize = 4096;

    ghost meaning = { means };

    ghost lawful = { lawful_table };

    ghost within = { within_table };

    fn width(&self) -> usize {
        1
    }

    fn choices(&self) -> usize {
        self.choices
    }

    fn start(&self, out: &mut [u16]) -> Result<(), Refusal> {
        if out.len() != 1 {
            return Err(Refusal::WrongLength);
        }
        put(out, 0);
        Ok(())
    }

    fn is_safe(&self, row: &[u16]) -> bool {
        row.len() == 1 && flag_of(&self.safe, row[0])
    }

    fn next(&self, row: &[u16], choice: usize, out: &mut [u16]) -> Result<(), Refusal> {
        self.admit(row, choice, out)?;
        if !self.is_safe(row) {
            return Err(Refusal::NotAllowed);
        }
        let to = lead_of(&self.arcs, row[0], choice).ok_or(Refusal::NotAllowed)?;
        put(out, to);
        Ok(())
    }
}
