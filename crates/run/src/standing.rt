//! Where a run stands.
ghost use Rattle.std.specs.Prelude.{◌≡◌, length, take};
ghost use Rattle.fixed.specs.Items.{items_of};
ghost use Rattle.process.specs.Outcomes.{told, next_outcome};
ghost use Rattle.run.specs.Standing.{stand_of, opened, row_after};

use fixed::Fixed;
use process::{Process, Refusal};

// The row of a run, and its tallies.
#[derive(Clone, Copy)]
pub(crate) struct Standing {
    pub(crate) row: Fixed<u16, 512>,
    pub(crate) moved: u32,
    pub(crate) refused: u32,
}

// Writes the start row.
#[tactic(auto, using(process::proofs::Tries::started))]
fn begin<P: Process>(process: &P, out: &mut [u16])
    requires { length out.old ≡ (P.meaning process.now).width }
    ensures { out.new ≡ (P.meaning process.now).start }
{
    let _ = process.start(out);
}

impl Standing {
    // At this row, with both tallies at 0.
    fn at(row: &[u16]) -> Standing
        ensures row { items_of result.row ≡ take 512 row.now }
        ensures moved { result.moved ≡ 0 }
        ensures refused { result.refused ≡ 0 }
    {
        Standing {
            row: Fixed::new(row, 0),
            moved: 0,
            refused: 0,
        }
    }

    /// Where a run of the process begins.
    pub(crate) fn opened<P: Process>(process: &P) -> Standing
        ensures { stand_of result ≡ opened (P.meaning process.now) }
    {
        let mut room = [0u16; 512];
        let all: &mut [u16] = &mut room;
        let start = &mut all[0..process.width()];
        begin(process, start);
        Standing::at(start)
    }

    pub(crate) fn row(&self) -> &[u16]
        ensures { result.now ≡ (stand_of self.now).row }
    {
        self.row.as_slice()
    }

    fn set_row(&mut self, row: &[u16])
        ensures row { items_of self.new.row ≡ take 512 row.now }
        ensures moved { self.new.moved ≡ self.old.moved }
        ensures refused { self.new.refused ≡ self.old.refused }
    {
        self.row.replace(row);
    }

    /// Tries the choice from here: the row becomes the next one, unless the choice is refused.
    pub(crate) fn attempt<P: Process>(
        &mut self,
        process: &P,
        choice: usize,
        out: &mut [u16],
    ) -> Result<(), Refusal>
        ensures answer { told result ≡ (next_outcome (P.meaning process.now) (stand_of self.old).row choice out.old).answer }
        ensures left { out.new ≡ (next_outcome (P.meaning process.now) (stand_of self.old).row choice out.old).left }
        ensures row { (stand_of self.new).row ≡ row_after (told result) out.new (stand_of self.old).row }
        ensures moved { self.new.moved ≡ self.old.moved }
        ensures refused { self.new.refused ≡ self.old.refused }
    {
        process.next(self.row(), choice, out)?;
        self.set_row(out);
        Ok(())
    }
}
