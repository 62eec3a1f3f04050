//! What a script states: a written table or a token drawing, and either as a process.
ghost use Rattle.console.specs.Procedures.{procedure_means, lawful_procedure, within_procedure};

use process::{Process, Refusal};
use table::Table;
use token::TokenDrawing;

#[derive(Drop)]
pub(crate) enum Procedure {
    Written(Table),
    Drawn(TokenDrawing),
}

// Each answer is that of the kind at hand: a `dyn Process` would need a trait without constants.
impl Process for Procedure {
    ghost WIDEST = { 257 };

    const WIDEST: usize = 257;

    ghost MOST_CHOICES = { 4096 };

    const MOST_CHOICES: usize = 4096;

    ghost meaning = { procedure_means };

    ghost lawful = { lawful_procedure };

    ghost within = { within_procedure };

    fn width(&self) -> usize {
        match self {
            Procedure::Written(table) => table.width(),
            Procedure::Drawn(drawing) => drawing.width(),
        }
    }

    fn choices(&self) -> usize {
        match self {
            Procedure::Written(table) => table.choices(),
            Procedure::Drawn(drawing) => drawing.choices(),
        }
    }

    fn start(&self, out: &mut [u16]) -> Result<(), Refusal> {
        match self {
            Procedure::Written(table) => table.start(out),
            Procedure::Drawn(drawing) => drawing.start(out),
        }
    }

    fn is_safe(&self, row: &[u16]) -> bool {
        match self {
            Procedure::Written(table) => table.is_safe(row),
            Procedure::Drawn(drawing) => drawing.is_safe(row),
        }
    }

    fn next(&self, row: &[u16], choice: usize, out: &mut [u16]) -> Result<(), Refusal> {
        match self {
            Procedure::Written(table) => table.next(row, choice, out),
            Procedure::Drawn(drawing) => drawing.next(row, choice, out),
        }
    }
}
