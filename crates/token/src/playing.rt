//! A drawing as a process.
ghost use Rattle.token.specs.Drawn.{means};
ghost use Rattle.token.specs.Laws.{lawful_drawing, within_drawing};

use crate::marking::Marking;
use crate::token_drawing::TokenDrawing;
use process::{Process, Refusal};

impl Process for TokenDrawing {
    ghost WIDEST = { 257 };

    const WIDEST: usize = 257;

    ghost MOST_CHOICES = { 321 };

    const MOST_CHOICES: usize = 321;

    ghost meaning = { means };

    ghost lawful = { lawful_drawing };

    ghost within = { within_drawing };

    fn width(&self) -> usize {
        self.row_width()
    }

    fn choices(&self) -> usize {
        self.choice_count()
    }

    fn start(&self, out: &mut [u16]) -> Result<(), Refusal> {
        if out.len() != self.row_width() {
            return Err(Refusal::WrongLength);
        }
        self.begin(out);
        Ok(())
    }

    fn is_safe(&self, row: &[u16]) -> bool {
        self.row_is_safe(row)
    }

    fn next(&self, row: &[u16], choice: usize, out: &mut [u16]) -> Result<(), Refusal> {
        self.admit(row, choice, out)?;
        let act = self.act_of(choice);
        let here = Marking { drawing: self, row };
        if !here.may(act) || !self.row_is_safe(row) {
            return Err(Refusal::NotAllowed);
        }
        out.copy_from_slice(row);
        self.make(act, out);
        Ok(())
    }
}
