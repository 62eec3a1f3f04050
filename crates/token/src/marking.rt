//! Where a drawing stands.
ghost use Rattle.std.specs.Prelude.{◌≡◌, length};
ghost use Rattle.token.specs.Rows.{width_of};
ghost use Rattle.token.specs.Drawn.{drawing_of};

use crate::token_drawing::TokenDrawing;

// A drawing at a row of its width.
#[derive(Clone, Copy)]
pub(crate) struct Marking<'a> {
    pub(crate) drawing: &'a TokenDrawing,
    pub(crate) row: &'a [u16],
    ghost long: { length row.now ≡ width_of (drawing_of drawing.now) },
}
