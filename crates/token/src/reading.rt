//! What a console tells a person of a drawing.
ghost use Rattle.std.specs.Prelude.{◌≡◌};
ghost use Rattle.token.specs.Reading.{act_at, choice_at, place_at, due_at};
ghost use Rattle.token.specs.Drawn.{drawing_of};

use crate::act::Act;
use crate::marking::Marking;
use crate::place::Place;
use crate::token_drawing::TokenDrawing;

impl TokenDrawing {
    /// The act that a choice stands for; none for a choice that there is not.
    pub fn act(&self, choice: usize) -> Option<Act>
        ensures { result ≡ act_at (drawing_of self.now) choice }
    {
        if choice < self.choice_count() {
            Some(self.act_of(choice))
        } else {
            None
        }
    }

    /// The choice that stands for an act; none for an act at a node or an edge that there is not.
    pub fn choice(&self, act: Act) -> Option<usize>
        ensures { result ≡ choice_at (drawing_of self.now) act }
    {
        let n = self.node_list().len();
        let e = self.edge_list().len();
        match act {
            Act::Pass => Some(0),
            Act::Complete { node } if node < n => Some(1 + node),
            Act::Enter { edge } if edge < e => Some(1 + n + edge),
            Act::Choose { edge } if edge < e => Some(1 + n + e + edge),
            _ => None,
        }
    }

    /// What a cell of a row is; none past the row's end.
    pub fn place(&self, cell: usize) -> Option<Place>
        ensures { result ≡ place_at (drawing_of self.now) cell }
    {
        let n = self.node_list().len();
        let day = self.day_cell();
        if cell < n {
            Some(Place::Mark { node: cell })
        } else if cell < 2 * n {
            Some(Place::Clock { node: cell - n })
        } else if cell < day {
            Some(Place::Flow { edge: cell - 2 * n })
        } else if cell == day {
            Some(Place::Day)
        } else {
            None
        }
    }

    /// Whether a node is due at a row. None is at a row of another length, nor one that there is not.
    pub fn is_due(&self, row: &[u16], node: usize) -> bool
        ensures { result ≡ due_at (drawing_of self.now) row.now node }
    {
        row.len() == self.row_width()
            && node < self.node_list().len()
            && Marking { drawing: self, row }.is_due(node)
    }
}
