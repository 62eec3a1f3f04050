//! A token drawing.
ghost use Rattle.std.specs.Prelude.{◌≡◌};
ghost use Rattle.fixed.specs.Items.{items_of};
ghost use Rattle.token.specs.Clocks.{cap_of};
ghost use Rattle.token.specs.Known.{Known};

use fixed::Fixed;
use token_tables::{Edge, Node};

/// The nodes and edges, and how far the day clock goes. It owns its tables, so it needs no memory but its own.
#[derive(Clone, Copy)]
pub struct TokenDrawing {
    pub(crate) nodes: Fixed<Node, 64>,
    pub(crate) edges: Fixed<Edge, 128>,
    pub(crate) cap: u16,
    ghost known: { Known (items_of nodes) (items_of edges) },
    ghost capped: { cap ≡ cap_of (items_of nodes) },
}
