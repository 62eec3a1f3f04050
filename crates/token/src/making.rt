//! How a drawing is made of tables.
ghost use Rattle.std.specs.Prelude.{◌≡◌, ◌≤◌};
ghost use Rattle.token.specs.Clocks.{day_after, cap_of};
ghost use Rattle.token.specs.Known.{Amounts, Known};
ghost use Rattle.token.specs.Drawn.{drawing_of, drawn};

use crate::token_drawing::TokenDrawing;
use fixed::Fixed;
use token_tables::{Edge, Kind, Mode, Node, examine};

// What stands in the room that a drawing does not use.
const NO_NODE: Node = Node {
    kind: Kind::Start,
    host: 0,
    mode: Mode::Untimed,
    amount: 0,
};

const NO_EDGE: Edge = Edge {
    source: 0,
    target: 0,
};

// The day after the date that a node waits for, 0 if it waits for none.
fn day_after(node: Node) -> u16
    requires { node.amount ≤ 9999 }
    ensures { result ≡ day_after node }
{
    if node.mode == Mode::At {
        node.amount + 1
    } else {
        0
    }
}

// How far the day clock goes.
fn cap_of(nodes: &[Node]) -> u16
    requires { Amounts nodes.now }
    ensures { result ≡ cap_of nodes.now }
{
    nodes.iter().map(|node| day_after(*node)).max().unwrap_or(0)
}

// The drawing of these tables.
fn draw(nodes: &[Node], edges: &[Edge]) -> TokenDrawing
    requires { Known nodes.now edges.now }
    ensures { drawing_of result ≡ record { nodes = nodes.now; edges = edges.now } }
{
    TokenDrawing {
        nodes: Fixed::new(nodes, NO_NODE),
        edges: Fixed::new(edges, NO_EDGE),
        cap: cap_of(nodes),
    }
}

impl TokenDrawing {
    /// The drawing of these tables, or the blank one where they have a fault.
    pub fn new(nodes: &[Node], edges: &[Edge]) -> TokenDrawing
        ensures { drawing_of result ≡ drawn nodes.now edges.now }
    {
        match examine(nodes, edges) {
            Ok(()) => draw(nodes, edges),
            Err(_) => draw(&[], &[]),
        }
    }
}
