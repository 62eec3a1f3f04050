//! Drawings that follow the rules.
ghost use Rattle.std.specs.Prelude.{◌≡◌, true, false};
ghost use Rattle.process.specs.Meaning.{Blank};
ghost use Rattle.process.specs.Outcomes.{gave};
ghost use Rattle.token_tables.specs.Examination.{examined};
ghost use Rattle.token.specs.Drawn.{drawing_of, drawn, means};
ghost use Rattle.token_rules.specs.Ruled.{Ruled};

use token::TokenDrawing;
use token_tables::{Edge, Node};

// Does nothing: what holds of the drawing of these tables.
fn law(nodes: &[Node], edges: &[Edge], drawing: &TokenDrawing)
    requires { drawing_of drawing.now ≡ drawn nodes.now edges.now }
    ensures ruled { gave (examined nodes.now edges.now) ≡ true → Ruled (record { nodes = nodes.now; edges = edges.now }) (means drawing.now) }
    ensures blank { gave (examined nodes.now edges.now) ≡ false → Blank (means drawing.now) }
{}

/// The drawing of these tables, which follows the rules, or the blank one where they have a fault.
pub fn draw(nodes: &[Node], edges: &[Edge]) -> TokenDrawing
    ensures same { drawing_of result ≡ drawn nodes.now edges.now }
    ensures ruled { gave (examined nodes.now edges.now) ≡ true → Ruled (record { nodes = nodes.now; edges = edges.now }) (means result) }
    ensures blank { gave (examined nodes.now edges.now) ≡ false → Blank (means result) }
{
    let drawing = TokenDrawing::new(nodes, edges);
    law(nodes, edges, &drawing);
    drawing
}
