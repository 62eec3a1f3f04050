//! A drawing to learn from.
ghost use Rattle.std.specs.Prelude.{◌≡◌};
ghost use Rattle.token_tables.specs.declared.mode.Mode.TheVariants.{Untimed};
ghost use Rattle.token.specs.Drawn.{drawing_of};
ghost use Rattle.token_rules.specs.Retire.{retire, Stopped};

use token::TokenDrawing;
use token_tables::{Edge, Kind, Mode, Node};

fn untimed(kind: Kind) -> Node
    ensures { result ≡ record { kind = kind; host = 0; mode = Untimed; amount = 0 } }
{
    Node {
        kind,
        host: 0,
        mode: Mode::Untimed,
        amount: 0,
    }
}

fn nodes() -> [Node; 5]
    ensures { result ≡ retire.nodes }
{
    let limit = Node {
        kind: Kind::Stopping,
        host: 1,
        mode: Mode::After,
        amount: 2,
    };
    [
        untimed(Kind::Start),
        untimed(Kind::Task),
        limit,
        untimed(Kind::End),
        untimed(Kind::End),
    ]
}

fn edges() -> [Edge; 3]
    ensures { result ≡ retire.edges }
{
    [
        Edge {
            source: 0,
            target: 1,
        },
        Edge {
            source: 1,
            target: 3,
        },
        Edge {
            source: 2,
            target: 4,
        },
    ]
}

/// A worn cartridge is retired once an operator confirms it, or put back on the shelf after two units.
/// Nodes: 0 the start, 1 the task "confirm the retirement", 2 its time limit, 3 retired, 4 put back on the shelf.
pub fn retire_worn() -> TokenDrawing
    ensures drawing { drawing_of result ≡ retire }
    ensures stopped { Stopped }
{
    let nodes = nodes();
    let edges = edges();
    TokenDrawing::new(&nodes, &edges)
}
