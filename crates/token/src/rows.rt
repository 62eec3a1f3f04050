//! What a row says.
ghost use Rattle.std.specs.Prelude.{◌≡◌, ◌+◌, ◌*◌, ◌≤◌, length};
ghost use Rattle.token.specs.Clocks.{is_after, clock_top};
ghost use Rattle.token.specs.Rows.{node_fits, nodes_fit, edges_fit};
ghost use Rattle.token.specs.Rules.{rings, node_due, some_due, is_boundary_of, edge_ready, edges_ready};

use token_tables::{Edge, Mode, Node};

// Whether the node waits for its length.
pub(crate) fn is_after(node: Node) -> bool
    ensures { result ≡ is_after node }
{
    node.mode == Mode::After
}

// How far the clock of the node goes.
fn clock_top(node: Node) -> u16
    ensures { result ≡ clock_top node }
{
    if is_after(node) { node.amount } else { 0 }
}

fn node_fits(node: Node, mark: u16, clock: u16) -> bool
    ensures { result ≡ node_fits node mark clock }
{
    mark <= 1 && clock <= clock_top(node)
}

// These functions are over plain lists and rows, and ask each that the row is long enough: two of them are asked before it
// is known that the row is of the drawing.

// Whether no node has more than one mark, and each clock is in range.
pub(crate) fn nodes_fit(nodes: &[Node], row: &[u16]) -> bool
    requires { 2 * length nodes.now ≤ length row.now }
    ensures { result ≡ nodes_fit nodes.now row.now }
{
    nodes
        .iter()
        .enumerate()
        .all(|(i, node)| node_fits(*node, row[i], row[nodes.len() + i]))
}

// Whether no edge has more than one mark; that of the first edge is in cell `first`. (As `all` over the part of the row it
// was not proved.)
pub(crate) fn edges_fit(edges: &[Edge], first: usize, row: &[u16]) -> bool
    requires { first + length edges.now ≤ length row.now }
    ensures { result ≡ edges_fit first edges.now row.now }
{
    edges.iter().enumerate().all(|(i, _)| row[first + i] <= 1)
}

// Whether the timer of the node rings.
fn is_ringing(node: Node, clock: u16, day: u16) -> bool
    ensures { result ≡ rings node.mode node.amount clock day }
{
    match node.mode {
        Mode::At => day == node.amount,
        Mode::After => clock == node.amount,
        Mode::Untimed | Mode::Other(_) => false,
    }
}

pub(crate) fn node_is_due(node: Node, mark: u16, clock: u16, day: u16) -> bool
    ensures { result ≡ node_due node mark clock day }
{
    mark > 0 && is_ringing(node, clock, day)
}

// Whether some node is due.
pub(crate) fn any_is_due(nodes: &[Node], day: u16, row: &[u16]) -> bool
    requires { 2 * length nodes.now ≤ length row.now }
    ensures { result ≡ some_due day nodes.now row.now }
{
    nodes.iter().enumerate().any(|(i, node)| node_is_due(*node, row[i], row[nodes.len() + i], day))
}

// Whether the node is a boundary of this task.
pub(crate) fn is_boundary_of(task: usize, node: Node) -> bool
    ensures { result ≡ is_boundary_of task node }
{
    node.kind.is_boundary() && node.host as usize == task
}

fn edge_is_ready(into: usize, edge: Edge, mark: u16) -> bool
    ensures { result ≡ edge_ready into edge mark }
{
    edge.target as usize != into || mark > 0
}

// Whether each edge into the node has a mark.
pub(crate) fn is_ready(edges: &[Edge], first: usize, into: usize, row: &[u16]) -> bool
    requires { first + length edges.now ≤ length row.now }
    ensures { result ≡ edges_ready first into edges.now row.now }
{
    edges
        .iter()
        .enumerate()
        .all(|(i, edge)| edge_is_ready(into, *edge, row[first + i]))
}
