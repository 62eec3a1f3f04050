//! Which tables make a drawing.
ghost use Rattle.std.specs.Prelude.{◌≡◌, Decides};
ghost use Rattle.process.specs.Outcomes.{gave};
ghost use Rattle.process.specs.Examining.{first_fault};
ghost use Rattle.token_tables.specs.Faults.{told};
ghost use Rattle.token_tables.specs.Tables.{has_start};
ghost use Rattle.token_tables.specs.Examination.{mode_fits, amount_fits, host_fits, counts_fit, node_fault, edge_fault, count_fault, examined};
ghost use Rattle.token_tables.specs.Good.{Good};

use crate::drawing_fault::DrawingFault;
use crate::edge::{Edge, count_entering, count_leaving};
use crate::kind::Kind;
use crate::mode::Mode;
use crate::node::Node;

// Whether nodes of this kind can be timed so.
fn mode_fits(kind: Kind, mode: Mode) -> bool
    ensures { result ≡ mode_fits kind mode }
{
    match kind {
        Kind::TimedStart => mode == Mode::At,
        Kind::Wait | Kind::Stopping | Kind::Side => mode == Mode::At || mode == Mode::After,
        Kind::Other(_) => false,
        _ => mode == Mode::Untimed,
    }
}

// Whether the amount is in the range of the mode.
fn amount_fits(mode: Mode, amount: u16) -> bool
    ensures { result ≡ amount_fits mode amount }
{
    match mode {
        Mode::Untimed => amount == 0,
        Mode::At | Mode::After => amount <= 9999,
        Mode::Other(_) => false,
    }
}

// Whether the host is a task, for a boundary, and 0 for any other node.
fn host_fits(nodes: &[Node], node: Node) -> bool
    ensures { result ≡ host_fits nodes.now node }
{
    if !node.kind.is_boundary() {
        return node.host == 0;
    }
    let host = node.host as usize;
    host < nodes.len() && nodes[host].kind == Kind::Task
}

// Whether a node of this kind may have so many edges into it and out of it.
fn counts_fit(kind: Kind, entering: usize, leaving: usize) -> bool
    ensures { result ≡ counts_fit kind entering leaving }
{
    match kind {
        Kind::Start | Kind::TimedStart | Kind::Stopping | Kind::Side => {
            entering == 0 && leaving >= 1
        }
        Kind::Task | Kind::Parallel | Kind::Wait => entering >= 1 && leaving >= 1,
        Kind::Exclusive => { entering >= 1 && leaving >= 1 && (entering == 1 || leaving == 1) }
        Kind::End | Kind::Terminate => entering >= 1 && leaving == 0,
        Kind::Other(_) => false,
    }
}

fn examine_node(nodes: &[Node], index: usize, node: Node) -> Result<(), DrawingFault>
    ensures { told result ≡ node_fault nodes.now index node }
{
    if !(mode_fits(node.kind, node.mode) && amount_fits(node.mode, node.amount)) {
        return Err(DrawingFault::Range { node: index });
    }
    if !host_fits(nodes, node) {
        return Err(DrawingFault::Host { node: index });
    }
    Ok(())
}

fn examine_edge(nodes: usize, index: usize, edge: Edge) -> Result<(), DrawingFault>
    ensures { told result ≡ edge_fault nodes index edge }
{
    if (edge.source as usize) < nodes && (edge.target as usize) < nodes {
        Ok(())
    } else {
        Err(DrawingFault::End { edge: index })
    }
}

fn examine_count(edges: &[Edge], index: usize, node: Node) -> Result<(), DrawingFault>
    ensures { told result ≡ count_fault edges.now index node }
{
    if counts_fit(
        node.kind,
        count_entering(edges, index),
        count_leaving(edges, index),
    ) {
        Ok(())
    } else {
        Err(DrawingFault::Edges { node: index })
    }
}

// Three chains, and not one function over a closure: each would still be proved by an answer of its own.

// The first fault of a node by itself.
fn examine_nodes(nodes: &[Node]) -> Result<(), DrawingFault>
    ensures { told result ≡ first_fault (node_fault nodes.now) 0 nodes.now }
{
    nodes
        .iter()
        .enumerate()
        .try_for_each(|(index, node)| examine_node(nodes, index, *node))
}

// The first fault of an edge.
fn examine_edges(nodes: usize, edges: &[Edge]) -> Result<(), DrawingFault>
    ensures { told result ≡ first_fault (edge_fault nodes) 0 edges.now }
{
    edges
        .iter()
        .enumerate()
        .try_for_each(|(index, edge)| examine_edge(nodes, index, *edge))
}

// The first fault of a node by its edges.
fn examine_counts(nodes: &[Node], edges: &[Edge]) -> Result<(), DrawingFault>
    ensures { told result ≡ first_fault (count_fault edges.now) 0 nodes.now }
{
    nodes
        .iter()
        .enumerate()
        .try_for_each(|(index, node)| examine_count(edges, index, *node))
}

// Whether some node is a start.
fn has_start(nodes: &[Node]) -> bool
    ensures { result ≡ has_start nodes.now }
{
    nodes.iter().any(|node| node.kind.is_begin())
}

// What `examine` answers. That there is no fault just if the tables are good is proved once, there.
fn first_fault(nodes: &[Node], edges: &[Edge]) -> Result<(), DrawingFault>
    ensures { told result ≡ examined nodes.now edges.now }
{
    if nodes.len() < 1 || nodes.len() > 64 || edges.len() > 128 {
        return Err(DrawingFault::Size);
    }
    examine_nodes(nodes)?;
    examine_edges(nodes.len(), edges)?;
    examine_counts(nodes, edges)?;
    if has_start(nodes) {
        Ok(())
    } else {
        Err(DrawingFault::NoStart)
    }
}

/// The first fault: the size; then each node by itself; then each edge; then each node by its edges; then the starts.
/// There is none just if the tables are good. The two lists are two arguments, since a caller has them so, and a pair would
/// be made at each call only to be taken apart.
pub fn examine(nodes: &[Node], edges: &[Edge]) -> Result<(), DrawingFault>
    ensures answer { told result ≡ examined nodes.now edges.now }
    ensures good { Decides (gave (told result)) (Good (record { nodes = nodes.now; edges = edges.now })) }
{
    first_fault(nodes, edges)
}
