//! What can be wrong with the tables of a drawing.
ghost use Rattle.std.specs.Prelude.{Some};
ghost use Rattle.token_tables.specs.Faults.{number_of, place_of, words_of};

use process::Numbered;
use std::error::Error;
use std::fmt;

/// The first fault that an examination finds.
#[derive(Clone, Copy, PartialEq, Eq, Debug)]
pub enum DrawingFault {
    /// There are no nodes, more than 64 nodes or more than 128 edges.
    Size,
    /// The kind, the mode or the amount of this node is out of range.
    Range { node: usize },
    /// The host of this node does not fit: a boundary's is a task, any other is 0.
    Host { node: usize },
    /// One of the ends of this edge is no node.
    End { edge: usize },
    /// This node has too many or too few edges, into it or out of it.
    Edges { node: usize },
    /// No node is a start.
    NoStart,
}

impl Numbered for DrawingFault {
    ghost number_of = { number_of };

    ghost place_of = { place_of };

    /// 1 to 6.
    fn number(&self) -> u16 {
        match self {
            DrawingFault::Size => 1,
            DrawingFault::Range { .. } => 2,
            DrawingFault::Host { .. } => 3,
            DrawingFault::End { .. } => 4,
            DrawingFault::Edges { .. } => 5,
            DrawingFault::NoStart => 6,
        }
    }

    /// The number of the node or the edge, else 0.
    fn place(&self) -> usize {
        match self {
            DrawingFault::Size | DrawingFault::NoStart => 0,
            DrawingFault::Range { node }
            | DrawingFault::Host { node }
            | DrawingFault::Edges { node } => *node,
            DrawingFault::End { edge } => *edge,
        }
    }
}

impl fmt::Display for DrawingFault {
    ghost output = { λ f. Some (words_of f) };

    fn fmt<W: fmt::Write>(&self, f: &mut fmt::Formatter<W>) -> fmt::Result {
        match self {
            DrawingFault::Size => write!(f, "a drawing has 1 to 64 nodes and at most 128 edges"),
            DrawingFault::Range { node } => write!(
                f,
                "the kind, the mode or the amount of node {node} is out of range; see docs/token-drawings.md"
            ),
            DrawingFault::Host { node } => write!(
                f,
                "the host of node {node} does not fit: a boundary's is a task, any other is 0"
            ),
            DrawingFault::End { edge } => write!(
                f,
                "edge {edge} leads from or to a node that the drawing does not have"
            ),
            DrawingFault::Edges { node } => write!(
                f,
                "node {node} has too many or too few edges into it or out of it; see docs/token-drawings.md"
            ),
            DrawingFault::NoStart => write!(f, "no node is a start"),
        }
    }
}

impl Error for DrawingFault {}
