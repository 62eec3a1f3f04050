//! The edges of a table.
ghost use Rattle.std.specs.Prelude.{◌≡◌, ◌==◌};
ghost use Rattle.token_tables.specs.Tables.{entering, leaving};

/// An edge, as it is written in a table, from one node to another or to itself.
#[derive(Clone, Copy, PartialEq, Eq, Debug)]
pub struct Edge {
    pub source: u16,
    pub target: u16,
}

impl Edge {
    // Whether it goes into this node.
    fn enters(self, node: usize) -> bool
        ensures { result ≡ (self.target == node) }
    {
        self.target as usize == node
    }

    // Whether it goes out of this node.
    fn leaves(self, node: usize) -> bool
        ensures { result ≡ (self.source == node) }
    {
        self.source as usize == node
    }
}

// Sums of ones: a count of what a filter passes takes twice the time, since LLVM makes no vectors of it.

/// How many edges go into this node.
pub fn count_entering(edges: &[Edge], node: usize) -> usize
    ensures { result ≡ entering node edges.now }
{
    edges
        .iter()
        .map(|edge| usize::from(edge.enters(node)))
        .sum()
}

/// How many edges go out of this node.
pub fn count_leaving(edges: &[Edge], node: usize) -> usize
    ensures { result ≡ leaving node edges.now }
{
    edges
        .iter()
        .map(|edge| usize::from(edge.leaves(node)))
        .sum()
}
