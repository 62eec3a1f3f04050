//! What the cells of a row are.

/// What a cell of a row is.
#[derive(Clone, Copy, PartialEq, Eq, Debug)]
pub enum Place {
    /// The marks of a node.
    Mark { node: usize },
    /// The clock of a node.
    Clock { node: usize },
    /// The marks of an edge.
    Flow { edge: usize },
    /// The day clock.
    Day,
}
