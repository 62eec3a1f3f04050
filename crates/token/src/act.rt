//! What can be done in a drawing.

/// What a choice stands for. Each choice of a drawing is one act, and each act at a node or an edge of it one choice. What
/// is done is chosen by a `match`, since there are just these acts, each with what it needs.
#[derive(Clone, Copy, PartialEq, Eq, Debug)]
pub enum Act {
    /// One unit of time passes.
    Pass,
    /// The node is completed.
    Complete { node: usize },
    /// A mark goes over the edge into its target.
    Enter { edge: usize },
    /// The gateway from which the edge goes out chooses it.
    Choose { edge: usize },
}
