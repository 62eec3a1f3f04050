//! The nodes of a table.
use crate::kind::Kind;
use crate::mode::Mode;

/// A node, as it is written in a table, good or not: all fields are numbers there, so that each can be what is refused.
#[derive(Clone, Copy, PartialEq, Eq, Debug)]
pub struct Node {
    pub kind: Kind,
    /// Of a boundary the number of its task, else 0.
    pub host: u16,
    pub mode: Mode,
    /// The date or the length, else 0.
    pub amount: u16,
}
