//! The arcs of a table.

/// Where one choice leads from one row.
#[derive(Clone, Copy, PartialEq, Eq, Debug)]
pub struct Arc {
    pub from: u16,
    pub choice: u16,
    pub to: u16,
}
