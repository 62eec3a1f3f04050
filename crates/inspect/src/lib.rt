//! Inspection: whether a book holds the start row, only safe rows, and every row that a choice leads to.
#![tactic(auto)]

mod fault;
mod scan;

pub use fault::Fault;
pub use scan::inspect;
