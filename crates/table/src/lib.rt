//! Written tables: processes whose rows have one cell, the row's own number.
#![tactic(auto)]

mod arc;
mod examination;
mod table;
mod table_fault;
#[cfg(test)]
mod tests;

pub use arc::Arc;
pub use examination::examine;
pub use table::Table;
pub use table_fault::TableFault;
