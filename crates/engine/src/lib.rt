//! The engine: an inspection and a whole run in one call, and the law that holds of every process and every book.
#![tactic(auto)]

mod rehearsal;

pub use rehearsal::{Rehearsal, rehearse};
