//! Token drawings: the tables of nodes and edges that a caller writes, and their examination.
#![tactic(auto)]

mod drawing_fault;
mod edge;
mod examination;
mod kind;
mod mode;
mod node;

pub use drawing_fault::DrawingFault;
pub use edge::{Edge, count_entering, count_leaving};
pub use examination::examine;
pub use kind::Kind;
pub use mode::Mode;
pub use node::Node;
