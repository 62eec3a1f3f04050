//! What a process is: rows of a fixed number of cells, a fixed number of choices, and where each choice leads.
#![tactic(auto)]

mod limits;
mod numbered;
mod process;
mod refusal;

pub use limits::Limits;
pub use numbered::Numbered;
pub use process::Process;
pub use refusal::Refusal;
