//! Runs of a process: opened, pressed, looked at, asked for their openings, and closed.
#![tactic(auto)]

mod closed;
mod exchange;
mod perform;
mod run;
mod standing;

pub use closed::ClosedRun;
pub use exchange::{Call, Exchange, Reply};
pub use perform::{make, play};
pub use run::Run;
