//! Lists of a fixed room, which need no memory but their own.
#![tactic(auto)]

mod fixed;

pub use fixed::Fixed;
