//! The rules of token drawings, and drawings that follow them.
#![tactic(auto)]

mod drawing;
mod example;

pub use drawing::draw;
pub use example::retire_worn;
