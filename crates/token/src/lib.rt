//! Token drawings as processes.
#![tactic(auto)]

mod act;
mod allowing;
mod changes;
mod making;
mod marking;
mod place;
mod playing;
mod reading;
mod rows;
mod rules;
mod token_drawing;

pub use act::Act;
pub use place::Place;
pub use token_drawing::TokenDrawing;
