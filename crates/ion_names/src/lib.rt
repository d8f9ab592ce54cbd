//! The symbols of a document that is written, and the ids that they get (Ion 1.0, "Symbols").
#![tactic(auto)]

mod name;
mod names;
mod recent_ids;

pub use name::{Name, Text};
pub use names::Names;
pub use recent_ids::{Guesses, place_of};
