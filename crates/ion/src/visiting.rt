//! What a visitor of one's own needs to be told documents, event by event, by `visit`.

pub use ion_scalar::Number;
pub use ion_visiting::{Bracket, Building, NumberBody, Part, Tape, Twin, Visitor, tell};
