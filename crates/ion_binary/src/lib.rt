//! Binary documents of Amazon Ion 1.0 (Ion 1.0, "Ion Binary Encoding").
#![tactic(auto)]

mod binary_out;
mod form;
pub mod laws;
mod lengths;
mod reader;
mod state;
mod walking;
mod writer;

pub use binary_out::BinaryOut;
pub use reader::BinaryReader;
pub use walking::BinaryWalk;
pub use writer::{BinaryWriter, finish_document};
