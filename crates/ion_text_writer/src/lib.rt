//! The writer of documents of Ion text (Ion 1.0, "Ion Text Encoding").
#![tactic(auto)]

mod brackets;
mod display;
mod escape;
pub mod laws;
mod scalar;
mod spelled;
mod text_out;
mod writer;

pub use display::{SymbolText, spelling_of};
pub use scalar::symbol_text;
pub use spelled::text_of;
pub use text_out::TextOut;
pub use writer::TextWriter;
