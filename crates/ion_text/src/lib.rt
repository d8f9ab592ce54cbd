//! Documents of Ion text (Ion 1.0, "Ion Text Encoding"): what they are, and their reader.
#![tactic(auto)]

pub mod laws;
mod long_text;
mod reader;
mod reasons;
mod state;
mod tokens;
mod walk;
mod words;

pub use reader::TextReader;
pub use walk::TextWalk;
