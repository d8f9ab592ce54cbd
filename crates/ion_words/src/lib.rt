//! What the words of the command line ask for.
//!
//! This crate stands apart from what is done for a request: the library of command lines that it
//! stands on is slow to check.
#![tactic(auto)]

mod command_line;
pub mod laws;
mod request;
mod words;

pub use request::{Request, Task, WordsError};
pub use words::parse;
