//! What the command does with its words: over the files and the standard streams of a process, or
//! over any sources and devices.
#![tactic(auto)]

mod arguments;
mod command;
mod files;
mod hashers;
mod history;
mod lines;
mod sources;

pub use arguments::run_arguments;
pub use command::{Status, refuse_words, run, run_with_hasher};
pub use files::{FileSystem, Opened, RandomHasher, words_given};
pub use hashers::{FixedHasher, Hashers};
pub use history::NameHistory;
pub use lines::Whose;
pub use sources::Sources;
