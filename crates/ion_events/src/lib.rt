//! Events laid out as entries of 16 octets, with the octets of their texts behind them
//! (docs/EVENTS.md).
#![tactic(auto)]

mod codes;
mod draft;
mod entry;
mod laid;
pub mod laws;
mod laying;
mod numbers;

pub use draft::Draft;
pub use entry::{Entry, Place, read_entry, spell};
pub use laid::Laid;
pub use laying::Laying;
pub use numbers::lay_number;
