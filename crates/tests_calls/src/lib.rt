//! The tests that no row says (`tests_rows` has those): of the libraries' calls and what they hold
//! between two of them, of devices that fail, of the command's words, lines and statuses, and of
//! want of memory. Tests stand above the crates, so that the gate proves each once, and not once
//! more beside its tests.
#![tactic(auto)]

#[cfg(test)]
mod answers;
#[cfg(test)]
mod binary_out;
#[cfg(test)]
mod errors;
#[cfg(test)]
mod faults;
mod held;
#[cfg(test)]
mod lines;
#[cfg(test)]
mod memory;
#[cfg(test)]
mod readers;
#[cfg(test)]
mod starved;
#[cfg(test)]
mod steps;
#[cfg(test)]
mod streams;
#[cfg(test)]
mod text_out;
mod wanted;
#[cfg(test)]
mod writers;

pub use held::{Held, held_behind};
pub use wanted::{Row, Wanted};
