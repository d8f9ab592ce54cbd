//! The tests that no row says and that need no reader of documents (`tests_calls` has the others): of
//! values, tokens, devices, and what words ask for. So the gate proves them beside the readers. For
//! callers there is a client of the scanner, whose loop is proved to end.
#![tactic(auto)]

#[cfg(test)]
mod answers;
mod counting;
#[cfg(test)]
mod devices;
#[cfg(test)]
mod events;
#[cfg(test)]
mod layouts;
#[cfg(test)]
mod model;
#[cfg(test)]
mod scanner;
#[cfg(test)]
mod tables;
#[cfg(test)]
mod tapes;
#[cfg(test)]
mod values;
#[cfg(test)]
mod words;

pub use counting::{Count, Uncounted, count_piece};
