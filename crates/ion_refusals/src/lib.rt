//! Which octets of a document are refused, and why: the rows of the format's tables. There is no code
//! here, and no code stands on it.
#![tactic(auto)]

pub mod laws;
