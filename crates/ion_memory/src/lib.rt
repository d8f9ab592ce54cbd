//! Whole Ion documents that lie in memory: how many values they have, a line for each value,
//! whether two have equivalent streams, and the conversion and the layout of one. The contracts
//! speak of the octets alone.
//!
//! `check`, `show`, `compare`, `convert` and `lay_out` are given a catalog and limits. `checked`,
//! `shown`, `compared`, `converted` and `laid_out` are given the octets of a catalog and numbers,
//! and tell everything by an `Outcome`, for callers in other languages.
#![tactic(auto)]

mod calls;
mod documents;
mod ending;
mod reasons;
mod setting;

pub use calls::{
    Outcome, checked, compared, compared_under, converted, converted_with_hasher, laid_out, shown,
};
pub use documents::{
    Written, check, compare, convert, convert_with_hasher, lay_out, load_catalog, show,
};
pub use ending::{Ending, Whose};
pub use reasons::reason_of_number;
pub use setting::{Setting, set_up};
