//! Values of Amazon Ion 1.0: what they are, how deep and how large, and when two are equivalent;
//! and the reasons for which octets are refused.
#![tactic(auto)]

mod compare;
mod copy;
mod equivalence;
mod hashed;
mod holds;
mod kept;
pub mod laws;
mod making;
mod measures;
mod normal;
mod orders;
mod outline;
mod path;
mod same;
mod sequence;
mod symbol;
mod value;

pub use compare::order;
pub use equivalence::equivalent;
pub use ion_atoms::{
    Bytes, Decimal, Kind, Local, Precision, Reason, Refusal, Text, Timestamp, Whole,
};
pub use normal::normalise;
pub use outline::Outline;
pub use path::{Part, Path, parting};
pub use same::same_slow;
pub use sequence::Sequence;
pub use symbol::Symbol;
pub use value::{Field, Payload, Value};
