//! What values of Amazon Ion 1.0 consist of, but for symbols and values themselves: kinds, ints,
//! decimals, timestamps and texts; and the reasons for which octets are refused.
#![tactic(auto)]

pub mod bounds;
pub mod calendar;
mod decimal;
mod display;
mod halves;
mod int;
mod kind;
mod let_go;
pub mod order_laws;
mod orders;
mod refusal;
mod text;
pub mod time_laws;
mod timestamp;

pub use decimal::Decimal;
pub use int::Whole;
pub use kind::Kind;
pub use let_go::LetGo;
pub use refusal::{Reason, Refusal};
pub use text::{Bytes, Text};
pub use timestamp::{Local, Precision, Timestamp};
