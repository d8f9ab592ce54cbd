//! Numbers of Amazon Ion 1.0 as octets and as tokens.
#![tactic(auto)]

mod backward;
mod decimal_body;
mod decimals;
mod descriptor;
mod digits;
mod fields;
mod ints;
pub mod laws;
mod number;
mod plain_number;
mod put;
mod short_number;
mod text;
mod timestamp_body;
mod timestamp_usual;
mod timestamp_writer;
mod timestamps;
mod usual_token;

pub use decimal_body::{decimal_of, is_decimal_body};
pub use descriptor::{Descriptor, Size};
pub use fields::{Signed, int_of, is_uint, read_var_int, read_var_uint, uint_of};
pub use ints::split_sign;
pub use number::{Number, number_of};
pub use plain_number::plain_number_of;
pub use put::{put_decimal, put_int, put_uint, put_var_int, put_var_uint};
pub use short_number::ShortNumber;
pub use text::put_number;
pub use timestamp_body::timestamp_of;
pub use timestamp_usual::is_timestamp_body;
pub use timestamp_writer::put_timestamp;
