//! How values are spelled as text (Ion 1.0, "Ion Text Encoding"): what the reader and the writer of
//! text both stand on.
#![tactic(auto)]

mod keywords;
mod quotes;

pub use keywords::{is_keyword, may_be_keyword};
pub use quotes::Quotes;
