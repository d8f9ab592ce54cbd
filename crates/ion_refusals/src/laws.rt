//! Laws of refusals, of both encodings. Each stands on an empty function: its contract is the law.
mod binary;
mod text;

pub use binary::refusals;
pub use text::deciding;
