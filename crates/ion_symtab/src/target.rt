//! What documents are converted to.

/// The encoding of Ion 1.0 that a document is converted to.
#[derive(Clone, Copy, Debug, PartialEq, Eq)]
pub enum Target {
    /// The binary encoding (Ion 1.0, "Ion Binary Encoding").
    Binary,
    /// The text encoding (Ion 1.0, "Ion Text Encoding").
    Text,
}
