//! What opens and closes around values.

/// What opens and closes around items or fields.
#[derive(Clone, Copy, PartialEq, Eq)]
pub enum Bracket {
    List,
    Sexp,
    Fields,
}
