//! What is told of a value in place of the value.
ghost use Rattle.std.specs.Prelude.{◌≡◌};
ghost use Rattle.ion_model.specs.Outlines.{outline_of};

use crate::value::Value;
use ion_atoms::Kind;

/// What sort of value a value is, and how large it is.
#[derive(Debug, Clone, Copy, Drop, PartialEq, Eq)]
pub struct Outline {
    pub kind: Kind,
    /// How deep the value goes, as `Value::depth` has it.
    pub depth: u64,
    /// Of how many nodes it is made, as `Value::nodes` has it.
    pub nodes: u64,
}

impl Value {
    /// The value's kind, its depth and its number of nodes. Takes no memory. Calls itself once for
    /// each level.
    pub fn outline(&self) -> Outline
        ensures { result ≡ outline_of self.now }
    {
        Outline {
            kind: self.kind(),
            depth: self.depth(),
            nodes: self.nodes(),
        }
    }
}
