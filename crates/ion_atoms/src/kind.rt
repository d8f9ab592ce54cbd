//! The thirteen kinds of values.
ghost use Rattle.std.specs.Prelude.{◌≡◌};
ghost use Rattle.ion_atoms.specs.Kinds.{kind_name, kind_rank};

use std::fmt::{self, Display, Formatter};

/// What sort of value a value is (Ion 1.0, "The Ion Data Model"). The derived order is that of the
/// ranks.
#[derive(Debug, Clone, Copy, PartialEq, Eq, PartialOrd, Ord, Hash)]
pub enum Kind {
    /// The kind of `null` and `null.null`, which are one value.
    Null,
    Bool,
    Int,
    Float,
    Decimal,
    Timestamp,
    Symbol,
    /// The kind of strings.
    Str,
    Clob,
    Blob,
    List,
    /// The kind of s-expressions.
    Sexp,
    /// The kind of structs.
    Fields,
}

impl Kind {
    /// The word of the Ion specification for the kind, as in `null.int`.
    pub fn name(self) -> &'static str
        ensures { result.now ≡ kind_name self }
    {
        match self {
            Kind::Null => "null",
            Kind::Bool => "bool",
            Kind::Int => "int",
            Kind::Float => "float",
            Kind::Decimal => "decimal",
            Kind::Timestamp => "timestamp",
            Kind::Symbol => "symbol",
            Kind::Str => "string",
            Kind::Clob => "clob",
            Kind::Blob => "blob",
            Kind::List => "list",
            Kind::Sexp => "sexp",
            Kind::Fields => "struct",
        }
    }

    /// The place of the kind in the order of kinds: 0 for null to 12 for struct.
    pub fn rank(self) -> u8
        ensures { result ≡ kind_rank self }
    {
        self as u8
    }
}

impl Display for Kind {
    ghost use Rattle.std.specs.Prelude.{Some};
    ghost use Rattle.ion_atoms.specs.Kinds.{kind_name};

    ghost output = { λ k. Some (kind_name k) };

    fn fmt<W: fmt::Write>(&self, f: &mut Formatter<W>) -> fmt::Result {
        f.write_str(self.name())
    }
}
