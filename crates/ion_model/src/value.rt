//! Values, as the Ion data model has them.
ghost use Rattle.std.specs.Prelude.{◌≡◌};
ghost use Rattle.ion_model.specs.Names.{bare, is_table, kind_of, layer_kind, out-Payload};

use crate::sequence::Sequence;
use crate::symbol::Symbol;
use ion_atoms::{Bytes, Decimal, Kind, Text, Timestamp, Whole};
use std::alloc::Global;

/// A value (Ion 1.0, "The Ion Data Model").
///
/// What goes through a value, or lets it go, calls itself once for each level of containers. The
/// values that readers give are 128 levels deep at most (`Limits` of `ion_symtab`); on a stack of 8
/// MiB those of 10,000 levels went through every call.
#[cycle(value)]
#[derive(Debug, Drop)]
pub struct Value {
    /// The annotations, in the order in which they stand before the payload.
    pub annotations: Sequence<Symbol>,
    pub payload: Payload,
}

/// A value without its annotations.
#[cycle(value)]
#[derive(Debug, Drop)]
pub enum Payload {
    /// The null of a kind; `null` and `null.null` are that of `Kind::Null`.
    Null(Kind),
    Truth(bool),
    Int(Whole),
    Decimal(Decimal),
    Timestamp(Timestamp),
    Symbol(Symbol),
    Str(Text),
    Clob(Bytes),
    Blob(Bytes),
    /// The items in order.
    List(Sequence<Value>),
    /// The items in order.
    Sexp(Sequence<Value>),
    /// The fields of a struct, in the order read; a name may repeat.
    Fields(Sequence<Field>),
}

/// A field of a struct.
#[cycle(value)]
#[derive(Debug, Drop)]
pub struct Field {
    pub name: Symbol,
    pub value: Value,
}

// each value has room for the largest payload, and is moved on its way out of a reader
const _: () = prove!(size_of::<Payload>() == 40);

const _: () = prove!(size_of::<Value>() == 64);

const _: () = prove!(size_of::<Field>() == 80);

impl Value {
    /// The value without annotations. Takes no memory.
    #[inline(always)]
    pub fn bare(alloc: Global, payload: Payload) -> Value
        ensures { result ≡ bare payload }
    {
        Value {
            annotations: Sequence::new(alloc),
            payload,
        }
    }

    /// The kind of the value; a null has the kind that it is the null of. Takes no memory.
    pub fn kind(&self) -> Kind
        ensures { result ≡ kind_of self.now }
    {
        self.payload.kind()
    }

    /// Whether the value is a local symbol table where it stands at the top level: its first
    /// annotation has the text `$ion_symbol_table`, and its kind is that of structs, null or not
    /// (Ion 1.0, "Symbols", "Local Symbol Tables"). Takes no memory.
    pub fn is_table(&self) -> bool
        ensures { result ≡ is_table self.now }
    {
        match self.annotations.as_slice().first() {
            None => false,
            Some(symbol) => symbol.names_table() && self.kind() == Kind::Fields,
        }
    }
}

impl Payload {
    /// The kind of the values that hold it; that of a null is the kind that it is the null of.
    /// Takes no memory.
    pub fn kind(&self) -> Kind
        ensures { result ≡ layer_kind (out-Payload self.now) }
    {
        match self {
            Payload::Null(kind) => *kind,
            Payload::Truth(_) => Kind::Bool,
            Payload::Int(_) => Kind::Int,
            Payload::Decimal(_) => Kind::Decimal,
            Payload::Timestamp(_) => Kind::Timestamp,
            Payload::Symbol(_) => Kind::Symbol,
            Payload::Str(_) => Kind::Str,
            Payload::Clob(_) => Kind::Clob,
            Payload::Blob(_) => Kind::Blob,
            Payload::List(_) => Kind::List,
            Payload::Sexp(_) => Kind::Sexp,
            Payload::Fields(_) => Kind::Fields,
        }
    }
}
