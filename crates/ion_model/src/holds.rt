//! What a value holds, asked by its kind.
ghost use Rattle.std.specs.Prelude.{◌≡◌, option_map, MatchResult, slice_get, map};
ghost use Rattle.ion_model.specs.Names.{out-Payload};
ghost use Rattle.ion_atoms.specs.declared.refusal.Reason.TheVariants as reasons;
ghost use Rattle.ion_model.specs.Holds.{blob_in, clob_in, decimal_in, fields_in, int_in, items_in, named_in, symbol_in, text_in, timestamp_in, truth_in, values_of};

use crate::symbol::Symbol;
use crate::value::{Field, Payload, Value};
use ion_atoms::{Decimal, Reason, Timestamp, Whole};
use std::alloc::Global;

/// What a value holds. Each call answers `None`, and `fields_named` no values, where the value is of
/// another kind, or a null; none takes memory but `fields_named` (Ion 1.0, "The Ion Data Model").
impl Value {
    /// The bool.
    pub fn as_bool(&self) -> Option<bool>
        ensures { result ≡ truth_in (out-Payload self.now.payload) }
    {
        match &self.payload {
            Payload::Truth(truth) => Some(*truth),
            _ => None,
        }
    }

    /// The int.
    pub fn as_int(&self) -> Option<Whole>
        ensures { result ≡ int_in (out-Payload self.now.payload) }
    {
        match &self.payload {
            Payload::Int(number) => Some(*number),
            _ => None,
        }
    }

    /// The decimal.
    pub fn as_decimal(&self) -> Option<Decimal>
        ensures { result ≡ decimal_in (out-Payload self.now.payload) }
    {
        match &self.payload {
            Payload::Decimal(decimal) => Some(*decimal),
            _ => None,
        }
    }

    /// The timestamp.
    pub fn as_timestamp(&self) -> Option<Timestamp>
        ensures { result ≡ timestamp_in (out-Payload self.now.payload) }
    {
        match &self.payload {
            Payload::Timestamp(timestamp) => Some(*timestamp),
            _ => None,
        }
    }

    /// The symbol.
    pub fn as_symbol(&self) -> Option<&Symbol>
        ensures { option_map (λ s. s.now) result ≡ symbol_in (out-Payload self.now.payload) }
    {
        match &self.payload {
            Payload::Symbol(symbol) => Some(symbol),
            _ => None,
        }
    }

    /// The text of a string; that of a symbol is `as_symbol`'s.
    pub fn as_str(&self) -> Option<&str>
        ensures { option_map (λ t. t.now) result ≡ text_in (out-Payload self.now.payload) }
    {
        match &self.payload {
            Payload::Str(text) => Some(text.as_str()),
            _ => None,
        }
    }

    /// The octets of a clob.
    pub fn as_clob(&self) -> Option<&[u8]>
        ensures { option_map (λ o. o.now) result ≡ clob_in (out-Payload self.now.payload) }
    {
        match &self.payload {
            Payload::Clob(octets) => Some(octets.as_slice()),
            _ => None,
        }
    }

    /// The octets of a blob.
    pub fn as_blob(&self) -> Option<&[u8]>
        ensures { option_map (λ o. o.now) result ≡ blob_in (out-Payload self.now.payload) }
    {
        match &self.payload {
            Payload::Blob(octets) => Some(octets.as_slice()),
            _ => None,
        }
    }

    /// The items of a list or s-expression, in order.
    pub fn items(&self) -> Option<&[Value]>
        ensures { option_map (λ vs. vs.now) result ≡ items_in (out-Payload self.now.payload) }
    {
        match &self.payload {
            Payload::List(items) => Some(items.as_slice()),
            Payload::Sexp(items) => Some(items.as_slice()),
            _ => None,
        }
    }

    /// The fields of a struct, in the order read.
    pub fn fields(&self) -> Option<&[Field]>
        ensures { option_map (λ fs. fs.now) result ≡ fields_in (out-Payload self.now.payload) }
    {
        match &self.payload {
            Payload::Fields(fields) => Some(fields.as_slice()),
            _ => None,
        }
    }

    /// The value of the first field of this name; a struct may have several (`fields_named`).
    pub fn field(&self, name: &str) -> Option<&Value>
        ensures { option_map (λ v. v.now) result
            ≡ slice_get (named_in name.now (out-Payload self.now.payload)) 0 }
    {
        first_named(self.fields()?, name)
    }

    /// The values of all fields of this name, in the order read. The only refusal is `Memory`.
    pub fn fields_named(&self, alloc: Global, name: &str) -> Result<Vec<&Value>, Reason>
        ensures { MatchResult result
            (λ values. map (λ v. v.now) values.items
            ≡ named_in name.now (out-Payload self.now.payload))
            (λ r. r ≡ reasons.Memory) }
    {
        match &self.payload {
            Payload::Fields(fields) => all_named(alloc, fields.as_slice(), name),
            _ => Ok(Vec::new(alloc)),
        }
    }
}

// The value of the first of these fields that has the name.
fn first_named<'a>(fields: &'a [Field], name: &str) -> Option<&'a Value>
    ensures { option_map (λ v. v.now) result ≡ slice_get (values_of name.now fields.now) 0 }
{
    for field in fields {
        if field.name.has_text(name) {
            return Some(&field.value);
        }
    }
    None
}

// The values of all of these fields that have the name.
fn all_named<'a>(alloc: Global, fields: &'a [Field], name: &str) -> Result<Vec<&'a Value>, Reason>
    ensures { MatchResult result
        (λ values. map (λ v. v.now) values.items ≡ values_of name.now fields.now)
        (λ r. r ≡ reasons.Memory) }
{
    let mut values = Vec::new(alloc);
    for field in fields {
        if field.name.has_text(name) {
            values.push(&field.value)?;
        }
    }
    Ok(values)
}
