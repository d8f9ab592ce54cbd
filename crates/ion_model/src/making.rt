//! Values made in one expression.
ghost use Rattle.std.specs.Prelude.{◌≡◌, ◌++◌, Some, MatchResult, map};
ghost use Rattle.ion_model.specs.Names.{annotated, bare, field_of};
ghost use Rattle.ion_atoms.specs.declared.refusal.Reason.TheVariants as reasons;
ghost use Rattle.ion_model.specs.declared.value.Payload.TheVariants as payloads;

use crate::sequence::Sequence;
use crate::symbol::Symbol;
use crate::value::{Field, Payload, Value};
use ion_atoms::{Bytes, Decimal, Kind, Reason, Text, Timestamp, Whole};
use std::alloc::Global;

/// Values without annotations, made from their parts. Where a call answers a `Result`, its only
/// refusal is `Memory`; the others take no memory (Ion 1.0, "The Ion Data Model").
impl Value {
    /// The null of a kind.
    pub fn null(alloc: Global, kind: Kind) -> Value
        ensures { result ≡ bare (payloads.Null kind) }
    {
        Value::bare(alloc, Payload::Null(kind))
    }

    /// A bool.
    pub fn bool(alloc: Global, truth: bool) -> Value
        ensures { result ≡ bare (payloads.Truth truth) }
    {
        Value::bare(alloc, Payload::Truth(truth))
    }

    /// An int; one of more digits is made of a `Whole`, by `Value::bare`.
    pub fn int(alloc: Global, number: i64) -> Value
        ensures { result ≡ bare (payloads.Int number) }
    {
        match Whole::new(number as i128) {
            Some(whole) => Value::bare(alloc, Payload::Int(whole)),
            None => unreachable!(),
        }
    }

    /// A decimal.
    pub fn decimal(alloc: Global, decimal: Decimal) -> Value
        ensures { result ≡ bare (payloads.Decimal decimal) }
    {
        Value::bare(alloc, Payload::Decimal(decimal))
    }

    /// A timestamp.
    pub fn timestamp(alloc: Global, timestamp: Timestamp) -> Value
        ensures { result ≡ bare (payloads.Timestamp timestamp) }
    {
        Value::bare(alloc, Payload::Timestamp(timestamp))
    }

    /// The symbol of this text; that of unknown text is `Symbol::unknown`, by `Value::bare`.
    pub fn symbol(alloc: Global, text: &str) -> Result<Value, Reason>
        ensures { MatchResult result
            (λ v. v ≡ bare (payloads.Symbol (Some text.now))) (λ r. r ≡ reasons.Memory) }
    {
        let symbol = Symbol::known(alloc, text)?;
        Ok(Value::bare(alloc, Payload::Symbol(symbol)))
    }

    /// A string of this text.
    pub fn string(alloc: Global, text: &str) -> Result<Value, Reason>
        ensures { MatchResult result
            (λ v. v ≡ bare (payloads.Str text.now)) (λ r. r ≡ reasons.Memory) }
    {
        let text = String::from_str(alloc, text)?;
        Ok(Value::bare(alloc, Payload::Str(Text::from_string(text))))
    }

    /// A clob of these octets.
    pub fn clob(alloc: Global, octets: &[u8]) -> Result<Value, Reason>
        ensures { MatchResult result
            (λ v. v ≡ bare (payloads.Clob octets.now)) (λ r. r ≡ reasons.Memory) }
    {
        let octets = octets.to_vec(alloc)?;
        Ok(Value::bare(alloc, Payload::Clob(Bytes::from_vec(octets))))
    }

    /// A blob of these octets.
    pub fn blob(alloc: Global, octets: &[u8]) -> Result<Value, Reason>
        ensures { MatchResult result
            (λ v. v ≡ bare (payloads.Blob octets.now)) (λ r. r ≡ reasons.Memory) }
    {
        let octets = octets.to_vec(alloc)?;
        Ok(Value::bare(alloc, Payload::Blob(Bytes::from_vec(octets))))
    }

    /// A list of these items, in order.
    pub fn list(alloc: Global, items: Vec<Value>) -> Value
        ensures { result ≡ bare (payloads.List items.items) }
    {
        Value::bare(alloc, Payload::List(Sequence::from_vec(items)))
    }

    /// An s-expression of these items, in order.
    pub fn sexp(alloc: Global, items: Vec<Value>) -> Value
        ensures { result ≡ bare (payloads.Sexp items.items) }
    {
        Value::bare(alloc, Payload::Sexp(Sequence::from_vec(items)))
    }

    /// A struct of these fields, each a name and a value, in order; a name may repeat.
    pub fn record(alloc: Global, fields: Vec<(&str, Value)>) -> Result<Value, Reason>
        ensures { MatchResult result
            (λ v. v ≡ bare (payloads.Fields
            (map (λ f. field_of (Some f.0.now) f.1) fields.entry.items)))
            (λ r. r ≡ reasons.Memory) }
    {
        let mut named = Vec::new(alloc);
        for (name, value) in fields {
            let name = Symbol::known(alloc, name)?;
            named.push(Field { name, value })?;
        }
        Ok(Value::bare(alloc, Payload::Fields(Sequence::from_vec(named))))
    }

    /// The value with the annotations of these texts, in order, in place of those that it has.
    pub fn annotated(self, alloc: Global, texts: &[&str]) -> Result<Value, Reason>
        ensures { MatchResult result
            (λ v. v ≡ annotated (map (λ t. Some t.now) texts.now) self.payload)
            (λ r. r ≡ reasons.Memory) }
    {
        let mut annotations = Vec::new(alloc);
        for text in texts {
            annotations.push(Symbol::known(alloc, text)?)?;
        }
        Ok(Value {
            annotations: Sequence::from_vec(annotations),
            payload: self.payload,
        })
    }
}
