//! Copies of values.
ghost use Rattle.std.specs.Prelude.{◌≡◌, MatchResult};
ghost use Rattle.ion_atoms.specs.declared.refusal.Reason.TheVariants as reasons;

use crate::sequence::Sequence;
use crate::symbol::Symbol;
use crate::value::{Field, Payload, Value};
use ion_atoms::Reason;
use std::alloc::Global;

impl Value {
    /// An equal value, which shares the texts of its symbols. The only refusal is `Memory`. Calls
    /// itself once for each level.
    pub fn copy(&self, alloc: Global) -> Result<Value, Reason>
        ensures { MatchResult result (λ v. v ≡ self.now) (λ r. r ≡ reasons.Memory) }
    {
        copy_value(alloc, self)
    }
}

fn copy_symbols(alloc: Global, symbols: &Sequence<Symbol>) -> Result<Sequence<Symbol>, Reason>
    ensures { MatchResult result (λ v. v ≡ symbols.now) (λ r. r ≡ reasons.Memory) }
{
    let mut copies = Vec::with_capacity(alloc, symbols.len())?;
    for symbol in symbols.as_slice() {
        copies.push(symbol.copy()?)?;
    }
    Ok(Sequence::from_vec(copies))
}

#[cycle(copy)]
fn copy_value(alloc: Global, value: &Value) -> Result<Value, Reason>
    ensures { MatchResult result (λ v. v ≡ value.now) (λ r. r ≡ reasons.Memory) }
{
    let annotations = copy_symbols(alloc, &value.annotations)?;
    let payload = copy_payload(alloc, &value.payload)?;
    Ok(Value {
        annotations,
        payload,
    })
}

#[cycle(copy)]
fn copy_payload(alloc: Global, payload: &Payload) -> Result<Payload, Reason>
    ensures { MatchResult result (λ p. p ≡ payload.now) (λ r. r ≡ reasons.Memory) }
{
    match payload {
        Payload::Null(kind) => Ok(Payload::Null(*kind)),
        Payload::Truth(truth) => Ok(Payload::Truth(*truth)),
        Payload::Int(int) => Ok(Payload::Int(*int)),
        Payload::Decimal(decimal) => Ok(Payload::Decimal(*decimal)),
        Payload::Timestamp(timestamp) => Ok(Payload::Timestamp(*timestamp)),
        Payload::Symbol(symbol) => Ok(Payload::Symbol(symbol.copy()?)),
        Payload::Str(text) => Ok(Payload::Str(text.copy()?)),
        Payload::Clob(octets) => Ok(Payload::Clob(octets.copy()?)),
        Payload::Blob(octets) => Ok(Payload::Blob(octets.copy()?)),
        Payload::List(items) => Ok(Payload::List(copy_items(alloc, items)?)),
        Payload::Sexp(items) => Ok(Payload::Sexp(copy_items(alloc, items)?)),
        Payload::Fields(fields) => Ok(Payload::Fields(copy_fields(alloc, fields)?)),
    }
}

#[cycle(copy)]
fn copy_items(alloc: Global, items: &Sequence<Value>) -> Result<Sequence<Value>, Reason>
    ensures { MatchResult result (λ v. v ≡ items.now) (λ r. r ≡ reasons.Memory) }
{
    let mut copies = Vec::with_capacity(alloc, items.len())?;
    for item in items.as_slice() {
        copies.push(copy_value(alloc, item)?)?;
    }
    Ok(Sequence::from_vec(copies))
}

#[cycle(copy)]
pub(crate) fn copy_fields(
    alloc: Global,
    fields: &Sequence<Field>,
) -> Result<Sequence<Field>, Reason>
    ensures { MatchResult result (λ v. v ≡ fields.now) (λ r. r ≡ reasons.Memory) }
{
    let mut copies = Vec::with_capacity(alloc, fields.len())?;
    for field in fields.as_slice() {
        let name = field.name.copy()?;
        let value = copy_value(alloc, &field.value)?;
        copies.push(Field { name, value })?;
    }
    Ok(Sequence::from_vec(copies))
}
