//! Normal forms: the fields of each struct in order, inner levels first.
ghost use Rattle.std.specs.Prelude.{◌≡◌, true, IsTrue, OnOk, IfOk, IfErr, MatchResult, IsPermutation};
ghost use lib.Pointwise.{pointwise};
ghost use Rattle.ion_model.specs.Names.{AllFieldsNormal, AllNormal, FieldsInOrder, IsNormal, LayerNormal, field_same, fields_same, layer_same, out-Payload, same};
ghost use Rattle.ion_atoms.specs.declared.refusal.Reason.TheVariants as reasons;

use crate::compare::order_field;
use crate::value::{Field, Payload, Value};
use ion_atoms::Reason;
use std::alloc::{AllocError, Global};

/// The normal form of a value: the fields of every struct in ascending order, inner levels first.
/// It is equivalent to the value, and of two normal forms `order` is `Equal` just where the values
/// are equivalent. The only refusal is `Memory`; the value handed back with it is equivalent to the
/// one given. Calls itself once for each level.
pub fn normalise(alloc: Global, value: Value) -> Result<Value, (Value, Reason)>
    ensures same { MatchResult result (λ v. IsTrue (same v value)) (λ e. IsTrue (same e.0 value)) }
    ensures normal { IfOk result (λ v. IsNormal v) }
    ensures memory { IfErr result (λ e. e.1 ≡ reasons.Memory) }
{
    let mut value = value;
    match tidy(alloc, &mut value) {
        Ok(()) => Ok(value),
        Err(_) => Err((value, Reason::Memory)),
    }
}

#[cycle(tidy)]
fn tidy(alloc: Global, value: &mut Value) -> Result<(), AllocError>
    ensures same { same value.new value.old ≡ true }
    ensures normal { OnOk result (IsNormal value.new) }
{
    tidy_payload(alloc, &mut value.payload)
}

#[cycle(tidy)]
fn tidy_payload(alloc: Global, payload: &mut Payload) -> Result<(), AllocError>
    ensures same { layer_same same (out-Payload payload.new) (out-Payload payload.old) ≡ true }
    ensures normal { OnOk result (LayerNormal (out-Payload payload.new)) }
{
    match payload {
        Payload::List(items) => tidy_values(alloc, &mut items.items),
        Payload::Sexp(items) => tidy_values(alloc, &mut items.items),
        Payload::Fields(fields) => tidy_fields(alloc, &mut fields.items),
        _ => Ok(()),
    }
}

#[cycle(tidy)]
fn tidy_values(alloc: Global, values: &mut Vec<Value>) -> Result<(), AllocError>
    ensures same { pointwise same values.new.items values.old.items ≡ true }
    ensures normal { OnOk result (AllNormal values.new.items) }
{
    for i in 0..values.len() {
        tidy(alloc, &mut values[i])?;
    }
    Ok(())
}

#[cycle(tidy)]
pub(crate) fn tidy_fields(alloc: Global, rows: &mut Vec<Field>) -> Result<(), AllocError>
    ensures same { fields_same same rows.new.items rows.old.items ≡ true }
    ensures inner { OnOk result (AllFieldsNormal rows.new.items) }
    ensures ordered { OnOk result (FieldsInOrder rows.new.items) }
{
    tidy_rows(alloc, rows)?;
    sort_rows(rows)
}

fn sort_rows(rows: &mut Vec<Field>) -> Result<(), AllocError>
    ensures permutation { IsPermutation rows.old.items rows.new.items }
    ensures ordered { OnOk result (FieldsInOrder rows.new.items) }
{
    rows.sort_by(|f, g| order_field(f, g))
}

#[cycle(tidy)]
fn tidy_rows(alloc: Global, rows: &mut Vec<Field>) -> Result<(), AllocError>
    ensures same { pointwise (field_same same) rows.new.items rows.old.items ≡ true }
    ensures inner { OnOk result (AllFieldsNormal rows.new.items) }
{
    for i in 0..rows.len() {
        tidy(alloc, &mut rows[i].value)?;
    }
    Ok(())
}
