//! Whether two values are equivalent, by pairs of fields or by normal forms of structs.
ghost use Rattle.std.specs.Prelude.{◌≡◌, ◌≤◌, true, false, Ok, Some, MatchResult, MatchOption, length, slice_get};
ghost use Rattle.std.specs.declared.cmp.Ordering.TheVariants.{Equal};
ghost use Rattle.std.specs.Ordering.{is_eq};
ghost use Rattle.std.specs.Cmp.Lexicographic.{slice_cmp};
ghost use lib.Pointwise.{pointwise};
ghost use Rattle.ion_model.specs.Names.{AreNormalOf, field_cmp, fields_same, layer_same, order, out-Payload, same};
ghost use Rattle.ion_atoms.specs.declared.refusal.Reason.TheVariants as reasons;

use crate::compare::{order, order_fields};
use crate::copy::copy_fields;
use crate::normal::tidy_fields;
use crate::same::{same_payload, same_symbols};
use crate::sequence::Sequence;
use crate::value::{Field, Payload, Value};
use ion_atoms::Reason;
use std::alloc::Global;

// How many fields may be paired off, which compares some n² names.
const MOST_PAIRED: usize = 64;

/// Whether two values are equivalent, as `same_slow` says. The only refusal is `Memory`. Values
/// that agree part by part, fields as they stand, take no memory. Others are compared as they stand
/// down to their structs. In two structs of 64 fields each at most, a field of the one is paired
/// with the first of its name that the other has left; where all pairs agree as they stand, that
/// takes no memory either. Other structs of n fields each are copied, their fields sorted, inner
/// levels first, and then compared, which costs some n log n comparisons of fields. Calls itself
/// once for each level.
pub fn equivalent(alloc: Global, a: &Value, b: &Value) -> Result<bool, Reason>
    ensures same { MatchResult result (λ r. r ≡ same a.now b.now) (λ e. e ≡ reasons.Memory) }
    ensures free { order a.now b.now ≡ Equal → result ≡ Ok true }
{
    if order(a, b).is_eq() {
        return Ok(true);
    }
    equivalent_value(alloc, a, b)
}

#[cycle(equivalent)]
fn equivalent_value(alloc: Global, a: &Value, b: &Value) -> Result<bool, Reason>
    ensures { MatchResult result (λ r. r ≡ same a.now b.now) (λ e. e ≡ reasons.Memory) }
{
    if !same_symbols(a.annotations.as_slice(), b.annotations.as_slice()) {
        return Ok(false);
    }
    equivalent_payload(alloc, a, b)
}

#[cycle(equivalent)]
fn equivalent_payload(alloc: Global, a: &Value, b: &Value) -> Result<bool, Reason>
    ensures { MatchResult result
        (λ r. r ≡ layer_same same (out-Payload a.now.payload) (out-Payload b.now.payload))
        (λ e. e ≡ reasons.Memory) }
{
    match (&a.payload, &b.payload) {
        (Payload::List(vs), Payload::List(ws)) => {
            equivalent_items(alloc, vs.as_slice(), ws.as_slice())
        }
        (Payload::Sexp(vs), Payload::Sexp(ws)) => {
            equivalent_items(alloc, vs.as_slice(), ws.as_slice())
        }
        (Payload::Fields(fs), Payload::Fields(gs)) => equivalent_fields(alloc, fs, gs),
        _ => Ok(same_payload(a, b)),
    }
}

#[cycle(equivalent)]
fn equivalent_items(alloc: Global, vs: &[Value], ws: &[Value]) -> Result<bool, Reason>
    ensures { MatchResult result (λ r. r ≡ pointwise same vs.now ws.now) (λ e. e ≡ reasons.Memory) }
{
    if vs.len() != ws.len() {
        return Ok(false);
    }
    for (i, item) in vs.iter().enumerate() {
        if !equivalent_value(alloc, item, &ws[i])? {
            return Ok(false);
        }
    }
    Ok(true)
}

fn equivalent_fields(
    alloc: Global,
    fs: &Sequence<Field>,
    gs: &Sequence<Field>,
) -> Result<bool, Reason>
    ensures { MatchResult result (λ r. r ≡ fields_same same fs.now gs.now)
        (λ e. e ≡ reasons.Memory) }
{
    if fs.len() != gs.len() {
        return Ok(false);
    }
    if are_reordered(fs.as_slice(), gs.as_slice()) {
        return Ok(true);
    }
    let left = sorted(alloc, fs)?;
    let right = sorted(alloc, gs)?;
    Ok(tied(&left, &right))
}

// Whether these are few fields, and those of the other struct in some order, each value as it
// stands there. Of the fields of one name only the first that is left is tried, so that each value
// is compared once at most.
fn are_reordered(fs: &[Field], gs: &[Field]) -> bool
    requires { length fs.now ≡ length gs.now }
    ensures { result ≡ true → fields_same same fs.now gs.now ≡ true }
{
    if gs.len() > MOST_PAIRED {
        return false;
    }
    let mut paired = [false; MOST_PAIRED];
    for field in fs {
        match partner(field, gs, &paired) {
            None => return false,
            Some(at) => paired[at] = true,
        }
    }
    true
}

// The place of the first field of this name that isn't paired yet, if its value is this one's.
fn partner(field: &Field, gs: &[Field], paired: &[bool]) -> Option<usize>
    requires { length gs.now ≤ length paired.now }
    ensures { MatchOption result (Unit {0}) (λ at. (slice_get gs.now at ≡ Some field.now)
        × (slice_get paired.now at ≡ Some false)) }
{
    for (at, other) in gs.iter().enumerate() {
        if !paired[at] && field.name.same(&other.name) {
            if order(&field.value, &other.value).is_eq() {
                return Some(at);
            }
            return None;
        }
    }
    None
}

// The fields in ascending order, their values in normal form.
pub(crate) fn sorted(alloc: Global, fields: &Sequence<Field>) -> Result<Vec<Field>, Reason>
    ensures { MatchResult result (λ rows. AreNormalOf rows.items fields.now)
        (λ e. e ≡ reasons.Memory) }
{
    let mut rows = copy_fields(alloc, fields)?.into_vec();
    match tidy_fields(alloc, &mut rows) {
        Ok(()) => Ok(rows),
        Err(_) => Err(Reason::Memory),
    }
}

fn tied(fs: &[Field], gs: &[Field]) -> bool
    ensures { result ≡ is_eq (slice_cmp (field_cmp order) fs.now gs.now) }
{
    order_fields(fs, gs).is_eq()
}
