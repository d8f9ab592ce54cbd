//! The order of values.
ghost use Rattle.std.specs.Prelude.{◌≡◌};
ghost use Rattle.std.specs.Cmp.Lexicographic.{slice_cmp};
ghost use Rattle.ion_model.specs.Names.{field_cmp, heads_cmp, layer_cmp, order, out-Payload, scalar};

use crate::value::{Field, Payload, Value};
use std::cmp::Ordering;

/// The order of values: by kind, a null before the rest, then the payload, then the annotations.
/// Bools go false first, ints by value, decimals by exponent, minus and magnitude, timestamps by
/// precision, offset and local fields, symbols, strings, clobs and blobs by octets, an unknown
/// symbol first, and all else item by item, a proper prefix first; the fields of a struct as they
/// stand, each by name and then by value. It is `Equal` just for equal values. Takes no memory.
/// Calls itself once for each level (`Value`).
pub fn order(a: &Value, b: &Value) -> Ordering
    ensures { result ≡ order a.now b.now }
{
    order_value(a, b)
}

#[cycle(order)]
pub(crate) fn order_value(a: &Value, b: &Value) -> Ordering
    ensures { result ≡ order a.now b.now }
{
    match order_payload(&a.payload, &b.payload) {
        Ordering::Equal => a.annotations.as_slice().cmp(b.annotations.as_slice()),
        other => other,
    }
}

pub(crate) fn is_full(payload: &Payload) -> bool
    ensures { result ≡ (scalar (out-Payload payload.now)).full }
{
    match payload {
        Payload::Null(_) => false,
        _ => true,
    }
}

// By kind, a null first.
fn order_heads(a: &Payload, b: &Payload) -> Ordering
    ensures { result ≡ heads_cmp (out-Payload a.now) (out-Payload b.now) }
{
    a.kind()
        .rank()
        .cmp(&b.kind().rank())
        .then(is_full(a).cmp(&is_full(b)))
}

#[tactic(auto, using(crate::proofs::Heads::kinds))]
#[cycle(order)]
pub(crate) fn order_payload(a: &Payload, b: &Payload) -> Ordering
    ensures { result ≡ layer_cmp order (out-Payload a.now) (out-Payload b.now) }
{
    match (a, b) {
        (Payload::Truth(s), Payload::Truth(t)) => s.cmp(t),
        (Payload::Int(y), Payload::Int(z)) => y.get().cmp(&z.get()),
        (Payload::Decimal(d), Payload::Decimal(e)) => d.order(*e),
        (Payload::Timestamp(s), Payload::Timestamp(t)) => s.order(*t),
        (Payload::Symbol(s), Payload::Symbol(t)) => s.order(t),
        (Payload::Str(s), Payload::Str(t)) => s.as_str().cmp(t.as_str()),
        (Payload::Clob(s), Payload::Clob(t)) => s.as_slice().cmp(t.as_slice()),
        (Payload::Blob(s), Payload::Blob(t)) => s.as_slice().cmp(t.as_slice()),
        (Payload::List(vs), Payload::List(ws)) => order_items(vs.as_slice(), ws.as_slice()),
        (Payload::Sexp(vs), Payload::Sexp(ws)) => order_items(vs.as_slice(), ws.as_slice()),
        (Payload::Fields(fs), Payload::Fields(gs)) => order_fields(fs.as_slice(), gs.as_slice()),
        _ => order_heads(a, b),
    }
}

#[cycle(order)]
fn order_items(a: &[Value], b: &[Value]) -> Ordering
    ensures { result ≡ slice_cmp order a.now b.now }
{
    for (i, item) in a.iter().enumerate() {
        if i == b.len() {
            return Ordering::Greater;
        }
        match order_value(item, &b[i]) {
            Ordering::Equal => {}
            other => return other,
        }
    }
    if a.len() < b.len() {
        Ordering::Less
    } else {
        Ordering::Equal
    }
}

#[cycle(order)]
pub(crate) fn order_field(a: &Field, b: &Field) -> Ordering
    ensures { result ≡ field_cmp order a.now b.now }
{
    match a.name.order(&b.name) {
        Ordering::Equal => order_value(&a.value, &b.value),
        other => other,
    }
}

#[cycle(order)]
pub(crate) fn order_fields(a: &[Field], b: &[Field]) -> Ordering
    ensures { result ≡ slice_cmp (field_cmp order) a.now b.now }
{
    for (i, field) in a.iter().enumerate() {
        if i == b.len() {
            return Ordering::Greater;
        }
        match order_field(field, &b[i]) {
            Ordering::Equal => {}
            other => return other,
        }
    }
    if a.len() < b.len() {
        Ordering::Less
    } else {
        Ordering::Equal
    }
}
