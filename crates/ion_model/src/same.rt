//! Whether two values are equivalent, by the definition.
ghost use Rattle.std.specs.Prelude.{◌≡◌};
ghost use lib.Pointwise.{pointwise};
ghost use Rattle.ion_model.specs.Names.{counts_agree, field_count, fields_same, layer_same, out-Payload, same, symbol_same};

use crate::symbol::Symbol;
use crate::value::{Field, Payload, Value};

/// Whether two values are equivalent: their annotations agree in order, their kinds agree, both are
/// null or neither is, scalars agree in every part, lists and s-expressions are as long and agree
/// place by place, and every field of either struct stands as often in the one as in the other (Ion
/// 1.0, "The Ion Data Model"). Takes no memory; a struct of n fields costs some n² comparisons. Calls
/// itself once for each level.
pub fn same_slow(a: &Value, b: &Value) -> bool
    ensures { result ≡ same a.now b.now }
{
    same_value(a, b)
}

pub(crate) fn same_symbols(a: &[Symbol], b: &[Symbol]) -> bool
    ensures { result ≡ pointwise symbol_same a.now b.now }
{
    if a.len() != b.len() {
        return false;
    }
    for (i, symbol) in a.iter().enumerate() {
        if !symbol.same(&b[i]) {
            return false;
        }
    }
    true
}

#[cycle(same)]
fn same_value(a: &Value, b: &Value) -> bool
    ensures { result ≡ same a.now b.now }
{
    same_symbols(a.annotations.as_slice(), b.annotations.as_slice()) && same_payload(a, b)
}

#[tactic(auto, using(crate::proofs::ByKind::kinds))]
#[cycle(same)]
pub(crate) fn same_payload(a: &Value, b: &Value) -> bool
    ensures { result ≡ layer_same same (out-Payload a.now.payload) (out-Payload b.now.payload) }
{
    match (&a.payload, &b.payload) {
        (Payload::Null(k), Payload::Null(l)) => k.rank() == l.rank(),
        (Payload::Truth(s), Payload::Truth(t)) => *s == *t,
        (Payload::Int(y), Payload::Int(z)) => y.get() == z.get(),
        (Payload::Decimal(d), Payload::Decimal(e)) => d.same(*e),
        (Payload::Timestamp(s), Payload::Timestamp(t)) => s.same(*t),
        (Payload::Symbol(s), Payload::Symbol(t)) => s.same(t),
        (Payload::Str(s), Payload::Str(t)) => s.as_str() == t.as_str(),
        (Payload::Clob(s), Payload::Clob(t)) => s.as_slice() == t.as_slice(),
        (Payload::Blob(s), Payload::Blob(t)) => s.as_slice() == t.as_slice(),
        (Payload::List(vs), Payload::List(ws)) => same_items(vs.as_slice(), ws.as_slice()),
        (Payload::Sexp(vs), Payload::Sexp(ws)) => same_items(vs.as_slice(), ws.as_slice()),
        (Payload::Fields(fs), Payload::Fields(gs)) => same_fields(fs.as_slice(), gs.as_slice()),
        _ => false,
    }
}

#[cycle(same)]
fn same_items(vs: &[Value], ws: &[Value]) -> bool
    ensures { result ≡ pointwise same vs.now ws.now }
{
    if vs.len() != ws.len() {
        return false;
    }
    for (i, item) in vs.iter().enumerate() {
        if !same_value(item, &ws[i]) {
            return false;
        }
    }
    true
}

#[cycle(same)]
fn same_fields(a: &[Field], b: &[Field]) -> bool
    ensures { result ≡ fields_same same a.now b.now }
{
    agree(a, b, a) && agree(a, b, b)
}

// Whether each of these stands as often among the first as among the second.
#[cycle(same)]
fn agree(a: &[Field], b: &[Field], of: &[Field]) -> bool
    ensures { result ≡ counts_agree same a.now b.now of.now }
{
    for field in of {
        if count(a, field) != count(b, field) {
            return false;
        }
    }
    true
}

// How often a field stands among these.
#[cycle(same)]
fn count(fields: &[Field], of: &Field) -> usize
    ensures { result ≡ field_count same fields.now of.now }
{
    let mut n = 0usize;
    for field in fields {
        if of.name.same(&field.name) && same_value(&of.value, &field.value) {
            n += 1;
        }
    }
    n
}
