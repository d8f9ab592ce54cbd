//! What values feed a hasher: every part of them, at every depth.
ghost use Rattle.std.specs.Prelude.{◌≡◌, fold};
ghost use Rattle.std.specs.Hash as fed;
ghost use Rattle.ion_model.specs.Names.{layer_kind, out-Payload, scalar};
ghost use Rattle.ion_model.specs.Hashed.{field_hashed, hashed, head_fed, layer_fed, octets_fed};
ghost use Rattle.ion_model.specs.laws.Hashed.{values_alike};

use crate::compare::is_full;
use crate::value::{Field, Payload, Value};
use std::hash::{Hash, Hasher};

/// Values that are `==` feed a hasher alike. Equivalent ones may not, where fields stand in another
/// order: `normalise` them first.
// Calls itself once for each level (`Value`).
impl Hash for Value {
    ghost hash_input = { hashed };

    ghost respects_eq = { values_alike };

    fn hash<H: Hasher>(&self, state: &mut H) {
        hash_value(self, state);
    }
}

#[cycle(hashed)]
fn hash_value<H: Hasher>(value: &Value, state: &mut H)
    ensures { state.new ≡ fold H.write state.old (hashed value.now) }
{
    value.annotations.as_slice().hash(state);
    hash_payload(value, state);
}

#[cycle(hashed)]
fn hash_payload<H: Hasher>(value: &Value, state: &mut H)
    ensures { let layer = out-Payload value.now.payload in
        state.new ≡ fold H.write state.old (layer_fed field_hashed hashed layer) }
{
    hash_head(value, state);
    match &value.payload {
        Payload::Null(_) => {}
        Payload::Truth(truth) => truth.hash(state),
        Payload::Int(int) => int.get().hash(state),
        Payload::Decimal(decimal) => decimal.hash(state),
        Payload::Timestamp(timestamp) => timestamp.hash(state),
        Payload::Symbol(symbol) => symbol.hash(state),
        Payload::Str(text) => text.as_str().hash(state),
        Payload::Clob(octets) => hash_octets(octets.as_slice(), state),
        Payload::Blob(octets) => hash_octets(octets.as_slice(), state),
        Payload::List(items) => hash_items(items.as_slice(), state),
        Payload::Sexp(items) => hash_items(items.as_slice(), state),
        Payload::Fields(fields) => hash_fields(fields.as_slice(), state),
    }
}

// A payload's kind, and whether it is no null.
fn hash_head<H: Hasher>(value: &Value, state: &mut H)
    ensures { let layer = out-Payload value.now.payload in
        state.new ≡ fold H.write state.old (head_fed (layer_kind layer) (scalar layer).full) }
{
    value.kind().rank().hash(state);
    is_full(&value.payload).hash(state);
}

// All octets go in one write, which takes less time than one for each.
fn hash_octets<H: Hasher>(octets: &[u8], state: &mut H)
    ensures { state.new ≡ fold H.write state.old (octets_fed octets.now) }
{
    octets.len().hash(state);
    state.write(octets);
}

#[cycle(hashed)]
fn hash_items<H: Hasher>(items: &[Value], state: &mut H)
    ensures { state.new ≡ fold H.write state.old (fed.slice hashed items.now) }
{
    items.len().hash(state);
    for item in items {
        hash_value(item, state);
    }
}

#[cycle(hashed)]
fn hash_fields<H: Hasher>(fields: &[Field], state: &mut H)
    ensures { state.new ≡ fold H.write state.old (fed.slice field_hashed fields.now) }
{
    fields.len().hash(state);
    for field in fields {
        field.name.hash(state);
        hash_value(&field.value, state);
    }
}
