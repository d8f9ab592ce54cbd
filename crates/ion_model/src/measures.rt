//! How deep a value goes, and of how many nodes it is made.
ghost use Rattle.std.specs.Prelude.{◌≡◌, ◌-◌, ◌^◌, suc, min, map, sum};
ghost use Rattle.ion_model.specs.Names.{depth, greatest, nodes};

use crate::value::{Field, Payload, Value};

impl Value {
    /// How deep the value goes: 0 for a null or a scalar, for a list, s-expression or struct one
    /// more than for its deepest member, 1 for an empty one. Stops at 2^64-1. Takes no memory.
    /// Calls itself once for each level.
    pub fn depth(&self) -> u64
        ensures { result ≡ min (depth self.now) (2 ^ 64 - 1) }
    {
        value_depth(self)
    }

    /// How many nodes the value is made of: one for itself, one for each annotation and field name,
    /// and those of each member. Stops at 2^64-1. Takes no memory. Calls itself once for each
    /// level.
    pub fn nodes(&self) -> u64
        ensures { result ≡ min (nodes self.now) (2 ^ 64 - 1) }
    {
        value_nodes(self)
    }
}

#[tactic(auto, using(crate::specs::laws::Measures::depths))]
#[cycle(depth)]
fn value_depth(value: &Value) -> u64
    ensures { result ≡ min (depth value.now) (2 ^ 64 - 1) }
{
    match &value.payload {
        Payload::List(items) => items_depth(items.as_slice()).saturating_add(1),
        Payload::Sexp(items) => items_depth(items.as_slice()).saturating_add(1),
        Payload::Fields(fields) => fields_depth(fields.as_slice()).saturating_add(1),
        _ => 0,
    }
}

// The depth of the deepest of these, 0 where there is none.
#[cycle(depth)]
fn items_depth(items: &[Value]) -> u64
    ensures { result ≡ min (greatest (map depth items.now)) (2 ^ 64 - 1) }
{
    let mut deepest = 0;
    for item in items {
        deepest = value_depth(item).max(deepest);
    }
    deepest
}

#[cycle(depth)]
fn fields_depth(fields: &[Field]) -> u64
    ensures { result ≡ min (greatest (map (λ f. depth f.value) fields.now)) (2 ^ 64 - 1) }
{
    let mut deepest = 0;
    for field in fields {
        deepest = value_depth(&field.value).max(deepest);
    }
    deepest
}

#[tactic(auto, using(crate::specs::laws::Measures::node_counts))]
#[cycle(nodes)]
fn value_nodes(value: &Value) -> u64
    ensures { result ≡ min (nodes value.now) (2 ^ 64 - 1) }
{
    let own = (value.annotations.len() as u64).saturating_add(1);
    match &value.payload {
        Payload::List(items) => own.saturating_add(items_nodes(items.as_slice())),
        Payload::Sexp(items) => own.saturating_add(items_nodes(items.as_slice())),
        Payload::Fields(fields) => own.saturating_add(fields_nodes(fields.as_slice())),
        _ => own,
    }
}

// The nodes of all of these together.
#[cycle(nodes)]
fn items_nodes(items: &[Value]) -> u64
    ensures { result ≡ min (sum (map nodes items.now)) (2 ^ 64 - 1) }
{
    let mut total = 0;
    for item in items {
        total = value_nodes(item).saturating_add(total);
    }
    total
}

// The nodes of all of these and their names.
#[cycle(nodes)]
fn fields_nodes(fields: &[Field]) -> u64
    ensures { result ≡ min (sum (map (λ f. suc (nodes f.value)) fields.now)) (2 ^ 64 - 1) }
{
    let mut total: u64 = 0;
    for field in fields {
        total = value_nodes(&field.value)
            .saturating_add(1)
            .saturating_add(total);
    }
    total
}
