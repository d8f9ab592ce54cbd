//! Telling a visitor a value that was built.
ghost use Rattle.std.specs.Prelude.{◌≡◌, true, map};
ghost use Rattle.std.specs.List.{flat_map};
ghost use Rattle.ion_visiting.specs.Names.{Fields, Led, annotation, events_of, field_events, layer_events, name, out-Payload, part, within};
ghost use Rattle.ion_model.specs.declared.value.Payload.TheVariants as payloads;

use crate::bracket::Bracket;
use crate::part::Part;
use crate::visitor::Visitor;
use ion_model::{Field, Payload, Symbol, Value};
use ion_scalar::Number;

/// Tells a visitor the events of a value, but not that it ended. `false` where the visitor answered
/// so: it isn't told the rest then. Takes no memory by itself. Calls itself once for each level.
#[cycle(tell)]
pub fn tell<V: Visitor>(value: &Value, visitor: &mut V) -> bool
    ensures { result ≡ true → Led V.takes (events_of value.now) visitor.old visitor.new }
{
    tell_annotations(value.annotations.as_slice(), visitor) && tell_payload(&value.payload, visitor)
}

/// Tells a visitor annotations.
pub(crate) fn tell_annotations<V: Visitor>(symbols: &[Symbol], visitor: &mut V) -> bool
    ensures { result ≡ true → Led V.takes (map annotation symbols.now) visitor.old visitor.new }
{
    for symbol in symbols {
        if !tell_annotation(symbol, visitor) {
            return false;
        }
    }
    true
}

#[inline(always)]
pub(crate) fn tell_annotation<V: Visitor>(symbol: &Symbol, visitor: &mut V) -> bool
    ensures { result ≡ true → V.takes visitor.old (annotation symbol.now) visitor.new }
{
    visitor.symbol_annotation(symbol)
}

#[inline(always)]
pub(crate) fn tell_name<V: Visitor>(symbol: &Symbol, visitor: &mut V) -> bool
    ensures { result ≡ true → V.takes visitor.old (name symbol.now) visitor.new }
{
    visitor.symbol_name(symbol)
}

#[cycle(tell)]
fn tell_payload<V: Visitor>(payload: &Payload, visitor: &mut V) -> bool
    ensures { result ≡ true →
        Led V.takes (layer_events (out-Payload payload.now)) visitor.old visitor.new }
{
    match payload {
        Payload::Null(kind) => visitor.part(&Part::Null(*kind)),
        Payload::Truth(truth) => visitor.part(&Part::Truth(*truth)),
        Payload::Int(whole) => visitor.number(Number::Int(*whole)),
        Payload::Decimal(decimal) => visitor.number(Number::Decimal(*decimal)),
        Payload::Timestamp(timestamp) => visitor.number(Number::Timestamp(*timestamp)),
        Payload::Symbol(symbol) => tell_symbol(symbol, visitor),
        Payload::Str(text) => visitor.part(&Part::Str(text.as_str())),
        Payload::Clob(octets) => visitor.part(&Part::Clob(octets.as_slice())),
        Payload::Blob(octets) => visitor.part(&Part::Blob(octets.as_slice())),
        Payload::List(items) => tell_items(Bracket::List, items.as_slice(), visitor),
        Payload::Sexp(items) => tell_items(Bracket::Sexp, items.as_slice(), visitor),
        Payload::Fields(fields) => tell_fields(fields.as_slice(), visitor),
    }
}

#[inline(always)]
pub(crate) fn tell_symbol<V: Visitor>(symbol: &Symbol, visitor: &mut V) -> bool
    ensures { result ≡ true →
        V.takes visitor.old (part (payloads.Symbol symbol.now)) visitor.new }
{
    visitor.symbol(symbol)
}

#[cycle(tell)]
fn tell_items<V: Visitor>(bracket: Bracket, items: &[Value], visitor: &mut V) -> bool
    ensures { result ≡ true →
        Led V.takes (within bracket (flat_map events_of items.now)) visitor.old visitor.new }
{
    if !visitor.open(bracket) {
        return false;
    }
    for item in items {
        if !tell(item, visitor) {
            return false;
        }
    }
    visitor.close(bracket)
}

#[cycle(tell)]
fn tell_fields<V: Visitor>(fields: &[Field], visitor: &mut V) -> bool
    ensures { result ≡ true →
        Led V.takes (within Fields (flat_map field_events fields.now)) visitor.old visitor.new }
{
    if !visitor.open(Bracket::Fields) {
        return false;
    }
    for field in fields {
        if !tell_name(&field.name, visitor) || !tell(&field.value, visitor) {
            return false;
        }
    }
    visitor.close(Bracket::Fields)
}
