//! Scalars, whose octets are their body: told apart here alone.
ghost use Rattle.std.specs.Prelude.{◌≡◌, ◌↔◌, IsTrue, Ok, Err, MatchResult, OnOk, IfErr, is_ok, true};
ghost use Rattle.std.specs.Char.{is_ascii};
ghost use Rattle.std.specs.List.{list_all};
ghost use Rattle.std.specs.Str.{IsUtf8};
ghost use Rattle.ion_binary.specs.Names.{Memory, RefusedAs, TellsAs, as_decimal, as_timestamp, decimal_of_body, int_of, judge, number_of, symbol_of, text_of, timestamp_of_body, uint_field};
ghost use Rattle.ion_model.specs.declared.value.Payload.TheVariants as payloads;

use super::heard;
use crate::form::Scalar;
use crate::walking::unread::is_scalar;
use ion_model::{Reason, Symbol, Whole};
use ion_scalar::{Number, decimal_of, is_decimal_body, is_timestamp_body, timestamp_of, uint_of};
use ion_symtab::Context;
use ion_visiting::{NumberBody, Part, TableFilter, Visitor};

/// Tells the scalar that a body is (Ion 1.0, "Ion Binary Encoding", typed value formats). A visitor
/// that heeds nothing of a part isn't told which: that it is one is enough.
///
/// `TooLarge` for an int of magnitude 2^127 and more, `Malformed` for a negative zero, `BadUtf8`
/// for a string that isn't UTF-8; for a symbol what `Context::symbol` says of its id, and
/// `TooLarge` from 2^127 on; for a decimal or timestamp what its body is refused for; `Memory` where
/// the visitor can't go on.
#[inline(always)]
pub(super) fn tell_scalar<V: Visitor>(
    context: &Context,
    scalar: Scalar,
    body: &[u8],
    filter: &mut TableFilter,
    visitor: &mut V,
) -> Result<(), Reason>
    ensures told { OnOk result (TellsAs V.takes (judge context.now scalar body.now)
        filter.old filter.new visitor.old visitor.new) }
    ensures refused { IfErr result (RefusedAs (judge context.now scalar body.now)) }
{
    if visitor.heeds_nothing() && is_scalar(context, scalar, body) {
        if let Some(went_on) = filter.any_part(visitor) {
            return heard(went_on);
        }
    }
    read_scalar(context, scalar, body, filter, visitor)
}

// The same, where the visitor is told it.
#[inline(never)]
#[tactic(auto, unfolding(crate::specs::Judge::judge))]
fn read_scalar<V: Visitor>(
    context: &Context,
    scalar: Scalar,
    body: &[u8],
    filter: &mut TableFilter,
    visitor: &mut V,
) -> Result<(), Reason>
    ensures told { OnOk result (TellsAs V.takes (judge context.now scalar body.now)
        filter.old filter.new visitor.old visitor.new) }
    ensures refused { IfErr result (RefusedAs (judge context.now scalar body.now)) }
{
    match scalar {
        Scalar::Symbol => tell_symbol(context, body, filter, visitor),
        Scalar::Decimal => tell_number(&NumberBody::Decimal(body), filter, visitor),
        Scalar::Timestamp => tell_number(&NumberBody::Timestamp(body), filter, visitor),
        Scalar::Str => tell_text(body, filter, visitor),
        Scalar::Clob => heard(filter.part(&Part::Clob(body), visitor)),
        Scalar::Blob => heard(filter.part(&Part::Blob(body), visitor)),
        Scalar::Int => tell_int(false, body, filter, visitor),
        Scalar::NegativeInt => tell_int(true, body, filter, visitor),
    }
}

// An int, which most numbers are.
#[inline(always)]
fn tell_int<V: Visitor>(
    negative: bool,
    body: &[u8],
    filter: &mut TableFilter,
    visitor: &mut V,
) -> Result<(), Reason>
    ensures told { OnOk result (TellsAs V.takes (int_of negative (uint_field body.now))
        filter.old filter.new visitor.old visitor.new) }
    ensures refused { IfErr result (RefusedAs (int_of negative (uint_field body.now))) }
{
    let whole = int_of(negative, body)?;
    heard(filter.number(Number::Int(whole), visitor))
}

fn tell_symbol<V: Visitor>(
    context: &Context,
    body: &[u8],
    filter: &mut TableFilter,
    visitor: &mut V,
) -> Result<(), Reason>
    ensures told { OnOk result (TellsAs V.takes (symbol_of context.now (uint_field body.now))
        filter.old filter.new visitor.old visitor.new) }
    ensures refused { IfErr result (RefusedAs (symbol_of context.now (uint_field body.now))) }
{
    let symbol = symbol_of(context, body)?;
    heard(filter.symbol(symbol, visitor))
}

fn tell_text<V: Visitor>(
    body: &[u8],
    filter: &mut TableFilter,
    visitor: &mut V,
) -> Result<(), Reason>
    ensures told { OnOk result (TellsAs V.takes (text_of body.now)
        filter.old filter.new visitor.old visitor.new) }
    ensures refused { IfErr result (RefusedAs (text_of body.now)) }
{
    let text = text_of(body)?;
    heard(filter.part(&Part::Str(text), visitor))
}

// A decimal or a timestamp: as it is encoded where the visitor keeps it so.
#[inline(always)]
fn tell_number<V: Visitor>(
    body: &NumberBody<'_>,
    filter: &mut TableFilter,
    visitor: &mut V,
) -> Result<(), Reason>
    ensures told { OnOk result (TellsAs V.takes (number_of body.now)
        filter.old filter.new visitor.old visitor.new) }
    ensures refused { IfErr result (RefusedAs (number_of body.now)) }
{
    if visitor.keeps_number_bodies() && is_body(body) {
        if let Some(went_on) = filter.number_body(body, visitor) {
            return heard(went_on);
        }
    }
    read_number(body, filter, visitor)
}

// Whether it is the body of such a number.
#[inline(always)]
fn is_body(body: &NumberBody<'_>) -> bool
    ensures { result ≡ is_ok (number_of body.now) }
{
    match body {
        NumberBody::Decimal(octets) => is_decimal_body(octets),
        NumberBody::Timestamp(octets) => is_timestamp_body(octets),
    }
}

// A number that is read.
#[inline(always)]
fn read_number<V: Visitor>(
    body: &NumberBody<'_>,
    filter: &mut TableFilter,
    visitor: &mut V,
) -> Result<(), Reason>
    ensures told { OnOk result (TellsAs V.takes (number_of body.now)
        filter.old filter.new visitor.old visitor.new) }
    ensures refused { IfErr result (RefusedAs (number_of body.now)) }
{
    match body {
        NumberBody::Decimal(octets) => tell_decimal(octets, filter, visitor),
        NumberBody::Timestamp(octets) => tell_timestamp(octets, filter, visitor),
    }
}

#[inline(never)]
fn tell_decimal<V: Visitor>(
    body: &[u8],
    filter: &mut TableFilter,
    visitor: &mut V,
) -> Result<(), Reason>
    ensures told { OnOk result (TellsAs V.takes (as_decimal (decimal_of_body body.now))
        filter.old filter.new visitor.old visitor.new) }
    ensures refused { IfErr result (RefusedAs (as_decimal (decimal_of_body body.now))) }
{
    let decimal = decimal_of(body)?;
    heard(filter.number(Number::Decimal(decimal), visitor))
}

#[inline(never)]
fn tell_timestamp<V: Visitor>(
    body: &[u8],
    filter: &mut TableFilter,
    visitor: &mut V,
) -> Result<(), Reason>
    ensures told { OnOk result (TellsAs V.takes (as_timestamp (timestamp_of_body body.now))
        filter.old filter.new visitor.old visitor.new) }
    ensures refused { IfErr result (RefusedAs (as_timestamp (timestamp_of_body body.now))) }
{
    let timestamp = timestamp_of(body)?;
    heard(filter.number(Number::Timestamp(timestamp), visitor))
}

// The int of a sign and a magnitude.
#[inline(always)]
pub(super) fn int_of(negative: bool, body: &[u8]) -> Result<Whole, Reason>
    ensures { MatchResult result
        (λ z. int_of negative (uint_field body.now) ≡ Ok (payloads.Int z))
        (λ reason. int_of negative (uint_field body.now) ≡ Err reason) }
{
    let magnitude = uint_of(body)?;
    if negative && magnitude == 0 {
        return Err(Reason::Malformed);
    }
    let value = magnitude as i128;
    match Whole::new(if negative { -value } else { value }) {
        Some(whole) => Ok(whole),
        None => unreachable!(),
    }
}

// The symbol of an id.
fn symbol_of<'a>(context: &'a Context, body: &[u8]) -> Result<&'a Symbol, Reason>
    ensures { MatchResult result
        (λ s. symbol_of context.now (uint_field body.now) ≡ Ok (payloads.Symbol s.now))
        (λ reason. symbol_of context.now (uint_field body.now) ≡ Err reason) }
{
    let id = uint_of(body)?;
    if id > context.max_id() as u128 {
        return Err(Reason::SymbolRange);
    }
    context.symbol(id as u64)
}

// The text of a string.
fn text_of(body: &[u8]) -> Result<&str, Reason>
    ensures { MatchResult result (λ t. text_of body.now ≡ Ok (payloads.Str t.now))
        (λ reason. text_of body.now ≡ Err reason) }
{
    if !is_utf8(body) {
        return Err(Reason::BadUtf8);
    }
    // checked just now
    Ok(unsafe { str::from_utf8_unchecked(body) })
}

/// Whether octets are UTF-8. Most are few, and of ASCII.
pub(super) fn is_utf8(body: &[u8]) -> bool
    ensures { IsTrue result ↔ IsUtf8 body.now }
{
    if body.len() < 16 && are_ascii(body) {
        return true;
    }
    simdutf8::is_utf8(body)
}

fn are_ascii(body: &[u8]) -> bool
    ensures { result ≡ list_all is_ascii body.now }
{
    body.iter().all(|octet| octet.is_ascii())
}
