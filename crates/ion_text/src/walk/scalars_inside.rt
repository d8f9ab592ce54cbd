//! Names and values that hold no others, inside of containers: each goes on behind the token that it
//! told, or stays where the octets don't show it.
#![tactic(auto)]

ghost use Rattle.std.specs.Prelude.{◌≡◌, ◌+◌, ◌-◌, ◌<◌, ◌≤◌, Some, true, false, length, take, drop, IfSome, IsUtf8};
ghost use Rattle.ion_text.specs.Names.{BeginsName, FoundNumber, FoundSymbol, IsFound, Place as AnyPlace, Rest as AnyRest, TextWalk as AnyWalk, is_name, number_payload, part, payload_of};
ghost use Rattle.ion_text.specs.walk.Inside.{CommaSteps, IsValueNow, Stands, StepsTo, behind_now, past_spot, place_now};
ghost use Rattle.ion_tokens.specs.declared.mode.Place.TheVariants as places;
ghost use Rattle.ion_tokens.specs.declared.mode.TokenKind.TheVariants as kinds;
ghost use Rattle.ion_text.specs.declared.walk.inside.Now.TheVariants as nows;

use super::inside::{Now, Spot, behind_now, with_note};
use super::untold::untold_number;
use crate::tokens::finders::{
    Scalar, number_at, operator_at, other_symbol_at, plain_name, short_number_at, word_at,
};
use crate::tokens::symbols::{behind_annotation, colon_behind, ends_symbol};
use ion_scalar::Number;
use ion_tokens::{FoundToken, Place, TokenKind, blanks, plain_int};
use ion_visiting::{Part, Visitor};

#[inline(always)]
pub(super) fn text_of(there: &[u8], count: usize) -> &str
    requires size { (2 ≤ count) × (count ≤ length there.now) }
    requires text { IsUtf8 (take (count - 2) (drop 1 there.now)) }
    ensures { result.now ≡ take (count - 2) (drop 1 there.now) }
{
    let content = &there[1..][..count - 2];
    unsafe { str::from_utf8_unchecked(content) }
}

// A field's name in quotes that a symbol has, and its colon.
#[inline(never)]
pub(super) fn quoted_key_inside<V: Visitor>(spot: &mut Spot, octets: &[u8], visitor: &mut V) -> bool
    requires name { spot.old.now ≡ nows.Name }
    requires within { spot.old.at ≤ length octets.now }
    ensures { result ≡ true → (r : AnyWalk) → Stands r spot.old.now →
        StepsTo V.takes r r spot.old spot.new octets.now visitor.old visitor.new }
{
    match plain_name(&octets[spot.at..]) {
        None => true,
        Some((token, text)) => key_inside(token, text, spot, octets, visitor),
    }
}

// The colon behind a name, if it is there: then the name is told.
#[inline(always)]
pub(super) fn key_inside<V: Visitor>(
    token: FoundToken,
    text: &str,
    spot: &mut Spot,
    octets: &[u8],
    visitor: &mut V,
) -> bool
    requires name { spot.old.now ≡ nows.Name }
    requires within { spot.old.at ≤ length octets.now }
    requires found { (rest : AnyRest) →
        BeginsName places.Name rest (drop spot.old.at octets.now) token (Some text.now) }
    ensures steps { result ≡ true → (r : AnyWalk) → Stands r spot.old.now →
        StepsTo V.takes r r spot.old spot.new octets.now visitor.old visitor.new }
    ensures within { spot.new.at ≤ length octets.now }
{
    let Some(between) = colon_behind(&octets[spot.at..], token.count) else {
        return true;
    };
    if !visitor.name(Some(text)) {
        return false;
    }
    spot.past(token.count + between + 1, Now::Value);
    true
}

// The string of so many octets there.
#[inline(always)]
pub(super) fn string_inside<V: Visitor>(
    count: usize,
    spot: &mut Spot,
    octets: &[u8],
    visitor: &mut V,
) -> bool
    requires value { IsValueNow spot.old.now }
    requires within { spot.old.at ≤ length octets.now }
    requires found { (here : AnyPlace) (rest : AnyRest) →
        IsFound here rest (drop spot.old.at octets.now) kinds.ShortString
        (take (count - 2) (drop 1 (drop spot.old.at octets.now))) count false }
    requires text { IsUtf8 (take (count - 2) (drop 1 (drop spot.old.at octets.now))) }
    requires size { (2 ≤ count) × (spot.old.at + count ≤ length octets.now) }
    ensures { result ≡ true → (r : AnyWalk) → Stands r spot.old.now →
        StepsTo V.takes r r spot.old spot.new octets.now visitor.old visitor.new }
{
    let there = &octets[spot.at..];
    if there.len() - count < 2 {
        return true;
    }
    if !tell(&Part::Str(text_of(there, count)), visitor) {
        return false;
    }
    value_ended(count, spot, octets);
    true
}

#[inline(always)]
pub(super) fn int_inside<V: Visitor>(spot: &mut Spot, octets: &[u8], visitor: &mut V) -> bool
    requires value { IsValueNow spot.old.now }
    requires ahead { spot.old.at + 22 ≤ length octets.now }
    ensures { result ≡ true → (r : AnyWalk) → Stands r spot.old.now →
        StepsTo V.takes r r spot.old spot.new octets.now visitor.old visitor.new }
{
    if !visitor.heeds_nothing() {
        return number_inside(spot, octets, visitor);
    }
    let Some(digits) = plain_int(&octets[spot.at..][..20]) else {
        return untold_inside(spot, octets, visitor);
    };
    let Some(went_on) = visitor.any_part() else {
        return number_inside(spot, octets, visitor);
    };
    if !went_on {
        return false;
    }
    value_ended(digits, spot, octets);
    true
}

// The same of any number, of which no visitor heeds anything.
#[inline(never)]
fn untold_inside<V: Visitor>(spot: &mut Spot, octets: &[u8], visitor: &mut V) -> bool
    requires value { IsValueNow spot.old.now }
    requires ahead { spot.old.at + 22 ≤ length octets.now }
    ensures { result ≡ true → (r : AnyWalk) → Stands r spot.old.now →
        StepsTo V.takes r r spot.old spot.new octets.now visitor.old visitor.new }
{
    let there = &octets[spot.at..];
    let Some(token) = untold_number(there) else {
        return true;
    };
    if there.len() - token.count < 2 {
        return true;
    }
    let Some(went_on) = visitor.any_part() else {
        return number_inside(spot, octets, visitor);
    };
    if !went_on {
        return false;
    }
    value_ended(token.count, spot, octets);
    true
}

// The same of any number.
#[inline(always)]
pub(super) fn signed_inside<V: Visitor>(spot: &mut Spot, octets: &[u8], visitor: &mut V) -> bool
    requires value { IsValueNow spot.old.now }
    requires ahead { spot.old.at + 22 ≤ length octets.now }
    ensures { result ≡ true → (r : AnyWalk) → Stands r spot.old.now →
        StepsTo V.takes r r spot.old spot.new octets.now visitor.old visitor.new }
{
    if visitor.heeds_nothing() {
        return untold_inside(spot, octets, visitor);
    }
    number_inside(spot, octets, visitor)
}

// The same, which is told.
#[inline(never)]
fn number_inside<V: Visitor>(spot: &mut Spot, octets: &[u8], visitor: &mut V) -> bool
    requires value { IsValueNow spot.old.now }
    requires ahead { spot.old.at + 22 ≤ length octets.now }
    ensures { result ≡ true → (r : AnyWalk) → Stands r spot.old.now →
        StepsTo V.takes r r spot.old spot.new octets.now visitor.old visitor.new }
{
    let there = &octets[spot.at..];
    let Some((token, number)) = some_number_at(there) else {
        return true;
    };
    if there.len() - token.count < 2 {
        return true;
    }
    if !tell_number(number, visitor) {
        return false;
    }
    value_ended(token.count, spot, octets);
    true
}

// A number, to whoever heeds it.
#[inline(always)]
fn tell_number<V: Visitor>(number: Number, visitor: &mut V) -> bool
    ensures { result ≡ true → V.takes visitor.old (part (number_payload number)) visitor.new }
{
    if visitor.heeds_nothing() {
        if let Some(went_on) = visitor.any_part() {
            return went_on;
        }
    }
    visitor.number(number)
}

#[inline(always)]
pub(super) fn word_inside<V: Visitor>(spot: &mut Spot, octets: &[u8], visitor: &mut V) -> bool
    requires value { IsValueNow spot.old.now }
    requires ahead { spot.old.at + 22 ≤ length octets.now }
    ensures { result ≡ true → (r : AnyWalk) → Stands r spot.old.now →
        StepsTo V.takes r r spot.old spot.new octets.now visitor.old visitor.new }
{
    match word_at(&octets[spot.at..]) {
        None => other_symbol_inside(spot, octets, visitor),
        Some((scalar, said)) => symbol_inside(scalar, &said, spot, octets, visitor),
    }
}

// The same of a symbol in quotes or a typed null.
#[inline(never)]
pub(super) fn other_symbol_inside<V: Visitor>(
    spot: &mut Spot,
    octets: &[u8],
    visitor: &mut V,
) -> bool
    requires value { IsValueNow spot.old.now }
    requires ahead { spot.old.at + 22 ≤ length octets.now }
    ensures { result ≡ true → (r : AnyWalk) → Stands r spot.old.now →
        StepsTo V.takes r r spot.old spot.new octets.now visitor.old visitor.new }
{
    match other_symbol_at(&octets[spot.at..]) {
        None => true,
        Some((scalar, said)) => symbol_inside(scalar, &said, spot, octets, visitor),
    }
}

// This symbol, null or truth with the blank behind it, or this annotation, where the octets show
// which.
#[inline(always)]
fn symbol_inside<V: Visitor>(
    scalar: Scalar,
    said: &Part<'_>,
    spot: &mut Spot,
    octets: &[u8],
    visitor: &mut V,
) -> bool
    requires value { IsValueNow spot.old.now }
    requires within { spot.old.at ≤ length octets.now }
    requires found { (here : AnyPlace) (rest : AnyRest) →
        FoundSymbol here rest (drop spot.old.at octets.now) scalar (payload_of said.now) }
    ensures { result ≡ true → (r : AnyWalk) → Stands r spot.old.now →
        StepsTo V.takes r r spot.old spot.new octets.now visitor.old visitor.new }
{
    let there = &octets[spot.at..];
    let count = scalar.token.count;
    if count >= there.len() {
        return true;
    }
    if there[count] == b':' {
        return note_inside(scalar, said, spot, octets, visitor);
    }
    let between = blanks(&there[count..]);
    if there.len() - count - between < 2 || !ends_symbol(there[count + between]) {
        return true;
    }
    if !tell(said, visitor) {
        return false;
    }
    spot.past_word(count, between);
    comma_at_once(spot, octets);
    true
}

// An operator, where an s-expression is open.
#[inline(never)]
pub(super) fn operator_inside<V: Visitor>(spot: &mut Spot, octets: &[u8], visitor: &mut V) -> bool
    requires value { IsValueNow spot.old.now }
    requires element { place_now spot.old.now ≡ places.Sexp }
    requires within { spot.old.at ≤ length octets.now }
    ensures { result ≡ true → (r : AnyWalk) → Stands r spot.old.now →
        StepsTo V.takes r r spot.old spot.new octets.now visitor.old visitor.new }
{
    let there = &octets[spot.at..];
    let Some((scalar, said)) = operator_at(Place::Sexp, there) else {
        return true;
    };
    let count = scalar.token.count;
    if count >= there.len() || there.len() - count < 2 {
        return true;
    }
    if !tell(&said, visitor) {
        return false;
    }
    value_ended(count, spot, octets);
    true
}

// This symbol as an annotation, if `::` stands behind it.
#[inline(always)]
fn note_inside<V: Visitor>(
    scalar: Scalar,
    said: &Part<'_>,
    spot: &mut Spot,
    octets: &[u8],
    visitor: &mut V,
) -> bool
    requires value { IsValueNow spot.old.now }
    requires within { spot.old.at ≤ length octets.now }
    requires found { (here : AnyPlace) (rest : AnyRest) →
        FoundSymbol here rest (drop spot.old.at octets.now) scalar (payload_of said.now) }
    ensures { result ≡ true → (r : AnyWalk) → Stands r spot.old.now →
        StepsTo V.takes r r spot.old spot.new octets.now visitor.old visitor.new }
{
    let Part::Symbol(text) = said else {
        return true;
    };
    let count = scalar.token.count;
    let Some(between) = behind_annotation(&octets[spot.at..], count) else {
        return true;
    };
    if !visitor.annotation(Some(text)) {
        return false;
    }
    spot.past(count + between + 2, with_note(spot.now));
    true
}

#[inline(always)]
fn some_number_at(octets: &[u8]) -> Option<(FoundToken, Number)>
    ensures found { IfSome result (λ found. (here : AnyPlace) (rest : AnyRest) → is_name here ≡ false →
        FoundNumber here rest octets.now found.0 found.1) }
    ensures kind { IfSome result (λ found. found.0.kind ≡ kinds.Number) }
    ensures within { IfSome result (λ found. found.0.count < length octets.now) }
{
    let Some((token, short)) = short_number_at(octets) else {
        return number_at(octets);
    };
    if let Some(number) = short.int() {
        return Some((token, number));
    }
    match short.decimal() {
        None => number_at(octets),
        Some(number) => Some((token, number)),
    }
}

// A part, to whoever heeds it.
#[inline(always)]
pub(super) fn tell<V: Visitor>(said: &Part<'_>, visitor: &mut V) -> bool
    ensures { result ≡ true →
        V.takes visitor.old (part (payload_of said.now)) visitor.new }
{
    if visitor.heeds_nothing() {
        if let Some(went_on) = visitor.any_part() {
            return went_on;
        }
    }
    visitor.part(said)
}

// Behind a value, and behind the comma that stands at once behind it.
#[inline(always)]
pub(super) fn value_ended(count: usize, spot: &mut Spot, octets: &[u8])
    requires value { IsValueNow spot.old.now }
    requires ahead { spot.old.at + count + 2 ≤ length octets.now }
    ensures { CommaSteps (past_spot spot.old count (behind_now spot.old.now)) spot.new octets.now }
{
    spot.past(count, behind_now(spot.now));
    comma_at_once(spot, octets);
}

#[inline(always)]
pub(super) fn comma_at_once(spot: &mut Spot, octets: &[u8])
    requires { spot.old.at + 2 ≤ length octets.now }
    ensures { CommaSteps spot.old spot.new octets.now }
{
    let comma = octets[spot.at] == b',';
    match spot.now {
        Now::BehindItem if comma => spot.past(1, Now::Item),
        Now::BehindField if comma => spot.past(1, Now::Name),
        _ => {}
    }
}
