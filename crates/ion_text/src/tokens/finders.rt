//! Tokens at the front of octets that are a value or a field's name, with what they say. Of a token
//! that isn't whole, isn't plain or may be a symbol's id nothing is found.
ghost use Rattle.std.specs.Prelude.{◌≡◌, ◌<◌, ◌≤◌, ◌-◌, false, true, length, take, drop, IfSome, IsUtf8, Ok, Some};
ghost use Rattle.ion_text.specs.Names.{BeginsName, FoundNumber, FoundPart, FoundSymbol, HasParts, IsFound, IsFree, IsValue, Number as AnyNumber, Number', Rest, held_payload, held_word, is_name, payload_of, said};
ghost use Rattle.ion_text.specs.walk.WordKinds.{IsWordKind};
ghost use Rattle.ion_tokens.specs.Bodies.{content};
ghost use Rattle.ion_tokens.specs.declared.mode.TokenKind.TheVariants as kinds;

use super::symbols::plain_text;
use ion_model::Kind;
use ion_scalar::{Number, ShortNumber, number_of, plain_number_of};
use ion_spelling::{is_keyword, may_be_keyword};
use ion_tokens::{
    Body, FoundToken, Place, TokenKind, number, operator, plain_numeral, quoted_symbol,
    short_string, typed_null, usual_string, word,
};
use ion_visiting::Part;

/// A token that is a value without others in it.
#[derive(Clone, Copy)]
pub(crate) struct Scalar {
    pub token: FoundToken,
    /// Whether it would be an annotation if `::` followed.
    pub waits: bool,
}

/// What a word may be as a value.
#[derive(Clone, Copy)]
pub(crate) enum WordKind {
    Null,
    True,
    False,
    Nan,
    Symbol,
}

// Which of them a word is: an answer of one octet, so that a part that is made of it lies in no
// memory.
#[inline(never)]
fn word_kind(word: &str) -> WordKind
    ensures { IsWordKind word.now result }
{
    if word == "null" {
        return WordKind::Null;
    }
    if word == "true" {
        return WordKind::True;
    }
    if word == "false" {
        return WordKind::False;
    }
    if word == "nan" {
        return WordKind::Nan;
    }
    WordKind::Symbol
}

// The value that a word is, but for `nan`. Most words are no keywords by their front and length.
#[inline(always)]
pub(crate) fn word_part(word: &str) -> Option<Part<'_>>
    ensures { IfSome result (λ said. held_payload (held_word word.now) ≡ Ok (payload_of said)) }
{
    if !may_be_keyword(word) {
        return Some(Part::Symbol(word));
    }
    match word_kind(word) {
        WordKind::Null => Some(Part::Null(Kind::Null)),
        WordKind::True => Some(Part::Truth(true)),
        WordKind::False => Some(Part::Truth(false)),
        WordKind::Nan => None,
        WordKind::Symbol => Some(Part::Symbol(word)),
    }
}

/// The word at the front of octets, as a value.
#[inline(always)]
pub(crate) fn word_at(octets: &[u8]) -> Option<(Scalar, Part<'_>)>
    ensures { IfSome result (λ found. (here : Place) (rest : Rest) →
        FoundSymbol here rest octets.now found.0 (payload_of found.1)) }
{
    let count = word(octets)?;
    if count >= octets.len() || octets[0] == b'$' {
        return None;
    }
    let said = word_part(unsafe { str::from_utf8_unchecked(&octets[..count]) })?;
    let token = FoundToken {
        kind: TokenKind::Word,
        count,
        left: true,
    };
    let scalar = Scalar { token, waits: true };
    Some((scalar, said))
}

// The quoted symbol there.
#[inline(never)]
fn quoted_at(octets: &[u8]) -> Option<(Scalar, Part<'_>)>
    ensures { IfSome result (λ found. (here : Place) (rest : Rest) →
        FoundSymbol here rest octets.now found.0 (payload_of found.1)) }
{
    let count = quoted_symbol(octets)?;
    if count >= octets.len() || count < 2 {
        return None;
    }
    let content = &octets[1..][..count - 2];
    let token = FoundToken {
        kind: TokenKind::QuotedSymbol,
        count,
        left: false,
    };
    let scalar = Scalar { token, waits: true };
    Some((
        scalar,
        Part::Symbol(unsafe { str::from_utf8_unchecked(content) }),
    ))
}

// The typed null there.
#[inline(never)]
fn null_at(octets: &[u8]) -> Option<(Scalar, Part<'_>)>
    ensures { IfSome result (λ found. (here : Place) (rest : Rest) →
        FoundSymbol here rest octets.now found.0 (payload_of found.1)) }
{
    let (count, kind) = typed_null(octets)?;
    let token = FoundToken {
        kind: TokenKind::KindName,
        count,
        left: true,
    };
    let scalar = Scalar { token, waits: true };
    Some((scalar, Part::Null(kind)))
}

/// The short string there.
#[inline(always)]
pub(crate) fn string_at(octets: &[u8]) -> Option<(Scalar, Part<'_>)>
    ensures found { IfSome result (λ found. (here : Place) (rest : Rest) →
        FoundPart here rest octets.now found.0 (payload_of found.1)) }
    ensures waits { IfSome result (λ found. found.0.waits ≡ false) }
    ensures given { IfSome result (λ found. found.0.token.left ≡ false) }
{
    let count = short_string(octets)?;
    if count > octets.len() || count < 2 {
        return None;
    }
    let content = &octets[1..][..count - 2];
    let token = FoundToken {
        kind: TokenKind::ShortString,
        count,
        left: false,
    };
    let scalar = Scalar {
        token,
        waits: false,
    };
    Some((
        scalar,
        Part::Str(unsafe { str::from_utf8_unchecked(content) }),
    ))
}

// The short string there, of other characters than usual ones.
#[inline(never)]
fn other_string(octets: &[u8]) -> Option<usize>
    ensures found { IfSome result (λ count. (place : Place) (rest : Rest) →
        IsFound place rest octets.now TokenKind.ShortString
        (take (count - 2) (drop 1 octets.now)) count false) }
    ensures text { IfSome result (λ count. IsUtf8 (take (count - 2) (drop 1 octets.now))) }
    ensures size { IfSome result (λ count. (2 ≤ count) × (count ≤ length octets.now)) }
{
    let count = short_string(octets)?;
    if count > octets.len() || count < 2 {
        return None;
    }
    Some(count)
}

/// How many octets the short string there has, most often of usual characters.
#[inline(always)]
pub(crate) fn text_count(octets: &[u8]) -> Option<usize>
    requires { 17 ≤ length octets.now }
    ensures found { IfSome result (λ count. (place : Place) (rest : Rest) →
        IsFound place rest octets.now TokenKind.ShortString
        (take (count - 2) (drop 1 octets.now)) count false) }
    ensures text { IfSome result (λ count. IsUtf8 (take (count - 2) (drop 1 octets.now))) }
    ensures size { IfSome result (λ count. (2 ≤ count) × (count ≤ length octets.now)) }
{
    match usual_string(octets) {
        Some(count) => Some(count),
        None => other_string(octets),
    }
}

/// The int or decimal there by its parts, if 64 bits hold its digits; the octet behind it shows its
/// end.
#[inline(always)]
pub(crate) fn short_number_at(octets: &[u8]) -> Option<(FoundToken, ShortNumber)>
    ensures found { IfSome result (λ found. (x : AnyNumber) → HasParts found.1 x →
        (here : Place) (rest : Rest) → is_name here ≡ false →
        FoundNumber here rest octets.now found.0 x) }
    ensures left { IfSome result (λ found. found.0.left ≡ true) }
    ensures kind { IfSome result (λ found. found.0.kind ≡ kinds.Number) }
    ensures within { IfSome result (λ found. found.0.count < length octets.now) }
{
    let numeral = plain_numeral(octets)?;
    let count = numeral.count;
    let short = plain_number_of(&octets[..count], numeral.whole);
    let token = FoundToken {
        kind: TokenKind::Number,
        count,
        left: true,
    };
    Some((token, short))
}

/// The number there, whose end the octet behind it shows.
#[inline(always)]
pub(crate) fn number_at(octets: &[u8]) -> Option<(FoundToken, Number)>
    ensures found { IfSome result (λ found. (here : Place) (rest : Rest) → is_name here ≡ false →
        FoundNumber here rest octets.now found.0 found.1) }
    ensures says { IfSome result (λ found. said TokenKind.Number (take found.0.count octets.now)
        ≡ Ok (Number' found.1)) }
    ensures left { IfSome result (λ found. found.0.left ≡ true) }
    ensures kind { IfSome result (λ found. found.0.kind ≡ kinds.Number) }
    ensures within { IfSome result (λ found. found.0.count < length octets.now) }
{
    let count = number(octets)?;
    if count >= octets.len() {
        return None;
    }
    let Ok(read) = number_of(&octets[..count]) else {
        return None;
    };
    let token = FoundToken {
        kind: TokenKind::Number,
        count,
        left: true,
    };
    Some((token, read))
}

/// What a token that isn't plain, and is no clob or blob, is as a value, and whether it would be an
/// annotation if `::` followed.
pub(crate) fn unusual_part<'b>(body: &'b Body<'_>) -> Option<(bool, Part<'b>)>
    ensures value { IfSome result (λ found.
        IsValue found.0 (content body.now) (payload_of found.1)) }
    ensures free { IfSome result (λ _. IsFree (content body.now)) }
{
    match body {
        Body::Quoted(text) => Some((true, Part::Symbol(text.as_str()))),
        Body::TypedNull(kind) => Some((true, Part::Null(*kind))),
        Body::Short(text) => Some((false, Part::Str(text.as_str()))),
        Body::Operator(word) => Some((false, Part::Symbol(word.as_str()))),
        _ => None,
    }
}

/// The operator there, where an s-expression is open.
pub(crate) fn operator_at(here: Place, octets: &[u8]) -> Option<(Scalar, Part<'_>)>
    ensures found { IfSome result (λ found. (rest : Rest) →
        FoundPart here rest octets.now found.0 (payload_of found.1)) }
    ensures waits { IfSome result (λ found. found.0.waits ≡ false) }
    ensures kind { IfSome result (λ found. found.0.token.kind ≡ kinds.Operator) }
{
    if !matches!(here, Place::Sexp) {
        return None;
    }
    let count = operator(octets)?;
    if count >= octets.len() {
        return None;
    }
    let token = FoundToken {
        kind: TokenKind::Operator,
        count,
        left: true,
    };
    let scalar = Scalar {
        token,
        waits: false,
    };
    Some((
        scalar,
        Part::Symbol(unsafe { str::from_utf8_unchecked(&octets[..count]) }),
    ))
}

/// The quoted symbol or the typed null there, as a value.
#[inline(always)]
pub(crate) fn other_symbol_at(octets: &[u8]) -> Option<(Scalar, Part<'_>)>
    ensures { IfSome result (λ found. (here : Place) (rest : Rest) →
        FoundSymbol here rest octets.now found.0 (payload_of found.1)) }
{
    match octets.first() {
        Some(b'\'') => quoted_at(octets),
        _ => null_at(octets),
    }
}

/// Whether a number may begin there.
pub(crate) fn begins_number(octets: &[u8]) -> bool {
    matches!(octets.first(), Some(b'-' | b'0'..=b'9'))
}

/// Whether a symbol may begin there that is an annotation if `::` follows.
pub(crate) fn begins_symbol(octets: &[u8]) -> bool {
    matches!(octets.first(), Some(b'a'..=b'z' | b'A'..=b'Z' | b'_' | b'\''))
}

// The text in quotes there that is a field's name, if its characters stand as they are.
#[inline(always)]
fn text_name(octets: &[u8]) -> Option<(FoundToken, &str)>
    ensures { IfSome result (λ found. (here : Place) (rest : Rest) →
        BeginsName here rest octets.now found.0 (Some found.1.now)) }
{
    let token = plain_text(octets)?;
    if token.count >= octets.len() || token.count < 2 {
        return None;
    }
    let content = &octets[1..][..token.count - 2];
    Some((token, unsafe { str::from_utf8_unchecked(content) }))
}

// A word there that is a field's name.
#[inline(always)]
pub(crate) fn word_name(octets: &[u8]) -> Option<(FoundToken, &str)>
    ensures { IfSome result (λ found. (here : Place) (rest : Rest) →
        BeginsName here rest octets.now found.0 (Some found.1.now)) }
{
    let count = word(octets)?;
    if count >= octets.len() || octets[0] == b'$' {
        return None;
    }
    let text = unsafe { str::from_utf8_unchecked(&octets[..count]) };
    if is_keyword(text) {
        return None;
    }
    let token = FoundToken {
        kind: TokenKind::Word,
        count,
        left: true,
    };
    Some((token, text))
}

/// The field's name there, if it is a word or its characters stand as they are.
#[inline(always)]
pub(crate) fn plain_name(octets: &[u8]) -> Option<(FoundToken, &str)>
    ensures { IfSome result (λ found. (here : Place) (rest : Rest) →
        BeginsName here rest octets.now found.0 (Some found.1.now)) }
{
    match octets.first() {
        Some(b'"' | b'\'') => text_name(octets),
        _ => word_name(octets),
    }
}

// Whether a token that isn't plain may stand there: no mark, no comment and no long string.
pub(crate) fn may_be_unusual(octets: &[u8]) -> bool {
    match octets.first() {
        Some(b'\'') => octets.strip_prefix(b"'''").is_none(),
        Some(b'{') => octets.strip_prefix(b"{{").is_some(),
        Some(b'/' | b',' | b'[' | b']' | b'(' | b')' | b'}' | b'$') => false,
        _ => true,
    }
}
