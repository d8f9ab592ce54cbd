//! What the octets of a token say (Ion 1.0, "Ion Text Encoding").
ghost use Rattle.std.specs.Prelude.{◌≡◌, ◌≢◌, ◌^◌, ◌-◌, ℕ, List, min, MatchResult, IfOk, IfErr, IsUtf8};
ghost use Rattle.std.specs.Cow.{cow_str_bytes, IsBorrowedStr, IsOwnedStr};
ghost use Rattle.std.specs.List.{list_all};
ghost use Rattle.ion_tokens.specs.Names.{BadUtf8, BorrowsFrom, IsBody, Memory, Passes, id_of, is_digit, kind_named, number_in};
ghost use Rattle.ion_tokens.specs.Bodies.{IsWhole, content};

use crate::mode::TokenKind;
use crate::octets::is_digit;
use crate::token::Body;
use ion_atoms::{Bytes, Kind, Reason, Text};
use ion_scalar::number_of;
use std::alloc::Global;
use std::borrow::CowStr;
use std::mem;

/// Every kind, in the order of their ranks.
const KINDS: [Kind; 13] = [
    Kind::Null,
    Kind::Bool,
    Kind::Int,
    Kind::Float,
    Kind::Decimal,
    Kind::Timestamp,
    Kind::Symbol,
    Kind::Str,
    Kind::Clob,
    Kind::Blob,
    Kind::List,
    Kind::Sexp,
    Kind::Fields,
];

/// The kind that a name behind `null.` names.
pub fn kind_named(name: &[u8]) -> Option<Kind>
    ensures { result ≡ kind_named name.now }
{
    KINDS
        .iter()
        .copied()
        .find(|kind| kind.name().as_bytes() == name)
}

fn are_digits(octets: &[u8]) -> bool
    ensures { result ≡ list_all is_digit octets.now }
{
    octets.iter().all(|octet| is_digit(*octet))
}

// The number of these digits; 2^64-1 stands for every larger one.
fn number_in(digits: &[u8]) -> u64
    ensures { result ≡ min (number_in 0 digits.now) (2 ^ 64 - 1) }
{
    let mut number: u64 = 0;
    for digit in digits {
        number = number
            .saturating_mul(10)
            .saturating_add(u64::from(digit.saturating_sub(b'0')));
    }
    number
}

// The symbol id that a word is, if it is one.
fn id_of(word: &[u8]) -> Option<u64>
    ensures { result ≡ id_of word.now }
{
    match word.split_first() {
        Some((b'$', digits)) if !digits.is_empty() && are_digits(digits) => Some(number_in(digits)),
        _ => None,
    }
}

// Octets as a text, without a copy.
fn text_of(octets: Vec<u8>) -> Result<Text, Reason>
    ensures { MatchResult result (λ text. (text ≡ octets.items) × IsUtf8 octets.items)
        (λ e. (e ≡ BadUtf8) × ¬ (IsUtf8 octets.items)) }
{
    if simdutf8::is_utf8(&octets) {
        Ok(Text::from_string(unsafe { String::from_utf8_unchecked(octets) }))
    } else {
        Err(Reason::BadUtf8)
    }
}

// A word or an operator: of the piece, where it stands there, or else a copy.
fn word_of<'p>(alloc: Global, octets: &[u8], lent: &'p [u8]) -> Result<CowStr<'p>, Reason>
    ensures ok { IfOk result (λ word. (cow_str_bytes word ≡ octets.now) × IsUtf8 octets.now) }
    ensures err { IfErr result (λ e. e ≢ Memory → (e ≡ BadUtf8) × ¬ (IsUtf8 octets.now)) }
    ensures borrowed { IfOk result (λ word. cow_str_bytes word ≡ lent.now → IsBorrowedStr word) }
    ensures owned { IfOk result (λ word. cow_str_bytes word ≢ lent.now → IsOwnedStr word) }
{
    if octets == lent {
        match simdutf8::basic::from_utf8(lent) {
            Ok(word) => Ok(CowStr::Borrowed(word)),
            Err(_) => Err(Reason::BadUtf8),
        }
    } else {
        match simdutf8::basic::from_utf8(octets) {
            Ok(word) => Ok(CowStr::Owned(String::from_str(alloc, word)?)),
            Err(_) => Err(Reason::BadUtf8),
        }
    }
}

// A word or a symbol id.
fn word_body<'p>(alloc: Global, octets: &[u8], lent: &'p [u8]) -> Result<Body<'p>, Reason>
    ensures ok { IfOk result (λ body. IsBody TokenKind.Word octets.now (Ok (content body))) }
    ensures err { IfErr result (λ e. e ≢ Memory → IsBody TokenKind.Word octets.now (Err e)) }
    ensures lends { IfOk result (λ body. BorrowsFrom lent.now body) }
    ensures whole { IfOk result IsWhole }
{
    match id_of(octets) {
        Some(id) => Ok(Body::Id(id)),
        None => Ok(Body::Word(word_of(alloc, octets, lent)?)),
    }
}

// A typed null, by the name of its kind.
fn null_body<'p>(name: &[u8]) -> Result<Body<'p>, Reason>
    ensures ok { IfOk result (λ body. IsBody TokenKind.KindName name.now (Ok (content body))) }
    ensures err { IfErr result (λ e. IsBody TokenKind.KindName name.now (Err e)) }
    ensures lends { (lent : List ℕ) → IfOk result (λ body. BorrowsFrom lent body) }
    ensures whole { IfOk result IsWhole }
{
    match kind_named(name) {
        Some(kind) => Ok(Body::TypedNull(kind)),
        None => Err(Reason::Malformed),
    }
}

// The octets, in whose place nothing is left.
fn taken(alloc: Global, octets: &mut Vec<u8>) -> Vec<u8>
    ensures { result.items ≡ octets.old.items }
{
    mem::replace(octets, Vec::new(alloc))
}

/// What a token of that kind says by its octets, which are taken where a text needs them. `lent` is
/// where they stand in the piece, if they stand there. `Malformed`, `TooLarge` and `Float` for
/// numbers as in `number_of`, `Malformed` for a name of no kind; `Memory` where a growth was
/// refused.
pub fn body_of<'p>(
    alloc: Global,
    kind: TokenKind,
    octets: &mut Vec<u8>,
    lent: &'p [u8],
) -> Result<Body<'p>, Reason>
    ensures ok { IfOk result (λ body. IsBody kind octets.old.items (Ok (content body))) }
    ensures err { IfErr result (λ e. e ≢ Memory → IsBody kind octets.old.items (Err e)) }
    ensures passes { IfOk result (λ _. Passes kind octets.old.items) }
    ensures lends { IfOk result (λ body. BorrowsFrom lent.now body) }
    ensures whole { IfOk result IsWhole }
{
    match kind {
        TokenKind::Word => word_body(alloc, octets.as_slice(), lent),
        TokenKind::KindName => null_body(octets.as_slice()),
        TokenKind::Number => Ok(Body::Number(number_of(octets.as_slice())?)),
        TokenKind::Operator => Ok(Body::Operator(word_of(alloc, octets.as_slice(), lent)?)),
        TokenKind::Mark(mark) => Ok(Body::Mark(mark)),
        TokenKind::QuotedSymbol => Ok(Body::Quoted(text_of(taken(alloc, octets))?)),
        TokenKind::ShortString => Ok(Body::Short(text_of(taken(alloc, octets))?)),
        TokenKind::LongString => Ok(Body::Long(text_of(taken(alloc, octets))?)),
        TokenKind::Clob => Ok(Body::Clob(Bytes::from_vec(taken(alloc, octets)))),
        TokenKind::Blob => Ok(Body::Blob(Bytes::from_vec(taken(alloc, octets)))),
    }
}
