//! Blanks and plain tokens that lie whole in memory, read where a scanner rests. What is cut,
//! refused or unusual isn't told here: the scanner takes it up octet by octet.
ghost use Rattle.std.specs.Prelude.{◌≡◌, ◌≢◌, ◌+◌, ◌-◌, ◌<◌, ◌≤◌, ◌∷◌, ◌^◌, ℕ, List, Some, Ok, false, true, length, get_or, take, drop, IfSome, IsUtf8};
ghost use Rattle.std.specs.List.{take_while};
ghost use Rattle.ion_tokens.specs.Names.{IsFound, IsPassed, Number, Place, ReadsNumber, is_digit, is_name, is_white, kind_named, past_blank, past_token};
ghost use Rattle.ion_scalar.specs.text.PlainNumerals.{HasNumeral, PlainToken};
ghost use Rattle.ion_tokens.specs.Usual.{WholeNumeral};

use crate::body::kind_named;
use crate::front::{characters, few_digits, of_number, of_operator, of_word, usual_ahead, white};
use crate::machine::takes_colon;
use crate::mode::{Place, Style, TokenKind};
use crate::octets::{begins_word, is_digit, is_stop};
use ion_atoms::Kind;
use ion_scalar::split_sign;

// So many octets behind its sign has a numeral that is told of without its value, at most.
const MOST_OF_NUMERAL: usize = 19;

/// Where a scanner rests: no token is open.
#[derive(Clone, Copy, Debug, PartialEq, Eq)]
pub struct Rest {
    /// Where the last token ended, the last octet of a blank stands, or the comment before began.
    pub start: u64,
    /// How many octets were used.
    pub used: u64,
    /// Whether a colon may stand behind the token before.
    pub colon: bool,
}

impl Rest {
    /// Behind so many octets of a blank.
    pub fn past_blank(self, count: usize) -> Rest
        requires { self.used + count < 2 ^ 63 }
        ensures { result ≡ past_blank self count }
    {
        if count == 0 {
            return self;
        }
        let used = self.used + count as u64;
        Rest {
            start: used - 1,
            used,
            colon: self.colon,
        }
    }

    /// Behind a token of this kind with so many octets.
    pub fn past_token(self, place: Place, kind: TokenKind, count: usize) -> Rest
        requires { self.used + count < 2 ^ 63 }
        ensures { result ≡ past_token place self kind count }
    {
        let used = self.used + count as u64;
        Rest {
            start: used,
            used,
            colon: takes_colon(place, kind),
        }
    }
}

/// How many octets of a blank without comments stand at the front, all of them.
#[inline(always)]
pub fn blanks(octets: &[u8]) -> usize
    ensures most { result ≡ length (take_while is_white octets.now) }
    ensures within { result ≤ length octets.now }
    ensures passed { IsPassed octets.now result }
{
    white(octets)
}

/// The same where none is there or one space, which an octet behind it shows.
#[inline(always)]
pub fn one_blank(octets: &[u8]) -> Option<usize>
    requires { 2 ≤ length octets.now }
    ensures few { IfSome result (λ count. count ≤ 1) }
    ensures passed { IfSome result (λ count. IsPassed octets.now count) }
{
    let one = if octets[0] == b' ' { 1 } else { 0 };
    if octets[one] > b' ' { Some(one) } else { None }
}

/// How many octets the word at the front has, if the octet behind it shows its end; `None` also
/// before a dot.
#[inline(always)]
pub fn word(octets: &[u8]) -> Option<usize>
    ensures found { IfSome result (λ count. (place : Place) (rest : Rest) →
        IsFound place rest octets.now TokenKind.Word (take count octets.now) count true) }
    ensures text { IfSome result (λ count. IsUtf8 (take count octets.now)) }
{
    if octets.is_empty() || !begins_word(octets[0]) {
        return None;
    }
    let count = of_word(octets);
    if count >= octets.len() || octets[count] == b'.' {
        return None;
    }
    Some(count)
}

// The name of the kind behind the `null.` at the front, if the octet behind it shows its end.
fn null_name(octets: &[u8]) -> Option<&[u8]>
    ensures { IfSome result (λ name. (place : Place) (rest : Rest) →
        IsFound place rest octets.now TokenKind.KindName name.now (length name.now + 5) true) }
{
    let behind = octets.strip_prefix(b"null.")?;
    let count = of_word(behind);
    if count >= behind.len() {
        return None;
    }
    Some(&behind[..count])
}

/// How many octets the typed null at the front has, if the octet behind it shows its end, and of
/// which kind it is (Ion 1.0, "Null Values").
pub fn typed_null(octets: &[u8]) -> Option<(usize, Kind)>
    ensures { IfSome result (λ null. (name : List ℕ) × (kind_named name ≡ Some null.1)
        × ((place : Place) (rest : Rest) →
        IsFound place rest octets.now TokenKind.KindName name null.0 true)) }
{
    let name = null_name(octets)?;
    let kind = kind_named(name)?;
    Some((name.len() + 5, kind))
}

/// How many octets the numeric token at the front has, if the octet behind it shows its end; `None`
/// also before a slash. No field's name stands there.
pub fn number(octets: &[u8]) -> Option<usize>
    ensures { IfSome result (λ count. (place : Place) (rest : Rest) → is_name place ≡ false →
        IsFound place rest octets.now TokenKind.Number (take count octets.now) count true) }
{
    if octets.len() < 2 {
        return None;
    }
    if !is_digit(octets[0]) && !(octets[0] == b'-' && is_digit(octets[1])) {
        return None;
    }
    let count = of_number(octets);
    if count >= octets.len() || octets[count] == b'/' {
        return None;
    }
    Some(count)
}

/// Where the digits of an int or decimal stand.
#[derive(Clone, Copy)]
pub struct Numeral {
    /// How many octets its whole part has, without the sign.
    pub whole: usize,
    /// How many octets it has.
    pub count: usize,
}

// The numeral of these digits at the front, with a point and the digits behind it if there are.
#[inline(always)]
fn with_fraction(octets: &[u8], whole: usize) -> Option<Numeral>
    requires digits { whole ≡ length (take_while is_digit octets.now) }
    requires some { 0 < whole }
    requires few { whole ≤ 19 }
    requires first { 1 < whole → get_or octets.now 0 0 ≢ 48 }
    ensures { IfSome result (λ found. HasNumeral octets.now found.whole found.count) }
{
    if whole >= octets.len() || octets[whole] != b'.' {
        return Some(Numeral {
            whole,
            count: whole,
        });
    }
    let fraction = few_digits(&octets[whole + 1..])?;
    let count = whole + 1 + fraction;
    if count > MOST_OF_NUMERAL {
        return None;
    }
    Some(Numeral { whole, count })
}

// The int or decimal of plain digits at the front, behind its sign.
#[inline(always)]
fn numeral_body(octets: &[u8]) -> Option<Numeral>
    ensures { IfSome result (λ found. HasNumeral octets.now found.whole found.count) }
{
    let whole = few_digits(octets)?;
    if whole == 0 || whole > MOST_OF_NUMERAL || octets.is_empty() {
        return None;
    }
    if octets[0] == b'0' && whole > 1 {
        return None;
    }
    with_fraction(octets, whole)
}

/// Where the digits of the int or decimal at the front stand, if it is of few digits, and maybe a sign
/// and a point, and the octet behind it shows its end. Such a token is a number, whichever. What is
/// longer, has another form or stands near the end of the octets isn't told of here. No field's name
/// stands there.
#[inline(always)]
pub fn plain_numeral(octets: &[u8]) -> Option<Numeral>
    ensures found { IfSome result (λ n. (place : Place) (rest : Rest) → is_name place ≡ false →
        IsFound place rest octets.now TokenKind.Number (take n.count octets.now) n.count true) }
    ensures reads { IfSome result (λ n. (number : Number)
        × ReadsNumber (take n.count octets.now) (Ok number)) }
    ensures digits { IfSome result (λ n. PlainToken (take n.count octets.now) n.whole) }
    ensures within { IfSome result (λ n. n.count < length octets.now) }
{
    let (_negative, body) = split_sign(octets);
    let found = numeral_body(body)?;
    if found.count >= body.len() || !is_stop(body[found.count]) {
        return None;
    }
    Some(Numeral {
        whole: found.whole,
        count: octets.len() - body.len() + found.count,
    })
}

// The int of these digits at the front, if the octet behind it shows its end.
#[inline(always)]
fn with_end(octets: &[u8], whole: usize) -> Option<usize>
    requires digits { whole ≡ length (take_while is_digit octets.now) }
    requires some { 0 < whole }
    requires few { whole ≤ 19 }
    requires first { 1 < whole → get_or octets.now 0 0 ≢ 48 }
    ensures { IfSome result (λ count. WholeNumeral octets.now count count) }
{
    if whole >= octets.len() || !is_stop(octets[whole]) {
        return None;
    }
    Some(whole)
}

/// The same of an int of few digits without a sign: how many octets it has.
#[inline(always)]
pub fn plain_int(octets: &[u8]) -> Option<usize>
    ensures { IfSome result (λ count. WholeNumeral octets.now count count) }
{
    let whole = few_digits(octets)?;
    if whole == 0 || whole > MOST_OF_NUMERAL || octets.is_empty() {
        return None;
    }
    if octets[0] == b'0' && whole > 1 {
        return None;
    }
    with_end(octets, whole)
}

/// How many octets the operator at the front has, if it has no `/` and the octet behind it shows
/// its end; `None` also before a digit and before `i`. It stands in an s-expression.
pub fn operator(octets: &[u8]) -> Option<usize>
    ensures found { IfSome result (λ count. (rest : Rest) → IsFound Place.Sexp rest octets.now
        TokenKind.Operator (take count octets.now) count true) }
    ensures text { IfSome result (λ count. IsUtf8 (take count octets.now)) }
{
    let count = of_operator(octets);
    if count == 0 || count >= octets.len() {
        return None;
    }
    let behind = octets[count];
    if is_digit(behind) || behind == b'i' || behind == b'/' {
        return None;
    }
    Some(count)
}

/// How many octets the short string at the front has, quotes and all, if its characters stand as
/// they are, without escapes.
pub fn short_string(octets: &[u8]) -> Option<usize>
    ensures found { IfSome result (λ count. (place : Place) (rest : Rest) →
        IsFound place rest octets.now TokenKind.ShortString
        (take (count - 2) (drop 1 octets.now)) count false) }
    ensures text { IfSome result (λ count. IsUtf8 (take (count - 2) (drop 1 octets.now))) }
{
    if octets.is_empty() || octets[0] != b'"' {
        return None;
    }
    let content = &octets[1..];
    let count = characters(Style::ShortString, content);
    if count >= content.len() || content[count] != b'"' {
        return None;
    }
    Some(count + 2)
}

/// The same of a string of usual characters, if sixteen octets show its end.
#[inline(always)]
pub fn usual_string(octets: &[u8]) -> Option<usize>
    requires { 17 ≤ length octets.now }
    ensures found { IfSome result (λ count. (place : Place) (rest : Rest) →
        IsFound place rest octets.now TokenKind.ShortString
        (take (count - 2) (drop 1 octets.now)) count false) }
    ensures text { IfSome result (λ count. IsUtf8 (take (count - 2) (drop 1 octets.now))) }
    ensures size { IfSome result (λ count. (2 ≤ count) × (count ≤ length octets.now)) }
{
    if octets[0] != b'"' {
        return None;
    }
    let count = usual_ahead(b'"', &octets[1..])?;
    Some(count + 2)
}

/// The same of a quoted symbol, which isn't empty.
pub fn quoted_symbol(octets: &[u8]) -> Option<usize>
    ensures found { IfSome result (λ count. (place : Place) (rest : Rest) →
        IsFound place rest octets.now TokenKind.QuotedSymbol
        (take (count - 2) (drop 1 octets.now)) count false) }
    ensures text { IfSome result (λ count. IsUtf8 (take (count - 2) (drop 1 octets.now))) }
{
    if octets.is_empty() || octets[0] != b'\'' {
        return None;
    }
    let content = &octets[1..];
    let count = characters(Style::QuotedSymbol, content);
    if count == 0 || count >= content.len() || content[count] != b'\'' {
        return None;
    }
    Some(count + 2)
}

/// How many octets the segment of a long string at the front has, quotes and all, if its characters
/// stand as they are, without escapes, single quotes and carriage returns.
pub fn long_segment(octets: &[u8]) -> Option<usize>
    ensures found { IfSome result (λ count. (place : Place) (rest : Rest) →
        IsFound place rest octets.now TokenKind.LongString
        (take (count - 6) (drop 3 octets.now)) count false) }
    ensures text { IfSome result (λ count. IsUtf8 (take (count - 6) (drop 3 octets.now))) }
    ensures size { IfSome result (λ count. (6 ≤ count) × (count ≤ length octets.now)) }
{
    if !begins_long(octets) {
        return None;
    }
    let content = &octets[3..];
    let count = characters(Style::LongString, content);
    if !begins_long(&content[count..]) {
        return None;
    }
    Some(count + 6)
}

// Whether octets begin with the three quotes of a long string.
fn begins_long(octets: &[u8]) -> bool
    ensures { result ≡ true → (behind : List ℕ) × (octets.now ≡ 39 ∷ 39 ∷ 39 ∷ behind) }
{
    octets.strip_prefix(b"'''").is_some()
}
