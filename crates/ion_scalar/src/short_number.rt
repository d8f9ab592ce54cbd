//! Ints and decimals of few digits, as most numbers in documents are, as whole tokens: their digits
//! are added up in 64 bits. What is longer or has another form isn't told of here.
ghost use Rattle.std.specs.Prelude.{◌≡◌, ◌<◌, ◌≤◌, ◌+◌, ◌*◌, ◌^◌, ◌-ℤ◌, pos, length, take, false, not, is_some, IfSome, Ok};
ghost use Rattle.std.specs.Char.{digit_value};
ghost use Rattle.ion_scalar.specs.Names.{Fits, HasParts, Number as AnyNumber, IsDigits, IsExponent, IsMagnitude, IsPlain, IsSigned, IsWholePart, ReadsBehind, ReadsNumber, decimal_read, number, signed};
ghost use Rattle.ion_scalar.specs.declared.number.Number.TheVariants as numbers;
ghost use Rattle.ion_scalar.specs.text.laws.DigitRuns.{Place};
ghost use Rattle.ion_scalar.specs.text.laws.ShortNumbers.{IsScaled, MarkedRun, PlainRun};

use crate::digits::digit_at;
use crate::ints::split_sign;
use crate::number::Number;
use ion_atoms::{Decimal, Whole};

// So many octets have at most 19 digits, whose number 64 bits hold.
pub(crate) const MOST_SHORT_OCTETS: usize = 19;

// So many octets have at most 16 hexadecimal digits, whose number 64 bits hold.
const MOST_HEXADECIMAL: usize = 16;

// So many digits make an exponent that is far from the bounds of one.
const MOST_EXPONENT: usize = 9;

/// A run of digits without `_`.
#[derive(Clone, Copy)]
pub struct PlainDigits {
    /// The number of these digits behind others.
    pub value: u64,
    /// How many octets.
    pub used: usize,
}

/// An int or decimal by its parts.
#[derive(Clone, Copy)]
pub struct ShortNumber {
    pub negative: bool,
    /// The number of its digits.
    pub magnitude: u64,
    pub is_decimal: bool,
    /// That of a decimal; of an int it counts for nothing.
    pub exponent: i32,
}

impl ShortNumber {
    /// The int that it is; `None` of a decimal. Takes no memory.
    #[inline(always)]
    pub fn int(self) -> Option<Number>
        ensures parts { IfSome result (HasParts self) }
        ensures kind { is_some result ≡ not self.is_decimal }
    {
        if self.is_decimal {
            return None;
        }
        let magnitude = i128::from(self.magnitude);
        match Whole::new(if self.negative { -magnitude } else { magnitude }) {
            Some(whole) => Some(Number::Int(whole)),
            None => None,
        }
    }

    /// The decimal that it is; `None` of an int. Takes no memory.
    #[inline(always)]
    pub fn decimal(self) -> Option<Number>
        ensures parts { IfSome result (HasParts self) }
        ensures kind { is_some result ≡ self.is_decimal }
    {
        if !self.is_decimal {
            return None;
        }
        match Decimal::new(self.negative, u128::from(self.magnitude), self.exponent) {
            Some(decimal) => Some(Number::Decimal(decimal)),
            None => None,
        }
    }
}

/// The parts of the int or decimal that a whole token spells, if it has at most 19 octets behind the
/// sign. Not told are ints of base two, those of base sixteen with `_` or more than 16 digits, and
/// decimals with `_` or more than 9 digits of an exponent.
#[inline(always)]
pub(crate) fn short_number_of(token: &[u8]) -> Option<ShortNumber>
    ensures { IfSome result (λ short. (x : AnyNumber) → HasParts short x →
        ReadsNumber token.now (Ok x)) }
{
    let (negative, body) = split_sign(token);
    short_body(negative, body)
}

#[inline(always)]
fn short_body(negative: bool, body: &[u8]) -> Option<ShortNumber>
    ensures { IfSome result (λ short. (x : AnyNumber) → HasParts short x →
        ReadsBehind negative body.now (Ok x)) }
{
    let Some(whole) = short_whole(body) else {
        return None;
    };
    if whole.used == body.len() {
        return Some(short_int(negative, whole.value));
    }
    if body[whole.used] != b'.' {
        return unusual_body(negative, body, whole);
    }
    let behind = &body[whole.used + 1..];
    let fraction = plain_digits(behind, whole.value);
    if fraction.used < behind.len() {
        let end = &behind[fraction.used..];
        return scaled_decimal(negative, fraction.value, fraction.used, end);
    }
    Some(short_decimal(negative, fraction.value, fraction.used))
}

#[inline(always)]
pub(crate) fn short_int(negative: bool, magnitude: u64) -> ShortNumber
    ensures { (x : AnyNumber) → HasParts result x →
        (x ≡ numbers.Int (signed negative magnitude)) × Fits x }
{
    ShortNumber {
        negative,
        magnitude,
        is_decimal: false,
        exponent: 0,
    }
}

// The decimal of a coefficient with so many fraction digits.
#[inline(always)]
pub(crate) fn short_decimal(negative: bool, magnitude: u64, count: usize) -> ShortNumber
    requires { count < 20 }
    ensures { (x : AnyNumber) → HasParts result x →
        (x ≡ decimal_read negative magnitude false 0 count) × Fits x }
{
    ShortNumber {
        negative,
        magnitude,
        is_decimal: true,
        exponent: -(count as i32),
    }
}

/// The digits at the front of at most 19 octets, if they are a whole part.
#[inline(always)]
fn short_whole(body: &[u8]) -> Option<PlainDigits>
    ensures run { IfSome result (λ d. PlainRun body.now 0 d.used d.value) }
    ensures whole { IfSome result (λ d. IsWholePart (take d.used body.now)) }
    ensures few { IfSome result (λ _. length body.now ≤ 19) }
{
    if body.len() > MOST_SHORT_OCTETS {
        return None;
    }
    let whole = plain_digits(body, 0);
    if whole.used == 0 {
        return None;
    }
    if whole.used > 1 && body[0] == b'0' {
        return None;
    }
    Some(whole)
}

// What has something else than a point behind its first digits.
#[inline(always)]
fn unusual_body(negative: bool, body: &[u8], whole: PlainDigits) -> Option<ShortNumber>
    requires run { PlainRun body.now 0 whole.used whole.value }
    requires whole { IsWholePart (take whole.used body.now) }
    requires more { whole.used < length body.now }
    requires few { length body.now ≤ 19 }
    ensures { IfSome result (λ short. (x : AnyNumber) → HasParts short x →
        ReadsBehind negative body.now (Ok x)) }
{
    match body[whole.used] {
        b'd' | b'D' => scaled_decimal(negative, whole.value, 0, &body[whole.used..]),
        _ => match unusual_magnitude(body, whole) {
            Some(magnitude) => Some(short_int(negative, magnitude)),
            None => None,
        },
    }
}

/// The digits at the front, behind others of the number `before`.
#[inline(always)]
pub fn plain_digits(octets: &[u8], before: u64) -> PlainDigits
    requires { (before + 1) * 10 ^ length octets.now ≤ 2 ^ 64 }
    ensures { PlainRun octets.now before result.used result.value }
{
    let mut value = before;
    let mut used = 0;
    while used < octets.len() {
        let octet = octets[used];
        if octet < b'0' || octet > b'9' {
            break;
        }
        value = value * 10 + (u64::from(octet) - 48);
        used += 1;
    }
    PlainDigits { value, used }
}

// The decimal of a coefficient with so many fraction digits, and of the exponent that all of the
// octets behind them are.
#[inline(always)]
fn scaled_decimal(
    negative: bool,
    magnitude: u64,
    count: usize,
    octets: &[u8],
) -> Option<ShortNumber>
    requires { count < 20 }
    ensures { IfSome result (λ short. (x : AnyNumber) → HasParts short x →
        IsScaled negative magnitude count octets.now x) }
{
    let Some((below, written)) = short_exponent(octets) else {
        return None;
    };
    Some(ShortNumber {
        negative,
        magnitude,
        is_decimal: true,
        exponent: less_fraction(below, written, count),
    })
}

/// A written exponent less the number of fraction digits.
#[inline(always)]
fn less_fraction(below: bool, written: u32, count: usize) -> i32
    requires { (written < 10 ^ 9) × (count < 20) }
    ensures { result ≡ signed below written -ℤ pos count }
{
    let written = written as i32;
    if below {
        -written - count as i32
    } else {
        written - count as i32
    }
}

/// The exponent of a decimal that all of the octets are, of at most nine digits: whether it has a
/// minus, and its magnitude.
#[inline(never)]
fn short_exponent(octets: &[u8]) -> Option<(bool, u32)>
    ensures { IfSome result (λ r. IsExponent octets.now false r.0 r.1 × (r.1 < 10 ^ 9)) }
{
    match octets {
        [b'd' | b'D', rest @ ..] => short_signed(rest),
        _ => None,
    }
}

/// A sign or none, true for `-`, and the number of the digits behind it.
#[inline(always)]
fn short_signed(octets: &[u8]) -> Option<(bool, u32)>
    ensures { IfSome result (λ r. IsSigned octets.now r.0 r.1 × (r.1 < 10 ^ 9)) }
{
    let (below, digits) = exponent_sign(octets);
    if digits.len() > MOST_EXPONENT {
        return None;
    }
    let written = plain_digits(digits, 0);
    if written.used == 0 || written.used < digits.len() {
        return None;
    }
    Some((below, written.value as u32))
}

/// Whether an exponent has a minus, and what stands behind its sign.
#[inline(always)]
fn exponent_sign(octets: &[u8]) -> (bool, &[u8])
    ensures { IsPlain result.1.now → IsSigned octets.now result.0 (number 10 result.1.now) }
{
    match octets {
        [b'-', digits @ ..] => (true, digits),
        [b'+', digits @ ..] => (false, digits),
        _ => (false, octets),
    }
}

/// The number of an int that has `_` between its digits, or hexadecimal ones behind `0x`.
#[inline(never)]
fn unusual_magnitude(body: &[u8], first: PlainDigits) -> Option<u64>
    requires few { length body.now ≤ 19 }
    requires run { PlainRun body.now 0 first.used first.value }
    ensures { IfSome result (λ n. IsMagnitude body.now n) }
{
    match body {
        [b'0', b'x' | b'X', digits @ ..] => hexadecimal_number(digits),
        [b'1'..=b'9', ..] => marked_digits(body, first),
        _ => None,
    }
}

/// The number of at most 16 hexadecimal digits without `_`, if all of the octets are such.
#[inline(always)]
fn hexadecimal_number(octets: &[u8]) -> Option<u64>
    ensures { IfSome result (λ v. IsDigits 16 octets.now × (v ≡ number 16 octets.now)) }
{
    if octets.len() < 1 || octets.len() > MOST_HEXADECIMAL {
        return None;
    }
    let mut value = 0u64;
    let mut used = 0usize;
    while used < octets.len() {
        let Some(digit) = digit_at(octets, used, 16) else {
            return None;
        };
        value = value * 16 + u64::from(digit);
        used += 1;
    }
    Some(value)
}

/// The number of digits with at most one `_` between two of them, if all of at most 19 octets are
/// such; the first of them are read.
#[inline(always)]
fn marked_digits(octets: &[u8], first: PlainDigits) -> Option<u64>
    requires few { length octets.now ≤ 19 }
    requires some { 0 < length octets.now }
    requires run { MarkedRun 10 octets.now first.used first.value }
    ensures { IfSome result (λ v. IsDigits 10 octets.now × (v ≡ number 10 octets.now)) }
{
    let mut value = first.value;
    let mut used = first.used;
    while used < octets.len() {
        let at = next_place(octets, used);
        let Some(digit) = digit_at(octets, at, 10) else {
            return None;
        };
        value = value * 10 + u64::from(digit);
        used = at + 1;
    }
    Some(value)
}

/// Where the next digit stands, behind a `_` or none.
#[inline(always)]
fn next_place(octets: &[u8], used: usize) -> usize
    requires { used < length octets.now }
    ensures { Place octets.now used result }
{
    if used == 0 || octets[used] != b'_' {
        return used;
    }
    used + 1
}
