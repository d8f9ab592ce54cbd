//! Number tokens (Ion 1.0, "Ion Text Encoding" and its grammar, ints, decimals and timestamps).
ghost use Rattle.std.specs.Prelude.{ℕ, Result, Ok, ◌≡◌, ◌≤◌, ◌^◌, min, IfOk, IfErr, IfSome, IfNone};
ghost use Rattle.ion_scalar.specs.Names.{Fits, HasBase, Number, ReadsBehind, ReadsNumber, ReadsNumeral, ReadsTimestamp, Reason, TooLarge, decimal_read, signed};
ghost use Rattle.ion_scalar.specs.declared.number.Number.TheVariants as numbers;

use crate::decimals::{Tail, power, tail_of, whole_of};
use crate::digits::all_digits;
use crate::ints::split_sign;
use crate::short_number::short_number_of;
use crate::timestamps::{is_short, stamp_of};
use crate::usual_token::{unusual_timestamp, usual_timestamp};
use ion_atoms::{Decimal, Reason, Timestamp, Whole};

/// A number, as a token spells it.
#[derive(Clone, Copy, Debug, PartialEq, Eq)]
pub enum Number {
    Int(Whole),
    Decimal(Decimal),
    Timestamp(Timestamp),
}

/// The number that a whole token spells.
///
/// Answers `Malformed` for a token of no form and for a day or time that there isn't, `Float` for
/// the forms of a decimal with `e` or `E` in place of `d`, and `TooLarge` for an int or a
/// coefficient whose magnitude is 2^127 or more, for an exponent outside -2^31 to 2^31-1, and for a
/// timestamp with more than 38 fraction digits, whether or not there is such a day and time. These
/// bounds are this project's. Takes no memory.
#[inline(always)]
pub fn number_of(token: &[u8]) -> Result<Number, Reason>
    ensures answer { ReadsNumber token.now result }
    ensures only { (answer : Result Number Reason) → ReadsNumber token.now answer
        → result ≡ answer }
{
    answer_of(token)
}

#[inline(always)]
fn answer_of(token: &[u8]) -> Result<Number, Reason>
    ensures { ReadsNumber token.now result }
{
    if token.len() > 4 && (token[4] == b'-' || token[4] == b'T') {
        return dated_answer(token);
    }
    let Some(short) = short_number_of(token) else {
        return unusual_answer(token);
    };
    let number = if short.is_decimal {
        short.decimal()
    } else {
        short.int()
    };
    match number {
        Some(number) => Ok(number),
        None => unusual_answer(token),
    }
}

// The answer on a token that has behind four octets what stands behind the year of a timestamp.
#[inline(always)]
fn dated_answer(token: &[u8]) -> Result<Number, Reason>
    ensures { ReadsNumber token.now result }
{
    match usual_timestamp(token) {
        Some(timestamp) => Ok(Number::Timestamp(timestamp)),
        None => match unusual_timestamp(token) {
            Some(timestamp) => Ok(Number::Timestamp(timestamp)),
            None => unusual_answer(token),
        },
    }
}

// The answer on any token.
#[inline(never)]
fn unusual_answer(token: &[u8]) -> Result<Number, Reason>
    ensures { ReadsNumber token.now result }
{
    match numeral_of(token) {
        Err(Reason::Malformed) => timestamp_token(token),
        answer => answer,
    }
}

fn numeral_of(token: &[u8]) -> Result<Number, Reason>
    ensures { ReadsNumeral token.now result }
{
    let (negative, body) = split_sign(token);
    number_behind(negative, body)
}

#[inline(never)]
fn timestamp_token(token: &[u8]) -> Result<Number, Reason>
    ensures { ReadsTimestamp token.now result }
{
    let Some(stamp) = stamp_of(token) else {
        return Err(Reason::Malformed);
    };
    if !is_short(stamp.precision) {
        return Err(Reason::TooLarge);
    }
    match Timestamp::new(stamp.local, stamp.precision, stamp.offset) {
        Some(timestamp) => Ok(Number::Timestamp(timestamp)),
        None => Err(Reason::Malformed),
    }
}

fn number_behind(negative: bool, body: &[u8]) -> Result<Number, Reason>
    ensures { ReadsBehind negative body.now result }
{
    match base_of(body) {
        Some(base) => based_number(negative, body, base),
        None => plain_number(negative, body),
    }
}

// The base that `0` and a letter announce.
fn base_of(body: &[u8]) -> Option<u32>
    ensures some { IfSome result (λ base. HasBase base body.now) }
    ensures none { IfNone result ((base : ℕ) → HasBase base body.now → ⊥) }
{
    if body.len() < 2 || body[0] != b'0' {
        return None;
    }
    match body[1] {
        b'x' | b'X' => Some(16),
        b'b' | b'B' => Some(2),
        _ => None,
    }
}

fn based_number(negative: bool, body: &[u8], base: u32) -> Result<Number, Reason>
    requires { HasBase base body.now }
    ensures { ReadsBehind negative body.now result }
{
    match all_digits(&body[2..], base, 0) {
        Some(digits) => int_number(negative, digits.value),
        None => Err(Reason::Malformed),
    }
}

fn plain_number(negative: bool, body: &[u8]) -> Result<Number, Reason>
    requires { (base : ℕ) → HasBase base body.now → ⊥ }
    ensures { ReadsBehind negative body.now result }
{
    let Some(whole) = whole_of(body) else {
        return Err(Reason::Malformed);
    };
    if whole.used == body.len() {
        return int_number(negative, whole.value);
    }
    match tail_of(&body[whole.used..], whole.value) {
        None => Err(Reason::Malformed),
        Some(tail) if tail.float => Err(Reason::Float),
        Some(tail) => decimal_number(negative, tail),
    }
}

// The int of that sign and magnitude, of which 2^127 stands for all above.
fn int_number(negative: bool, magnitude: u128) -> Result<Number, Reason>
    requires { magnitude ≤ 2 ^ 127 }
    ensures ok { IfOk result (λ x. (n : ℕ) → magnitude ≡ min n (2 ^ 127)
        → (x ≡ numbers.Int (signed negative n)) × Fits x) }
    ensures err { IfErr result (λ e. (e ≡ TooLarge)
        × ((n : ℕ) → magnitude ≡ min n (2 ^ 127) → Fits (numbers.Int (signed negative n)) → ⊥)) }
{
    if magnitude >= 1 << 127 {
        return Err(Reason::TooLarge);
    }
    let value = magnitude as i128;
    match Whole::new(if negative { -value } else { value }) {
        Some(whole) => Ok(Number::Int(whole)),
        None => Err(Reason::TooLarge),
    }
}

// The decimal of that sign and tail.
fn decimal_number(negative: bool, tail: Tail) -> Result<Number, Reason>
    ensures ok { IfOk result (λ x. (m n : ℕ) → tail.value ≡ min m (2 ^ 127)
        → tail.written ≡ min n (2 ^ 127)
        → (x ≡ decimal_read negative m tail.below n tail.count) × Fits x) }
    ensures err { IfErr result (λ e. (e ≡ TooLarge)
        × ((m n : ℕ) → tail.value ≡ min m (2 ^ 127) → tail.written ≡ min n (2 ^ 127)
        → Fits (decimal_read negative m tail.below n tail.count) → ⊥)) }
{
    let Some(exponent) = power(tail) else {
        return Err(Reason::TooLarge);
    };
    match Decimal::new(negative, tail.value, exponent) {
        Some(decimal) => Ok(Number::Decimal(decimal)),
        None => Err(Reason::TooLarge),
    }
}
