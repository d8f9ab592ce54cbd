//! The parts of decimal tokens (Ion 1.0, "Ion Text Encoding" and its grammar, decimals).
ghost use Rattle.std.specs.Prelude.{Bool, ℕ, ℤ, ◌≡◌, ◌<◌, ◌≤◌, ◌^◌, ◌++◌, List, length, take, min, pos, ◌-ℤ◌, IfSome, IfNone};
ghost use Rattle.ion_scalar.specs.Names.{GoesNotOn, IsEnd, IsExponent, IsFraction, IsPlain, IsPower, IsSigned, IsTail, IsWholePart, Shows, number, signed};

use crate::digits::{Digits, all_digits, digits_at};

/// What stands behind the whole part of a decimal or a float.
#[derive(Clone, Copy, Debug, PartialEq, Eq)]
pub struct Tail {
    /// Whether its exponent has the letter of a float.
    pub float: bool,
    /// The number of all digits, those of the whole part too, or the cap.
    pub value: u128,
    /// How many fraction digits.
    pub count: usize,
    /// Whether the written exponent has a minus.
    pub below: bool,
    /// The written exponent's magnitude, or the cap.
    pub written: u128,
}

/// A written exponent.
#[derive(Clone, Copy, Debug, PartialEq, Eq)]
pub struct Exponent {
    pub float: bool,
    pub below: bool,
    pub written: u128,
}

/// The number of digits without `_`, or the cap.
fn plain_of(octets: &[u8]) -> Option<u128>
    ensures some { IfSome result (λ v. IsPlain octets.now
        × (v ≡ min (number 10 octets.now) (2 ^ 127))) }
    ensures none { IfNone result (IsPlain octets.now → ⊥) }
{
    match all_digits(octets, 10, 0) {
        Some(digits) if digits.count == octets.len() => Some(digits.value),
        _ => None,
    }
}

/// A sign, true for `-`, and such a number.
fn signed_of(octets: &[u8]) -> Option<(bool, u128)>
    ensures some { IfSome result (λ r. (n : ℕ) × IsSigned octets.now r.0 n
        × (r.1 ≡ min n (2 ^ 127))) }
    ensures none { IfNone result ((s : Bool) (n : ℕ) → IsSigned octets.now s n → ⊥) }
{
    if octets.is_empty() {
        return None;
    }
    match octets[0] {
        b'-' => match plain_of(&octets[1..]) {
            Some(magnitude) => Some((true, magnitude)),
            None => None,
        },
        b'+' => match plain_of(&octets[1..]) {
            Some(magnitude) => Some((false, magnitude)),
            None => None,
        },
        _ => match plain_of(octets) {
            Some(magnitude) => Some((false, magnitude)),
            None => None,
        },
    }
}

/// An exponent.
fn exponent_of(octets: &[u8]) -> Option<Exponent>
    ensures some { IfSome result (λ r. (n : ℕ) × IsExponent octets.now r.float r.below n
        × (r.written ≡ min n (2 ^ 127))) }
    ensures none { IfNone result ((float s : Bool) (n : ℕ) → IsExponent octets.now float s n → ⊥) }
{
    if octets.is_empty() {
        return None;
    }
    let float = match octets[0] {
        b'd' | b'D' => false,
        b'e' | b'E' => true,
        _ => return None,
    };
    match signed_of(&octets[1..]) {
        Some((below, written)) => Some(Exponent {
            float,
            below,
            written,
        }),
        None => None,
    }
}

/// Nothing, or an exponent.
fn end_of(octets: &[u8]) -> Option<Exponent>
    ensures some { IfSome result (λ r. (n : ℕ) × IsEnd octets.now r.float r.below n
        × (r.written ≡ min n (2 ^ 127))) }
    ensures none { IfNone result ((float s : Bool) (n : ℕ) → IsEnd octets.now float s n → ⊥) }
{
    if octets.is_empty() {
        Some(Exponent {
            float: false,
            below: false,
            written: 0,
        })
    } else {
        exponent_of(octets)
    }
}

/// What stands behind the point, behind digits of the number `before`.
fn fraction_of(octets: &[u8], before: u128) -> Option<Tail>
    requires { before ≤ 2 ^ 127 }
    ensures some { IfSome result (Shows (IsFraction octets.now) before) }
    ensures none { IfNone result ((f : List ℕ) (float s : Bool) (n : ℕ)
        → IsFraction octets.now f float s n → ⊥) }
{
    let fraction = digits_at(octets, 10, before);
    match end_of(&octets[fraction.used..]) {
        Some(exponent) => Some(Tail {
            float: exponent.float,
            value: fraction.value,
            count: fraction.count,
            below: exponent.below,
            written: exponent.written,
        }),
        None => None,
    }
}

/// What stands behind the whole part, whose number is `before`.
pub fn tail_of(tail: &[u8], before: u128) -> Option<Tail>
    requires { before ≤ 2 ^ 127 }
    ensures some { IfSome result (Shows (IsTail tail.now) before) }
    ensures none { IfNone result ((f : List ℕ) (float s : Bool) (n : ℕ)
        → IsTail tail.now f float s n → ⊥) }
{
    if tail.is_empty() {
        return None;
    }
    if tail[0] == b'.' {
        return match fraction_of(&tail[1..], before) {
            Some(read) => Some(read),
            None => None,
        };
    }
    match exponent_of(tail) {
        Some(exponent) => Some(Tail {
            float: exponent.float,
            value: before,
            count: 0,
            below: exponent.below,
            written: exponent.written,
        }),
        None => None,
    }
}

/// The whole part at the front: `0`, or digits that begin with 1 to 9.
pub fn whole_of(body: &[u8]) -> Option<Digits>
    ensures within { IfSome result (λ d. d.used ≤ length body.now) }
    ensures whole { IfSome result (λ d. IsWholePart (take d.used body.now)) }
    ensures value { IfSome result (λ d. d.value ≡ min (number 10 (take d.used body.now))
        (2 ^ 127)) }
    ensures only { IfSome result (λ d. (w t : List ℕ) → body.now ≡ w ++ t → IsWholePart w
        → GoesNotOn 10 t → w ≡ take d.used body.now) }
    ensures none { IfNone result ((w t : List ℕ) → body.now ≡ w ++ t → IsWholePart w
        → GoesNotOn 10 t → ⊥) }
{
    let digits = digits_at(body, 10, 0);
    if digits.used == 0 {
        return None;
    }
    if digits.used > 1 && body[0] == b'0' {
        return None;
    }
    Some(digits)
}

/// A number with its sign, less another.
fn difference(below: bool, written: u128, count: usize) -> i128
    requires { written < 2 ^ 100 }
    ensures { result ≡ signed below written -ℤ pos count }
{
    let written = written as i128;
    if below {
        -written - count as i128
    } else {
        written - count as i128
    }
}

/// The power of ten: the written exponent less the number of fraction digits, if it is in an
/// exponent's range.
pub fn power(tail: Tail) -> Option<i32>
    ensures some { IfSome result (λ e. (n : ℕ) → tail.written ≡ min n (2 ^ 127)
        → e ≡ signed tail.below n -ℤ pos tail.count) }
    ensures range { IfSome result (λ e. IsPower e) }
    ensures none { IfNone result ((n : ℕ) → tail.written ≡ min n (2 ^ 127)
        → IsPower (signed tail.below n -ℤ pos tail.count) → ⊥) }
{
    if tail.written >= 1 << 100 {
        return None;
    }
    let exponent = difference(tail.below, tail.written, tail.count);
    if exponent < -(1 << 31) || exponent >= 1 << 31 {
        return None;
    }
    Some(exponent as i32)
}
