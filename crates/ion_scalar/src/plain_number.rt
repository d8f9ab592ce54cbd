//! Ints and decimals of few plain digits, once it is known where these stand.
ghost use Rattle.std.specs.Prelude.{◌≡◌, ◌<◌, ◌≤◌, ◌+◌, ◌*◌, ◌^◌, ℕ, length, get_or, Ok};
ghost use Rattle.ion_scalar.specs.Names.{HasParts, Number as AnyNumber, ReadsNumber};
ghost use Rattle.ion_scalar.specs.text.PlainNumerals.{IsPlainDigit, PlainToken};
ghost use Rattle.ion_scalar.specs.text.laws.ShortNumbers.{PlainRun};

use crate::ints::split_sign;
use crate::short_number::{ShortNumber, short_decimal, short_int};

/// The parts of the int or decimal that a whole token spells, whose digits are plain and at most 19.
/// Behind its sign so many octets are its whole part; a point and digits or none follow, or nothing
/// (Ion 1.0, "Ion Text Encoding" and its grammar, ints and decimals).
#[inline(always)]
pub fn plain_number_of(token: &[u8], whole: usize) -> ShortNumber
    requires { PlainToken token.now whole }
    ensures { (x : AnyNumber) → HasParts result x → ReadsNumber token.now (Ok x) }
{
    let (negative, body) = split_sign(token);
    let front = known_digits(body, whole, 0);
    if whole == body.len() {
        return short_int(negative, front);
    }
    let fraction = &body[whole + 1..];
    let magnitude = known_digits(fraction, fraction.len(), front);
    short_decimal(negative, magnitude, fraction.len())
}

/// The number of so many digits at the front, behind others of the number `before`.
#[inline(always)]
fn known_digits(octets: &[u8], count: usize, before: u64) -> u64
    requires within { count ≤ length octets.now }
    requires digits { (i : ℕ) → i < count → IsPlainDigit (get_or octets.now i 0) }
    requires room { (before + 1) * 10 ^ length octets.now ≤ 2 ^ 64 }
    ensures { PlainRun octets.now before count result }
{
    let mut value = before;
    let mut used = 0;
    while used < count {
        value = value * 10 + (u64::from(octets[used]) - 48);
        used += 1;
    }
    value
}
