//! The bodies of decimals in binary (Ion 1.0, "Ion Binary Encoding", decimal).
ghost use Rattle.std.specs.Prelude.{Result, ◌≡◌, ◌<◌, ◌^◌, IsTrue, SomeIff, is_ok};
ghost use Rattle.ion_scalar.specs.Names.{DecimalParts, ReadsDecimalBody, decimal_of_body, decimal_with, exponent_fits, signed, with_coefficient};

use crate::fields::{Signed, int_of, read_var_int};
use ion_atoms::{Decimal, Reason};

/// The decimal whose body is all of `octets`: the exponent as a VarInt, of which -0 reads as 0, and
/// behind it the coefficient as an Int, which may be -0 (Ion 1.0, "Ion Binary Encoding", decimal).
/// No octets are 0d0.
///
/// Answers `TooLarge` for an exponent outside -2^31 to 2^31-1, also one that reaches 2^63 and has
/// no end, and for a coefficient whose magnitude is 2^127 or more; `Malformed` where the exponent
/// does not end. These bounds are this project's. Takes no memory.
#[inline(always)]
pub fn decimal_of(octets: &[u8]) -> Result<Decimal, Reason>
    ensures value { result ≡ decimal_of_body octets.now }
    ensures answer { ReadsDecimalBody octets.now result }
    ensures only { (answer : Result DecimalParts Reason)
        → ReadsDecimalBody octets.now answer → result ≡ answer }
{
    read_decimal(octets)
}

/// Whether the octets are the body of a decimal, that is, whether `decimal_of` answers one. Takes
/// no memory.
#[inline(always)]
pub fn is_decimal_body(octets: &[u8]) -> bool
    ensures { result ≡ is_ok (decimal_of_body octets.now) }
{
    // an exponent of one octet, and a coefficient of less than 127 bits
    if !octets.is_empty() && octets[0] >= 128 && octets.len() < 16 {
        return true;
    }
    decimal_of(octets).is_ok()
}

#[tactic(auto, unfolding(crate::specs::binary::Decimal::decimal_of_body))]
#[inline(always)]
fn read_decimal(octets: &[u8]) -> Result<Decimal, Reason>
    ensures { result ≡ decimal_of_body octets.now }
{
    if octets.is_empty() {
        return Ok(decimal(false, 0, 0));
    }
    match read_var_int(octets) {
        Ok((power, used)) => coefficient_behind(power, &octets[used..]),
        Err(Reason::TooLarge) => Err(Reason::TooLarge),
        Err(_) => Err(Reason::Malformed),
    }
}

#[inline(always)]
fn coefficient_behind(power: Signed, octets: &[u8]) -> Result<Decimal, Reason>
    ensures { result ≡ with_coefficient power octets.now }
{
    let Some(exponent) = exponent_of(power) else {
        return Err(Reason::TooLarge);
    };
    let (negative, magnitude) = int_of(octets)?;
    Ok(decimal(negative, magnitude, exponent))
}

#[inline(always)]
fn decimal(negative: bool, magnitude: u128, exponent: i32) -> Decimal
    requires { magnitude < 2 ^ 127 }
    ensures { result ≡ decimal_with negative magnitude exponent }
{
    match Decimal::new(negative, magnitude, exponent) {
        Some(decimal) => decimal,
        None => unreachable!(),
    }
}

#[inline(always)]
fn exponent_of(power: Signed) -> Option<i32>
    ensures { SomeIff result (IsTrue (exponent_fits power))
        (signed power.negative power.magnitude) }
{
    if power.negative && power.magnitude <= 1 << 31 {
        return Some((-(power.magnitude as i64)) as i32);
    }
    if !power.negative && power.magnitude < 1 << 31 {
        return Some(power.magnitude as i32);
    }
    None
}
