//! Decimals.
ghost use Rattle.std.specs.Prelude.{◌≡◌, ◌<◌, ◌≤ℤ◌, ◌-ℤ◌, ◌*◌, ◌^◌, SomeIff, unsigned_abs};
ghost use Rattle.ion_atoms.specs.Decimals.{DecimalParts, IsDecimal, decimal_same, decimal_cmp, decimal_sum, sum_at};

use crate::halves::Halves;
use std::cmp::Ordering;
use std::fmt::{self, Debug, Formatter};
use std::marker::Model;

/// A decimal: a coefficient of sign and magnitude, so that zero has two, and a power of ten that it
/// is multiplied by (Ion 1.0, "Decimal"). Kept are magnitudes below 2^127 and exponents from -2^31
/// to 2^31-1. Numerically equal decimals of different exponents are different values.
#[derive(Clone, Copy, PartialEq, Eq)]
pub struct Decimal {
    magnitude: Halves,
    exponent: i32,
    negative: bool,
}

impl Model for Decimal {
    ghost use Rattle.ion_atoms.specs.Decimals.{DecimalParts, IsDecimal};

    ghost Value = { DecimalParts };

    ghost view = { λ d. record {
      negative = d.negative;
      magnitude = d.magnitude;
      exponent = d.exponent;
    } };

    ghost invariant = { λ d. IsDecimal
        (record { negative = d.negative; magnitude = d.magnitude; exponent = d.exponent }) };

    ghost inverse = { λ d. record {
      negative = d.negative;
      magnitude = d.magnitude;
      exponent = d.exponent;
    } };
}

impl Debug for Decimal {
    fn fmt<W: fmt::Write>(&self, f: &mut Formatter<W>) -> fmt::Result {
        f.debug_struct("Decimal")
            .field("negative", &self.negative())
            .field("magnitude", &self.magnitude())
            .field("exponent", &self.exponent())
            .finish()
    }
}

impl Decimal {
    /// The decimal of this sign, magnitude and exponent; `None` exactly where the magnitude is
    /// 2^127 or more. Takes no memory.
    #[inline(always)]
    pub fn new(negative: bool, magnitude: u128, exponent: i32) -> Option<Decimal>
        ensures { let parts : DecimalParts =
            record { negative = negative; magnitude = magnitude; exponent = exponent } in
            SomeIff result (IsDecimal parts) parts }
    {
        if magnitude >= 1 << 127 {
            return None;
        }
        Some(Decimal {
            magnitude: Halves::new(magnitude),
            exponent,
            negative,
        })
    }

    /// Whether the coefficient has a minus; a zero may have one.
    #[inline(always)]
    pub fn negative(self) -> bool
        ensures { result ≡ self.negative }
    {
        self.negative
    }

    /// The coefficient without its sign, below 2^127.
    #[inline(always)]
    pub fn magnitude(self) -> u128
        ensures value { result ≡ self.magnitude }
        ensures kept { IsDecimal self }
    {
        self.magnitude.get()
    }

    /// The power of ten.
    #[inline(always)]
    pub fn exponent(self) -> i32
        ensures { result ≡ self.exponent }
    {
        self.exponent
    }

    /// The exact sum of both, at the smaller of their exponents; `None` exactly where its magnitude
    /// is 2^127 or more. A sum of zero has a minus where both decimals have one. Takes no memory.
    #[tactic(auto, using(crate::proofs::Sums::first_too_great, crate::proofs::Sums::second_too_great))]
    pub fn checked_add(self, other: Decimal) -> Option<Decimal>
        ensures { SomeIff result (IsDecimal (decimal_sum self other)) (decimal_sum self other) }
    {
        let exponent = self.exponent.min(other.exponent);
        let magnitude = self.magnitude_at(exponent)?;
        let added = other.magnitude_at(exponent)?;
        Decimal::sum_at(exponent, self.negative, magnitude, other.negative, added)
    }

    // The sum of two coefficients.
    #[tactic(auto, using(crate::proofs::Sums::same_signs, crate::proofs::Sums::second_greater, crate::proofs::Sums::first_greater, crate::proofs::Sums::neither_greater))]
    fn sum_at(
        exponent: i32,
        negative: bool,
        magnitude: u128,
        other_negative: bool,
        other_magnitude: u128,
    ) -> Option<Decimal>
        ensures { let sum = sum_at exponent negative magnitude other_negative other_magnitude in
            SomeIff result (IsDecimal sum) sum }
    {
        if negative == other_negative {
            let magnitude = magnitude.checked_add(other_magnitude)?;
            return Decimal::new(negative, magnitude, exponent);
        }
        let negative = match magnitude.cmp(&other_magnitude) {
            Ordering::Less => other_negative,
            Ordering::Equal => false,
            Ordering::Greater => negative,
        };
        Decimal::new(negative, magnitude.abs_diff(other_magnitude), exponent)
    }

    // The magnitude as it is written at an exponent that isn't above the decimal's own.
    fn magnitude_at(self, exponent: i32) -> Option<u128>
        requires { exponent ≤ℤ self.exponent }
        ensures { let magnitude = self.magnitude * 10 ^ unsigned_abs (self.exponent -ℤ exponent) in
            SomeIff result (magnitude < 2 ^ 128) magnitude }
    {
        if self.magnitude.get() == 0 {
            return Some(0);
        }
        let power = 10u128.checked_pow(self.exponent.abs_diff(exponent))?;
        self.magnitude.get().checked_mul(power)
    }

    /// Whether both agree in sign, magnitude and exponent.
    pub fn same(self, other: Decimal) -> bool
        ensures { result ≡ decimal_same self other }
    {
        let signs = self.negative == other.negative;
        signs && self.magnitude.get() == other.magnitude.get() && self.exponent == other.exponent
    }

    /// The order of decimals: by exponent, then a minus first, then by magnitude.
    pub fn order(self, other: Decimal) -> Ordering
        ensures { result ≡ decimal_cmp self other }
    {
        let exponents = self.exponent.cmp(&other.exponent);
        exponents
            .then(other.negative.cmp(&self.negative))
            .then(self.magnitude.get().cmp(&other.magnitude.get()))
    }
}
