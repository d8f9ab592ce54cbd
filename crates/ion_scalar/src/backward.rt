//! A buffer that is written from its end.
ghost use Rattle.std.specs.Prelude.{◌≡◌, ℕ, ◌+◌, ◌-◌, ◌/◌, ◌^◌, ◌<◌, ◌≤◌, ◌⊎◌, [], ◌∷◌, ◌++◌, length};
ghost use Rattle.std.specs.Fmt.{decimal};
ghost use Rattle.std.specs.Int.Digits.{digits_of};
ghost use Rattle.ion_scalar.specs.Names.{sign_bit as spelled_sign, signed_digits};

use std::marker::Model;

/// As many octets as the longest number takes: a timestamp as text, up to the second, with a point,
/// 38 digits and an offset.
pub const ROOM: usize = 64;

/// Ten to the nineteenth: a number below it fits 64 bits.
const TEN_TO_19: u128 = 10_000_000_000_000_000_000;

/// Octets that are written from the last to the first, as the digits of a number come. Contracts
/// see those that are written.
#[derive(Drop)]
pub struct Backward {
    octets: [u8; ROOM],
    start: usize,
}

impl Model for Backward {
    ghost use Rattle.std.specs.Prelude.{ℕ, List, ◌≤◌, drop};
    ghost use Rattle.ion_scalar.specs.declared.backward.TheConstants.{ROOM};

    ghost Value = { List ℕ };

    ghost view = { λ b. drop b.start b.octets };

    ghost invariant = { λ b. b.start ≤ ROOM };
}

impl Backward {
    /// A buffer of which nothing is written yet.
    #[inline(always)]
    pub fn new() -> Backward
        ensures { result ≡ [] }
    {
        Backward {
            octets: [0; ROOM],
            start: ROOM,
        }
    }

    /// What is written.
    #[inline(always)]
    pub fn written(&self) -> &[u8]
        ensures { result.now ≡ self.now }
    {
        &self.octets[self.start..]
    }

    /// Writes one octet in front of what is written.
    #[inline(always)]
    pub fn push_front(&mut self, octet: u8)
        requires { length self.old < ROOM }
        ensures { self.new ≡ octet ∷ self.old }
    {
        self.start -= 1;
        self.octets[self.start] = octet;
    }

    /// Writes all these octets in front of what is written.
    #[inline(always)]
    pub fn push_all_front(&mut self, octets: &[u8])
        requires { length octets.now + length self.old ≤ ROOM }
        ensures { self.new ≡ octets.now ++ self.old }
    {
        let start = self.start - octets.len();
        self.octets[start..self.start].copy_from_slice(octets);
        self.start = start;
    }

    // The loops below keep the place in a variable of their own, which stays in a register.

    /// Writes the digits of `value` in the base. It stands where it is called, since the bases are
    /// powers of two there, and no division is left of 128 bits.
    #[inline(always)]
    pub fn push_digits(&mut self, base: u128, value: u128)
        requires base { (2 ≤ base) × (base ≤ 256) }
        requires room { value < base ^ (ROOM - length self.old) }
        ensures digits { self.new ≡ digits_of base value ++ self.old }
        ensures few { (k : ℕ) → value < base ^ k → length self.new ≤ length self.old + k }
    {
        let mut start = self.start;
        let mut rest = value;
        while rest > 0 {
            start -= 1;
            self.octets[start] = (rest % base) as u8;
            rest /= base;
        }
        self.start = start;
    }

    /// Writes the digits of `value` in the base, with the sign in the first or in front of it.
    #[inline(always)]
    pub fn push_signed(&mut self, base: u128, negative: bool, value: u128)
        requires base { (base ≡ 128) ⊎ (base ≡ 256) }
        requires within { length self.old < ROOM }
        requires room { value < base ^ (ROOM - length self.old - 1) }
        ensures digits { self.new
            ≡ signed_digits (base / 2) negative (digits_of base value) ++ self.old }
        ensures few { (k : ℕ) → value < base ^ k → length self.new ≤ length self.old + k + 1 }
    {
        let bit = base / 2;
        let mut start = self.start;
        let mut rest = value;
        while rest >= bit {
            start -= 1;
            self.octets[start] = (rest % base) as u8;
            rest /= base;
        }
        start -= 1;
        self.octets[start] = sign_bit(bit as u8, negative) + rest as u8;
        self.start = start;
    }

    /// Writes a number of 64 bits in decimal.
    pub fn push_decimal(&mut self, value: u64)
        requires { length self.old + 20 ≤ ROOM }
        ensures text { self.new ≡ decimal value ++ self.old }
        ensures few { length self.new ≤ length self.old + 20 }
    {
        let mut start = self.start;
        let mut rest = value;
        while rest >= 10 {
            start -= 1;
            self.octets[start] = b'0' + (rest % 10) as u8;
            rest /= 10;
        }
        start -= 1;
        self.octets[start] = b'0' + rest as u8;
        self.start = start;
    }

    /// Writes a number beyond 64 bits in decimal. Its last nineteen digits fit those, and so do the
    /// others: a division of 128 bits takes ten times as long.
    pub fn push_long_decimal(&mut self, value: u128)
        requires room { length self.old + 39 ≤ ROOM }
        requires long { (2 ^ 64 ≤ value) × (value ≤ 2 ^ 127) }
        ensures text { self.new ≡ decimal value ++ self.old }
        ensures few { length self.new ≤ length self.old + 39 }
    {
        let mut start = self.start;
        let mut last = (value % TEN_TO_19) as u64;
        for _ in 0..19_u8 {
            start -= 1;
            self.octets[start] = b'0' + (last % 10) as u8;
            last /= 10;
        }
        self.start = start;
        self.push_decimal((value / TEN_TO_19) as u64);
    }
}

/// The bit of the sign, where the number is negative.
pub fn sign_bit(bit: u8, negative: bool) -> u8
    ensures { result ≡ spelled_sign bit negative }
{
    if negative { bit } else { 0 }
}
