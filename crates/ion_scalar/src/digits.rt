//! Runs of digits in a token, with at most one `_` between two of them.
ghost use Rattle.std.specs.Prelude.{◌≡◌, ◌<◌, ◌≤◌, ◌^◌, ◌*◌, ◌+◌, length, take, drop, min, slice_index, SomeIff, IsSome, IfSome, ◌↔◌};
ghost use Rattle.std.specs.Char.{digit_value};
ghost use Rattle.ion_scalar.specs.Names.{BeginsWithNone, GoesNotOn, IsDigits, continued, digits_in};

/// Where numbers stop: 2^127 stands for it and all above.
pub const CAP: u128 = 1 << 127;

/// A run of digits at the front of some octets.
#[derive(Clone, Copy, Debug, PartialEq, Eq)]
pub struct Digits {
    /// Their number, or the cap.
    pub value: u128,
    /// How many digits.
    pub count: usize,
    /// How many octets.
    pub used: usize,
}

/// The digit at a place, if one is there.
#[inline(always)]
pub fn digit_at(octets: &[u8], at: usize, base: u32) -> Option<u32>
    requires { (2 ≤ base) × (base ≤ 16) }
    ensures { SomeIff result ((at < length octets.now)
        × (digit_value (slice_index octets.now at) < base))
        (digit_value (slice_index octets.now at)) }
{
    if at >= octets.len() {
        return None;
    }
    let octet = octets[at];
    if b'0' <= octet && octet <= b'9' {
        let digit = u32::from(octet - b'0');
        return if digit < base { Some(digit) } else { None };
    }
    char::from(octet).to_digit(base)
}

/// One digit more, up to the cap; few numbers are so large that it takes more than 64 bits, and of
/// those few come near the cap.
#[inline(always)]
pub fn more(value: u128, base: u32, digit: u32) -> u128
    requires { (value ≤ 2 ^ 127) × (base ≤ 16) × (digit < base) }
    ensures { result ≡ min (value * base + digit) (2 ^ 127) }
{
    if value < 1 << 59 {
        return u128::from(value as u64 * u64::from(base) + u64::from(digit));
    }
    if value < 1 << 122 {
        return value * u128::from(base) + u128::from(digit);
    }
    value
        .saturating_mul(u128::from(base))
        .saturating_add(u128::from(digit))
        .min(CAP)
}

/// The longest run of digits at the front.
#[inline(always)]
pub fn digits_at(octets: &[u8], base: u32, before: u128) -> Digits
    requires { (2 ≤ base) × (base ≤ 16) × (before ≤ 2 ^ 127) }
    ensures within { result.used ≤ length octets.now }
    ensures digits { 0 < result.used → IsDigits base (take result.used octets.now) }
    ensures none { BeginsWithNone base (drop result.used octets.now) }
    ensures longest { 0 < result.used → GoesNotOn base (drop result.used octets.now) }
    ensures value { result.value ≡ min (continued base before (take result.used octets.now))
        (2 ^ 127) }
    ensures count { result.count ≡ length (digits_in (take result.used octets.now)) }
{
    let mut digits = Digits {
        value: before,
        count: 0,
        used: 0,
    };
    let mut at = 0;
    while let Some(digit) = digit_at(octets, at, base) {
        digits = Digits {
            value: more(digits.value, base, digit),
            count: digits.count + 1,
            used: at + 1,
        };
        at += 1;
        if at < octets.len() && octets[at] == b'_' {
            at += 1;
        }
    }
    digits
}

/// The digits, if they are all of the octets.
pub fn all_digits(octets: &[u8], base: u32, before: u128) -> Option<Digits>
    requires { (2 ≤ base) × (base ≤ 16) × (before ≤ 2 ^ 127) }
    ensures digits { IsSome result ↔ IsDigits base octets.now }
    ensures value { IfSome result (λ d. d.value ≡ min (continued base before octets.now)
        (2 ^ 127)) }
    ensures count { IfSome result (λ d. d.count ≡ length (digits_in octets.now)) }
{
    let digits = digits_at(octets, base, before);
    if digits.used == 0 || digits.used < octets.len() {
        None
    } else {
        Some(digits)
    }
}
