//! The parts of timestamp tokens (Ion 1.0, "Timestamps").
ghost use Rattle.std.specs.Prelude.{ℕ, ◌≡◌, ◌<◌, ◌≤◌, ◌+◌, ◌-◌, ◌*◌, ◌^◌, ◌++◌, List, length, drop, min, slice_index, IfSome, IfNone, SomeIff, IsTrue, ◌↔◌, ◌⊎◌, ◌==◌, if◌then◌else◌, pos, neg_ℤ, Some, None, false};
ghost use Rattle.ion_scalar.specs.Names.{AreFourAt, AreTwoAt, BeginsWithDay, BeginsWithMinute, BeginsWithMonth, BeginsWithSecond, IsAt, IsDay, IsDigitAt, IsFractionEnd, IsMonth, IsOffsetToken, IsPlain, IsShort, IsTimestampToken, IsYear, TimestampParts, dated, farthest_offset, four, minute_read, most_digits, number, offset_read, stamp, two};
ghost use Rattle.ion_scalar.specs.text.laws.TimestampForms.{ShownEnd};
ghost use Rattle.ion_atoms.specs.declared.timestamp.Precision.TheVariants as precisions;

use crate::digits::digits_at;
use crate::short_number::{MOST_SHORT_OCTETS, plain_digits};
use ion_atoms::bounds::{LAST_HOUR, LAST_MINUTE, MOST_DIGITS};
use ion_atoms::{Local, Precision};

// So many fraction digits stand for all numbers of them that are too great.
const TOO_MANY_DIGITS: usize = MOST_DIGITS as usize + 1;

/// The parts that a token spells, whether or not there is such a day and time.
#[derive(Clone, Copy, Debug)]
pub struct Stamp {
    /// A fraction of 2^127 stands for all from there on.
    pub local: Local,
    /// A fraction of 39 digits stands for all of more.
    pub precision: Precision,
    pub offset: Option<i16>,
}

#[inline(always)]
fn stamp_of_day(precision: Precision, year: u16, month: u8, day: u8) -> Stamp
    ensures { result ≡ record {
      local = (dated precision year month day).local;
      precision = precision;
      offset = None;
    } }
{
    Stamp {
        local: Local {
            year,
            month,
            day,
            hour: 0,
            minute: 0,
            second: 0,
            fraction: 0,
        },
        precision,
        offset: None,
    }
}

/// The digit at a place.
#[inline(always)]
fn digit_at(octets: &[u8], at: usize) -> Option<u8>
    ensures { SomeIff result (IsDigitAt octets.now at) (slice_index octets.now at - 48) }
{
    if at < octets.len() && octets[at] >= b'0' && octets[at] <= b'9' {
        Some(octets[at] - b'0')
    } else {
        None
    }
}

/// The number of two digits from a place on.
#[inline(always)]
pub fn two_at(octets: &[u8], at: usize) -> Option<u8>
    requires { at < 1000 }
    ensures value { SomeIff result (AreTwoAt octets.now at) (two octets.now at) }
    ensures below { IfSome result (λ n. n < 100) }
{
    match digit_at(octets, at) {
        Some(tens) => match digit_at(octets, at + 1) {
            Some(ones) => Some(tens * 10 + ones),
            None => None,
        },
        None => None,
    }
}

/// The number of four digits from a place on.
#[inline(always)]
fn four_at(octets: &[u8], at: usize) -> Option<u16>
    requires { at < 900 }
    ensures { SomeIff result (AreFourAt octets.now at) (four octets.now at) }
{
    match two_at(octets, at) {
        Some(hundreds) => match two_at(octets, at + 2) {
            Some(ones) => Some(u16::from(hundreds) * 100 + u16::from(ones)),
            None => None,
        },
        None => None,
    }
}

#[inline(always)]
fn is_at(octets: &[u8], at: usize, octet: u8) -> bool
    ensures { IsTrue result ↔ IsAt octets.now at octet }
{
    at < octets.len() && octets[at] == octet
}

/// `YYYY-MM` at the front.
#[inline(always)]
fn month_front(octets: &[u8]) -> Option<(u16, u8)>
    ensures { SomeIff result (BeginsWithMonth octets.now) (four octets.now 0, two octets.now 5) }
{
    if !is_at(octets, 4, b'-') {
        return None;
    }
    let Some(year) = four_at(octets, 0) else {
        return None
    };
    let Some(month) = two_at(octets, 5) else {
        return None
    };
    Some((year, month))
}

/// `YYYY-MM-DD` at the front.
#[inline(always)]
pub fn day_front(octets: &[u8]) -> Option<(u16, u8, u8)>
    ensures { SomeIff result (BeginsWithDay octets.now)
        (four octets.now 0, two octets.now 5, two octets.now 8) }
{
    if !is_at(octets, 7, b'-') {
        return None;
    }
    let Some((year, month)) = month_front(octets) else {
        return None
    };
    let Some(day) = two_at(octets, 8) else {
        return None
    };
    Some((year, month, day))
}

/// `YYYY-MM-DDThh:mm` at the front, as local fields.
#[inline(always)]
pub fn minute_front(octets: &[u8]) -> Option<Local>
    ensures { SomeIff result (BeginsWithMinute octets.now) (minute_read octets.now) }
{
    if !is_at(octets, 10, b'T') || !is_at(octets, 13, b':') {
        return None;
    }
    let Some((year, month, day)) = day_front(octets) else {
        return None
    };
    let Some(hour) = two_at(octets, 11) else {
        return None
    };
    let Some(minute) = two_at(octets, 14) else {
        return None
    };
    Some(Local {
        year,
        month,
        day,
        hour,
        minute,
        second: 0,
        fraction: 0,
    })
}

/// The offset in minutes that all of the octets are; `None` inside for the unknown one.
#[inline(always)]
fn offset_of(octets: &[u8]) -> Option<Option<i16>>
    ensures { SomeIff result (IsOffsetToken octets.now) (offset_read octets.now) }
{
    if octets.len() == 1 && octets[0] == b'Z' {
        return Some(Some(0));
    }
    if octets.len() != 6 || !is_at(octets, 3, b':') {
        return None;
    }
    let Some(hours) = two_at(octets, 1) else {
        return None
    };
    let Some(minutes) = two_at(octets, 4) else {
        return None
    };
    if hours > LAST_HOUR || minutes > LAST_MINUTE {
        return None;
    }
    signed_offset(octets[0], u16::from(hours) * 60 + u16::from(minutes))
}

/// The offset of a sign and so many minutes; `-00:00` is the unknown one.
#[inline(always)]
fn signed_offset(sign: u8, minutes: u16) -> Option<Option<i16>>
    requires { minutes ≤ farthest_offset }
    ensures { SomeIff result ((sign ≡ 43) ⊎ (sign ≡ 45))
        (if sign == 43 then Some (pos minutes) else if minutes == 0 then None else Some
        (neg_ℤ (pos minutes))) }
{
    let ahead = minutes as i16;
    match sign {
        b'+' => Some(Some(ahead)),
        b'-' if minutes == 0 => Some(None),
        b'-' => Some(Some(-ahead)),
        _ => None,
    }
}

#[inline(always)]
fn year_token(token: &[u8]) -> Option<Stamp>
    ensures { SomeIff result (IsYear token.now)
        (stamp (dated precisions.Year (four token.now 0) 1 1)) }
{
    if token.len() != 5 || !is_at(token, 4, b'T') {
        return None;
    }
    let Some(year) = four_at(token, 0) else {
        return None
    };
    Some(stamp_of_day(Precision::Year, year, 1, 1))
}

#[inline(always)]
fn month_token(token: &[u8]) -> Option<Stamp>
    ensures { SomeIff result (IsMonth token.now)
        (stamp (dated precisions.Month (four token.now 0) (two token.now 5) 1)) }
{
    if token.len() != 8 || !is_at(token, 7, b'T') {
        return None;
    }
    let Some((year, month)) = month_front(token) else {
        return None
    };
    Some(stamp_of_day(Precision::Month, year, month, 1))
}

/// Whether a token with a day at the front ends behind it, or behind a `T`.
#[inline(always)]
pub fn ends_day(token: &[u8]) -> bool
    ensures { IsTrue result
        ↔ ((length token.now ≡ 10) ⊎ ((length token.now ≡ 11) × IsAt token.now 10 84)) }
{
    token.len() == 10 || (token.len() == 11 && is_at(token, 10, b'T'))
}

#[inline(always)]
fn day_token(token: &[u8]) -> Option<Stamp>
    ensures { SomeIff result (IsDay token.now)
        (stamp (dated precisions.Day (four token.now 0) (two token.now 5) (two token.now 8))) }
{
    if !ends_day(token) {
        return None;
    }
    let Some((year, month, day)) = day_front(token) else {
        return None
    };
    Some(stamp_of_day(Precision::Day, year, month, day))
}

/// A minute or second, and an offset that all of the octets behind it are.
#[inline(always)]
fn with_offset(local: Local, precision: Precision, octets: &[u8]) -> Option<Stamp>
    ensures { SomeIff result (IsOffsetToken octets.now)
        (record { local = local; precision = precision; offset = offset_read octets.now }) }
{
    let Some(offset) = offset_of(octets) else {
        return None
    };
    Some(Stamp {
        local,
        precision,
        offset,
    })
}

/// What stands behind the point of a second: digits and an offset.
#[inline(always)]
fn with_fraction(local: Local, octets: &[u8]) -> Option<Stamp>
    ensures some { IfSome result (ShownEnd local octets.now) }
    ensures none { IfNone result ((digits rest : List ℕ) → IsFractionEnd octets.now digits rest
        → ⊥) }
{
    let digits = digits_at(octets, 10, 0);
    if digits.used == 0 || digits.count != digits.used {
        return None;
    }
    let local = Local {
        fraction: digits.value,
        ..local
    };
    let precision = Precision::Fraction(digits.count.min(TOO_MANY_DIGITS) as u8);
    with_offset(local, precision, &octets[digits.used..])
}

/// What stands behind the point of a second: digits and an offset, at most 19 octets.
#[inline(always)]
fn with_short_fraction(local: Local, octets: &[u8]) -> Option<Stamp>
    ensures { IfSome result (ShownEnd local octets.now) }
{
    if octets.len() > MOST_SHORT_OCTETS {
        return None;
    }
    let digits = plain_digits(octets, 0);
    if digits.used == 0 {
        return None;
    }
    let local = Local {
        fraction: u128::from(digits.value),
        ..local
    };
    let precision = Precision::Fraction(digits.used as u8);
    with_offset(local, precision, &octets[digits.used..])
}

/// What a whole token with a time spells; of a fraction that isn't short nothing is told if it is
/// to be.
#[inline(always)]
pub fn time_token(token: &[u8], short: bool) -> Option<Stamp>
    ensures some { IfSome result (λ s. (t : TimestampParts) × IsTimestampToken token.now t
        × (s ≡ stamp t)) }
    ensures none { short ≡ false → IfNone result (BeginsWithMinute token.now
        → (t : TimestampParts) → IsTimestampToken token.now t → ⊥) }
{
    let Some(minute) = minute_front(token) else {
        return None
    };
    if !is_at(token, 16, b':') {
        return with_offset(minute, Precision::Minute, &token[16..]);
    }
    let Some(second) = two_at(token, 17) else {
        return None
    };
    let local = Local { second, ..minute };
    if !is_at(token, 19, b'.') {
        return with_offset(local, Precision::Second, &token[19..]);
    }
    if short {
        return with_short_fraction(local, &token[20..]);
    }
    with_fraction(local, &token[20..])
}

/// What a whole token of at most 11 octets spells: a year, a month or a day.
#[inline(always)]
pub fn date_token(token: &[u8]) -> Option<Stamp>
    requires { length token.now ≤ 11 }
    ensures some { IfSome result (λ s. (t : TimestampParts) × IsTimestampToken token.now t
        × (s ≡ stamp t)) }
    ensures none { IfNone result ((t : TimestampParts) → IsTimestampToken token.now t → ⊥) }
{
    match token.len() {
        5 => year_token(token),
        8 => month_token(token),
        10 | 11 => day_token(token),
        _ => None,
    }
}

/// The parts that a whole token spells, if it has a form of a timestamp.
#[inline(always)]
pub fn stamp_of(token: &[u8]) -> Option<Stamp>
    ensures some { IfSome result (λ s. (t : TimestampParts) × IsTimestampToken token.now t
        × (s ≡ stamp t)) }
    ensures none { IfNone result ((t : TimestampParts) → IsTimestampToken token.now t → ⊥) }
{
    if token.len() <= 11 {
        date_token(token)
    } else {
        time_token(token, false)
    }
}

/// At most 38 fraction digits.
#[inline(always)]
pub fn is_short(precision: Precision) -> bool
    ensures { IsTrue result ↔ IsShort precision }
{
    match precision {
        Precision::Fraction(digits) => digits <= MOST_DIGITS,
        _ => true,
    }
}
