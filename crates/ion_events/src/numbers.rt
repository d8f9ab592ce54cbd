//! Numbers as entries.
ghost use Rattle.std.specs.Prelude.{◌≡◌, ◌++◌, ◌∷◌, ◌<◌, ◌^◌, [], length, true};
ghost use Rattle.ion_events.specs.Names.{beyond, decimal_entries, fraction_entries, goes_on, high, int_entries, is_int64, local_number, low, number_entries, offset_count, precision_code, timestamp_entries};

use crate::codes::{GREAT_INT, code_of};
use crate::entry::Entry;
use ion_model::{Decimal, Kind, Local, Precision, Timestamp, Whole};
use ion_scalar::Number;

/// Lays a number behind entries; `false` where memory was refused.
pub fn lay_number(entries: &mut Vec<Entry>, number: Number) -> bool
    ensures { result ≡ true → entries.new.items ≡ entries.old.items ++ number_entries number }
{
    match number {
        Number::Int(whole) => lay_int(entries, whole),
        Number::Decimal(decimal) => lay_decimal(entries, decimal),
        Number::Timestamp(timestamp) => lay_timestamp(entries, timestamp),
    }
}

fn lay_int(entries: &mut Vec<Entry>, whole: Whole) -> bool
    ensures { result ≡ true → entries.new.items ≡ entries.old.items ++ int_entries whole }
{
    let value = whole.get();
    if is_int64(value) {
        let number = (value as i64).cast_unsigned();
        return entries
            .push(Entry::plain(code_of(Kind::Int), 0, number))
            .is_ok();
    }
    let magnitude = value.unsigned_abs();
    let head = Entry {
        kind: GREAT_INT,
        detail: u8::from(value < 0),
        more: 1,
        count: 0,
        number: low(magnitude),
    };
    entries.push(head).is_ok() && entries.push(Entry::goes_on(high(magnitude))).is_ok()
}

// Whether 64 bits hold an int.
#[inline(always)]
fn is_int64(value: i128) -> bool
    ensures { result ≡ is_int64 value }
{
    value >= i128::from(i64::MIN) && value <= i128::from(i64::MAX)
}

fn lay_decimal(entries: &mut Vec<Entry>, decimal: Decimal) -> bool
    ensures { result ≡ true → entries.new.items ≡ entries.old.items ++ decimal_entries decimal }
{
    let magnitude = decimal.magnitude();
    let head = Entry {
        kind: code_of(Kind::Decimal),
        detail: u8::from(decimal.negative()),
        more: halves_beyond(magnitude),
        count: decimal.exponent().cast_unsigned(),
        number: low(magnitude),
    };
    entries.push(head).is_ok() && lay_beyond(entries, magnitude)
}

fn lay_timestamp(entries: &mut Vec<Entry>, timestamp: Timestamp) -> bool
    ensures { result ≡ true → entries.new.items ≡ entries.old.items ++ timestamp_entries timestamp }
{
    let local = timestamp.local();
    let precision = timestamp.precision();
    let head = Entry {
        kind: code_of(Kind::Timestamp),
        detail: precision_code(precision),
        more: fraction_count(precision, local.fraction),
        count: offset_count(timestamp.offset()),
        number: local_number(local),
    };
    entries.push(head).is_ok() && lay_fraction(entries, precision, local.fraction)
}

// The low half of a number.
#[inline(always)]
fn low(number: u128) -> u64
    ensures { result ≡ low number }
{
    (number % (1 << 64)) as u64
}

// The high half.
#[inline(always)]
fn high(number: u128) -> u64
    ensures { result ≡ high number }
{
    (number >> 64) as u64
}

// How many entries go on with a number.
#[inline(always)]
fn halves_beyond(number: u128) -> u16
    ensures { result ≡ length (beyond number) }
{
    u16::from(high(number) > 0)
}

// Lays the high half of a number behind entries, where it needs one.
#[inline(always)]
fn lay_beyond(entries: &mut Vec<Entry>, number: u128) -> bool
    ensures { result ≡ true → entries.new.items ≡ entries.old.items ++ beyond number }
{
    let beyond = high(number);
    beyond == 0 || entries.push(Entry::goes_on(beyond)).is_ok()
}

// How much of a timestamp is known.
#[inline(always)]
fn precision_code(precision: Precision) -> u8
    requires { precision_code precision < 256 }
    ensures { result ≡ precision_code precision }
{
    match precision {
        Precision::Year => 1,
        Precision::Month => 2,
        Precision::Day => 3,
        Precision::Minute => 4,
        Precision::Second => 5,
        Precision::Fraction(digits) => 5 + digits,
    }
}

#[inline(always)]
fn offset_count(offset: Option<i16>) -> u32
    ensures { result ≡ offset_count offset }
{
    match offset {
        Some(minutes) => i32::from(minutes).cast_unsigned(),
        None => 1 << 31,
    }
}

#[inline(always)]
fn local_number(local: Local) -> u64
    ensures { result ≡ local_number local }
{
    u64::from(local.year)
        + (1 << 16) * u64::from(local.month)
        + (1 << 24) * u64::from(local.day)
        + (1 << 32) * u64::from(local.hour)
        + (1 << 40) * u64::from(local.minute)
        + (1 << 48) * u64::from(local.second)
}

// How many entries go on with a timestamp.
#[inline(always)]
fn fraction_count(precision: Precision, fraction: u128) -> u16
    ensures { result ≡ length (fraction_entries precision fraction) }
{
    match precision {
        Precision::Fraction(_) => 1 + halves_beyond(fraction),
        _ => 0,
    }
}

// Lays the fraction of a second behind entries, where there is one.
#[inline(always)]
fn lay_fraction(entries: &mut Vec<Entry>, precision: Precision, fraction: u128) -> bool
    ensures { result ≡ true
        → entries.new.items ≡ entries.old.items ++ fraction_entries precision fraction }
{
    match precision {
        Precision::Fraction(_) => {
            entries.push(Entry::goes_on(low(fraction))).is_ok() && lay_beyond(entries, fraction)
        }
        _ => true,
    }
}
