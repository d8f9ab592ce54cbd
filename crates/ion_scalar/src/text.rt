//! Numbers written as text, each in its one spelling (Ion 1.0, "Ion Text Encoding" and its grammar,
//! ints, decimals and timestamps).
ghost use Rattle.std.specs.Prelude.{◌≡◌, ◌<◌, ◌≤◌, ◌+◌, ◌^◌, ◌∷◌, ◌++◌, OnOk, OnErr, IsOkUnless, Ok, ◌%◌, ◌/◌, IfSome, Some, length, vec_len, vec_capacity, unsigned_abs};
ghost use Rattle.std.specs.Fmt.{decimal, signed_decimal};
ghost use Rattle.ion_scalar.specs.Names.{IsOffset, IsShort, Memory, ROOM, ReadsNumber, clock_text, cut_text, day_text, decimal_text, farthest_offset, four_digits, minus, minute_text, month_text, number_text, offset_text, padded, second_text, timestamp_text};
ghost use Rattle.ion_scalar.specs.declared.number.Number.TheVariants as numbers;

use crate::backward::Backward;
use crate::number::Number;
use crate::put::append;
use ion_atoms::{Decimal, Local, Precision, Reason, Timestamp, Whole};

/// Appends the text of `number`: an int in decimal; a decimal as coefficient, `d` and exponent; a
/// timestamp to its precision, with `T` behind a year or month, `Z` for the offset 0 and `-00:00`
/// for the unknown one. Answers `Memory`, and leaves `out` as it was, where it has no room and gets
/// none.
pub fn put_number(number: &Number, out: &mut Vec<u8>) -> Result<(), Reason>
    ensures ok { OnOk result (out.new.items ≡ out.old.items ++ number_text number.now) }
    ensures err { OnErr result (out.new.items ≡ out.old.items) }
    ensures memory { IsOkUnless result Memory }
    ensures full { OnErr result (vec_capacity out.old < vec_len out.old + length
        (number_text number.now)) }
    ensures again { ReadsNumber (number_text number.now) (Ok number.now) }
{
    let mut octets = Backward::new();
    match number {
        Number::Int(whole) => int_before(&mut octets, *whole),
        Number::Decimal(decimal) => decimal_before(&mut octets, *decimal),
        Number::Timestamp(timestamp) => timestamp_before(&mut octets, *timestamp),
    }
    append(octets.written(), out)
}

// Each of these writes in front of what is written.

fn int_before(octets: &mut Backward, whole: Whole)
    requires { length octets.old + 40 ≤ ROOM }
    ensures text { octets.new ≡ signed_decimal whole ++ octets.old }
    ensures again { ReadsNumber (signed_decimal whole) (Ok (numbers.Int whole)) }
{
    let (negative, magnitude) = sign_of(whole.get());
    signed_before(octets, negative, magnitude);
}

// The sign, true for `-`, and the magnitude.
fn sign_of(value: i128) -> (bool, u128)
    ensures text { signed_decimal value ≡ minus result.0 ++ decimal result.1 }
    ensures magnitude { result.1 ≡ unsigned_abs value }
{
    (value < 0, value.unsigned_abs())
}

fn decimal_before(octets: &mut Backward, value: Decimal)
    requires { length octets.old + 62 ≤ ROOM }
    ensures text { octets.new ≡ decimal_text value ++ octets.old }
    ensures again { ReadsNumber (decimal_text value) (Ok (numbers.Decimal value)) }
{
    let (below, power) = sign_of(i128::from(value.exponent()));
    signed_before(octets, below, power);
    octets.push_front(b'd');
    signed_before(octets, value.negative(), value.magnitude());
}

fn signed_before(octets: &mut Backward, negative: bool, magnitude: u128)
    requires room { length octets.old + 40 ≤ ROOM }
    requires bound { magnitude ≤ 2 ^ 127 }
    ensures text { octets.new ≡ minus negative ++ (decimal magnitude ++ octets.old) }
    ensures few { length octets.new ≤ length octets.old + 40 }
    ensures few_of_small { magnitude < 2 ^ 64 → length octets.new ≤ length octets.old + 21 }
{
    digits_before(octets, magnitude);
    if negative {
        octets.push_front(b'-');
    }
}

// Nearly all numbers fit 64 bits.
fn digits_before(octets: &mut Backward, value: u128)
    requires room { length octets.old + 39 ≤ ROOM }
    requires bound { value ≤ 2 ^ 127 }
    ensures text { octets.new ≡ decimal value ++ octets.old }
    ensures few { length octets.new ≤ length octets.old + 39 }
    ensures few_of_small { value < 2 ^ 64 → length octets.new ≤ length octets.old + 20 }
{
    if value < 1 << 64 {
        octets.push_decimal(value as u64);
    } else {
        octets.push_long_decimal(value);
    }
}

fn timestamp_before(octets: &mut Backward, value: Timestamp)
    requires { length octets.old + 64 ≤ ROOM }
    ensures text { octets.new ≡ timestamp_text value ++ octets.old }
    ensures again { ReadsNumber (timestamp_text value) (Ok (numbers.Timestamp value)) }
{
    cut_before(octets, value.local(), value.precision(), value.offset());
}

fn cut_before(octets: &mut Backward, local: Local, precision: Precision, offset: Option<i16>)
    requires room { length octets.old + 64 ≤ ROOM }
    requires small { (local.year < 10000) × (local.month < 100) × (local.day < 100)
        × (local.hour < 100) × (local.minute < 100) × (local.second < 100) }
    requires short { IsShort precision }
    requires near { IfSome offset IsOffset }
    ensures { octets.new ≡ cut_text precision local offset ++ octets.old }
{
    match precision {
        Precision::Year => {
            octets.push_front(b'T');
            four_before(octets, local.year);
        }
        Precision::Month => {
            octets.push_front(b'T');
            month_before(octets, local);
        }
        Precision::Day => day_before(octets, local),
        Precision::Minute => {
            offset_before(octets, offset);
            minute_before(octets, local);
        }
        Precision::Second => {
            offset_before(octets, offset);
            second_before(octets, local);
        }
        Precision::Fraction(digits) => {
            offset_before(octets, offset);
            padded_before(octets, digits, local.fraction);
            octets.push_front(b'.');
            second_before(octets, local);
        }
    }
}

// The digits of a number below 100.

fn tens(value: u8) -> u8
    requires { value < 100 }
    ensures { result ≡ 48 + value / 10 }
{
    b'0' + value / 10
}

fn ones(value: u8) -> u8
    ensures { result ≡ 48 + value % 10 }
{
    b'0' + value % 10
}

fn four_before(octets: &mut Backward, value: u16)
    requires room { length octets.old + 4 ≤ ROOM }
    requires small { value < 10000 }
    ensures { octets.new ≡ four_digits value ++ octets.old }
{
    let (front, back) = ((value / 100) as u8, (value % 100) as u8);
    octets.push_all_front(&[tens(front), ones(front), tens(back), ones(back)]);
}

// So many digits of `value`, the last ones.
fn padded_before(octets: &mut Backward, digits: u8, value: u128)
    requires { length octets.old + digits ≤ ROOM }
    ensures text { octets.new ≡ padded digits value ++ octets.old }
    ensures many { length octets.new ≡ length octets.old + digits }
{
    let mut rest = value;
    for _ in 0..digits {
        octets.push_front(b'0' + (rest % 10) as u8);
        rest /= 10;
    }
}

fn month_before(octets: &mut Backward, local: Local)
    requires room { length octets.old + 7 ≤ ROOM }
    requires small { (local.year < 10000) × (local.month < 100) }
    ensures { octets.new ≡ month_text local ++ octets.old }
{
    octets.push_all_front(&[b'-', tens(local.month), ones(local.month)]);
    four_before(octets, local.year);
}

fn day_before(octets: &mut Backward, local: Local)
    requires room { length octets.old + 10 ≤ ROOM }
    requires small { (local.year < 10000) × (local.month < 100) × (local.day < 100) }
    ensures { octets.new ≡ day_text local ++ octets.old }
{
    let (century, year) = ((local.year / 100) as u8, (local.year % 100) as u8);
    octets.push_all_front(&[
        tens(century),
        ones(century),
        tens(year),
        ones(year),
        b'-',
        tens(local.month),
        ones(local.month),
        b'-',
        tens(local.day),
        ones(local.day),
    ]);
}

fn minute_before(octets: &mut Backward, local: Local)
    requires room { length octets.old + 16 ≤ ROOM }
    requires small { (local.year < 10000) × (local.month < 100) × (local.day < 100)
        × (local.hour < 100) × (local.minute < 100) }
    ensures { octets.new ≡ minute_text local ++ octets.old }
{
    let (hour, minute) = (local.hour, local.minute);
    octets.push_all_front(&[
        b'T',
        tens(hour),
        ones(hour),
        b':',
        tens(minute),
        ones(minute),
    ]);
    day_before(octets, local);
}

fn second_before(octets: &mut Backward, local: Local)
    requires room { length octets.old + 19 ≤ ROOM }
    requires small { (local.year < 10000) × (local.month < 100) × (local.day < 100)
        × (local.hour < 100) × (local.minute < 100) × (local.second < 100) }
    ensures { octets.new ≡ second_text local ++ octets.old }
{
    octets.push_all_front(&[b':', tens(local.second), ones(local.second)]);
    minute_before(octets, local);
}

fn clock_before(octets: &mut Backward, sign: u8, minutes: u16)
    requires room { length octets.old + 6 ≤ ROOM }
    requires small { minutes ≤ farthest_offset }
    ensures { octets.new ≡ (sign ∷ clock_text minutes) ++ octets.old }
{
    let (hour, minute) = ((minutes / 60) as u8, (minutes % 60) as u8);
    octets.push_all_front(&[
        sign,
        tens(hour),
        ones(hour),
        b':',
        tens(minute),
        ones(minute),
    ]);
}

fn offset_before(octets: &mut Backward, offset: Option<i16>)
    requires room { length octets.old + 6 ≤ ROOM }
    requires small { IfSome offset IsOffset }
    ensures text { octets.new ≡ offset_text offset ++ octets.old }
    ensures few { length octets.new ≤ length octets.old + 6 }
{
    match offset {
        None => clock_before(octets, b'-', 0),
        Some(ahead) => known_before(octets, ahead),
    }
}

fn known_before(octets: &mut Backward, ahead: i16)
    requires room { length octets.old + 6 ≤ ROOM }
    requires near { IsOffset ahead }
    ensures text { octets.new ≡ offset_text (Some ahead) ++ octets.old }
    ensures few { length octets.new ≤ length octets.old + 6 }
{
    if ahead == 0 {
        octets.push_front(b'Z');
        return;
    }
    if ahead > 0 {
        clock_before(octets, b'+', ahead.unsigned_abs());
        return;
    }
    clock_before(octets, b'-', ahead.unsigned_abs());
}
