//! Ints, decimals and timestamps as text documents spell them (Ion 1.0, "Ion Text Encoding"). None
//! takes memory.
ghost use Rattle.std.specs.Prelude.{◌+◌, ◌<◌, ◌∷◌, ◌++◌, [], Some, IfSome};
ghost use Rattle.std.specs.Fmt.{WritesOnOk, signed_decimal};
ghost use Rattle.ion_atoms.specs.Timestamps.{IsOffset};
ghost use Rattle.ion_atoms.specs.Texts.{decimal_text, timestamp_text, cut_text, offset_text, clock_text, two_digits, four_digits, padded, month_text, day_text, minute_text, second_text};

use crate::decimal::Decimal;
use crate::int::Whole;
use crate::timestamp::{Local, Precision, Timestamp};
use std::fmt::{self, Display, Formatter};

/// Decimal digits, with `-` before a negative int.
impl Display for Whole {
    ghost output = { λ int. Some (signed_decimal int) };

    fn fmt<W: fmt::Write>(&self, f: &mut Formatter<W>) -> fmt::Result {
        Display::fmt(&self.get(), f)
    }
}

/// Coefficient, `d` and exponent, as in `-15d-1`. The exponent stands there always, and so does the
/// sign of a zero.
impl Display for Decimal {
    ghost output = { λ decimal. Some (decimal_text decimal) };

    fn fmt<W: fmt::Write>(&self, f: &mut Formatter<W>) -> fmt::Result {
        if self.negative() {
            f.write_str("-")?;
        }
        write!(f, "{}d{}", self.magnitude(), self.exponent())
    }
}

/// To the precision: `2007T`, `2007-02T`, `2007-02-23`, `2007-02-23T12:14Z`. In place of `Z` stands
/// another offset, as in `+01:00`, or `-00:00` where it is unknown.
impl Display for Timestamp {
    ghost output = { λ timestamp. Some (timestamp_text timestamp) };

    fn fmt<W: fmt::Write>(&self, f: &mut Formatter<W>) -> fmt::Result {
        cut(f, self.precision(), self.local(), self.offset())
    }
}

/// Local fields to this precision, and the offset behind a time.
fn cut<W: fmt::Write>(
    f: &mut Formatter<W>,
    precision: Precision,
    local: Local,
    ahead: Option<i16>,
) -> fmt::Result
    requires date { (local.year < 10000) × (local.month < 100) × (local.day < 100) }
    requires time { (local.hour < 100) × (local.minute < 100) × (local.second < 100) }
    requires ahead { IfSome ahead IsOffset }
    ensures { WritesOnOk W.write_str_gives f.old result (cut_text precision local ahead) f.new }
{
    match precision {
        Precision::Year => {
            four(f, local.year)?;
            f.write_str("T")
        }
        Precision::Month => {
            month(f, local)?;
            f.write_str("T")
        }
        Precision::Day => day(f, local),
        Precision::Minute => {
            minute(f, local)?;
            offset(f, ahead)
        }
        Precision::Second => {
            second(f, local)?;
            offset(f, ahead)
        }
        Precision::Fraction(digits) => {
            second(f, local)?;
            f.write_str(".")?;
            places(f, digits, local.fraction)?;
            offset(f, ahead)
        }
    }
}

fn digit<W: fmt::Write>(f: &mut Formatter<W>, value: u8) -> fmt::Result
    requires { value < 10 }
    ensures { WritesOnOk W.write_str_gives f.old result ((48 + value) ∷ []) f.new }
{
    f.write_char(char::from(b'0' + value))
}

fn two<W: fmt::Write>(f: &mut Formatter<W>, value: u8) -> fmt::Result
    requires { value < 100 }
    ensures { WritesOnOk W.write_str_gives f.old result (two_digits value) f.new }
{
    digit(f, value / 10)?;
    digit(f, value % 10)
}

fn four<W: fmt::Write>(f: &mut Formatter<W>, value: u16) -> fmt::Result
    requires { value < 10000 }
    ensures { WritesOnOk W.write_str_gives f.old result (four_digits value) f.new }
{
    two(f, (value / 100) as u8)?;
    two(f, (value % 100) as u8)
}

/// So many digits, the last ones of the number. Calls itself once for each.
fn places<W: fmt::Write>(f: &mut Formatter<W>, digits: u8, value: u128) -> fmt::Result
    ensures { WritesOnOk W.write_str_gives f.old result (padded digits value) f.new }
{
    if digits == 0 {
        return Ok(());
    }
    places(f, digits - 1, value / 10)?;
    digit(f, (value % 10) as u8)
}

/// Two digits behind a mark.
fn marked<W: fmt::Write>(f: &mut Formatter<W>, mark: &str, value: u8) -> fmt::Result
    requires { value < 100 }
    ensures { WritesOnOk W.write_str_gives f.old result (mark.now ++ two_digits value) f.new }
{
    f.write_str(mark)?;
    two(f, value)
}

fn month<W: fmt::Write>(f: &mut Formatter<W>, local: Local) -> fmt::Result
    requires { (local.year < 10000) × (local.month < 100) }
    ensures { WritesOnOk W.write_str_gives f.old result (month_text local) f.new }
{
    four(f, local.year)?;
    marked(f, "-", local.month)
}

fn day<W: fmt::Write>(f: &mut Formatter<W>, local: Local) -> fmt::Result
    requires { (local.year < 10000) × (local.month < 100) × (local.day < 100) }
    ensures { WritesOnOk W.write_str_gives f.old result (day_text local) f.new }
{
    month(f, local)?;
    marked(f, "-", local.day)
}

fn minute<W: fmt::Write>(f: &mut Formatter<W>, local: Local) -> fmt::Result
    requires { (local.year < 10000) × (local.month < 100) × (local.day < 100) × (local.hour < 100)
        × (local.minute < 100) }
    ensures { WritesOnOk W.write_str_gives f.old result (minute_text local) f.new }
{
    day(f, local)?;
    marked(f, "T", local.hour)?;
    marked(f, ":", local.minute)
}

fn second<W: fmt::Write>(f: &mut Formatter<W>, local: Local) -> fmt::Result
    requires { (local.year < 10000) × (local.month < 100) × (local.day < 100) × (local.hour < 100)
        × (local.minute < 100) × (local.second < 100) }
    ensures { WritesOnOk W.write_str_gives f.old result (second_text local) f.new }
{
    minute(f, local)?;
    marked(f, ":", local.second)
}

fn offset<W: fmt::Write>(f: &mut Formatter<W>, ahead: Option<i16>) -> fmt::Result
    requires { IfSome ahead IsOffset }
    ensures { WritesOnOk W.write_str_gives f.old result (offset_text ahead) f.new }
{
    let Some(ahead) = ahead else {
        return clock(f, "-", 0);
    };
    if ahead == 0 {
        return f.write_str("Z");
    }
    let sign = if ahead < 0 { "-" } else { "+" };
    clock(f, sign, ahead.unsigned_abs())
}

fn clock<W: fmt::Write>(f: &mut Formatter<W>, sign: &str, minutes: u16) -> fmt::Result
    requires { minutes < 6000 }
    ensures { WritesOnOk W.write_str_gives f.old result (sign.now ++ clock_text minutes) f.new }
{
    marked(f, sign, (minutes / 60) as u8)?;
    marked(f, ":", (minutes % 60) as u8)
}
