//! The bodies of timestamps in binary (Ion 1.0, "Ion Binary Encoding", timestamp).
ghost use Rattle.std.specs.Prelude.{Result, ◌≡◌, ◌<◌, ◌≤◌, ◌^◌, length, IfOk, IfSome};
ghost use Rattle.ion_scalar.specs.Names.{IsOffset, ReadsTimestampBody, TimestampParts, day_known, farthest_offset, kept_offset, last_month, last_year, local_in, minutes_ahead, month_length, offset_from, read_behind_day, read_behind_hour, read_behind_minute, read_behind_month, read_behind_second, read_behind_year, read_field, read_fields, read_fraction, read_offset, shown, time_known, timestamp_of_body};
ghost use Rattle.ion_scalar.specs.binary.Timestamp.{shown_by};
ghost use Rattle.ion_scalar.specs.binary.laws.Timestamp.{IsUtc};

use crate::fields::{Signed, int_of, read_var_int, read_var_uint};
use ion_atoms::bounds::{
    FARTHEST_OFFSET, LAST_HOUR, LAST_MINUTE, LAST_MONTH, LAST_SECOND, LAST_YEAR, MOST_DIGITS,
};
use ion_atoms::calendar::{Date, Minute, has_day};
use ion_atoms::{Local, Precision, Reason, Timestamp};

/// A point in time in UTC, as far as it is known.
#[derive(Clone, Copy, Debug)]
pub struct Utc {
    pub minute: Minute,
    pub second: u8,
    /// The digits of the fraction of a second as one number.
    pub fraction: u128,
    pub precision: Precision,
}

impl Utc {
    #[inline(always)]
    fn of_day(precision: Precision, date: Date) -> Utc
        ensures { result ≡ day_known precision date }
    {
        let minute = Minute {
            date,
            hour: 0,
            minute: 0,
        };
        Utc {
            minute,
            second: 0,
            fraction: 0,
            precision,
        }
    }

    #[inline(always)]
    fn of_time(precision: Precision, minute: Minute, second: u8, fraction: u128) -> Utc
        ensures { result ≡ time_known precision minute second fraction }
    {
        Utc {
            minute,
            second,
            fraction,
            precision,
        }
    }
}

/// The timestamp whose body is all of `octets`: the offset in minutes as a VarInt, of which -0 is
/// the unknown one, then year, month, day, hour, minute and second in UTC, each a VarUInt, then an
/// exponent as a VarInt and a coefficient as an Int, the fraction of the second (Ion 1.0, "Ion
/// Binary Encoding", timestamp). Trailing parts may be absent, but not the year, nor the minute
/// behind an hour. The value has local fields; below minute precision it has no offset. The
/// coefficient -0 reads as 0. A fraction with the exponent
/// -d has d digits; with an exponent of 0 or more its coefficient is 0, and it is none.
///
/// The parts are judged from left to right. Answers `TooLarge` for an offset or a field that
/// reaches 2^63, for an exponent below -38 and for a coefficient whose magnitude is 2^127 or more.
/// Answers `Malformed` for a part that does not end, without a year, and for an hour without a
/// minute, for an offset beyond 1439 minutes, for a field that is no year from 1 to 9999, month,
/// day of that month, hour, minute or second (there is no leap second), for a coefficient below 0,
/// of more digits than d, or not 0 with an exponent of 0 or more, and last for a local year outside
/// 1 to 9999. These bounds are this project's. Takes no memory.
pub fn timestamp_of(octets: &[u8]) -> Result<Timestamp, Reason>
    ensures value { result ≡ timestamp_of_body octets.now }
    ensures answer { ReadsTimestampBody octets.now result }
    ensures only { (answer : Result TimestampParts Reason)
        → ReadsTimestampBody octets.now answer → result ≡ answer }
{
    read_timestamp(octets)
}

#[tactic(auto, unfolding(crate::specs::binary::Timestamp::timestamp_of_body))]
#[inline(always)]
fn read_timestamp(octets: &[u8]) -> Result<Timestamp, Reason>
    ensures { result ≡ timestamp_of_body octets.now }
{
    let (offset, used) = offset_of(octets)?;
    with_offset(offset, &octets[used..])
}

#[tactic(auto, unfolding(crate::specs::binary::Timestamp::read_offset))]
#[inline(always)]
pub(crate) fn offset_of(octets: &[u8]) -> Result<(Option<i16>, usize), Reason>
    ensures value { result ≡ read_offset octets.now }
    ensures near { IfOk result (λ r. IfSome r.0 IsOffset) }
    ensures within { IfOk result (λ r. r.1 ≤ length octets.now) }
{
    match read_var_int(octets) {
        Ok((by, used)) if by.magnitude <= FARTHEST_OFFSET as u64 => Ok((minutes_of(by), used)),
        Err(Reason::TooLarge) => Err(Reason::TooLarge),
        _ => Err(Reason::Malformed),
    }
}

#[inline(always)]
fn minutes_of(minutes: Signed) -> Option<i16>
    requires { minutes.magnitude ≤ farthest_offset }
    ensures value { result ≡ offset_from minutes.negative minutes.magnitude }
    ensures near { IfSome result IsOffset }
{
    if !minutes.negative {
        return Some(minutes.magnitude as i16);
    }
    if minutes.magnitude == 0 {
        return None;
    }
    Some(-(minutes.magnitude as i16))
}

#[inline(always)]
fn with_offset(offset: Option<i16>, octets: &[u8]) -> Result<Timestamp, Reason>
    requires { IfSome offset IsOffset }
    ensures { result ≡ shown_by offset (read_fields octets.now) }
{
    let utc = fields_of(octets)?;
    show(offset, utc)
}

// The VarUInt at the front, if it lies in that range, and how many octets it takes.
#[tactic(auto, unfolding(crate::specs::binary::Timestamp::read_field))]
#[inline(always)]
pub(crate) fn field(least: u64, most: u64, octets: &[u8]) -> Result<(u16, usize), Reason>
    requires { most < 2 ^ 16 }
    ensures value { result ≡ read_field least most octets.now }
    ensures range { IfOk result (λ r. (least ≤ r.0) × (r.0 ≤ most)) }
    ensures within { IfOk result (λ r. r.1 ≤ length octets.now) }
{
    match read_var_uint(octets) {
        Ok((number, used)) if least <= number && number <= most => Ok((number as u16, used)),
        Err(Reason::TooLarge) => Err(Reason::TooLarge),
        _ => Err(Reason::Malformed),
    }
}

#[tactic(auto, unfolding(crate::specs::binary::Timestamp::read_fields))]
#[inline(always)]
fn fields_of(octets: &[u8]) -> Result<Utc, Reason>
    ensures { result ≡ read_fields octets.now }
{
    let (year, used) = field(1, LAST_YEAR as u64, octets)?;
    behind_year(year, &octets[used..])
}

#[tactic(auto, unfolding(crate::specs::binary::Timestamp::read_behind_year))]
#[inline(always)]
fn behind_year(year: u16, octets: &[u8]) -> Result<Utc, Reason>
    requires { (1 ≤ year) × (year ≤ last_year) }
    ensures { result ≡ read_behind_year year octets.now }
{
    if octets.is_empty() {
        let date = Date {
            year,
            month: 1,
            day: 1,
        };
        return Ok(Utc::of_day(Precision::Year, date));
    }
    let (month, used) = field(1, LAST_MONTH as u64, octets)?;
    behind_month(year, month as u8, &octets[used..])
}

#[tactic(auto, unfolding(crate::specs::binary::Timestamp::read_behind_month))]
#[inline(always)]
fn behind_month(year: u16, month: u8, octets: &[u8]) -> Result<Utc, Reason>
    requires year { (1 ≤ year) × (year ≤ last_year) }
    requires month { (1 ≤ month) × (month ≤ last_month) }
    ensures { result ≡ read_behind_month year month octets.now }
{
    if octets.is_empty() {
        let date = Date {
            year,
            month,
            day: 1,
        };
        return Ok(Utc::of_day(Precision::Month, date));
    }
    let (day, used) = day_field(year, month, octets)?;
    let date = Date {
        year,
        month,
        day: day as u8,
    };
    behind_day(date, &octets[used..])
}

// The VarUInt at the front, if the month has that day, and how many octets it takes.
#[inline(always)]
fn day_field(year: u16, month: u8, octets: &[u8]) -> Result<(u16, usize), Reason>
    requires year { (1 ≤ year) × (year ≤ last_year) }
    requires month { (1 ≤ month) × (month ≤ last_month) }
    ensures value { result ≡ read_field 1 (month_length year month) octets.now }
    ensures range { IfOk result (λ r. (1 ≤ r.0) × (r.0 ≤ month_length year month)) }
    ensures within { IfOk result (λ r. r.1 ≤ length octets.now) }
{
    let (day, used) = field(1, 31, octets)?;
    if !has_day(year, month, day as u8) {
        return Err(Reason::Malformed);
    }
    Ok((day, used))
}

#[tactic(auto, unfolding(crate::specs::binary::Timestamp::read_behind_day))]
#[inline(always)]
fn behind_day(date: Date, octets: &[u8]) -> Result<Utc, Reason>
    ensures { result ≡ read_behind_day date octets.now }
{
    if octets.is_empty() {
        return Ok(Utc::of_day(Precision::Day, date));
    }
    let (hour, used) = field(0, LAST_HOUR as u64, octets)?;
    behind_hour(date, hour as u8, &octets[used..])
}

#[tactic(auto, unfolding(crate::specs::binary::Timestamp::read_behind_hour))]
#[inline(always)]
fn behind_hour(date: Date, hour: u8, octets: &[u8]) -> Result<Utc, Reason>
    ensures { result ≡ read_behind_hour date hour octets.now }
{
    let (minute, used) = field(0, LAST_MINUTE as u64, octets)?;
    let minute = Minute {
        date,
        hour,
        minute: minute as u8,
    };
    behind_minute(minute, &octets[used..])
}

#[tactic(auto, unfolding(crate::specs::binary::Timestamp::read_behind_minute))]
#[inline(always)]
fn behind_minute(minute: Minute, octets: &[u8]) -> Result<Utc, Reason>
    ensures { result ≡ read_behind_minute minute octets.now }
{
    if octets.is_empty() {
        return Ok(Utc::of_time(Precision::Minute, minute, 0, 0));
    }
    let (second, used) = field(0, LAST_SECOND as u64, octets)?;
    behind_second(minute, second as u8, &octets[used..])
}

#[tactic(auto, unfolding(crate::specs::binary::Timestamp::read_behind_second))]
#[inline(always)]
fn behind_second(minute: Minute, second: u8, octets: &[u8]) -> Result<Utc, Reason>
    ensures { result ≡ read_behind_second minute second octets.now }
{
    if octets.is_empty() {
        return Ok(Utc::of_time(Precision::Second, minute, second, 0));
    }
    match read_var_int(octets) {
        Ok((power, used)) => with_fraction(minute, second, power, &octets[used..]),
        Err(Reason::TooLarge) => Err(Reason::TooLarge),
        Err(_) => Err(Reason::Malformed),
    }
}

#[tactic(auto, unfolding(crate::specs::binary::Timestamp::read_fraction))]
fn with_fraction(minute: Minute, second: u8, power: Signed, octets: &[u8]) -> Result<Utc, Reason>
    ensures { result ≡ read_fraction minute second power octets.now }
{
    if power.negative && power.magnitude > MOST_DIGITS as u64 {
        return Err(Reason::TooLarge);
    }
    let Ok((negative, magnitude)) = int_of(octets) else {
        return Err(Reason::TooLarge);
    };
    if !power.negative || power.magnitude == 0 {
        if magnitude > 0 {
            return Err(Reason::Malformed);
        }
        return Ok(Utc::of_time(Precision::Second, minute, second, 0));
    }
    let digits = power.magnitude as u8;
    if negative && magnitude > 0 || magnitude >= 10u128.pow(u32::from(digits)) {
        return Err(Reason::Malformed);
    }
    Ok(Utc::of_time(Precision::Fraction(digits), minute, second, magnitude))
}

// The timestamp of these fields, as a place shows it whose clock is ahead of UTC by the offset.
#[tactic(auto, unfolding(crate::specs::binary::Timestamp::shown))]
fn show(offset: Option<i16>, utc: Utc) -> Result<Timestamp, Reason>
    requires utc { IsUtc utc }
    requires offset { IfSome offset IsOffset }
    ensures { result ≡ shown offset utc }
{
    let offset = offset_at(utc.precision, offset);
    let Some(minute) = utc.minute.moved(ahead_of_utc(offset)) else {
        return Err(Reason::Malformed);
    };
    Ok(Timestamp::of_parts(local_of(utc, minute), utc.precision, offset))
}

#[inline(always)]
pub fn ahead_of_utc(offset: Option<i16>) -> i16
    requires { IfSome offset IsOffset }
    ensures value { result ≡ minutes_ahead offset }
    ensures near { IsOffset result }
{
    match offset {
        None => 0,
        Some(minutes) => minutes,
    }
}

#[inline(always)]
fn local_of(utc: Utc, minute: Minute) -> Local
    ensures { result ≡ local_in utc minute }
{
    Local {
        year: minute.date.year,
        month: minute.date.month,
        day: minute.date.day,
        hour: minute.hour,
        minute: minute.minute,
        second: utc.second,
        fraction: utc.fraction,
    }
}

// Below minute precision a timestamp has no offset.
#[inline(always)]
fn offset_at(precision: Precision, offset: Option<i16>) -> Option<i16>
    requires { IfSome offset IsOffset }
    ensures value { result ≡ kept_offset precision offset }
    ensures near { IfSome result IsOffset }
{
    match precision {
        Precision::Year | Precision::Month | Precision::Day => None,
        _ => offset,
    }
}
