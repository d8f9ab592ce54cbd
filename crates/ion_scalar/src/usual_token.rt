//! Timestamps as whole tokens: those of the forms that most have, `YYYY-MM-DD` with or without `T`
//! and `YYYY-MM-DDThh:mm:ssZ`, and those of any form in the years 2 to 9998, where no offset leads out
//! of the years 1 to 9999. What has another form, or isn't there, isn't told of here.
ghost use Rattle.std.specs.Prelude.{ℕ, List, ◌≡◌, ◌≤◌, ◌<◌, length, IsTrue, ◌↔◌, IfSome};
ghost use Rattle.ion_scalar.specs.Names.{Date, IsDate, IsShort, IsTime, IsTimestamp, IsTimestampToken, TimestampParts, last_year, local_date, stamp};

use crate::timestamps::{
    Stamp, date_token, day_front, ends_day, is_short, minute_front, time_token, two_at,
};
use ion_atoms::bounds::{LAST_HOUR, LAST_MINUTE, LAST_MONTH, LAST_SECOND, LAST_YEAR};
use ion_atoms::calendar::has_day;
use ion_atoms::{Local, Precision, Timestamp};

/// The timestamp that a whole token of a usual form spells.
#[inline(always)]
pub fn usual_timestamp(token: &[u8]) -> Option<Timestamp>
    ensures { IfSome result (λ t. IsTimestampToken token.now t × IsTimestamp t) }
{
    match token.len() {
        10 | 11 => usual_day(token),
        20 => usual_second(token),
        _ => None,
    }
}

#[inline(always)]
fn usual_day(token: &[u8]) -> Option<Timestamp>
    ensures { IfSome result (λ t. IsTimestampToken token.now t × IsTimestamp t) }
{
    if !ends_day(token) {
        return None;
    }
    let Some((year, month, day)) = day_front(token) else {
        return None
    };
    if !is_day(year, month, day) {
        return None;
    }
    let local = Local {
        year,
        month,
        day,
        hour: 0,
        minute: 0,
        second: 0,
        fraction: 0,
    };
    Some(Timestamp::of_parts(local, Precision::Day, None))
}

#[inline(always)]
fn usual_second(token: &[u8]) -> Option<Timestamp>
    requires { length token.now ≡ 20 }
    ensures { IfSome result (λ t. IsTimestampToken token.now t × IsTimestamp t) }
{
    if token[16] != b':' || token[19] != b'Z' {
        return None;
    }
    let Some(minute) = minute_front(token) else {
        return None
    };
    let Some(second) = two_at(token, 17) else {
        return None
    };
    let local = Local { second, ..minute };
    if !is_day(local.year, local.month, local.day) || !is_time(local) {
        return None;
    }
    Some(Timestamp::of_parts(local, Precision::Second, Some(0)))
}

/// The timestamp of another form that a whole token spells, with few fraction digits or none.
#[inline(never)]
pub fn unusual_timestamp(token: &[u8]) -> Option<Timestamp>
    ensures { IfSome result (λ t. IsTimestampToken token.now t × IsTimestamp t) }
{
    match short_stamp(token) {
        Some(spelled) => usual_parts(spelled),
        None => None,
    }
}

#[inline(always)]
fn short_stamp(token: &[u8]) -> Option<Stamp>
    ensures { IfSome result (λ s. (t : TimestampParts) × IsTimestampToken token.now t
        × (s ≡ stamp t)) }
{
    if token.len() > 11 {
        time_token(token, true)
    } else {
        date_token(token)
    }
}

/// The timestamp of the parts that a token spells.
#[inline(always)]
fn usual_parts(spelled: Stamp) -> Option<Timestamp>
    requires { (os : List ℕ) × (t : TimestampParts) × IsTimestampToken os t × (spelled ≡ stamp t) }
    ensures { let parts : TimestampParts = record {
      local = spelled.local;
      precision = spelled.precision;
      offset = spelled.offset;
    } in
        IfSome result (λ t. IsShort spelled.precision × IsTimestamp parts × (t ≡ parts)) }
{
    if !is_short(spelled.precision) || !is_usual(spelled.local) {
        return None;
    }
    Some(Timestamp::of_parts(spelled.local, spelled.precision, spelled.offset))
}

/// Whether there is such a day and time, in a year that no offset leads out of the years 1 to 9999
/// from.
#[inline(always)]
fn is_usual(local: Local) -> bool
    ensures day { IsTrue result → IsDate (local_date local) }
    ensures time { IsTrue result → IsTime local }
    ensures years { IsTrue result → (2 ≤ local.year) × (local.year < last_year) }
{
    if local.year < 2 || local.year >= LAST_YEAR || local.month < 1 || local.month > LAST_MONTH {
        return false;
    }
    is_time(local) && has_day(local.year, local.month, local.day)
}

#[inline(always)]
fn is_day(year: u16, month: u8, day: u8) -> bool
    ensures { let date : Date = record { year = year; month = month; day = day } in
        IsTrue result ↔ IsDate date }
{
    if year < 1 || year > LAST_YEAR || month < 1 || month > LAST_MONTH {
        return false;
    }
    has_day(year, month, day)
}

#[inline(always)]
fn is_time(local: Local) -> bool
    ensures { IsTrue result ↔ IsTime local }
{
    local.hour <= LAST_HOUR && local.minute <= LAST_MINUTE && local.second <= LAST_SECOND
}
