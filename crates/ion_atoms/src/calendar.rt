//! The proleptic Gregorian calendar of the years 1 to 9999, whose days timestamps have (Ion 1.0,
//! "Timestamp"). Which days a month has and which day lies beside another is answered by `jiff`. It
//! is asked only where that isn't plain: each month has the days 1 to 28. Nothing here takes
//! memory.
ghost use Rattle.std.specs.Prelude.{◌≡◌, ◌≤◌, ◌<◌, ◌+◌, ◌*◌, ◌⊎◌, ◌+ℤ◌, ◌≤ℤ◌, ◌<ℤ◌, pos, neg_ℤ, SomeIff, IfSome, IfNone, IsSome, IsTrue, ◌↔◌};
ghost use Rattle.jiff.specs.Words.{IsYmd};
ghost use Rattle.ion_atoms.specs.declared.calendar.Date.{Date as Day};
ghost use Rattle.ion_atoms.specs.TimestampBounds.{last_year, last_month, farthest_offset};
ghost use Rattle.ion_atoms.specs.Calendar.{IsDate, IsMinute, InYears, month_length, day_number, minute_number, first_day, last_day};
ghost use Rattle.ion_atoms.specs.Neighbours.{day_of};

use crate::bounds::{LAST_MONTH, LAST_YEAR};
use jiff::civil;

/// A day: its year, and its month and day of the month, both counted from 1.
#[derive(Clone, Copy, Debug, PartialEq, Eq)]
pub struct Date {
    pub year: u16,
    pub month: u8,
    pub day: u8,
}

/// A minute of a day: the hour from 0 to 23, the minute from 0 to 59.
#[derive(Clone, Copy, Debug, PartialEq, Eq)]
pub struct Minute {
    pub date: Date,
    pub hour: u8,
    pub minute: u8,
}

/// Whether a month of the years 1 to 9999 has a day of this number.
#[inline(always)]
pub fn has_day(year: u16, month: u8, day: u8) -> bool
    requires year { (1 ≤ year) × (year ≤ last_year) }
    requires month { (1 ≤ month) × (month ≤ last_month) }
    ensures { IsTrue result ↔ ((1 ≤ day) × (day ≤ month_length year month)) }
{
    1 <= day && (day <= 28 || day <= days_of_month(year, month))
}

// How many days a month of the years 1 to 9999 has.
#[inline(never)]
fn days_of_month(year: u16, month: u8) -> u8
    requires year { (1 ≤ year) × (year ≤ last_year) }
    requires month { (1 ≤ month) × (month ≤ last_month) }
    ensures { result ≡ month_length year month }
{
    match civil::Date::new(year as i16, month as i8, 1) {
        Ok(first) => first.days_in_month() as u8,
        Err(_) => unreachable!(),
    }
}

impl Date {
    /// The day of this year, month and day of the month; `None` exactly where the years 1 to 9999
    /// have no such day.
    pub(crate) fn new(year: u16, month: u8, day: u8) -> Option<Date>
        ensures { let date : Day = record { year = year; month = month; day = day } in
            SomeIff result (IsDate date) date }
    {
        if year < 1 || year > LAST_YEAR || month < 1 || month > LAST_MONTH {
            return None;
        }
        if !has_day(year, month, day) {
            return None;
        }
        Some(Date { year, month, day })
    }

    /// The day before; `None` exactly for 0001-01-01.
    fn before(self) -> Option<Date>
        requires { IsDate self }
        ensures some { IfSome result (λ d. IsDate d × (day_number d + 1 ≡ day_number self)) }
        ensures none { IfNone result (day_number self ≡ first_day) }
    {
        if self.day > 1 {
            return Some(day_of(self.year, self.month, self.day - 1));
        }
        self.yesterday()
    }

    /// The day after; `None` exactly for 9999-12-31.
    fn after(self) -> Option<Date>
        requires { IsDate self }
        ensures some { IfSome result (λ d. IsDate d × (day_number d ≡ day_number self + 1)) }
        ensures none { IfNone result (day_number self ≡ last_day) }
    {
        if self.day < 28 {
            return Some(day_of(self.year, self.month, self.day + 1));
        }
        self.tomorrow()
    }

    // The day before as `jiff` answers it.
    #[inline(never)]
    fn yesterday(self) -> Option<Date>
        requires { IsDate self }
        ensures some { IfSome result (λ d. IsDate d × (day_number d + 1 ≡ day_number self)) }
        ensures none { IfNone result (day_number self ≡ first_day) }
    {
        match civil_date(self).yesterday() {
            Ok(day) => own_date(day),
            Err(_) => None,
        }
    }

    // The day after as `jiff` answers it.
    #[inline(never)]
    fn tomorrow(self) -> Option<Date>
        requires { IsDate self }
        ensures some { IfSome result (λ d. IsDate d × (day_number d ≡ day_number self + 1)) }
        ensures none { IfNone result (day_number self ≡ last_day) }
    {
        match civil_date(self).tomorrow() {
            Ok(day) => own_date(day),
            Err(_) => None,
        }
    }
}

#[inline(always)]
fn day_of(year: u16, month: u8, day: u8) -> Date
    ensures { result ≡ day_of year month day }
{
    Date { year, month, day }
}

// The same day in `jiff`.
fn civil_date(date: Date) -> civil::Date
    requires { IsDate date }
    ensures { IsYmd (pos date.year) (pos date.month) (pos date.day) result }
{
    match civil::Date::new(date.year as i16, date.month as i8, date.day as i8) {
        Ok(date) => date,
        Err(_) => unreachable!(),
    }
}

// The same day, if it isn't before the year 1.
fn own_date(date: civil::Date) -> Option<Date>
    ensures some { IfSome result (λ d. IsDate d
        × IsYmd (pos d.year) (pos d.month) (pos d.day) date) }
    ensures none { IfNone result (date.year <ℤ pos 1) }
{
    if date.year() < 1 {
        return None;
    }
    Some(Date {
        year: date.year() as u16,
        month: date.month() as u8,
        day: date.day() as u8,
    })
}

// The day before, the day itself and the day after, for 0, 1 and 2 days.
fn neighbour(date: Date, days: u16) -> Option<Date>
    requires date { IsDate date }
    requires days { days ≤ 2 }
    ensures some { IfSome result (λ d. IsDate d × (day_number d + 1 ≡ day_number date + days)) }
    ensures none { IfNone result ((day_number date + days < first_day + 1)
        ⊎ (last_day + 1 < day_number date + days)) }
{
    match days {
        0 => date.before(),
        1 => Some(date),
        _ => date.after(),
    }
}

// In how many days a minute of the day comes that lies so many minutes later, the day before
// counted as 0, and which minute of that day it is.
fn carried(minute: u16, by: i16) -> (u16, u16)
    requires minute { minute < 1440 }
    requires by { (neg_ℤ (pos farthest_offset) ≤ℤ by) × (by ≤ℤ pos farthest_offset) }
    ensures sum { pos (result.0 * 1440 + result.1) ≡ pos (minute + 1440) +ℤ by }
    ensures days { result.0 ≤ 2 }
    ensures minute { result.1 < 1440 }
{
    let total = (i32::from(minute) + 1440 + i32::from(by)) as u16;
    (total / 1440, total % 1440)
}

impl Minute {
    /// The minute that lies so many minutes later, or earlier where the number is negative; `None`
    /// exactly where that isn't in the years 1 to 9999. The number is at most 1439 either way.
    pub fn moved(self, by: i16) -> Option<Minute>
        requires minute { IsMinute self }
        requires by { (neg_ℤ (pos farthest_offset) ≤ℤ by) × (by ≤ℤ pos farthest_offset) }
        ensures some { IsSome result ↔ InYears (pos (minute_number self) +ℤ by) }
        ensures value { IfSome result (λ m. IsMinute m
            × (pos (minute_number m) ≡ pos (minute_number self) +ℤ by)) }
    {
        let (days, minute) = carried(u16::from(self.hour) * 60 + u16::from(self.minute), by);
        let Some(date) = neighbour(self.date, days) else {
            return None;
        };
        Some(Minute {
            date,
            hour: (minute / 60) as u8,
            minute: (minute % 60) as u8,
        })
    }
}
