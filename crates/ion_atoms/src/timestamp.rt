//! Timestamps.
ghost use Rattle.std.specs.Prelude.{◌≡◌, ◌↔◌, ◌≤◌, ◌<◌, ◌^◌, ◌-ℤ◌, pos, IsTrue, SomeIff};
ghost use Rattle.std.specs.Option.{option_eq, option_cmp};
ghost use Rattle.std.specs.Ordering.{int_eq, int_cmp};
ghost use Rattle.ion_atoms.specs.TimestampBounds.{most_digits};
ghost use Rattle.ion_atoms.specs.Calendar.{IsMinute, InYears, minute_number};
ghost use Rattle.ion_atoms.specs.Timestamps.{TimestampParts, IsTimestamp, IsCut, IsOffset, HasOffset, minutes_ahead, precision_rank, local_same, timestamp_same, date_cmp, time_cmp, timestamp_cmp};

use crate::bounds::{FARTHEST_OFFSET, LAST_HOUR, LAST_MINUTE, LAST_SECOND, MOST_DIGITS};
use crate::calendar::{Date, Minute};
use crate::halves::Halves;
use std::cmp::Ordering;
use std::fmt::{self, Debug, Formatter};
use std::marker::Model;

/// How much of a point in time is known (Ion 1.0, "Timestamp").
#[derive(Debug, Clone, Copy, PartialEq, Eq)]
pub enum Precision {
    Year,
    Month,
    Day,
    Minute,
    Second,
    /// A fraction of a second of so many decimal digits, 1 to 38.
    Fraction(u8),
}

/// The fields of a point in time as its place's clock and calendar show it. Those past the
/// precision are 1 (month and day) or 0.
#[derive(Debug, Clone, Copy, PartialEq, Eq)]
pub struct Local {
    /// 1 to 9999.
    pub year: u16,
    pub month: u8,
    pub day: u8,
    pub hour: u8,
    pub minute: u8,
    /// 0 to 59; there is no leap second.
    pub second: u8,
    /// The digits of the fraction of a second as one number.
    pub fraction: u128,
}

/// A point in time with a precision, as a place shows it whose clock is ahead of UTC by the offset
/// (Ion 1.0, "Timestamp").
#[derive(Clone, Copy)]
pub struct Timestamp {
    // the local fields lie flat and by falling size, so that nothing is filled up between them
    fraction: Halves,
    year: u16,
    offset: Option<i16>,
    precision: Precision,
    month: u8,
    day: u8,
    hour: u8,
    minute: u8,
    second: u8,
}

impl Model for Timestamp {
    ghost use Rattle.ion_atoms.specs.Timestamps.{TimestampParts, IsTimestamp};

    ghost Value = { TimestampParts };

    ghost use Rattle.ion_atoms.specs.FlatTimestamps.{parts_of};

    ghost view = { parts_of };

    ghost invariant = { λ t. IsTimestamp (parts_of t) };

    ghost inverse = { λ t. record {
      fraction = t.local.fraction;
      year = t.local.year;
      offset = t.offset;
      precision = t.precision;
      month = t.local.month;
      day = t.local.day;
      hour = t.local.hour;
      minute = t.local.minute;
      second = t.local.second;
    } };
}

impl Debug for Timestamp {
    fn fmt<W: fmt::Write>(&self, f: &mut Formatter<W>) -> fmt::Result {
        f.debug_struct("Timestamp")
            .field("local", &self.local())
            .field("precision", &self.precision())
            .field("offset", &self.offset())
            .finish()
    }
}

impl Timestamp {
    /// The timestamp of these parts (Ion 1.0, "Timestamp"). `None` exactly where there is none: the
    /// date is no day of the years 1 to 9999 or the time no time of day, a field past the precision
    /// isn't the least (1 for month and day, else 0), a fraction hasn't 1 to 38 digits or isn't
    /// below ten to their number, the offset isn't from -1439 to 1439 minutes or is known below
    /// minute precision, or the minute lies outside the years 1 to 9999 in UTC. The bounds of the
    /// digits, of offsets, and of years in UTC are this project's. Takes no memory.
    pub fn new(local: Local, precision: Precision, offset: Option<i16>) -> Option<Timestamp>
        ensures { let parts : TimestampParts =
            record { local = local; precision = precision; offset = offset } in
            SomeIff result (IsTimestamp parts) parts }
    {
        let date = Date::new(local.year, local.month, local.day)?;
        if local.hour > LAST_HOUR || local.minute > LAST_MINUTE || local.second > LAST_SECOND {
            return None;
        }
        if !precision.cuts(local) || !precision.allows(offset) {
            return None;
        }
        let minute = Minute {
            date,
            hour: local.hour,
            minute: local.minute,
        };
        if !is_kept_in_utc(minute, minutes_ahead(offset)) {
            return None;
        }
        Some(Timestamp::of_parts(local, precision, offset))
    }

    /// The timestamp of parts that are known to be one (Ion 1.0, "Timestamp"): nothing is judged.
    /// Takes no memory.
    #[inline(always)]
    pub fn of_parts(local: Local, precision: Precision, offset: Option<i16>) -> Timestamp
        requires { let parts : TimestampParts =
            record { local = local; precision = precision; offset = offset } in
            IsTimestamp parts }
        ensures { let parts : TimestampParts =
            record { local = local; precision = precision; offset = offset } in
            result ≡ parts }
    {
        Timestamp {
            fraction: Halves::new(local.fraction),
            year: local.year,
            offset,
            precision,
            month: local.month,
            day: local.day,
            hour: local.hour,
            minute: local.minute,
            second: local.second,
        }
    }

    /// The fields that the place's clock and calendar show.
    #[inline(always)]
    pub fn local(self) -> Local
        ensures value { result ≡ self.local }
        ensures kept { IsTimestamp self }
    {
        Local {
            year: self.year,
            month: self.month,
            day: self.day,
            hour: self.hour,
            minute: self.minute,
            second: self.second,
            fraction: self.fraction.get(),
        }
    }

    /// How much of the point in time is known.
    pub fn precision(self) -> Precision
        ensures { result ≡ self.precision }
    {
        self.precision
    }

    /// How many minutes the place's clock is ahead of UTC, -1439 to 1439; `None` where it is
    /// unknown.
    pub fn offset(self) -> Option<i16>
        ensures value { result ≡ self.offset }
        ensures range { HasOffset self.precision result }
    {
        self.offset
    }

    /// Whether both agree in precision, offset and local fields, and so in the instant.
    pub fn same(self, other: Timestamp) -> bool
        ensures { result ≡ timestamp_same self other }
    {
        let precisions = self.precision.rank() == other.precision.rank();
        precisions && same_offsets(self.offset, other.offset) && self.local().same(other.local())
    }

    /// The order of timestamps: by precision (year first, fewer digits first), then the unknown
    /// offset first and others by their number, then by the local fields from the year on.
    pub fn order(self, other: Timestamp) -> Ordering
        ensures { result ≡ timestamp_cmp self other }
    {
        let precisions = self.precision.rank().cmp(&other.precision.rank());
        precisions
            .then(order_offsets(self.offset, other.offset))
            .then(self.local().order_date(other.local()))
            .then(self.local().order_time(other.local()))
    }
}

impl Precision {
    // Whether the fields past this precision are the least, and a fraction fits its digits.
    fn cuts(self, local: Local) -> bool
        ensures { IsTrue result ↔ IsCut self local }
    {
        let no_fraction = local.fraction == 0;
        let no_second = local.second == 0 && no_fraction;
        let no_time = local.hour == 0 && local.minute == 0 && no_second;
        match self {
            Precision::Year => local.month == 1 && local.day == 1 && no_time,
            Precision::Month => local.day == 1 && no_time,
            Precision::Day => no_time,
            Precision::Minute => no_second,
            Precision::Second => no_fraction,
            Precision::Fraction(digits) => fits(local.fraction, digits),
        }
    }

    // Whether a timestamp of this precision may have the offset.
    fn allows(self, offset: Option<i16>) -> bool
        ensures { IsTrue result ↔ HasOffset self offset }
    {
        match (self, offset) {
            (_, None) => true,
            (Precision::Year | Precision::Month | Precision::Day, Some(_)) => false,
            (_, Some(minutes)) => -FARTHEST_OFFSET <= minutes && minutes <= FARTHEST_OFFSET,
        }
    }

    pub(crate) fn rank(self) -> u16
        ensures { result ≡ precision_rank self }
    {
        match self {
            Precision::Year => 0,
            Precision::Month => 1,
            Precision::Day => 2,
            Precision::Minute => 3,
            Precision::Second => 4,
            Precision::Fraction(digits) => 5 + u16::from(digits),
        }
    }
}

impl Local {
    fn same(self, other: Local) -> bool
        ensures { result ≡ local_same self other }
    {
        self.year == other.year
            && self.month == other.month
            && self.day == other.day
            && self.hour == other.hour
            && self.minute == other.minute
            && self.second == other.second
            && self.fraction == other.fraction
    }

    fn order_date(self, other: Local) -> Ordering
        ensures { result ≡ date_cmp self other }
    {
        self.year
            .cmp(&other.year)
            .then(self.month.cmp(&other.month))
            .then(self.day.cmp(&other.day))
    }

    fn order_time(self, other: Local) -> Ordering
        ensures { result ≡ time_cmp self other }
    {
        self.hour
            .cmp(&other.hour)
            .then(self.minute.cmp(&other.minute))
            .then(self.second.cmp(&other.second))
            .then(self.fraction.cmp(&other.fraction))
    }
}

// Whether the fraction has so many digits, and so many are kept.
fn fits(fraction: u128, digits: u8) -> bool
    ensures { IsTrue result ↔ ((1 ≤ digits) × (digits ≤ most_digits) × (fraction < 10 ^ digits)) }
{
    if digits < 1 || digits > MOST_DIGITS {
        return false;
    }
    match 10u128.checked_pow(u32::from(digits)) {
        Some(end) => fraction < end,
        None => true,
    }
}

// Whether the minute in UTC lies in the years 1 to 9999.
fn is_kept_in_utc(local: Minute, ahead: i16) -> bool
    requires minute { IsMinute local }
    requires ahead { IsOffset ahead }
    ensures { IsTrue result ↔ InYears (pos (minute_number local) -ℤ ahead) }
{
    match local.moved(-ahead) {
        Some(_) => true,
        None => false,
    }
}

fn minutes_ahead(offset: Option<i16>) -> i16
    ensures { result ≡ minutes_ahead offset }
{
    match offset {
        None => 0,
        Some(minutes) => minutes,
    }
}

fn same_offsets(offset: Option<i16>, other: Option<i16>) -> bool
    ensures { result ≡ option_eq int_eq offset other }
{
    match (offset, other) {
        (None, None) => true,
        (Some(offset), Some(other)) => offset == other,
        _ => false,
    }
}

fn order_offsets(offset: Option<i16>, other: Option<i16>) -> Ordering
    ensures { result ≡ option_cmp int_cmp offset other }
{
    match (offset, other) {
        (None, None) => Ordering::Equal,
        (None, Some(_)) => Ordering::Less,
        (Some(_), None) => Ordering::Greater,
        (Some(offset), Some(other)) => offset.cmp(&other),
    }
}
