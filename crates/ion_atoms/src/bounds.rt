//! The bounds of a timestamp's parts (Ion 1.0, "Timestamp"). Those of offsets and digits are this
//! project's. `specs/TimestampBounds.antt` has them for contracts.

/// The last year, locally and in UTC; the first is 1. That it bounds the year in UTC, too, is this
/// project's.
pub const LAST_YEAR: u16 = 9999;

/// The last month of a year; the first is 1.
pub const LAST_MONTH: u8 = 12;

/// The last hour of a day; the first is 0.
pub const LAST_HOUR: u8 = 23;

/// The last minute of an hour; the first is 0.
pub const LAST_MINUTE: u8 = 59;

/// The last second of a minute; the first is 0. There is no leap second.
pub const LAST_SECOND: u8 = 59;

/// How many minutes a place's clock is ahead of UTC or behind it at most.
pub const FARTHEST_OFFSET: i16 = 1439;

/// How many digits the fraction of a second has at most.
pub const MOST_DIGITS: u8 = 38;
