//! Timestamps written as octets: always the fewest (Ion 1.0, "Ion Binary Encoding", timestamp).
ghost use Rattle.std.specs.Prelude.{◌≡◌, ◌≤◌, ◌<◌, ◌+◌, ◌^◌, ◌++◌, OnOk, OnErr, IsOkUnless, IfSome, Ok, length, vec_len, vec_capacity};
ghost use Rattle.ion_scalar.specs.Names.{IsOffset, IsTimestamp, Memory, ROOM, ahead_octets, fields_octets, octets_behind_day, octets_behind_minute, octets_behind_month, octets_behind_second, octets_behind_year, timestamp_octets, timestamp_of_body, utc_of};

use crate::backward::Backward;
use crate::fields::Signed;
use crate::put::{append, int_before, var_int_before, var_uint_before};
use crate::timestamp_body::{Utc, ahead_of_utc};
use ion_atoms::calendar::{Date, Minute};
use ion_atoms::{Precision, Reason, Timestamp};

/// Appends the body of a timestamp (Ion 1.0, "Ion Binary Encoding", timestamp): the offset, of
/// which the unknown one is the octet C0, then the fields in UTC up to the precision; d fraction
/// digits are the exponent -d and a coefficient, of which 0 has no octets. Answers `Memory`, and
/// leaves `out` as it was, where it has no room and gets none.
pub fn put_timestamp(timestamp: &Timestamp, out: &mut Vec<u8>) -> Result<(), Reason>
    ensures ok { OnOk result (out.new.items ≡ out.old.items ++ timestamp_octets timestamp.now) }
    ensures err { OnErr result (out.new.items ≡ out.old.items) }
    ensures memory { IsOkUnless result Memory }
    ensures full { OnErr result (vec_capacity out.old < vec_len out.old + length
        (timestamp_octets timestamp.now)) }
    ensures again { timestamp_of_body (timestamp_octets timestamp.now) ≡ Ok timestamp.now }
{
    let mut octets = Backward::new();
    timestamp_before(&mut octets, *timestamp);
    append(octets.written(), out)
}

// Each of these writes in front of what is written.

fn timestamp_before(octets: &mut Backward, timestamp: Timestamp)
    requires { length octets.old + 55 ≤ ROOM }
    ensures octets { octets.new ≡ timestamp_octets timestamp ++ octets.old }
    ensures again { timestamp_of_body (timestamp_octets timestamp) ≡ Ok timestamp }
{
    fields_before(octets, utc_of(timestamp));
    ahead_before(octets, timestamp.offset());
}

// The fields in UTC.
fn utc_of(timestamp: Timestamp) -> Utc
    ensures value { result ≡ utc_of timestamp }
    ensures small { result.fraction < 2 ^ 127 }
    ensures kept { IsTimestamp timestamp }
{
    let local = timestamp.local();
    let date = Date {
        year: local.year,
        month: local.month,
        day: local.day,
    };
    let minute = Minute {
        date,
        hour: local.hour,
        minute: local.minute,
    };
    match minute.moved(-ahead_of_utc(timestamp.offset())) {
        Some(minute) => Utc {
            minute,
            second: local.second,
            fraction: local.fraction,
            precision: timestamp.precision(),
        },
        None => unreachable!(),
    }
}

fn ahead_before(octets: &mut Backward, offset: Option<i16>)
    requires room { length octets.old + 10 ≤ ROOM }
    requires near { IfSome offset IsOffset }
    ensures { octets.new ≡ ahead_octets offset ++ octets.old }
{
    let ahead = match offset {
        None => Signed::new(true, 0),
        Some(minutes) => Signed::new(minutes < 0, u64::from(minutes.unsigned_abs())),
    };
    var_int_before(octets, ahead);
}

fn fields_before(octets: &mut Backward, utc: Utc)
    requires room { length octets.old + 51 ≤ ROOM }
    requires small { utc.fraction < 2 ^ 127 }
    ensures octets { octets.new ≡ fields_octets utc ++ octets.old }
    ensures few { length octets.new ≤ length octets.old + 45 }
{
    behind_year(octets, utc);
    var_uint_before(octets, u64::from(utc.minute.date.year));
}

fn behind_year(octets: &mut Backward, utc: Utc)
    requires room { length octets.old + 48 ≤ ROOM }
    requires small { utc.fraction < 2 ^ 127 }
    ensures octets { octets.new ≡ octets_behind_year utc.precision utc ++ octets.old }
    ensures few { length octets.new ≤ length octets.old + 42 }
{
    match utc.precision {
        Precision::Year => {}
        _ => {
            behind_month(octets, utc);
            var_uint_before(octets, u64::from(utc.minute.date.month));
        }
    }
}

fn behind_month(octets: &mut Backward, utc: Utc)
    requires room { length octets.old + 45 ≤ ROOM }
    requires small { utc.fraction < 2 ^ 127 }
    ensures octets { octets.new ≡ octets_behind_month utc.precision utc ++ octets.old }
    ensures few { length octets.new ≤ length octets.old + 39 }
{
    match utc.precision {
        Precision::Year | Precision::Month => {}
        _ => {
            behind_day(octets, utc);
            var_uint_before(octets, u64::from(utc.minute.date.day));
        }
    }
}

fn behind_day(octets: &mut Backward, utc: Utc)
    requires room { length octets.old + 42 ≤ ROOM }
    requires small { utc.fraction < 2 ^ 127 }
    ensures octets { octets.new ≡ octets_behind_day utc.precision utc ++ octets.old }
    ensures few { length octets.new ≤ length octets.old + 36 }
{
    match utc.precision {
        Precision::Year | Precision::Month | Precision::Day => {}
        _ => {
            behind_minute(octets, utc);
            var_uint_before(octets, u64::from(utc.minute.minute));
            var_uint_before(octets, u64::from(utc.minute.hour));
        }
    }
}

fn behind_minute(octets: &mut Backward, utc: Utc)
    requires room { length octets.old + 36 ≤ ROOM }
    requires small { utc.fraction < 2 ^ 127 }
    ensures octets { octets.new ≡ octets_behind_minute utc.precision utc ++ octets.old }
    ensures few { length octets.new ≤ length octets.old + 30 }
{
    match utc.precision {
        Precision::Second | Precision::Fraction(_) => {
            behind_second(octets, utc);
            var_uint_before(octets, u64::from(utc.second));
        }
        _ => {}
    }
}

fn behind_second(octets: &mut Backward, utc: Utc)
    requires room { length octets.old + 27 ≤ ROOM }
    requires small { utc.fraction < 2 ^ 127 }
    ensures octets { octets.new ≡ octets_behind_second utc.precision utc ++ octets.old }
    ensures few { length octets.new ≤ length octets.old + 27 }
{
    match utc.precision {
        Precision::Fraction(digits) => {
            int_before(octets, false, utc.fraction);
            var_int_before(octets, Signed::new(true, u64::from(digits)));
        }
        _ => {}
    }
}
