//! Whether octets are the body of a timestamp (Ion 1.0, "Ion Binary Encoding", timestamp), where
//! nobody asks for its parts. Bodies of the usual form are judged part by part; what is unusual
//! isn't told of them here.
ghost use Rattle.std.specs.Prelude.{◌≡◌, ◌<◌, ◌≤◌, ◌^◌, ℕ, true, Ok, is_ok, IsOkAnd, IfSome, length};
ghost use Rattle.ion_scalar.specs.Names.{Date, Minute, last_month, last_year, month_length, read_behind_day, read_behind_hour, read_behind_minute, read_behind_month, read_behind_second, read_behind_year, read_field, read_fields, timestamp_of_body};

use crate::fields::few_int_of;
use crate::timestamp_body::{field, offset_of, timestamp_of};
use ion_atoms::bounds::{LAST_HOUR, LAST_MINUTE, LAST_MONTH, LAST_SECOND, LAST_YEAR};
use ion_atoms::calendar::has_day;

/// Whether the octets are the body of a timestamp, that is, whether `timestamp_of` answers one.
/// Takes no memory.
pub fn is_timestamp_body(octets: &[u8]) -> bool
    ensures { result ≡ is_ok (timestamp_of_body octets.now) }
{
    if is_usual(octets) {
        return true;
    }
    timestamp_of(octets).is_ok()
}

fn is_usual(octets: &[u8]) -> bool
    ensures { result ≡ true → is_ok (timestamp_of_body octets.now) ≡ true }
{
    match offset_of(octets) {
        Ok((_, used)) => is_usual_time(&octets[used..]),
        Err(_) => false,
    }
}

// Of these years no offset leads out of the years 1 to 9999.
#[inline(always)]
#[tactic(auto, unfolding(crate::specs::binary::Timestamp::read_fields))]
fn is_usual_time(octets: &[u8]) -> bool
    ensures { result ≡ true → IsOkAnd (read_fields octets.now)
        (λ utc. (2 ≤ utc.minute.date.year) × (utc.minute.date.year < last_year)) }
{
    match field(1, LAST_YEAR as u64, octets) {
        Ok((year, used)) if 2 <= year && year < LAST_YEAR => usual_month(year, &octets[used..]),
        _ => false,
    }
}

// The number of a part that has one octet.
#[inline(always)]
#[tactic(auto, unfolding(crate::specs::binary::Timestamp::read_field))]
fn part(least: u8, most: u8, octets: &[u8]) -> Option<u8>
    ensures some { IfSome result (λ number. 0 < length octets.now) }
    ensures range { IfSome result (λ number. (least ≤ number) × (number ≤ most)) }
    ensures read { IfSome result (λ number. read_field least most octets.now ≡ Ok (number, 1)) }
{
    if octets.is_empty() || octets[0] < 128 {
        return None;
    }
    let number = octets[0] - 128;
    if number < least || number > most {
        return None;
    }
    Some(number)
}

// The day, where it has one octet, if the month has that day.
#[inline(always)]
fn day_part(year: u16, month: u8, octets: &[u8]) -> Option<u8>
    requires year { (1 ≤ year) × (year ≤ last_year) }
    requires month { (1 ≤ month) × (month ≤ last_month) }
    ensures some { IfSome result (λ day. 0 < length octets.now) }
    ensures read { IfSome result (λ day. read_field 1 (month_length year month) octets.now
        ≡ Ok (day, 1)) }
{
    match part(1, 31, octets) {
        Some(day) if has_day(year, month, day) => Some(day),
        _ => None,
    }
}

#[inline(always)]
#[tactic(auto, unfolding(crate::specs::binary::Timestamp::read_behind_year))]
fn usual_month(year: u16, octets: &[u8]) -> bool
    requires { (1 ≤ year) × (year ≤ last_year) }
    ensures { result ≡ true → IsOkAnd (read_behind_year year octets.now)
        (λ utc. utc.minute.date.year ≡ year) }
{
    if octets.is_empty() {
        return true;
    }
    match part(1, LAST_MONTH, octets) {
        Some(month) => usual_day(year, month, &octets[1..]),
        None => false,
    }
}

#[inline(always)]
#[tactic(auto, unfolding(crate::specs::binary::Timestamp::read_behind_month))]
fn usual_day(year: u16, month: u8, octets: &[u8]) -> bool
    requires year { (1 ≤ year) × (year ≤ last_year) }
    requires month { (1 ≤ month) × (month ≤ last_month) }
    ensures { result ≡ true → IsOkAnd (read_behind_month year month octets.now)
        (λ utc. utc.minute.date.year ≡ year) }
{
    if octets.is_empty() {
        return true;
    }
    match day_part(year, month, octets) {
        Some(_) => usual_hour(&octets[1..]),
        None => false,
    }
}

#[inline(always)]
#[tactic(auto, unfolding(crate::specs::binary::Timestamp::read_behind_day))]
fn usual_hour(octets: &[u8]) -> bool
    ensures { result ≡ true → (date : Date) → IsOkAnd (read_behind_day date octets.now)
        (λ utc. utc.minute.date ≡ date) }
{
    if octets.is_empty() {
        return true;
    }
    match part(0, LAST_HOUR, octets) {
        Some(_) => usual_minute(&octets[1..]),
        None => false,
    }
}

#[inline(always)]
#[tactic(auto, unfolding(crate::specs::binary::Timestamp::read_behind_hour))]
fn usual_minute(octets: &[u8]) -> bool
    ensures { result ≡ true → (date : Date) (hour : ℕ)
        → IsOkAnd (read_behind_hour date hour octets.now)
        (λ utc. utc.minute.date ≡ date) }
{
    let minute = part(0, LAST_MINUTE, octets);
    match minute {
        Some(_) => usual_second(&octets[1..]),
        None => false,
    }
}

#[inline(always)]
#[tactic(auto, unfolding(crate::specs::binary::Timestamp::read_behind_minute))]
fn usual_second(octets: &[u8]) -> bool
    ensures { result ≡ true → (minute : Minute) → IsOkAnd (read_behind_minute minute octets.now)
        (λ utc. utc.minute ≡ minute) }
{
    if octets.is_empty() {
        return true;
    }
    let second = part(0, LAST_SECOND, octets);
    match second {
        Some(_) => usual_fraction(&octets[1..]),
        None => false,
    }
}

#[inline(always)]
#[tactic(auto, unfolding(crate::specs::binary::Timestamp::read_behind_second))]
fn usual_fraction(octets: &[u8]) -> bool
    ensures { result ≡ true → (minute : Minute) (second : ℕ)
        → IsOkAnd (read_behind_second minute second octets.now)
        (λ utc. utc.minute ≡ minute) }
{
    if octets.is_empty() {
        return true;
    }
    // an exponent from -1 to -18
    if octets[0] < 193 || octets[0] > 210 {
        return false;
    }
    match few_int_of(&octets[1..]) {
        Some(magnitude) => magnitude < ten_to(octets[0] - 192),
        None => false,
    }
}

#[inline(always)]
fn ten_to(digits: u8) -> u64
    requires { digits ≤ 18 }
    ensures { result ≡ 10 ^ digits }
{
    match digits {
        0 => 1,
        1 => 10,
        2 => 100,
        3 => 1_000,
        4 => 10_000,
        5 => 100_000,
        6 => 1_000_000,
        7 => 10_000_000,
        8 => 100_000_000,
        9 => 1_000_000_000,
        10 => 10_000_000_000,
        11 => 100_000_000_000,
        12 => 1_000_000_000_000,
        13 => 10_000_000_000_000,
        14 => 100_000_000_000_000,
        15 => 1_000_000_000_000_000,
        16 => 10_000_000_000_000_000,
        17 => 100_000_000_000_000_000,
        _ => 1_000_000_000_000_000_000,
    }
}
