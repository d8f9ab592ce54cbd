//! Numbers as tokens and as binary bodies, the fields that bodies consist of, and sums.
use crate::row::Row;
use ion_model::{Decimal, Reason};
use ion_scalar::{
    Descriptor, Number, Signed, decimal_of, int_of, number_of, put_decimal, put_int, put_number,
    put_timestamp, put_uint, put_var_int, put_var_uint, read_var_int, read_var_uint, timestamp_of,
    uint_of,
};
use std::alloc::Global;
use std::test::Fail;

/// The number of a token, or of the body of a timestamp or a decimal.
fn number(sort: &str, octets: &[u8]) -> Result<Number, Reason> {
    match sort {
        "timestamp" => Ok(Number::Timestamp(timestamp_of(octets)?)),
        "decimal" => Ok(Number::Decimal(decimal_of(octets)?)),
        _ => number_of(octets),
    }
}

/// `number`, `timestamp` and `decimal`: a token or a body | the text of its number, or the reason
/// for a refusal.
pub fn spells(alloc: Global, row: Row<'_>, octets: &[u8]) -> Result<(), Fail> {
    match number(row.field(0), octets) {
        Ok(number) => wants_number(alloc, row, 2, &number),
        Err(reason) => row.wants(2, reason.name()),
    }
}

/// Fails, where a field is not the text of this number.
fn wants_number(alloc: Global, row: Row<'_>, field: usize, number: &Number) -> Result<(), Fail> {
    let mut out = Vec::new(alloc);
    put_number(number, &mut out)?;
    row.wants(field, str::from_utf8(out.as_slice())?)
}

/// `body`: the token of a timestamp or a decimal | its body as it is written.
pub fn has_body(alloc: Global, row: Row<'_>, token: &[u8]) -> Result<(), Fail> {
    let mut out = Vec::new(alloc);
    match number_of(token)? {
        Number::Timestamp(timestamp) => put_timestamp(&timestamp, &mut out)?,
        Number::Decimal(decimal) => put_decimal(&decimal, &mut out)?,
        Number::Int(_) => return Err("an int".into()),
    }
    row.wants_octets(alloc, 2, out.as_slice())
}

/// The number of a field, whether it is negative, and of fields whose length shows in them how many
/// octets it takes.
fn read_field(sort: &str, octets: &[u8]) -> Result<(bool, u128, Option<usize>), Reason> {
    match sort {
        "var_uint" => {
            let (value, used) = read_var_uint(octets)?;
            Ok((false, u128::from(value), Some(used)))
        }
        "var_int" => {
            let (value, used) = read_var_int(octets)?;
            Ok((value.negative, u128::from(value.magnitude), Some(used)))
        }
        "int" => {
            let (negative, magnitude) = int_of(octets)?;
            Ok((negative, magnitude, None))
        }
        _ => Ok((false, uint_of(octets)?, None)),
    }
}

/// `var_uint` and `var_int`: octets | the number at their front, and how many octets it takes;
/// `uint` and `int`: octets | the number; or the reason for a refusal.
pub fn is_field(alloc: Global, row: Row<'_>, octets: &[u8]) -> Result<(), Fail> {
    let (negative, magnitude, used) = match read_field(row.field(0), octets) {
        Ok(field) => field,
        Err(reason) => return row.wants(2, reason.name()),
    };
    let sign = if negative { "-" } else { "" };
    let told = match used {
        Some(used) => format!(in alloc; "{sign}{magnitude} {used}")?,
        None => format!(in alloc; "{sign}{magnitude}")?,
    };
    row.wants(2, told.as_str())
}

/// `descriptor`: an octet | what it begins, or the reason for a refusal.
pub fn is_descriptor(alloc: Global, row: Row<'_>, octets: &[u8]) -> Result<(), Fail> {
    match Descriptor::of(octets.first().copied().unwrap_or(0)) {
        Ok(descriptor) => {
            let told = format!(in alloc; "{descriptor:?}")?;
            row.wants(2, told.as_str())
        }
        Err(reason) => row.wants(2, reason.name()),
    }
}

/// Appends a number as a field of this sort.
fn put(sort: &str, number: &str, out: &mut Vec<u8>) -> Result<(), Fail> {
    let digits = number.strip_prefix('-');
    let negative = digits.is_some();
    let magnitude = digits.unwrap_or(number).parse::<u32>()?;
    match sort {
        "var_uint" => put_var_uint(u64::from(magnitude), out)?,
        "var_int" => put_var_int(Signed::new(negative, u64::from(magnitude)), out)?,
        "uint" => put_uint(u128::from(magnitude), out)?,
        _ => put_int(negative, u128::from(magnitude), out)?,
    }
    Ok(())
}

/// `put`: sorts of fields, each with its number, and commas between them | the octets of them all.
pub fn puts(alloc: Global, row: Row<'_>) -> Result<(), Fail> {
    let mut out = Vec::new(alloc);
    put_each(row.field(1), &mut out)?;
    row.wants_octets(alloc, 2, out.as_slice())
}

fn put_each(fields: &str, out: &mut Vec<u8>) -> Result<(), Fail> {
    for field in fields.split(',') {
        if let Some((sort, number)) = field.trim().split_once(' ') {
            put(sort, number, out)?;
        }
    }
    Ok(())
}

/// The decimal that a field spells.
fn decimal(row: Row<'_>, field: usize) -> Result<Decimal, Fail> {
    match number_of(row.field(field).as_bytes())? {
        Number::Decimal(decimal) => Ok(decimal),
        _ => Err("no decimal".into()),
    }
}

/// `sum` | a decimal | another | their sum in either order, or `none`.
pub fn adds(alloc: Global, row: Row<'_>) -> Result<(), Fail> {
    let (left, right) = (decimal(row, 1)?, decimal(row, 2)?);
    for sum in [left.checked_add(right), right.checked_add(left)] {
        match sum {
            Some(sum) => wants_number(alloc, row, 3, &Number::Decimal(sum))?,
            None => row.wants(3, "none")?,
        }
    }
    Ok(())
}
