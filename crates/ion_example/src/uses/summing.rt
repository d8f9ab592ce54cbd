//! What is the sum of a field, over a log whose values are read one by one?
use anyhow::{Context, Result};
use ion::{Catalog, Decimal, FromRead, Limits, Stop, Value, text_of, values};
use std::alloc::Global;
use std::io::Read;

/// The exact sum of the decimals and the ints in a field of the values of a document, as text; it is
/// an error where it has more digits than a decimal keeps.
pub(crate) fn sum_of<R: Read + Drop>(alloc: Global, octets: R, name: &str) -> Result<String> {
    let catalog = Catalog::new(alloc);
    let mut reader = FromRead::new(octets);
    let mut stream = values(alloc, &mut reader, &catalog, Limits::usual())?.each();
    let sum = stream.try_fold(None, |sum: Option<Decimal>, value: Result<Value, Stop>| {
        let value = value?;
        let number = number_in(&value, name);
        drop(value);
        added(sum, number)
    });
    // (by a call, or a proof goes through all that it owns)
    drop(stream);
    spelled(alloc, sum?)
}

/// The decimal in a field of a struct, if there is one; an int is a decimal of exponent 0.
fn number_in(value: &Value, name: &str) -> Option<Decimal> {
    let held = value.field(name)?;
    match held.as_int() {
        Some(int) => Decimal::new(int.get() < 0, int.get().unsigned_abs(), 0),
        None => held.as_decimal(),
    }
}

/// The sum of two decimals, either of which may be missing.
fn added(sum: Option<Decimal>, number: Option<Decimal>) -> Result<Option<Decimal>> {
    match (sum, number) {
        (Some(sum), Some(number)) => {
            let sum = sum.checked_add(number).context("the sum is out of range")?;
            Ok(Some(sum))
        }
        (None, _) => Ok(number),
        (_, None) => Ok(sum),
    }
}

/// A sum as Ion text.
fn spelled(alloc: Global, sum: Option<Decimal>) -> Result<String> {
    match sum {
        Some(sum) => Ok(text_of(alloc, &Value::decimal(alloc, sum))?),
        None => Ok(format!(in alloc; "no number")?),
    }
}
