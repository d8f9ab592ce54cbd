//! Values made in one expression, and asked for what they hold. What is owned is let go by a call
//! of `drop`, as in `model.rt`.
use crate::answers::same;
use ion_model::{Kind, Reason, Value};
use std::alloc::Global;
use std::test::Fail;

/// Of `{a:1,b:2,a:3}`: how many fields are named so, and the first of them.
fn fields_of(alloc: Global, name: &str) -> Result<(usize, Option<i128>), Reason> {
    let (one, two, three) = (
        Value::int(alloc, 1),
        Value::int(alloc, 2),
        Value::int(alloc, 3),
    );
    let record = Value::record(alloc, vec![in alloc; ("a", one), ("b", two), ("a", three)]?)?;
    let first = record.field(name).and_then(Value::as_int).map(|w| w.get());
    let count = record.fields_named(alloc, name).map(|values| values.len());
    drop(record);
    Ok((count?, first))
}

#[test]
fn fields_are_found_by_name(rt: HostRuntime) -> Result<(), Fail> {
    for row in &[("a", (2, Some(1))), ("b", (1, Some(2))), ("c", (0, None))] {
        same(&rt, row.0, fields_of(rt.alloc(), row.0)?, row.1);
    }
    Ok(())
}

/// Whether a value is of this kind, holds a bool, how many items, and how long its text or its
/// octets are.
fn held(value: Value) -> (Kind, Option<bool>, Option<usize>, Option<usize>) {
    let text = match (value.as_str(), value.as_symbol()) {
        (Some(text), _) => Some(text.len()),
        (None, Some(symbol)) => symbol.text().map(str::len),
        (None, None) => None,
    };
    let octets = match (value.as_clob(), value.as_blob()) {
        (Some(clob), _) => Some(clob.len()),
        (None, Some(blob)) => Some(blob.len()),
        (None, None) => text,
    };
    let items = value.items().map(<[Value]>::len);
    let found = (value.kind(), value.as_bool(), items, octets);
    drop(value);
    found
}

#[test]
fn values_hold_what_they_are_made_of(rt: HostRuntime) -> Result<(), Fail> {
    let alloc = rt.alloc();
    let null = held(Value::null(alloc, Kind::Int));
    same(&rt, "null", null, (Kind::Int, None, None, None));
    let truth = held(Value::bool(alloc, true));
    same(&rt, "bool", truth, (Kind::Bool, Some(true), None, None));
    let list = held(Value::list(alloc, vec![in alloc; Value::int(alloc, 5)]?));
    same(&rt, "list", list, (Kind::List, None, Some(1), None));
    let sexp = held(Value::sexp(alloc, Vec::new(alloc)));
    same(&rt, "sexp", sexp, (Kind::Sexp, None, Some(0), None));
    let symbol = held(Value::symbol(alloc, "ab")?);
    same(&rt, "symbol", symbol, (Kind::Symbol, None, None, Some(2)));
    let string = held(Value::string(alloc, "abc")?);
    same(&rt, "string", string, (Kind::Str, None, None, Some(3)));
    let clob = held(Value::clob(alloc, b"abcd")?);
    same(&rt, "clob", clob, (Kind::Clob, None, None, Some(4)));
    let blob = held(Value::blob(alloc, b"abcde")?);
    same(&rt, "blob", blob, (Kind::Blob, None, None, Some(5)));
    Ok(())
}

/// How many annotations `a::b::5` has, and its int.
fn annotated(alloc: Global) -> Result<(usize, Option<i128>), Reason> {
    let value = Value::int(alloc, 5).annotated(alloc, &["a", "b"])?;
    let int = value.as_int().map(|w| w.get());
    let found = (value.annotations.len(), int);
    drop(value);
    Ok(found)
}

#[test]
fn a_value_is_annotated(rt: HostRuntime) -> Result<(), Fail> {
    same(&rt, "a::b::5", annotated(rt.alloc())?, (2, Some(5)));
    Ok(())
}
