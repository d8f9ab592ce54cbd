//! Calls that get no memory once: each gives its own answer or `Memory`, keeps what it says that it
//! keeps, and asked again gives its own answer. `tests/starved.py` refuses each growth in turn;
//! elsewhere none is refused.
use super::tables::{catalog, local, value};
use crate::answers::{holds, same, same_or_starved};
use ion_model::{Reason, Value, equivalent, normalise, parting, same_slow};
use ion_scalar::{Number, number_of, put_decimal, put_number, put_timestamp};
use ion_symtab::{Catalog, Context, SharedTable};
use std::alloc::Global;
use std::process::Abort;

/// Appends a number as text, or a decimal or timestamp as its binary body.
fn put(number: &Number, as_text: bool, out: &mut Vec<u8>) -> Result<(), Reason> {
    match number {
        Number::Decimal(decimal) if !as_text => put_decimal(decimal, out),
        Number::Timestamp(timestamp) if !as_text => put_timestamp(timestamp, out),
        _ => put_number(number, out),
    }
}

/// A token, whether it is put as text, and what is put.
static SCALARS: [(&str, bool, &[u8]); 5] = [
    ("1_000", true, b"1000"),
    ("1.5", true, b"15d-1"),
    ("1.5", false, &[0xC1, 0x0F]),
    ("2007T", true, b"2007T"),
    ("2007T", false, &[0xC0, 0x0F, 0xD7]),
];

/// Appends a number, or nothing where memory is wanted, and then the number.
fn put_at_last(rt: &impl Abort, number: &Number, as_text: bool, out: &mut Vec<u8>) {
    if let Err(reason) = put(number, as_text, out) {
        same(
            rt,
            "refused",
            (reason, out.is_empty()),
            (Reason::Memory, true),
        );
        same(rt, "again", put(number, as_text, out), Ok(()));
    }
}

#[test]
fn starved_scalars(rt: HostRuntime) {
    for (token, as_text, wanted) in &SCALARS {
        let mut out = Vec::new(rt.alloc());
        if let Ok(number) = number_of(token.as_bytes()) {
            put_at_last(&rt, &number, *as_text, &mut out);
        }
        same(&rt, *token, out.as_slice(), *wanted);
        drop(out);
    }
}

/// The shared table t 1 of x.
const SHARED: &[u8] = b"$ion_shared_symbol_table::{name:\"t\",version:1,symbols:[\"x\"]}";

/// A table that imports, and one that appends.
static LOCAL: [&[u8]; 2] = [
    b"{imports:[{name:\"t\"}]}",
    b"{imports:$ion_symbol_table,symbols:[\"a\",\"b\"]}",
];

/// A context takes up a table; or it is as it was, and takes it up then.
fn apply_at_last(
    rt: &impl Abort,
    context: &mut Context,
    table: &Value,
    tables: &Catalog,
) -> Result<(), Reason> {
    let before = context.max_id();
    if table.is_table()
        && let Err(reason) = context.apply(table, tables)
    {
        let refused = (reason, context.max_id());
        same(rt, "refused", refused, (Reason::Memory, before));
        context.apply(table, tables)?;
    }
    Ok(())
}

/// An id stands for this text.
fn resolves(rt: &impl Abort, context: &Context, id: u64, text: &str) -> Result<(), Reason> {
    let symbol = context.resolve(id)?;
    same(rt, id, symbol.text(), Some(text));
    drop(symbol);
    Ok(())
}

/// A context takes up the local tables.
fn apply_each(
    rt: &impl Abort,
    alloc: Global,
    context: &mut Context,
    tables: &Catalog,
) -> Result<(), Reason> {
    for text in &LOCAL {
        let table = local(alloc, *text)?;
        let applied = apply_at_last(rt, context, &table, tables);
        drop(table);
        applied?;
    }
    same(rt, "greatest id", context.max_id(), 12);
    resolves(rt, context, 10, "x")?;
    resolves(rt, context, 12, "b")
}

/// The system's context takes up the local tables.
fn applies_under(rt: &impl Abort, alloc: Global, tables: &Catalog) -> Result<(), Reason> {
    let mut context = Context::system(alloc)?;
    let applied = apply_each(rt, alloc, &mut context, tables);
    drop(context);
    applied
}

/// The same under a catalog of the shared table.
fn applies(rt: &impl Abort, alloc: Global) -> Result<(), Reason> {
    let tables = catalog(alloc, SHARED)?;
    let applied = applies_under(rt, alloc, &tables);
    drop(tables);
    applied
}

/// The shared table u 1 of y.
fn table_of_y(alloc: Global) -> Result<SharedTable, Reason> {
    let name = String::from_str(alloc, "u")?;
    let symbols = vec![in alloc; Some(String::from_str(alloc, "y")?)]?;
    SharedTable::new(alloc, name, 1, symbols)
}

/// A catalog takes a table; or it hands it back and is as it was, and takes it then.
fn add_at_last(rt: &impl Abort, tables: &mut Catalog, added: SharedTable) {
    if let Err((table, reason)) = tables.add(added) {
        let refused = (reason, tables.find("u", 1).is_none());
        same(rt, "refused", refused, (Reason::Memory, true));
        holds(rt, "it takes the table then", tables.add(table).is_ok());
    }
}

/// A catalog takes a table beside its own.
fn takes_another(rt: &impl Abort, alloc: Global, tables: &mut Catalog) -> Result<(), Reason> {
    add_at_last(rt, tables, table_of_y(alloc)?);
    holds(rt, "u", tables.find("u", 1).is_some());
    holds(rt, "t", tables.find("t", 1).is_some());
    Ok(())
}

/// A catalog of the shared table takes another.
fn takes_tables(rt: &impl Abort, alloc: Global) -> Result<(), Reason> {
    let mut tables = catalog(alloc, SHARED)?;
    let taken = takes_another(rt, alloc, &mut tables);
    drop(tables);
    taken
}

#[test]
fn starved_tables(rt: HostRuntime) {
    let applied = applies(&rt, rt.alloc());
    same_or_starved(&rt, "context", applied, (), Reason::Memory);
    let taken = takes_tables(&rt, rt.alloc());
    same_or_starved(&rt, "catalog", taken, (), Reason::Memory);
}

/// The normal form of a value; or the value as it was.
fn normal_or_back(rt: &impl Abort, alloc: Global, value: &Value) -> Result<Value, Reason> {
    match normalise(alloc, value.copy(alloc)?) {
        Ok(normal) => Ok(normal),
        Err((back, reason)) => {
            let refused = (reason, same_slow(&back, value));
            same(rt, "refused", refused, (Reason::Memory, true));
            Ok(back)
        }
    }
}

/// The two are equivalent, and no path leads to where they part.
fn are_same(rt: &impl Abort, alloc: Global, one: &Value, other: &Value) -> Result<(), Reason> {
    holds(rt, "equivalent", equivalent(alloc, one, other)?);
    let path = parting(alloc, one, other)?;
    let none = path.is_none();
    drop(path);
    holds(rt, "no path", none);
    Ok(())
}

/// A value and its normal form are the same.
fn stays_same(rt: &impl Abort, alloc: Global, value: &Value) -> Result<(), Reason> {
    let normal = normal_or_back(rt, alloc, value)?;
    let stays = are_same(rt, alloc, &normal, value);
    drop(normal);
    stays
}

/// `{b:2,a:{x:1,y:2},a:0}` and the normal form of its copy are the same.
fn normalises(rt: &impl Abort, alloc: Global) -> Result<(), Reason> {
    let value = value(alloc, b"{b:2,a:{x:1,y:2},a:0}")?;
    let normalised = stays_same(rt, alloc, &value);
    drop(value);
    normalised
}

#[test]
fn starved_values(rt: HostRuntime) {
    let normalised = normalises(&rt, rt.alloc());
    same_or_starved(&rt, "normal", normalised, (), Reason::Memory);
}
