//! Values told to a visitor by way of what keeps local symbol tables from it, event by event. What is
//! owned is let go by a call of `drop`, as in `model.rt`.
use crate::answers::same;
use ion_model::{Kind, Outline, Reason, Symbol, Value, Whole};
use ion_scalar::Number;
use ion_visiting::{Bracket, Building, Count, Outlining, Part, TableFilter, Visitor};
use std::alloc::Global;
use std::test::Fail;

// Events are words with blanks between them: an annotation, as `a::`, a field's name, as `a:`, a
// bracket, the string `"a"`, the null `null.struct`, an int below 10, and else a symbol.

const TABLE: &str = "$ion_symbol_table:: { symbols: [ \"a\" ] max_id: 7 }";

const NULL_TABLE: &str = "$ion_symbol_table:: note:: null.struct";

const NOTED_LIST: &str = "$ion_symbol_table:: note:: [ word 8 ]";

const NOTED_STRUCT: &str = "note:: $ion_symbol_table:: { a: $ion_symbol_table:: { } }";

fn tell_event<V: Visitor>(
    alloc: Global,
    event: &str,
    filter: &mut TableFilter,
    visitor: &mut V,
) -> Result<bool, Reason> {
    match event {
        "{" => Ok(filter.open(Bracket::Fields, visitor)),
        "[" => Ok(filter.open(Bracket::List, visitor)),
        "]" => Ok(filter.close(Bracket::List, visitor)),
        "}" => Ok(filter.close(Bracket::Fields, visitor)),
        "\"a\"" => Ok(filter.part(&Part::Str("a"), visitor)),
        "null.struct" => Ok(filter.part(&Part::Null(Kind::Fields), visitor)),
        _ => tell_word(alloc, event, filter, visitor),
    }
}

fn tell_word<V: Visitor>(
    alloc: Global,
    word: &str,
    filter: &mut TableFilter,
    visitor: &mut V,
) -> Result<bool, Reason> {
    if let Some(text) = word.strip_suffix("::") {
        let symbol = Symbol::known(alloc, text)?;
        let told = filter.annotation(&symbol, visitor);
        drop(symbol);
        return Ok(told);
    }
    if let Some(text) = word.strip_suffix(':') {
        return Ok(filter.text_name(text, visitor));
    }
    if let Some(whole) = word
        .parse::<u8>()
        .ok()
        .and_then(|int| Whole::new(i128::from(int)))
    {
        return Ok(filter.number(Number::Int(whole), visitor));
    }
    let symbol = Symbol::known(alloc, word)?;
    let told = filter.symbol(&symbol, visitor);
    drop(symbol);
    Ok(told)
}

/// Tells events, and answers whether all were taken.
fn tell_events<V: Visitor>(
    alloc: Global,
    events: &str,
    filter: &mut TableFilter,
    visitor: &mut V,
) -> Result<bool, Reason> {
    for event in events.split_whitespace() {
        if !tell_event(alloc, event, filter, visitor)? {
            return Ok(false);
        }
    }
    Ok(true)
}

/// Whether what was told is a table, and the outline of what the visitor heard.
fn heard(alloc: Global, filter: &mut TableFilter, events: &str) -> Option<(bool, Outline)> {
    let mut outlining = Outlining::new();
    let told = tell_events(alloc, events, filter, &mut outlining);
    let table = filter.end();
    let is_table = table.is_some();
    drop(table);
    match told {
        Ok(true) => Some((is_table, outlining.take())),
        Ok(false) | Err(_) => None,
    }
}

/// The events of a value, whether it is a table, and the kind, the depth and the nodes of what a
/// visitor hears of it. (`null` is what nothing is outlined as.)
static OUTLINES: [(&str, bool, Kind, u64, u64); 6] = [
    (TABLE, true, Kind::Null, 0, 0),
    (NOTED_LIST, false, Kind::List, 1, 5),
    (NULL_TABLE, true, Kind::Null, 0, 0),
    (NULL_TABLE, true, Kind::Null, 0, 0),
    (NOTED_STRUCT, false, Kind::Fields, 2, 6),
    (TABLE, true, Kind::Null, 0, 0),
];

#[test]
fn tables_are_kept_from_a_visitor(rt: HostRuntime) {
    let mut filter = TableFilter::new(rt.alloc());
    for (at, row) in OUTLINES.iter().enumerate() {
        let outline = Outline {
            kind: row.2,
            depth: row.3,
            nodes: row.4,
        };
        let found = heard(rt.alloc(), &mut filter, row.0);
        same(&rt, at, found, Some((row.1, outline)));
    }
    drop(filter);
}

/// A front of events, and whether they may be those of a table.
static FRONTS: [(&str, bool); 5] = [
    ("", false),
    ("$ion_symbol_table::", true),
    ("note::", false),
    ("$ion_symbol_table:: 7", false),
    ("$ion_symbol_table:: { imports:", true),
];

#[test]
fn fronts_of_tables_are_known(rt: HostRuntime) -> Result<(), Fail> {
    for (at, row) in FRONTS.iter().enumerate() {
        let mut filter = TableFilter::new(rt.alloc());
        let told = tell_events(rt.alloc(), row.0, &mut filter, &mut Count::new());
        let may_be = filter.may_be_table();
        drop(filter);
        same(&rt, at, (told?, may_be), (true, row.1));
    }
    Ok(())
}

/// That table without its open content, and that list.
fn wanted(alloc: Global) -> Result<(Value, Value), Reason> {
    let texts = Value::list(alloc, vec![in alloc; Value::string(alloc, "a")?]?);
    let fields = vec![in alloc; ("symbols", texts)]?;
    let table = Value::record(alloc, fields)?.annotated(alloc, &["$ion_symbol_table"])?;
    let items = vec![in alloc; Value::symbol(alloc, "word")?, Value::int(alloc, 8)]?;
    let list = Value::list(alloc, items);
    Ok((
        table,
        list.annotated(alloc, &["$ion_symbol_table", "note"])?,
    ))
}

/// Whether the table is built in the filter, and the list behind it in the visitor.
fn are_built(alloc: Global, table: Value, list: Value) -> Result<(bool, bool), Reason> {
    let (mut filter, mut building) = (TableFilter::new(alloc), Building::new(alloc));
    let first = tell_events(alloc, TABLE, &mut filter, &mut building)?;
    let (of_first, kept) = (building.take(), filter.end());
    let second = tell_events(alloc, NOTED_LIST, &mut filter, &mut building)?;
    let (of_second, none) = (building.take(), filter.end());
    let tables = of_first.is_none() && kept.as_ref() == Some(&table);
    let lists = of_second.as_ref() == Some(&list) && none.is_none();
    drop((of_first, kept, of_second, none));
    drop((table, list));
    drop((filter, building));
    Ok((first && tables, second && lists))
}

#[test]
fn tables_and_values_are_built(rt: HostRuntime) -> Result<(), Fail> {
    let (table, list) = wanted(rt.alloc())?;
    let found = are_built(rt.alloc(), table, list)?;
    same(&rt, "table, list", found, (true, true));
    Ok(())
}

#[test]
fn values_that_are_no_tables_are_counted(rt: HostRuntime) -> Result<(), Fail> {
    let (mut filter, mut count) = (TableFilter::new(rt.alloc()), Count::new());
    for row in &OUTLINES {
        let told = tell_events(rt.alloc(), row.0, &mut filter, &mut count);
        let table = filter.end();
        let told = told? && (table.is_some() || count.ended());
        drop(table);
        same(&rt, row.1, told, true);
    }
    drop(filter);
    same(&rt, "values", count.values(), 2);
    Ok(())
}
