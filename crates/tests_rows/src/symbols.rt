//! Contexts of symbols behind local symbol tables.
use crate::row::Row;
use crate::values::values;
use ion_model::{Reason, Symbol, Value};
use ion_symtab::{Catalog, Context, SharedTable};
use std::alloc::{AllocError, Global};
use std::test::Fail;

/// Adds the shared tables in a field, each with its name, version and texts, with commas between
/// them.
fn add_tables(
    alloc: Global,
    row: Row<'_>,
    number: usize,
    catalog: &mut Catalog,
) -> Result<(), Fail> {
    for described in row.field(number).split(',') {
        if let Some((name, rest)) = described.trim().split_once(' ') {
            add_table(alloc, name, rest, catalog)?;
        }
    }
    Ok(())
}

fn add_table(alloc: Global, name: &str, rest: &str, catalog: &mut Catalog) -> Result<(), Fail> {
    let (version, texts) = rest.split_once(' ').unwrap_or((rest, ""));
    let version = version.parse::<u32>()?;
    let mut symbols = Vec::new(alloc);
    put_symbols(alloc, texts, &mut symbols)?;
    let name = String::from_str(alloc, name)?;
    Ok(add(catalog, SharedTable::new(alloc, name, version, symbols))?)
}

fn put_symbols(alloc: Global, texts: &str, symbols: &mut Vec<Option<String>>) -> Result<(), Fail> {
    for text in texts.split_whitespace() {
        symbols.push(Some(String::from_str(alloc, text)?))?;
    }
    Ok(())
}

/// Adds a table, if there is one; why not.
fn add(catalog: &mut Catalog, table: Result<SharedTable, Reason>) -> Result<(), Reason> {
    match catalog.add(table?) {
        Ok(()) => Ok(()),
        Err((table, reason)) => {
            drop(table);
            Err(reason)
        }
    }
}

/// Tells the reason for which a table was refused.
fn refused(reason: Reason, told: &mut String) -> Result<(), AllocError> {
    write!(told, "refused {} ", reason.name())
}

/// The items of the list that a field spells, if it spells one.
fn items(lists: &[Value]) -> &[Value] {
    lists.first().and_then(Value::items).unwrap_or(&[])
}

/// Applies tables in turn; tells those that are refused.
fn apply(
    context: &mut Context,
    tables: &[Value],
    catalog: &Catalog,
    told: &mut String,
) -> Result<(), Fail> {
    for table in tables {
        if !table.is_table() {
            return Err("no table".into());
        }
        if let Err(reason) = context.apply(table, catalog) {
            refused(reason, told)?;
        }
    }
    Ok(())
}

/// Tells what a context answers: the symbol of an id, its greatest id for `max`, and nothing for
/// `reset`, after which it has the system symbols alone.
fn tell(context: &mut Context, word: &str, told: &mut String) -> Result<(), Fail> {
    match word {
        "reset" => {
            context.reset();
            Ok(())
        }
        "max" => Ok(write!(told, "{} ", context.max_id())?),
        _ => Ok(tell_symbol(context.resolve(word.parse::<u64>()?), told)?),
    }
}

/// Tells the text of a symbol, or the reason for which there is none.
fn tell_symbol(answer: Result<Symbol, Reason>, told: &mut String) -> Result<(), AllocError> {
    match answer {
        Ok(symbol) => {
            let told = write!(told, "{} ", symbol.text().unwrap_or("$0"));
            drop(symbol);
            told
        }
        Err(reason) => write!(told, "{} ", reason.name()),
    }
}

/// Tells what a context answers to each word.
fn tell_each(context: &mut Context, words: &str, told: &mut String) -> Result<(), Fail> {
    for word in words.split_whitespace() {
        tell(context, word, told)?;
    }
    Ok(())
}

/// `context` | the shared tables | a list of the tables that a context is given | ids, `max` and
/// `reset` in turn | the reasons for which tables were refused, and the symbol of each id or the
/// reason for which it has none.
pub fn resolves(alloc: Global, row: Row<'_>) -> Result<(), Fail> {
    let octets = row.octets(alloc, 2)?;
    let lists = values(alloc, octets.as_slice())?;
    let mut catalog = Catalog::new(alloc);
    let told = match add_tables(alloc, row, 1, &mut catalog) {
        Ok(()) => resolved(alloc, row, items(lists.as_slice()), &catalog),
        Err(fail) => Err(fail),
    };
    drop(catalog);
    drop(lists);
    let told = told?;
    row.wants(4, told.as_str().trim())
}

/// What a new context answers behind these tables.
fn resolved(
    alloc: Global,
    row: Row<'_>,
    tables: &[Value],
    catalog: &Catalog,
) -> Result<String, Fail> {
    let mut told = String::new(alloc);
    let mut context = Context::system(alloc)?;
    let tried = match apply(&mut context, tables, catalog, &mut told) {
        Ok(()) => tell_each(&mut context, row.field(3), &mut told),
        Err(fail) => Err(fail),
    };
    drop(context);
    tried?;
    Ok(told)
}

/// `shared` | a list of shared tables that a catalog is given | names and versions with commas
/// between them | the reasons for which tables were refused, and of each name and version whether
/// it is there, and whether the name is.
pub fn are_found(alloc: Global, row: Row<'_>, octets: &[u8]) -> Result<(), Fail> {
    let mut told = String::new(alloc);
    let lists = values(alloc, octets)?;
    let mut catalog = Catalog::new(alloc);
    let tried = match take_in(alloc, &mut catalog, items(lists.as_slice()), &mut told) {
        Ok(()) => tell_found(&catalog, row.field(2), &mut told),
        Err(fail) => Err(fail),
    };
    drop(catalog);
    drop(lists);
    tried?;
    row.wants(3, told.as_str().trim())
}

/// Tells of each name and version whether it is in a catalog, and whether the name is.
fn tell_found(catalog: &Catalog, names: &str, told: &mut String) -> Result<(), Fail> {
    for asked in names.split(',') {
        if let Some((name, version)) = asked.trim().split_once(' ') {
            let version = version.parse::<u32>()?;
            told.push_str(yes_or_no(catalog.find(name, version).is_some()))?;
            told.push_str(yes_or_no(catalog.find_best(name, version).is_some()))?;
        }
    }
    Ok(())
}

fn yes_or_no(answer: bool) -> &'static str {
    if answer { "yes " } else { "no " }
}

/// Adds the shared tables that values describe; tells those that are refused.
fn take_in(
    alloc: Global,
    catalog: &mut Catalog,
    values: &[Value],
    told: &mut String,
) -> Result<(), Fail> {
    for value in values {
        if let Err(reason) = add(catalog, SharedTable::from_value(alloc, value)) {
            refused(reason, told)?;
        }
    }
    Ok(())
}
