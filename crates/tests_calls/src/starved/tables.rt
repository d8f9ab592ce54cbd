//! Values and symbol tables, read here from text.
use ion_model::{Reason, Value};
use ion_symtab::{Catalog, Items, Limits, SharedTable};
use ion_text::TextReader;
use std::alloc::Global;

/// The value that a text spells under this catalog.
fn read(alloc: Global, catalog: &Catalog, text: &[u8]) -> Result<Value, Reason> {
    let mut reader = TextReader::new(alloc, catalog, Limits::usual())?;
    let step = reader.step(text);
    drop(reader);
    match step {
        Ok(step) => step.value.ok_or(Reason::Incomplete),
        Err(refusal) => Err(refusal.reason),
    }
}

/// The value that a text spells which ends behind it.
pub(crate) fn value(alloc: Global, text: &[u8]) -> Result<Value, Reason> {
    let catalog = Catalog::new(alloc);
    let value = read(alloc, &catalog, text);
    drop(catalog);
    value
}

/// `$ion_symbol_table::{..}` of this struct.
pub(crate) fn local(alloc: Global, fields: &[u8]) -> Result<Value, Reason> {
    value(alloc, fields)?.annotated(alloc, &["$ion_symbol_table"])
}

/// The shared table that a text describes.
fn shared(alloc: Global, text: &[u8]) -> Result<SharedTable, Reason> {
    let described = value(alloc, text)?;
    let table = SharedTable::from_value(alloc, &described);
    drop(described);
    table
}

/// The catalog of the one shared table that a text describes.
pub(crate) fn catalog(alloc: Global, text: &[u8]) -> Result<Catalog, Reason> {
    let table = shared(alloc, text)?;
    let mut catalog = Catalog::new(alloc);
    match catalog.add(table) {
        Ok(()) => Ok(catalog),
        Err((table, reason)) => {
            drop(table);
            drop(catalog);
            Err(reason)
        }
    }
}
