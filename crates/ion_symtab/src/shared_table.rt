//! Shared symbol tables.
ghost use Rattle.std.specs.Prelude.{◌≡◌, true, MatchResult, map, option_map, option_copied, string_bytes};
ghost use Rattle.ion_atoms.specs.declared.refusal.Reason.TheVariants as reasons;
ghost use Rattle.ion_model.specs.Symbols.{AreTexts};
ghost use Rattle.ion_symtab.specs.Outcome.{Gives};
ghost use Rattle.ion_symtab.specs.Fields.{payload_of};
ghost use Rattle.ion_symtab.specs.Tables.{is_usable, table_of};
ghost use Rattle.ion_symtab.specs.Shared.{is_shared, imports_any, shared_fields, shared_table};

use crate::fields::{elements, is_table_name, only, symbols_of, table_name, version_of};
use crate::segments::GREATEST_ID;
use crate::symbols::Symbols;
use ion_model::{Field, Payload, Reason, Symbol, Text, Value};
use std::alloc::Global;
use std::marker::Model;

// The most symbols that have ids behind those of the nine system symbols.
const MOST_SYMBOLS: usize = GREATEST_ID as usize - 9;

/// A shared symbol table: a name, a version, and symbols, some of which may be empty slots (Ion
/// 1.0, "Symbols", "Shared Symbol Tables").
#[derive(Drop, Debug)]
pub struct SharedTable {
    name: Text,
    version: u32,
    symbols: Symbols,
}

impl Model for SharedTable {
    ghost use Rattle.ion_symtab.specs.Tables.{Table};

    ghost Value = { Table };

    ghost view = { λ t. record { name = t.name; version = t.version; symbols = t.symbols } };

    ghost use Rattle.std.specs.Prelude.{◌≡◌, true};
    ghost use Rattle.ion_symtab.specs.Tables.{is_usable};

    ghost invariant = { λ t. is_usable t.name t.version t.symbols ≡ true };
}

impl SharedTable {
    /// The table of this name and version, with these symbols, `None` where a slot has no text.
    ///
    /// `BadTable` where the name is empty or `$ion`, the version isn't in 1 to 2^31-1, or there are
    /// more than 2^31-10 symbols. The arguments are dropped.
    pub fn new(
        alloc: Global,
        name: String,
        version: u32,
        symbols: Vec<Option<String>>,
    ) -> Result<SharedTable, Reason>
        ensures { Gives (table_of (string_bytes name) version
            (map (option_map string_bytes) symbols.items)) result }
    {
        let symbols = known(alloc, &symbols)?;
        usable(alloc, Text::from_string(name), version as u128, symbols)
    }

    /// The table that a value of a catalog document describes: a struct whose first annotation is
    /// `$ion_shared_symbol_table` (Ion 1.0, "Symbols", "Shared Symbol Tables").
    ///
    /// `version` is 1 where it is absent, null, no int, or below 1. `symbols` gives a slot for each
    /// element of a list, empty where it is no string; other fields are open content.
    /// `RepeatedField` where `name`, `version`, `symbols` or `imports` stands twice. `BadTable`
    /// where the value is no such struct, `name` is no string or one that `new` refuses, `new`
    /// refuses the version or the number of symbols, or `imports` is neither absent, null nor an
    /// empty list.
    pub fn from_value(alloc: Global, value: &Value) -> Result<SharedTable, Reason>
        ensures { Gives (shared_table value.now) result }
    {
        match &value.payload {
            Payload::Fields(fields) if is_shared(value) => from_fields(alloc, fields.as_slice()),
            _ => Err(Reason::BadTable),
        }
    }

    /// What a table keeps about itself: its symbols' texts are UTF-8; its name is neither empty nor
    /// `$ion`, its version in 1 to 2^31-1, and its symbols are at most 2^31-10. Does nothing.
    pub fn kept(&self)
        ensures texts { AreTexts self.now.symbols }
        ensures usable { is_usable self.now.name self.now.version self.now.symbols ≡ true }
    {
        self.symbols.kept();
    }

    /// The name.
    pub(crate) fn name(&self) -> &str
        ensures { result.now ≡ self.now.name }
    {
        self.name.as_str()
    }

    /// The version, 1 to 2^31-1.
    pub(crate) fn version(&self) -> u32
        ensures { result ≡ self.now.version }
    {
        self.version
    }

    /// The symbols, unknown where a slot has no text.
    pub(crate) fn symbols(&self) -> &Symbols
        ensures { result.now ≡ self.now.symbols }
    {
        &self.symbols
    }
}

// Whether the first annotation names shared tables.
fn is_shared(value: &Value) -> bool
    ensures { result ≡ is_shared value.now.annotations }
{
    match value.annotations.as_slice().first() {
        None => false,
        Some(symbol) => symbol.has_text("$ion_shared_symbol_table"),
    }
}

// The table that these fields describe.
fn from_fields(alloc: Global, fields: &[Field]) -> Result<SharedTable, Reason>
    ensures { Gives (shared_fields fields.now) result }
{
    let name = only(fields, "name")?;
    let version = only(fields, "version")?;
    let symbols = only(fields, "symbols")?;
    let imports = only(fields, "imports")?;
    if imports_any(imports) {
        return Err(Reason::BadTable);
    }
    let Some(name) = table_name(name) else {
        return Err(Reason::BadTable);
    };
    let name = String::from_str(alloc, name)?;
    let symbols = symbols_of(alloc, elements(symbols))?;
    usable(alloc, Text::from_string(name), version_of(version), symbols)
}

// Whether `imports` is there and neither null nor an empty list.
fn imports_any(imports: Option<&Value>) -> bool
    ensures { result ≡ imports_any (payload_of (option_copied imports.entry)) }
{
    match imports {
        None => false,
        Some(value) => match &value.payload {
            Payload::Null(_) => false,
            Payload::List(items) => items.len() > 0,
            _ => true,
        },
    }
}

// The symbols of these texts.
fn known(alloc: Global, texts: &[Option<String>]) -> Result<Vec<Symbol>, Reason>
    ensures { MatchResult result
        (λ s. s.items ≡ map (option_map string_bytes) texts.now)
        (λ r. r ≡ reasons.Memory) }
{
    let mut symbols = Vec::new(alloc);
    for text in texts {
        let symbol = match text {
            None => Symbol::unknown(),
            Some(text) => Symbol::known(alloc, text.as_str())?,
        };
        symbols.push(symbol)?;
    }
    Ok(symbols)
}

// The table of these parts, if its name, its version and the number of its symbols are usable.
fn usable(
    alloc: Global,
    name: Text,
    version: u128,
    symbols: Vec<Symbol>,
) -> Result<SharedTable, Reason>
    ensures { Gives (table_of name version symbols.items) result }
{
    if !is_table_name(name.as_str())
        || version < 1
        || version > GREATEST_ID as u128
        || symbols.len() > MOST_SYMBOLS
    {
        return Err(Reason::BadTable);
    }
    let symbols = Symbols::from_vec(alloc, symbols)?;
    Ok(SharedTable {
        name,
        version: version as u32,
        symbols,
    })
}
