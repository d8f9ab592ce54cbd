//! The fields of symbol tables.
ghost use Rattle.std.specs.Prelude.{◌≡◌, Ok, Err, MatchResult, map, option_map, option_copied};
ghost use Rattle.ion_symtab.specs.Names.{count_of, elements, is_table_name, natural, only, symbol_of, table_name, version_of};
ghost use Rattle.ion_atoms.specs.declared.refusal.Reason.TheVariants as reasons;

use ion_model::{Field, Payload, Reason, Symbol, Value};
use std::alloc::Global;

/// The value of the one field of this name, `None` where there is none. `RepeatedField` where there
/// are several.
pub(crate) fn only<'v>(fields: &'v [Field], name: &str) -> Result<Option<&'v Value>, Reason>
    ensures { MatchResult result
        (λ found. only name.now fields.now ≡ Ok (option_copied found))
        (λ r. only name.now fields.now ≡ Err r) }
{
    let mut found: Option<&'v Value> = None;
    for field in fields {
        if field.name.has_text(name) {
            if found.is_some() {
                return Err(Reason::RepeatedField);
            }
            found = Some(&field.value);
        }
    }
    Ok(found)
}

/// The elements of a field that is a list; any other, or none, has no elements.
pub(crate) fn elements(field: Option<&Value>) -> &[Value]
    ensures { result.now ≡ elements (option_copied field.entry) }
{
    match field {
        None => &[],
        Some(value) => match &value.payload {
            Payload::List(items) => items.as_slice(),
            _ => &[],
        },
    }
}

/// The text of a field that is a string that may name a shared table: it isn't empty and isn't
/// `$ion`.
pub(crate) fn table_name(field: Option<&Value>) -> Option<&str>
    ensures { option_map (λ t. t.now) result ≡ table_name (option_copied field.entry) }
{
    match field {
        None => None,
        Some(value) => match &value.payload {
            Payload::Str(text) => {
                let text = text.as_str();
                if is_table_name(text) {
                    Some(text)
                } else {
                    None
                }
            }
            _ => None,
        },
    }
}

/// Whether a shared table may have this name: it isn't empty and isn't `$ion`.
pub(crate) fn is_table_name(text: &str) -> bool
    ensures { result ≡ is_table_name text.now }
{
    !text.is_empty() && text != "$ion"
}

/// The version that a field gives: 1 where it is absent, null, no int, or below 1.
pub(crate) fn version_of(field: Option<&Value>) -> u128
    ensures { result ≡ version_of (option_copied field.entry) }
{
    match count_of(field) {
        None => 1,
        Some(version) => version.max(1),
    }
}

/// The number that a field gives, where it is an int that isn't negative.
pub(crate) fn count_of(field: Option<&Value>) -> Option<u128>
    ensures { result ≡ count_of (option_copied field.entry) }
{
    match field {
        None => None,
        Some(value) => match &value.payload {
            Payload::Int(int) => natural(int.get()),
            _ => None,
        },
    }
}

/// The number, where it isn't negative.
fn natural(int: i128) -> Option<u128>
    ensures { result ≡ natural int }
{
    if int < 0 {
        return None;
    }
    Some(int.unsigned_abs())
}

/// The symbols that the elements of `symbols` give: a string its text, anything else unknown text.
/// The only refusal is `Memory`.
pub(crate) fn symbols_of(alloc: Global, elements: &[Value]) -> Result<Vec<Symbol>, Reason>
    ensures { MatchResult result (λ s. s.items ≡ map symbol_of elements.now)
        (λ r. r ≡ reasons.Memory) }
{
    let mut symbols = Vec::new(alloc);
    for element in elements {
        let symbol = symbol_of(alloc, element)?;
        symbols.push(symbol)?;
    }
    Ok(symbols)
}

/// The symbol that one element of `symbols` gives. The only refusal is `Memory`.
fn symbol_of(alloc: Global, element: &Value) -> Result<Symbol, Reason>
    ensures { MatchResult result (λ s. s ≡ symbol_of element.now) (λ r. r ≡ reasons.Memory) }
{
    match &element.payload {
        Payload::Str(text) => Symbol::known(alloc, text.as_str()),
        _ => Ok(Symbol::unknown()),
    }
}
