//! Values, read from text: their measures, how two of them stand to each other, and how they are
//! spelled.
use crate::documents::{Asked, is_so};
use crate::row::Row;
use ion_binary::{BinaryOut, BinaryWriter};
use ion_docs::read_all;
use ion_model::{
    Part, Path, Payload, Symbol, Value, equivalent, normalise, order, parting, same_slow,
};
use ion_symtab::{Catalog, Limits, ToWrite};
use ion_text_writer::{TextOut, TextWriter, spelling_of, symbol_text, text_of};
use ion_visiting::{Visitor, tell};
use std::alloc::{AllocError, Global};
use std::cmp::Ordering;
use std::test::Fail;

/// The values of a document.
pub fn values(alloc: Global, octets: &[u8]) -> Result<Vec<Value>, Fail> {
    let catalog = Catalog::new(alloc);
    let answer = read_all(alloc, octets, &catalog, Limits::usual());
    drop(catalog);
    Ok(answer?)
}

/// The last one of the document that a field spells.
fn last(asked: Asked<'_>, number: usize) -> Result<Value, Fail> {
    let octets = asked.row.octets(asked.alloc, number)?;
    let mut values = values(asked.alloc, octets.as_slice())?;
    let last = values.pop();
    drop(values);
    match last {
        Some(value) => Ok(value),
        None => Err("no value".into()),
    }
}

/// Tries a row by its first field, whose field 1 spells these values.
pub fn try_row(asked: Asked<'_>) -> Result<(), Fail> {
    match asked.row.field(0) {
        "write" => are_written(asked),
        "normal" => has_normal_form(asked),
        _ => {
            let value = last(asked, 1)?;
            let tried = try_value(asked, &value);
            drop(value);
            tried
        }
    }
}

/// Tries a row of a value.
fn try_value(asked: Asked<'_>, value: &Value) -> Result<(), Fail> {
    match asked.row.field(0) {
        "measure" => measures(asked, value),
        "print" => prints(asked, value),
        "table" => are_tables(asked.row, value),
        _ => {
            let other = last(asked, 2)?;
            let tried = try_pair(asked, value, &other);
            drop(other);
            tried
        }
    }
}

/// Tries a row of two values.
fn try_pair(asked: Asked<'_>, left: &Value, right: &Value) -> Result<(), Fail> {
    match asked.row.field(0) {
        "same" => are_same(asked, left, right),
        "order" => are_ordered(asked.row, left, right),
        "path" => {
            part(asked, left, right)?;
            part(asked, right, left)
        }
        _ => Err("no such row".into()),
    }
}

/// `measure` | a value | its kind, depth and number of nodes.
fn measures(asked: Asked<'_>, value: &Value) -> Result<(), Fail> {
    let (kind, depth, nodes) = (value.kind().name(), value.depth(), value.nodes());
    let told = format!(in asked.alloc; "{kind} {depth} {nodes}")?;
    asked.row.wants(2, told.as_str())
}

/// `print` | an int, decimal, timestamp or symbol | what is printed of it.
fn prints(asked: Asked<'_>, value: &Value) -> Result<(), Fail> {
    let mut told = String::new(asked.alloc);
    match &value.payload {
        Payload::Int(int) => write!(told, "{int}")?,
        Payload::Decimal(decimal) => write!(told, "{decimal}")?,
        Payload::Timestamp(timestamp) => write!(told, "{timestamp}")?,
        Payload::Symbol(symbol) => write!(told, "{}", spelling_of(symbol))?,
        _ => {}
    }
    asked.row.wants(2, told.as_str())
}

fn yes_or_no(answer: bool) -> &'static str {
    if answer { "yes" } else { "no" }
}

/// `same` | a value | another | whether they are, by both calls that tell it.
fn are_same(asked: Asked<'_>, left: &Value, right: &Value) -> Result<(), Fail> {
    asked.row.wants(3, yes_or_no(same_slow(left, right)))?;
    let equivalent = equivalent(asked.alloc, left, right)?;
    asked.row.wants(3, yes_or_no(equivalent))
}

fn word(order: Ordering) -> &'static str {
    match order {
        Ordering::Less => "less",
        Ordering::Equal => "equal",
        Ordering::Greater => "greater",
    }
}

/// `order` | a value | another | how the first stands to the other, and the other way round.
fn are_ordered(row: Row<'_>, left: &Value, right: &Value) -> Result<(), Fail> {
    row.wants(3, word(order(left, right)))?;
    row.wants(3, word(order(right, left).reverse()))
}

/// `normal` | a value | its normal form.
fn has_normal_form(asked: Asked<'_>) -> Result<(), Fail> {
    let wanted = last(asked, 2)?;
    let normal = match normalise(asked.alloc, last(asked, 1)?) {
        Ok(normal) => normal,
        Err((value, reason)) => {
            drop(value);
            drop(wanted);
            return Err(reason.into());
        }
    };
    let tried = is_so(order(&normal, &wanted) == Ordering::Equal, &normal);
    drop(normal);
    drop(wanted);
    tried
}

/// `path` | a value | another | `at` and the path to where they part, whichever comes first, or
/// `none`.
fn part(asked: Asked<'_>, left: &Value, right: &Value) -> Result<(), Fail> {
    match parting(asked.alloc, left, right)? {
        None => asked.row.wants(3, "none"),
        Some(path) => {
            let told = path_told(asked.alloc, &path);
            drop(path);
            let told = told?;
            asked.row.wants(3, told.as_str())
        }
    }
}

/// Tells a path.
fn path_told(alloc: Global, path: &Path) -> Result<String, AllocError> {
    let mut told = String::from_str(alloc, "at")?;
    for part in path.parts() {
        match part {
            Part::Item(number) => write!(told, " [{number}]")?,
            Part::Name(name) => write!(told, " {}", name.text().unwrap_or("$0"))?,
        }
    }
    Ok(told)
}

/// `table` | a list | whether its items are symbol tables.
fn are_tables(row: Row<'_>, value: &Value) -> Result<(), Fail> {
    for item in value.items().unwrap_or(&[]) {
        row.wants(2, yes_or_no(item.is_table()))?;
    }
    Ok(())
}

/// `write` | values | their text.
fn are_written(asked: Asked<'_>) -> Result<(), Fail> {
    let values = values(asked.alloc, asked.document)?;
    let tried = writes(asked, values.as_slice());
    drop(values);
    tried
}

/// Fails, where values are written as other text, or otherwise where they are told.
fn writes(asked: Asked<'_>, values: &[Value]) -> Result<(), Fail> {
    wants_text(asked.alloc, asked.row, 2, values)?;
    let mut lines = Vec::new(asked.alloc);
    put_lines(asked.alloc, values, &mut lines)?;
    asked.row.wants_octets(asked.alloc, 2, lines.as_slice())?;
    tells_text(asked, values)?;
    tells_binary(asked.alloc, values)
}

/// Puts the text of each value and a line feed.
fn put_lines(alloc: Global, values: &[Value], lines: &mut Vec<u8>) -> Result<(), Fail> {
    for value in values {
        let text = text_of(alloc, value)?;
        lines.extend_from_slice(text.as_bytes())?;
        lines.push(b'\n')?;
    }
    Ok(())
}

/// Fails, where what is written of values as they are told is another text than field 2 spells.
fn tells_text(asked: Asked<'_>, values: &[Value]) -> Result<(), Fail> {
    let mut out = TextOut::new(asked.alloc);
    let told = tell_each(values, &mut out);
    let tried = asked.row.wants_octets(asked.alloc, 2, out.lines());
    drop(out);
    tried?;
    is_so(told, told)
}

fn tell_each<V: Visitor>(values: &[Value], visitor: &mut V) -> bool {
    let mut told = true;
    for value in values {
        told = told && tell(value, visitor) && visitor.ended();
    }
    told
}

/// Fails, where what is written in binary of values as they are told is something else than the
/// writer writes of them.
fn tells_binary(alloc: Global, values: &[Value]) -> Result<(), Fail> {
    let mut out = ToWrite::new(Vec::new(alloc));
    let put = put_binary(alloc, values, &mut out);
    let written = out.into_inner();
    put?;
    let mut out = BinaryOut::new(alloc)?;
    let told = tell_each(values, &mut out);
    let is_equal = values.is_empty() || out.octets() == written.as_slice();
    drop(out);
    is_so(told && is_equal, written.as_slice())
}

/// Puts values in binary; after a fault each later call answers the same.
fn put_binary(alloc: Global, values: &[Value], out: &mut ToWrite<Vec<u8>>) -> Result<(), Fail> {
    let mut writer = BinaryWriter::new(alloc)?;
    for value in values {
        let _ = writer.put(out, value);
    }
    Ok(writer.finish(out)?)
}

/// Fails, where the field spells another text than that of these values.
pub fn wants_text(
    alloc: Global,
    row: Row<'_>,
    number: usize,
    values: &[Value],
) -> Result<(), Fail> {
    let mut out = ToWrite::new(Vec::new(alloc));
    let put = put_text(alloc, values, &mut out);
    let text = out.into_inner();
    put?;
    row.wants_octets(alloc, number, text.as_slice())
}

/// Puts the text of values.
fn put_text(alloc: Global, values: &[Value], out: &mut ToWrite<Vec<u8>>) -> Result<(), Fail> {
    let mut writer = TextWriter::new(alloc);
    for value in values {
        let _ = writer.put(out, value);
    }
    Ok(writer.finish(out)?)
}

/// `symbol` | the text of a symbol, or of the unknown one `unknown` | how it is written.
pub fn is_spelled(alloc: Global, row: Row<'_>) -> Result<(), Fail> {
    let symbol = symbol(alloc, row)?;
    let text = symbol_text(alloc, &symbol);
    drop(symbol);
    let text = text?;
    row.wants_octets(alloc, 2, text.as_bytes())
}

fn symbol(alloc: Global, row: Row<'_>) -> Result<Symbol, Fail> {
    if row.field(1) == "unknown" {
        return Ok(Symbol::unknown());
    }
    let text = row.octets(alloc, 1)?;
    Ok(Symbol::known(alloc, str::from_utf8(text.as_slice())?)?)
}
