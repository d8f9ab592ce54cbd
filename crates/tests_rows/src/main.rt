//! Runs the tables of rows whose paths are its arguments: `data/` has them, and each says at its
//! head what its rows are. Prints each row that has another answer, says what answer on the
//! standard error, and prints how many rows each table has.
#![tactic(auto)]

mod commands;
mod documents;
mod reading;
mod row;
mod scalars;
mod scanning;
mod symbols;
mod values;
mod writing;

use documents::{Asked, catalog, limits};
use row::Row;
use std::alloc::Global;
use std::process::{ExitCode, Termination};
use std::test::Fail;
use std::{env, fs};

/// Tries a row by its first field.
fn try_row(alloc: Global, row: Row<'_>) -> Result<(), Fail> {
    match row.field(0) {
        "put" => scalars::puts(alloc, row),
        "sum" => scalars::adds(alloc, row),
        "context" => symbols::resolves(alloc, row),
        "symbol" => values::is_spelled(alloc, row),
        "command" => commands::ends(alloc, row),
        _ => {
            let octets = row.octets(alloc, 1)?;
            try_octets(alloc, row, octets.as_slice())
        }
    }
}

/// Tries a row whose field 1 spells these octets.
fn try_octets(alloc: Global, row: Row<'_>, octets: &[u8]) -> Result<(), Fail> {
    match row.field(0) {
        "number" | "timestamp" | "decimal" => scalars::spells(alloc, row, octets),
        "body" => scalars::has_body(alloc, row, octets),
        "var_uint" | "var_int" | "uint" | "int" => scalars::is_field(alloc, row, octets),
        "descriptor" => scalars::is_descriptor(alloc, row, octets),
        _ => try_text(alloc, row, octets),
    }
}

/// Tries a row of tokens or symbols.
fn try_text(alloc: Global, row: Row<'_>, octets: &[u8]) -> Result<(), Fail> {
    match row.field(0) {
        "top" | "sexp" | "in sexp" | "struct" => scanning::scans(alloc, row, octets),
        "found" => scanning::is_found(alloc, row, octets),
        "shared" => symbols::are_found(alloc, row, octets),
        "loaded" => documents::loads(alloc, row, octets),
        _ => try_document(alloc, row, octets),
    }
}

/// Tries a row of a document that is read within limits and under shared tables.
fn try_document(alloc: Global, row: Row<'_>, document: &[u8]) -> Result<(), Fail> {
    let options = match row.field(0) {
        "convert" => 5,
        _ => 4,
    };
    let limits = limits(row, options)?;
    let catalog = catalog(alloc, row, options)?;
    let tried = try_asked(Asked {
        alloc,
        row,
        options,
        document,
        catalog: &catalog,
        limits,
    });
    drop(catalog);
    tried
}

/// Tries a row of readers, of a call over whole documents, or of values.
fn try_asked(asked: Asked<'_>) -> Result<(), Fail> {
    match asked.row.field(0) {
        "binary" | "text" => reading::reads(asked),
        "binary steps" | "text steps" => reading::steps(asked),
        "values" => reading::gives(asked),
        "compare" => documents::compares(asked),
        "encodings" => documents::compares_encodings(asked),
        "show" => writing::shows(asked),
        "convert" => writing::converts(asked),
        "cut" => writing::is_cut(asked),
        _ => values::try_row(asked),
    }
}

/// Tries each row of a table, and prints those that have another answer; whether none has.
fn try_table(rt: &HostRuntime, path: &str) -> Result<bool, Fail> {
    let table = fs::read_to_string(rt, path)?;
    let tried = try_rows(rt, path, table.as_str());
    drop(table);
    tried
}

/// Tries the rows of a table.
fn try_rows(rt: &HostRuntime, path: &str, table: &str) -> Result<bool, Fail> {
    let mut rows: u64 = 0;
    let mut wrong: u64 = 0;
    for line in table.lines() {
        if let Some(row) = Row::of(line) {
            rows = rows.saturating_add(1);
            if !is_right(rt, path, line, row)? {
                wrong = wrong.saturating_add(1);
            }
        }
    }
    println!(rt; "{path}: {rows} rows, {wrong} wrong")?;
    Ok(wrong == 0)
}

/// Tries a row, and prints it where it has another answer; whether it hasn't.
fn is_right(rt: &HostRuntime, path: &str, line: &str, row: Row<'_>) -> Result<bool, Fail> {
    match try_row(rt.alloc(), row) {
        Ok(()) => Ok(true),
        Err(fail) => {
            let _ = Err::<(), Fail>(fail).report(rt);
            println!(rt; "{path}: {line}")?;
            Ok(false)
        }
    }
}

fn main(rt: HostRuntime) -> Result<ExitCode, Fail> {
    let mut paths = env::args(&rt)?;
    let _program = paths.next();
    let mut status = ExitCode::SUCCESS;
    for path in paths {
        if !try_table(&rt, path.as_str())? {
            status = ExitCode::FAILURE;
        }
    }
    Ok(status)
}
