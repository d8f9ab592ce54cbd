//! A line for each value of a document.
ghost use Rattle.std.specs.Prelude.{◌≡◌, ℕ, ◌+◌, ◌^◌, ◌<◌, ◌≤◌, ◌⊎◌, ◌++◌, List, length, true, false, IfOk, IfErr, OnOk, OnErr, Option, option_to_list, string_bytes, ◌*◌};
ghost use Rattle.std.specs.Fmt.{decimal};
ghost use Rattle.ion_streams.specs.Names.{AtOnce, AtOneEnd, IsFresh, IsReadCause, IsShown, IsWriteCause, ShowsSoFar, Took, TookFront, Value, accepted_line, format_of, line_of, lines_from};

use crate::piece_reader::{PieceReader, ReadState};
use ion_model::{Outline, Refusal};
use ion_symtab::{Fault, Inlet, Items, Outlet, flushed, write_whole};
use ion_visiting::Outlining;
use itoa::Buffer;
use std::alloc::{AllocError, Global};

/// Makes a text the line of a value: its index, kind, depth and number of nodes. One text is kept
/// for all lines, so that they take its memory.
fn set_line(text: &mut String, index: u64, outline: Outline) -> Result<(), AllocError>
    ensures { OnOk result (string_bytes text.new ≡ line_of index outline) }
{
    text.clear();
    push_number(text, index, " ")?;
    push(text, outline.kind.name())?;
    push(text, " depth ")?;
    push_number(text, outline.depth, " nodes ")?;
    push_number(text, outline.nodes, "\n")
}

fn push(text: &mut String, words: &str) -> Result<(), AllocError>
    ensures { OnOk result (string_bytes text.new ≡ string_bytes text.old ++ words.now) }
{
    text.push_str(words)?;
    Ok(())
}

/// Appends a number in decimal, and words behind it.
fn push_number(text: &mut String, number: u64, words: &str) -> Result<(), AllocError>
    ensures { OnOk result (string_bytes text.new
        ≡ string_bytes text.old ++ (decimal number ++ words.now)) }
{
    let mut digits = Buffer::new();
    text.push_str(digits.format(number))?;
    text.push_str(words)?;
    Ok(())
}

/// The last line, behind those of the values.
fn accepted(alloc: Global, values: u64) -> Result<String, AllocError>
    ensures { IfOk result (λ text. string_bytes text ≡ accepted_line values) }
{
    format!(in alloc; "accepted {values}\n")
}

/// Writes the line of a value, which the text then is.
fn write_line<W: Outlet>(
    text: &mut String,
    writer: &mut W,
    index: u64,
    outline: Outline,
) -> Result<(), Fault>
    ensures wrote { OnOk result (Took W.took W.written writer.old writer.new
        (line_of index outline)) }
    ensures front { OnErr result (TookFront W.took W.written writer.old writer.new
        (line_of index outline)) }
    ensures cause { IfErr result (IsWriteCause W.Outlet writer.new) }
{
    set_line(text, index, outline)?;
    write_whole(writer, text.as_bytes())
}

/// Writes the last line, and makes the device pass on all.
fn write_accepted<W: Outlet>(alloc: Global, writer: &mut W, values: u64) -> Result<(), Fault>
    ensures wrote { OnOk result (Took W.took W.written writer.old writer.new
        (accepted_line values)) }
    ensures passed_on { OnOk result (W.passed writer.new ≡ W.written writer.new) }
    ensures no_write_failed { OnOk result (W.has_failed writer.new ≡ false) }
    ensures front { OnErr result (TookFront W.took W.written writer.old writer.new
        (accepted_line values)) }
    ensures cause { IfErr result (IsWriteCause W.Outlet writer.new) }
{
    let text = accepted(alloc, values)?;
    let wrote = write_whole(writer, text.as_bytes());
    drop(text);
    wrote?;
    flushed(writer)
}

/// Writes a line for each value of a document, whose octets `items` reads from `reader` in at most
/// `reads` calls, and behind them `accepted` with their number. The answer is that of
/// `check_items`.
///
/// On a refusal the lines of the values before it are written, and no other line. The writer is
/// flushed last, on a refusal too. At a fault some first octets of the lines of the values read so
/// far were written. Faults are `Memory`, `Read`, `TooManyReads` and `Write`.
pub fn show_items<I: Items + Drop, R: Inlet, W: Outlet>(
    alloc: Global,
    items: I,
    reads: u64,
    reader: &mut R,
    writer: &mut W,
) -> Result<Result<u64, Refusal>, Fault>
    requires fresh { IsFresh I.Items items }
    requires reads { reads ≤ 2 ^ 32 }
    ensures shown { IfOk result (IsShown R.Inlet W.Outlet
        (format_of I.Items (I.catalog items) (I.limits items))
        reader.old reader.new writer.old writer.new) }
    ensures passed_on { OnOk result (W.passed writer.new ≡ W.written writer.new) }
    ensures no_write_failed { OnOk result (W.has_failed writer.new ≡ false) }
    ensures so_far { OnErr result (ShowsSoFar R.Inlet I.Items W.Outlet (I.catalog items)
        (I.limits items) reader.old reader.new writer.old writer.new) }
    ensures at_once { AtOnce R.Inlet (format_of I.Items (I.catalog items) (I.limits items))
        reader.old reader.new }
    ensures one_end { AtOneEnd R.Inlet reader.old reader.new }
    ensures few_calls { R.calls_made reader.new ≤ R.calls_made reader.old + reads }
    ensures few_octets { length (R.handed reader.new) ≤ length (R.handed reader.old) + 4096 *
        reads }
    ensures no_read_failed { OnOk result (R.has_failed reader.new ≡ false) }
    ensures cause { IfErr result (λ fault.
        IsReadCause R.Inlet reads reader.old reader.new fault
        ⊎ IsWriteCause W.Outlet writer.new fault) }
{
    let source = PieceReader::new(alloc, items, reads)?;
    let mut place = ReadState::Open(source);
    let mut text = String::new(alloc);
    let mut visitor = Outlining::new();
    let mut values: u64 = 0;
    while let Some(_) = place.advance_by::<Outlining, R>(reader, &mut visitor)? {
        write_line(&mut text, writer, values + 1, visitor.take())?;
        values += 1;
    }
    let answer = place.answer(values);
    match answer {
        Ok(values) => write_accepted(alloc, writer, values)?,
        Err(_) => flushed(writer)?,
    }
    Ok(answer)
}
