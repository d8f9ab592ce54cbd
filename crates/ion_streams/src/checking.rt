//! Documents whose values a visitor is told, and how many they have.
ghost use Rattle.std.specs.Prelude.{◌+◌, ◌^◌, ◌≤◌, false, ◌≡◌, IfOk, IfErr, OnOk, length, ◌*◌};
ghost use Rattle.ion_streams.specs.Names.{AtOnce, AtOneEnd, IsFresh, IsReadCause, format_of};
ghost use Rattle.ion_streams.specs.Checked.{IsChecked, IsVisited};

use crate::piece_reader::{PieceReader, ReadState};
use ion_model::Refusal;
use ion_symtab::{Fault, Inlet, Items};
use ion_visiting::{Count, Visitor};
use std::alloc::Global;

/// Tells a visitor all values of a document, event by event and behind each that it ended, whose
/// octets `items` reads from `reader` in at most `reads` calls: how many there were; or the refusal
/// of octets that are no document. No value is built.
///
/// On a refusal and at a fault the visitor was told the front of some values, and its state means
/// nothing. Refusals are those of `items`, but never `Memory`. Faults are `Read`, `TooManyReads`,
/// and `Memory`, also where the visitor answered `false`.
pub fn visit_items<I: Items + Drop, R: Inlet, V: Visitor>(
    alloc: Global,
    items: I,
    reads: u64,
    reader: &mut R,
    visitor: &mut V,
) -> Result<Result<u64, Refusal>, Fault>
    requires fresh { IsFresh I.Items items }
    requires reads { reads ≤ 2 ^ 32 }
    ensures verdict { IfOk result (IsVisited V.takes R.Inlet
        (format_of I.Items (I.catalog items) (I.limits items)) reader.old reader.new
        visitor.old visitor.new) }
    ensures at_once { AtOnce R.Inlet (format_of I.Items (I.catalog items) (I.limits items))
        reader.old reader.new }
    ensures one_end { AtOneEnd R.Inlet reader.old reader.new }
    ensures few_calls { R.calls_made reader.new ≤ R.calls_made reader.old + reads }
    ensures few_octets { length (R.handed reader.new) ≤ length (R.handed reader.old) + 4096 *
        reads }
    ensures no_read_failed { OnOk result (R.has_failed reader.new ≡ false) }
    ensures cause { IfErr result (IsReadCause R.Inlet reads reader.old reader.new) }
{
    let source = PieceReader::new(alloc, items, reads)?;
    let mut place = ReadState::Open(source);
    let mut values: u64 = 0;
    while let Some(_) = place.advance_by::<V, R>(reader, visitor)? {
        if !visitor.ended() {
            return Err(Fault::Memory);
        }
        values += 1;
    }
    Ok(place.answer(values))
}

/// How many values a document has, whose octets `items` reads from `reader` in at most `reads`
/// calls; or the refusal of octets that are no document.
///
/// Refusals are those of `items`, but never `Memory`. Faults are `Memory`, `Read` and
/// `TooManyReads`.
pub fn check_items<I: Items + Drop, R: Inlet>(
    alloc: Global,
    items: I,
    reads: u64,
    reader: &mut R,
) -> Result<Result<u64, Refusal>, Fault>
    requires fresh { IsFresh I.Items items }
    requires reads { reads ≤ 2 ^ 32 }
    ensures verdict { IfOk result (IsChecked R.Inlet
        (format_of I.Items (I.catalog items) (I.limits items)) reader.old reader.new) }
    ensures at_once { AtOnce R.Inlet (format_of I.Items (I.catalog items) (I.limits items))
        reader.old reader.new }
    ensures one_end { AtOneEnd R.Inlet reader.old reader.new }
    ensures few_calls { R.calls_made reader.new ≤ R.calls_made reader.old + reads }
    ensures few_octets { length (R.handed reader.new) ≤ length (R.handed reader.old) + 4096 *
        reads }
    ensures no_read_failed { OnOk result (R.has_failed reader.new ≡ false) }
    ensures cause { IfErr result (IsReadCause R.Inlet reads reader.old reader.new) }
{
    visit_items(alloc, items, reads, reader, &mut Count::new())
}
