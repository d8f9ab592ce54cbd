//! The conversion of documents.
ghost use Rattle.std.specs.Prelude.{◌≡◌, ℕ, ◌+◌, ◌*◌, ◌++◌, ◌^◌, ◌<◌, ◌≤◌, ◌⊎◌, List, [], length, false, IfOk, IfErr, OnOk, OnErr, option_to_list};
ghost use Rattle.ion_docs.specs.Names.{AtOnce, AtOneEnd, ConvertsSoFar, IsConvertCause, IsConverted, IsFresh, IsReadCause, ReadSoFar, WritesKept, format_of};

use crate::writers::Encoder;
use ion_model::Refusal;
use ion_streams::{PieceReader, ReadState};
use ion_symtab::{Fault, Inlet, Items, Outlet};
use std::alloc::Global;

/// Writes by `encoder` the document of the stream of a document, whose octets `items` reads from
/// `reader` in at most `reads` calls. The answer is that of `check_items`.
///
/// On a refusal the document of the values before it is written. The writer is flushed last, on a
/// refusal too. At a fault some first octets of the document of the values read so far were
/// written. Faults are `Memory`, `Read`, `TooManyReads`, `Write`, and `TooLarge` where a symbol
/// would need an id above 2^31-1.
pub fn convert_items<E: Encoder + Drop, I: Items + Drop, R: Inlet, W: Outlet>(
    alloc: Global,
    encoder: E,
    items: I,
    reads: u64,
    reader: &mut R,
    writer: &mut W,
) -> Result<Result<u64, Refusal>, Fault>
    requires begins { E.has_put encoder [] }
    requires fresh { IsFresh I.Items items }
    requires reads { reads ≤ 2 ^ 32 }
    ensures converted { IfOk result (IsConverted R.Inlet W.Outlet E.encoding
        (format_of I.Items (I.catalog items) (I.limits items))
        reader.old reader.new writer.old writer.new) }
    ensures kept { IfOk result (WritesKept R.Inlet W.Outlet E.encoding
        (format_of I.Items (I.catalog items) (I.limits items))
        reader.old reader.new writer.old writer.new) }
    ensures passed_on { OnOk result (W.passed writer.new ≡ W.written writer.new) }
    ensures no_write_failed { OnOk result (W.has_failed writer.new ≡ false) }
    ensures at_once { AtOnce R.Inlet (format_of I.Items (I.catalog items) (I.limits items))
        reader.old reader.new }
    ensures one_end { AtOneEnd R.Inlet reader.old reader.new }
    ensures few_calls { R.calls_made reader.new ≤ R.calls_made reader.old + reads }
    ensures few_octets { length (R.handed reader.new) ≤ length (R.handed reader.old) + 4096 *
        reads }
    ensures no_read_failed { OnOk result (R.has_failed reader.new ≡ false) }
    ensures so_far { OnErr result (ConvertsSoFar E.encoding
        (ReadSoFar R.Inlet I.Items (I.catalog items) (I.limits items) reader.old reader.new)
        W.Outlet writer.old writer.new) }
    ensures cause { IfErr result (λ fault.
        IsReadCause R.Inlet reads reader.old reader.new fault ⊎ IsConvertCause E.encoding
        (ReadSoFar R.Inlet I.Items (I.catalog items) (I.limits items) reader.old reader.new)
        (W.has_failed writer.new) fault) }
{
    let source = PieceReader::new(alloc, items, reads)?;
    let mut place = ReadState::Open(source);
    let mut encoder = encoder;
    let mut values: u64 = 0;
    while let Some(_) = place.advance_by::<E, R>(reader, &mut encoder)? {
        encoder.hand_over(writer)?;
        values += 1;
    }
    E::finish(writer, values)?;
    Ok(place.answer(values))
}
