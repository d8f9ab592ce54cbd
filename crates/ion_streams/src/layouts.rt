//! The layout of documents.
ghost use Rattle.std.specs.Prelude.{◌≡◌, ◌+◌, ◌*◌, ◌^◌, ◌≤◌, length, false, IfOk, IfErr, OnOk};
ghost use Rattle.ion_streams.specs.Names.{AtOnce, AtOneEnd, IsFresh, IsReadCause, format_of};
ghost use Rattle.ion_streams.specs.LaidOut.{IsLaidOut};
ghost use Rattle.ion_events.specs.Laying.{IsNew};

use crate::piece_reader::{PieceReader, ReadState};
use ion_events::{Laid, Laying};
use ion_model::Refusal;
use ion_symtab::{Fault, Inlet, Items};
use std::alloc::Global;
use std::hash::BuildHasher;

/// A document that was laid out.
#[derive(Debug, Drop)]
pub struct LaidOut {
    /// How many values the document has, or its refusal.
    pub answer: Result<u64, Refusal>,
    /// The layout of its values; on a refusal, of those before it.
    pub layout: Vec<u8>,
}

/// Lays out the values of a document (docs/EVENTS.md), whose octets `items` reads from `reader` in
/// at most `reads` calls. `laying` was told nothing yet. No other stream has that layout.
///
/// The answer is that of `check_items`. On a refusal the values that the octets up to it show are
/// laid out. Faults are `Read`, `TooManyReads`, and `Memory`, also for a text of 2^32 octets and
/// more, for as many values in one container, and beyond 2^64 entries or octets of texts.
pub fn lay_out_items<H: BuildHasher + Drop, I: Items + Drop, R: Inlet>(
    alloc: Global,
    laying: Laying<H>,
    items: I,
    reads: u64,
    reader: &mut R,
) -> Result<LaidOut, Fault>
    requires new { IsNew laying }
    requires fresh { IsFresh I.Items items }
    requires reads { reads ≤ 2 ^ 32 }
    ensures laid { IfOk result (λ out. IsLaidOut R.Inlet
        (format_of I.Items (I.catalog items) (I.limits items))
        reader.old reader.new out.answer out.layout.items) }
    ensures at_once { AtOnce R.Inlet (format_of I.Items (I.catalog items) (I.limits items))
        reader.old reader.new }
    ensures one_end { AtOneEnd R.Inlet reader.old reader.new }
    ensures few_calls { R.calls_made reader.new ≤ R.calls_made reader.old + reads }
    ensures few_octets { length (R.handed reader.new) ≤ length (R.handed reader.old) + 4096 *
        reads }
    ensures no_read_failed { OnOk result (R.has_failed reader.new ≡ false) }
    ensures cause { IfErr result (IsReadCause R.Inlet reads reader.old reader.new) }
{
    let source = PieceReader::new(alloc, items, reads)?;
    let mut place = ReadState::Open(source);
    let mut laying = laying;
    let Some(mut laid) = Laid::new(alloc) else {
        return Err(Fault::Memory);
    };
    let mut values: u64 = 0;
    while let Some(_) = place.advance_by::<Laying<H>, R>(reader, &mut laying)? {
        if !laying.hand_over(&mut laid) {
            return Err(Fault::Memory);
        }
        values += 1;
    }
    match laid.into_octets() {
        Some(layout) => Ok(LaidOut {
            answer: place.answer(values),
            layout,
        }),
        None => Err(Fault::Memory),
    }
}
