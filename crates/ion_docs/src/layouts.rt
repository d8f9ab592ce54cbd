//! The layout of documents (docs/EVENTS.md).
ghost use Rattle.std.specs.Prelude.{◌≡◌, ◌+◌, ◌*◌, ◌≤◌, length, false, IfOk, IfErr, OnOk};
ghost use Rattle.ion_docs.specs.Names.{AtOnce, AtOneEnd, IsReadCause, documents};
ghost use Rattle.ion_streams.specs.LaidOut.{IsLaidOut};

use crate::doc_reader::DocReader;
use ion_events::Laying;
use ion_streams::{LaidOut, lay_out_items};
use ion_symtab::{Catalog, Fault, Inlet, Limits};
use std::alloc::Global;
use std::hash::BuildHasher;

/// Lays out the values of a document (docs/EVENTS.md): no other stream has that layout. Symbols are
/// found by this hasher, on which the layout doesn't depend; where a stranger chooses the texts it
/// has a random seed.
///
/// The answer is that of `check`. On a refusal the values that the octets up to it show are laid
/// out. Faults are those of `check`; `Memory` also for a text of 2^32 octets and more, for as many
/// values in one container, and beyond 2^64 entries or octets of texts.
pub fn lay_out<H: BuildHasher + Drop, R: Inlet>(
    alloc: Global,
    hasher: H,
    reader: &mut R,
    catalog: &Catalog,
    limits: Limits,
) -> Result<LaidOut, Fault>
    ensures laid { IfOk result (λ out. IsLaidOut R.Inlet (documents catalog.now limits)
        reader.old reader.new out.answer out.layout.items) }
    ensures at_once { AtOnce R.Inlet (documents catalog.now limits) reader.old reader.new }
    ensures one_end { AtOneEnd R.Inlet reader.old reader.new }
    ensures few_calls { R.calls_made reader.new ≤ R.calls_made reader.old + limits.reads }
    ensures few_octets { length (R.handed reader.new)
        ≤ length (R.handed reader.old) + 4096 * limits.reads }
    ensures no_read_failed { OnOk result (R.has_failed reader.new ≡ false) }
    ensures cause { IfErr result (IsReadCause R.Inlet limits.reads reader.old reader.new) }
{
    let laying = Laying::with_hasher(alloc, hasher)?;
    let items = DocReader::unread(alloc, catalog, limits);
    let reads = limits.reads();
    lay_out_items::<H, DocReader<'_>, R>(alloc, laying, items, reads, reader)
}
