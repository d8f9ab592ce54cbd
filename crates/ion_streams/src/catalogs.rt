//! Catalogs from documents.
ghost use Rattle.std.specs.Prelude.{◌≡◌, ◌⊎◌, ◌+◌, ◌^◌, ◌≤◌, false, OnOk, IfOk, IfErr, MatchResult, Ok, Err, [], ◌∷◌, length, ◌*◌};
ghost use Rattle.ion_streams.specs.Names.{AskedWhile, AtOneEnd, DescribeTables, IsFresh, IsLoaded, IsReadCause, added, catalog_of, format_of};
ghost use Rattle.ion_atoms.specs.declared.refusal.Reason.TheVariants as reasons;

use crate::piece_reader::{PieceReader, ReadState};
use ion_model::{Reason, Refusal, Value};
use ion_symtab::{Catalog, Fault, Inlet, Items, SharedTable};
use std::alloc::Global;

/// The catalog of the tables that the values of a document describe, whose octets `items` reads
/// from `reader` in at most `reads` calls; or the refusal of octets that are no document of such
/// values, as `load_catalog` answers it.
pub fn load_items<I: Items + Drop, R: Inlet>(
    alloc: Global,
    items: I,
    reads: u64,
    reader: &mut R,
) -> Result<Result<Catalog, Refusal>, Fault>
    requires fresh { IsFresh I.Items items }
    requires reads { reads ≤ 2 ^ 32 }
    ensures loaded { IfOk result (IsLoaded R.Inlet
        (format_of I.Items (I.catalog items) (I.limits items)) reader.old reader.new) }
    ensures at_once { AskedWhile R.Inlet (format_of I.Items (I.catalog items) (I.limits items))
        reader.old reader.old reader.new DescribeTables }
    ensures one_end { AtOneEnd R.Inlet reader.old reader.new }
    ensures few_calls { R.calls_made reader.new ≤ R.calls_made reader.old + reads }
    ensures few_octets { length (R.handed reader.new) ≤ length (R.handed reader.old) + 4096 *
        reads }
    ensures no_read_failed { OnOk result (R.has_failed reader.new ≡ false) }
    ensures cause { IfErr result (IsReadCause R.Inlet reads reader.old reader.new) }
{
    let source = PieceReader::new(alloc, items, reads)?;
    let mut place = ReadState::Open(source);
    let mut catalog = Catalog::new(alloc);
    while let Some((value, offset)) = place.advance(reader)? {
        if let Err(refusal) = add_value(alloc, &mut catalog, value, offset)? {
            return Ok(Err(refusal));
        }
    }
    Ok(place.answer(catalog))
}

/// Adds the table of the next value, which came with so many octets. `Memory` is the only fault.
fn add_value(
    alloc: Global,
    catalog: &mut Catalog,
    value: Value,
    offset: u64,
) -> Result<Result<(), Refusal>, Fault>
    ensures { MatchResult result
        (λ answer. MatchResult answer
        (λ _. catalog_of catalog.old ((value, offset) ∷ []) ≡ Ok catalog.new)
        (λ refusal. catalog_of catalog.old ((value, offset) ∷ []) ≡ Err refusal))
        (λ fault. fault ≡ Fault.Memory) }
{
    let added = add_table(alloc, catalog, &value);
    drop(value);
    match added {
        Ok(()) => Ok(Ok(())),
        Err(Reason::Memory) => Err(Fault::Memory),
        Err(reason) => Ok(Err(Refusal { offset, reason })),
    }
}

/// Adds the table that a value describes.
fn add_table(alloc: Global, catalog: &mut Catalog, value: &Value) -> Result<(), Reason>
    ensures { MatchResult result
        (λ _. added catalog.old value.now ≡ Ok catalog.new)
        (λ reason. reason ≡ reasons.Memory ⊎ added catalog.old value.now ≡ Err reason) }
{
    let table = SharedTable::from_value(alloc, value)?;
    match catalog.add(table) {
        Ok(()) => Ok(()),
        Err((table, reason)) => {
            drop(table);
            Err(reason)
        }
    }
}
