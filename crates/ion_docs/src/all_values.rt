//! All values of a document.
ghost use Rattle.std.specs.Prelude.{◌≡◌, ◌≢◌, ◌+◌, ◌^◌, ◌<◌, ◌≤◌, false, List, length, IfOk, IfErr, OnOk, MatchResult, ◌*◌};
ghost use Rattle.ion_docs.specs.Names.{AtOnce, AtOneEnd, Denotes, IsReadCause, IsRefused, ToldDocument, ToldRefused, Value, documents};
ghost use Rattle.ion_atoms.specs.declared.refusal.Reason.TheVariants as reasons;

use crate::doc_reader::DocReader;
use ion_model::{Refusal, Value};
use ion_streams::{read_items, read_octets};
use ion_symtab::{Catalog, Fault, Inlet, Limits};
use std::alloc::Global;

/// All values of a document in order: the stream that the octets denote (Ion 1.0, "The Ion Data
/// Model"), or their refusal, where they are no document within `limits`.
///
/// Shared symbol tables are ordinary values here, and local ones are none. The offset of a refusal
/// counts octets with which no document begins, or all of them. `Memory`, where a growth was
/// refused, alone says nothing of the octets.
pub fn read_all(
    alloc: Global,
    octets: &[u8],
    catalog: &Catalog,
    limits: Limits,
) -> Result<Vec<Value>, Refusal>
    requires few { length octets.now < 2 ^ 63 }
    ensures stream { IfOk result (λ values. Denotes catalog.now limits octets.now values.items) }
    ensures refused { IfErr result (λ refusal. refusal.reason ≢ reasons.Memory → (s : List Value)
        × IsRefused (documents catalog.now limits) octets.now s refusal) }
    ensures memory { IfErr result (λ refusal. refusal.reason ≡ reasons.Memory →
        refusal.offset ≤ length octets.now) }
{
    match DocReader::new(alloc, catalog, limits) {
        Ok(items) => read_octets(alloc, items, octets),
        Err(reason) => Err(Refusal { offset: 0, reason }),
    }
}

/// The same of the octets of `reader`.
///
/// Refusals and faults are those of `check`. The answer is right about whatever octets begin with
/// those that `reader` handed over during the call, and end there where it answered its end.
pub fn read_document<R: Inlet>(
    alloc: Global,
    reader: &mut R,
    catalog: &Catalog,
    limits: Limits,
) -> Result<Result<Vec<Value>, Refusal>, Fault>
    ensures stream { let F = documents catalog.now limits in
        IfOk result (λ answer. MatchResult answer
        (λ values. ToldDocument R.Inlet F reader.old reader.new values.items)
        (λ refusal. (s : List Value) × ToldRefused R.Inlet F reader.old reader.new s refusal)) }
    ensures at_once { AtOnce R.Inlet (documents catalog.now limits) reader.old reader.new }
    ensures one_end { AtOneEnd R.Inlet reader.old reader.new }
    ensures few_calls { R.calls_made reader.new ≤ R.calls_made reader.old + limits.reads }
    ensures few_octets { length (R.handed reader.new)
        ≤ length (R.handed reader.old) + 4096 * limits.reads }
    ensures no_read_failed { OnOk result (R.has_failed reader.new ≡ false) }
    ensures cause { IfErr result (IsReadCause R.Inlet limits.reads reader.old reader.new) }
{
    let items = DocReader::unread(alloc, catalog, limits);
    read_items(alloc, items, limits.reads(), reader)
}
