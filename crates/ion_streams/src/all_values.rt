//! All values of a document.
ghost use Rattle.std.specs.Prelude.{◌≡◌, ◌≢◌, ◌+◌, ◌^◌, ◌<◌, ◌≤◌, ◌++◌, false, List, length, IfOk, IfErr, MatchResult, OnOk, option_to_list, ◌*◌};
ghost use Rattle.ion_streams.specs.Names.{AtOnce, AtOneEnd, IsFresh, IsReadCause, IsRefused, ToldDocument, ToldRefused, Value, format_of};
ghost use Rattle.ion_atoms.specs.declared.refusal.Reason.TheVariants as reasons;

use crate::piece_reader::{PieceReader, ReadState};
use ion_model::{Reason, Refusal, Value};
use ion_symtab::{Fault, Inlet, Items};
use std::alloc::Global;

/// All values of a document in order, whose octets `items` reads from `reader` in at most `reads`
/// calls; or the refusal of octets that are no document.
///
/// Refusals are those of `items`, but never `Memory`. Faults are `Memory`, `Read` and
/// `TooManyReads`.
pub fn read_items<I: Items + Drop, R: Inlet>(
    alloc: Global,
    items: I,
    reads: u64,
    reader: &mut R,
) -> Result<Result<Vec<Value>, Refusal>, Fault>
    requires fresh { IsFresh I.Items items }
    requires reads { reads ≤ 2 ^ 32 }
    ensures stream { let F = format_of I.Items (I.catalog items) (I.limits items) in
        IfOk result (λ answer. MatchResult answer
        (λ values. ToldDocument R.Inlet F reader.old reader.new values.items)
        (λ refusal. (s : List Value) × ToldRefused R.Inlet F reader.old reader.new s refusal)) }
    ensures at_once { AtOnce R.Inlet (format_of I.Items (I.catalog items) (I.limits items))
        reader.old reader.new }
    ensures one_end { AtOneEnd R.Inlet reader.old reader.new }
    ensures few_calls { R.calls_made reader.new ≤ R.calls_made reader.old + reads }
    ensures few_octets { length (R.handed reader.new) ≤ length (R.handed reader.old) + 4096 *
        reads }
    ensures no_read_failed { OnOk result (R.has_failed reader.new ≡ false) }
    ensures cause { IfErr result (IsReadCause R.Inlet reads reader.old reader.new) }
{
    let source = PieceReader::new(alloc, items, reads)?;
    let mut place = ReadState::Open(source);
    let mut values = Vec::new(alloc);
    while let Some((value, _)) = place.advance(reader)? {
        values.push(value)?;
    }
    Ok(place.answer(values))
}

/// All values of a document in order, whose octets are these; or their refusal, where they are no
/// document.
///
/// Refusals are those of `items`. `Memory`, where a growth was refused, alone says nothing of the
/// octets.
pub fn read_octets<I: Items + Drop>(
    alloc: Global,
    items: I,
    octets: &[u8],
) -> Result<Vec<Value>, Refusal>
    requires fresh { IsFresh I.Items items }
    requires few { length octets.now < 2 ^ 63 }
    ensures stream { IfOk result (λ values.
        I.denotes (I.catalog items) (I.limits items) octets.now values.items) }
    ensures refused { IfErr result (λ refusal. refusal.reason ≢ reasons.Memory → (s : List Value)
        × IsRefused (format_of I.Items (I.catalog items) (I.limits items)) octets.now s refusal) }
    ensures memory { IfErr result (λ refusal. refusal.reason ≡ reasons.Memory →
        refusal.offset ≤ length octets.now) }
{
    let mut items = items;
    let mut values = Vec::new(alloc);
    let mut used: usize = 0;
    loop {
        let step = items.step(&octets[used..])?;
        used += step.used;
        match step.value {
            Some(value) => keep_behind(&mut values, Some(value), used)?,
            None => {
                let value = items.finish()?;
                keep_behind(&mut values, value, used)?;
                return Ok(values);
            }
        }
    }
}

/// Puts the next value behind the others, if there is one. `Memory` is the only refusal, at the
/// number of octets used.
fn keep_behind(values: &mut Vec<Value>, value: Option<Value>, used: usize) -> Result<(), Refusal>
    ensures more { OnOk result (values.new.items ≡ values.old.items ++ option_to_list value) }
    ensures memory { IfErr result (λ refusal.
        (refusal.reason ≡ reasons.Memory) × (refusal.offset ≡ used)) }
{
    match keep_next(values, value) {
        Ok(()) => Ok(()),
        Err(_) => Err(Refusal {
            offset: used as u64,
            reason: Reason::Memory,
        }),
    }
}

/// Puts the next value behind the others, if there is one. `Memory` is the only fault.
fn keep_next(values: &mut Vec<Value>, value: Option<Value>) -> Result<(), Fault>
    ensures more { OnOk result (values.new.items ≡ values.old.items ++ option_to_list value) }
    ensures cause { IfErr result (λ fault. fault ≡ Fault.Memory) }
{
    if let Some(value) = value {
        values.push(value)?;
    }
    Ok(())
}
