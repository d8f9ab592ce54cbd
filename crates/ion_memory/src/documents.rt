//! What octets in memory are as documents: the calls of `ion_docs` on devices that tell just these
//! octets.
ghost use Rattle.std.specs.Prelude.{◌≡◌, ◌⊎◌, [], IfOk, IfErr, Result};
ghost use Rattle.ion_memory.specs.Names.{IsCatalog, IsVerdict, documents, encoding_of};
ghost use Rattle.ion_memory.specs.Octets.{IsConversion, IsCount, IsFaultInMemory, IsLayout, IsListing, NeedsTooLargeId, fault_in_memory};

use ion_docs::laws::catalog_documents;
use ion_docs::{Target, Verdict, in_memory};
use ion_model::Refusal;
use ion_symtab::{Catalog, Fault, Limits, ToWrite};
use std::alloc::Global;
use std::hash::{BuildHasher, BuildHasherDefault, FoldHasher};

/// What was written of a document.
#[derive(Debug, Drop)]
pub struct Written {
    /// How many values the document has, or its refusal.
    pub answer: Result<u64, Refusal>,
    /// The octets that were written; on a refusal, those of the values before it.
    pub octets: Vec<u8>,
}

/// How many values a document has (Ion 1.0, "The Ion Data Model"), or its refusal, where the octets
/// are no document within `limits`.
///
/// The offset of a refusal counts octets with which no document begins, or all of them; it is never
/// `Memory`. Faults: `Memory`, where a growth was refused, and `TooManyReads`, where `limits` allow
/// too few reads of 4 KiB each; never while they allow more reads than there are octets.
pub fn check(
    alloc: Global,
    input: &[u8],
    catalog: &Catalog,
    limits: Limits,
) -> Result<Result<u64, Refusal>, Fault>
    ensures answer { IfOk result (IsCount (documents catalog.now limits) input.now) }
    ensures cause { IfErr result (IsFaultInMemory limits input.now ⊥) }
{
    let mut reader = in_memory(input);
    ion_docs::check(alloc, &mut reader, catalog, limits)
}

/// A line for each value of a document, `INDEX KIND depth DEPTH nodes NODES`, and after them
/// `accepted VALUES`, each with LF.
///
/// The answer is that of `check`; on a refusal the lines are those of the values before it. Faults
/// are those of `check`.
pub fn show(
    alloc: Global,
    input: &[u8],
    catalog: &Catalog,
    limits: Limits,
) -> Result<Written, Fault>
    ensures lines { IfOk result (λ written.
        IsListing (documents catalog.now limits) input.now written.answer written.octets.items) }
    ensures cause { IfErr result (IsFaultInMemory limits input.now ⊥) }
{
    let mut reader = in_memory(input);
    let mut writer = ToWrite::new(Vec::new(alloc));
    match ion_docs::show(alloc, &mut reader, &mut writer, catalog, limits) {
        Ok(answer) => {
            let octets = writer.into_inner();
            Ok(Written { answer, octets })
        }
        Err(fault) => Err(fault_of_memory(fault)),
    }
}

/// A document of the same stream in the encoding of `target`, which denotes it under every catalog
/// and all limits that admit it.
///
/// The answer is that of `check`; on a refusal the document is that of the values before it. Faults
/// are those of `check`, and `TooLarge`, where a symbol in binary would need an id above 2^31-1.
///
/// Ids are found by a hash of a fixed seed, which is for documents that are trusted: texts that are
/// chosen to collide make it slow. `convert_with_hasher` is for other ones.
pub fn convert(
    alloc: Global,
    input: &[u8],
    target: Target,
    catalog: &Catalog,
    limits: Limits,
) -> Result<Written, Fault>
    ensures document { IfOk result (λ written. IsConversion (encoding_of target)
        (documents catalog.now limits) input.now written.answer written.octets.items) }
    ensures cause { IfErr result (IsFaultInMemory limits input.now
        (NeedsTooLargeId (encoding_of target) (documents catalog.now limits) input.now)) }
{
    let hasher = BuildHasherDefault::<FoldHasher>::new();
    convert_with_hasher(alloc, hasher, input, target, catalog, limits)
}

/// The same, where this hasher finds the ids of symbols in a binary document. What is written is
/// the same.
pub fn convert_with_hasher<H: BuildHasher + Drop>(
    alloc: Global,
    hasher: H,
    input: &[u8],
    target: Target,
    catalog: &Catalog,
    limits: Limits,
) -> Result<Written, Fault>
    ensures document { IfOk result (λ written. IsConversion (encoding_of target)
        (documents catalog.now limits) input.now written.answer written.octets.items) }
    ensures cause { IfErr result (IsFaultInMemory limits input.now
        (NeedsTooLargeId (encoding_of target) (documents catalog.now limits) input.now)) }
{
    let mut reader = in_memory(input);
    let mut writer = ToWrite::new(Vec::new(alloc));
    let answer = ion_docs::convert_with_hasher(
        alloc,
        hasher,
        &mut reader,
        &mut writer,
        target,
        catalog,
        limits,
    );
    match answer {
        Ok(answer) => {
            let octets = writer.into_inner();
            Ok(Written { answer, octets })
        }
        Err(fault) => Err(fault_of_memory(fault)),
    }
}

/// The layout of the values of a document (docs/EVENTS.md), which is the layout of no other stream.
/// This hasher finds symbols again; the layout doesn't depend on it.
///
/// The answer is that of `check`; on a refusal the layout is that of the values before it. Faults
/// are those of `check`; `Memory` also for a text of 2^32 octets, and for as many values in one
/// container.
pub fn lay_out<H: BuildHasher + Drop>(
    alloc: Global,
    hasher: H,
    input: &[u8],
    catalog: &Catalog,
    limits: Limits,
) -> Result<Written, Fault>
    ensures layout { IfOk result (λ written. IsLayout (documents catalog.now limits)
        input.now written.answer written.octets.items) }
    ensures cause { IfErr result (IsFaultInMemory limits input.now ⊥) }
{
    let mut reader = in_memory(input);
    match ion_docs::lay_out(alloc, hasher, &mut reader, catalog, limits) {
        Ok(out) => Ok(Written {
            answer: out.answer,
            octets: out.layout,
        }),
        Err(fault) => Err(fault),
    }
}

/// A write to memory fails where a growth was refused, which is want of memory.
fn fault_of_memory(fault: Fault) -> Fault
    ensures { result ≡ fault_in_memory fault }
{
    match fault {
        Fault::Write => Fault::Memory,
        other => other,
    }
}

/// Whether two documents have equivalent streams (Ion 1.0, "The Ion Data Model"); where the streams
/// part, the number of the first value that isn't equivalent, and the path within the two values of
/// that number.
///
/// A left side that is no document is refused; else a right side that is none. Offsets and faults
/// are those of `check`.
pub fn compare(
    alloc: Global,
    left: &[u8],
    right: &[u8],
    catalog: &Catalog,
    limits: Limits,
) -> Result<Verdict, Fault>
    ensures verdict { IfOk result (IsVerdict (documents catalog.now limits)
        (documents catalog.now limits) left.now right.now) }
    ensures cause { IfErr result (λ fault. IsFaultInMemory limits left.now ⊥ fault
        ⊎ IsFaultInMemory limits right.now ⊥ fault) }
{
    let mut left = in_memory(left);
    let mut right = in_memory(right);
    ion_docs::compare(alloc, &mut left, &mut right, catalog, limits)
}

/// The catalog of the shared symbol tables that the values of a document describe (Ion 1.0,
/// "Symbols", "Shared Symbol Tables"), or its refusal: `BadTable`, `RepeatedField`,
/// `DuplicateTable` of a value, or that of `check`.
///
/// No octets are a document of no tables, for which no reader is made. Faults are those of `check`.
pub fn load_catalog(
    alloc: Global,
    octets: &[u8],
    limits: Limits,
) -> Result<Result<Catalog, Refusal>, Fault>
    ensures loaded { IfOk result (IsCatalog (documents [] limits) octets.now) }
    ensures cause { IfErr result (IsFaultInMemory limits octets.now ⊥) }
{
    if octets.is_empty() {
        return Ok(Ok(no_tables(alloc, limits)));
    }
    let mut reader = in_memory(octets);
    ion_docs::load_catalog(alloc, &mut reader, limits)
}

/// The catalog that no octets describe.
fn no_tables(alloc: Global, limits: Limits) -> Catalog
    ensures { IsCatalog (documents [] limits) [] (Result.Ok result) }
{
    catalog_documents();
    Catalog::new(alloc)
}
