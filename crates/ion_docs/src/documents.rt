//! Whole documents of either encoding, under one catalog and limits.
ghost use Rattle.std.specs.Prelude.{◌≡◌, ◌+◌, ◌*◌, ◌≤◌, ◌⊎◌, false, IfOk, IfErr, OnOk, OnErr, length};
ghost use Rattle.ion_docs.specs.Names.{AtOnce, AtOneEnd, ConvertsSoFar, IsChecked, IsCompared, IsConvertCause, IsConverted, IsReadCause, IsShown, IsVisited, IsWriteCause, KeepsStream, ReadSoFar, ShowsSoFar, documents, encoding_of};
ghost use Rattle.ion_streams.specs.InTurn.{IsInTurn, LeftInTurn};

use crate::conversion::convert_items;
use crate::doc_reader::DocReader;
use ion_binary::BinaryOut;
use ion_model::Refusal;
use ion_streams::{Verdict, compare_items, show_items, visit_items};
use ion_symtab::{Catalog, Fault, Inlet, Items, Limits, Outlet, Target};
use ion_text_writer::TextOut;
use ion_visiting::{Count, Visitor};
use std::alloc::Global;
use std::hash::{BuildHasher, BuildHasherDefault, FoldHasher};

/// How many values a document has (Ion 1.0, "The Ion Data Model"): the length of the stream that
/// the octets of `reader` denote, or their refusal, where they are no document within `limits`.
///
/// The answer is right about whatever octets begin with those that `reader` handed over during the
/// call, and end there where it answered its end. It isn't asked on behind that end, nor once the
/// octets that it handed over are refused.
///
/// The offset of a refusal counts octets with which no document begins, or all of them; it is never
/// `Memory`. Faults: `Memory` where a growth was refused, `Read` where the reader failed,
/// `TooManyReads` where it was asked as often as `limits` allow and hadn't ended.
pub fn check<R: Inlet>(
    alloc: Global,
    reader: &mut R,
    catalog: &Catalog,
    limits: Limits,
) -> Result<Result<u64, Refusal>, Fault>
    ensures verdict { IfOk result (IsChecked R.Inlet (documents catalog.now limits)
        reader.old reader.new) }
    ensures at_once { AtOnce R.Inlet (documents catalog.now limits) reader.old reader.new }
    ensures one_end { AtOneEnd R.Inlet reader.old reader.new }
    ensures few_calls { R.calls_made reader.new ≤ R.calls_made reader.old + limits.reads }
    ensures few_octets { length (R.handed reader.new)
        ≤ length (R.handed reader.old) + 4096 * limits.reads }
    ensures no_read_failed { OnOk result (R.has_failed reader.new ≡ false) }
    ensures cause { IfErr result (IsReadCause R.Inlet limits.reads reader.old reader.new) }
{
    visit(alloc, reader, catalog, limits, &mut Count::new())
}

/// Tells a visitor the values of a document (Ion 1.0, "The Ion Data Model"), event by event and
/// behind each that it ended: the whole stream, where the octets of `reader` are a document. No
/// value is built: of a document of any length only a scalar is held, until its last octet came;
/// where the visitor heeds kinds alone no long string, clob or blob is.
///
/// The answer and the faults are those of `check`; `Memory` also where the visitor answered
/// `false`. On a refusal and at a fault the visitor was told the front of some values, and its
/// state means nothing.
pub fn visit<R: Inlet, V: Visitor>(
    alloc: Global,
    reader: &mut R,
    catalog: &Catalog,
    limits: Limits,
    visitor: &mut V,
) -> Result<Result<u64, Refusal>, Fault>
    ensures verdict { IfOk result (IsVisited V.takes R.Inlet (documents catalog.now limits)
        reader.old reader.new visitor.old visitor.new) }
    ensures at_once { AtOnce R.Inlet (documents catalog.now limits) reader.old reader.new }
    ensures one_end { AtOneEnd R.Inlet reader.old reader.new }
    ensures few_calls { R.calls_made reader.new ≤ R.calls_made reader.old + limits.reads }
    ensures few_octets { length (R.handed reader.new)
        ≤ length (R.handed reader.old) + 4096 * limits.reads }
    ensures no_read_failed { OnOk result (R.has_failed reader.new ≡ false) }
    ensures cause { IfErr result (IsReadCause R.Inlet limits.reads reader.old reader.new) }
{
    let items = DocReader::unread(alloc, catalog, limits);
    visit_items(alloc, items, limits.reads(), reader, visitor)
}

/// Writes a line for each value of a document, `INDEX KIND depth DEPTH nodes NODES`, and behind
/// them `accepted VALUES`, each with LF. The index counts from 1; numbers stop at 2^64-1.
///
/// The answer is that of `check`. On a refusal the lines of the values that the octets up to it
/// show are written, and no last line. The writer is flushed last, on a refusal too. At a fault
/// some first octets of the lines of the values read so far were written. Faults: those of `check`,
/// and `Write` where a write or the flush failed.
pub fn show<R: Inlet, W: Outlet>(
    alloc: Global,
    reader: &mut R,
    writer: &mut W,
    catalog: &Catalog,
    limits: Limits,
) -> Result<Result<u64, Refusal>, Fault>
    ensures shown { IfOk result (IsShown R.Inlet W.Outlet (documents catalog.now limits)
        reader.old reader.new writer.old writer.new) }
    ensures passed_on { OnOk result (W.passed writer.new ≡ W.written writer.new) }
    ensures no_write_failed { OnOk result (W.has_failed writer.new ≡ false) }
    ensures so_far { OnErr result (ShowsSoFar R.Inlet ⟦<DocReader<'static> as Items>⟧ W.Outlet
        catalog.now limits reader.old reader.new writer.old writer.new) }
    ensures at_once { AtOnce R.Inlet (documents catalog.now limits) reader.old reader.new }
    ensures one_end { AtOneEnd R.Inlet reader.old reader.new }
    ensures few_calls { R.calls_made reader.new ≤ R.calls_made reader.old + limits.reads }
    ensures few_octets { length (R.handed reader.new)
        ≤ length (R.handed reader.old) + 4096 * limits.reads }
    ensures no_read_failed { OnOk result (R.has_failed reader.new ≡ false) }
    ensures cause { IfErr result (λ fault.
        IsReadCause R.Inlet limits.reads reader.old reader.new fault
        ⊎ IsWriteCause W.Outlet writer.new fault) }
{
    let items = DocReader::unread(alloc, catalog, limits);
    show_items(alloc, items, limits.reads(), reader, writer)
}

/// Writes a document that denotes the stream of another (Ion 1.0, "The Ion Data Model"), in the
/// encoding of `target`: the one spelling that `ion_binary` or `ion_text_writer` gives a stream. It
/// denotes that stream under every catalog and all limits that admit it: `item` at least the octets
/// of each item written, `depth` at least that of each value; in binary ids up to 2^31-1, and
/// `depth` at least 2 where a symbol table is written.
///
/// The answer is that of `check`. On a refusal the conversion of the values that the octets up to
/// it show is written, which denotes just those. The writer is flushed last, on a refusal too. At a
/// fault some first octets of the conversion of the values read so far were written. Faults: those
/// of `check`, `Write` where a write or the flush failed, and `TooLarge` where a symbol in binary
/// would need an id above 2^31-1.
///
/// Ids are found by a hash of a fixed seed, which is for documents that are trusted: texts that are
/// chosen to collide make it slow. `convert_with_hasher` is for other ones.
pub fn convert<R: Inlet, W: Outlet>(
    alloc: Global,
    reader: &mut R,
    writer: &mut W,
    target: Target,
    catalog: &Catalog,
    limits: Limits,
) -> Result<Result<u64, Refusal>, Fault>
    ensures same { IfOk result (KeepsStream R.Inlet W.Outlet (encoding_of target) catalog.now limits
        reader.old reader.new writer.old writer.new) }
    ensures converted { IfOk result (IsConverted R.Inlet W.Outlet (encoding_of target)
        (documents catalog.now limits) reader.old reader.new writer.old writer.new) }
    ensures passed_on { OnOk result (W.passed writer.new ≡ W.written writer.new) }
    ensures no_write_failed { OnOk result (W.has_failed writer.new ≡ false) }
    ensures at_once { AtOnce R.Inlet (documents catalog.now limits) reader.old reader.new }
    ensures one_end { AtOneEnd R.Inlet reader.old reader.new }
    ensures few_calls { R.calls_made reader.new ≤ R.calls_made reader.old + limits.reads }
    ensures few_octets { length (R.handed reader.new)
        ≤ length (R.handed reader.old) + 4096 * limits.reads }
    ensures no_read_failed { OnOk result (R.has_failed reader.new ≡ false) }
    ensures so_far { OnErr result (ConvertsSoFar (encoding_of target)
        (ReadSoFar R.Inlet ⟦<DocReader<'static> as Items>⟧ catalog.now limits reader.old reader.new)
        W.Outlet writer.old writer.new) }
    ensures cause { IfErr result (λ fault.
        IsReadCause R.Inlet limits.reads reader.old reader.new fault
        ⊎ IsConvertCause (encoding_of target)
        (ReadSoFar R.Inlet ⟦<DocReader<'static> as Items>⟧ catalog.now limits reader.old reader.new)
        (W.has_failed writer.new) fault) }
{
    let hasher = BuildHasherDefault::<FoldHasher>::new();
    convert_with_hasher(alloc, hasher, reader, writer, target, catalog, limits)
}

/// The same, where this hasher finds the ids of symbols in a binary document. What is written is
/// the same.
pub fn convert_with_hasher<H: BuildHasher + Drop, R: Inlet, W: Outlet>(
    alloc: Global,
    hasher: H,
    reader: &mut R,
    writer: &mut W,
    target: Target,
    catalog: &Catalog,
    limits: Limits,
) -> Result<Result<u64, Refusal>, Fault>
    ensures same { IfOk result (KeepsStream R.Inlet W.Outlet (encoding_of target) catalog.now limits
        reader.old reader.new writer.old writer.new) }
    ensures converted { IfOk result (IsConverted R.Inlet W.Outlet (encoding_of target)
        (documents catalog.now limits) reader.old reader.new writer.old writer.new) }
    ensures passed_on { OnOk result (W.passed writer.new ≡ W.written writer.new) }
    ensures no_write_failed { OnOk result (W.has_failed writer.new ≡ false) }
    ensures at_once { AtOnce R.Inlet (documents catalog.now limits) reader.old reader.new }
    ensures one_end { AtOneEnd R.Inlet reader.old reader.new }
    ensures few_calls { R.calls_made reader.new ≤ R.calls_made reader.old + limits.reads }
    ensures few_octets { length (R.handed reader.new)
        ≤ length (R.handed reader.old) + 4096 * limits.reads }
    ensures no_read_failed { OnOk result (R.has_failed reader.new ≡ false) }
    ensures so_far { OnErr result (ConvertsSoFar (encoding_of target)
        (ReadSoFar R.Inlet ⟦<DocReader<'static> as Items>⟧ catalog.now limits reader.old reader.new)
        W.Outlet writer.old writer.new) }
    ensures cause { IfErr result (λ fault.
        IsReadCause R.Inlet limits.reads reader.old reader.new fault
        ⊎ IsConvertCause (encoding_of target)
        (ReadSoFar R.Inlet ⟦<DocReader<'static> as Items>⟧ catalog.now limits reader.old reader.new)
        (W.has_failed writer.new) fault) }
{
    let items = DocReader::unread(alloc, catalog, limits);
    let reads = limits.reads();
    match target {
        Target::Binary => match BinaryOut::with_hasher(alloc, hasher) {
            Ok(encoder) => convert_items::<BinaryOut<H>, DocReader<'_>, R, W>(
                alloc, encoder, items, reads, reader, writer,
            ),
            Err(fault) => {
                // by a call, as in `compare`
                drop(items);
                Err(fault)
            }
        },
        Target::Text => {
            drop(hasher);
            let encoder = TextOut::new(alloc);
            convert_items::<TextOut, DocReader<'_>, R, W>(
                alloc, encoder, items, reads, reader, writer,
            )
        }
    }
}

/// Whether two documents have equivalent streams: as many values, and in each place values that are
/// the same by the data model (Ion 1.0, "The Ion Data Model"). Where the streams part, the answer
/// is the number of the first value that isn't, and the path within the two values of that number
/// to where they part, which is empty where only one stream has that value.
///
/// The verdict is right about whatever octets begin with those that the devices handed over during
/// the call, and end there where one answered its end. Neither is asked on behind that end.
///
/// One value of each is read in turn: the right device is asked for a value only once that of the
/// left, or its end, is known, and the left one for the next only once the right has given its own,
/// has ended or is refused. A left side that is no document is refused at once, and a device whose
/// octets are refused is asked no more. After the streams parted, and after the right side was
/// refused, both are still read to the end, so that the left side is refused wherever it is no
/// document, and the right where it alone is none. Offsets and faults are those of `check`.
pub fn compare<L: Inlet, R: Inlet>(
    alloc: Global,
    left: &mut L,
    right: &mut R,
    catalog: &Catalog,
    limits: Limits,
) -> Result<Verdict, Fault>
    ensures verdict { IfOk result (IsCompared L.Inlet R.Inlet
        (documents catalog.now limits) (documents catalog.now limits)
        left.old left.new right.old right.new) }
    ensures in_turn { IsInTurn L.Inlet R.Inlet
        (documents catalog.now limits) (documents catalog.now limits)
        left.old left.new right.old right.new }
    ensures left_in_turn { LeftInTurn L.Inlet R.Inlet
        (documents catalog.now limits) (documents catalog.now limits)
        left.old left.new right.old right.new }
    ensures at_once { AtOnce L.Inlet (documents catalog.now limits) left.old left.new
        × AtOnce R.Inlet (documents catalog.now limits) right.old right.new }
    ensures one_end { AtOneEnd L.Inlet left.old left.new × AtOneEnd R.Inlet right.old right.new }
    ensures few_calls { (L.calls_made left.new ≤ L.calls_made left.old + limits.reads)
        × (R.calls_made right.new ≤ R.calls_made right.old + limits.reads) }
    ensures few_octets { (length (L.handed left.new) ≤ length (L.handed left.old) + 4096 *
        limits.reads)
        × (length (R.handed right.new) ≤ length (R.handed right.old) + 4096 * limits.reads) }
    ensures no_read_failed { OnOk result ((L.has_failed left.new ≡ false)
        × ((right.new ≡ right.old) ⊎ (R.has_failed right.new ≡ false))) }
    ensures cause { IfErr result (λ fault.
        IsReadCause L.Inlet limits.reads left.old left.new fault
        ⊎ IsReadCause R.Inlet limits.reads right.old right.new fault) }
{
    let left_items = DocReader::unread(alloc, catalog, limits);
    let right_items = DocReader::unread(alloc, catalog, limits);
    compare_items(alloc, limits.reads(), left_items, left, right_items, right)
}
