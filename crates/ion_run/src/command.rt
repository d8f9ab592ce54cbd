//! What the program does.
ghost use Rattle.std.specs.Prelude.{◌≡◌, ◌^◌, ◌⊎◌, ℕ, true, false, [], map, IfOk, OnOk, IfErr, OnErr, Option, Result};
ghost use Rattle.ion_atoms.specs.declared.refusal.Refusal.{Refusal};
ghost use Rattle.ion_symtab.specs.Cause.{IsReadCause};
ghost use Rattle.ion_symtab.specs.Took.{Took, TookFront};
ghost use Rattle.ion_streams.specs.declared.comparison.Verdict.{Verdict};
ghost use Rattle.ion_docs.specs.Encodings.{encoding_of};
ghost use Rattle.ion_docs.specs.Formats.{documents};
ghost use Rattle.ion_streams.specs.Checked.{IsChecked};
ghost use Rattle.ion_streams.specs.Listing.{IsShown, ShowsSoFar, IsWriteCause};
ghost use Rattle.ion_streams.specs.Compared.{IsCompared};
ghost use Rattle.ion_docs.specs.Conversion.{KeepsStream};
ghost use Rattle.ion_docs.specs.Converted.{IsConverted, IsConvertCause, ReadSoFar, ConvertsSoFar};
ghost use Rattle.ion_words.specs.Asked.{asked, told, names_of, names_of_job, names_with, NamesInputOnce};
ghost use Rattle.ion_run.specs.Asking.{AreAskedSo, IsAskedSo};
ghost use Rattle.ion_run.specs.Lines.{fault_line, refusal_line, usage_line, Reports};
ghost use Rattle.ion_run.specs.Endings.{answer_line, verdict_line, ending_with, EndsChecked, EndsShown, EndsCompared, PassesOn};
ghost use Rattle.ion_run.specs.Names.{Keeps, Opens, OpensUpTo};
ghost use Rattle.ion_run.specs.Owed.{code_of, IsCatalog, IsStopped, NeedsLarge, IsDone, IsAnswered, IsStoppedAt, WroteFront, WroteSoFar, LacksHasher, JobLacksHasher, Owes, OwesWithHasher};

use crate::hashers::{FixedHasher, Hashers};
use crate::lines::{
    USAGE, Whose, accepted_line, different_line, equivalent_line, fault_line, refusal_line,
};
use crate::sources::Sources;
use ion_docs::{
    DocReader, Target, Verdict, check, compare, convert, convert_with_hasher, load_catalog, show,
};
use ion_model::Refusal;
use ion_symtab::{Catalog, Fault, Inlet, Items, Limits, Outlet, flushed, write_whole};
use ion_words::{Request, Task, WordsError, parse};
use std::alloc::Global;
use std::convert::AsStr;

/// The status that the process ends with.
#[derive(Clone, Copy, Debug, PartialEq, Eq)]
pub enum Status {
    /// The document was accepted, or the two are equivalent.
    Accepted,
    /// Both are documents, and they aren't equivalent.
    Different,
    /// A document was refused.
    Refused,
    /// The words ask for nothing that the program does.
    WrongWords,
    /// A fault came before there was an answer.
    Fault,
}

impl Status {
    /// Its number.
    pub fn code(self) -> u8
        ensures { result ≡ code_of self }
    {
        match self {
            Status::Accepted => 0,
            Status::Different => 1,
            Status::Refused => 2,
            Status::WrongWords => 3,
            Status::Fault => 4,
        }
    }
}

/// How a command ended that no fault stopped.
#[derive(Clone, Copy, Debug, PartialEq, Eq)]
enum Ending {
    /// The document was accepted, or the two are equivalent.
    Accepted,
    /// Both are documents, and they aren't equivalent.
    Different,
    /// This document was refused so.
    Refused(Whose, Refusal),
}

/// Does what the words ask for, and answers the status of the process.
///
/// The words come without the program's name. Answers go to `out`; what was refused, faults and
/// how the program is called go to `err`. The status is 0 for an accepted document or equivalent
/// ones, 1 for different ones, 2 for a refusal, 3 for wrong words and 4 for a fault. A write to
/// `err` that fails changes no status.
pub fn run<S: AsStr, N: Sources, O: Outlet, E: Outlet>(
    alloc: Global,
    words: &[S],
    sources: &mut N,
    out: &mut O,
    err: &mut E,
) -> u8
    ensures owes { Owes N.Input.Inlet (N.gives sources.old) (N.refuses sources.old)
        (Opens (N.opened sources.old) (N.opened sources.new))
        ⟦<DocReader<'static> as Items>⟧ O.Outlet E.Outlet (asked (map S.text words.now))
        out.old out.new err.old err.new result }
{
    run_with_hasher(alloc, words, sources, &FixedHasher, out, err)
}

/// The same, where a conversion to binary finds the ids of symbols by a hasher that is asked for
/// then. Where none can be had, that is the fault `Read`.
pub fn run_with_hasher<S: AsStr, N: Sources, H: Hashers, O: Outlet, E: Outlet>(
    alloc: Global,
    words: &[S],
    sources: &mut N,
    hashers: &H,
    out: &mut O,
    err: &mut E,
) -> u8
    ensures owes { OwesWithHasher N.Input.Inlet (N.gives sources.old) (N.refuses sources.old)
        (Opens (N.opened sources.old) (N.opened sources.new))
        (H.refuses hashers.now) ⟦<DocReader<'static> as Items>⟧ O.Outlet E.Outlet
        (asked (map S.text words.now)) out.old out.new err.old err.new result }
{
    match parse(alloc, words) {
        Ok(request) => answer(alloc, &request, sources, hashers, out, err).code(),
        Err(error) => refuse_words(error, err).code(),
    }
}

/// Tells on `err` why the words ask for nothing, and answers the status.
pub fn refuse_words<E: Outlet>(error: WordsError, err: &mut E) -> Status
    ensures usage { error ≡ WordsError.Usage → (result ≡ Status.WrongWords)
        × Reports E.Outlet err.old err.new usage_line }
    ensures memory { error ≡ WordsError.Memory → (result ≡ Status.Fault)
        × Reports E.Outlet err.old err.new (fault_line Fault.Memory) }
{
    match error {
        WordsError::Usage => {
            report(err, USAGE);
            Status::WrongWords
        }
        WordsError::Memory => tell_fault(Fault::Memory, err),
    }
}

fn tell_fault<E: Outlet>(fault: Fault, err: &mut E) -> Status
    ensures status { result ≡ Status.Fault }
    ensures told { Reports E.Outlet err.old err.new (fault_line fault) }
{
    report(err, fault_line(fault));
    Status::Fault
}

fn tell_refusal<E: Outlet>(alloc: Global, whose: Whose, refusal: Refusal, err: &mut E) -> Status
    ensures status { result ≡ Status.Refused ⊎ result ≡ Status.Fault }
    ensures refused { result ≡ Status.Refused
        → Reports E.Outlet err.old err.new (refusal_line whose refusal) }
    ensures fault { result ≡ Status.Fault
        → Reports E.Outlet err.old err.new (fault_line Fault.Memory) }
{
    match refusal_line(alloc, whose, refusal) {
        Ok(line) => {
            report(err, line.as_str());
            Status::Refused
        }
        Err(_) => tell_fault(Fault::Memory, err),
    }
}

/// Writes the line as far as the device takes it, and passes it on: a write or a flush that fails
/// changes no status.
fn report<E: Outlet>(err: &mut E, line: &str)
    ensures { Reports E.Outlet err.old err.new line.now }
{
    if write_whole(err, line.as_bytes()).is_ok() {
        let _ = flushed(err);
    }
}

fn answer<N: Sources, H: Hashers, O: Outlet, E: Outlet>(
    alloc: Global,
    request: &Request<'_>,
    sources: &mut N,
    hashers: &H,
    out: &mut O,
    err: &mut E,
) -> Status
    requires input_once { NamesInputOnce (names_of (told request.now)) }
    requires reads { request.now.limits.reads ≡ 2 ^ 32 }
    ensures { OwesWithHasher N.Input.Inlet (N.gives sources.old) (N.refuses sources.old)
        (Opens (N.opened sources.old) (N.opened sources.new))
        (H.refuses hashers.now) ⟦<DocReader<'static> as Items>⟧ O.Outlet E.Outlet
        (Option.Some (told request.now)) out.old out.new err.old err.new (code_of result) }
{
    match with_catalog(alloc, request, sources, hashers, out) {
        Ok(Ending::Accepted) => Status::Accepted,
        Ok(Ending::Different) => Status::Different,
        Ok(Ending::Refused(whose, refusal)) => tell_refusal(alloc, whose, refusal, err),
        Err(fault) => tell_fault(fault, err),
    }
}

/// Does what is asked for under the catalog, which is opened and loaded first.
fn with_catalog<N: Sources, H: Hashers, O: Outlet>(
    alloc: Global,
    request: &Request<'_>,
    sources: &mut N,
    hashers: &H,
    out: &mut O,
) -> Result<Ending, Fault>
    requires input_once { NamesInputOnce (names_of (told request.now)) }
    ensures answered { IfOk result (IsAnswered N.Input.Inlet (N.gives sources.old)
        O.Outlet out.old out.new (Opens (N.opened sources.old) (N.opened sources.new))
        (told request.now) request.now.limits) }
    ensures passed_on { OnOk result (PassesOn O.Outlet out.old out.new) }
    ensures so_far { OnErr result (WroteSoFar N.Input.Inlet (N.gives sources.old)
        ⟦<DocReader<'static> as Items>⟧ O.Outlet out.old out.new
        (told request.now) request.now.limits) }
    ensures stopped { IfErr result (IsStoppedAt N.Input.Inlet (N.gives sources.old)
        (N.refuses sources.old) (Opens (N.opened sources.old) (N.opened sources.new))
        (H.refuses hashers.now) ⟦<DocReader<'static> as Items>⟧
        (told request.now) request.now.limits (O.has_failed out.new)) }
{
    match catalog_of(alloc, request, sources)? {
        Ok(catalog) => ending_of(alloc, request, sources, hashers, out, &catalog),
        Err(refusal) => Ok(Ending::Refused(Whose::Catalog, refusal)),
    }
}

/// The catalog that was asked for, or the refusal of its document; one of no tables where none was.
fn catalog_of<N: Sources>(
    alloc: Global,
    request: &Request<'_>,
    sources: &mut N,
) -> Result<Result<Catalog, Refusal>, Fault>
    ensures catalog { IfOk result (IsCatalog N.Input.Inlet (N.gives sources.old)
        (told request.now).catalog request.now.limits) }
    ensures kept { Keeps N.gives N.refuses sources.old sources.new (told request.now).catalog }
    ensures opened { Opens (N.opened sources.old) (N.opened sources.new)
        (names_with (told request.now).catalog []) }
    ensures stopped { IfErr result (IsStopped N.Input.Inlet (N.gives sources.old)
        (N.refuses sources.old) request.now.limits (names_with (told request.now).catalog [])
        ⊥ ⊥ false) }
{
    match request.catalog {
        None => Ok(Ok(Catalog::new(alloc))),
        Some(name) => load_catalog(alloc, &mut sources.source(name)?, request.limits),
    }
}

/// Opens each document, left to right, before one is read, and then does what is asked for.
fn ending_of<N: Sources, H: Hashers, O: Outlet>(
    alloc: Global,
    request: &Request<'_>,
    sources: &mut N,
    hashers: &H,
    out: &mut O,
    catalog: &Catalog,
) -> Result<Ending, Fault>
    requires input_once { NamesInputOnce (names_of_job (told request.now).job) }
    ensures done { IfOk result (IsDone N.Input.Inlet (N.gives sources.old) O.Outlet
        out.old out.new (told request.now).job catalog.now request.now.limits) }
    ensures opened { OnOk result (Opens (N.opened sources.old) (N.opened sources.new)
        (names_of_job (told request.now).job)) }
    ensures opened_up_to { IfErr result (OpensUpTo
        (Opens (N.opened sources.old) (N.opened sources.new)) (N.refuses sources.old)
        (names_of_job (told request.now).job)) }
    ensures passed_on { OnOk result (PassesOn O.Outlet out.old out.new) }
    ensures so_far { OnErr result (TookFront O.took O.written out.old out.new []
        ⊎ WroteFront N.Input.Inlet (N.gives sources.old) ⟦<DocReader<'static> as Items>⟧
        O.Outlet out.old out.new (told request.now).job catalog.now request.now.limits) }
    ensures stopped { IfErr result (IsStopped N.Input.Inlet (N.gives sources.old)
        (N.refuses sources.old) request.now.limits (names_of_job (told request.now).job)
        (JobLacksHasher (H.refuses hashers.now) (told request.now).job)
        (NeedsLarge N.Input.Inlet (N.gives sources.old) ⟦<DocReader<'static> as Items>⟧
        (told request.now).job catalog.now request.now.limits) (O.has_failed out.new)) }
{
    let limits = request.limits;
    match request.task {
        Task::Check(name) => checked(alloc, &mut sources.source(name)?, out, catalog, limits),
        Task::Show(name) => shown(alloc, &mut sources.source(name)?, out, catalog, limits),
        Task::Convert(name, target) => {
            let mut source = sources.source(name)?;
            converted(alloc, hashers, &mut source, out, target, catalog, limits)
        }
        Task::Compare(left, right) => {
            let mut left = sources.source(left)?;
            let mut right = sources.source(right)?;
            compared(alloc, &mut left, &mut right, out, catalog, limits)
        }
    }
}

fn checked<R: Inlet, O: Outlet>(
    alloc: Global,
    reader: &mut R,
    out: &mut O,
    catalog: &Catalog,
    limits: Limits,
) -> Result<Ending, Fault>
    ensures ending { IfOk result (λ ending. (answer : Result ℕ Refusal)
        × IsChecked R.Inlet (documents catalog.now limits) reader.old reader.new answer
        × EndsChecked O.Outlet out.old out.new answer ending) }
    ensures asked { IsAskedSo R.Inlet (documents catalog.now limits) limits
        reader.old reader.new }
    ensures passed_on { OnOk result (PassesOn O.Outlet out.old out.new) }
    ensures so_far { OnErr result (TookFront O.took O.written out.old out.new []
        ⊎ (answer : Result ℕ Refusal)
        × IsChecked R.Inlet (documents catalog.now limits) reader.old reader.new answer
        × TookFront O.took O.written out.old out.new (answer_line answer)) }
    ensures cause { IfErr result (λ fault. IsReadCause R.Inlet limits.reads reader.old reader.new
        fault
        ⊎ IsWriteCause O.Outlet out.new fault) }
{
    match check(alloc, reader, catalog, limits)? {
        Ok(values) => {
            tell(out, accepted_line(alloc, values)?.as_str())?;
            Ok(Ending::Accepted)
        }
        Err(refusal) => Ok(Ending::Refused(Whose::Only, refusal)),
    }
}

fn shown<R: Inlet, O: Outlet>(
    alloc: Global,
    reader: &mut R,
    out: &mut O,
    catalog: &Catalog,
    limits: Limits,
) -> Result<Ending, Fault>
    ensures ending { IfOk result (λ ending. (answer : Result ℕ Refusal)
        × IsShown R.Inlet O.Outlet (documents catalog.now limits)
        reader.old reader.new out.old out.new answer
        × EndsShown O.Outlet out.new answer ending) }
    ensures asked { IsAskedSo R.Inlet (documents catalog.now limits) limits
        reader.old reader.new }
    ensures passed_on { OnOk result (PassesOn O.Outlet out.old out.new) }
    ensures so_far { OnErr result (ShowsSoFar R.Inlet ⟦<DocReader<'static> as Items>⟧ O.Outlet
        catalog.now limits reader.old reader.new out.old out.new) }
    ensures cause { IfErr result (λ fault. IsReadCause R.Inlet limits.reads reader.old reader.new
        fault
        ⊎ IsWriteCause O.Outlet out.new fault) }
{
    let answer = show(alloc, reader, out, catalog, limits)?;
    Ok(ending_with(answer))
}

/// A hasher is asked for where the target is binary.
fn converted<H: Hashers, R: Inlet, O: Outlet>(
    alloc: Global,
    hashers: &H,
    reader: &mut R,
    out: &mut O,
    target: Target,
    catalog: &Catalog,
    limits: Limits,
) -> Result<Ending, Fault>
    ensures ending { IfOk result (λ ending. (answer : Result ℕ Refusal)
        × IsConverted R.Inlet O.Outlet (encoding_of target)
        (documents catalog.now limits) reader.old reader.new out.old out.new answer
        × KeepsStream R.Inlet O.Outlet (encoding_of target) catalog.now limits
        reader.old reader.new out.old out.new answer
        × EndsShown O.Outlet out.new answer ending) }
    ensures asked { IsAskedSo R.Inlet (documents catalog.now limits) limits
        reader.old reader.new }
    ensures passed_on { OnOk result (PassesOn O.Outlet out.old out.new) }
    ensures so_far { OnErr result (ConvertsSoFar (encoding_of target)
        (ReadSoFar R.Inlet ⟦<DocReader<'static> as Items>⟧ catalog.now limits reader.old reader.new)
        O.Outlet out.old out.new) }
    ensures cause { IfErr result (λ fault. IsReadCause R.Inlet limits.reads reader.old reader.new
        fault
        ⊎ IsConvertCause (encoding_of target)
        (ReadSoFar R.Inlet ⟦<DocReader<'static> as Items>⟧ catalog.now limits reader.old reader.new)
        (O.has_failed out.new) fault
        ⊎ (fault ≡ Fault.Read) × LacksHasher (H.refuses hashers.now) target) }
{
    match target {
        Target::Text => {
            let answer = convert(alloc, reader, out, target, catalog, limits)?;
            Ok(ending_with(answer))
        }
        Target::Binary => {
            let hasher = hashers.hasher()?;
            let answer = convert_with_hasher(alloc, hasher, reader, out, target, catalog, limits)?;
            Ok(ending_with(answer))
        }
    }
}

/// How `show` and `convert` end with this answer; their lines went out before.
fn ending_with(answer: Result<u64, Refusal>) -> Ending
    ensures { result ≡ ending_with answer }
{
    match answer {
        Ok(_) => Ending::Accepted,
        Err(refusal) => Ending::Refused(Whose::Only, refusal),
    }
}

fn compared<L: Inlet, R: Inlet, O: Outlet>(
    alloc: Global,
    left: &mut L,
    right: &mut R,
    out: &mut O,
    catalog: &Catalog,
    limits: Limits,
) -> Result<Ending, Fault>
    ensures ending { IfOk result (λ ending. (verdict : Verdict)
        × IsCompared L.Inlet R.Inlet (documents catalog.now limits) (documents catalog.now limits)
        left.old left.new right.old right.new verdict
        × EndsCompared O.Outlet out.old out.new verdict ending) }
    ensures asked { AreAskedSo L.Inlet R.Inlet (documents catalog.now limits) limits
        left.old left.new right.old right.new }
    ensures passed_on { OnOk result (PassesOn O.Outlet out.old out.new) }
    ensures so_far { OnErr result (TookFront O.took O.written out.old out.new []
        ⊎ (verdict : Verdict)
        × IsCompared L.Inlet R.Inlet (documents catalog.now limits) (documents catalog.now limits)
        left.old left.new right.old right.new verdict
        × TookFront O.took O.written out.old out.new (verdict_line verdict)) }
    ensures cause { IfErr result (λ fault. IsReadCause L.Inlet limits.reads left.old left.new fault
        ⊎ IsReadCause R.Inlet limits.reads right.old right.new fault
        ⊎ IsWriteCause O.Outlet out.new fault) }
{
    match compare(alloc, left, right, catalog, limits)? {
        Verdict::Equivalent { values } => {
            tell(out, equivalent_line(alloc, values)?.as_str())?;
            Ok(Ending::Accepted)
        }
        Verdict::Different { index, path } => {
            tell(out, different_line(alloc, index, &path)?.as_str())?;
            Ok(Ending::Different)
        }
        Verdict::Refused { side, refusal } => Ok(Ending::Refused(Whose::One(side), refusal)),
    }
}

/// Writes the line, and passes it on at once.
fn tell<O: Outlet>(out: &mut O, line: &str) -> Result<(), Fault>
    ensures told { OnOk result (Took O.took O.written out.old out.new line.now) }
    ensures passed_on { OnOk result (O.passed out.new ≡ O.written out.new) }
    ensures so_far { OnErr result (TookFront O.took O.written out.old out.new line.now) }
    ensures cause { IfErr result (λ fault. (fault ≡ Fault.Write) × (O.has_failed out.new ≡ true)) }
{
    write_whole(out, line.as_bytes())?;
    flushed(out)
}
