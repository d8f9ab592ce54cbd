//! Calls for other languages: the catalog is octets, the limits are numbers, and all that is told
//! is one `Outcome`.
ghost use Rattle.std.specs.Prelude.{◌≡◌, ◌⊎◌, ℕ, List, [], IfOk, IfErr};
ghost use Rattle.ion_memory.specs.Names.{Faulted, Memory};
ghost use Rattle.ion_memory.specs.Endings.{ending_of, whose_side};
ghost use Rattle.ion_memory.specs.Outcomes.{EndsVerdict, IsChecked, IsCompared, IsConverted, IsLaidOut, IsNoSetting, IsOutcome, IsSetting, IsShown};

use crate::documents::{Written, check, compare, convert_with_hasher, lay_out, show};
use crate::ending::{Ending, Whose};
use crate::setting::{Setting, set_up};
use ion_docs::{Side, Target, Verdict, path_text};
use ion_symtab::Fault;
use std::alloc::Global;
use std::hash::{BuildHasher, BuildHasherDefault, FoldHasher};

/// How a call ended, and its text: the lines, the document, the layout, or the path to a difference.
#[derive(Debug, Drop)]
pub struct Outcome {
    pub ending: Ending,
    pub text: Vec<u8>,
}

/// How many values a document has, as `check` tells it.
pub fn checked(alloc: Global, input: &[u8], catalog: &[u8], depth: u32, item: u64) -> Outcome
    ensures { IsOutcome catalog.now depth item (IsChecked input.now)
        result.ending result.text.items }
{
    match set_up(alloc, catalog, depth, item) {
        Ok(setting) => checked_in(alloc, input, &setting),
        Err(ending) => without_text(alloc, ending),
    }
}

/// The lines of a document, as `show` writes them.
pub fn shown(alloc: Global, input: &[u8], catalog: &[u8], depth: u32, item: u64) -> Outcome
    ensures { IsOutcome catalog.now depth item (IsShown input.now)
        result.ending result.text.items }
{
    match set_up(alloc, catalog, depth, item) {
        Ok(setting) => shown_in(alloc, input, &setting),
        Err(ending) => without_text(alloc, ending),
    }
}

/// Whether two documents have equivalent streams, as `compare` tells it; the text is the path to a
/// difference.
pub fn compared(
    alloc: Global,
    left: &[u8],
    right: &[u8],
    catalog: &[u8],
    depth: u32,
    item: u64,
) -> Outcome
    ensures { IsOutcome catalog.now depth item (IsCompared left.now right.now)
        result.ending result.text.items }
{
    let setting = set_up(alloc, catalog, depth, item);
    compared_under(alloc, left, right, &setting)
}

/// The same under what `set_up` answered, which serves any number of comparisons.
pub fn compared_under(
    alloc: Global,
    left: &[u8],
    right: &[u8],
    setting: &Result<Setting, Ending>,
) -> Outcome
    ensures { (catalog : List ℕ) (depth item : ℕ) →
        IfOk setting.now (λ s. IsSetting catalog depth item s.catalog s.limits) →
        IfErr setting.now (IsNoSetting catalog depth item) →
        IsOutcome catalog depth item (IsCompared left.now right.now)
        result.ending result.text.items }
{
    match setting {
        Ok(setting) => compared_in(alloc, left, right, setting),
        Err(ending) => without_text(alloc, *ending),
    }
}

/// A document of the same stream, as `convert` writes it: in binary with a hash of a fixed seed.
pub fn converted(
    alloc: Global,
    input: &[u8],
    target: Target,
    catalog: &[u8],
    depth: u32,
    item: u64,
) -> Outcome
    ensures { IsOutcome catalog.now depth item (IsConverted target input.now)
        result.ending result.text.items }
{
    let hasher = BuildHasherDefault::<FoldHasher>::new();
    converted_with_hasher(alloc, hasher, input, target, catalog, depth, item)
}

/// The same with this hasher, as `convert_with_hasher` writes it.
pub fn converted_with_hasher<H: BuildHasher + Drop>(
    alloc: Global,
    hasher: H,
    input: &[u8],
    target: Target,
    catalog: &[u8],
    depth: u32,
    item: u64,
) -> Outcome
    ensures { IsOutcome catalog.now depth item (IsConverted target input.now)
        result.ending result.text.items }
{
    match set_up(alloc, catalog, depth, item) {
        Ok(setting) => converted_in(alloc, hasher, input, target, &setting),
        Err(ending) => {
            drop(hasher);
            without_text(alloc, ending)
        }
    }
}

/// The layout of the values of a document, as `lay_out` makes it: this hasher finds symbols again.
pub fn laid_out<H: BuildHasher + Drop>(
    alloc: Global,
    hasher: H,
    input: &[u8],
    catalog: &[u8],
    depth: u32,
    item: u64,
) -> Outcome
    ensures { IsOutcome catalog.now depth item (IsLaidOut input.now)
        result.ending result.text.items }
{
    match set_up(alloc, catalog, depth, item) {
        Ok(setting) => laid_out_in(alloc, hasher, input, &setting),
        Err(ending) => {
            drop(hasher);
            without_text(alloc, ending)
        }
    }
}

fn checked_in(alloc: Global, input: &[u8], setting: &Setting) -> Outcome
    ensures { IsChecked input.now setting.now.catalog setting.now.limits
        result.ending result.text.items }
{
    match check(alloc, input, &setting.catalog, setting.limits) {
        Ok(answer) => without_text(alloc, Ending::of(answer)),
        Err(fault) => without_text(alloc, Ending::Faulted { fault }),
    }
}

fn shown_in(alloc: Global, input: &[u8], setting: &Setting) -> Outcome
    ensures { IsShown input.now setting.now.catalog setting.now.limits
        result.ending result.text.items }
{
    match show(alloc, input, &setting.catalog, setting.limits) {
        Ok(written) => with_text(written),
        Err(fault) => without_text(alloc, Ending::Faulted { fault }),
    }
}

fn converted_in<H: BuildHasher + Drop>(
    alloc: Global,
    hasher: H,
    input: &[u8],
    target: Target,
    setting: &Setting,
) -> Outcome
    ensures { IsConverted target input.now setting.now.catalog setting.now.limits
        result.ending result.text.items }
{
    match convert_with_hasher(
        alloc,
        hasher,
        input,
        target,
        &setting.catalog,
        setting.limits,
    ) {
        Ok(written) => with_text(written),
        Err(fault) => without_text(alloc, Ending::Faulted { fault }),
    }
}

fn laid_out_in<H: BuildHasher + Drop>(
    alloc: Global,
    hasher: H,
    input: &[u8],
    setting: &Setting,
) -> Outcome
    ensures { IsLaidOut input.now setting.now.catalog setting.now.limits
        result.ending result.text.items }
{
    match lay_out(alloc, hasher, input, &setting.catalog, setting.limits) {
        Ok(written) => with_text(written),
        Err(fault) => without_text(alloc, Ending::Faulted { fault }),
    }
}

fn compared_in(alloc: Global, left: &[u8], right: &[u8], setting: &Setting) -> Outcome
    ensures { IsCompared left.now right.now setting.now.catalog setting.now.limits
        result.ending result.text.items }
{
    match compare(alloc, left, right, &setting.catalog, setting.limits) {
        Ok(verdict) => told(alloc, &verdict),
        Err(fault) => without_text(alloc, Ending::Faulted { fault }),
    }
}

/// How a comparison ends, with the path where the two differ.
fn told(alloc: Global, verdict: &Verdict) -> Outcome
    ensures { EndsVerdict verdict.now result.ending result.text.items
        ⊎ ((result.ending ≡ Faulted Memory) × (result.text.items ≡ [])) }
{
    match verdict {
        Verdict::Equivalent { values } => {
            without_text(alloc, Ending::Accepted { values: *values })
        }
        Verdict::Different { index, path } => match path_text(alloc, path) {
            Ok(text) => Outcome {
                ending: Ending::Different { index: *index },
                text: text.into_bytes(),
            },
            Err(_) => {
                let fault = Fault::Memory;
                without_text(alloc, Ending::Faulted { fault })
            }
        },
        Verdict::Refused { side, refusal } => {
            let whose = whose_side(*side);
            let refusal = *refusal;
            without_text(alloc, Ending::Refused { whose, refusal })
        }
    }
}

/// Whose octets those of a side are.
fn whose_side(side: Side) -> Whose
    ensures { result ≡ whose_side side }
{
    match side {
        Side::Left => Whose::Left,
        Side::Right => Whose::Right,
    }
}

/// How a call ends that wrote this.
fn with_text(written: Written) -> Outcome
    ensures { (result.ending ≡ ending_of written.answer) × (result.text ≡ written.octets) }
{
    Outcome {
        ending: Ending::of(written.answer),
        text: written.octets,
    }
}

/// An ending without a text.
fn without_text(alloc: Global, ending: Ending) -> Outcome
    ensures { (result.ending ≡ ending) × (result.text.items ≡ []) }
{
    Outcome {
        ending,
        text: Vec::new(alloc),
    }
}
