//! Whole Ion documents in memory, for C and for every language that calls C: check, show, compare,
//! convert and lay out.
//!
//! Each call is given octets, tells what it found by an `Answer`, and returns the status, which is
//! the command's: 0 accepted or equivalent, 1 different, 2 refused, 3 wrong limits, 4 a fault.
//! Texts go into a buffer of the caller's, whole or not at all; `Answer::length` tells how long
//! they are either way. `bindings/pureefjord.h` declares the calls.
#![tactic(auto)]

mod answer;
mod buffers;
mod pairs;
mod seeded;

ghost use Rattle.std.specs.Prelude.{◌≡◌, ◌<◌, ◌≤◌, ℕ, List, length, drop, min, slice_get, codes, Option};
ghost use Rattle.ion_atoms.specs.Reasons.{reason_number, reason_name};
ghost use Rattle.ion_atoms.specs.declared.refusal.Reason.{Reason as AnyReason};
ghost use Rattle.ion_symtab.specs.declared.target.Target.TheVariants.{Text, Binary};
ghost use Rattle.ion_memory.specs.Outcomes.{IsOutcome, IsChecked, IsShown, IsCompared, IsConverted, IsLaidOut};
ghost use Rattle.ion_c.specs.Telling.{IsAnsweredPair, IsTold, Tells, laid};
ghost use Rattle.ion_c.specs.declared.answer.Answer.{Answer as AnAnswer};
ghost use Rattle.ion_c.specs.declared.pairs.Pair.{Pair as APair};

use crate::answer::tell;
use crate::buffers::lay;
use crate::pairs::compare_each;
use crate::seeded::SeededHasher;
pub use answer::Answer;
use ion_docs::Target;
use ion_memory::{
    Outcome, checked, compared, converted_with_hasher, laid_out, reason_of_number, shown,
};
pub use pairs::Pair;
use std::alloc::Global;

/// What a call is given beside its documents.
#[repr(C)]
#[derive(Clone, Copy, Debug)]
pub struct Options<'a> {
    /// A document of the shared symbol tables that the input may import; no octets for none.
    pub catalog: &'a [u8],
    /// The greatest number of octets of a top-level value, 1 to 2^30.
    pub item: u64,
    /// The greatest depth, 1 to 128.
    pub depth: u32,
    /// The seed of the hash by which `pureefjord_to_binary` and `pureefjord_events` find symbols, in
    /// two words of 64 bits. Texts that are chosen to collide under a seed that is known make that
    /// slow, so it is drawn at random where documents aren't trusted. No answer depends on it.
    pub seed_low: u64,
    pub seed_high: u64,
}

/// How many values a document has, or its refusal.
#[unsafe(no_mangle)]
pub extern "C" fn pureefjord_check(
    alloc: Global,
    input: &[u8],
    options: &Options<'_>,
    answer: &mut Answer,
) -> u32
    ensures { (text : List ℕ) × IsTold options.now (IsChecked input.now) text answer.new result }
{
    let outcome = checked(alloc, input, options.catalog, options.depth, options.item);
    tell(&outcome, answer)
}

/// A line for each value of a document, `INDEX KIND depth DEPTH nodes NODES`, and after them
/// `accepted VALUES`.
#[unsafe(no_mangle)]
pub extern "C" fn pureefjord_show(
    alloc: Global,
    input: &[u8],
    options: &Options<'_>,
    buffer: &mut [u8],
    answer: &mut Answer,
) -> u32
    ensures { (text : List ℕ) × IsTold options.now (IsShown input.now) text answer.new result
        × (buffer.new ≡ laid text buffer.old) }
{
    let outcome = shown(alloc, input, options.catalog, options.depth, options.item);
    tell_whole(&outcome, buffer, answer)
}

/// Whether two documents have equivalent streams, and else where they part: the number of the
/// value, and in the buffer the path within it.
#[unsafe(no_mangle)]
pub extern "C" fn pureefjord_compare(
    alloc: Global,
    left: &[u8],
    right: &[u8],
    options: &Options<'_>,
    buffer: &mut [u8],
    answer: &mut Answer,
) -> u32
    ensures { (text : List ℕ) × IsTold options.now (IsCompared left.now right.now) text answer.new result
        × (buffer.new ≡ laid text buffer.old) }
{
    let (catalog, depth, item) = (options.catalog, options.depth, options.item);
    let outcome = compared(alloc, left, right, catalog, depth, item);
    tell_whole(&outcome, buffer, answer)
}

/// Compares as many of the pairs as there is room for answers, under one catalog, and answers how
/// many. The path of a difference isn't told, but its length is.
#[unsafe(no_mangle)]
pub extern "C" fn pureefjord_compare_each(
    alloc: Global,
    pairs: &[Pair<'_>],
    options: &Options<'_>,
    answers: &mut [Answer],
) -> usize
    ensures count { result ≡ min (length pairs.now) (length answers.old) }
    ensures each { (i : ℕ) (pair : APair) (answer : AnAnswer) → i < result →
        slice_get pairs.now i ≡ Option.Some pair → slice_get answers.new i ≡ Option.Some answer →
        IsAnsweredPair options.now.catalog.now options.now.depth options.now.item pair answer }
    ensures others { drop result answers.new ≡ drop result answers.old }
{
    let (catalog, depth, item) = (options.catalog, options.depth, options.item);
    compare_each(alloc, pairs, catalog, depth, item, answers)
}

/// A text document of the same stream.
#[unsafe(no_mangle)]
pub extern "C" fn pureefjord_to_text(
    alloc: Global,
    input: &[u8],
    options: &Options<'_>,
    buffer: &mut [u8],
    answer: &mut Answer,
) -> u32
    ensures { (text : List ℕ) × IsTold options.now (IsConverted Text input.now) text answer.new result
        × (buffer.new ≡ laid text buffer.old) }
{
    let outcome = converted_by(alloc, input, Target::Text, options);
    tell_whole(&outcome, buffer, answer)
}

/// A binary document of the same stream.
#[unsafe(no_mangle)]
pub extern "C" fn pureefjord_to_binary(
    alloc: Global,
    input: &[u8],
    options: &Options<'_>,
    buffer: &mut [u8],
    answer: &mut Answer,
) -> u32
    ensures { (text : List ℕ) × IsTold options.now (IsConverted Binary input.now) text answer.new result
        × (buffer.new ≡ laid text buffer.old) }
{
    let outcome = converted_by(alloc, input, Target::Binary, options);
    tell_whole(&outcome, buffer, answer)
}

/// The layout of the values of a document (docs/EVENTS.md), which is the layout of no other stream;
/// on a refusal, that of the values before it.
#[unsafe(no_mangle)]
pub extern "C" fn pureefjord_events(
    alloc: Global,
    input: &[u8],
    options: &Options<'_>,
    buffer: &mut [u8],
    answer: &mut Answer,
) -> u32
    ensures { (text : List ℕ) × IsTold options.now (IsLaidOut input.now) text answer.new result
        × (buffer.new ≡ laid text buffer.old) }
{
    let hasher = SeededHasher::new(options.seed_low, options.seed_high);
    let (catalog, depth, item) = (options.catalog, options.depth, options.item);
    let outcome = laid_out(alloc, hasher, input, catalog, depth, item);
    tell_whole(&outcome, buffer, answer)
}

/// Tells an outcome, and lays its text into the buffer.
fn tell_whole(outcome: &Outcome, buffer: &mut [u8], answer: &mut Answer) -> u32
    ensures told { Tells outcome.now.ending outcome.now.text.items answer.new }
    ensures status { result ≡ answer.new.status }
    ensures text { buffer.new ≡ laid outcome.now.text.items buffer.old }
{
    lay(outcome.text.as_slice(), buffer);
    tell(outcome, answer)
}

/// A document of the same stream, with the hasher of the seed that is asked for.
fn converted_by(alloc: Global, input: &[u8], target: Target, options: &Options<'_>) -> Outcome
    ensures { IsOutcome options.now.catalog.now options.now.depth options.now.item
        (IsConverted target input.now) result.ending result.text.items }
{
    let hasher = SeededHasher::new(options.seed_low, options.seed_high);
    let (catalog, depth, item) = (options.catalog, options.depth, options.item);
    converted_with_hasher(alloc, hasher, input, target, catalog, depth, item)
}

/// The name of the reason of this number into the buffer, whole or not at all, and how long it is;
/// 0 where no reason has the number.
#[unsafe(no_mangle)]
pub extern "C" fn pureefjord_reason_name(number: u32, buffer: &mut [u8]) -> usize
    ensures named { 1 ≤ number → number ≤ 22 → (reason : AnyReason)
        × (reason_number reason ≡ number)
        × (buffer.new ≡ laid (reason_name reason) buffer.old)
        × (result ≡ length (reason_name reason)) }
    ensures none { (1 ≤ number → number ≤ 22 → ⊥) → (result ≡ 0) × (buffer.new ≡ buffer.old) }
{
    match reason_of_number(number) {
        Some(reason) => {
            let name = reason.name().as_bytes();
            lay(name, buffer);
            name.len()
        }
        None => 0,
    }
}

/// The version of this library into the buffer, whole or not at all, and how long it is.
#[unsafe(no_mangle)]
pub extern "C" fn pureefjord_version(buffer: &mut [u8]) -> usize
    ensures { (buffer.new ≡ laid (codes "0.1.0") buffer.old) × (result ≡ 5) }
{
    let version = VERSION.as_bytes();
    lay(version, buffer);
    version.len()
}

const VERSION: &str = "0.1.0";
