//! Many comparisons in one call.
ghost use Rattle.std.specs.Prelude.{◌≡◌, ◌<◌, ℕ, drop, min, length, slice_get, Option};
ghost use Rattle.ion_c.specs.Telling.{IsAnsweredPair};
ghost use Rattle.ion_c.specs.declared.answer.Answer.{Answer as AnAnswer};
ghost use Rattle.ion_c.specs.declared.pairs.Pair.{Pair as APair};

use crate::answer::{Answer, answer_of};
use ion_memory::{compared_under, set_up};
use std::alloc::Global;

/// Two documents.
#[repr(C)]
#[derive(Clone, Copy, Debug)]
pub struct Pair<'a> {
    /// The left one.
    pub left: &'a [u8],
    /// The right one.
    pub right: &'a [u8],
}

/// Compares as many of the pairs as there is room for answers, under one catalog, and answers how
/// many. The path of a difference isn't told, but its length is.
pub fn compare_each(
    alloc: Global,
    pairs: &[Pair<'_>],
    catalog: &[u8],
    depth: u32,
    item: u64,
    answers: &mut [Answer],
) -> usize
    ensures count { result ≡ min (length pairs.now) (length answers.old) }
    ensures each { (i : ℕ) (pair : APair) (answer : AnAnswer) → i < result →
        slice_get pairs.now i ≡ Option.Some pair → slice_get answers.new i ≡ Option.Some answer →
        IsAnsweredPair catalog.now depth item pair answer }
    ensures others { drop result answers.new ≡ drop result answers.old }
{
    let setting = set_up(alloc, catalog, depth, item);
    let count = pairs.len().min(answers.len());
    for i in 0..count {
        let pair = pairs[i];
        let outcome = compared_under(alloc, pair.left, pair.right, &setting);
        answers[i] = answer_of(&outcome);
    }
    count
}
