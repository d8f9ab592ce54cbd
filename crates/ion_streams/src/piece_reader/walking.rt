//! Documents that are read by walks, which build no values: a visitor is told them.
ghost use Rattle.std.specs.Prelude.{◌≡◌, ◌≢◌, ℕ, ◌+◌, ◌*◌, ◌≤◌, ◌<◌, true, false, List, [], ◌++◌, length, IfOk, IfErr, OnOk, OnErr, Option, IsSome, IsNone, Result};
ghost use Rattle.ion_streams.specs.Names.{Catalog, EndsBy, EndsRefused, Event, GaveSoFar, HandedOn, HasToAsk, IfClosed, IfOpen, IsReadCause, IsReady, IsWithin, Limits, NoReadFailed, NoneFailed, ReachesBy, Reads, ReadsEach, Sought, Stood, StoodEach, ToldNext, Value, WentBy, format_of, left_of, reads_of, telling, work, work_of};
ghost use Rattle.ion_atoms.specs.declared.refusal.Reason.TheVariants as reasons;
ghost use Rattle.ion_streams.specs.reading.Reached.{IfEnd, IfValue, IsSpent};

use super::{PieceReader, Reached, ReadState};
use ion_model::{Reason, Refusal};
use ion_symtab::{Fault, Inlet, Items};
use ion_visiting::Visitor;
use std::mem;

impl<I: Items + Drop> PieceReader<I> {
    /// Takes up octets of the piece, up to the end of the next value or to the piece's end, and
    /// tells them: whether a value ended.
    #[inline(always)]
    fn take_by<V: Visitor>(&mut self, visitor: &mut V) -> Result<bool, Refusal>
        requires { IsReady I.Items self.old }
        ensures tells { IfOk result (λ ended.
            (u : List ℕ) (given : List (Value × ℕ)) (es : List Event) →
            I.told self.old.items u given es → WentBy V.takes I.Items u given es
            (left_of self.old) self.new ended visitor.old visitor.new) }
        ensures refuses { IfErr result (λ refusal. refusal.reason ≢ reasons.Memory →
            (u : List ℕ) (given : List (Value × ℕ)) (es : List Event) →
            I.told self.old.items u given es → (more : List ℕ) →
            EndsRefused (format_of I.Items (I.catalog self.old.items) (I.limits self.old.items))
            ((u ++ left_of self.old) ++ more) given refusal) }
        ensures ready { IfOk result (λ ended. IsReady I.Items self.new) }
        ensures all { IfOk result (λ ended. ended ≡ false → self.new.at ≡ self.new.end) }
        ensures nothing { IfOk result (λ ended. HasToAsk I.Items self.old → ended ≡ false) }
        ensures none_refused { IfErr result (λ refusal. refusal.reason ≢ reasons.Memory →
            HasToAsk I.Items self.old → ⊥) }
        ensures pending { IfOk result (λ ended. work I.Items self.new ≤ work I.Items self.old) }
        ensures less { IfOk result (λ ended. ended ≡ true →
            work I.Items self.new < work I.Items self.old) }
        ensures catalog { I.catalog self.new.items ≡ I.catalog self.old.items }
        ensures limits { I.limits self.new.items ≡ I.limits self.old.items }
        ensures reads { self.new.reads ≡ self.old.reads }
        ensures ended { self.new.ended ≡ self.old.ended }
    {
        match self.items.walk(&self.piece[self.at..self.end], visitor) {
            Err(refusal) => Err(refusal),
            Ok(walked) => {
                self.at += walked.used;
                self.used += walked.used as u64;
                Ok(walked.ended)
            }
        }
    }

    /// Reads on up to the end of the next value, which a visitor is told, or to the end of the
    /// document. The device is asked only where all octets that it handed over are used and ended
    /// no further value.
    ///
    /// Faults are `Memory`, `Read` and `TooManyReads`. At a fault the visitor's state means
    /// nothing.
    #[inline(always)]
    pub(super) fn read_on_by<V: Visitor, R: Inlet>(
        &mut self,
        reader: &mut R,
        visitor: &mut V,
    ) -> Result<Reached<()>, Fault>
        requires { IsReady I.Items self.old }
        ensures tells { IfOk result (λ reached. (g : Catalog) (l : Limits) (first : R)
            (given : List (Value × ℕ)) (es : List Event) →
            ReadsEach R.Inlet (telling I.Items es) g l first reader.old self.old given →
            ReachesBy V.takes I.Items R.Inlet g l first reader.new self.new given es reached
            visitor.old visitor.new) }
        ensures ready { IfOk result (λ reached. IfValue reached (IsReady I.Items self.new)) }
        ensures less { IfOk result (λ reached. IfValue reached
            (work I.Items self.new < work I.Items self.old)) }
        ensures within { IfOk result (λ reached. IfValue reached ((first : R) (reads : ℕ) →
            IsWithin R.Inlet reads first reader.old self.old →
            IsWithin R.Inlet reads first reader.new self.new)) }
        ensures ended { IfOk result (λ reached. IfEnd reached (IsSpent I.Items self.new)) }
        ensures sought { (g : Catalog) (l : Limits) (first : R) (s : List Value)
            (es : List Event) →
            Reads R.Inlet (telling I.Items es) g l first reader.old self.old s →
            Sought R.Inlet (format_of I.Items g l) first reader.old reader.new (length s) }
        ensures grew { HandedOn R.Inlet reader.old reader.new }
        ensures few_calls { R.calls_made reader.new + self.new.reads
            ≤ R.calls_made reader.old + self.old.reads }
        ensures few_octets { length (R.handed reader.new) + 4096 * self.new.reads
            ≤ length (R.handed reader.old) + 4096 * self.old.reads }
        ensures unasked { OnOk result (NoReadFailed R.Inlet reader.old reader.new) }
        ensures no_read_failed { OnOk result (NoneFailed R.Inlet I.Items reader.old self.old →
            R.has_failed reader.new ≡ false) }
        ensures cause { IfErr result (λ fault. (first : R) (reads : ℕ) →
            IsWithin R.Inlet reads first reader.old self.old →
            IsReadCause R.Inlet reads first reader.new fault) }
        ensures kept { OnErr result ((g : Catalog) (l : Limits) (first : R) (s : List Value)
            (es : List Event) →
            Reads R.Inlet (telling I.Items es) g l first reader.old self.old s →
            (fs : List Event) × GaveSoFar R.Inlet (telling I.Items fs) g l first reader.new s) }
    {
        loop {
            match self.take_by(visitor) {
                Err(
                    Refusal {
                        reason: Reason::Memory,
                        ..
                    },
                ) => return Err(Fault::Memory),
                Err(refusal) => return Ok(Reached::Refused(refusal)),
                Ok(true) => return Ok(Reached::Value(())),
                Ok(false) => {}
            }
            if !self.refill(reader)? {
                return Ok(Reached::End);
            }
        }
    }
}

impl<I: Items + Drop> ReadState<I> {
    /// Reads on up to the end of the next value, or to the end of the document, where it is open;
    /// else it stays where it stands. A visitor is told the value, and the number of octets used
    /// when it ended is answered. Without a value the document isn't open any more.
    ///
    /// Between two calls no value is half told, so that each may have a visitor of its own. Where
    /// the document is refused, or at a fault, the visitor may have been told a part of a value. A
    /// document is read on by this call or by `advance`, not by both.
    ///
    /// Faults are `Memory`, `Read` and `TooManyReads`.
    #[inline(always)]
    pub fn advance_by<V: Visitor, R: Inlet>(
        &mut self,
        reader: &mut R,
        visitor: &mut V,
    ) -> Result<Option<u64>, Fault>
        requires { IfOpen self.old (IsReady I.Items) }
        ensures tells { IfOk result (λ found. (g : Catalog) (l : Limits) (first : R)
            (given : List (Value × ℕ)) →
            StoodEach R.Inlet (telling I.Items []) g l first reader.old self.old given →
            ToldNext V.takes I.Items R.Inlet g l first reader.new self.new given found
            visitor.old visitor.new) }
        ensures none { IfOk result (λ found. found ≡ Option.None → IfOpen self.new (λ after. ⊥)) }
        ensures ready { IfOpen self.new (IsReady I.Items) }
        ensures less { IfOk result (λ found. IsSome found →
            work_of I.Items self.new < work_of I.Items self.old) }
        ensures spends { IfOpen self.old (λ source.
            work_of I.Items self.new < work_of I.Items self.old) }
        ensures no_more { work_of I.Items self.new ≤ work_of I.Items self.old }
        ensures closed { IfClosed self.old ((result ≡ Result.Ok Option.None)
            × (reader.new ≡ reader.old) × (self.new ≡ self.old)) }
        ensures within { IfOk result (λ found. (first : R) (reads : ℕ) →
            IfOpen self.old (IsWithin R.Inlet reads first reader.old) →
            IfOpen self.new (IsWithin R.Inlet reads first reader.new)) }
        ensures few_calls { R.calls_made reader.new + reads_of self.new
            ≤ R.calls_made reader.old + reads_of self.old }
        ensures few_octets { length (R.handed reader.new) + 4096 * reads_of self.new
            ≤ length (R.handed reader.old) + 4096 * reads_of self.old }
        ensures unasked { OnOk result (NoReadFailed R.Inlet reader.old reader.new) }
        ensures no_read_failed { OnOk result (IfOpen self.old (λ source.
            NoneFailed R.Inlet I.Items reader.old source → R.has_failed reader.new ≡ false)) }
        ensures cause { IfErr result (λ fault. (first : R) (reads : ℕ) →
            IfOpen self.old (IsWithin R.Inlet reads first reader.old) →
            IsReadCause R.Inlet reads first reader.new fault) }
        ensures kept { OnErr result ((g : Catalog) (l : Limits) (first : R) (s : List Value) →
            Stood R.Inlet (telling I.Items []) g l first reader.old self.old s →
            (fs : List Event) × GaveSoFar R.Inlet (telling I.Items fs) g l first reader.new s) }
        ensures sought { (g : Catalog) (l : Limits) (first : R) (s : List Value) →
            Stood R.Inlet (telling I.Items []) g l first reader.old self.old s →
            Sought R.Inlet (format_of I.Items g l) first reader.old reader.new (length s) }
        ensures grew { HandedOn R.Inlet reader.old reader.new }
    {
        match self {
            ReadState::Open(source) => match source.read_on_by::<V, R>(reader, visitor) {
                Ok(Reached::Value(())) => Ok(Some(source.used)),
                Ok(Reached::Refused(refusal)) => {
                    self.refuse(refusal);
                    Ok(None)
                }
                Ok(Reached::End) => self.end_by::<V>(visitor),
                Err(fault) => {
                    self.give_up();
                    Err(fault)
                }
            },
            ReadState::Ended => Ok(None),
            ReadState::Refused(_) => Ok(None),
        }
    }

    /// Closes a document whose octets were all used: it stands where `last_by` says, and answers
    /// what that gives. At a fault, which is `Memory`, it is closed, too.
    #[inline(never)]
    fn end_by<V: Visitor>(&mut self, visitor: &mut V) -> Result<Option<u64>, Fault>
        requires { IfOpen self.old (IsSpent I.Items) }
        ensures ends { IfOk result (λ found. IfOpen self.old (λ source.
            (u : List ℕ) (given : List (Value × ℕ)) (es : List Event) →
            I.told source.items u given es → EndsBy V.takes
            (format_of I.Items (I.catalog source.items) (I.limits source.items)) u given es
            self.new found visitor.old visitor.new)) }
        ensures closed { IfOpen self.new (λ source. ⊥) }
        ensures cause { IfErr result (λ fault. fault ≡ Fault.Memory) }
    {
        match mem::replace(self, ReadState::Ended) {
            ReadState::Open(source) => {
                let (place, found) = last_by(source, visitor)?;
                *self = place;
                Ok(found)
            }
            closed => {
                *self = closed;
                Ok(None)
            }
        }
    }
}

/// What the end of a document gives: of a value that a visitor was told to its end, the number of
/// all octets.
fn last_by<I: Items + Drop, V: Visitor>(
    source: PieceReader<I>,
    visitor: &mut V,
) -> Result<(ReadState<I>, Option<u64>), Fault>
    requires awaited { IsNone (I.awaits source.items) }
    requires counted { I.taken source.items ≡ source.used }
    ensures ends { IfOk result (λ next.
        (u : List ℕ) (given : List (Value × ℕ)) (es : List Event) →
        I.told source.items u given es → EndsBy V.takes
        (format_of I.Items (I.catalog source.items) (I.limits source.items)) u given es
        next.0 next.1 visitor.old visitor.new) }
    ensures closed { IfOk result (λ next. IfOpen next.0 (λ source. ⊥)) }
    ensures cause { IfErr result (λ fault. fault ≡ Fault.Memory) }
{
    let used = source.used;
    match source.items.finish_by(visitor) {
        Ok(false) => Ok((ReadState::Ended, None)),
        Ok(true) => Ok((ReadState::Ended, Some(used))),
        Err(
            Refusal {
                reason: Reason::Memory,
                ..
            },
        ) => Err(Fault::Memory),
        Err(refusal) => Ok((ReadState::Refused(refusal), None)),
    }
}
