//! A document on a device: its octets are read in pieces, and a reader takes them up.
ghost use Rattle.std.specs.Prelude.{◌≡◌, ◌≢◌, ℕ, ◌+◌, ◌-◌, ◌*◌, ◌^◌, ◌<◌, ◌≤◌, ◌⊎◌, ◌==◌, true, false, List, [], ◌∷◌, ◌++◌, length, take, drop, IfOk, IfErr, OnOk, OnErr, IfSome, MatchBool, Option, Result, IsSome, IsNone, option_map, option_to_list, is_err};
ghost use Rattle.ion_streams.specs.Names.{AskedWhile, Catalog, EndsRefused, GaveNext, GaveSoFar, HandedOn, HasToAsk, Heard, IfClosed, IfOpen, IsOpen, IsReadCause, IsReady, IsWithin, Limits, MatchClosed, NoReadFailed, NoneFailed, Reads, ReadsEach, Refills, Stood, StoodEach, Value, Went, WereMade, answered, between, format_of, left_of, reads_of, work, work_of};
ghost use Rattle.ion_atoms.specs.declared.refusal.Reason.TheVariants as reasons;
ghost use Rattle.ion_streams.specs.Outcomes.{EndsWell};
ghost use Rattle.ion_streams.specs.reading.Reached.{IfEnd, IfValue, IsSpent, Reaches};

use ion_model::{Reason, Refusal, Value};
use ion_symtab::{Failed, Fault, Inlet, Items};
use std::alloc::Global;
use std::mem;

mod walking;

/// At most so many octets are read from a device in one call.
const PIECE: usize = 4096;

/// A document that is being read.
#[derive(Drop)]
pub struct PieceReader<I> {
    /// What takes the octets up.
    items: I,
    /// Octets read from the device; those from `at` up to `end` are still to be used.
    piece: Vec<u8>,
    at: usize,
    end: usize,
    /// How often the device may still be asked.
    reads: u64,
    /// How many octets of all pieces are used.
    used: u64,
    /// Whether the device has answered its end.
    ended: bool,
}

/// Reads a piece behind so many octets: how many it has.
fn read_behind<R: Inlet>(reader: &mut R, octets: &mut Vec<u8>, end: usize) -> Result<usize, Failed>
    requires room { end + 4096 ≤ length octets.old.items }
    ensures length { length octets.new.items ≡ length octets.old.items }
    ensures few { IfOk result (λ count. count ≤ 4096) }
    ensures joined { IfOk result (λ count. (more : List ℕ)
        × ((count ≡ 0 → more ≡ [])
        × Heard R.Inlet reader.old reader.new more (count == 0)
        × ((at : ℕ) → at ≤ end → between octets.new.items at (end + count)
        ≡ between octets.old.items at end ++ more))) }
    ensures kept { OnErr result (Heard R.Inlet reader.old reader.new [] false) }
    ensures few_calls { R.calls_made reader.new ≤ R.calls_made reader.old + 1 }
    ensures asked { IfOk result (λ count. 0 < count → (first : R) (made : ℕ) →
        WereMade R.Inlet made first reader.old → WereMade R.Inlet (made + 1) first reader.new) }
    ensures few_octets { length (R.handed reader.new) ≤ length (R.handed reader.old) + 4096 }
    ensures failed { R.has_failed reader.new ≡ is_err result }
{
    let count = reader.read(&mut octets[end..end + PIECE])?;
    Ok(count)
}

impl<I: Items + Drop> PieceReader<I> {
    /// A document of which nothing is read yet, whose device may be asked `reads` times. `Memory`,
    /// and no other fault, where a growth was refused.
    pub fn new(alloc: Global, items: I, reads: u64) -> Result<PieceReader<I>, Fault>
        ensures items { IfOk result (λ source. source.items ≡ items) }
        ensures nothing { IfOk result (λ source.
            (source.at ≡ 0) × (source.end ≡ 0) × (source.used ≡ 0)) }
        ensures piece { IfOk result (λ source. length source.piece.items ≡ 4096) }
        ensures reads { IfOk result (λ source. source.reads ≡ reads) }
        ensures unended { IfOk result (λ source. source.ended ≡ false) }
        ensures cause { IfErr result (λ fault. fault ≡ Fault.Memory) }
    {
        let piece = vec![in alloc; 0; PIECE]?;
        Ok(PieceReader {
            items,
            piece,
            at: 0,
            end: 0,
            reads,
            used: 0,
            ended: false,
        })
    }

    /// Takes up octets of the piece, up to the next value or to the piece's end: that value.
    #[inline(always)]
    fn take(&mut self) -> Result<Option<Value>, Refusal>
        requires { IsReady I.Items self.old }
        ensures gives { IfOk result (λ found. (u : List ℕ) (given : List (Value × ℕ)) →
            I.stands self.old.items u given →
            Went I.Items u given (left_of self.old) self.new found) }
        ensures refuses { IfErr result (λ refusal. refusal.reason ≢ reasons.Memory →
            (u : List ℕ) (given : List (Value × ℕ)) → I.stands self.old.items u given
            → (more : List ℕ) →
            EndsRefused (format_of I.Items (I.catalog self.old.items) (I.limits self.old.items))
            ((u ++ left_of self.old) ++ more) given refusal) }
        ensures ready { IfOk result (λ found. IsReady I.Items self.new) }
        ensures all { IfOk result (λ found. found ≡ Option.None → self.new.at ≡ self.new.end) }
        ensures nothing { IfOk result (λ found. HasToAsk I.Items self.old → found ≡ Option.None) }
        ensures none_refused { IfErr result (λ refusal. refusal.reason ≢ reasons.Memory →
            HasToAsk I.Items self.old → ⊥) }
        ensures pending { IfOk result (λ found. work I.Items self.new ≤ work I.Items self.old) }
        ensures less { IfOk result (λ found. IsSome found →
            work I.Items self.new < work I.Items self.old) }
        ensures catalog { I.catalog self.new.items ≡ I.catalog self.old.items }
        ensures limits { I.limits self.new.items ≡ I.limits self.old.items }
        ensures reads { self.new.reads ≡ self.old.reads }
        ensures ended { self.new.ended ≡ self.old.ended }
    {
        match self.items.step(&self.piece[self.at..self.end]) {
            Err(refusal) => Err(refusal),
            Ok(step) => {
                self.at += step.used;
                self.used += step.used as u64;
                Ok(step.value)
            }
        }
    }

    /// Reads more octets behind those that are left, or notes that the device answered its end.
    /// `Read`, and no other fault, where the device failed.
    fn fill<R: Inlet>(&mut self, reader: &mut R) -> Result<(), Fault>
        requires reads { 0 < self.old.reads }
        requires within { self.old.at ≤ self.old.end }
        requires fits { self.old.end + 4096 ≤ length self.old.piece.items }
        requires going { self.old.ended ≡ false }
        ensures piece { length self.new.piece.items ≡ length self.old.piece.items }
        ensures heard { OnOk result ((more : List ℕ)
            × Heard R.Inlet reader.old reader.new more self.new.ended
            × (left_of self.new ≡ left_of self.old ++ more)) }
        ensures within { (self.new.at ≤ self.new.end) × (self.new.end ≤ self.old.end + 4096) }
        ensures at { self.new.at ≡ self.old.at }
        ensures ends { OnOk result
            (self.new.ended ≡ true → left_of self.new ≡ left_of self.old) }
        ensures items { self.new.items ≡ self.old.items }
        ensures used { self.new.used ≡ self.old.used }
        ensures reads { self.new.reads + 1 ≡ self.old.reads }
        ensures asked { OnOk result (self.new.ended ≡ false → (first : R) (made : ℕ) →
            WereMade R.Inlet made first reader.old → WereMade R.Inlet (made + 1) first reader.new) }
        ensures kept { OnErr result (Heard R.Inlet reader.old reader.new [] false) }
        ensures grew { HandedOn R.Inlet reader.old reader.new }
        ensures few_calls { R.calls_made reader.new ≤ R.calls_made reader.old + 1 }
        ensures few_octets { length (R.handed reader.new) ≤ length (R.handed reader.old) + 4096 }
        ensures no_read_failed { OnOk result (R.has_failed reader.new ≡ false) }
        ensures cause { IfErr result (λ fault. (fault ≡ Fault.Read)
            × (R.has_failed reader.new ≡ true)) }
    {
        self.reads -= 1;
        match read_behind(reader, &mut self.piece, self.end) {
            Err(_) => Err(Fault::Read),
            Ok(0) => {
                self.ended = true;
                Ok(())
            }
            Ok(count) => {
                self.end += count;
                Ok(())
            }
        }
    }

    /// Reads another piece where this one is used up; answers whether the device had more octets,
    /// or else answered its end.
    ///
    /// Faults are `Read` and `TooManyReads`.
    fn refill<R: Inlet>(&mut self, reader: &mut R) -> Result<bool, Fault>
        requires ready { IsReady I.Items self.old }
        requires used_up { self.old.at ≡ self.old.end }
        ensures ready { IfOk result (λ more. more ≡ true → IsReady I.Items self.new) }
        ensures less { IfOk result (λ more. more ≡ true
            → work I.Items self.new ≤ work I.Items self.old) }
        ensures fewer { IfOk result (λ more. more ≡ true → self.new.reads < self.old.reads) }
        ensures within { IfOk result (λ more. more ≡ true → (first : R) (reads : ℕ) →
            IsWithin R.Inlet reads first reader.old self.old →
            IsWithin R.Inlet reads first reader.new self.new) }
        ensures refills { OnOk result (Refills R.Inlet reader.old reader.new self.old self.new) }
        ensures ended { IfOk result (λ more. more ≡ false → self.new.ended ≡ true) }
        ensures spent { IfOk result (λ more. more ≡ false → IsSpent I.Items self.new) }
        ensures grew { HandedOn R.Inlet reader.old reader.new }
        ensures once { R.calls_made reader.new ≤ R.calls_made reader.old + 1 }
        ensures one_piece { length (R.handed reader.new) ≤ length (R.handed reader.old) + 4096 }
        ensures few_calls { R.calls_made reader.new + self.new.reads
            ≤ R.calls_made reader.old + self.old.reads }
        ensures few_octets { length (R.handed reader.new) + 4096 * self.new.reads
            ≤ length (R.handed reader.old) + 4096 * self.old.reads }
        ensures heard { IfOk result (λ more. more ≡ true → R.has_failed reader.new ≡ false) }
        ensures no_read_failed { OnOk result ((R.has_failed reader.new ≡ false)
            ⊎ ((reader.new ≡ reader.old) × (self.old.ended ≡ true))) }
        ensures cause { IfErr result (λ fault. (first : R) (reads : ℕ) →
            IsWithin R.Inlet reads first reader.old self.old →
            IsReadCause R.Inlet reads first reader.new fault) }
        ensures kept { OnErr result ((self.old.ended ≡ false)
            × Heard R.Inlet reader.old reader.new [] false) }
    {
        if self.ended {
            return Ok(false);
        }
        if self.reads == 0 {
            return Err(Fault::TooManyReads);
        }
        self.at = 0;
        self.end = 0;
        self.fill(reader)?;
        Ok(!self.ended)
    }

    /// Reads on up to the next value or to the end. The device is asked only where all octets that
    /// it handed over are used and gave no further value.
    ///
    /// Faults are `Memory`, `Read` and `TooManyReads`.
    #[inline(always)]
    fn read_on<R: Inlet>(&mut self, reader: &mut R) -> Result<Reached<Value>, Fault>
        requires { IsReady I.Items self.old }
        ensures gives { IfOk result (λ reached.
            (g : Catalog) (l : Limits) (first : R) (given : List (Value × ℕ)) →
            ReadsEach R.Inlet I.Items g l first reader.old self.old given →
            Reaches R.Inlet I.Items g l first reader.new self.new given reached) }
        ensures ready { IfOk result (λ reached. IfValue reached (IsReady I.Items self.new)) }
        ensures less { IfOk result (λ reached. IfValue reached
            (work I.Items self.new < work I.Items self.old)) }
        ensures within { IfOk result (λ reached. IfValue reached ((first : R) (reads : ℕ) →
            IsWithin R.Inlet reads first reader.old self.old →
            IsWithin R.Inlet reads first reader.new self.new)) }
        ensures ended { IfOk result (λ reached. IfEnd reached (IsSpent I.Items self.new)) }
        ensures few_calls { R.calls_made reader.new + self.new.reads
            ≤ R.calls_made reader.old + self.old.reads }
        ensures few_octets { length (R.handed reader.new) + 4096 * self.new.reads
            ≤ length (R.handed reader.old) + 4096 * self.old.reads }
        ensures unasked { OnOk result (NoReadFailed R.Inlet reader.old reader.new) }
        ensures no_read_failed { OnOk result (NoneFailed R.Inlet I.Items reader.old self.old →
            R.has_failed reader.new ≡ false) }
        ensures cause { IfErr result (λ fault. (first : R) (reads : ℕ) →
            IsWithin R.Inlet reads first reader.old self.old →
            IsReadCause R.Inlet reads first reader.new fault) }
        ensures kept { OnErr result ((g : Catalog) (l : Limits) (first : R) (s : List Value) →
            Reads R.Inlet I.Items g l first reader.old self.old s →
            GaveSoFar R.Inlet I.Items g l first reader.new s) }
        ensures sought { (g : Catalog) (l : Limits) (first : R) (given : List (Value × ℕ)) →
            ReadsEach R.Inlet I.Items g l first reader.old self.old given →
            AskedWhile R.Inlet (format_of I.Items g l) first reader.old reader.new
            (λ before. before ≡ given) }
    {
        loop {
            match self.take() {
                Err(
                    Refusal {
                        reason: Reason::Memory,
                        ..
                    },
                ) => return Err(Fault::Memory),
                Err(refusal) => return Ok(Reached::Refused(refusal)),
                Ok(Some(found)) => return Ok(Reached::Value(found)),
                Ok(None) => {}
            }
            if !self.refill(reader)? {
                return Ok(Reached::End);
            }
        }
    }
}

/// What is reached in a document that is read on.
enum Reached<A> {
    /// The next value, or that a visitor was told it.
    Value(A),
    /// The end that the device answered; all octets before it are used.
    End,
    /// What shows that the document is none.
    Refused(Refusal),
}

/// Where a document stands.
#[derive(Drop)]
pub enum ReadState<I> {
    /// It can be read on.
    Open(PieceReader<I>),
    /// It was a document, and the device has answered its end; or reading it ended at a fault.
    Ended,
    /// It is no document.
    Refused(Refusal),
}

impl<I: Drop> ReadState<I> {
    /// Whether the document can be read on.
    pub fn is_open(&self) -> bool
        ensures { MatchBool result (IsOpen self.now) (IfOpen self.now (λ source. ⊥)) }
    {
        match self {
            ReadState::Open(_) => true,
            ReadState::Ended => false,
            ReadState::Refused(_) => false,
        }
    }

    /// This answer; or the refusal, where the document is none.
    pub fn answer<T: Drop>(self, answer: T) -> Result<T, Refusal>
        ensures { result ≡ answered self answer }
    {
        match self {
            ReadState::Refused(refusal) => Err(refusal),
            _ => Ok(answer),
        }
    }

    /// It is no document.
    #[inline(never)]
    fn refuse(&mut self, refusal: Refusal)
        ensures { self.new ≡ ReadState.Refused refusal }
    {
        *self = ReadState::Refused(refusal);
    }

    /// It isn't read on behind a fault.
    #[inline(never)]
    fn give_up(&mut self)
        ensures { self.new ≡ ReadState.Ended }
    {
        *self = ReadState::Ended;
    }
}

impl<I: Items + Drop> ReadState<I> {
    /// Reads on up to the next value, or to the end, where the document is open; else it stays
    /// where it stands. The value, with the number of octets used when it came. Without a value the
    /// document isn't open any more.
    ///
    /// Faults are `Memory`, `Read` and `TooManyReads`.
    #[inline(always)]
    pub fn advance<R: Inlet>(&mut self, reader: &mut R) -> Result<Option<(Value, u64)>, Fault>
        requires { IfOpen self.old (IsReady I.Items) }
        ensures gives { IfOk result (λ found.
            (g : Catalog) (l : Limits) (first : R) (given : List (Value × ℕ)) →
            StoodEach R.Inlet I.Items g l first reader.old self.old given →
            GaveNext R.Inlet I.Items g l first reader.new self.new given found) }
        ensures none { IfOk result (λ found. found ≡ Option.None → IfOpen self.new (λ after. ⊥)) }
        ensures ready { IfOpen self.new (IsReady I.Items) }
        ensures less { IfOk result (λ found. IsSome found →
            work_of I.Items self.new < work_of I.Items self.old) }
        ensures spends { IfOpen self.old (λ source.
            work_of I.Items self.new < work_of I.Items self.old) }
        ensures no_more { work_of I.Items self.new ≤ work_of I.Items self.old }
        ensures closed { IfClosed self.old ((result ≡ Result.Ok Option.None)
            × (reader.new ≡ reader.old) × (self.new ≡ self.old)) }
        ensures within { IfOk result (λ found. (first : R) (reads : ℕ) →
            IfOpen self.old (IsWithin R.Inlet reads first reader.old) →
            IfOpen self.new (IsWithin R.Inlet reads first reader.new)) }
        ensures few_calls { R.calls_made reader.new + reads_of self.new
            ≤ R.calls_made reader.old + reads_of self.old }
        ensures few_octets { length (R.handed reader.new) + 4096 * reads_of self.new
            ≤ length (R.handed reader.old) + 4096 * reads_of self.old }
        ensures unasked { OnOk result (NoReadFailed R.Inlet reader.old reader.new) }
        ensures no_read_failed { OnOk result (IfOpen self.old (λ source.
            NoneFailed R.Inlet I.Items reader.old source → R.has_failed reader.new ≡ false)) }
        ensures cause { IfErr result (λ fault. (first : R) (reads : ℕ) →
            IfOpen self.old (IsWithin R.Inlet reads first reader.old) →
            IsReadCause R.Inlet reads first reader.new fault) }
        ensures kept { OnErr result ((g : Catalog) (l : Limits) (first : R) (s : List Value) →
            Stood R.Inlet I.Items g l first reader.old self.old s →
            GaveSoFar R.Inlet I.Items g l first reader.new s) }
        ensures sought { (g : Catalog) (l : Limits) (first : R) (given : List (Value × ℕ)) →
            StoodEach R.Inlet I.Items g l first reader.old self.old given →
            AskedWhile R.Inlet (format_of I.Items g l) first reader.old reader.new
            (λ before. before ≡ given) }
    {
        match self {
            ReadState::Open(source) => match source.read_on(reader) {
                Ok(Reached::Value(found)) => Ok(Some((found, source.used))),
                Ok(Reached::Refused(refusal)) => {
                    self.refuse(refusal);
                    Ok(None)
                }
                Ok(Reached::End) => self.close(),
                Err(fault) => {
                    self.give_up();
                    Err(fault)
                }
            },
            ReadState::Ended => Ok(None),
            ReadState::Refused(_) => Ok(None),
        }
    }

    /// Closes a document whose octets were all used: it stands where `last` says, and gives what
    /// that gives. At a fault, which is `Memory`, it is closed, too.
    #[inline(never)]
    fn close(&mut self) -> Result<Option<(Value, u64)>, Fault>
        requires { IfOpen self.old (IsSpent I.Items) }
        ensures ends { IfOk result (λ found. IfOpen self.old (λ source.
            (u : List ℕ) (given : List (Value × ℕ)) → I.stands source.items u given →
            MatchClosed self.new
            (EndsWell (format_of I.Items (I.catalog source.items) (I.limits source.items)) u
            (given ++ option_to_list found))
            (λ refusal. (found ≡ Option.None) × EndsRefused
            (format_of I.Items (I.catalog source.items) (I.limits source.items))
            u given refusal))) }
        ensures closed { IfOpen self.new (λ source. ⊥) }
        ensures cause { IfErr result (λ fault. fault ≡ Fault.Memory) }
    {
        match mem::replace(self, ReadState::Ended) {
            ReadState::Open(source) => {
                let (place, found) = last(source)?;
                *self = place;
                Ok(found)
            }
            closed => {
                *self = closed;
                Ok(None)
            }
        }
    }
}

/// What the end of a document gives; a value comes with the number of all its octets.
fn last<I: Items + Drop>(
    source: PieceReader<I>,
) -> Result<(ReadState<I>, Option<(Value, u64)>), Fault>
    requires awaited { IsNone (I.awaits source.items) }
    requires counted { I.taken source.items ≡ source.used }
    ensures ends { IfOk result (λ next. (u : List ℕ) (given : List (Value × ℕ)) →
        I.stands source.items u given → MatchClosed next.0
        (EndsWell (format_of I.Items (I.catalog source.items) (I.limits source.items)) u
        (given ++ option_to_list next.1))
        (λ refusal. (next.1 ≡ Option.None) × EndsRefused
        (format_of I.Items (I.catalog source.items) (I.limits source.items)) u given refusal)) }
    ensures closed { IfOk result (λ next. IfOpen next.0 (λ source. ⊥)) }
    ensures cause { IfErr result (λ fault. fault ≡ Fault.Memory) }
{
    let used = source.used;
    match source.items.finish() {
        Ok(None) => Ok((ReadState::Ended, None)),
        Ok(Some(value)) => Ok((ReadState::Ended, Some((value, used)))),
        Err(
            Refusal {
                reason: Reason::Memory,
                ..
            },
        ) => Err(Fault::Memory),
        Err(refusal) => Ok((ReadState::Refused(refusal), None)),
    }
}
