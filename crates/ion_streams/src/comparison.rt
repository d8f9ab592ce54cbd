//! Whether two documents have equivalent streams.
ghost use Rattle.std.specs.Prelude.{◌≡◌, ℕ, ◌+◌, ◌*◌, ◌^◌, ◌<◌, ◌≤◌, ◌⊎◌, List, [], true, false, IfOk, IfErr, OnOk, OnErr, IsSome, MatchResult, Option, Result, is_some, length};
ghost use Rattle.ion_streams.specs.Names.{AreAsked, AreOnTapes, AtOnce, AtOneEnd, Catalog, Event, GaveSoFar, HandedOn, HeldNext, Holds, IfAlike, IfClosed, IfOpen, IsFresh, IsInTurn, IsMet, IsOpen, IsParting, IsReadCause, IsReady, IsWithin, Led, LeftInTurn, Limits, NoReadFailed, NoneFailed, Sought, StandsUnread, Stood, StoodEach, Value, WasTold, count_of, events_of, format_of, fresh, reads_of, same, telling, verdict_of, work_of};
ghost use Rattle.ion_streams.specs.Compared.{IsCompared};

use crate::piece_reader::{PieceReader, ReadState};
use ion_model::{Path, Refusal, Value, parting};
use ion_symtab::{Fault, Inlet, Items};
use ion_visiting::{Building, Count, Following, Tape, Twin, Visitor};
use std::alloc::Global;
use std::mem;

/// Which of two documents that are compared.
#[derive(Clone, Copy, Debug, PartialEq, Eq)]
pub enum Side {
    /// The one named first.
    Left,
    /// The one named second.
    Right,
}

/// The answer of a comparison.
#[derive(Debug, Drop, PartialEq, Eq)]
pub enum Verdict {
    /// The streams are equivalent (Ion 1.0, "The Ion Data Model").
    Equivalent {
        /// How many values each of them has.
        values: u64,
    },
    /// Both are documents, and their streams part.
    Different {
        /// The first value that isn't equivalent, or that only one stream has, counted from 1.
        index: u64,
        /// Where the two values with this number part; empty where only one stream has one.
        path: Path,
    },
    /// One side is no document, and a refused right side stands behind a left one that is.
    Refused {
        /// The side that is none.
        side: Side,
        /// At which of its octets, counted from its first, and why.
        refusal: Refusal,
    },
}

/// How two streams compared so far.
#[derive(Drop)]
enum Course {
    /// So many values of each were the same.
    Alike { values: u64 },
    /// They parted at this value, counted from 1, and within it at this path.
    Parted { index: u64, path: Path },
}

impl Course {
    /// Goes on behind the next value of each, which the tapes were told, or the end of one; `Memory`
    /// where a growth was refused. What is on the tapes isn't needed any more.
    #[inline(always)]
    fn meet(
        &mut self,
        alloc: Global,
        gave: (bool, bool),
        tapes: &mut Twin,
        following: &mut Following,
    ) -> Result<(), Fault>
        requires { count_of self.old + 1 < 2 ^ 64 }
        ensures met { OnOk result ((v w : Option Value) → is_some v ≡ gave.0 → is_some w ≡ gave.1 →
            IfAlike self.old (λ _. AreOnTapes tapes.old v w) → IsMet self.old v w self.new) }
        ensures counted { OnOk result (count_of self.new ≤ count_of self.old + 1) }
        ensures cause { IfErr result (λ fault. fault ≡ Fault.Memory) }
    {
        let Course::Alike { values } = self else {
            return Ok(());
        };
        let index = *values + 1;
        match gave {
            (false, false) => {}
            (true, true) => match parting_on(alloc, tapes, following)? {
                None => *values = index,
                Some(path) => self.part(index, path),
            },
            _ => self.part(index, Path::empty(alloc)),
        }
        Ok(())
    }

    /// From now on both have parted.
    #[inline(never)]
    fn part(&mut self, index: u64, path: Path)
        ensures { self.new ≡ Course.Parted index path }
    {
        drop(mem::replace(self, Course::Parted { index, path }));
    }

    /// The verdict where the left side is a document, and the right one ended so; the path is taken
    /// out.
    fn verdict<J>(&mut self, right: &ReadState<J>) -> Verdict
        ensures { result ≡ verdict_of right.now self.old }
    {
        match right {
            ReadState::Refused(refusal) => Verdict::Refused {
                side: Side::Right,
                refusal: *refusal,
            },
            _ => match mem::replace(self, Course::Alike { values: 0 }) {
                Course::Alike { values } => Verdict::Equivalent { values },
                Course::Parted { index, path } => Verdict::Different { index, path },
            },
        }
    }
}

/// The path to where the two values part that the tapes were told; `None` where they are
/// equivalent. Those that were told the same, as equivalent values mostly are, were compared so.
#[inline(always)]
#[tactic(auto, using(crate::proofs::Taping::parted_on))]
fn parting_on(
    alloc: Global,
    tapes: &mut Twin,
    following: &mut Following,
) -> Result<Option<Path>, Fault>
    ensures { MatchResult result (λ path. (v w : Value) → Holds tapes.old.first v →
        WasTold tapes.old (events_of w) → IsParting path v w) (λ fault. fault ≡ Fault.Memory) }
{
    if are_same(tapes) {
        return Ok(None);
    }
    if !tapes.part_ways() {
        return Err(Fault::Memory);
    }
    parting_apart(alloc, &mut tapes.first, &mut tapes.second, following)
}

/// Whether both values were told the same.
#[inline(always)]
#[tactic(auto, using(crate::proofs::Taping::same_on))]
fn are_same(tapes: &Twin) -> bool
    ensures { result ≡ true → (v w : Value) → Holds tapes.now.first v →
        WasTold tapes.now (events_of w) → same v w ≡ true }
{
    tapes.are_same()
}

/// The path to where the values part that two tapes hold; `None` where they are equivalent. Neither
/// is built where the right one is found on the left tape.
#[inline(never)]
fn parting_apart(
    alloc: Global,
    left: &mut Tape,
    right: &mut Tape,
    following: &mut Following,
) -> Result<Option<Path>, Fault>
    ensures { MatchResult result (λ path. (v w : Value) → Holds left.old v → Holds right.old w →
        IsParting path v w) (λ fault. fault ≡ Fault.Memory) }
{
    if is_found(left, right, following) {
        return Ok(None);
    }
    parting_built(alloc, left, right)
}

/// Whether the value that the right tape holds is found on the left one. It needn't be, where the
/// two are equivalent.
#[inline(always)]
#[tactic(auto, using(crate::proofs::Taping::found_on))]
fn is_found(left: &Tape, right: &Tape, following: &mut Following) -> bool
    ensures { result ≡ true → (v w : Value) → Holds left.now v → Holds right.now w →
        same v w ≡ true }
{
    following.finds(left, right)
}

/// The same of values that are built. Each tape's memory is let go before the next value is built.
#[inline(never)]
fn parting_built(alloc: Global, left: &mut Tape, right: &mut Tape) -> Result<Option<Path>, Fault>
    ensures { MatchResult result (λ path. (v w : Value) → Holds left.old v → Holds right.old w →
        IsParting path v w) (λ fault. fault ≡ Fault.Memory) }
{
    let left = value_on(alloc, left)?;
    let right = match value_on(alloc, right) {
        Ok(right) => right,
        Err(fault) => {
            drop(left);
            return Err(fault);
        }
    };
    let parted = parting(alloc, &left, &right);
    drop(left);
    drop(right);
    parted.map_err(|_| Fault::Memory)
}

/// The value that a tape holds. The tape's memory is let go.
fn value_on(alloc: Global, tape: &mut Tape) -> Result<Value, Fault>
    ensures { MatchResult result (λ value. (v : Value) → Holds tape.old v → value ≡ v)
        (λ fault. fault ≡ Fault.Memory) }
{
    let taken = mem::replace(tape, Tape::new(alloc));
    let mut building = Building::new(alloc);
    let value = build(&taken, &mut building);
    drop(building);
    drop(taken);
    value
}

#[tactic(auto, using(crate::proofs::Taping::built_on))]
fn build(tape: &Tape, building: &mut Building) -> Result<Value, Fault>
    requires { building.old ≡ fresh }
    ensures { MatchResult result (λ value. (v : Value) → Holds tape.now v → value ≡ v)
        (λ fault. fault ≡ Fault.Memory) }
{
    if !tape.tell(building) {
        return Err(Fault::Memory);
    }
    match building.take() {
        Some(value) => Ok(value),
        None => Err(Fault::Memory),
    }
}

/// Whether the next values of both documents are compared: not where the streams parted, and not
/// where one has ended or was refused.
fn compares<I: Drop, J: Drop>(course: &Course, left: &ReadState<I>, right: &ReadState<J>) -> bool
    ensures { result ≡ false → IfAlike course.now (λ _. IfOpen left.now (λ _.
        IfOpen right.now (λ _. ⊥))) }
{
    match course {
        Course::Alike { .. } => left.is_open() && right.is_open(),
        Course::Parted { .. } => false,
    }
}

/// Reads on as `ReadState::advance_by` does, and tells the next value where it is compared. Else it is
/// kept nowhere.
fn read_next<I: Items + Drop, R: Inlet, V: Visitor>(
    place: &mut ReadState<I>,
    reader: &mut R,
    compared: bool,
    visitor: &mut V,
) -> Result<Option<u64>, Fault>
    requires { IfOpen place.old (IsReady I.Items) }
    ensures tells { IfOk result (λ found. (g : Catalog) (l : Limits) (first : R)
        (given : List (Value × ℕ)) →
        StoodEach R.Inlet (telling I.Items []) g l first reader.old place.old given →
        HeldNext (λ v. compared ≡ true → Led V.takes (events_of v) visitor.old visitor.new)
        R.Inlet I.Items g l first reader.new place.new given found) }
    ensures none { IfOk result (λ found. found ≡ Option.None → IfOpen place.new (λ after. ⊥)) }
    ensures ready { IfOpen place.new (IsReady I.Items) }
    ensures spends { IfOpen place.old (λ source.
        work_of I.Items place.new < work_of I.Items place.old) }
    ensures closed { IfClosed place.old ((result ≡ Result.Ok Option.None)
        × (reader.new ≡ reader.old) × (place.new ≡ place.old)) }
    ensures within { IfOk result (λ found. (first : R) (reads : ℕ) →
        IfOpen place.old (IsWithin R.Inlet reads first reader.old) →
        IfOpen place.new (IsWithin R.Inlet reads first reader.new)) }
    ensures few_calls { R.calls_made reader.new + reads_of place.new
        ≤ R.calls_made reader.old + reads_of place.old }
    ensures few_octets { length (R.handed reader.new) + 4096 * reads_of place.new
        ≤ length (R.handed reader.old) + 4096 * reads_of place.old }
    ensures unasked { OnOk result (NoReadFailed R.Inlet reader.old reader.new) }
    ensures no_read_failed { OnOk result (IfOpen place.old (λ source.
        NoneFailed R.Inlet I.Items reader.old source → R.has_failed reader.new ≡ false)) }
    ensures cause { IfErr result (λ fault. (first : R) (reads : ℕ) →
        IfOpen place.old (IsWithin R.Inlet reads first reader.old) →
        IsReadCause R.Inlet reads first reader.new fault) }
    ensures kept { OnErr result ((g : Catalog) (l : Limits) (first : R) (s : List Value) →
        Stood R.Inlet (telling I.Items []) g l first reader.old place.old s →
        (fs : List Event) × GaveSoFar R.Inlet (telling I.Items fs) g l first reader.new s) }
    ensures sought { (g : Catalog) (l : Limits) (first : R) (s : List Value) →
        Stood R.Inlet (telling I.Items []) g l first reader.old place.old s →
        Sought R.Inlet (format_of I.Items g l) first reader.old reader.new (length s) }
    ensures grew { HandedOn R.Inlet reader.old reader.new }
{
    if !compared {
        return place.advance_by::<Count, R>(reader, &mut Count::new());
    }
    place.advance_by::<V, R>(reader, visitor)
}

/// Reads both documents on to the verdict, one value of each in turn.
fn compare_places<I: Items + Drop, J: Items + Drop, L: Inlet, R: Inlet>(
    alloc: Global,
    course: &mut Course,
    left_place: &mut ReadState<I>,
    left: &mut L,
    right_place: &mut ReadState<J>,
    right: &mut R,
) -> Result<Verdict, Fault>
    requires begun { course.old ≡ Course.Alike 0 }
    requires left { IfOpen left_place.old (IsReady I.Items) }
    requires right { IfOpen right_place.old (IsReady J.Items) }
    requires opened { IsOpen left_place.old }
    requires left_unread { StandsUnread I.Items left_place.old }
    requires right_unread { StandsUnread J.Items right_place.old }
    requires few { work_of I.Items left_place.old + work_of J.Items right_place.old
        ≤ 2 * (8193 * 2 ^ 32 + 1) }
    ensures verdict { IfOk result (λ verdict. (g h : Catalog) (k l : Limits) →
        Stood L.Inlet (telling I.Items []) g k left.old left.old left_place.old [] →
        Stood R.Inlet (telling J.Items []) h l right.old right.old right_place.old [] →
        IsCompared L.Inlet R.Inlet (format_of I.Items g k) (format_of J.Items h l)
        left.old left.new right.old right.new verdict) }
    ensures asked { (g h : Catalog) (k l : Limits) →
        Stood L.Inlet (telling I.Items []) g k left.old left.old left_place.old [] →
        Stood R.Inlet (telling J.Items []) h l right.old right.old right_place.old [] →
        AreAsked L.Inlet R.Inlet (format_of I.Items g k) (format_of J.Items h l)
        left.old left.new right.old right.new }
    ensures few_calls { (L.calls_made left.new ≤ L.calls_made left.old + reads_of left_place.old)
        × (R.calls_made right.new ≤ R.calls_made right.old + reads_of right_place.old) }
    ensures few_octets { (length (L.handed left.new)
        ≤ length (L.handed left.old) + 4096 * reads_of left_place.old)
        × (length (R.handed right.new) ≤ length (R.handed right.old) + 4096 * reads_of
        right_place.old) }
    ensures no_read_failed { OnOk result ((L.has_failed left.new ≡ false)
        × ((right.new ≡ right.old) ⊎ (R.has_failed right.new ≡ false))) }
    ensures cause { IfErr result (λ fault. (reads : ℕ) →
        IfOpen left_place.old (IsWithin L.Inlet reads left.old left.old) →
        IfOpen right_place.old (IsWithin R.Inlet reads right.old right.old) →
        IsReadCause L.Inlet reads left.old left.new fault
        ⊎ IsReadCause R.Inlet reads right.old right.new fault) }
{
    let mut following = Following::new(alloc);
    let mut tapes = Twin::new(alloc);
    loop {
        tapes.clear();
        let compared = compares(course, left_place, right_place);
        let found = read_next(left_place, left, compared, &mut tapes.first)?;
        if let ReadState::Refused(refusal) = left_place {
            return Ok(Verdict::Refused {
                side: Side::Left,
                refusal: *refusal,
            });
        }
        let other = read_next(right_place, right, compared, &mut tapes)?;
        let gave = (found.is_some(), other.is_some());
        course.meet(alloc, gave, &mut tapes, &mut following)?;
        if !left_place.is_open() && !right_place.is_open() {
            return Ok(course.verdict(right_place));
        }
    }
}

/// Whether two documents have equivalent streams: the octets of `left` are read by `left_items`,
/// those of `right` by `right_items`, each device in at most `reads` calls.
///
/// `Equivalent` where both are documents and the streams are equivalent (Ion 1.0, "The Ion Data
/// Model"), `Different` where both are and the streams part, with the path to where the two values
/// there part, `Refused` for the left side where that is no document, else for the right one. One
/// value of each is read in turn: the right device is asked for a value only once that of the left,
/// or its end, is known, and the left one for the next only once the right has given its own, has
/// ended or is refused. A refused left side is answered at once, and none that is refused is asked
/// on. After the streams parted, or the right side was refused, both are read to the end, since the
/// left side may still be refused. Faults are `Memory`, `Read` and `TooManyReads`.
pub fn compare_items<I: Items + Drop, J: Items + Drop, L: Inlet, R: Inlet>(
    alloc: Global,
    reads: u64,
    left_items: I,
    left: &mut L,
    right_items: J,
    right: &mut R,
) -> Result<Verdict, Fault>
    requires left { IsFresh I.Items left_items }
    requires right { IsFresh J.Items right_items }
    requires reads { reads ≤ 2 ^ 32 }
    ensures verdict { IfOk result (IsCompared L.Inlet R.Inlet
        (format_of I.Items (I.catalog left_items) (I.limits left_items))
        (format_of J.Items (J.catalog right_items) (J.limits right_items))
        left.old left.new right.old right.new) }
    ensures in_turn { IsInTurn L.Inlet R.Inlet
        (format_of I.Items (I.catalog left_items) (I.limits left_items))
        (format_of J.Items (J.catalog right_items) (J.limits right_items))
        left.old left.new right.old right.new }
    ensures left_in_turn { LeftInTurn L.Inlet R.Inlet
        (format_of I.Items (I.catalog left_items) (I.limits left_items))
        (format_of J.Items (J.catalog right_items) (J.limits right_items))
        left.old left.new right.old right.new }
    ensures at_once { AtOnce L.Inlet
        (format_of I.Items (I.catalog left_items) (I.limits left_items)) left.old left.new
        × AtOnce R.Inlet (format_of J.Items (J.catalog right_items) (J.limits right_items))
        right.old right.new }
    ensures one_end { AtOneEnd L.Inlet left.old left.new × AtOneEnd R.Inlet right.old right.new }
    ensures few_calls { (L.calls_made left.new ≤ L.calls_made left.old + reads)
        × (R.calls_made right.new ≤ R.calls_made right.old + reads) }
    ensures few_octets { (length (L.handed left.new) ≤ length (L.handed left.old) + 4096 * reads)
        × (length (R.handed right.new) ≤ length (R.handed right.old) + 4096 * reads) }
    ensures no_read_failed { OnOk result ((L.has_failed left.new ≡ false)
        × ((right.new ≡ right.old) ⊎ (R.has_failed right.new ≡ false))) }
    ensures cause { IfErr result (λ fault.
        IsReadCause L.Inlet reads left.old left.new fault
        ⊎ IsReadCause R.Inlet reads right.old right.new fault) }
{
    let left_source = PieceReader::new(alloc, left_items, reads)?;
    let right_source = PieceReader::new(alloc, right_items, reads)?;
    let mut left_place = ReadState::Open(left_source);
    let mut right_place = ReadState::Open(right_source);
    let mut course = Course::Alike { values: 0 };
    let verdict = compare_places(
        alloc,
        &mut course,
        &mut left_place,
        left,
        &mut right_place,
        right,
    );
    drop(course);
    drop(left_place);
    drop(right_place);
    verdict
}
