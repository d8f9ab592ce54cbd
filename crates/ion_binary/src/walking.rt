//! The reader of binary documents that holds no values: what it holds, and what each octet does.
ghost use Rattle.std.specs.Prelude.{◌≡◌, ◌≢◌, ◌+◌, ◌-◌, ◌<◌, ◌^◌, true, false, List, OnOk, IfErr};
ghost use Rattle.ion_binary.specs.Names.{AreAround, DoesAlone, Frame as AnyFrame, Hears, Holds, IsTop, Memory, Moves, Steps, StepsAlone, StepsInside, WasTold, bare, deliver, feed, heard, is_in_body, machine_of, marks, on_descriptor, on_marker, one_octet, payload_of, spot_of, told};
ghost use Rattle.ion_binary.specs.declared.state.Phase.TheVariants as phases;
ghost use Rattle.ion_binary.specs.walking.Holds.{told_in};

use crate::form::{Form, ListOrSexp, Opening};
use crate::state::{Effect, Mark, Phase};
use crate::walking::open_body::OpenBody;
use ion_model::{Reason, Refusal};
use ion_scalar::Size;
use ion_symtab::{Catalog, Context, Limits};
use ion_visiting::{Part, TableFilter, Visitor};
use std::fmt::{self, Debug, Formatter};

mod advance;
mod bodies;
mod bounds;
mod containers;
mod numbers;
mod open_body;
mod scalars;
mod unread;
mod whole_fields;
mod whole_headers;
mod whole_items;
mod whole_leaves;
mod whole_wrappers;

/// A container that isn't whole yet, by the octet at which it ends.
#[derive(Clone, Copy)]
pub(crate) enum Container {
    /// A list or an s-expression.
    Items { end: u64, listing: ListOrSexp },
    /// A struct, where the name of a field comes next.
    Fields { end: u64 },
    /// A struct, where the value of a field comes next.
    Named { end: u64 },
    /// A wrapper.
    Annotated { end: u64 },
}

/// A reader of a binary document that comes in pieces (Ion 1.0, "Ion Binary Encoding"). It tells a
/// visitor the values event by event, and holds none of them.
///
/// It keeps which containers are open, and the octets of the body of one scalar; of a long string,
/// clob or blob only the last, where the visitor heeds kinds alone. Local symbol tables change
/// what symbol ids stand for and aren't told; a version marker sets that back to the system
/// symbols.
#[derive(Drop)]
pub struct BinaryWalk<'a> {
    catalog: &'a Catalog,
    limits: Limits,
    /// How many octets were taken up.
    used: u64,
    /// Where the open piece of the top level begins.
    start: u64,
    /// What symbol ids stand for.
    context: Context,
    phase: Phase,
    /// The octets of a scalar's body so far; of no meaning outside one.
    body: OpenBody,
    /// The open containers, the innermost last.
    frames: Vec<Container>,
    /// The id of the name of the field whose value comes next.
    name: u64,
    /// Keeps local symbol tables from the visitor.
    filter: TableFilter,
    /// The refusal that each call answers from now on.
    failed: Option<Refusal>,
}

impl Debug for BinaryWalk<'_> {
    fn fmt<W: fmt::Write>(&self, f: &mut Formatter<W>) -> fmt::Result {
        f.debug_struct("BinaryWalk").finish_non_exhaustive()
    }
}

// A visitor that can't go on has no memory.
#[inline(always)]
fn heard(went_on: bool) -> Result<(), Reason>
    ensures ok { OnOk result (went_on ≡ true) }
    ensures memory { IfErr result (λ reason. reason ≡ Memory) }
{
    if went_on { Ok(()) } else { Err(Reason::Memory) }
}

impl BinaryWalk<'_> {
    /// Tells the name of the field whose value begins.
    #[inline(always)]
    fn begin_value<V: Visitor>(&mut self, visitor: &mut V) -> Result<(), Reason>
        ensures told { OnOk result ((fs : List AnyFrame) → Holds self.old fs → AreAround fs →
            WasTold self.new.filter (told_in fs)
            × Hears V.takes (heard (told fs)) (heard (told_in fs)) visitor.old visitor.new) }
        ensures memory { IfErr result (λ reason. (fs : List AnyFrame) → Holds self.old fs →
            AreAround fs → reason ≡ Memory) }
        ensures same { self.new ≡ record self.old { filter = self.new.filter } }
    {
        if !self.is_named() {
            return Ok(());
        }
        let symbol = self.context.symbol(self.name)?;
        heard(self.filter.name(symbol, visitor))
    }

    /// Tells a value of one octet, for which there has to be room.
    fn one_octet<V: Visitor>(&mut self, said: &Part<'_>, visitor: &mut V) -> Result<Effect, Reason>
        ensures does { Steps V.takes self.old
            (λ setting spot fs. one_octet setting spot fs (payload_of said.now))
            result self.new visitor.old visitor.new }
        ensures moves { Moves self.old self.new self.old.used }
    {
        match self.unfit(Form::Struct, self.used) {
            Some(reason) => Err(reason),
            None => self.whole(said, visitor),
        }
    }

    /// Tells a value with no value in it.
    fn whole<V: Visitor>(&mut self, said: &Part<'_>, visitor: &mut V) -> Result<Effect, Reason>
        ensures does { StepsInside V.takes self.old
            (λ setting spot fs. deliver setting spot fs (bare (payload_of said.now)))
            result self.new visitor.old visitor.new }
        ensures moves { Moves self.old self.new self.old.used }
    {
        self.begin_value(visitor)?;
        heard(self.filter.part(said, visitor))?;
        self.ended(visitor)
    }

    /// Begins a version marker behind its first octet; it stands at the top level alone.
    fn marks(&mut self) -> Result<Effect, Reason>
        ensures does { StepsAlone self.old (λ _ spot fs. marks spot fs) result self.new }
        ensures moves { Moves self.old self.new self.old.used }
    {
        if !self.frames.is_empty() {
            return Err(Reason::Malformed);
        }
        self.phase = Phase::InMarker(Mark::Second, true);
        Ok(Effect::Goes)
    }

    /// Takes up a descriptor, by what it opens.
    fn on_descriptor<V: Visitor>(
        &mut self,
        opening: Opening,
        visitor: &mut V,
    ) -> Result<Effect, Reason>
        requires used { self.old.used < 2 ^ 63 }
        ensures does { Steps V.takes self.old
            (λ setting spot fs. on_descriptor setting spot fs opening)
            result self.new visitor.old visitor.new }
        ensures moves { Moves self.old self.new self.old.used }
    {
        match opening {
            Opening::Refused(reason) => Err(reason),
            Opening::Marker => self.marks(),
            Opening::Null(kind) => self.one_octet(&Part::Null(kind), visitor),
            Opening::Truth(truth) => self.one_octet(&Part::Truth(truth), visitor),
            Opening::Sized(form, Size::Known(size)) => self.sized(form, u64::from(size), visitor),
            Opening::Sized(form, Size::Follows) => self.length_follows(form),
        }
    }

    /// Takes up an octet of a version marker, E0 01 00 EA (Ion 1.0, "Ion Binary Encoding", "Value
    /// Streams"). Its fourth octet decides: a marker of another version is `Version`, and without
    /// EA it is none.
    fn on_marker(&mut self, mark: Mark, good: bool, octet: u8) -> Result<Effect, Reason>
        ensures does { (fs : List AnyFrame) → Holds self.old fs → IsTop fs →
            DoesAlone (told fs) (on_marker (spot_of self.old) fs mark good octet) result self.new }
        ensures moves { Moves self.old self.new self.old.used }
    {
        match mark {
            Mark::First => {
                if octet != 0xE0 {
                    return Err(Reason::Malformed);
                }
                self.phase = Phase::InMarker(Mark::Second, good);
            }
            Mark::Second => self.phase = Phase::InMarker(Mark::Third, good && octet == 1),
            Mark::Third => self.phase = Phase::InMarker(Mark::Fourth, good && octet == 0),
            Mark::Fourth => {
                if octet != 0xEA {
                    return Err(Reason::Malformed);
                }
                if !good {
                    return Err(Reason::Version);
                }
                self.context.reset();
                self.start = self.used;
                self.phase = Phase::Ready;
            }
        }
        Ok(Effect::Goes)
    }

    /// Takes up one octet that is no descriptor and in no body: what it did, or why it is refused.
    /// Behind an `Err` nothing is known of the machine.
    fn feed<V: Visitor>(&mut self, octet: u8, visitor: &mut V) -> Result<Effect, Reason>
        requires used { self.old.used < 2 ^ 63 - 1 }
        requires outside { is_in_body self.old.phase ≡ false }
        requires behind { self.old.phase ≢ phases.Ready }
        ensures does { Steps V.takes self.old
            (λ setting _ fs. feed setting (machine_of self.old fs) octet)
            result self.new visitor.old visitor.new }
        ensures moves { Moves self.old self.new (self.old.used + 1) }
    {
        self.used += 1;
        match self.phase {
            Phase::InMarker(mark, good) => self.on_marker(mark, good, octet),
            Phase::InNumber(purpose, so_far) => self.on_number(purpose, so_far, octet, visitor),
            Phase::Ready | Phase::InBody(_, _) => unreachable!(),
            Phase::InPad(missing) => self.on_pad(missing, visitor),
        }
    }
}
