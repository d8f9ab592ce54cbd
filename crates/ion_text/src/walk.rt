//! The reader of text documents that holds no values: what it holds, and what ends a value.
ghost use Rattle.std.specs.Prelude.{◌≡◌, ◌++◌, ◌∷◌, [], List, nat_lt, length, true, false, Ok, Err, OnOk, IfErr, ◌⊎◌};
ghost use Rattle.ion_text.specs.Names.{AreAround, Does, DoesAlone, Frame, Holds, Memory, Payload, SameSetting, Symbols, Value as AnyValue, WasTold, annotated, begun_at, behind_value, brackets_of, calm, ended, events_of, is_inside, is_of_table, is_table, is_top, layer_events, next, number_payload, open_brackets, out-Payload, part, payload_of, place, reading_of, setting_of, spot_of, told};
ghost use Rattle.ion_model.specs.declared.value.Payload.TheVariants as payloads;
ghost use Rattle.ion_text.specs.declared.state.Stage.TheVariants as stages;
ghost use Rattle.ion_text.specs.walk.Holds.{told_in};

use crate::state::{Effect, Stage};
use ion_model::{Reason, Refusal, Symbol, Value};
use ion_scalar::Number;
use ion_symtab::{Catalog, Context, Limits};
use ion_tokens::{Place, Scanner, TokenReader};
use ion_visiting::{Bracket, Part, RecentSymbols, TableFilter, Visitor};
use std::alloc::Global;
use std::fmt::{self, Debug, Formatter};
use std::mem;

mod advance;
mod blanks_while_waiting;
mod containers;
mod end_of_input;
mod inside;
mod letting_go;
mod long_strings;
mod octets;
mod on_token;
mod running_out;
mod scalars_inside;
mod settling;
mod symbol_ids;
mod to_next_token;
mod untold;
mod unusual_tokens;
mod whole_tokens;

/// A reader of a text document that comes in pieces (Ion 1.0, "Ion Text Encoding"). It tells a
/// visitor the values event by event, and holds none of them.
///
/// It keeps which containers are open, and the octets of the token that is open. Local symbol tables
/// change what symbol ids stand for and aren't told; a version marker sets that back to the system
/// symbols.
#[derive(Drop)]
pub struct TextWalk<'a> {
    alloc: Global,
    catalog: &'a Catalog,
    limits: Limits,
    scanner: Scanner,
    /// Reads tokens beside the scanner; what it keeps never counts.
    beside: TokenReader,
    /// The symbols met lately, whose texts are shared.
    recent: RecentSymbols,
    /// Where the open item of the top level begins.
    start: u64,
    /// What symbol ids stand for.
    context: Context,
    /// The open containers, the innermost last.
    frames: Vec<Bracket>,
    /// Whether annotations were read of the value that is read now.
    noted: bool,
    stage: Stage,
    /// Keeps local symbol tables from the visitor.
    filter: TableFilter,
    /// The octet that showed the end of the value told last, and wasn't used.
    awaited: Option<u8>,
    /// The refusal that each call answers from now on.
    failed: Option<Refusal>,
}

impl Debug for TextWalk<'_> {
    fn fmt<W: fmt::Write>(&self, f: &mut Formatter<W>) -> fmt::Result {
        f.debug_struct("TextWalk").finish_non_exhaustive()
    }
}

// A visitor that can't go on has no memory.
#[inline(always)]
fn heard(went_on: bool) -> Result<(), Reason>
    ensures ok { OnOk result (went_on ≡ true) }
    ensures memory { IfErr result (λ reason. reason ≡ Memory) }
{
    if went_on { Ok(()) } else { Err(Reason::Memory) }
}

// What may come next where nothing waits any more.
#[inline(always)]
fn calm(stage: &Stage) -> Stage
    ensures { result ≡ calm stage.now }
{
    match stage {
        Stage::Ready | Stage::Pending(_, _) | Stage::Long(_, _) => Stage::Ready,
        Stage::After => Stage::After,
        Stage::Name | Stage::LongName(_) | Stage::Keyed(_) => Stage::Name,
    }
}

impl TextWalk<'_> {
    /// Where the next token stands.
    fn place(&self) -> Place
        ensures { (fs : List Frame) (ss : Symbols) → Holds self.now fs ss →
            result ≡ place (reading_of self.now fs ss) }
    {
        match self.frames.last() {
            None => Place::Top,
            Some(Bracket::List) => Place::List,
            Some(Bracket::Sexp) => Place::Sexp,
            Some(Bracket::Fields) => match &self.stage {
                Stage::Name | Stage::LongName(_) | Stage::Keyed(_) => Place::Name,
                _ => Place::FieldValue,
            },
        }
    }

    /// Whether no container is open.
    fn is_top(&self) -> bool
        ensures { (fs : List Frame) (ss : Symbols) → Holds self.now fs ss → result ≡ is_top fs }
    {
        match self.frames.last() {
            None => true,
            Some(_) => false,
        }
    }

    /// Whether some container is open.
    fn is_inside(&self) -> bool
        ensures { result ≡ is_inside (open_brackets self.now) }
    {
        match self.frames.last() {
            None => false,
            Some(_) => true,
        }
    }

    /// What may come behind a value in the innermost of the open containers.
    fn behind_value(&self) -> Stage
        ensures { result ≡ behind_value (open_brackets self.now) }
    {
        match self.frames.last() {
            Some(Bracket::Sexp) => Stage::Ready,
            _ => Stage::After,
        }
    }

    /// Where the item of a token begins that begins at `begin`.
    fn begun_at(&self, begin: u64) -> u64
        ensures { (fs : List Frame) (ss : Symbols) → Holds self.now fs ss →
            result ≡ begun_at self.now.start begin fs ss }
    {
        if self.noted {
            return self.start;
        }
        match self.frames.last() {
            None => begin,
            Some(_) => self.start,
        }
    }

    /// Whether the limit on depth admits one more list, s-expression or struct.
    fn may_deepen(&self) -> bool
        ensures { (fs : List Frame) (ss : Symbols) → Holds self.now fs ss →
            result ≡ nat_lt (length fs) self.now.limits.depth }
    {
        self.frames.len() < self.limits.depth as usize
    }

    /// From now on this may come next.
    #[inline(always)]
    fn set_stage(&mut self, stage: Stage)
        ensures { self.new ≡ record self.old { stage = stage } }
    {
        match &self.stage {
            // Nothing waits, as most often, so that nothing is let go.
            Stage::Ready | Stage::After | Stage::Name => self.stage = stage,
            _ => self.replace_stage(stage),
        }
    }

    #[inline(never)]
    fn replace_stage(&mut self, stage: Stage)
        ensures { self.new ≡ record self.old { stage = stage } }
    {
        drop(mem::replace(&mut self.stage, stage));
    }

    /// What may come, or waits; from now on nothing waits.
    fn take_stage(&mut self) -> Stage
        ensures stage { result ≡ self.old.stage }
        ensures calm { self.new ≡ record self.old { stage = calm self.old.stage } }
    {
        let stage = calm(&self.stage);
        mem::replace(&mut self.stage, stage)
    }

    /// Tells a part, which with the annotations before it is a whole value that ended at `end`.
    #[inline(always)]
    fn whole<V: Visitor>(
        &mut self,
        said: &Part<'_>,
        end: u64,
        visitor: &mut V,
    ) -> Result<Effect, Reason>
        requires { self.old.stage ≡ stages.Ready }
        ensures does { (fs : List Frame) (ss : Symbols) → Holds self.old fs ss →
            Does V.takes (told fs ss)
            (ended (setting_of self.old) (spot_of self.old end) fs
            (annotated ss (payload_of said.now)))
            result self.new visitor.old visitor.new }
        ensures setting { SameSetting self.old self.new }
    {
        if let Some(went_on) = self.filter.any_part(visitor) {
            heard(went_on)?;
            return self.ended(end);
        }
        self.told_scalar_ended(said, end, visitor)
    }

    /// The same where it has to be told.
    #[inline(never)]
    fn told_scalar_ended<V: Visitor>(
        &mut self,
        said: &Part<'_>,
        end: u64,
        visitor: &mut V,
    ) -> Result<Effect, Reason>
        requires { self.old.stage ≡ stages.Ready }
        ensures does { (fs : List Frame) (ss : Symbols) → Holds self.old fs ss →
            Does V.takes (told fs ss)
            (ended (setting_of self.old) (spot_of self.old end) fs
            (annotated ss (payload_of said.now)))
            result self.new visitor.old visitor.new }
        ensures setting { SameSetting self.old self.new }
    {
        heard(self.filter.part(said, visitor))?;
        self.ended(end)
    }

    /// The same of a number.
    #[inline(always)]
    fn number_ended<V: Visitor>(
        &mut self,
        number: Number,
        end: u64,
        visitor: &mut V,
    ) -> Result<Effect, Reason>
        requires { self.old.stage ≡ stages.Ready }
        ensures does { (fs : List Frame) (ss : Symbols) → Holds self.old fs ss →
            Does V.takes (told fs ss)
            (ended (setting_of self.old) (spot_of self.old end) fs
            (annotated ss (number_payload number)))
            result self.new visitor.old visitor.new }
        ensures setting { SameSetting self.old self.new }
    {
        heard(self.filter.number(number, visitor))?;
        self.ended(end)
    }

    /// The same of a symbol.
    fn symbol_ended<V: Visitor>(
        &mut self,
        symbol: Symbol,
        end: u64,
        visitor: &mut V,
    ) -> Result<Effect, Reason>
        requires { self.old.stage ≡ stages.Ready }
        ensures does { (fs : List Frame) (ss : Symbols) → Holds self.old fs ss →
            Does V.takes (told fs ss)
            (ended (setting_of self.old) (spot_of self.old end) fs
            (annotated ss (payloads.Symbol symbol)))
            result self.new visitor.old visitor.new }
        ensures setting { SameSetting self.old self.new }
    {
        let told = self.filter.symbol(&symbol, visitor);
        drop(symbol);
        heard(told)?;
        self.ended(end)
    }

    /// A value that was told ended at `end`.
    #[inline(always)]
    fn ended(&mut self, end: u64) -> Result<Effect, Reason>
        ensures does { (fs : List Frame) (v : AnyValue) →
            open_brackets self.old ≡ brackets_of fs → AreAround fs →
            WasTold self.old.filter (told_in fs ++ events_of v) →
            DoesAlone (told_in fs ++ events_of v)
            (ended (setting_of self.old) (spot_of self.old end) fs v) result self.new }
        ensures setting { SameSetting self.old self.new }
    {
        self.noted = false;
        if !self.is_inside() {
            return self.give(end);
        }
        let stage = self.behind_value();
        self.set_stage(stage);
        Ok(Effect::Goes)
    }

    /// A value of the top level that was told ended at `end`.
    #[inline(always)]
    fn give(&mut self, end: u64) -> Result<Effect, Reason>
        requires top { open_brackets self.old ≡ [] }
        requires notes { self.old.noted ≡ false }
        ensures does { (v : AnyValue) → WasTold self.old.filter (events_of v) →
            DoesAlone (events_of v)
            (ended (setting_of self.old) (spot_of self.old end) [] v) result self.new }
        ensures setting { SameSetting self.old self.new }
    {
        if !self.filter.ends_plain() {
            return self.give_table(end);
        }
        let last = self.start.saturating_add(self.limits.item);
        self.set_stage(Stage::Ready);
        self.start = 0;
        if end > last {
            return Err(Reason::ItemTooLong);
        }
        Ok(Effect::Gives)
    }

    /// The same of what may be a local symbol table, which changes the context (Ion 1.0, "Symbols",
    /// "Local Symbol Tables").
    #[inline(never)]
    fn give_table(&mut self, end: u64) -> Result<Effect, Reason>
        requires top { open_brackets self.old ≡ [] }
        requires notes { self.old.noted ≡ false }
        ensures does { (v : AnyValue) → WasTold self.old.filter (events_of v) →
            DoesAlone (events_of v)
            (ended (setting_of self.old) (spot_of self.old end) [] v) result self.new }
        ensures setting { SameSetting self.old self.new }
    {
        let last = self.start.saturating_add(self.limits.item);
        self.set_stage(Stage::Ready);
        self.start = 0;
        match self.filter.end() {
            None => {
                if end > last {
                    return Err(Reason::ItemTooLong);
                }
                Ok(Effect::Gives)
            }
            Some(table) => {
                let applied = self.apply(&table);
                drop(table);
                applied?;
                if end > last {
                    return Err(Reason::ItemTooLong);
                }
                Ok(Effect::Goes)
            }
        }
    }

    // A local symbol table changes the context.
    fn apply(&mut self, table: &Value) -> Result<(), Reason>
        ensures same { self.new ≡ record self.old { context = self.new.context } }
        ensures ok { is_table table.now ≡ true → OnOk result
            (next self.old.context table.now self.old.catalog.now ≡ Ok self.new.context) }
        ensures refused { is_table table.now ≡ true → IfErr result (λ r.
            (r ≡ Memory) ⊎ (next self.old.context table.now self.old.catalog.now ≡ Err r)) }
    {
        if !table.is_table() {
            return Ok(());
        }
        self.context.apply(table, self.catalog)
    }
}
