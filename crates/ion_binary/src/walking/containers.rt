//! Containers that end.
ghost use Rattle.std.specs.Prelude.{◌≡◌, ◌⊎◌, List, [], ◌∷◌, ◌++◌, IfErr, IfOk, OnOk, Ok, Err, Result, true, false};
ghost use Rattle.ion_binary.specs.Names.{AreAround, Closes, Container as AnyContainer, Does, DoesAlone, Event, Field as AnyField, Frame as AnyFrame, Holds, IsBareIn, IsBehind, Memory, Moves, Outcome, Steps, Value as AnyValue, WasTold, container_of, containers_of, deliver, events_of, is_table, next, open_containers, proceed, setting_of, spot_of, told};
ghost use Rattle.ion_binary.specs.declared.state.Effect.TheVariants as effects;
ghost use Rattle.ion_binary.specs.declared.state.Phase.TheVariants as phases;
ghost use Rattle.ion_binary.specs.machine.Frames as frames;
ghost use Rattle.ion_binary.specs.walking.Holds.{told_in};

use super::{BinaryWalk, Container, heard};
use crate::form::{ListOrSexp, bracket_of};
use crate::state::{Effect, Phase, Purpose};
use ion_model::{Reason, Value};
use ion_visiting::{Bracket, Visitor};

impl BinaryWalk<'_> {
    /// Puts a container in the place of the innermost one.
    pub(super) fn put_innermost(&mut self, container: Container)
        ensures there { (k : AnyContainer) (ks : List AnyContainer) →
            open_containers self.old ≡ k ∷ ks → open_containers self.new ≡ container ∷ ks }
        ensures same { self.new ≡ record self.old { frames = self.new.frames } }
    {
        if let Some(innermost) = self.frames.last_mut() {
            *innermost = container;
        }
    }

    /// Whether the innermost container goes on behind a value that was told and ended here; else
    /// nothing is done.
    #[inline(always)]
    fn stays_open(&mut self) -> bool
        ensures does { result ≡ true → (fs : List AnyFrame) (v : AnyValue) →
            IsBehind self.old fs v → DoesAlone (told_in fs ++ events_of v)
            (deliver (setting_of self.old) (spot_of self.old) fs v)
            (Ok effects.Goes) self.new }
        ensures none { result ≡ false → self.new ≡ self.old }
        ensures moves { Moves self.old self.new self.old.used }
    {
        if let Some(end) = self.items_end() {
            if self.used != end {
                self.phase = Phase::Ready;
                return true;
            }
            return false;
        }
        if let Some(end) = self.named_end() {
            if self.used != end {
                self.put_innermost(Container::Fields { end });
                self.phase = Phase::InNumber(Purpose::FieldName, 0);
                return true;
            }
        }
        false
    }

    /// A value that was told ended here, and with it each container that ends here.
    #[inline(always)]
    pub(super) fn ended<V: Visitor>(&mut self, visitor: &mut V) -> Result<Effect, Reason>
        ensures does { (fs : List AnyFrame) (v : AnyValue) → IsBehind self.old fs v →
            Does V.takes (told_in fs ++ events_of v)
            (deliver (setting_of self.old) (spot_of self.old) fs v)
            result self.new visitor.old visitor.new }
        ensures moves { Moves self.old self.new self.old.used }
    {
        if self.frames.is_empty() {
            return self.give();
        }
        if self.stays_open() {
            return Ok(Effect::Goes);
        }
        self.containers_end(visitor)
    }

    /// The same where the innermost container may end.
    fn containers_end<V: Visitor>(&mut self, visitor: &mut V) -> Result<Effect, Reason>
        ensures does { (fs : List AnyFrame) (v : AnyValue) → IsBehind self.old fs v →
            Does V.takes (told_in fs ++ events_of v)
            (deliver (setting_of self.old) (spot_of self.old) fs v)
            result self.new visitor.old visitor.new }
        ensures moves { Moves self.old self.new self.old.used }
    {
        while let Some(container) = self.frames.pop() {
            match self.behind_value(container, visitor) {
                Err(reason) => return Err(reason),
                Ok(false) => return Ok(Effect::Goes),
                Ok(true) => {
                    if self.stays_open() {
                        return Ok(Effect::Goes);
                    }
                }
            }
        }
        self.give()
    }

    /// A value of the top level that was told ended here.
    #[inline(always)]
    fn give(&mut self) -> Result<Effect, Reason>
        requires top { open_containers self.old ≡ [] }
        ensures does { (v : AnyValue) → WasTold self.old.filter (events_of v) →
            DoesAlone (events_of v)
            (deliver (setting_of self.old) (spot_of self.old) [] v) result self.new }
        ensures moves { Moves self.old self.new self.old.used }
    {
        if self.filter.ends_plain() {
            self.start = self.used;
            self.phase = Phase::Ready;
            return Ok(Effect::Gives);
        }
        self.give_or_apply()
    }

    /// The same of a value that may be a local symbol table, which changes the context (Ion 1.0,
    /// "Symbols", "Local Symbol Tables").
    #[inline(never)]
    fn give_or_apply(&mut self) -> Result<Effect, Reason>
        requires top { open_containers self.old ≡ [] }
        ensures does { (v : AnyValue) → WasTold self.old.filter (events_of v) →
            DoesAlone (events_of v)
            (deliver (setting_of self.old) (spot_of self.old) [] v) result self.new }
        ensures moves { Moves self.old self.new self.old.used }
    {
        self.start = self.used;
        self.phase = Phase::Ready;
        match self.filter.end() {
            None => Ok(Effect::Gives),
            Some(table) => {
                let applied = self.apply(&table);
                drop(table);
                applied?;
                Ok(Effect::Goes)
            }
        }
    }

    // A local symbol table changes the context.
    fn apply(&mut self, table: &Value) -> Result<(), Reason>
        ensures ok { is_table table.now ≡ true → OnOk result
            ((next self.old.context table.now self.old.catalog.now ≡ Ok self.new.context)
            × (self.new ≡ record self.old { context = self.new.context })) }
        ensures refused { is_table table.now ≡ true → IfErr result (λ r.
            (r ≡ Memory) ⊎ (next self.old.context table.now self.old.catalog.now ≡ Err r)) }
        ensures moves { Moves self.old self.new self.old.used }
    {
        if !table.is_table() {
            return Ok(());
        }
        self.context.apply(table, self.catalog)
    }

    /// Whether a container that was the innermost one ends behind a value in it; else it is the
    /// innermost one again.
    fn behind_value<V: Visitor>(
        &mut self,
        container: Container,
        visitor: &mut V,
    ) -> Result<bool, Reason>
        ensures does { (f : AnyFrame) (fs : List AnyFrame) (v : AnyValue) →
            container ≡ container_of f → open_containers self.old ≡ containers_of fs →
            AreAround (f ∷ fs) → IsBareIn (f ∷ fs) v →
            WasTold self.old.filter (told_in (f ∷ fs) ++ events_of v) →
            Closes V.takes (told_in (f ∷ fs) ++ events_of v)
            (deliver (setting_of self.old) (spot_of self.old) (f ∷ fs) v)
            result self.new visitor.old visitor.new }
        ensures frames { IfOk result (λ closed.
            closed ≡ true → self.new.frames.items ≡ self.old.frames.items) }
        ensures moves { Moves self.old self.new self.old.used }
    {
        match container {
            Container::Items { end, listing } => self.close_items(end, listing, visitor),
            Container::Fields { .. } => Err(Reason::Malformed),
            Container::Named { end } => self.close_fields(end, visitor),
            Container::Annotated { .. } => Ok(true),
        }
    }

    /// Whether a list or an s-expression that was the innermost container ends here; else it is the
    /// innermost one again.
    #[inline(always)]
    fn close_items<V: Visitor>(
        &mut self,
        end: u64,
        listing: ListOrSexp,
        visitor: &mut V,
    ) -> Result<bool, Reason>
        ensures does { (fs : List AnyFrame) (vs : List AnyValue) →
            open_containers self.old ≡ containers_of fs → AreAround fs →
            WasTold self.old.filter (told_in (frames.Items end listing vs ∷ fs)) →
            Closes V.takes (told_in (frames.Items end listing vs ∷ fs))
            (proceed (setting_of self.old) (spot_of self.old) (frames.Items end listing vs ∷ fs))
            result self.new visitor.old visitor.new }
        ensures frames { IfOk result (λ closed.
            closed ≡ true → self.new.frames.items ≡ self.old.frames.items) }
        ensures moves { Moves self.old self.new self.old.used }
    {
        if self.used == end {
            let bracket = bracket_of(listing);
            heard(self.filter.close(bracket, visitor))?;
            return Ok(true);
        }
        self.phase = Phase::Ready;
        self.frames.push(Container::Items { end, listing })?;
        Ok(false)
    }

    /// The same of a struct, where the name of a field comes next.
    #[inline(always)]
    fn close_fields<V: Visitor>(&mut self, end: u64, visitor: &mut V) -> Result<bool, Reason>
        ensures does { (fs : List AnyFrame) (ms : List AnyField) →
            open_containers self.old ≡ containers_of fs → AreAround fs →
            WasTold self.old.filter (told_in (frames.Fields end ms ∷ fs)) →
            Closes V.takes (told_in (frames.Fields end ms ∷ fs))
            (proceed (setting_of self.old) (spot_of self.old) (frames.Fields end ms ∷ fs))
            result self.new visitor.old visitor.new }
        ensures frames { IfOk result (λ closed.
            closed ≡ true → self.new.frames.items ≡ self.old.frames.items) }
        ensures moves { Moves self.old self.new self.old.used }
    {
        if self.used == end {
            heard(self.filter.close(Bracket::Fields, visitor))?;
            return Ok(true);
        }
        self.phase = Phase::InNumber(Purpose::FieldName, 0);
        self.frames.push(Container::Fields { end })?;
        Ok(false)
    }

    /// Whether the innermost container, in which no field's name came, goes on here; else nothing
    /// is done.
    #[inline(always)]
    fn goes_inside(&mut self) -> bool
        ensures does { result ≡ true → (fs : List AnyFrame) → Holds self.old fs →
            DoesAlone (told fs) (proceed (setting_of self.old) (spot_of self.old) fs)
            (Ok effects.Goes) self.new }
        ensures none { result ≡ false → self.new ≡ self.old }
        ensures moves { Moves self.old self.new self.old.used }
    {
        if let Some(end) = self.items_end() {
            if self.used != end {
                self.phase = Phase::Ready;
                return true;
            }
            return false;
        }
        if let Some(end) = self.fields_end() {
            if self.used != end {
                self.phase = Phase::InNumber(Purpose::FieldName, 0);
                return true;
            }
        }
        false
    }

    /// Goes on behind a pad, or into a container that begins.
    #[inline(always)]
    pub(super) fn proceed<V: Visitor>(&mut self, visitor: &mut V) -> Result<Effect, Reason>
        ensures does { Steps V.takes self.old proceed result self.new visitor.old visitor.new }
        ensures moves { Moves self.old self.new self.old.used }
    {
        if self.goes_inside() {
            return Ok(Effect::Goes);
        }
        self.proceed_or_end(visitor)
    }

    /// The same where the innermost container may be whole: where it is empty, or the pad was its
    /// last.
    pub(super) fn proceed_or_end<V: Visitor>(&mut self, visitor: &mut V) -> Result<Effect, Reason>
        ensures does { Steps V.takes self.old proceed result self.new visitor.old visitor.new }
        ensures moves { Moves self.old self.new self.old.used }
    {
        match self.frames.pop() {
            None => Ok(self.proceed_at_top()),
            Some(Container::Items { end, listing }) => {
                let closed = self.close_items(end, listing, visitor)?;
                self.behind(closed, visitor)
            }
            Some(Container::Fields { end }) => {
                let closed = self.close_fields(end, visitor)?;
                self.behind(closed, visitor)
            }
            Some(Container::Named { end }) => {
                let closed = self.close_fields(end, visitor)?;
                self.behind(closed, visitor)
            }
            Some(Container::Annotated { .. }) => Err(Reason::Malformed),
        }
    }

    /// Behind a container that may have ended here.
    fn behind<V: Visitor>(&mut self, closed: bool, visitor: &mut V) -> Result<Effect, Reason>
        ensures does { (es : List Event) (outcome : Outcome) (first : V) →
            Closes V.takes es outcome (Result.Ok closed) self.old first visitor.old →
            Does V.takes es outcome result self.new first visitor.new }
        ensures moves { Moves self.old self.new self.old.used }
    {
        if closed {
            return self.ended(visitor);
        }
        Ok(Effect::Goes)
    }

    /// The same where no container is open.
    fn proceed_at_top(&mut self) -> Effect
        ensures goes { result ≡ effects.Goes }
        ensures new { self.new
            ≡ record self.old { phase = phases.Ready; start = self.old.used } }
    {
        self.phase = Phase::Ready;
        self.start = self.used;
        Effect::Goes
    }
}
