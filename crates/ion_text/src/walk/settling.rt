//! What waits for more, where nothing goes on.
ghost use Rattle.std.specs.Prelude.{◌≡◌, ℕ, [], List, Option, Some};
ghost use Rattle.ion_model.specs.declared.value.Payload.TheVariants as payloads;
ghost use Rattle.ion_text.specs.Names.{Does, DoesAlone, Frame, Holds, SameSetting, Symbols, annotated, ended, goes, keyed, reading_of, released, setting_of, settle, spot_of, told};
ghost use Rattle.ion_text.specs.declared.state.Held.TheVariants as helds;
ghost use Rattle.ion_text.specs.declared.state.Stage.TheVariants as stages;

use super::TextWalk;
use crate::long_text::LongText;
use crate::state::{Effect, Held, Stage};
use ion_model::{Kind, Reason, Symbol, Text};
use ion_visiting::{Part, Visitor};

impl TextWalk<'_> {
    /// What waited for more is whole.
    pub(super) fn settle<V: Visitor>(&mut self, visitor: &mut V) -> Result<Effect, Reason>
        ensures does { (fs : List Frame) (ss : Symbols) → Holds self.old fs ss →
            Does V.takes (told fs ss)
            (settle self.old.catalog.now self.old.limits (reading_of self.old fs ss))
            result self.new visitor.old visitor.new }
        ensures setting { SameSetting self.old self.new }
    {
        match self.take_stage() {
            Stage::Pending(held, end) => self.release(held, end, visitor),
            Stage::Long(text, end) => self.long_ended(text, end, visitor),
            Stage::LongName(text) => self.long_named(text),
            now => {
                self.set_stage(now);
                Ok(Effect::Goes)
            }
        }
    }

    /// A long string is a whole value with the annotations before it, and ended at `end`.
    fn long_ended<V: Visitor>(
        &mut self,
        text: LongText,
        end: u64,
        visitor: &mut V,
    ) -> Result<Effect, Reason>
        requires { self.old.stage ≡ stages.Ready }
        ensures does { (fs : List Frame) (ss : Symbols) → Holds self.old fs ss →
            Does V.takes (told fs ss)
            (ended (setting_of self.old) (spot_of self.old end) fs
            (annotated ss (payloads.Str text)))
            result self.new visitor.old visitor.new }
        ensures setting { SameSetting self.old self.new }
    {
        match text.as_str() {
            Some(said) => self.whole(&Part::Str(said), end, visitor),
            None => self.let_go_ended(Kind::Str, end, visitor),
        }
    }

    /// A long string is a field's name.
    fn long_named(&mut self, text: Text) -> Result<Effect, Reason>
        requires { self.old.stage ≡ stages.Name }
        ensures does { (fs : List Frame) → Holds self.old fs [] →
            DoesAlone (told fs [])
            (goes (keyed self.old.start self.old.context fs (Some text)))
            result self.new }
        ensures setting { SameSetting self.old self.new }
    {
        let name = Symbol::known(self.alloc, text.as_str());
        drop(text);
        self.set_stage(Stage::Keyed(name?));
        Ok(Effect::Goes)
    }

    /// No `::` follows what was held, whose token ended at `end`. A version marker stands at the
    /// top level without annotations (Ion 1.0, "Symbols", "Ion Version Markers").
    fn release<V: Visitor>(
        &mut self,
        held: Held,
        end: u64,
        visitor: &mut V,
    ) -> Result<Effect, Reason>
        requires { self.old.stage ≡ stages.Ready }
        ensures does { (fs : List Frame) (ss : Symbols) → Holds self.old fs ss →
            Does V.takes (told fs ss)
            (released (setting_of self.old) (spot_of self.old end) fs ss held)
            result self.new visitor.old visitor.new }
        ensures setting { SameSetting self.old self.new }
    {
        match held {
            Held::Version(ours, symbol) => {
                if self.is_top() && !self.noted {
                    drop(symbol);
                    return self.mark(ours, end);
                }
                self.symbol_ended(symbol, end, visitor)
            }
            Held::Symbol(symbol) => self.symbol_ended(symbol, end, visitor),
            Held::Null(kind) => self.whole(&Part::Null(kind), end, visitor),
            Held::Truth(truth) => self.whole(&Part::Truth(truth), end, visitor),
            Held::Nan => Err(Reason::Float),
        }
    }

    /// A version marker, of Ion 1.0 or of another version, ended at `end`.
    fn mark(&mut self, ours: bool, end: u64) -> Result<Effect, Reason>
        requires { self.old.stage ≡ stages.Ready }
        ensures does { (s : Option (List ℕ)) → Holds self.old [] [] →
            DoesAlone (told [] [])
            (released (setting_of self.old) (spot_of self.old end) [] [] (helds.Version ours s))
            result self.new }
        ensures setting { SameSetting self.old self.new }
    {
        let last = self.start.saturating_add(self.limits.item);
        self.start = 0;
        if !ours {
            return Ok(Effect::Late(Reason::Version));
        }
        if end > last {
            return Err(Reason::ItemTooLong);
        }
        self.context.reset();
        Ok(Effect::Goes)
    }
}
