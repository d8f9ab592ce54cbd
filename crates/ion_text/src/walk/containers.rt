//! Containers: where they open, where they close, and what stands between their values.
ghost use Rattle.std.specs.Prelude.{option_map, if◌then◌else◌, ◌≡◌, [], List, OnOk, IfErr};
ghost use Rattle.ion_text.specs.Names.{Does, DoesAlone, Enters, Frame, Holds, MayClose, Memory, SameSetting, Symbols, behind_comma, calm, closed, closes_in, first_now, named, on_comma, open_brackets, opening, setting_of, spot_of, told};
ghost use Rattle.ion_text.specs.declared.state.Stage.TheVariants as stages;

use super::{TextWalk, heard};
use crate::state::{Effect, Stage};
use ion_model::{Reason, Symbol};
use ion_visiting::{Bracket, Visitor, is_fields};

// What may come behind what opens such a container.
#[inline(always)]
fn first_now(bracket: Bracket) -> Stage
    ensures { result ≡ first_now bracket }
{
    match bracket {
        Bracket::Fields => Stage::Name,
        _ => Stage::Ready,
    }
}

impl TextWalk<'_> {
    /// Behind what opens such a container. The octet behind `{` shows that it is no `{{`, and may be
    /// refused for a smaller reason.
    pub(super) fn open<V: Visitor>(
        &mut self,
        bracket: Bracket,
        visitor: &mut V,
    ) -> Result<Effect, Reason>
        requires { self.old.stage ≡ stages.Ready }
        ensures does { (fs : List Frame) (ss : Symbols) → Holds self.old fs ss →
            Does V.takes (told fs ss)
            (opening bracket self.old.limits.depth self.old.start self.old.context fs ss)
            result self.new visitor.old visitor.new }
        ensures setting { SameSetting self.old self.new }
    {
        if self.may_deepen() {
            self.enter(bracket, visitor)?;
            return Ok(Effect::Goes);
        }
        if !is_fields(bracket) {
            return Err(Reason::Depth);
        }
        self.enter(bracket, visitor)?;
        Ok(Effect::Late(Reason::Depth))
    }

    // One container more is open.
    fn enter<V: Visitor>(&mut self, bracket: Bracket, visitor: &mut V) -> Result<(), Reason>
        requires { self.old.stage ≡ stages.Ready }
        ensures enters { OnOk result ((fs : List Frame) (ss : Symbols) → Holds self.old fs ss →
            Enters V.takes bracket self.old self.new fs ss visitor.old visitor.new) }
        ensures memory { IfErr result (λ reason. reason ≡ Memory) }
        ensures setting { SameSetting self.old self.new }
    {
        heard(self.filter.open(bracket, visitor))?;
        self.noted = false;
        self.frames.push(bracket)?;
        self.set_stage(first_now(bracket));
        Ok(())
    }

    // Whether a close of such a container closes the innermost of those that are open.
    fn closes(&self, bracket: Bracket) -> bool
        ensures { result ≡ closes_in bracket (open_brackets self.now) }
    {
        match (bracket, self.frames.last()) {
            (Bracket::List, Some(Bracket::List)) => true,
            (Bracket::Sexp, Some(Bracket::Sexp)) => true,
            (Bracket::Fields, Some(Bracket::Fields)) => true,
            _ => false,
        }
    }

    // Whether a field's name may come behind a comma, where one may stand behind a value; else an
    // element may.
    #[inline(always)]
    fn names_behind_comma(&self) -> Option<bool>
        ensures { behind_comma (open_brackets self.now)
            ≡ option_map (λ names. if names then stages.Name else stages.Ready) result }
    {
        match self.frames.last() {
            Some(Bracket::List) => Some(false),
            Some(Bracket::Fields) => Some(true),
            _ => None,
        }
    }

    /// Behind what closes such a container.
    pub(super) fn close<V: Visitor>(
        &mut self,
        bracket: Bracket,
        end: u64,
        visitor: &mut V,
    ) -> Result<Effect, Reason>
        requires { MayClose bracket (calm self.old.stage) }
        ensures does { (fs : List Frame) → Holds self.old fs [] →
            Does V.takes (told fs [])
            (closed bracket (setting_of self.old) (spot_of self.old end) fs)
            result self.new visitor.old visitor.new }
        ensures setting { SameSetting self.old self.new }
    {
        if !self.closes(bracket) {
            return Err(Reason::Unexpected);
        }
        let _closed = self.frames.pop();
        heard(self.filter.close(bracket, visitor))?;
        self.ended(end)
    }

    /// Behind a comma.
    #[inline(always)]
    pub(super) fn on_comma(&mut self) -> Result<Effect, Reason>
        requires { self.old.stage ≡ stages.After }
        ensures does { (fs : List Frame) → Holds self.old fs [] →
            DoesAlone (told fs [])
            (on_comma self.old.start self.old.context fs)
            result self.new }
        ensures setting { SameSetting self.old self.new }
    {
        let Some(names) = self.names_behind_comma() else {
            return Err(Reason::Unexpected);
        };
        if names {
            self.set_stage(Stage::Name);
            return Ok(Effect::Goes);
        }
        self.set_stage(Stage::Ready);
        Ok(Effect::Goes)
    }

    /// Behind the colon of a field of this name.
    pub(super) fn named<V: Visitor>(
        &mut self,
        name: Symbol,
        visitor: &mut V,
    ) -> Result<Effect, Reason>
        requires { self.old.stage ≡ stages.Name }
        ensures does { (fs : List Frame) → Holds self.old fs [] →
            Does V.takes (told fs [])
            (named self.old.start self.old.context fs name)
            result self.new visitor.old visitor.new }
        ensures setting { SameSetting self.old self.new }
    {
        let told = self.filter.name(&name, visitor);
        drop(name);
        heard(told)?;
        self.set_stage(Stage::Ready);
        Ok(Effect::Goes)
    }
}
