//! What each token does (Ion 1.0, "Ion Text Encoding").
ghost use Rattle.std.specs.Prelude.{◌≡◌, [], ◌∷◌, ◌++◌, List, Some, None};
ghost use Rattle.ion_text.specs.Names.{Does, DoesAlone, Frame, Holds, Mark', Payload, SameSetting, Symbols, Word, annotated, at, ended, goes, keyed, late, layer_events, layer_kind, on_after, on_keyed, on_long, on_long_name, on_name, on_pending, on_ready, out-Payload, part, reading_of, setting_of, spot_of, told, turn};
ghost use Rattle.ion_atoms.specs.declared.refusal.Reason.TheVariants as reasons;
ghost use Rattle.ion_tokens.specs.Bodies.{content};
ghost use Rattle.ion_text.specs.declared.state.Stage.TheVariants as stages;
ghost use Rattle.ion_tokens.specs.declared.token.Body.{Body};
ghost use Rattle.ion_text.specs.machine.Views.{token_in};

use super::{TextWalk, heard};
use crate::long_text::LongText;
use crate::state::{Effect, Held, Stage};
use crate::tokens::long_strings::joined;
use crate::words::held_word;
use ion_atoms::LetGo;
use ion_model::{Kind, Reason, Symbol, Text};
use ion_spelling::is_keyword;
use ion_tokens::{Body, Mark, TextKind, Token};
use ion_visiting::{Bracket, Part, Visitor};

impl TextWalk<'_> {
    /// What a token does.
    pub(super) fn turn<V: Visitor>(
        &mut self,
        token: Token<'_>,
        visitor: &mut V,
    ) -> Result<Effect, Reason>
        ensures does { (fs : List Frame) (ss : Symbols) → Holds self.old fs ss →
            Does V.takes (told fs ss)
            (turn self.old.catalog.now self.old.limits (reading_of self.old fs ss)
            (token_in token.entry))
            result self.new visitor.old visitor.new }
        ensures setting { SameSetting self.old self.new }
    {
        let Token { start, end, body } = token;
        match self.take_stage() {
            Stage::Ready => {
                self.start = self.begun_at(start);
                self.on_ready(end, body, visitor)
            }
            Stage::Pending(held, _) => self.on_pending(held, body, visitor),
            Stage::Long(text, _) => self.on_long(text, end, body),
            Stage::After => self.on_after(end, body, visitor),
            Stage::Name => self.on_name(end, body, visitor),
            Stage::LongName(text) => self.on_long_name(text, body),
            Stage::Keyed(name) => self.on_keyed(name, body, visitor),
        }
    }

    /// A token where a value or an annotation may come.
    fn on_ready<V: Visitor>(
        &mut self,
        end: u64,
        body: Body<'_>,
        visitor: &mut V,
    ) -> Result<Effect, Reason>
        requires { self.old.stage ≡ stages.Ready }
        ensures does { (fs : List Frame) (ss : Symbols) → Holds self.old fs ss →
            Does V.takes (told fs ss)
            (on_ready (setting_of self.old) (spot_of self.old end) fs ss (content body.entry))
            result self.new visitor.old visitor.new }
        ensures setting { SameSetting self.old self.new }
    {
        match body {
            Body::Word(word) => {
                let held = held_word(&mut self.recent, word.as_str())?;
                self.wait(held, end)
            }
            Body::Id(id) => {
                let symbol = self.context.resolve(id)?;
                self.wait(Held::Symbol(symbol), end)
            }
            Body::Quoted(text) => {
                let symbol = self.recent.symbol(text.as_str())?;
                self.wait(Held::Symbol(symbol), end)
            }
            Body::TypedNull(kind) => self.wait(Held::Null(kind), end),
            Body::Long(text) => self.wait_long(LongText::new(text), end),
            Body::LetGo(kind, gone) => self.on_let_go(kind, gone, end, visitor),
            Body::Short(text) => self.whole(&Part::Str(text.as_str()), end, visitor),
            Body::Number(number) => self.number_ended(number, end, visitor),
            Body::Operator(word) => self.whole(&Part::Symbol(word.as_str()), end, visitor),
            Body::Clob(octets) => self.whole(&Part::Clob(octets.as_slice()), end, visitor),
            Body::Blob(octets) => self.whole(&Part::Blob(octets.as_slice()), end, visitor),
            Body::Mark(mark) => self.on_mark(end, mark, visitor),
        }
    }

    /// The first segment of a long string has come.
    fn wait_long(&mut self, text: LongText, end: u64) -> Result<Effect, Reason>
        requires { self.old.stage ≡ stages.Ready }
        ensures does { (fs : List Frame) (ss : Symbols) → Holds self.old fs ss →
            DoesAlone (told fs ss)
            (goes (at self.old.start self.old.context fs ss (stages.Long text end)))
            result self.new }
        ensures setting { SameSetting self.old self.new }
    {
        self.set_stage(Stage::Long(text, end));
        Ok(Effect::Goes)
    }

    /// A text or a blob there of which octets were let go.
    fn on_let_go<V: Visitor>(
        &mut self,
        kind: TextKind,
        gone: LetGo,
        end: u64,
        visitor: &mut V,
    ) -> Result<Effect, Reason>
        requires { self.old.stage ≡ stages.Ready }
        ensures does { (fs : List Frame) (ss : Symbols) → Holds self.old fs ss →
            Does V.takes (told fs ss)
            (on_ready (setting_of self.old) (spot_of self.old end) fs ss
            (content (Body.LetGo kind gone)))
            result self.new visitor.old visitor.new }
        ensures setting { SameSetting self.old self.new }
    {
        match kind {
            TextKind::Long => {
                let text = LongText::gone(self.alloc, &gone);
                drop(gone);
                self.wait_long(text, end)
            }
            TextKind::Short => self.let_go_ended(Kind::Str, end, visitor),
            TextKind::Clob => self.let_go_ended(Kind::Clob, end, visitor),
            TextKind::Blob => self.let_go_ended(Kind::Blob, end, visitor),
        }
    }

    /// A text or a blob, of this kind, of which octets were let go, is a whole value with the
    /// annotations before it, and ended at `end`. A visitor that heeds what it says can't go on.
    #[inline(never)]
    pub(super) fn let_go_ended<V: Visitor>(
        &mut self,
        kind: Kind,
        end: u64,
        visitor: &mut V,
    ) -> Result<Effect, Reason>
        requires { self.old.stage ≡ stages.Ready }
        ensures does { (payload : Payload) → layer_kind (out-Payload payload) ≡ kind →
            layer_events (out-Payload payload) ≡ part payload ∷ [] →
            (fs : List Frame) (ss : Symbols) → Holds self.old fs ss →
            Does V.takes (told fs ss)
            (ended (setting_of self.old) (spot_of self.old end) fs (annotated ss payload))
            result self.new visitor.old visitor.new }
        ensures setting { SameSetting self.old self.new }
    {
        let Some(went_on) = self.filter.of_kind(kind, visitor) else {
            return Err(Reason::Memory);
        };
        heard(went_on)?;
        self.ended(end)
    }

    /// A mark there. A close is unexpected behind an annotation.
    fn on_mark<V: Visitor>(
        &mut self,
        end: u64,
        mark: Mark,
        visitor: &mut V,
    ) -> Result<Effect, Reason>
        requires { self.old.stage ≡ stages.Ready }
        ensures does { (fs : List Frame) (ss : Symbols) → Holds self.old fs ss →
            Does V.takes (told fs ss)
            (on_ready (setting_of self.old) (spot_of self.old end) fs ss (Mark' mark))
            result self.new visitor.old visitor.new }
        ensures setting { SameSetting self.old self.new }
    {
        match (mark, self.noted) {
            (Mark::ListOpen, _) => self.open(Bracket::List, visitor),
            (Mark::SexpOpen, _) => self.open(Bracket::Sexp, visitor),
            (Mark::FieldsOpen, _) => self.open(Bracket::Fields, visitor),
            (Mark::ListClose, false) => self.close(Bracket::List, end, visitor),
            (Mark::SexpClose, false) => self.close(Bracket::Sexp, end, visitor),
            _ => Err(Reason::Unexpected),
        }
    }

    /// What may be an annotation has come.
    fn wait(&mut self, held: Held, end: u64) -> Result<Effect, Reason>
        requires { self.old.stage ≡ stages.Ready }
        ensures does { (fs : List Frame) (ss : Symbols) → Holds self.old fs ss →
            DoesAlone (told fs ss)
            (goes (at self.old.start self.old.context fs ss (stages.Pending held end)))
            result self.new }
        ensures setting { SameSetting self.old self.new }
    {
        self.set_stage(Stage::Pending(held, end));
        Ok(Effect::Goes)
    }

    /// A token behind what may be an annotation.
    fn on_pending<V: Visitor>(
        &mut self,
        held: Held,
        body: Body<'_>,
        visitor: &mut V,
    ) -> Result<Effect, Reason>
        requires { self.old.stage ≡ stages.Ready }
        ensures does { (fs : List Frame) (ss : Symbols) → Holds self.old fs ss →
            Does V.takes (told fs ss)
            (on_pending self.old.start self.old.context fs ss held (content body.entry))
            result self.new visitor.old visitor.new }
        ensures setting { SameSetting self.old self.new }
    {
        match (body, held) {
            (Body::Mark(Mark::Colons), Held::Symbol(symbol)) => self.note(symbol, visitor),
            (Body::Mark(Mark::Colons), Held::Version(_, symbol)) => self.note(symbol, visitor),
            (Body::Mark(Mark::Colons), Held::Null(_)) => self.annotation_keyword(visitor),
            (Body::Mark(Mark::Colons), Held::Truth(_)) => self.annotation_keyword(visitor),
            (Body::Mark(Mark::Colons), Held::Nan) => self.annotation_keyword(visitor),
            _ => Err(Reason::Unexpected),
        }
    }

    /// An annotation has come.
    pub(super) fn note<V: Visitor>(
        &mut self,
        symbol: Symbol,
        visitor: &mut V,
    ) -> Result<Effect, Reason>
        requires { self.old.stage ≡ stages.Ready }
        ensures does { (fs : List Frame) (ss : Symbols) → Holds self.old fs ss →
            Does V.takes (told fs ss)
            (goes (at self.old.start self.old.context fs (ss ++ symbol ∷ []) stages.Ready))
            result self.new visitor.old visitor.new }
        ensures setting { SameSetting self.old self.new }
    {
        let told = self.filter.annotation(&symbol, visitor);
        drop(symbol);
        heard(told)?;
        self.noted = true;
        Ok(Effect::Goes)
    }

    /// A keyword has come in place of an annotation. The octet behind it may be refused for a
    /// smaller reason.
    fn annotation_keyword<V: Visitor>(&mut self, visitor: &mut V) -> Result<Effect, Reason>
        requires { self.old.stage ≡ stages.Ready }
        ensures does { (fs : List Frame) (ss : Symbols) → Holds self.old fs ss →
            Does V.takes (told fs ss)
            (late reasons.KeywordAsName
            (at self.old.start self.old.context fs (ss ++ None ∷ []) stages.Ready))
            result self.new visitor.old visitor.new }
        ensures setting { SameSetting self.old self.new }
    {
        let symbol = Symbol::unknown();
        let told = self.filter.annotation(&symbol, visitor);
        drop(symbol);
        heard(told)?;
        self.noted = true;
        Ok(Effect::Late(Reason::KeywordAsName))
    }

    /// A token behind the segments of a long string.
    fn on_long(&mut self, text: LongText, end: u64, body: Body<'_>) -> Result<Effect, Reason>
        requires { self.old.stage ≡ stages.Ready }
        ensures does { (fs : List Frame) (ss : Symbols) → Holds self.old fs ss →
            DoesAlone (told fs ss)
            (on_long (spot_of self.old end) fs ss text (content body.entry))
            result self.new }
        ensures setting { SameSetting self.old self.new }
    {
        match body {
            Body::Long(more) => {
                let text = text.join(&more);
                drop(more);
                self.set_stage(Stage::Long(text?, end));
                Ok(Effect::Goes)
            }
            Body::LetGo(TextKind::Long, more) => {
                let text = text.join_gone(self.alloc, &more);
                drop(more);
                self.set_stage(Stage::Long(text, end));
                Ok(Effect::Goes)
            }
            other => {
                drop(other);
                drop(text);
                Err(Reason::Unexpected)
            }
        }
    }

    /// A token behind the segments of a long string that is a field's name.
    fn on_long_name(&mut self, text: Text, body: Body<'_>) -> Result<Effect, Reason>
        requires { self.old.stage ≡ stages.Name }
        ensures does { (fs : List Frame) → Holds self.old fs [] →
            DoesAlone (told fs [])
            (on_long_name self.old.start self.old.context fs text (content body.entry))
            result self.new }
        ensures setting { SameSetting self.old self.new }
    {
        match body {
            Body::Long(more) => {
                let text = joined(text, &more);
                drop(more);
                self.set_stage(Stage::LongName(text?));
                Ok(Effect::Goes)
            }
            Body::LetGo(_, gone) => {
                drop(gone);
                drop(text);
                Err(Reason::Memory)
            }
            other => {
                drop(other);
                drop(text);
                Err(Reason::Unexpected)
            }
        }
    }

    /// A token where a field's name or the close of a struct may come.
    fn on_name<V: Visitor>(
        &mut self,
        end: u64,
        body: Body<'_>,
        visitor: &mut V,
    ) -> Result<Effect, Reason>
        requires { self.old.stage ≡ stages.Name }
        ensures does { (fs : List Frame) → Holds self.old fs [] →
            Does V.takes (told fs [])
            (on_name (setting_of self.old) (spot_of self.old end) fs (content body.entry))
            result self.new visitor.old visitor.new }
        ensures setting { SameSetting self.old self.new }
    {
        match body {
            Body::Word(word) => self.word_named(word.as_str()),
            Body::TypedNull(_) => self.null_named(),
            Body::Id(id) => {
                let name = self.context.resolve(id)?;
                self.key(name)
            }
            Body::Quoted(text) => self.text_named(text),
            Body::Short(text) => self.text_named(text),
            Body::Long(text) => self.key_long(text),
            Body::Mark(Mark::FieldsClose) => self.close(Bracket::Fields, end, visitor),
            Body::LetGo(_, gone) => {
                drop(gone);
                Err(Reason::Memory)
            }
            other => {
                drop(other);
                Err(Reason::Unexpected)
            }
        }
    }

    /// The name of a field has come.
    fn key(&mut self, name: Symbol) -> Result<Effect, Reason>
        requires { self.old.stage ≡ stages.Name }
        ensures does { (fs : List Frame) → Holds self.old fs [] →
            DoesAlone (told fs [])
            (goes (keyed self.old.start self.old.context fs name))
            result self.new }
        ensures setting { SameSetting self.old self.new }
    {
        self.set_stage(Stage::Keyed(name));
        Ok(Effect::Goes)
    }

    /// The first segment of a long string that is a field's name.
    fn key_long(&mut self, text: Text) -> Result<Effect, Reason>
        requires { self.old.stage ≡ stages.Name }
        ensures does { (fs : List Frame) → Holds self.old fs [] →
            DoesAlone (told fs [])
            (goes (at self.old.start self.old.context fs [] (stages.LongName text)))
            result self.new }
        ensures setting { SameSetting self.old self.new }
    {
        self.set_stage(Stage::LongName(text));
        Ok(Effect::Goes)
    }

    /// A typed null in place of a field's name. The octet behind it may be refused for a smaller
    /// reason.
    fn null_named(&mut self) -> Result<Effect, Reason>
        requires { self.old.stage ≡ stages.Name }
        ensures does { (fs : List Frame) → Holds self.old fs [] →
            DoesAlone (told fs [])
            (late reasons.KeywordAsName (keyed self.old.start self.old.context fs None))
            result self.new }
        ensures setting { SameSetting self.old self.new }
    {
        self.set_stage(Stage::Keyed(Symbol::unknown()));
        Ok(Effect::Late(Reason::KeywordAsName))
    }

    /// A text in quotes that is a field's name.
    fn text_named(&mut self, text: Text) -> Result<Effect, Reason>
        requires { self.old.stage ≡ stages.Name }
        ensures does { (fs : List Frame) → Holds self.old fs [] →
            DoesAlone (told fs [])
            (goes (keyed self.old.start self.old.context fs (Some text)))
            result self.new }
        ensures setting { SameSetting self.old self.new }
    {
        let name = self.recent.symbol(text.as_str());
        drop(text);
        self.set_stage(Stage::Keyed(name?));
        Ok(Effect::Goes)
    }

    /// A word that is a field's name. The octet behind a keyword may be refused for a smaller
    /// reason.
    fn word_named(&mut self, word: &str) -> Result<Effect, Reason>
        requires { self.old.stage ≡ stages.Name }
        ensures does { (fs : List Frame) → Holds self.old fs [] →
            DoesAlone (told fs [])
            (on_name (setting_of self.old) (spot_of self.old 0) fs (Word word.now))
            result self.new }
        ensures setting { SameSetting self.old self.new }
    {
        let name = self.recent.symbol(word)?;
        self.set_stage(Stage::Keyed(name));
        if is_keyword(word) {
            return Ok(Effect::Late(Reason::KeywordAsName));
        }
        Ok(Effect::Goes)
    }

    /// A token behind an element of a list or a field.
    fn on_after<V: Visitor>(
        &mut self,
        end: u64,
        body: Body<'_>,
        visitor: &mut V,
    ) -> Result<Effect, Reason>
        requires { self.old.stage ≡ stages.After }
        ensures does { (fs : List Frame) → Holds self.old fs [] →
            Does V.takes (told fs [])
            (on_after (setting_of self.old) (spot_of self.old end) fs (content body.entry))
            result self.new visitor.old visitor.new }
        ensures setting { SameSetting self.old self.new }
    {
        match body {
            Body::Mark(mark) => self.on_mark_after(end, mark, visitor),
            other => {
                drop(other);
                Err(Reason::Unexpected)
            }
        }
    }

    /// A mark there.
    fn on_mark_after<V: Visitor>(
        &mut self,
        end: u64,
        mark: Mark,
        visitor: &mut V,
    ) -> Result<Effect, Reason>
        requires { self.old.stage ≡ stages.After }
        ensures does { (fs : List Frame) → Holds self.old fs [] →
            Does V.takes (told fs [])
            (on_after (setting_of self.old) (spot_of self.old end) fs (Mark' mark))
            result self.new visitor.old visitor.new }
        ensures setting { SameSetting self.old self.new }
    {
        match mark {
            Mark::Comma => self.on_comma(),
            Mark::ListClose => self.close(Bracket::List, end, visitor),
            Mark::FieldsClose => self.close(Bracket::Fields, end, visitor),
            _ => Err(Reason::Unexpected),
        }
    }

    /// A token behind a field's name.
    fn on_keyed<V: Visitor>(
        &mut self,
        name: Symbol,
        body: Body<'_>,
        visitor: &mut V,
    ) -> Result<Effect, Reason>
        requires { self.old.stage ≡ stages.Name }
        ensures does { (fs : List Frame) → Holds self.old fs [] →
            Does V.takes (told fs [])
            (on_keyed self.old.start self.old.context fs name (content body.entry))
            result self.new visitor.old visitor.new }
        ensures setting { SameSetting self.old self.new }
    {
        match body {
            Body::Mark(Mark::Colon) => self.named(name, visitor),
            other => {
                drop(other);
                drop(name);
                Err(Reason::Unexpected)
            }
        }
    }
}
