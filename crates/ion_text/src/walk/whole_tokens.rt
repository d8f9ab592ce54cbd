//! Tokens that lie whole in a piece, wherever it begins: one loop takes them up and tells their
//! events. It recurses nowhere, so it goes on where the last piece ended. What is cut, refused or
//! unusual is left to the octets, and so is at least the last octet.
//!
//! A value goes on where a container is open, and ends an item of the top level where none is. What
//! else might come of a token couldn't come, and is told as memory that ran out, which says nothing
//! of the octets. The ends of local symbol tables are left to them.
#![tactic(auto)]

ghost use Rattle.std.specs.Prelude.{◌≡◌, ℕ, ◌+◌, ◌-◌, ◌<◌, ◌≤◌, ◌^◌, List, [], ◌∷◌, ◌++◌, length, get_or, take, drop, false, true, Some, IfOk, IfErr, IfSome, OnOk};
ghost use Rattle.ion_text.specs.Names.{BeginsName, Does, EndsBy, FoundNumber, FoundPart, FoundSymbol, Frame, Holds, IsFine, IsHere, IsStill, MayClose, Memory, OpensAt, Place as AnyPlace, Rest as AnyRest, RestsBehind, SamePlace, SameReader, SameSetting, StaysSteady, Symbols, Takes, TookSo, WentOn, begun_at, calm, close_octet, closes, ends_symbol, is_name, is_null_struct, is_top, named, names_table, only_goes, past_blank, past_token, payload_of, resting, scanned, told, value_took};
ghost use Rattle.ion_text.specs.walk.Advances.{gone};
ghost use Rattle.ion_tokens.specs.declared.mode.Place.TheVariants as places;
ghost use Rattle.ion_text.specs.declared.state.Stage.TheVariants as stages;

use super::untold::untold_number;
use super::{TextWalk, heard};
use crate::state::{Effect, Stage, Taken};
use crate::tokens::annotations::{Annotation, annotation_at};
use crate::tokens::finders::{
    Scalar, begins_number, begins_symbol, may_be_unusual, number_at, operator_at, other_symbol_at,
    plain_name, short_number_at, string_at, word_at,
};
use crate::tokens::marks::{bracket_at, close_mark, open_mark};
use crate::tokens::symbols::{behind_name, behind_waiting};
use ion_model::{Kind, Reason};
use ion_scalar::Number;
use ion_tokens::{FoundToken, Mark, Place, Rest, TokenKind, blank_with_comments, blanks};
use ion_visiting::{Bracket, Part, Visitor};

// Goes behind so many octets of a blank.
#[inline(always)]
pub(super) fn go_past_blank(rest: &mut Rest, count: usize)
    requires { rest.old.used + count < 2 ^ 63 }
    ensures { rest.new ≡ past_blank rest.old count }
{
    if count > 0 {
        let used = rest.used + count as u64;
        rest.start = used - 1;
        rest.used = used;
    }
}

// Goes behind the blank at the front, with the comments in it that end there: how many octets it has.
// Where all are of it, it goes nowhere.
#[inline(never)]
fn past_comments(rest: &mut Rest, octets: &[u8]) -> usize
    requires some { 0 < length octets.now }
    requires room { rest.old.used + length octets.now < 2 ^ 63 }
    ensures rests { RestsBehind octets.now result rest.old rest.new }
    ensures within { result < length octets.now }
{
    let (blank, behind) = blank_with_comments(octets, *rest);
    if blank >= octets.len() {
        return 0;
    }
    *rest = behind;
    blank
}

// Whether a part may be a local symbol table where it is annotated as one.
#[inline(always)]
fn is_null_struct(said: &Part<'_>) -> bool
    ensures { result ≡ is_null_struct said.now }
{
    match said {
        Part::Null(kind) => matches!(kind, Kind::Fields),
        _ => false,
    }
}

// What a token answers that is only followed by more.
#[inline(always)]
pub(super) fn only_goes(effect: Result<Effect, Reason>) -> Result<Taken, Reason>
    ensures { result ≡ only_goes effect }
{
    match effect {
        Ok(Effect::Goes) => Ok(Taken::Uses),
        _ => Err(Reason::Memory),
    }
}

// What a token answers that ends a value; the octet behind it may show its end.
#[inline(always)]
pub(super) fn value_took(effect: Result<Effect, Reason>, left: bool) -> Result<Taken, Reason>
    ensures { result ≡ value_took effect left }
{
    match effect {
        Ok(Effect::Goes) => Ok(Taken::Uses),
        Ok(Effect::Gives) if left => Ok(Taken::Leaves),
        Ok(Effect::Gives) => Ok(Taken::Tells),
        _ => Err(Reason::Memory),
    }
}

impl TextWalk<'_> {
    /// Takes up the tokens at the front of a piece that lie whole there, up to the end of a value of
    /// the top level, and tells a visitor their events: what they did. How many octets they have is
    /// how far the scanner has moved, which rests before them, and behind them again where they
    /// ended no value. The only refusal is `Memory`.
    #[inline(always)]
    pub(super) fn read_tokens<V: Visitor>(
        &mut self,
        first: Rest,
        piece: &[u8],
        visitor: &mut V,
    ) -> Result<Taken, Reason>
        requires rests { scanned self.old.scanner ≡ resting first }
        requires still { IsStill self.old.stage }
        requires fine { IsFine self.old }
        requires room { (scanned self.old.scanner).used + length piece.now < 2 ^ 63 }
        ensures took { IfOk result (λ taken. (fs : List Frame) (ss : Symbols) →
            Holds self.old fs ss → TookSo V.takes fs ss self.old self.new piece.now
            (gone self.old self.new) visitor.old visitor.new taken) }
        ensures within { IfOk result (λ _. gone self.old self.new ≤ length piece.now - 1) }
        ensures on { IfOk result (λ _.
            (scanned self.old.scanner).used ≤ (scanned self.new.scanner).used) }
        ensures memory { IfErr result (λ reason. reason ≡ Memory) }
        ensures fine { IfOk result (λ _. IsFine self.new) }
        ensures steady { IfOk result (λ _. StaysSteady self.old self.new) }
        ensures same { SameReader self.old self.new }
    {
        let octets = self.within(piece, first.used);
        if octets.len() < 2 {
            return Ok(Taken::Uses);
        }
        let mut rest = first;
        let taken = self.read_each(&mut rest, octets, visitor)?;
        self.scanner.move_to(rest);
        Ok(taken)
    }

    /// Where the scanner rests, if tokens may be taken up at once: none has begun, and nothing
    /// waits.
    #[inline(always)]
    pub(super) fn rests(&self) -> Option<Rest>
        ensures rests { IfSome result (λ rest. scanned self.now.scanner ≡ resting rest) }
        ensures still { IfSome result (λ _. IsStill self.now.stage) }
    {
        match &self.stage {
            Stage::Ready | Stage::Name | Stage::After => self.scanner.rest(),
            _ => None,
        }
    }

    /// The octets of a piece, behind so many others, that the limit on items leaves to the open
    /// item, or to the next one.
    #[inline(always)]
    fn within<'p>(&self, piece: &'p [u8], used: u64) -> &'p [u8]
        ensures front { (most : ℕ) × (result.now ≡ take most piece.now) }
        ensures few { length result.now ≤ length piece.now }
        ensures fits { 0 < length result.now → (fs : List Frame) (ss : Symbols) →
            Holds self.now fs ss → used + length result.now
            ≤ self.now.limits.item + begun_at self.now.start used fs ss }
    {
        let last = self.begun_at(used).saturating_add(self.limits.item);
        let room = last.saturating_sub(used);
        if (piece.len() as u64) <= room {
            piece
        } else {
            &piece[..room as usize]
        }
    }

    /// The same of octets, behind which the scanner isn't moved yet. How many were taken up is how
    /// far the place it would rest at has moved.
    #[inline(always)]
    fn read_each<V: Visitor>(
        &mut self,
        rest: &mut Rest,
        octets: &[u8],
        visitor: &mut V,
    ) -> Result<Taken, Reason>
        requires room { rest.old.used + length octets.now < 2 ^ 63 }
        ensures { EndsBy V.takes self.old self.new rest.old rest.new octets.now result
            visitor.old visitor.new }
    {
        let first = rest.used;
        let mut at = 0;
        loop {
            let taken = self.read_some(rest, &octets[at..], visitor)?;
            let now = (rest.used - first) as usize;
            if now == at {
                return Ok(taken);
            }
            match taken {
                Taken::Uses => at = now,
                _ => return Ok(taken),
            }
        }
    }

    /// A blank, and the token behind it; behind a comma the name of a field too, if one comes next.
    #[inline(always)]
    pub(super) fn read_next<V: Visitor>(
        &mut self,
        rest: &mut Rest,
        octets: &[u8],
        visitor: &mut V,
    ) -> Result<Taken, Reason>
        requires room { rest.old.used + length octets.now < 2 ^ 63 }
        ensures { EndsBy V.takes self.old self.new rest.old rest.new octets.now result
            visitor.old visitor.new }
    {
        let blank = blanks(octets);
        if blank >= octets.len() {
            return Ok(Taken::Uses);
        }
        if octets[blank] == b'/' {
            past_comments(rest, octets);
            return Ok(Taken::Uses);
        }
        go_past_blank(rest, blank);
        self.read_token(rest, &octets[blank..], visitor)
    }

    /// A token, with what has to be seen behind it.
    #[inline(always)]
    fn read_token<V: Visitor>(
        &mut self,
        rest: &mut Rest,
        octets: &[u8],
        visitor: &mut V,
    ) -> Result<Taken, Reason>
        requires room { rest.old.used + length octets.now < 2 ^ 63 }
        ensures { EndsBy V.takes self.old self.new rest.old rest.new octets.now result
            visitor.old visitor.new }
    {
        if octets.len() < 2 {
            return Ok(Taken::Uses);
        }
        // one by one: a table of all stages takes longer
        if matches!(self.stage, Stage::Ready) {
            return self.read_value(rest, octets, visitor);
        }
        if matches!(self.stage, Stage::After) {
            return self.read_after(rest, octets, visitor);
        }
        if matches!(self.stage, Stage::Name) {
            return self.read_name(rest, octets, visitor);
        }
        Ok(Taken::Uses)
    }

    /// What stands behind a value of a list or a struct: a close, or a comma, and behind that the
    /// name of a field, if one comes next.
    #[inline(always)]
    fn read_after<V: Visitor>(
        &mut self,
        rest: &mut Rest,
        octets: &[u8],
        visitor: &mut V,
    ) -> Result<Taken, Reason>
        requires { Takes stages.After self.old rest.old octets.now }
        ensures { EndsBy V.takes self.old self.new rest.old rest.new octets.now result
            visitor.old visitor.new }
    {
        if octets[0] != b',' {
            return self.read_close(rest, octets, visitor);
        }
        let first = rest.used;
        match self.read_comma(rest, octets, visitor)? {
            Taken::Uses => {}
            taken => return Ok(taken),
        }
        let count = (rest.used - first) as usize;
        self.read_next_name(rest, &octets[count..], visitor)
    }

    /// The name of a field with its colon, and the blank before it, if it comes next.
    #[inline(always)]
    fn read_next_name<V: Visitor>(
        &mut self,
        rest: &mut Rest,
        octets: &[u8],
        visitor: &mut V,
    ) -> Result<Taken, Reason>
        requires room { rest.old.used + length octets.now < 2 ^ 63 }
        ensures { EndsBy V.takes self.old self.new rest.old rest.new octets.now result
            visitor.old visitor.new }
    {
        if !matches!(self.stage, Stage::Name) {
            return Ok(Taken::Uses);
        }
        let blank = blanks(octets);
        if octets.len() - blank < 2 {
            return Ok(Taken::Uses);
        }
        go_past_blank(rest, blank);
        self.read_name(rest, &octets[blank..], visitor)
    }

    /// A comma, of which a visitor hears nothing.
    #[inline(always)]
    fn read_comma<V: Visitor>(
        &mut self,
        rest: &mut Rest,
        octets: &[u8],
        visitor: &V,
    ) -> Result<Taken, Reason>
        requires takes { Takes stages.After self.old rest.old octets.now }
        requires comma { get_or octets.now 0 0 ≡ 44 }
        ensures { EndsBy V.takes self.old self.new rest.old rest.new octets.now result
            visitor.now visitor.now }
    {
        let here = self.place();
        *rest = rest.past_token(here, TokenKind::Mark(Mark::Comma), 1);
        only_goes(self.on_comma())
    }

    /// What the octet closes, if that is the innermost container.
    #[inline(always)]
    pub(super) fn closing(&self, octet: u8) -> Option<Bracket>
        ensures may { IfSome result (λ bracket. MayClose bracket (calm self.now.stage)) }
        ensures octet { IfSome result (λ bracket. octet ≡ close_octet bracket) }
        ensures closes { IfSome result (λ bracket. (fs : List Frame) (ss : Symbols) →
            Holds self.now fs ss → (closes bracket fs self.now.stage ≡ true) × (ss ≡ [])) }
    {
        if self.noted {
            return None;
        }
        match (octet, self.frames.last(), &self.stage) {
            (b']', Some(Bracket::List), Stage::Ready | Stage::After) => Some(Bracket::List),
            (b')', Some(Bracket::Sexp), Stage::Ready) => Some(Bracket::Sexp),
            (b'}', Some(Bracket::Fields), Stage::Name | Stage::After) => Some(Bracket::Fields),
            _ => None,
        }
    }

    /// A close, but that of what may be a local symbol table, which may end no value.
    #[inline(always)]
    pub(super) fn read_close<V: Visitor>(
        &mut self,
        rest: &mut Rest,
        octets: &[u8],
        visitor: &mut V,
    ) -> Result<Taken, Reason>
        requires more { 1 < length octets.now }
        requires room { rest.old.used + length octets.now < 2 ^ 63 }
        ensures { EndsBy V.takes self.old self.new rest.old rest.new octets.now result
            visitor.old visitor.new }
    {
        let nested = self.frames.len() > 1;
        if !nested && self.filter.may_be_table() {
            return Ok(Taken::Uses);
        }
        let Some(bracket) = self.closing(octets[0]) else {
            return Ok(Taken::Uses);
        };
        let here = self.place();
        *rest = rest.past_token(here, TokenKind::Mark(close_mark(bracket)), 1);
        match self.close(bracket, rest.used, visitor) {
            Ok(Effect::Goes) if nested => Ok(Taken::Uses),
            Ok(Effect::Gives) => Ok(Taken::Tells),
            _ => Err(Reason::Memory),
        }
    }

    /// The name of a field with its colon, or a close.
    #[inline(always)]
    fn read_name<V: Visitor>(
        &mut self,
        rest: &mut Rest,
        octets: &[u8],
        visitor: &mut V,
    ) -> Result<Taken, Reason>
        requires { Takes stages.Name self.old rest.old octets.now }
        ensures { EndsBy V.takes self.old self.new rest.old rest.new octets.now result
            visitor.old visitor.new }
    {
        if octets[0] == b'$' {
            return self.read_dollar_name(rest, octets, visitor);
        }
        match plain_name(octets) {
            Some((token, text)) => self.read_key(token, text, rest, octets, visitor),
            None => self.read_instead_of_name(rest, octets, visitor),
        }
    }

    /// The close of a struct, or a name of a field that isn't plain.
    #[inline(always)]
    fn read_instead_of_name<V: Visitor>(
        &mut self,
        rest: &mut Rest,
        octets: &[u8],
        visitor: &mut V,
    ) -> Result<Taken, Reason>
        requires { Takes stages.Name self.old rest.old octets.now }
        ensures { EndsBy V.takes self.old self.new rest.old rest.new octets.now result
            visitor.old visitor.new }
    {
        if octets[0] == b'}' {
            return self.read_close(rest, octets, visitor);
        }
        if may_be_unusual(octets) {
            return self.read_unusual_name(rest, octets, visitor);
        }
        Ok(Taken::Uses)
    }

    /// This name of a field, with the blank behind it and its colon.
    #[inline(always)]
    pub(super) fn read_key<V: Visitor>(
        &mut self,
        token: FoundToken,
        text: &str,
        rest: &mut Rest,
        octets: &[u8],
        visitor: &mut V,
    ) -> Result<Taken, Reason>
        requires takes { Takes stages.Name self.old rest.old octets.now }
        requires token { BeginsName places.Name rest.old octets.now token (Some text.now) }
        ensures { EndsBy V.takes self.old self.new rest.old rest.new octets.now result
            visitor.old visitor.new }
    {
        let Some(between) = behind_name(octets, token.count) else {
            return Ok(Taken::Uses);
        };
        *rest = rest
            .past_token(Place::Name, token.kind, token.count)
            .past_blank(between)
            .past_token(Place::Name, TokenKind::Mark(Mark::Colon), 1);
        only_goes(self.named_by(text, visitor))
    }

    /// Behind the colon of a field of this name.
    #[inline(always)]
    fn named_by<V: Visitor>(&mut self, text: &str, visitor: &mut V) -> Result<Effect, Reason>
        requires { self.old.stage ≡ stages.Name }
        ensures does { (fs : List Frame) → Holds self.old fs [] →
            Does V.takes (told fs [])
            (named self.old.start self.old.context fs (Some text.now))
            result self.new visitor.old visitor.new }
        ensures setting { SameSetting self.old self.new }
    {
        heard(self.filter.text_name(text, visitor))?;
        self.set_stage(Stage::Ready);
        Ok(Effect::Goes)
    }

    /// What stands where a value may come.
    #[inline(always)]
    fn read_value<V: Visitor>(
        &mut self,
        rest: &mut Rest,
        octets: &[u8],
        visitor: &mut V,
    ) -> Result<Taken, Reason>
        requires { Takes stages.Ready self.old rest.old octets.now }
        ensures { EndsBy V.takes self.old self.new rest.old rest.new octets.now result
            visitor.old visitor.new }
    {
        if let Some(bracket) = bracket_at(octets) {
            return self.read_open(bracket, rest, octets, visitor);
        }
        if begins_symbol(octets) {
            return self.read_symbol(rest, octets, visitor);
        }
        if begins_number(octets) {
            return self.read_number(rest, octets, visitor);
        }
        self.read_other(rest, octets, visitor)
    }

    /// The open of a container.
    #[inline(always)]
    pub(super) fn read_bracket<V: Visitor>(
        &mut self,
        bracket: Bracket,
        rest: &mut Rest,
        octets: &[u8],
        visitor: &mut V,
    ) -> Result<Taken, Reason>
        requires takes { Takes stages.Ready self.old rest.old octets.now }
        requires opens { OpensAt octets.now bracket }
        ensures { EndsBy V.takes self.old self.new rest.old rest.new octets.now result
            visitor.old visitor.new }
    {
        if !self.may_deepen() {
            return Ok(Taken::Uses);
        }
        let here = self.place();
        self.start = self.begun_at(rest.used);
        *rest = rest.past_token(here, TokenKind::Mark(open_mark(bracket)), 1);
        only_goes(self.open(bracket, visitor))
    }

    /// A number, whose end the octet behind it shows.
    #[inline(always)]
    fn read_number<V: Visitor>(
        &mut self,
        rest: &mut Rest,
        octets: &[u8],
        visitor: &mut V,
    ) -> Result<Taken, Reason>
        requires { Takes stages.Ready self.old rest.old octets.now }
        ensures { EndsBy V.takes self.old self.new rest.old rest.new octets.now result
            visitor.old visitor.new }
    {
        if !visitor.heeds_nothing() {
            return self.tell_number(rest, octets, visitor);
        }
        let Some(token) = untold_number(octets) else {
            return self.tell_number(rest, octets, visitor);
        };
        let here = self.place();
        let start = self.begun_at(rest.used);
        let Some(went_on) = self.filter.any_part(visitor) else {
            return self.tell_number(rest, octets, visitor);
        };
        heard(went_on)?;
        self.start = start;
        *rest = rest.past_token(here, token.kind, token.count);
        value_took(self.ended(rest.used), token.left)
    }

    /// A number, which is told: by its parts where it has few digits, so that no number of whatever
    /// kind is made before it is known which.
    #[inline(never)]
    fn tell_number<V: Visitor>(
        &mut self,
        rest: &mut Rest,
        octets: &[u8],
        visitor: &mut V,
    ) -> Result<Taken, Reason>
        requires { Takes stages.Ready self.old rest.old octets.now }
        ensures { EndsBy V.takes self.old self.new rest.old rest.new octets.now result
            visitor.old visitor.new }
    {
        let Some((token, short)) = short_number_at(octets) else {
            return self.tell_other_number(rest, octets, visitor);
        };
        if let Some(number) = short.int() {
            return self.tell_this_number(token, number, rest, octets, visitor);
        }
        match short.decimal() {
            None => self.tell_other_number(rest, octets, visitor),
            Some(number) => self.tell_this_number(token, number, rest, octets, visitor),
        }
    }

    /// The same of any number.
    #[inline(never)]
    fn tell_other_number<V: Visitor>(
        &mut self,
        rest: &mut Rest,
        octets: &[u8],
        visitor: &mut V,
    ) -> Result<Taken, Reason>
        requires { Takes stages.Ready self.old rest.old octets.now }
        ensures { EndsBy V.takes self.old self.new rest.old rest.new octets.now result
            visitor.old visitor.new }
    {
        match number_at(octets) {
            None => self.read_other(rest, octets, visitor),
            Some((token, number)) => self.tell_this_number(token, number, rest, octets, visitor),
        }
    }

    /// This number.
    #[inline(always)]
    fn tell_this_number<V: Visitor>(
        &mut self,
        token: FoundToken,
        number: Number,
        rest: &mut Rest,
        octets: &[u8],
        visitor: &mut V,
    ) -> Result<Taken, Reason>
        requires takes { Takes stages.Ready self.old rest.old octets.now }
        requires found { (here : AnyPlace) (rest : AnyRest) → is_name here ≡ false →
            FoundNumber here rest octets.now token number }
        requires within { token.count < length octets.now }
        ensures { EndsBy V.takes self.old self.new rest.old rest.new octets.now result
            visitor.old visitor.new }
    {
        let here = self.place();
        self.start = self.begun_at(rest.used);
        *rest = rest.past_token(here, token.kind, token.count);
        value_took(self.number_ended(number, rest.used, visitor), token.left)
    }

    /// A short string, an operator or a close.
    #[inline(always)]
    fn read_other<V: Visitor>(
        &mut self,
        rest: &mut Rest,
        octets: &[u8],
        visitor: &mut V,
    ) -> Result<Taken, Reason>
        requires { Takes stages.Ready self.old rest.old octets.now }
        ensures { EndsBy V.takes self.old self.new rest.old rest.new octets.now result
            visitor.old visitor.new }
    {
        let here = self.place();
        if octets[0] == b'$' {
            return self.read_dollar(here, rest, octets, visitor);
        }
        if let Some((scalar, said)) = string_at(octets) {
            return self.read_scalar(here, scalar, &said, rest, octets, visitor);
        }
        if matches!(here, Place::Sexp) {
            if let Some((scalar, said)) = operator_at(here, octets) {
                return self.read_scalar(here, scalar, &said, rest, octets, visitor);
            }
        }
        if may_be_unusual(octets) {
            return self.read_unusual(here, rest, octets, visitor);
        }
        self.read_close(rest, octets, visitor)
    }

    /// This token, which is a value at once.
    #[inline(always)]
    pub(super) fn read_scalar<V: Visitor>(
        &mut self,
        here: Place,
        scalar: Scalar,
        said: &Part<'_>,
        rest: &mut Rest,
        octets: &[u8],
        visitor: &mut V,
    ) -> Result<Taken, Reason>
        requires takes { Takes stages.Ready self.old rest.old octets.now }
        requires here { IsHere self.old here }
        requires found { FoundPart here rest.old octets.now scalar (payload_of said.now) }
        requires waits { scalar.waits ≡ false }
        ensures { EndsBy V.takes self.old self.new rest.old rest.new octets.now result
            visitor.old visitor.new }
    {
        let token = scalar.token;
        if token.count >= octets.len() {
            return Ok(Taken::Uses);
        }
        if self.is_left(1, is_null_struct(said)) {
            return Ok(Taken::Uses);
        }
        self.start = self.begun_at(rest.used);
        *rest = rest.past_token(here, token.kind, token.count);
        value_took(self.whole(said, rest.used, visitor), token.left)
    }

    /// A symbol, a null or a truth, or an annotation, where the octets show which; or a long string.
    /// Most often it is a word.
    #[inline(always)]
    fn read_symbol<V: Visitor>(
        &mut self,
        rest: &mut Rest,
        octets: &[u8],
        visitor: &mut V,
    ) -> Result<Taken, Reason>
        requires { Takes stages.Ready self.old rest.old octets.now }
        ensures { EndsBy V.takes self.old self.new rest.old rest.new octets.now result
            visitor.old visitor.new }
    {
        match word_at(octets) {
            None => self.read_other_symbol(rest, octets, visitor),
            Some((scalar, said)) => self.read_this_symbol(scalar, &said, rest, octets, visitor),
        }
    }

    /// The same of what is no word.
    #[inline(never)]
    fn read_other_symbol<V: Visitor>(
        &mut self,
        rest: &mut Rest,
        octets: &[u8],
        visitor: &mut V,
    ) -> Result<Taken, Reason>
        requires { Takes stages.Ready self.old rest.old octets.now }
        ensures { EndsBy V.takes self.old self.new rest.old rest.new octets.now result
            visitor.old visitor.new }
    {
        match other_symbol_at(octets) {
            None => self.read_long(rest, octets, visitor),
            Some((scalar, said)) => self.read_this_symbol(scalar, &said, rest, octets, visitor),
        }
    }

    /// This symbol, null or truth, or an annotation, where the octets show which.
    #[inline(always)]
    fn read_this_symbol<V: Visitor>(
        &mut self,
        scalar: Scalar,
        said: &Part<'_>,
        rest: &mut Rest,
        octets: &[u8],
        visitor: &mut V,
    ) -> Result<Taken, Reason>
        requires takes { Takes stages.Ready self.old rest.old octets.now }
        requires found { (here : AnyPlace) (rest : AnyRest) →
            FoundSymbol here rest octets.now scalar (payload_of said.now) }
        ensures { EndsBy V.takes self.old self.new rest.old rest.new octets.now result
            visitor.old visitor.new }
    {
        let here = self.place();
        let Some((between, behind)) = behind_waiting(here, *rest, scalar.token, octets) else {
            return self.read_annotation(rest, octets, visitor);
        };
        self.read_word(here, scalar, said, between, behind, rest, octets, visitor)
    }

    /// Whether a value is left to the octets where no container is open: one with no blank behind it,
    /// and one that may be a local symbol table.
    #[inline(always)]
    pub(super) fn is_left(&self, between: usize, fields: bool) -> bool
        ensures { result ≡ false → (fs : List Frame) (ss : Symbols) → Holds self.now fs ss →
            is_top fs ≡ true → (0 < between) × (fields ≡ false) }
    {
        if !self.is_top() {
            return false;
        }
        between == 0 || fields
    }

    /// This symbol, null or truth, with the blank behind it and the comments in that.
    #[inline(always)]
    pub(super) fn read_word<V: Visitor>(
        &mut self,
        here: Place,
        scalar: Scalar,
        said: &Part<'_>,
        between: usize,
        behind: Rest,
        rest: &mut Rest,
        octets: &[u8],
        visitor: &mut V,
    ) -> Result<Taken, Reason>
        requires takes { Takes stages.Ready self.old rest.old octets.now }
        requires here { IsHere self.old here }
        requires found { FoundSymbol here rest.old octets.now scalar (payload_of said.now) }
        requires rests { RestsBehind (drop scalar.token.count octets.now) between
            (past_token here rest.old scalar.token.kind scalar.token.count) behind }
        requires within { scalar.token.count + between < length octets.now }
        requires ends { ends_symbol (get_or octets.now (scalar.token.count + between) 0) ≡ true }
        ensures { EndsBy V.takes self.old self.new rest.old rest.new octets.now result
            visitor.old visitor.new }
    {
        if self.is_left(between, is_null_struct(said)) {
            return Ok(Taken::Uses);
        }
        let token = scalar.token;
        let end = rest.used + token.count as u64;
        self.start = self.begun_at(rest.used);
        *rest = behind;
        value_took(self.whole(said, end, visitor), true)
    }

    /// An annotation with its `::`.
    #[inline(always)]
    fn read_annotation<V: Visitor>(
        &mut self,
        rest: &mut Rest,
        octets: &[u8],
        visitor: &mut V,
    ) -> Result<Taken, Reason>
        requires { Takes stages.Ready self.old rest.old octets.now }
        ensures { EndsBy V.takes self.old self.new rest.old rest.new octets.now result
            visitor.old visitor.new }
    {
        let Some(note) = annotation_at(octets) else {
            return Ok(Taken::Uses);
        };
        let here = self.place();
        self.start = self.begun_at(rest.used);
        self.annotated_by(note.text, visitor)?;
        let token = note.token;
        *rest = rest
            .past_token(here, token.kind, token.count)
            .past_blank(note.between)
            .past_token(here, TokenKind::Mark(Mark::Colons), 2);
        Ok(Taken::Uses)
    }

    /// An annotation of this text, which names no local symbol tables, has come.
    #[inline(always)]
    fn annotated_by<V: Visitor>(&mut self, text: &str, visitor: &mut V) -> Result<(), Reason>
        requires now { self.old.stage ≡ stages.Ready }
        requires free { names_table (Some text.now) ≡ false }
        ensures notes { OnOk result ((fs : List Frame) (ss : Symbols) → Holds self.old fs ss →
            WentOn V.takes (told fs ss) self.new fs (ss ++ Some text.now ∷ [])
            visitor.old visitor.new) }
        ensures same { SamePlace self.old self.new }
        ensures stage { self.new.stage ≡ self.old.stage }
        ensures memory { IfErr result (λ reason. reason ≡ Memory) }
    {
        heard(self.filter.text_annotation(text, visitor))?;
        self.noted = true;
        Ok(())
    }
}
