//! Plain tokens inside of containers, one behind the other, in a loop whose place stands in registers:
//! where it is, and what may come next. What isn't plain, is cut, stands near the end of the octets or
//! ends an item of the top level leaves the loop, and the place is written back.
#![tactic(auto)]

ghost use Rattle.std.specs.Prelude.{◌≡◌, ◌+◌, ◌-◌, ◌<◌, ◌≤◌, ◌^◌, Some, true, false, length, nat_lt, drop, IfSome};
ghost use Rattle.ion_text.specs.Names.{BeginsName, EndsBy, OpensAt, Rest as AnyRest, SameSetting, Takes, close_octet, open_brackets};
ghost use Rattle.ion_text.specs.walk.Inside.{BlankSteps, IsValueNow, MayCloseNow, Stands, StepsTo, around_now, behind_now, bracket_now, first_inside, innermost, noted_now, past_spot, past_white, rest_at, stage_now, with_note, word_spot};
ghost use Rattle.ion_tokens.specs.declared.mode.Place.TheVariants as places;
ghost use Rattle.ion_text.specs.declared.walk.inside.Now.TheVariants as nows;
ghost use Rattle.ion_text.specs.declared.state.Stage.TheVariants as stages;

use super::TextWalk;
use super::scalars_inside::{
    comma_at_once, int_inside, key_inside, operator_inside, other_symbol_inside, quoted_key_inside,
    signed_inside, string_inside, tell, text_of, value_ended, word_inside,
};
use crate::state::{Stage, Taken};
use crate::tokens::finders::{begins_symbol, text_count, word_name};
use crate::tokens::marks::bracket_at;
use ion_model::Reason;
use ion_tokens::{FoundToken, Rest, TokenKind, blanks, one_blank};
use ion_visiting::{Bracket, Part, Visitor};

/// What may come next inside of the innermost of the open containers.
#[derive(Clone, Copy)]
pub enum Now {
    /// An item of a list, or its close.
    Item,
    /// An element of an s-expression, or its close.
    Element,
    /// The value of a field.
    Value,
    /// An item of a list behind its annotations.
    NotedItem,
    /// An element of an s-expression behind its annotations.
    NotedElement,
    /// The value of a field behind its annotations.
    NotedValue,
    /// A field's name, or the close.
    Name,
    /// Behind an item of a list: a comma or the close.
    BehindItem,
    /// Behind a field: a comma or the close.
    BehindField,
}

/// Where the loop stands.
#[derive(Clone, Copy)]
pub struct Spot {
    /// How many octets were taken up.
    pub at: usize,
    /// So many octets before that the scanner's last token ended, or stands the last octet of a blank.
    pub lag: u64,
    /// Whether a colon may stand behind the token before.
    pub colon: bool,
    pub now: Now,
}

/// So many octets are looked at without asking for each.
const AHEAD: usize = 24;

#[inline(always)]
fn stage_now(now: Now) -> Stage
    ensures { result ≡ stage_now now }
{
    match now {
        Now::Name => Stage::Name,
        Now::BehindItem | Now::BehindField => Stage::After,
        _ => Stage::Ready,
    }
}

// Whether an annotation was read, and no value behind it.
#[inline(always)]
fn noted_now(now: Now) -> bool
    ensures { result ≡ noted_now now }
{
    matches!(now, Now::NotedItem | Now::NotedElement | Now::NotedValue)
}

// The same behind an annotation.
#[inline(always)]
pub(super) fn with_note(now: Now) -> Now
    ensures { result ≡ with_note now }
{
    match now {
        Now::Item => Now::NotedItem,
        Now::Element => Now::NotedElement,
        Now::Value => Now::NotedValue,
        _ => now,
    }
}

// What may come behind a value.
#[inline(always)]
pub(super) fn behind_now(now: Now) -> Now
    ensures { result ≡ behind_now now }
{
    match now {
        Now::Item | Now::NotedItem => Now::BehindItem,
        Now::Value | Now::NotedValue => Now::BehindField,
        Now::NotedElement => Now::Element,
        _ => now,
    }
}

// What may come first in such a container.
#[inline(always)]
fn first_inside(bracket: Bracket) -> Now
    ensures { result ≡ first_inside bracket }
{
    match bracket {
        Bracket::Fields => Now::Name,
        Bracket::List => Now::Item,
        Bracket::Sexp => Now::Element,
    }
}

// What may come next in such a container.
#[inline(always)]
fn now_in(bracket: Bracket, stage: &Stage, noted: bool) -> Option<Now>
    ensures bracket { IfSome result (λ now. bracket ≡ bracket_now now) }
    ensures stage { IfSome result (λ now. stage.now ≡ stage_now now) }
    ensures noted { IfSome result (λ now. noted ≡ noted_now now) }
{
    match (bracket, stage, noted) {
        (Bracket::List, Stage::Ready, false) => Some(Now::Item),
        (Bracket::List, Stage::Ready, true) => Some(Now::NotedItem),
        (Bracket::List, Stage::After, false) => Some(Now::BehindItem),
        (Bracket::Sexp, Stage::Ready, false) => Some(Now::Element),
        (Bracket::Sexp, Stage::Ready, true) => Some(Now::NotedElement),
        (Bracket::Fields, Stage::Ready, false) => Some(Now::Value),
        (Bracket::Fields, Stage::Ready, true) => Some(Now::NotedValue),
        (Bracket::Fields, Stage::After, false) => Some(Now::BehindField),
        (Bracket::Fields, Stage::Name, false) => Some(Now::Name),
        _ => None,
    }
}

impl Spot {
    /// Where a scanner rests there.
    #[inline(always)]
    fn rest(self, first: Rest) -> Rest
        requires { first.used + self.at < 2 ^ 63 }
        ensures { result ≡ rest_at first self }
    {
        let used = first.used + self.at as u64;
        Rest {
            start: used.saturating_sub(self.lag),
            used,
            colon: self.colon,
        }
    }

    // Behind a blank, most often none or one space: whether enough octets are left to be looked at.
    #[inline(always)]
    fn past_blank(&mut self, octets: &[u8]) -> bool
        requires ahead { self.old.at + 24 ≤ length octets.now }
        ensures blank { result ≡ true → BlankSteps self.old self.new octets.now }
        ensures ahead { result ≡ true → self.new.at + 22 ≤ length octets.now }
        ensures none { result ≡ false → self.new ≡ self.old }
    {
        if let Some(one) = one_blank(&octets[self.at..]) {
            self.past_white(one);
            return true;
        }
        let count = blanks(&octets[self.at..]);
        if octets.len() - self.at - count < 22 {
            return false;
        }
        self.past_white(count);
        true
    }

    #[inline(always)]
    fn past_white(&mut self, count: usize)
        requires { self.old.at + count < 2 ^ 63 }
        ensures { self.new ≡ past_white self.old count }
    {
        if count > 0 {
            self.at += count;
            self.lag = 1;
        }
    }

    // Behind a word that is a value, and the blank behind it.
    #[inline(always)]
    pub(super) fn past_word(&mut self, count: usize, between: usize)
        requires { self.old.at + count + between < 2 ^ 63 }
        ensures { self.new ≡ past_white (word_spot self.old count) between }
    {
        *self = Spot {
            at: self.at + count,
            lag: 0,
            colon: true,
            now: behind_now(self.now),
        };
        self.past_white(between);
    }

    // Behind a mark, or a value that is no symbol.
    #[inline(always)]
    pub(super) fn past(&mut self, count: usize, now: Now)
        requires { self.old.at + count < 2 ^ 63 }
        ensures { self.new ≡ past_spot self.old count now }
    {
        *self = Spot {
            at: self.at + count,
            lag: 0,
            colon: false,
            now,
        };
    }
}

impl TextWalk<'_> {
    // The innermost of the open containers.
    #[inline(always)]
    fn innermost(&self) -> Option<Bracket>
        ensures { result ≡ innermost (open_brackets self.now) }
    {
        match self.frames.last() {
            Some(Bracket::List) => Some(Bracket::List),
            Some(Bracket::Sexp) => Some(Bracket::Sexp),
            Some(Bracket::Fields) => Some(Bracket::Fields),
            None => None,
        }
    }

    /// What may come next, where a container is open that is part of no local symbol table.
    fn now_inside(&self) -> Option<Now>
        ensures stands { IfSome result (λ now. Stands self.now now) }
        ensures stage { IfSome result (λ now. self.now.stage ≡ stage_now now) }
        ensures noted { IfSome result (λ now. self.now.noted ≡ noted_now now) }
    {
        if !self.filter.is_plain() {
            return None;
        }
        let bracket = self.innermost()?;
        now_in(bracket, &self.stage, self.noted)
    }

    /// Plain tokens in a container, or else a token.
    #[inline(always)]
    pub(super) fn read_some<V: Visitor>(
        &mut self,
        rest: &mut Rest,
        octets: &[u8],
        visitor: &mut V,
    ) -> Result<Taken, Reason>
        requires room { rest.old.used + length octets.now < 2 ^ 63 }
        ensures { EndsBy V.takes self.old self.new rest.old rest.new octets.now result
            visitor.old visitor.new }
    {
        let first = rest.used;
        match self.read_plain(rest, octets, visitor)? {
            Taken::Uses => {}
            taken => return Ok(taken),
        }
        let count = (rest.used - first) as usize;
        self.read_next(rest, &octets[count..], visitor)
    }

    /// Plain tokens, if a container is open.
    #[inline(always)]
    fn read_plain<V: Visitor>(
        &mut self,
        rest: &mut Rest,
        octets: &[u8],
        visitor: &mut V,
    ) -> Result<Taken, Reason>
        requires room { rest.old.used + length octets.now < 2 ^ 63 }
        ensures { EndsBy V.takes self.old self.new rest.old rest.new octets.now result
            visitor.old visitor.new }
    {
        if self.frames.is_empty() {
            return Ok(Taken::Uses);
        }
        self.read_inside(rest, octets, visitor)
    }

    /// The open of a container, and the plain tokens in it.
    #[inline(always)]
    pub(super) fn read_open<V: Visitor>(
        &mut self,
        bracket: Bracket,
        rest: &mut Rest,
        octets: &[u8],
        visitor: &mut V,
    ) -> Result<Taken, Reason>
        requires takes { Takes stages.Ready self.old rest.old octets.now }
        requires opens { OpensAt octets.now bracket }
        ensures { EndsBy V.takes self.old self.new rest.old rest.new octets.now result
            visitor.old visitor.new }
    {
        let first = rest.used;
        match self.read_bracket(bracket, rest, octets, visitor)? {
            Taken::Uses => {}
            taken => return Ok(taken),
        }
        let count = (rest.used - first) as usize;
        self.read_inside(rest, &octets[count..], visitor)
    }

    /// Takes up the plain tokens at the front of octets where a container is open, and behind them the
    /// close of the outermost one.
    #[inline(never)]
    fn read_inside<V: Visitor>(
        &mut self,
        rest: &mut Rest,
        octets: &[u8],
        visitor: &mut V,
    ) -> Result<Taken, Reason>
        requires room { rest.old.used + length octets.now < 2 ^ 63 }
        ensures { EndsBy V.takes self.old self.new rest.old rest.new octets.now result
            visitor.old visitor.new }
    {
        let first = rest.used;
        match self.read_nested(rest, octets, visitor)? {
            Taken::Uses => {}
            taken => return Ok(taken),
        }
        let count = (rest.used - first) as usize;
        if octets.len() - count < 2 {
            return Ok(Taken::Uses);
        }
        self.read_close(rest, &octets[count..], visitor)
    }

    #[inline(always)]
    fn read_nested<V: Visitor>(
        &mut self,
        rest: &mut Rest,
        octets: &[u8],
        visitor: &mut V,
    ) -> Result<Taken, Reason>
        requires room { rest.old.used + length octets.now < 2 ^ 63 }
        ensures { EndsBy V.takes self.old self.new rest.old rest.new octets.now result
            visitor.old visitor.new }
    {
        if rest.start > rest.used {
            return Ok(Taken::Uses);
        }
        let Some(now) = self.now_inside() else {
            return Ok(Taken::Uses);
        };
        let mut spot = Spot {
            at: 0,
            lag: rest.used - rest.start,
            colon: rest.colon,
            now,
        };
        if !self.each_inside(&mut spot, octets, visitor) {
            return Err(Reason::Memory);
        }
        *rest = spot.rest(*rest);
        self.noted = noted_now(spot.now);
        self.set_stage(stage_now(spot.now));
        Ok(Taken::Uses)
    }

    #[inline(always)]
    fn each_inside<V: Visitor>(&mut self, spot: &mut Spot, octets: &[u8], visitor: &mut V) -> bool
        requires stands { Stands self.old spot.old.now }
        requires within { spot.old.at ≤ length octets.now }
        ensures same { SameSetting self.old self.new }
        ensures steps { result ≡ true → StepsTo V.takes self.old self.new spot.old spot.new octets.now
            visitor.old visitor.new }
    {
        while octets.len() - spot.at >= AHEAD {
            let from = spot.at;
            if !self.step_inside(spot, octets, visitor) {
                return false;
            }
            if spot.at == from {
                return true;
            }
        }
        true
    }

    // A blank, and the token behind it.
    #[inline(always)]
    fn step_inside<V: Visitor>(&mut self, spot: &mut Spot, octets: &[u8], visitor: &mut V) -> bool
        requires stands { Stands self.old spot.old.now }
        requires ahead { spot.old.at + 24 ≤ length octets.now }
        ensures same { SameSetting self.old self.new }
        ensures steps { result ≡ true → StepsTo V.takes self.old self.new spot.old spot.new octets.now
            visitor.old visitor.new }
    {
        if !spot.past_blank(octets) {
            return true;
        }
        self.token_inside(spot, octets, visitor)
    }

    #[inline(always)]
    fn token_inside<V: Visitor>(&mut self, spot: &mut Spot, octets: &[u8], visitor: &mut V) -> bool
        requires stands { Stands self.old spot.old.now }
        requires ahead { spot.old.at + 22 ≤ length octets.now }
        ensures same { SameSetting self.old self.new }
        ensures steps { result ≡ true → StepsTo V.takes self.old self.new spot.old spot.new octets.now
            visitor.old visitor.new }
    {
        match spot.now {
            Now::Name => self.name_inside(spot, octets, visitor),
            Now::BehindItem => {
                if octets[spot.at] == b',' {
                    spot.past(1, Now::Item);
                    return true;
                }
                self.close_inside(Bracket::List, b']', spot, octets, visitor)
            }
            Now::BehindField => {
                if octets[spot.at] == b',' {
                    spot.past(1, Now::Name);
                    return true;
                }
                self.close_inside(Bracket::Fields, b'}', spot, octets, visitor)
            }
            Now::Item | Now::NotedItem => self.value_inside(spot, octets, visitor),
            Now::Element | Now::NotedElement | Now::Value | Now::NotedValue => {
                self.value_inside(spot, octets, visitor)
            }
        }
    }

    // A field's name and its colon, and the value behind them, if it is plain; or the close.
    #[inline(always)]
    fn name_inside<V: Visitor>(&mut self, spot: &mut Spot, octets: &[u8], visitor: &mut V) -> bool
        requires stands { Stands self.old spot.old.now }
        requires ahead { spot.old.at + 22 ≤ length octets.now }
        requires name { spot.old.now ≡ nows.Name }
        ensures same { SameSetting self.old self.new }
        ensures steps { result ≡ true → StepsTo V.takes self.old self.new spot.old spot.new octets.now
            visitor.old visitor.new }
    {
        let there = &octets[spot.at..];
        if there[0] == b'"' {
            let Some(count) = text_count(there) else {
                return true;
            };
            let token = FoundToken {
                kind: TokenKind::ShortString,
                count,
                left: false,
            };
            return self.key_and_value(token, text_of(there, count), spot, octets, visitor);
        }
        if there[0] == b'\'' {
            return quoted_key_inside(spot, octets, visitor);
        }
        match word_name(there) {
            None => self.close_inside(Bracket::Fields, b'}', spot, octets, visitor),
            Some((token, text)) => key_inside(token, text, spot, octets, visitor),
        }
    }

    // A name and its colon, and the value behind them.
    #[inline(always)]
    fn key_and_value<V: Visitor>(
        &mut self,
        token: FoundToken,
        text: &str,
        spot: &mut Spot,
        octets: &[u8],
        visitor: &mut V,
    ) -> bool
        requires stands { Stands self.old spot.old.now }
        requires name { spot.old.now ≡ nows.Name }
        requires within { spot.old.at ≤ length octets.now }
        requires found { (rest : AnyRest) →
            BeginsName places.Name rest (drop spot.old.at octets.now) token (Some text.now) }
        ensures same { SameSetting self.old self.new }
        ensures steps { result ≡ true → StepsTo V.takes self.old self.new spot.old spot.new octets.now
            visitor.old visitor.new }
    {
        if !key_inside(token, text, spot, octets, visitor) {
            return false;
        }
        match spot.now {
            Now::Value => self.field_inside(spot, octets, visitor),
            _ => true,
        }
    }

    // The value of a field behind its colon.
    #[inline(always)]
    fn field_inside<V: Visitor>(&mut self, spot: &mut Spot, octets: &[u8], visitor: &mut V) -> bool
        requires stands { Stands self.old spot.old.now }
        requires within { spot.old.at ≤ length octets.now }
        requires value { spot.old.now ≡ nows.Value }
        ensures same { SameSetting self.old self.new }
        ensures steps { result ≡ true → StepsTo V.takes self.old self.new spot.old spot.new octets.now
            visitor.old visitor.new }
    {
        if octets.len() - spot.at < AHEAD {
            return true;
        }
        if !spot.past_blank(octets) {
            return true;
        }
        self.value_inside(spot, octets, visitor)
    }

    #[inline(always)]
    fn value_inside<V: Visitor>(&mut self, spot: &mut Spot, octets: &[u8], visitor: &mut V) -> bool
        requires stands { Stands self.old spot.old.now }
        requires ahead { spot.old.at + 22 ≤ length octets.now }
        requires value { IsValueNow spot.old.now }
        ensures same { SameSetting self.old self.new }
        ensures steps { result ≡ true → StepsTo V.takes self.old self.new spot.old spot.new octets.now
            visitor.old visitor.new }
    {
        let octet = octets[spot.at];
        if octet == b'"' {
            return match text_count(&octets[spot.at..]) {
                Some(count) => string_inside(count, spot, octets, visitor),
                None => self.escaped_inside(spot, octets, visitor),
            };
        }
        if octet.wrapping_sub(b'0') < 10 {
            return int_inside(spot, octets, visitor);
        }
        if let Some(bracket) = bracket_at(&octets[spot.at..]) {
            return self.open_inside(bracket, spot, octets, visitor);
        }
        if octet == b'\'' {
            return other_symbol_inside(spot, octets, visitor);
        }
        if begins_symbol(&octets[spot.at..]) {
            return word_inside(spot, octets, visitor);
        }
        if octet == b'-' && octets[spot.at + 1].wrapping_sub(b'0') < 10 {
            return signed_inside(spot, octets, visitor);
        }
        match spot.now {
            Now::Item => self.close_inside(Bracket::List, b']', spot, octets, visitor),
            Now::Element if octet == b')' => {
                self.close_inside(Bracket::Sexp, b')', spot, octets, visitor)
            }
            Now::Element | Now::NotedElement => operator_inside(spot, octets, visitor),
            _ => true,
        }
    }

    // A string with escapes.
    #[inline(never)]
    fn escaped_inside<V: Visitor>(
        &mut self,
        spot: &mut Spot,
        octets: &[u8],
        visitor: &mut V,
    ) -> bool
        requires stands { Stands self.old spot.old.now }
        requires ahead { spot.old.at + 22 ≤ length octets.now }
        requires value { IsValueNow spot.old.now }
        ensures same { SameSetting self.old self.new }
        ensures steps { result ≡ true → StepsTo V.takes self.old self.new spot.old spot.new octets.now
            visitor.old visitor.new }
    {
        let there = &octets[spot.at..];
        let Some(token) = self.beside.text(there) else {
            return true;
        };
        let TokenKind::ShortString = token.kind else {
            return true;
        };
        let count = token.count;
        if count >= there.len() || there.len() - count < 2 {
            return true;
        }
        let Ok(text) = str::from_utf8(self.beside.octets()) else {
            return true;
        };
        if !tell(&Part::Str(text), visitor) {
            return false;
        }
        value_ended(count, spot, octets);
        true
    }

    // Whether the limit on depth admits one container more.
    #[inline(always)]
    fn has_room(&self) -> bool
        ensures { result ≡ nat_lt (length (open_brackets self.now)) self.now.limits.depth }
    {
        self.frames.len() < self.limits.depth as usize
    }

    // What may come behind a value in the innermost of the open containers.
    #[inline(always)]
    fn around_now(&self) -> Option<Now>
        ensures { result ≡ around_now (open_brackets self.now) }
    {
        match self.frames.last() {
            Some(Bracket::List) => Some(Now::BehindItem),
            Some(Bracket::Sexp) => Some(Now::Element),
            Some(Bracket::Fields) => Some(Now::BehindField),
            None => None,
        }
    }

    #[inline(always)]
    fn open_inside<V: Visitor>(
        &mut self,
        bracket: Bracket,
        spot: &mut Spot,
        octets: &[u8],
        visitor: &mut V,
    ) -> bool
        requires stands { Stands self.old spot.old.now }
        requires ahead { spot.old.at + 22 ≤ length octets.now }
        requires value { IsValueNow spot.old.now }
        requires opens { OpensAt (drop spot.old.at octets.now) bracket }
        ensures same { SameSetting self.old self.new }
        ensures steps { result ≡ true → StepsTo V.takes self.old self.new spot.old spot.new octets.now
            visitor.old visitor.new }
    {
        if !self.has_room() {
            return true;
        }
        if !visitor.open(bracket) {
            return false;
        }
        let Ok(()) = self.frames.push(bracket) else {
            return false;
        };
        spot.past(1, first_inside(bracket));
        true
    }

    // The close of a container that stands in another.
    #[inline(always)]
    fn close_inside<V: Visitor>(
        &mut self,
        bracket: Bracket,
        octet: u8,
        spot: &mut Spot,
        octets: &[u8],
        visitor: &mut V,
    ) -> bool
        requires stands { Stands self.old spot.old.now }
        requires ahead { spot.old.at + 22 ≤ length octets.now }
        requires octet { octet ≡ close_octet bracket }
        requires closes { bracket ≡ bracket_now spot.old.now }
        requires may { MayCloseNow spot.old.now }
        ensures same { SameSetting self.old self.new }
        ensures steps { result ≡ true → StepsTo V.takes self.old self.new spot.old spot.new octets.now
            visitor.old visitor.new }
    {
        if octets[spot.at] != octet || self.frames.len() < 2 {
            return true;
        }
        let _closed = self.frames.pop();
        if !visitor.close(bracket) {
            return false;
        }
        match self.around_now() {
            Some(now) => {
                spot.past(1, now);
                comma_at_once(spot, octets);
                true
            }
            None => false,
        }
    }
}
