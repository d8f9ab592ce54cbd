//! Symbol ids that lie whole in a piece: as values, as annotations and as names of fields. An id that
//! stands for no symbol is left to the octets, and so is an annotation of an item of the top level.
#![tactic(auto)]

ghost use Rattle.std.specs.Prelude.{◌≡◌, ◌≢◌, ◌+◌, ◌<◌, get_or, length, IfSome, false, true};
ghost use Rattle.ion_text.specs.Names.{EndsBy, Id, IsHere, Place as AnyPlace, Rest as AnyRest, SaysThere, SymbolThere, Takes, begins_word};
ghost use Rattle.ion_tokens.specs.declared.mode.TokenKind.TheVariants as kinds;
ghost use Rattle.ion_text.specs.declared.state.Stage.TheVariants as stages;

use super::whole_tokens::{only_goes, value_took};
use super::{TextWalk, heard};
use crate::state::{Stage, Taken};
use crate::tokens::symbols::{behind_annotation, behind_name, behind_waiting};
use crate::words::is_digit;
use ion_model::{Reason, Symbol};
use ion_tokens::{FoundToken, Mark, Place, Rest, TokenKind};
use ion_visiting::Visitor;

// A tenth of the greatest id that a symbol may have.
const TENTH_OF_IDS: u64 = 214_748_364;

// Whether an octet that is no digit shows the end of a symbol id: no word goes on with it.
#[inline(always)]
fn ends_id(octet: u8) -> bool
    ensures { result ≡ true → (begins_word octet ≡ false) × (octet ≢ 46) }
{
    if octet < 64 {
        return octet != b'$' && octet != b'.';
    }
    !matches!(octet, b'A'..=b'Z' | b'_' | b'a'..=b'z')
}

// The symbol id behind the `$` there, if it isn't greater than any symbol's.
#[inline(always)]
fn id_at(octets: &[u8]) -> Option<(FoundToken, u64)>
    requires dollar { get_or octets.now 0 0 ≡ 36 }
    requires more { 1 < length octets.now }
    ensures says { IfSome result (λ found. (here : AnyPlace) (rest : AnyRest) →
        SaysThere here rest octets.now found.0 (Id found.1)) }
    ensures word { IfSome result (λ found. found.0.kind ≡ kinds.Word) }
{
    let first = octets[1];
    if !is_digit(first) {
        return None;
    }
    let mut id = u64::from(first - b'0');
    let mut count = 2;
    while count < octets.len() {
        let octet = octets[count];
        if !is_digit(octet) {
            if !ends_id(octet) {
                return None;
            }
            let token = FoundToken {
                kind: TokenKind::Word,
                count,
                left: true,
            };
            return Some((token, id));
        }
        if id > TENTH_OF_IDS {
            return None;
        }
        id = id * 10 + u64::from(octet - b'0');
        count += 1;
    }
    None
}

impl TextWalk<'_> {
    /// A word that begins with `$`: a symbol's id, or a symbol.
    #[inline(always)]
    pub(super) fn read_dollar<V: Visitor>(
        &mut self,
        here: Place,
        rest: &mut Rest,
        octets: &[u8],
        visitor: &mut V,
    ) -> Result<Taken, Reason>
        requires takes { Takes stages.Ready self.old rest.old octets.now }
        requires here { IsHere self.old here }
        requires dollar { get_or octets.now 0 0 ≡ 36 }
        ensures { EndsBy V.takes self.old self.new rest.old rest.new octets.now result
            visitor.old visitor.new }
    {
        let Some((token, id)) = id_at(octets) else {
            return self.read_unusual(here, rest, octets, visitor);
        };
        let Some((between, behind)) = behind_waiting(here, *rest, token, octets) else {
            return self.read_id_annotation(here, token, id, rest, octets, visitor);
        };
        if self.is_left(between, false) {
            return Ok(Taken::Uses);
        }
        let begin = self.begun_at(rest.used);
        let Ok(symbol) = self.context.symbol(id) else {
            return Ok(Taken::Uses);
        };
        let end = rest.used + token.count as u64;
        heard(self.filter.symbol(symbol, visitor))?;
        self.start = begin;
        *rest = behind;
        value_took(self.ended(end), true)
    }

    /// The symbol of this id as an annotation, with its `::`.
    #[inline(never)]
    fn read_id_annotation<V: Visitor>(
        &mut self,
        here: Place,
        token: FoundToken,
        id: u64,
        rest: &mut Rest,
        octets: &[u8],
        visitor: &mut V,
    ) -> Result<Taken, Reason>
        requires takes { Takes stages.Ready self.old rest.old octets.now }
        requires here { IsHere self.old here }
        requires says { SaysThere here rest.old octets.now token (Id id) }
        requires word { token.kind ≡ kinds.Word }
        ensures { EndsBy V.takes self.old self.new rest.old rest.new octets.now result
            visitor.old visitor.new }
    {
        let Ok(symbol) = self.context.resolve(id) else {
            return Ok(Taken::Uses);
        };
        self.read_known_annotation(here, token, symbol, rest, octets, visitor)
    }

    /// This symbol as an annotation, with its `::`, where a container is open.
    pub(super) fn read_known_annotation<V: Visitor>(
        &mut self,
        here: Place,
        token: FoundToken,
        symbol: Symbol,
        rest: &mut Rest,
        octets: &[u8],
        visitor: &mut V,
    ) -> Result<Taken, Reason>
        requires takes { Takes stages.Ready self.old rest.old octets.now }
        requires here { IsHere self.old here }
        requires there { SymbolThere self.old.context here rest.old octets.now token symbol }
        ensures { EndsBy V.takes self.old self.new rest.old rest.new octets.now result
            visitor.old visitor.new }
    {
        let Some(between) = behind_annotation(octets, token.count) else {
            drop(symbol);
            return Ok(Taken::Uses);
        };
        if self.is_top() {
            drop(symbol);
            return Ok(Taken::Uses);
        }
        *rest = rest
            .past_token(here, token.kind, token.count)
            .past_blank(between)
            .past_token(here, TokenKind::Mark(Mark::Colons), 2);
        only_goes(self.note(symbol, visitor))
    }

    /// A field's name that begins with `$`, with its colon.
    #[inline(always)]
    pub(super) fn read_dollar_name<V: Visitor>(
        &mut self,
        rest: &mut Rest,
        octets: &[u8],
        visitor: &mut V,
    ) -> Result<Taken, Reason>
        requires takes { Takes stages.Name self.old rest.old octets.now }
        requires dollar { get_or octets.now 0 0 ≡ 36 }
        ensures { EndsBy V.takes self.old self.new rest.old rest.new octets.now result
            visitor.old visitor.new }
    {
        let Some((token, id)) = id_at(octets) else {
            return self.read_unusual_name(rest, octets, visitor);
        };
        let Some(between) = behind_name(octets, token.count) else {
            return Ok(Taken::Uses);
        };
        let Ok(name) = self.context.symbol(id) else {
            return Ok(Taken::Uses);
        };
        heard(self.filter.name(name, visitor))?;
        self.set_stage(Stage::Ready);
        *rest = rest
            .past_token(Place::Name, token.kind, token.count)
            .past_blank(between)
            .past_token(Place::Name, TokenKind::Mark(Mark::Colon), 1);
        Ok(Taken::Uses)
    }
}
