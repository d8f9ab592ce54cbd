//! Tokens that lie whole in a piece and aren't plain, read by a machine beside the scanner's: texts
//! with escapes, typed nulls, clobs and blobs.
#![tactic(auto)]

ghost use Rattle.std.specs.Prelude.{◌≡◌, ◌+◌, ◌<◌, ◌^◌, length, false, true, Some, IfSome};
ghost use Rattle.ion_text.specs.Names.{BeginsValue, EndsBy, IsFree, IsHere, IsValue, Names, SaysThere, Takes, Word, held_word, is_marker, payload_of};
ghost use Rattle.ion_tokens.specs.Bodies.{content};
ghost use Rattle.ion_text.specs.declared.state.Stage.TheVariants as stages;

use super::TextWalk;
use crate::state::Taken;
use crate::tokens::finders::{Scalar, unusual_part, word_part};
use crate::tokens::symbols::behind_waiting;
use crate::words::is_version;
use ion_model::Reason;
use ion_spelling::is_keyword;
use ion_tokens::{Body, FoundToken, Place, Rest, TokenReader};
use ion_visiting::{Part, Visitor};

// The token there that isn't plain, with what it says.
#[inline(never)]
fn unusual_at<'p>(
    beside: &mut TokenReader,
    here: Place,
    rest: Rest,
    octets: &[u8],
) -> Option<(FoundToken, Body<'p>)>
    requires room { rest.used + length octets.now < 2 ^ 63 }
    ensures { IfSome result (λ found.
        SaysThere here rest octets.now found.0 (content found.1)) }
{
    let token = beside.token(here, rest, octets)?;
    match beside.body(token.kind) {
        Ok(body) => Some((token, body)),
        Err(_) => None,
    }
}

// What a word is as a value, but for one of the form of a version marker.
fn word_value(word: &str) -> Option<(bool, Part<'_>)>
    ensures value { IfSome result (λ found.
        IsValue found.0 (Word word.now) (payload_of found.1)) }
    ensures free { IfSome result (λ _. is_marker (held_word word.now) ≡ false) }
{
    if is_version(word.as_bytes()) {
        return None;
    }
    Some((true, word_part(word)?))
}

// What such a token is as a value, and whether it would be an annotation if `::` followed.
fn value_part<'b>(body: &'b Body<'_>) -> Option<(bool, Part<'b>)>
    ensures value { IfSome result (λ found.
        IsValue found.0 (content body.now) (payload_of found.1)) }
    ensures free { IfSome result (λ _. IsFree (content body.now)) }
{
    match body {
        Body::Clob(octets) => Some((false, Part::Clob(octets.as_slice()))),
        Body::Blob(octets) => Some((false, Part::Blob(octets.as_slice()))),
        Body::Word(word) => word_value(word.as_str()),
        _ => unusual_part(body),
    }
}

// The field's name that a text in quotes is.
fn name_text<'b>(body: &'b Body<'_>) -> Option<&'b str>
    ensures { IfSome result (λ text. Names (content body.now) (Some text.now)) }
{
    match body {
        Body::Quoted(text) => Some(text.as_str()),
        Body::Short(text) => Some(text.as_str()),
        Body::Word(word) if !is_keyword(word.as_str()) => Some(word.as_str()),
        _ => None,
    }
}

impl TextWalk<'_> {
    /// A value whose token isn't plain.
    #[inline(never)]
    pub(super) fn read_unusual<V: Visitor>(
        &mut self,
        here: Place,
        rest: &mut Rest,
        octets: &[u8],
        visitor: &mut V,
    ) -> Result<Taken, Reason>
        requires takes { Takes stages.Ready self.old rest.old octets.now }
        requires here { IsHere self.old here }
        ensures { EndsBy V.takes self.old self.new rest.old rest.new octets.now result
            visitor.old visitor.new }
    {
        let Some((token, body)) = unusual_at(&mut self.beside, here, *rest, octets) else {
            return Ok(Taken::Uses);
        };
        let taken = self.read_body(here, token, &body, rest, octets, visitor);
        drop(body);
        taken
    }

    /// This token, which says so.
    fn read_body<V: Visitor>(
        &mut self,
        here: Place,
        token: FoundToken,
        body: &Body<'_>,
        rest: &mut Rest,
        octets: &[u8],
        visitor: &mut V,
    ) -> Result<Taken, Reason>
        requires takes { Takes stages.Ready self.old rest.old octets.now }
        requires here { IsHere self.old here }
        requires says { SaysThere here rest.old octets.now token (content body.now) }
        ensures { EndsBy V.takes self.old self.new rest.old rest.new octets.now result
            visitor.old visitor.new }
    {
        let Some((waits, said)) = value_part(body) else {
            return Ok(Taken::Uses);
        };
        let scalar = Scalar { token, waits };
        if !waits {
            return self.read_scalar(here, scalar, &said, rest, octets, visitor);
        }
        match behind_waiting(here, *rest, token, octets) {
            None => self.read_unusual_annotation(here, token, &said, rest, octets, visitor),
            Some((between, behind)) => {
                self.read_word(here, scalar, &said, between, behind, rest, octets, visitor)
            }
        }
    }

    /// This symbol as an annotation, with its `::`.
    fn read_unusual_annotation<V: Visitor>(
        &mut self,
        here: Place,
        token: FoundToken,
        said: &Part<'_>,
        rest: &mut Rest,
        octets: &[u8],
        visitor: &mut V,
    ) -> Result<Taken, Reason>
        requires takes { Takes stages.Ready self.old rest.old octets.now }
        requires here { IsHere self.old here }
        requires token { BeginsValue true here rest.old octets.now token (payload_of said.now) }
        ensures { EndsBy V.takes self.old self.new rest.old rest.new octets.now result
            visitor.old visitor.new }
    {
        let Part::Symbol(text) = said else {
            return Ok(Taken::Uses);
        };
        let symbol = self.recent.symbol(text)?;
        self.read_known_annotation(here, token, symbol, rest, octets, visitor)
    }

    /// A field's name in quotes whose token isn't plain, with its colon.
    #[inline(never)]
    pub(super) fn read_unusual_name<V: Visitor>(
        &mut self,
        rest: &mut Rest,
        octets: &[u8],
        visitor: &mut V,
    ) -> Result<Taken, Reason>
        requires { Takes stages.Name self.old rest.old octets.now }
        ensures { EndsBy V.takes self.old self.new rest.old rest.new octets.now result
            visitor.old visitor.new }
    {
        let Some((token, body)) = unusual_at(&mut self.beside, Place::Name, *rest, octets) else {
            return Ok(Taken::Uses);
        };
        let Some(text) = name_text(&body) else {
            drop(body);
            return Ok(Taken::Uses);
        };
        let taken = self.read_key(token, text, rest, octets, visitor);
        drop(body);
        taken
    }
}
