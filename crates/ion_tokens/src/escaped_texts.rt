//! Quoted texts with escapes that lie whole in memory: what stands between two of them is kept at
//! once.
ghost use Rattle.std.specs.Prelude.{◌≡◌, ◌<◌, ◌≤◌, [], ◌∷◌, length, slice_index, take, IfSome};
ghost use Rattle.ion_tokens.specs.Names.{LeadsOn, StandsWhole, quote_of};

use crate::escapes::escape;
use crate::front::characters;
use crate::machine::Machine;
use crate::mode::{Style, TokenKind};
use crate::quoted::quote_of;
use crate::token_reader::FoundToken;
use std::mem;

// Keeps what the escape or the run of characters at the front means, and counts its octets; `None`
// where neither stands there, and where memory runs out.
#[inline(always)]
fn part(style: Style, octets: &[u8], kept: &mut Vec<u8>) -> Option<usize>
    requires { 0 < length octets.now }
    ensures some { IfSome result (λ count. 0 < count) }
    ensures within { IfSome result (λ count. count ≤ length octets.now) }
    ensures leads { IfSome result (λ count.
        LeadsOn style (take count octets.now) kept.old.items kept.new.items) }
{
    if octets[0] == b'\\' {
        return escape(style, octets, kept);
    }
    let count = characters(style, octets);
    if count == 0 {
        return None;
    }
    kept.extend_from_slice(&octets[..count]).ok()?;
    Some(count)
}

/// Keeps what stands before the first quote, and counts its octets.
pub fn before_quote(style: Style, octets: &[u8], kept: &mut Vec<u8>) -> Option<usize>
    ensures within { IfSome result (λ count. count < length octets.now) }
    ensures quote { IfSome result (λ count. slice_index octets.now count ≡ quote_of style) }
    ensures leads { IfSome result (λ count.
        LeadsOn style (take count octets.now) kept.old.items kept.new.items) }
{
    let quote = quote_of(style);
    let mut at = characters(style, octets);
    if octets[at..].first() == Some(&b'\\') {
        // room for more than the escape, so that most texts take memory once
        kept.reserve(at + 32).ok()?;
    }
    kept.extend_from_slice(&octets[..at]).ok()?;
    while at < octets.len() {
        if octets[at] == quote {
            return Some(at);
        }
        at += part(style, &octets[at..], kept)?;
    }
    None
}

impl Machine {
    /// The token at the front of octets where the machine rests, if it is a quoted text whose
    /// characters stand as they are or are escapes. `None` also of hidden line ends, of a segment of
    /// a long string with quotes in it, and where memory runs out.
    pub fn found_at_once(&mut self, octets: &[u8]) -> Option<FoundToken>
        ensures { IfSome result (λ found. StandsWhole octets.now self.new.ended.items found) }
    {
        self.kept.clear();
        match octets.split_first() {
            Some((b'"', behind)) => self.escaped_string(behind),
            Some((b'\'', behind)) => self.escaped_symbol(behind),
            _ => None,
        }
    }

    // The same behind the quote of a short string.
    fn escaped_string(&mut self, behind: &[u8]) -> Option<FoundToken>
        requires { self.old.kept.items ≡ [] }
        ensures { IfSome result (λ found.
            StandsWhole (34 ∷ behind.now) self.new.ended.items found) }
    {
        let count = before_quote(Style::ShortString, behind, &mut self.kept)?;
        Some(self.whole(TokenKind::ShortString, count + 2, false))
    }

    // The same behind a single quote.
    fn escaped_symbol(&mut self, behind: &[u8]) -> Option<FoundToken>
        requires { self.old.kept.items ≡ [] }
        ensures { IfSome result (λ found.
            StandsWhole (39 ∷ behind.now) self.new.ended.items found) }
    {
        let (first, after) = behind.split_first()?;
        if *first == b'\'' {
            return self.behind_quotes(after);
        }
        let count = before_quote(Style::QuotedSymbol, behind, &mut self.kept)?;
        Some(self.whole(TokenKind::QuotedSymbol, count + 2, false))
    }

    // The same behind two single quotes, of which a third makes those of a long string. Else they
    // are the empty symbol, whose end the octet behind it shows.
    fn behind_quotes(&mut self, behind: &[u8]) -> Option<FoundToken>
        requires { self.old.kept.items ≡ [] }
        ensures { IfSome result (λ found.
            StandsWhole (39 ∷ 39 ∷ behind.now) self.new.ended.items found) }
    {
        let (first, content) = behind.split_first()?;
        if *first == b'\'' {
            return self.escaped_segment(content);
        }
        Some(self.whole(TokenKind::QuotedSymbol, 2, true))
    }

    // The same behind the three quotes of a segment of a long string.
    fn escaped_segment(&mut self, behind: &[u8]) -> Option<FoundToken>
        requires { self.old.kept.items ≡ [] }
        ensures { IfSome result (λ found.
            StandsWhole (39 ∷ 39 ∷ 39 ∷ behind.now) self.new.ended.items found) }
    {
        let count = before_quote(Style::LongString, behind, &mut self.kept)?;
        behind[count..].strip_prefix(b"'''")?;
        Some(self.whole(TokenKind::LongString, count + 6, false))
    }

    /// What was kept is that of a token.
    pub fn whole(&mut self, kind: TokenKind, count: usize, left: bool) -> FoundToken
        ensures token { result ≡ record { kind = kind; count = count; left = left } }
        ensures ended { self.new.ended.items ≡ self.old.kept.items }
    {
        mem::swap(&mut self.kept, &mut self.ended);
        FoundToken { kind, count, left }
    }
}
