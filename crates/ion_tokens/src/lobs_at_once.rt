//! Blobs and clobs that lie whole in memory: each run of a blob's base64 is kept at once, and so is
//! what stands between two escapes of a clob.
ghost use Rattle.std.specs.Prelude.{◌≡◌, ◌+◌, ◌^◌, ◌<◌, ◌≤◌, ℕ, List, true, false, [], ◌∷◌, length, slice_index, take, IfSome, Some};
ghost use Rattle.ion_tokens.specs.Names.{AddsBase64, AddsSegments, StandsIn, blob_of, is_name};

use crate::blob::decoded;
use crate::escaped_texts::before_quote;
use crate::front::{of_base64, white};
use crate::machine::Machine;
use crate::mode::{Place, Style, TokenKind};
use crate::table::is_name;
use crate::token_reader::FoundToken;

// Passes the white octets at the front or keeps the base64 there, and counts them; `None` where
// neither stands there, and where memory runs out.
#[inline(always)]
fn content_part(octets: &[u8], kept: &mut Vec<u8>) -> Option<usize>
    ensures some { IfSome result (λ count. 0 < count) }
    ensures within { IfSome result (λ count. count ≤ length octets.now) }
    ensures adds { IfSome result (λ count.
        AddsBase64 (take count octets.now) kept.old.items kept.new.items) }
{
    let blank = white(octets);
    if blank > 0 {
        return Some(blank);
    }
    let count = of_base64(octets);
    if count == 0 {
        return None;
    }
    kept.extend_from_slice(&octets[..count]).ok()?;
    Some(count)
}

// Keeps the base64 before the first `}`, and counts the octets before it.
fn before_brace(octets: &[u8], kept: &mut Vec<u8>) -> Option<usize>
    ensures within { IfSome result (λ count. count < length octets.now) }
    ensures brace { IfSome result (λ count. slice_index octets.now count ≡ 125) }
    ensures adds { IfSome result (λ count.
        AddsBase64 (take count octets.now) kept.old.items kept.new.items) }
{
    let mut at = 0;
    while at < octets.len() {
        if octets[at] == b'}' {
            return Some(at);
        }
        at += content_part(&octets[at..], kept)?;
    }
    None
}

// Keeps what the segment of a long clob at the front means, and counts its octets and those of the
// white space behind it.
fn clob_segment(octets: &[u8], kept: &mut Vec<u8>) -> Option<usize>
    ensures some { IfSome result (λ count. 0 < count) }
    ensures within { IfSome result (λ count. count ≤ length octets.now) }
    ensures adds { IfSome result (λ count.
        AddsSegments (take count octets.now) kept.old.items kept.new.items) }
{
    let text = octets.strip_prefix(b"'''")?;
    let count = before_quote(Style::LongClob, text, kept)?;
    let rest = text[count..].strip_prefix(b"'''")?;
    Some(count + 6 + white(rest))
}

// The same of one segment or more, up to a `}`.
fn clob_segments(octets: &[u8], kept: &mut Vec<u8>) -> Option<usize>
    ensures within { IfSome result (λ count. count < length octets.now) }
    ensures adds { IfSome result (λ count.
        AddsSegments (take count octets.now) kept.old.items kept.new.items) }
{
    let mut at = clob_segment(octets, kept)?;
    while at < octets.len() {
        if octets[at] == b'}' {
            return Some(at);
        }
        at += clob_segment(&octets[at..], kept)?;
    }
    None
}

// The blob with so much content, whose base64 is this, where it stands for octets: they are put into
// the buffer.
fn blob(text: &[u8], count: usize, octets: &mut Vec<u8>) -> Option<FoundToken>
    requires { count < 2 ^ 63 }
    ensures { IfSome result (λ token.
        (token ≡ record { kind = TokenKind.Blob; count = count + 4; left = false })
        × (blob_of text.now ≡ Some octets.new.items)) }
{
    if !decoded(text, octets).ok()? {
        return None;
    }
    Some(FoundToken {
        kind: TokenKind::Blob,
        count: count + 4,
        left: false,
    })
}

// Whether octets begin with the braces that close a blob.
fn begins_close(octets: &[u8]) -> bool
    ensures { result ≡ true → (behind : List ℕ) × (octets.now ≡ 125 ∷ 125 ∷ behind) }
{
    octets.strip_prefix(b"}}").is_some()
}

impl Machine {
    /// The token at the front of octets where the machine rests, if it is a blob or a clob, which
    /// none is where a field's name stands. `None` also where a text of a clob hides a line end, or
    /// has quotes or a carriage return in a segment, and where memory runs out.
    pub fn lob_at_once(&mut self, place: Place, octets: &[u8]) -> Option<FoundToken>
        ensures { IfSome result (λ found.
            StandsIn place octets.now self.new.ended.items found) }
    {
        if is_name(place) {
            return None;
        }
        let behind = octets.strip_prefix(b"{{")?;
        self.kept.clear();
        match behind[white(behind)..].first() {
            Some(b'"') => self.clob_behind(place, behind),
            Some(b'\'') => self.long_clob_behind(place, behind),
            _ => self.blob_behind(place, behind),
        }
    }

    // A blob behind the braces that open it. Base64 without white space is decoded where it stands.
    fn blob_behind(&mut self, place: Place, behind: &[u8]) -> Option<FoundToken>
        requires name { is_name place ≡ false }
        requires none_kept { self.old.kept.items ≡ [] }
        ensures { IfSome result (λ found.
            StandsIn place (123 ∷ 123 ∷ behind.now) self.new.ended.items found) }
    {
        let solid = of_base64(behind);
        if begins_close(&behind[solid..]) {
            return blob(&behind[..solid], solid, &mut self.ended);
        }
        let count = before_brace(behind, &mut self.kept)?;
        behind[count..].strip_prefix(b"}}")?;
        blob(self.kept.as_slice(), count, &mut self.ended)
    }

    // A clob in one short text behind the braces that open it.
    fn clob_behind(&mut self, place: Place, behind: &[u8]) -> Option<FoundToken>
        requires name { is_name place ≡ false }
        requires none_kept { self.old.kept.items ≡ [] }
        ensures { IfSome result (λ found.
            StandsIn place (123 ∷ 123 ∷ behind.now) self.new.ended.items found) }
    {
        let before = white(behind);
        let text = behind[before..].strip_prefix(b"\"")?;
        let count = before_quote(Style::ShortClob, text, &mut self.kept)?;
        let rest = &text[count + 1..];
        let after = white(rest);
        rest[after..].strip_prefix(b"}}")?;
        Some(self.whole(TokenKind::Clob, before + count + after + 6, false))
    }
    // A clob in segments behind the braces that open it.
    fn long_clob_behind(&mut self, place: Place, behind: &[u8]) -> Option<FoundToken>
        requires name { is_name place ≡ false }
        requires none_kept { self.old.kept.items ≡ [] }
        ensures { IfSome result (λ found.
            StandsIn place (123 ∷ 123 ∷ behind.now) self.new.ended.items found) }
    {
        let before = white(behind);
        let content = &behind[before..];
        let count = clob_segments(content, &mut self.kept)?;
        content[count..].strip_prefix(b"}}")?;
        Some(self.whole(TokenKind::Clob, before + count + 4, false))
    }
}
