//! Long strings that lie whole in a piece, with all their segments and the octet behind these, which
//! shows that no other follows. One with a comment between or behind its segments is left to the
//! octets.
ghost use Rattle.std.specs.Prelude.{◌≡◌, ℕ, ◌+◌, ◌<◌, ◌≤◌, ◌^◌, List, ◌++◌, [], true, length, string_bytes, IfSome, MatchResult};
ghost use Rattle.ion_text.specs.Names.{Place, Rest};
ghost use Rattle.ion_atoms.specs.declared.refusal.Reason.TheVariants as reasons;
ghost use Rattle.ion_text.specs.machine.LongStrings.{JoinedSegment, LongThere, PassedSegment, ends_long};

use super::symbols::ends_symbol;
use ion_model::{Reason, Text};
use ion_tokens::{Body, Place, Rest, TokenKind, TokenReader, blanks, long_segment};

/// Whether a long string may begin there.
pub(crate) fn begins_long(octets: &[u8]) -> bool {
    match octets.first() {
        Some(b'\'') => octets.strip_prefix(b"'''").is_some(),
        _ => false,
    }
}

// Whether an octet shows that no segment of a long string follows: it is no blank and no quote, and
// begins no colon and no comment.
fn ends_long(octet: u8) -> bool
    ensures { result ≡ ends_long octet }
{
    ends_symbol(octet) && !(octet == b'\'')
}

// Joins to a text what the segment there says, whose characters may be escaped: how many octets it
// has.
#[inline(never)]
fn join_escaped(
    beside: &mut TokenReader,
    here: Place,
    rest: Rest,
    octets: &[u8],
    text: &mut String,
) -> Option<usize>
    requires room { rest.used + length octets.now < 2 ^ 63 }
    ensures { IfSome result (λ size.
        JoinedSegment here rest octets.now size (string_bytes text.old) (string_bytes text.new)) }
{
    if octets.strip_prefix(b"'''").is_none() {
        return None;
    }
    let token = beside.token(here, rest, octets)?;
    if token.left || !matches!(token.kind, TokenKind::LongString) {
        return None;
    }
    let Ok(Body::Long(more)) = beside.body(TokenKind::LongString) else {
        return None;
    };
    if text.push_str(more.as_str()).is_err() {
        return None;
    }
    Some(token.count)
}

// The segment there, if its characters stand as they are: how many octets it has, and what it says.
#[inline(always)]
fn plain_segment(octets: &[u8]) -> Option<(usize, &str)>
    ensures found { IfSome result (λ found. (here : Place) (rest : Rest) (old : List ℕ) →
        JoinedSegment here rest octets.now found.0 old (old ++ found.1.now)) }
    ensures within { IfSome result (λ found. found.0 ≤ length octets.now) }
{
    let size = long_segment(octets)?;
    let content = &octets[3..][..size - 6];
    Some((size, unsafe { str::from_utf8_unchecked(content) }))
}

// Joins this to a text where that is asked for.
#[inline(always)]
fn join(joins: bool, said: &str, text: &mut String) -> Option<()>
    ensures { IfSome result (λ _. joins ≡ true →
        string_bytes text.new ≡ string_bytes text.old ++ said.now) }
{
    if !joins {
        return Some(());
    }
    text.push_str(said).ok()
}

// Goes over the segment there, and joins to a text what it says where that is asked for: how many
// octets it has.
fn join_segment(
    beside: &mut TokenReader,
    here: Place,
    rest: Rest,
    octets: &[u8],
    joins: bool,
    text: &mut String,
) -> Option<usize>
    requires room { rest.used + length octets.now < 2 ^ 63 }
    ensures { IfSome result (λ size. (more : List ℕ)
        × ((old : List ℕ) → JoinedSegment here rest octets.now size old (old ++ more))
        × (joins ≡ true → string_bytes text.new ≡ string_bytes text.old ++ more)) }
{
    let Some((size, said)) = plain_segment(octets) else {
        return join_escaped(beside, here, rest, octets, text);
    };
    join(joins, said, text)?;
    Some(size)
}

// The same of the segment and the blank behind it: how many octets they have, and where a scanner
// rests behind them.
fn pass_segment(
    beside: &mut TokenReader,
    here: Place,
    rest: Rest,
    octets: &[u8],
    joins: bool,
    text: &mut String,
) -> Option<(usize, Rest)>
    requires room { rest.used + length octets.now < 2 ^ 63 }
    ensures { IfSome result (λ passed. (more : List ℕ)
        × ((old : List ℕ) →
        PassedSegment here rest octets.now passed.0 passed.1 old (old ++ more))
        × (joins ≡ true → string_bytes text.new ≡ string_bytes text.old ++ more)) }
{
    let size = join_segment(beside, here, rest, octets, joins, text)?;
    if size > octets.len() {
        return None;
    }
    let between = blanks(&octets[size..]);
    let behind = rest
        .past_token(here, TokenKind::LongString, size)
        .past_blank(between);
    Some((size + between, behind))
}

/// Goes over the segments of the long string there, where the octet behind them and a blank shows
/// that they are all, and joins them to an empty text where that is asked for: how many octets they
/// have, and where a scanner rests behind them.
pub(crate) fn join_segments(
    beside: &mut TokenReader,
    here: Place,
    rest: Rest,
    octets: &[u8],
    joins: bool,
    text: &mut String,
) -> Option<(usize, Rest)>
    requires room { rest.used + length octets.now < 2 ^ 63 }
    requires none { string_bytes text.old ≡ [] }
    ensures { IfSome result (λ joined. (said : List ℕ)
        × LongThere here rest octets.now joined.0 joined.1 said
        × (joins ≡ true → string_bytes text.new ≡ said)) }
{
    let (mut at, mut behind) = pass_segment(beside, here, rest, octets, joins, text)?;
    for _ in 0..octets.len() {
        if at >= octets.len() {
            return None;
        }
        if ends_long(octets[at]) {
            return Some((at, behind));
        }
        let (count, further) = pass_segment(beside, here, behind, &octets[at..], joins, text)?;
        at += count;
        behind = further;
    }
    None
}

/// The long string of one segment there, if its characters stand as they are: how many octets it has
/// with the blank behind it, where a scanner rests behind them, and what it says.
#[inline(always)]
pub(crate) fn one_segment(here: Place, rest: Rest, octets: &[u8]) -> Option<(usize, Rest, &str)>
    requires room { rest.used + length octets.now < 2 ^ 63 }
    ensures { IfSome result (λ found.
        LongThere here rest octets.now found.0 found.1 found.2.now) }
{
    let (size, said) = plain_segment(octets)?;
    let between = blanks(&octets[size..]);
    let count = size + between;
    if count >= octets.len() || !ends_long(octets[count]) {
        return None;
    }
    let behind = rest
        .past_token(here, TokenKind::LongString, size)
        .past_blank(between);
    Some((count, behind, said))
}

// One text behind the other, without a copy of the first.
pub(crate) fn joined(text: Text, more: &Text) -> Result<Text, Reason>
    ensures { MatchResult result (λ t. t ≡ text ++ more.now) (λ r. r ≡ reasons.Memory) }
{
    let mut all = text.into_string();
    all.push_str(more.as_str())?;
    Ok(Text::from_string(all))
}
