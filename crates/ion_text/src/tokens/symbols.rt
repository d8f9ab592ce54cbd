//! What stands behind symbols, annotations and names of fields that lie whole in a piece.
ghost use Rattle.std.specs.Prelude.{◌≡◌, ◌≢◌, ◌+◌, ◌-◌, ◌<◌, ◌^◌, length, get_or, take, drop, true, Some, IfSome, IsUtf8};
ghost use Rattle.ion_text.specs.Names.{BeginsName, IsPassed, Place, Rest, RestsBehind, ends_symbol, past_token};

use ion_tokens::{
    FoundToken, Place, Rest, TokenKind, blank_with_comments, blanks, quoted_symbol, short_string,
};

// Whether an octet shows that no `::` follows a symbol: it is no blank, and begins no colon and no
// comment.
#[inline(always)]
pub(crate) fn ends_symbol(octet: u8) -> bool
    ensures { result ≡ ends_symbol octet }
{
    b' ' < octet && !(octet == b':' || octet == b'/')
}

// How many octets of a blank, with the comments in it, stand behind this symbol, and where a scanner
// rests behind them, if the octet behind them shows that no `::` follows.
#[inline(always)]
pub(crate) fn behind_waiting(
    here: Place,
    rest: Rest,
    token: FoundToken,
    octets: &[u8],
) -> Option<(usize, Rest)>
    requires room { rest.used + length octets.now < 2 ^ 63 }
    ensures rests { IfSome result (λ found. RestsBehind (drop token.count octets.now) found.0
        (past_token here rest token.kind token.count) found.1) }
    ensures within { IfSome result (λ found. token.count + found.0 < length octets.now) }
    ensures ends { IfSome result (λ found.
        ends_symbol (get_or octets.now (token.count + found.0) 0) ≡ true) }
{
    if token.count >= octets.len() {
        return None;
    }
    let past = rest.past_token(here, token.kind, token.count);
    let (between, behind) = blank_with_comments(&octets[token.count..], past);
    let total = token.count + between;
    if total >= octets.len() || !ends_symbol(octets[total]) {
        return None;
    }
    Some((between, behind))
}

// How many octets of a blank stand behind a field's name of so many, if one colon alone stands
// behind them.
#[inline(always)]
pub(crate) fn behind_name(octets: &[u8], count: usize) -> Option<usize>
    ensures passed { IfSome result (λ between. IsPassed (drop count octets.now) between) }
    ensures within { IfSome result (λ between. count + between + 1 < length octets.now) }
    ensures colon { IfSome result (λ between. get_or octets.now (count + between) 0 ≡ 58) }
    ensures one { IfSome result (λ between. get_or octets.now (count + between + 1) 0 ≢ 58) }
{
    if count >= octets.len() {
        return None;
    }
    let between = blanks(&octets[count..]);
    let colon = count + between;
    if octets.len() - colon < 2 || octets[colon] != b':' || octets[colon + 1] == b':' {
        return None;
    }
    Some(between)
}

// The same, where most often none stands there.
#[inline(always)]
pub(crate) fn colon_behind(octets: &[u8], count: usize) -> Option<usize>
    ensures passed { IfSome result (λ between. IsPassed (drop count octets.now) between) }
    ensures within { IfSome result (λ between. count + between + 1 < length octets.now) }
    ensures colon { IfSome result (λ between. get_or octets.now (count + between) 0 ≡ 58) }
    ensures one { IfSome result (λ between. get_or octets.now (count + between + 1) 0 ≢ 58) }
{
    if count >= octets.len() || octets.len() - count < 2 {
        return None;
    }
    if octets[count] != b':' {
        return spaced_colon(octets, count);
    }
    if octets[count + 1] == b':' {
        return None;
    }
    Some(0)
}

#[inline(never)]
fn spaced_colon(octets: &[u8], count: usize) -> Option<usize>
    ensures passed { IfSome result (λ between. IsPassed (drop count octets.now) between) }
    ensures within { IfSome result (λ between. count + between + 1 < length octets.now) }
    ensures colon { IfSome result (λ between. get_or octets.now (count + between) 0 ≡ 58) }
    ensures one { IfSome result (λ between. get_or octets.now (count + between + 1) 0 ≢ 58) }
{
    behind_name(octets, count)
}

// How many octets of a blank stand behind an annotation of so many, if `::` and one octet more
// stand behind them.
pub(crate) fn behind_annotation(octets: &[u8], count: usize) -> Option<usize>
    ensures passed { IfSome result (λ between. IsPassed (drop count octets.now) between) }
    ensures within { IfSome result (λ between. count + between + 2 < length octets.now) }
    ensures one { IfSome result (λ between. get_or octets.now (count + between) 0 ≡ 58) }
    ensures two { IfSome result (λ between. get_or octets.now (count + between + 1) 0 ≡ 58) }
{
    if count >= octets.len() {
        return None;
    }
    let between = blanks(&octets[count..]);
    let colon = count + between;
    if octets.len() - colon < 3 || octets[colon] != b':' || octets[colon + 1] != b':' {
        return None;
    }
    Some(between)
}

// A text in quotes that may be a field's name, if its characters stand as they are.
#[inline(always)]
pub(super) fn plain_text(octets: &[u8]) -> Option<FoundToken>
    ensures name { IfSome result (λ token. (place : Place) (rest : Rest) →
        BeginsName place rest octets.now token
        (Some (take (token.count - 2) (drop 1 octets.now)))) }
    ensures text { IfSome result (λ token. IsUtf8 (take (token.count - 2) (drop 1 octets.now))) }
{
    if let Some(count) = short_string(octets) {
        return Some(FoundToken {
            kind: TokenKind::ShortString,
            count,
            left: false,
        });
    }
    let count = quoted_symbol(octets)?;
    Some(FoundToken {
        kind: TokenKind::QuotedSymbol,
        count,
        left: false,
    })
}
