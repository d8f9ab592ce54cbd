//! Blanks with comments in them that lie whole in memory, where a scanner rests (Ion 1.0, "Ion Text
//! Encoding", comments). What is cut isn't told here: the scanner takes it up octet by octet.
ghost use Rattle.std.specs.Prelude.{◌≡◌, ◌+◌, ◌≤◌, ◌<◌, ◌^◌, length, get_or, take, IfSome};
ghost use Rattle.std.specs.List.{take_while};
ghost use Rattle.ion_tokens.specs.Names.{HasNoClose, Rest, RestsBehind, goes_on, is_white, past_comment};
ghost use Rattle.ion_tokens.specs.declared.mode.Mode.TheVariants as modes;

use crate::front::of_comment;
use crate::octets::is_line_end;
use crate::plain_tokens::{Rest, blanks};

// How many octets there are at the front before the end of the line.
fn of_line(octets: &[u8]) -> usize
    ensures { result ≡ length (take_while (goes_on modes.LineComment) octets.now) }
{
    octets
        .iter()
        .copied()
        .take_while(|octet| !is_line_end(*octet))
        .count()
}

// How many octets there are before the first `*/`.
fn of_block(octets: &[u8]) -> Option<usize>
    ensures open { IfSome result (λ count. HasNoClose (take count octets.now)) }
    ensures within { IfSome result (λ count. count + 1 < length octets.now) }
    ensures star { IfSome result (λ count. get_or octets.now count 0 ≡ 42) }
    ensures slash { IfSome result (λ count. get_or octets.now (count + 1) 0 ≡ 47) }
{
    let mut at = 0;
    for _ in 0..octets.len() {
        let star = at + of_comment(&octets[at..]);
        if octets.len() - star < 2 {
            return None;
        }
        if octets[star + 1] == b'/' {
            return Some(star);
        }
        at = star + 1;
    }
    None
}

// How many octets the comment at the front has, with the end of a line comment.
fn comment(octets: &[u8]) -> Option<usize>
    ensures rests { IfSome result (λ count. (rest : Rest) →
        RestsBehind octets.now count rest (past_comment rest count)) }
    ensures within { IfSome result (λ count. count ≤ length octets.now) }
{
    if octets.len() < 2 || octets[0] != b'/' {
        return None;
    }
    let content = &octets[2..];
    match octets[1] {
        b'/' => {
            let count = of_line(content);
            if count >= content.len() {
                return None;
            }
            Some(count + 3)
        }
        b'*' => {
            let count = of_block(content)?;
            Some(count + 4)
        }
        _ => None,
    }
}

impl Rest {
    /// Behind a comment of so many octets.
    fn past_comment(self, count: usize) -> Rest
        requires { self.used + count < 2 ^ 63 }
        ensures { result ≡ past_comment self count }
    {
        Rest {
            start: self.used,
            used: self.used + count as u64,
            colon: self.colon,
        }
    }
}

// The comments at the front with the blanks behind them: how many octets they have, and where a
// scanner rests behind them.
#[inline(never)]
fn comments(octets: &[u8], rest: Rest) -> (usize, Rest)
    requires room { rest.used + length octets.now < 2 ^ 63 }
    ensures { RestsBehind octets.now result.0 rest result.1 }
{
    let mut at = 0;
    let mut behind = rest;
    for _ in 0..octets.len() {
        let Some(count) = comment(&octets[at..]) else {
            return (at, behind);
        };
        behind = behind.past_comment(count);
        at += count;
        let blank = blanks(&octets[at..]);
        behind = behind.past_blank(blank);
        at += blank;
    }
    (at, behind)
}

/// The blank at the front with the comments in it that end there: how many octets it has, and where
/// a scanner rests behind it. All octets before the first comment are among them; which comments
/// are, and what stands behind them, isn't promised.
#[inline(always)]
pub fn blank_with_comments(octets: &[u8], rest: Rest) -> (usize, Rest)
    requires room { rest.used + length octets.now < 2 ^ 63 }
    ensures rests { RestsBehind octets.now result.0 rest result.1 }
    ensures least { length (take_while is_white octets.now) ≤ result.0 }
{
    let blank = blanks(octets);
    let behind = rest.past_blank(blank);
    if blank >= octets.len() || octets[blank] != b'/' {
        return (blank, behind);
    }
    let (more, last) = comments(&octets[blank..], behind);
    (blank + more, last)
}
