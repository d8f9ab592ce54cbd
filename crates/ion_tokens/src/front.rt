//! Octets at the front of a piece with which the mode goes on as it is: they are taken up at once.
ghost use Rattle.std.specs.Prelude.{◌≡◌, ◌+◌, ◌-◌, ◌^◌, ◌<◌, ◌≤◌, min, length, slice_index, take, IfOk, IfSome, IsUtf8, false};
ghost use Rattle.std.specs.List.{take_while};
ghost use Rattle.ion_tokens.specs.Usual.{is_usual};
ghost use Rattle.ion_tokens.specs.Names.{AreKept, Each, GoesOver, goes_on, gone_on, is_base64, is_between, is_digit, is_numeric, is_plain, is_plain_operator, is_raw, is_white, is_word_octet, keeps_them};
ghost use Rattle.ion_tokens.specs.declared.mode.Mode.TheVariants as modes;
ghost use Rattle.ion_tokens.specs.machine.Machines.{known};

use crate::lanes::{
    base64_ends, digit_ends, number_ends, raw_ends, stars, text_ends, usual_ends, word_ends,
};
use crate::machine::{Machine, start_of};
use crate::mode::{Lob, Mode, Style, Within};
use crate::octets::{is_base64, is_line_end, is_operator_octet, is_stop, is_white, is_word_octet};
use crate::quoted::{is_clob, is_long, quote_of};
use simdutf8::{compat, is_utf8};
use std::alloc::AllocError;
use std::simd::prelude::*;

// An ASCII character that a text in these quotes, long or not, keeps as it is, and no quote; the
// likely answer comes first.
#[inline(always)]
fn is_between(long: bool, quote: u8, octet: u8) -> bool
    ensures { result ≡ is_between long quote octet }
{
    if b' ' <= octet && octet < 128 {
        octet != quote && octet != b'\\'
    } else {
        (octet == b'\t' || octet == 11 || octet == 12 || (long && octet == b'\n')) && octet != quote
    }
}

// How many such characters there are at the front, one by one.
#[inline(always)]
fn each_between(long: bool, quote: u8, octets: &[u8]) -> usize
    ensures { result ≡ length (take_while (is_between long quote) octets.now) }
{
    octets
        .iter()
        .copied()
        .take_while(|octet| is_between(long, quote, *octet))
        .count()
}

// The same, sixteen at a time.
#[inline(always)]
fn all_between(long: bool, quote: u8, octets: &[u8]) -> usize
    ensures { result ≡ length (take_while (is_between long quote) octets.now) }
{
    let mut at = 0;
    while octets.len() - at >= 16 {
        let ends = text_ends(long, quote, u8x16::from_slice(&octets[at..]));
        if ends != 0 {
            return at + ends.trailing_zeros() as usize;
        }
        at += 16;
    }
    at + each_between(long, quote, &octets[at..])
}

// An octet of a character that such a text keeps as it is, and no quote.
#[inline(always)]
fn is_raw(long: bool, quote: u8, octet: u8) -> bool
    ensures { result ≡ is_raw long quote octet }
{
    octet >= 128 && octet != quote || is_between(long, quote, octet)
}

// How many such octets there are at the front, one by one.
#[inline(never)]
fn each_raw(long: bool, quote: u8, octets: &[u8]) -> usize
    ensures { result ≡ length (take_while (is_raw long quote) octets.now) }
{
    octets
        .iter()
        .copied()
        .take_while(|octet| is_raw(long, quote, *octet))
        .count()
}

// The same, sixteen at a time.
#[inline(always)]
fn all_raw(long: bool, quote: u8, octets: &[u8]) -> usize
    ensures { result ≡ length (take_while (is_raw long quote) octets.now) }
{
    let mut at = 0;
    while octets.len() - at >= 16 {
        let ends = raw_ends(long, quote, u8x16::from_slice(&octets[at..]));
        if ends != 0 {
            return at + ends.trailing_zeros() as usize;
        }
        at += 16;
    }
    at + each_raw(long, quote, &octets[at..])
}

// How many octets at the front are those of characters that such a text keeps as they are. Where
// one of them isn't well formed or is cut, the characters before it are counted, so that none of
// them is gone over again.
#[inline(never)]
fn characters_between(long: bool, quote: u8, octets: &[u8]) -> usize
    ensures within { result ≤ length octets.now }
    ensures raw { Each (is_raw long quote) (take result octets.now) }
    ensures text { IsUtf8 (take result octets.now) }
{
    let count = all_raw(long, quote, octets);
    let run = &octets[..count];
    if is_utf8(run) {
        return count;
    }
    match compat::from_utf8(run) {
        Ok(_) => count,
        Err(error) => error.valid_up_to(),
    }
}

/// The same where sixteen octets are there: most texts end among them.
#[inline(always)]
pub fn usual_ahead(quote: u8, octets: &[u8]) -> Option<usize>
    requires { 16 ≤ length octets.now }
    ensures usual { IfSome result (λ count. count ≡ length (take_while (is_usual quote) octets.now)) }
    ensures within { IfSome result (λ count. count < length octets.now) }
    ensures quote { IfSome result (λ count. slice_index octets.now count ≡ quote) }
{
    let ends = usual_ends(quote, u8x16::from_slice(octets));
    if ends == 0 {
        return usual_before(quote, octets);
    }
    let count = ends.trailing_zeros() as usize;
    if octets[count] != quote {
        return None;
    }
    Some(count)
}

/// How many usual characters stand before the quote at which a text in these quotes ends, if no other
/// ones do and sixteen octets show it.
#[inline(never)]
pub fn usual_before(quote: u8, octets: &[u8]) -> Option<usize>
    ensures usual { IfSome result (λ count. count ≡ length (take_while (is_usual quote) octets.now)) }
    ensures within { IfSome result (λ count. count < length octets.now) }
    ensures quote { IfSome result (λ count. slice_index octets.now count ≡ quote) }
{
    let mut at = 0;
    while octets.len() - at >= 16 {
        let ends = usual_ends(quote, u8x16::from_slice(&octets[at..]));
        if ends != 0 {
            let count = at + ends.trailing_zeros() as usize;
            if octets[count] == quote {
                return Some(count);
            }
            return None;
        }
        at += 16;
    }
    None
}

// Whether octets with which the mode goes on are kept; those of a blank aren't.
fn keeps_them(mode: Mode) -> bool
    ensures { result ≡ keeps_them mode }
{
    !matches!(mode, Mode::Blank | Mode::LineComment | Mode::BlockComment)
}

/// How many octets of white space there are at the front; most often there is none, or one space.
#[inline(always)]
pub fn white(octets: &[u8]) -> usize
    ensures { result ≡ length (take_while is_white octets.now) }
{
    if octets.is_empty() || octets[0] > b' ' || !is_white(octets[0]) {
        return 0;
    }
    if octets.len() > 1 && !is_white(octets[1]) {
        return 1;
    }
    each_white(octets)
}

#[inline(never)]
fn each_white(octets: &[u8]) -> usize
    ensures { result ≡ length (take_while is_white octets.now) }
{
    octets
        .iter()
        .copied()
        .take_while(|octet| is_white(*octet))
        .count()
}

/// How many octets there are at the front with which a word goes on.
#[inline(always)]
pub fn of_word(octets: &[u8]) -> usize
    ensures { result ≡ length (take_while is_word_octet octets.now) }
{
    let mut at = 0;
    while octets.len() - at >= 16 {
        let ends = word_ends(u8x16::from_slice(&octets[at..]));
        if ends != 0 {
            return at + ends.trailing_zeros() as usize;
        }
        at += 16;
    }
    at + each_of_word(&octets[at..])
}

// The same, one by one.
#[inline(never)]
fn each_of_word(octets: &[u8]) -> usize
    ensures { result ≡ length (take_while is_word_octet octets.now) }
{
    octets
        .iter()
        .copied()
        .take_while(|octet| is_word_octet(*octet))
        .count()
}

/// How many digits there are at the front, where sixteen octets show their end.
#[inline(always)]
pub fn few_digits(octets: &[u8]) -> Option<usize>
    ensures { IfSome result (λ count. count ≡ length (take_while is_digit octets.now)) }
{
    if octets.len() < 16 {
        return None;
    }
    let ends = digit_ends(u8x16::from_slice(octets));
    if ends == 0 {
        return None;
    }
    Some(ends.trailing_zeros() as usize)
}

/// How many octets there are at the front with which a number goes on.
#[inline(always)]
pub fn of_number(octets: &[u8]) -> usize
    ensures { result ≡ length (take_while is_numeric octets.now) }
{
    let mut at = 0;
    while octets.len() - at >= 16 {
        let ends = number_ends(u8x16::from_slice(&octets[at..]));
        if ends != 0 {
            return at + ends.trailing_zeros() as usize;
        }
        at += 16;
    }
    at + each_of_number(&octets[at..])
}

// The same, one by one.
#[inline(never)]
fn each_of_number(octets: &[u8]) -> usize
    ensures { result ≡ length (take_while is_numeric octets.now) }
{
    octets
        .iter()
        .copied()
        .take_while(|octet| !(is_stop(*octet) || *octet == b'/'))
        .count()
}

/// How many octets of a block comment there are at the front, up to a star.
#[inline(always)]
pub fn of_comment(octets: &[u8]) -> usize
    ensures { result ≡ length (take_while (goes_on modes.BlockComment) octets.now) }
{
    let mut at = 0;
    while octets.len() - at >= 16 {
        let ends = stars(u8x16::from_slice(&octets[at..]));
        if ends != 0 {
            return at + ends.trailing_zeros() as usize;
        }
        at += 16;
    }
    at + each_of_comment(&octets[at..])
}

// The same, one by one.
#[inline(never)]
fn each_of_comment(octets: &[u8]) -> usize
    ensures { result ≡ length (take_while (goes_on modes.BlockComment) octets.now) }
{
    octets
        .iter()
        .copied()
        .take_while(|octet| !(*octet == b'*'))
        .count()
}

// An octet of an operator that begins no comment.
fn is_plain_operator(octet: u8) -> bool
    ensures { result ≡ is_plain_operator octet }
{
    is_operator_octet(octet) && !(octet == b'/')
}

/// How many octets of an operator there are at the front, up to a `/`.
pub fn of_operator(octets: &[u8]) -> usize
    ensures { result ≡ length (take_while is_plain_operator octets.now) }
{
    octets
        .iter()
        .copied()
        .take_while(|octet| is_plain_operator(*octet))
        .count()
}

/// How many octets of base64 there are at the front.
#[inline(always)]
pub fn of_base64(octets: &[u8]) -> usize
    ensures { result ≡ length (take_while is_base64 octets.now) }
{
    let mut at = 0;
    while octets.len() - at >= 16 {
        let ends = base64_ends(u8x16::from_slice(&octets[at..]));
        if ends != 0 {
            return at + ends.trailing_zeros() as usize;
        }
        at += 16;
    }
    at + each_of_base64(&octets[at..])
}

// The same, one by one.
#[inline(never)]
fn each_of_base64(octets: &[u8]) -> usize
    ensures { result ≡ length (take_while is_base64 octets.now) }
{
    octets
        .iter()
        .copied()
        .take_while(|octet| is_base64(*octet))
        .count()
}

// How many ASCII characters there are at the front that a quoted text keeps as they are.
#[inline(always)]
fn plain(style: Style, octets: &[u8]) -> usize
    ensures { result ≡ length (take_while (is_plain style) octets.now) }
{
    all_between(is_long(style), quote_of(style), octets)
}

/// How many octets there are at the front of characters that a quoted text keeps as they are, up to
/// one that isn't well formed, or isn't whole.
#[inline(never)]
pub fn characters(style: Style, octets: &[u8]) -> usize
    ensures within { result ≤ length octets.now }
    ensures kept { AreKept style (take result octets.now) }
{
    beyond_ascii(style, octets, plain(style, octets))
}

// The same, where so many ASCII characters stand in front.
#[inline(always)]
fn beyond_ascii(style: Style, octets: &[u8], ascii: usize) -> usize
    requires { ascii ≡ length (take_while (is_plain style) octets.now) }
    ensures within { result ≤ length octets.now }
    ensures kept { AreKept style (take result octets.now) }
{
    if ascii >= octets.len() || octets[ascii] < 128 || is_clob(style) {
        return ascii;
    }
    ascii + characters_between(is_long(style), quote_of(style), &octets[ascii..])
}

impl Machine {
    /// How many octets there are at the front of a piece over which the mode goes on.
    pub fn front(&self, piece: &[u8]) -> usize
        ensures within { result ≤ length piece.now }
        ensures over { GoesOver self.now.mode (take result piece.now) }
    {
        let count = self.each_front(piece);
        match self.mode {
            Mode::Text(style, Within::Plain) => beyond_ascii(style, piece, count),
            _ => count,
        }
    }

    // How many octets there are at the front with each of which the mode goes on.
    fn each_front(&self, piece: &[u8]) -> usize
        ensures { result ≡ length (take_while (goes_on self.now.mode) piece.now) }
    {
        let octets = piece.iter().copied();
        match self.mode {
            Mode::Blank => white(piece),
            Mode::LineComment => octets.take_while(|octet| !is_line_end(*octet)).count(),
            Mode::BlockComment => of_comment(piece),
            Mode::Word => of_word(piece),
            Mode::Number => of_number(piece),
            Mode::Text(style, Within::Plain) => plain(style, piece),
            Mode::Lob(Lob::Base64) => of_base64(piece),
            _ => 0,
        }
    }

    /// Takes up octets with which the mode goes on, one at least.
    pub fn go_on(&mut self, octets: &[u8]) -> Result<(), AllocError>
        requires room { self.old.used + length octets.now < 2 ^ 63 }
        requires some { 0 < length octets.now }
        ensures known { IfOk result (λ _. known self.new ≡ gone_on (known self.old) octets.now) }
        ensures looked { IfOk result (λ _. self.new.looked
            ≡ min (self.old.looked + length octets.now) (2 ^ 64 - 1)) }
        ensures left { IfOk result (λ _. self.new.left ≡ false) }
    {
        if keeps_them(self.mode) {
            self.kept.extend_from_slice(octets)?;
        }
        self.left = false;
        let count = octets.len() as u64;
        self.start = start_of(self.mode, self.start, self.used + (count - 1));
        self.used += count;
        self.looked = self.looked.saturating_add(count);
        Ok(())
    }
}
