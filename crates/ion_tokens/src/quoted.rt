//! Quoted texts: raw characters and escapes (Ion 1.0, "Ion Text Encoding", strings, symbols and
//! clobs).
ghost use Rattle.std.specs.Prelude.{◌≡◌, ◌<◌};
ghost use Rattle.ion_tokens.specs.Names.{after_digits, character, close, close_long, grow, in_escape, in_hexadecimal, in_text, in_utf8, is_clob, is_high, is_long, is_low, lead, quote_of, raw, stands};

use crate::mode::{Action, Digits, Keep, Lob, Mode, Style, TokenKind, Within, add, go, unexpected};
use crate::octets::{escaped, hexadecimal_digit};
use ion_atoms::Reason;

pub fn is_long(style: Style) -> bool
    ensures { result ≡ is_long style }
{
    matches!(style, Style::LongString | Style::LongClob)
}

pub fn is_clob(style: Style) -> bool
    ensures { result ≡ is_clob style }
{
    matches!(style, Style::ShortClob | Style::LongClob)
}

pub fn quote_of(style: Style) -> u8
    ensures { result ≡ quote_of style }
{
    match style {
        Style::ShortString | Style::ShortClob => b'"',
        _ => b'\'',
    }
}

// An ASCII character that stands for itself in every style.
pub fn stands(octet: u8) -> bool
    ensures { result ≡ stands octet }
{
    matches!(octet, b'\t' | 11 | 12 | b' '..=127)
}

// The quote that ends a text of one quote.
fn close(style: Style) -> Action
    ensures { result ≡ close style }
{
    match style {
        Style::ShortString => Action::Give(TokenKind::ShortString, Keep::Nothing),
        Style::ShortClob => go(Mode::Lob(Lob::AfterShort)),
        _ => Action::Give(TokenKind::QuotedSymbol, Keep::Nothing),
    }
}

// The third quote that ends a segment; the first two were kept.
fn close_long(style: Style) -> Action
    ensures { result ≡ close_long style }
{
    match style {
        Style::LongClob => Action::Go(Mode::Lob(Lob::AfterLong), Keep::DropQuotes),
        _ => Action::Give(TokenKind::LongString, Keep::DropQuotes),
    }
}

/// An octet that stands for itself, or begins a character, an escape or the close. In a long text
/// CR, and CR with LF, are LF.
pub fn raw(style: Style, octet: u8) -> Action
    ensures { result ≡ raw style octet }
{
    let long = is_long(style);
    if octet == b'\\' {
        go(Mode::Text(style, Within::Escape))
    } else if octet == quote_of(style) {
        if long {
            add(Mode::Text(style, Within::OneQuote), octet)
        } else {
            close(style)
        }
    } else if long && octet == b'\r' {
        add(Mode::Text(style, Within::AfterReturn), b'\n')
    } else if stands(octet) || (long && octet == b'\n') {
        add(Mode::Text(style, Within::Plain), octet)
    } else if octet < 128 || is_clob(style) {
        unexpected()
    } else {
        lead(style, octet)
    }
}

// The first octet of a character beyond ASCII (RFC 3629, section 4).
fn lead(style: Style, octet: u8) -> Action
    ensures { result ≡ lead style octet }
{
    if octet < 0xc2 || 0xf4 < octet {
        Action::Refuse(Reason::BadUtf8)
    } else if octet < 0xe0 {
        add(Mode::Text(style, Within::Utf8(1, 0x80, 0xbf)), octet)
    } else if octet < 0xf0 {
        let least = if octet == 0xe0 { 0xa0 } else { 0x80 };
        let most = if octet == 0xed { 0x9f } else { 0xbf };
        add(Mode::Text(style, Within::Utf8(2, least, most)), octet)
    } else {
        let least = if octet == 0xf0 { 0x90 } else { 0x80 };
        let most = if octet == 0xf4 { 0x8f } else { 0xbf };
        add(Mode::Text(style, Within::Utf8(3, least, most)), octet)
    }
}

// A further octet of such a character.
fn in_utf8(style: Style, left: u8, least: u8, most: u8, octet: u8) -> Action
    ensures { result ≡ in_utf8 style left least most octet }
{
    if octet < least || most < octet {
        Action::Refuse(Reason::BadUtf8)
    } else if left <= 1 {
        add(Mode::Text(style, Within::Plain), octet)
    } else {
        add(Mode::Text(style, Within::Utf8(left - 1, 0x80, 0xbf)), octet)
    }
}

// Behind a backslash. Clobs have no escapes of characters.
fn in_escape(style: Style, octet: u8) -> Action
    ensures { result ≡ in_escape style octet }
{
    if octet == b'\n' {
        go(Mode::Text(style, Within::Plain))
    } else if octet == b'\r' {
        go(Mode::Text(style, Within::AfterReturn))
    } else if octet == b'x' {
        go(Mode::Text(style, Within::Hexadecimal(Digits::Octet, 2, 0)))
    } else if octet == b'u' && !is_clob(style) {
        go(Mode::Text(style, Within::Hexadecimal(Digits::Unit, 4, 0)))
    } else if octet == b'U' && !is_clob(style) {
        go(Mode::Text(style, Within::Hexadecimal(Digits::Scalar, 8, 0)))
    } else {
        match escaped(octet) {
            Some(meant) => add(Mode::Text(style, Within::Plain), meant),
            None => Action::Refuse(Reason::BadEscape),
        }
    }
}

// One more digit. From 0x110000 on the number only has to stay too great.
fn grow(number: u32, digit: u8) -> u32
    requires { digit < 16 }
    ensures { result ≡ grow number digit }
{
    if number < 0x110000 {
        number * 16 + digit as u32
    } else {
        number
    }
}

/// The first half of a surrogate pair.
pub fn is_high(unit: u32) -> bool
    ensures { result ≡ is_high unit }
{
    0xd800 <= unit && unit <= 0xdbff
}

/// The second half of one.
pub fn is_low(unit: u32) -> bool
    ensures { result ≡ is_low unit }
{
    0xdc00 <= unit && unit <= 0xdfff
}

// The character of a number, where it has one.
fn character(style: Style, number: u32) -> Action
    ensures { result ≡ character style number }
{
    match char::from_u32(number) {
        Some(c) => Action::Go(Mode::Text(style, Within::Plain), Keep::Character(c)),
        None => Action::Refuse(Reason::BadEscape),
    }
}

// Behind the last digit of an escape.
fn after_digits(style: Style, digits: Digits, number: u32) -> Action
    ensures { result ≡ after_digits style digits number }
{
    match digits {
        Digits::Octet => {
            if is_clob(style) {
                add(Mode::Text(style, Within::Plain), (number % 256) as u8)
            } else {
                character(style, number)
            }
        }
        Digits::Unit => {
            if is_high(number) {
                go(Mode::Text(style, Within::HighSurrogate(number)))
            } else {
                character(style, number)
            }
        }
        Digits::Scalar => character(style, number),
        Digits::LowSurrogate(high) => {
            if is_high(high) && is_low(number) {
                character(style, 0x10000 + (high - 0xd800) * 1024 + (number - 0xdc00))
            } else {
                Action::Refuse(Reason::BadEscape)
            }
        }
    }
}

// In the digits of an escape.
fn in_hexadecimal(style: Style, digits: Digits, left: u8, number: u32, octet: u8) -> Action
    ensures { result ≡ in_hexadecimal style digits left number octet }
{
    match hexadecimal_digit(octet) {
        None => Action::Refuse(Reason::BadEscape),
        Some(digit) => {
            let number = grow(number, digit);
            if left <= 1 {
                after_digits(style, digits, number)
            } else {
                go(Mode::Text(style, Within::Hexadecimal(digits, left - 1, number)))
            }
        }
    }
}

/// In a quoted text.
pub fn in_text(style: Style, within: Within, octet: u8) -> Action
    ensures { result ≡ in_text style within octet }
{
    match within {
        Within::Plain => raw(style, octet),
        Within::AfterReturn => {
            if octet == b'\n' {
                go(Mode::Text(style, Within::Plain))
            } else {
                raw(style, octet)
            }
        }
        Within::OneQuote => {
            if octet == b'\'' {
                add(Mode::Text(style, Within::TwoQuotes), octet)
            } else {
                raw(style, octet)
            }
        }
        Within::TwoQuotes => {
            if octet == b'\'' {
                close_long(style)
            } else {
                raw(style, octet)
            }
        }
        Within::Utf8(left, least, most) => in_utf8(style, left, least, most, octet),
        Within::Escape => in_escape(style, octet),
        Within::Hexadecimal(digits, left, number) => {
            in_hexadecimal(style, digits, left, number, octet)
        }
        Within::HighSurrogate(high) => {
            if octet == b'\\' {
                go(Mode::Text(style, Within::HighSurrogateEscape(high)))
            } else {
                Action::Refuse(Reason::BadEscape)
            }
        }
        Within::HighSurrogateEscape(high) => {
            if octet == b'u' {
                go(Mode::Text(style, Within::Hexadecimal(Digits::LowSurrogate(high), 4, 0)))
            } else {
                Action::Refuse(Reason::BadEscape)
            }
        }
    }
}
