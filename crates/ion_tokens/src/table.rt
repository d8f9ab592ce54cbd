//! The scanner's table: what an octet does in each mode (Ion 1.0, "Ion Text Encoding" and its
//! grammar).
ghost use Rattle.std.specs.Prelude.{◌≡◌};
ghost use Rattle.ion_tokens.specs.Names.{begins_value, end_of, in_blank, in_block_star, in_brace, in_colon, in_kind_name, in_number, in_number_slash, in_quote, in_quotes, in_slash, in_word, is_name, is_sexp, operator_end};
ghost use Rattle.ion_tokens.specs.machine.Table.{next};

use crate::lobs::in_lob;
use crate::mode::{
    Action, End, Ending, Keep, Lob, Mark, Mode, Place, Style, TokenKind, Within, add, before,
    give_mark, go, unexpected,
};
use crate::octets::{
    begins_word, is_digit, is_line_end, is_operator_octet, is_stop, is_white, is_word_octet,
};
use crate::operators::{in_infinity, in_operator, in_operator_slash, run_ending};
use crate::quoted::{in_text, raw};
use ion_atoms::Reason;

pub fn is_sexp(place: Place) -> bool
    ensures { result ≡ is_sexp place }
{
    matches!(place, Place::Sexp)
}

pub fn is_name(place: Place) -> bool
    ensures { result ≡ is_name place }
{
    matches!(place, Place::Name)
}

// No token is open. `colon` says whether the token before may have a colon behind it.
fn in_blank(place: Place, colon: bool, octet: u8) -> Action
    ensures { result ≡ in_blank place colon octet }
{
    if is_white(octet) {
        return go(Mode::Blank);
    }
    if begins_word(octet) {
        return add(Mode::Word, octet);
    }
    match octet {
        b'/' => go(Mode::Slash),
        b'"' => go(Mode::Text(Style::ShortString, Within::Plain)),
        b'\'' => go(Mode::Quote),
        b',' => give_mark(Mark::Comma),
        b'}' => give_mark(Mark::FieldsClose),
        b':' => { if colon { go(Mode::Colon) } else { unexpected() } }
        _ => {
            if is_name(place) {
                unexpected()
            } else {
                begins_value(place, octet)
            }
        }
    }
}

// What begins a value and no field name.
fn begins_value(place: Place, octet: u8) -> Action
    ensures { result ≡ begins_value place octet }
{
    if is_digit(octet) {
        return add(Mode::Number, octet);
    }
    match octet {
        b'{' => go(Mode::Brace),
        b'[' => give_mark(Mark::ListOpen),
        b']' => give_mark(Mark::ListClose),
        b'(' => give_mark(Mark::SexpOpen),
        b')' => give_mark(Mark::SexpClose),
        b'-' => add(Mode::Operator(Ending::LoneMinus), octet),
        b'+' => add(Mode::Operator(Ending::Plus), octet),
        _ => {
            if is_sexp(place) && is_operator_octet(octet) {
                add(Mode::Operator(Ending::Other), octet)
            } else {
                unexpected()
            }
        }
    }
}

// Behind a `/` that is part of no token yet.
fn in_slash(place: Place, octet: u8) -> Action
    ensures { result ≡ in_slash place octet }
{
    match octet {
        b'/' => go(Mode::LineComment),
        b'*' => go(Mode::BlockComment),
        _ => {
            if !is_sexp(place) {
                unexpected()
            } else if is_operator_octet(octet) {
                Action::Go(Mode::Operator(run_ending(octet)), Keep::Two(b'/', octet))
            } else {
                Action::Before(TokenKind::Operator, Keep::One(b'/'), Mode::Blank)
            }
        }
    }
}

// Behind a `*` in a block comment.
fn in_block_star(octet: u8) -> Action
    ensures { result ≡ in_block_star octet }
{
    match octet {
        b'/' => go(Mode::Blank),
        b'*' => go(Mode::BlockCommentStar),
        _ => go(Mode::BlockComment),
    }
}

fn in_colon(octet: u8) -> Action
    ensures { result ≡ in_colon octet }
{
    if octet == b':' {
        give_mark(Mark::Colons)
    } else {
        before(TokenKind::Mark(Mark::Colon))
    }
}

fn in_word(octet: u8) -> Action
    ensures { result ≡ in_word octet }
{
    if is_word_octet(octet) {
        add(Mode::Word, octet)
    } else {
        Action::EndWord
    }
}

fn in_kind_name(octet: u8) -> Action
    ensures { result ≡ in_kind_name octet }
{
    if is_word_octet(octet) {
        add(Mode::KindName, octet)
    } else {
        before(TokenKind::KindName)
    }
}

fn in_number(octet: u8) -> Action
    ensures { result ≡ in_number octet }
{
    if is_stop(octet) {
        before(TokenKind::Number)
    } else if octet == b'/' {
        go(Mode::NumberSlash)
    } else {
        add(Mode::Number, octet)
    }
}

// A comment ends the number before its `/`, which was taken up.
fn in_number_slash(octet: u8) -> Action
    ensures { result ≡ in_number_slash octet }
{
    if octet == b'/' || octet == b'*' {
        Action::Before(TokenKind::Number, Keep::Nothing, Mode::Slash)
    } else if is_stop(octet) {
        Action::Before(TokenKind::Number, Keep::One(b'/'), Mode::Blank)
    } else {
        Action::Go(Mode::Number, Keep::Two(b'/', octet))
    }
}

fn in_quote(octet: u8) -> Action
    ensures { result ≡ in_quote octet }
{
    if octet == b'\'' {
        go(Mode::Quotes)
    } else {
        raw(Style::QuotedSymbol, octet)
    }
}

// Behind `''`: the symbol of empty text, unless a third quote opens a long string.
fn in_quotes(octet: u8) -> Action
    ensures { result ≡ in_quotes octet }
{
    if octet == b'\'' {
        go(Mode::Text(Style::LongString, Within::Plain))
    } else {
        before(TokenKind::QuotedSymbol)
    }
}

fn in_brace(octet: u8) -> Action
    ensures { result ≡ in_brace octet }
{
    if octet == b'{' {
        go(Mode::Lob(Lob::Start))
    } else {
        before(TokenKind::Mark(Mark::FieldsOpen))
    }
}

/// What an octet does in a place and a mode. `colon` says whether a colon may stand behind the
/// token before.
pub fn next(place: Place, colon: bool, mode: Mode, octet: u8) -> Action
    ensures { result ≡ next place colon mode octet }
{
    match mode {
        Mode::Blank => in_blank(place, colon, octet),
        Mode::Slash => in_slash(place, octet),
        Mode::LineComment => go(if is_line_end(octet) {
            Mode::Blank
        } else {
            Mode::LineComment
        }),
        Mode::BlockComment => go(if octet == b'*' {
            Mode::BlockCommentStar
        } else {
            Mode::BlockComment
        }),
        Mode::BlockCommentStar => in_block_star(octet),
        Mode::Colon => in_colon(octet),
        Mode::Word => in_word(octet),
        Mode::KindName => in_kind_name(octet),
        Mode::Number => in_number(octet),
        Mode::NumberSlash => in_number_slash(octet),
        Mode::Operator(ending) => in_operator(place, ending, octet),
        Mode::OperatorSlash => in_operator_slash(octet),
        Mode::Infinity(letters) => in_infinity(place, letters, octet),
        Mode::Quote => in_quote(octet),
        Mode::Quotes => in_quotes(octet),
        Mode::Text(style, within) => in_text(style, within, octet),
        Mode::Brace => in_brace(octet),
        Mode::Lob(lob) => in_lob(lob, octet),
    }
}

// An operator that ends with the input. Outside s-expressions there are none.
fn operator_end(place: Place, keep: Keep) -> End
    ensures { result ≡ operator_end place keep }
{
    if is_sexp(place) {
        End::Token(TokenKind::Operator, keep)
    } else {
        End::Refuse(Reason::Incomplete)
    }
}

/// What the end of the input does in a place and a mode.
pub fn end_of(place: Place, mode: Mode) -> End
    ensures { result ≡ end_of place mode }
{
    match mode {
        Mode::Blank | Mode::LineComment => End::Blank,
        Mode::Slash | Mode::OperatorSlash => operator_end(place, Keep::One(b'/')),
        Mode::Operator(_) => operator_end(place, Keep::Nothing),
        Mode::Colon => End::Token(TokenKind::Mark(Mark::Colon), Keep::Nothing),
        Mode::Word => End::Token(TokenKind::Word, Keep::Nothing),
        Mode::KindName => End::Token(TokenKind::KindName, Keep::Nothing),
        Mode::Number => End::Token(TokenKind::Number, Keep::Nothing),
        Mode::NumberSlash => End::Token(TokenKind::Number, Keep::One(b'/')),
        Mode::Quotes => End::Token(TokenKind::QuotedSymbol, Keep::Nothing),
        Mode::Brace => End::Token(TokenKind::Mark(Mark::FieldsOpen), Keep::Nothing),
        Mode::Infinity(letters) => End::Refuse(if letters == 3 {
            Reason::Float
        } else {
            Reason::Incomplete
        }),
        Mode::BlockComment
        | Mode::BlockCommentStar
        | Mode::Quote
        | Mode::Text(_, _)
        | Mode::Lob(_) => End::Refuse(Reason::Incomplete),
    }
}
