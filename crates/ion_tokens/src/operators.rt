//! Runs of operator characters, and signs before digits and `inf` (Ion 1.0, "Ion Text Encoding",
//! s-expressions).
ghost use Rattle.std.specs.Prelude.{◌≡◌};
ghost use Rattle.ion_tokens.specs.Names.{digit_behind, in_infinity, in_operator, in_operator_slash, is_other, run_ending};

use crate::mode::{Action, Ending, Keep, Mode, Place, TokenKind, add, before, go, unexpected};
use crate::octets::{is_digit, is_operator_octet, is_word_octet};
use crate::table::is_sexp;
use ion_atoms::Reason;

fn is_other(ending: Ending) -> bool
    ensures { result ≡ is_other ending }
{
    matches!(ending, Ending::Other)
}

/// How a run of two or more ends, by its last octet.
pub fn run_ending(octet: u8) -> Ending
    ensures { result ≡ run_ending octet }
{
    match octet {
        b'+' => Ending::Plus,
        b'-' => Ending::Minus,
        _ => Ending::Other,
    }
}

// A digit behind a run.
fn digit_behind(place: Place, ending: Ending, octet: u8) -> Action
    ensures { result ≡ digit_behind place ending octet }
{
    match ending {
        Ending::LoneMinus => add(Mode::Number, octet),
        Ending::Minus => Action::Refuse(Reason::Ambiguous),
        Ending::Plus => {
            if is_sexp(place) {
                before(TokenKind::Operator)
            } else {
                unexpected()
            }
        }
        Ending::Other => before(TokenKind::Operator),
    }
}

/// Behind a run. Outside an s-expression it is a sign alone.
pub fn in_operator(place: Place, ending: Ending, octet: u8) -> Action
    ensures { result ≡ in_operator place ending octet }
{
    if is_digit(octet) {
        digit_behind(place, ending, octet)
    } else if octet == b'i' && !is_other(ending) {
        go(Mode::Infinity(1))
    } else if !is_sexp(place) {
        unexpected()
    } else if octet == b'/' {
        go(Mode::OperatorSlash)
    } else if is_operator_octet(octet) {
        add(Mode::Operator(run_ending(octet)), octet)
    } else {
        before(TokenKind::Operator)
    }
}

/// Behind a run and a `/`, which isn't kept. A comment ends the run before it.
pub fn in_operator_slash(octet: u8) -> Action
    ensures { result ≡ in_operator_slash octet }
{
    if octet == b'/' || octet == b'*' {
        Action::Before(TokenKind::Operator, Keep::Nothing, Mode::Slash)
    } else if is_operator_octet(octet) {
        Action::Go(Mode::Operator(run_ending(octet)), Keep::Two(b'/', octet))
    } else {
        Action::Before(TokenKind::Operator, Keep::One(b'/'), Mode::Blank)
    }
}

/// Behind a sign and `i`, `in` or `inf`. Where no float comes of it, an s-expression has an
/// operator and a word there.
pub fn in_infinity(place: Place, letters: u8, octet: u8) -> Action
    ensures { result ≡ in_infinity place letters octet }
{
    if letters == 1 && octet == b'n' {
        go(Mode::Infinity(2))
    } else if letters == 2 && octet == b'f' {
        go(Mode::Infinity(3))
    } else if letters == 3 && !is_word_octet(octet) {
        Action::Refuse(Reason::Float)
    } else if is_sexp(place) {
        Action::Split(letters)
    } else {
        unexpected()
    }
}
