//! Which token has begun, and what the next octet would show of it.
ghost use Rattle.std.specs.Prelude.{◌≡◌, ℕ};
ghost use Rattle.ion_tokens.specs.Names.{Known, Place, acts, begun_in, behind, foresight, form_of, is_idle};
ghost use Rattle.ion_tokens.specs.machine.Machines.{known};

use crate::machine::Machine;
use crate::mode::{Action, Mark, Mode, Style, TokenKind};
use crate::token::{Begun, Foresight, Form};

impl Machine {
    /// The token that has begun.
    pub fn begun(&self) -> Option<Begun>
        ensures { result ≡ begun_in (known self.now) }
    {
        if is_idle(self.mode) {
            return None;
        }
        Some(Begun {
            start: self.start,
            end: self.used.saturating_sub(behind(self.mode)),
            form: form_of(self.mode),
        })
    }
}

/// No token has begun that surely is one.
pub fn is_idle(mode: Mode) -> bool
    ensures { result ≡ is_idle mode }
{
    matches!(
        mode,
        Mode::Blank
            | Mode::Slash
            | Mode::LineComment
            | Mode::BlockComment
            | Mode::BlockCommentStar
            | Mode::Colon
    )
}

// A `/` behind the open token, which may open a comment.
fn behind(mode: Mode) -> u64
    ensures { result ≡ behind mode }
{
    if matches!(mode, Mode::NumberSlash | Mode::OperatorSlash) {
        1
    } else {
        0
    }
}

// What is known of the open token.
fn form_of(mode: Mode) -> Form
    ensures { result ≡ form_of mode }
{
    match mode {
        Mode::Quote | Mode::Quotes => Form::Quote,
        Mode::Text(Style::LongString, _) => Form::Long,
        _ => Form::Other,
    }
}

/// What an octet shows of a token that may go on, by what the table says of it.
pub fn shown(action: Action) -> Foresight
    ensures { (place : Place) (s : Known) (octet : ℕ) →
        result ≡ foresight (acts place s octet action) }
{
    match action {
        Action::Go(mode, _) if is_idle(mode) => Foresight::Blank,
        Action::Go(mode, _) => match form_of(mode) {
            Form::Other => Foresight::Other,
            Form::Quote | Form::Long => Foresight::Long,
        },
        Action::Give(TokenKind::Mark(Mark::Colons), _) => Foresight::Colons,
        Action::Give(TokenKind::LongString, _) => Foresight::Long,
        Action::Before(TokenKind::QuotedSymbol, _, _) => Foresight::Empty,
        _ => Foresight::Other,
    }
}
