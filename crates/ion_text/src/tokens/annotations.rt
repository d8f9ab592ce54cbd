//! Annotations that lie whole in a piece, wherever a value may come.
ghost use Rattle.std.specs.Prelude.{◌≡◌, ◌<◌, Some, IfSome};
ghost use Rattle.ion_text.specs.Names.{FoundNote, NoteThere};

use super::symbols::behind_annotation;
use ion_spelling::is_keyword;
use ion_tokens::{FoundToken, TokenKind, quoted_symbol, word};

/// An annotation at the front of octets, behind which `::` stands.
#[derive(Clone, Copy)]
pub(crate) struct Annotation<'a> {
    pub token: FoundToken,
    pub text: &'a str,
    /// How many octets of a blank stand before the `::`.
    pub between: usize,
}

// The word there, if it is an annotation where `::` follows. One that begins with `$` may be a
// symbol's id, or name local symbol tables.
fn word_annotation(octets: &[u8]) -> Option<(FoundToken, &str)>
    ensures { IfSome result (λ found. (note : FoundNote octets.now found.0)
        × (note.name ≡ Some found.1.now)) }
{
    let count = word(octets)?;
    if count >= octets.len() || octets[0] == b'$' {
        return None;
    }
    let text = unsafe { str::from_utf8_unchecked(&octets[..count]) };
    if is_keyword(text) {
        return None;
    }
    let token = FoundToken {
        kind: TokenKind::Word,
        count,
        left: true,
    };
    Some((token, text))
}

// The quoted symbol there, which begins with no `$`.
fn quoted_annotation(octets: &[u8]) -> Option<(FoundToken, &str)>
    ensures { IfSome result (λ found. (note : FoundNote octets.now found.0)
        × (note.name ≡ Some found.1.now)) }
{
    let count = quoted_symbol(octets)?;
    if count >= octets.len() || count < 2 || octets[1] == b'$' {
        return None;
    }
    let content = &octets[1..][..count - 2];
    let token = FoundToken {
        kind: TokenKind::QuotedSymbol,
        count,
        left: false,
    };
    Some((token, unsafe { str::from_utf8_unchecked(content) }))
}

// The symbol there, if it is an annotation where `::` follows.
fn symbol_annotation(octets: &[u8]) -> Option<(FoundToken, &str)>
    ensures { IfSome result (λ found. (note : FoundNote octets.now found.0)
        × (note.name ≡ Some found.1.now)) }
{
    match octets.first() {
        Some(b'\'') => quoted_annotation(octets),
        _ => word_annotation(octets),
    }
}

/// The annotation there.
pub(crate) fn annotation_at(octets: &[u8]) -> Option<Annotation<'_>>
    ensures { IfSome result (λ note. NoteThere octets.now note) }
{
    let (token, text) = symbol_annotation(octets)?;
    let between = behind_annotation(octets, token.count)?;
    Some(Annotation {
        token,
        text,
        between,
    })
}
