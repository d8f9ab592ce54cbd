//! What unquoted words are (Ion 1.0, "Symbols" and "Ion Text Encoding").
ghost use Rattle.std.specs.Prelude.{◌≡◌, false, MatchResult};
ghost use Rattle.std.specs.List.{list_all};
ghost use Rattle.ion_text.specs.Names.{held_word, is_digit, is_keyword, is_version, some_digits, version_parts};
ghost use Rattle.ion_atoms.specs.declared.refusal.Reason.TheVariants as reasons;

use crate::state::Held;
use ion_model::{Kind, Reason};
use ion_spelling::may_be_keyword;
use ion_visiting::RecentSymbols;

/// Whether an octet is a digit.
pub(crate) fn is_digit(octet: u8) -> bool
    ensures { result ≡ is_digit octet }
{
    b'0' <= octet && octet <= b'9'
}

fn are_digits(octets: &[u8]) -> bool
    ensures { result ≡ list_all is_digit octets.now }
{
    octets.iter().all(|octet| is_digit(*octet))
}

/// Whether these are digits, at least one.
fn some_digits(octets: &[u8]) -> bool
    ensures { result ≡ some_digits octets.now }
{
    !octets.is_empty() && are_digits(octets)
}

/// Whether these are digits, `_` and digits.
fn version_parts(octets: &[u8]) -> bool
    ensures { result ≡ version_parts octets.now }
{
    let mut rest = octets;
    let mut some = false;
    while let Some((octet, behind)) = rest.split_first() {
        if !is_digit(*octet) {
            return some && *octet == b'_' && some_digits(behind);
        }
        some = true;
        rest = behind;
    }
    false
}

/// Whether a word has the form of a version marker: `$ion_`, digits, `_` and digits.
pub(crate) fn is_version(word: &[u8]) -> bool
    ensures { result ≡ is_version word.now }
{
    match word.strip_prefix(b"$ion_") {
        None => false,
        Some(parts) => version_parts(parts),
    }
}

// What a word is that is a symbol unquoted. The only refusal is `Memory`.
fn held_symbol(recent: &mut RecentSymbols, word: &str) -> Result<Held, Reason>
    requires { is_keyword word.now ≡ false }
    ensures { MatchResult result (λ held. held ≡ held_word word.now) (λ r. r ≡ reasons.Memory) }
{
    let symbol = recent.symbol(word)?;
    if is_version(word.as_bytes()) {
        return Ok(Held::Version(word == "$ion_1_0", symbol));
    }
    Ok(Held::Symbol(symbol))
}

/// What a word is as a value, or as an annotation. The only refusal is `Memory`.
pub(crate) fn held_word(recent: &mut RecentSymbols, word: &str) -> Result<Held, Reason>
    ensures { MatchResult result (λ held. held ≡ held_word word.now) (λ r. r ≡ reasons.Memory) }
{
    if !may_be_keyword(word) {
        return held_symbol(recent, word);
    }
    match word {
        "null" => Ok(Held::Null(Kind::Null)),
        "true" => Ok(Held::Truth(true)),
        "false" => Ok(Held::Truth(false)),
        "nan" => Ok(Held::Nan),
        _ => held_symbol(recent, word),
    }
}
