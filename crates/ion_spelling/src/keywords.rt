//! Words that are no symbols without quotes (Ion 1.0, "Symbols").
ghost use Rattle.std.specs.Prelude.{◌≡◌, false};
ghost use Rattle.ion_spelling.specs.Names.{is_keyword};

/// Whether a word begins as those do that are no symbols unquoted, and has no more octets.
#[inline(always)]
pub fn may_be_keyword(word: &str) -> bool
    ensures { result ≡ false → is_keyword word.now ≡ false }
{
    let octets = word.as_bytes();
    if octets.len() > 5 {
        return false;
    }
    match octets.first() {
        Some(octet) => *octet == b'n' || *octet == b't' || *octet == b'f',
        None => false,
    }
}

/// Whether a word is no symbol unquoted; `nan` is a float.
#[inline(always)]
pub fn is_keyword(word: &str) -> bool
    ensures { result ≡ is_keyword word.now }
{
    may_be_keyword(word) && matches!(word, "null" | "true" | "false" | "nan")
}
