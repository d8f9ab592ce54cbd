//! What opens and closes lists, s-expressions and structs, and what stands between their items.
ghost use Rattle.std.specs.Prelude.{◌≡◌};
ghost use Rattle.ion_text_writer.specs.Names.{bracket_close, octet_between, open_octet};

use ion_visiting::Bracket;

/// What opens a list, an s-expression or a struct.
pub(crate) fn open_octet(bracket: Bracket) -> u8
    ensures { result ≡ open_octet bracket }
{
    match bracket {
        Bracket::List => b'[',
        Bracket::Sexp => b'(',
        Bracket::Fields => b'{',
    }
}

/// What closes it.
pub(crate) fn bracket_close(bracket: Bracket) -> u8
    ensures { result ≡ bracket_close bracket }
{
    match bracket {
        Bracket::List => b']',
        Bracket::Sexp => b')',
        Bracket::Fields => b'}',
    }
}

/// What stands between its items.
pub(crate) fn octet_between(bracket: Bracket) -> u8
    ensures { result ≡ octet_between bracket }
{
    match bracket {
        Bracket::Sexp => b' ',
        _ => b',',
    }
}
