//! The marks that open and close containers.
ghost use Rattle.std.specs.Prelude.{◌≡◌, ◌<◌, length, IfSome};
ghost use Rattle.ion_text.specs.Names.{OpensAt, close_mark, open_mark};

use ion_tokens::Mark;
use ion_visiting::Bracket;

// What the front of octets opens. Behind `{` an octet shows that it begins no lob.
pub(crate) fn bracket_at(octets: &[u8]) -> Option<Bracket>
    requires more { 1 < length octets.now }
    ensures { IfSome result (λ bracket. OpensAt octets.now bracket) }
{
    match octets[0] {
        b'[' => Some(Bracket::List),
        b'(' => Some(Bracket::Sexp),
        b'{' if octets[1] != b'{' => Some(Bracket::Fields),
        _ => None,
    }
}

// The mark that opens such a container.
#[inline]
pub(crate) fn open_mark(bracket: Bracket) -> Mark
    ensures { result ≡ open_mark bracket }
{
    match bracket {
        Bracket::List => Mark::ListOpen,
        Bracket::Sexp => Mark::SexpOpen,
        Bracket::Fields => Mark::FieldsOpen,
    }
}

// The mark that closes it.
#[inline]
pub(crate) fn close_mark(bracket: Bracket) -> Mark
    ensures { result ≡ close_mark bracket }
{
    match bracket {
        Bracket::List => Mark::ListClose,
        Bracket::Sexp => Mark::SexpClose,
        Bracket::Fields => Mark::FieldsClose,
    }
}
