//! What an entry is, by its number.
ghost use Rattle.std.specs.Prelude.{◌≡◌};
ghost use Rattle.ion_events.specs.Names.{bracket_code, code_of};

use ion_model::Kind;
use ion_visiting::Bracket;

/// An int beyond 64 bits.
pub const GREAT_INT: u8 = 3;

/// An annotation of what follows.
pub const ANNOTATION: u8 = 14;

/// The name of the field that follows.
pub const NAME: u8 = 15;

/// What opened last closes.
pub const CLOSE: u8 = 16;

/// What goes on with the entry before it.
pub const MORE: u8 = 17;

/// The type code of a kind in Ion's binary encoding: what an entry of such a value is.
#[inline(always)]
pub fn code_of(kind: Kind) -> u8
    ensures { result ≡ code_of kind }
{
    match kind {
        Kind::Null => 0,
        Kind::Bool => 1,
        Kind::Int => 2,
        Kind::Float => 4,
        Kind::Decimal => 5,
        Kind::Timestamp => 6,
        Kind::Symbol => 7,
        Kind::Str => 8,
        Kind::Clob => 9,
        Kind::Blob => 10,
        Kind::List => 11,
        Kind::Sexp => 12,
        Kind::Fields => 13,
    }
}

/// That of what brackets hold together.
#[inline(always)]
pub fn code_of_bracket(bracket: Bracket) -> u8
    ensures { result ≡ bracket_code bracket }
{
    match bracket {
        Bracket::List => code_of(Kind::List),
        Bracket::Sexp => code_of(Kind::Sexp),
        Bracket::Fields => code_of(Kind::Fields),
    }
}
