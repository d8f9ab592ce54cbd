//! What is seen of an octet before it is taken up.
ghost use Rattle.std.specs.Prelude.{◌≡◌};
ghost use Rattle.ion_text.specs.Names.{goes_on_long, goes_on_symbol};

use ion_tokens::Foresight;

/// Whether what is seen of an octet may go on a symbol.
pub(crate) fn goes_on_symbol(foresight: Foresight) -> bool
    ensures { result ≡ goes_on_symbol foresight }
{
    matches!(foresight, Foresight::Blank | Foresight::Colons)
}

/// Whether it may go on a long string, for whose segment `''` counts or not.
pub(crate) fn goes_on_long(quotes: bool, foresight: Foresight) -> bool
    ensures { result ≡ goes_on_long quotes foresight }
{
    match foresight {
        Foresight::Blank | Foresight::Long => true,
        Foresight::Empty => quotes,
        _ => false,
    }
}
