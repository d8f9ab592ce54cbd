//! Tokens that lie whole in a piece and are values of which a visitor heeds nothing: that they are such
//! is enough, and no value is built.
ghost use Rattle.std.specs.Prelude.{◌≡◌, ◌<◌, Ok, false, true, length, take, IfSome};
ghost use Rattle.ion_text.specs.Names.{FoundNumber, IsFound, Number, Place, ReadsNumber, Rest, is_name};
ghost use Rattle.ion_tokens.specs.declared.mode.TokenKind.TheVariants as kinds;

use ion_scalar::number_of;
use ion_tokens::{FoundToken, TokenKind, number, plain_numeral};

// How many octets the number there has, which is read for it.
#[inline(never)]
fn numeral_by_value(octets: &[u8]) -> Option<usize>
    ensures found { IfSome result (λ count. (here : Place) (rest : Rest) → is_name here ≡ false →
        IsFound here rest octets.now TokenKind.Number (take count octets.now) count true) }
    ensures reads { IfSome result (λ count. (number : Number)
        × ReadsNumber (take count octets.now) (Ok number)) }
    ensures within { IfSome result (λ count. count < length octets.now) }
{
    let count = number(octets)?;
    if count >= octets.len() {
        return None;
    }
    match number_of(&octets[..count]) {
        Ok(_) => Some(count),
        Err(_) => None,
    }
}

// The same, without its value where it has few digits.
#[inline(always)]
fn numeral(octets: &[u8]) -> Option<usize>
    ensures found { IfSome result (λ count. (here : Place) (rest : Rest) → is_name here ≡ false →
        IsFound here rest octets.now TokenKind.Number (take count octets.now) count true) }
    ensures reads { IfSome result (λ count. (number : Number)
        × ReadsNumber (take count octets.now) (Ok number)) }
    ensures within { IfSome result (λ count. count < length octets.now) }
{
    match plain_numeral(octets) {
        None => numeral_by_value(octets),
        Some(numeral) => Some(numeral.count),
    }
}

/// The number there, whose end the octet behind it shows.
#[inline(always)]
pub(super) fn untold_number(octets: &[u8]) -> Option<FoundToken>
    ensures found { IfSome result (λ token. (number : Number) × ((here : Place) (rest : Rest) →
        is_name here ≡ false → FoundNumber here rest octets.now token number)) }
    ensures left { IfSome result (λ token. token.left ≡ true) }
    ensures kind { IfSome result (λ token. token.kind ≡ kinds.Number) }
    ensures within { IfSome result (λ token. token.count < length octets.now) }
{
    match numeral(octets) {
        None => None,
        Some(count) => Some(FoundToken {
            kind: TokenKind::Number,
            count,
            left: true,
        }),
    }
}
