//! Escapes that lie whole in memory: what one means is kept at once.
ghost use Rattle.std.specs.Prelude.{◌≡◌, ◌<◌, ◌≤◌, ◌∷◌, ◌++◌, ℕ, List, [], if◌then◌else◌, IsTrue, length, slice_index, take, encode_utf8, Some, IfSome};
ghost use Rattle.std.specs.Char.{IsScalar};
ghost use Rattle.ion_tokens.specs.Names.{IsHexAfter, LeadsOn, hex_length, is_clob};

use crate::mode::Style;
use crate::octets::{escaped, hexadecimal_digit};
use crate::quoted::{is_clob, is_high, is_low};

// How many digits stand behind this letter of an escape. Clobs have no escapes of characters.
fn digits_behind(style: Style, letter: u8) -> Option<usize>
    ensures length { IfSome result (λ count. hex_length letter ≡ Some count) }
    ensures clob { IfSome result (λ count. IsTrue (is_clob style) → letter ≡ 120) }
    ensures most { IfSome result (λ count. count ≤ 8) }
{
    match letter {
        b'x' => Some(2),
        b'u' if !is_clob(style) => Some(4),
        b'U' if !is_clob(style) => Some(8),
        _ => None,
    }
}

// The number of hexadecimal digits; `None` where one is none, and where a number before the last
// digit is that of no character.
#[inline(always)]
fn number_of(digits: &[u8]) -> Option<u32>
    ensures { IfSome result (λ number. IsHexAfter 0 digits.now number) }
{
    let mut number: u32 = 0;
    let mut at = 0;
    while at < digits.len() {
        let digit = hexadecimal_digit(digits[at])?;
        if number > 0x10ffff {
            return None;
        }
        number = number * 16 + u32::from(digit);
        at += 1;
    }
    Some(number)
}

// Keeps the character of this number, of which a clob keeps the octet.
fn keep_number(style: Style, number: u32, kept: &mut Vec<u8>) -> Option<()>
    ensures scalar { IfSome result (λ _. IsScalar number) }
    ensures kept { IfSome result (λ _. kept.new.items
        ≡ kept.old.items ++ (if is_clob style then number ∷ [] else encode_utf8 number)) }
{
    if number < 128 || is_clob(style) {
        kept.push(u8::try_from(number).ok()?).ok()?;
        return Some(());
    }
    let character = char::from_u32(number)?;
    let mut octets = [0; 4];
    kept.extend_from_slice(character.encode_utf8(&mut octets).as_bytes())
        .ok()
}

// The number of the escape of four digits at the front.
fn unit_of(octets: &[u8]) -> Option<u32>
    ensures { IfSome result (λ number. (digits : List ℕ) × (take 6 octets.now ≡ 92 ∷ 117 ∷ digits)
        × (length digits ≡ 4) × IsHexAfter 0 digits number) }
{
    let digits = octets.strip_prefix(b"\\u")?;
    if digits.len() < 4 {
        return None;
    }
    number_of(&digits[..4])
}

// Keeps the character of the surrogate pair at the front, which is two escapes of four digits, and
// counts their octets.
#[inline(never)]
fn escape_by_pair(style: Style, octets: &[u8], kept: &mut Vec<u8>) -> Option<usize>
    ensures some { IfSome result (λ count. 0 < count) }
    ensures within { IfSome result (λ count. count ≤ length octets.now) }
    ensures leads { IfSome result (λ count.
        LeadsOn style (take count octets.now) kept.old.items kept.new.items) }
{
    if octets.len() < 12 || is_clob(style) {
        return None;
    }
    let high = unit_of(octets)?;
    let low = unit_of(&octets[6..])?;
    if !is_high(high) || !is_low(low) {
        return None;
    }
    let number = 0x10000 + (high - 0xd800) * 1024 + (low - 0xdc00);
    keep_number(style, number, kept)?;
    Some(12)
}

// Keeps what the escape by digits at the front means, and counts its octets.
#[inline(never)]
fn escape_by_digits(style: Style, octets: &[u8], kept: &mut Vec<u8>) -> Option<usize>
    requires backslash { slice_index octets.now 0 ≡ 92 }
    requires letter { 1 < length octets.now }
    ensures some { IfSome result (λ count. 0 < count) }
    ensures within { IfSome result (λ count. count ≤ length octets.now) }
    ensures leads { IfSome result (λ count.
        LeadsOn style (take count octets.now) kept.old.items kept.new.items) }
{
    let count = digits_behind(style, octets[1])? + 2;
    if octets.len() < count {
        return None;
    }
    let number = number_of(&octets[2..count])?;
    if is_high(number) {
        return escape_by_pair(style, octets, kept);
    }
    keep_number(style, number, kept)?;
    Some(count)
}

/// Keeps what the escape at the front means, or the two of a surrogate pair, and counts the octets.
/// `None` where it is cut or hides a line end, where no such text has it, and where memory runs
/// out.
#[inline(always)]
pub fn escape(style: Style, octets: &[u8], kept: &mut Vec<u8>) -> Option<usize>
    requires { slice_index octets.now 0 ≡ 92 }
    ensures some { IfSome result (λ count. 0 < count) }
    ensures within { IfSome result (λ count. count ≤ length octets.now) }
    ensures leads { IfSome result (λ count.
        LeadsOn style (take count octets.now) kept.old.items kept.new.items) }
{
    if octets.len() < 2 {
        return None;
    }
    if let Some(meant) = escaped(octets[1]) {
        kept.push(meant).ok()?;
        return Some(2);
    }
    escape_by_digits(style, octets, kept)
}
