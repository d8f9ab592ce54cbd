//! Which of sixteen octets end a run, as the bits of a number, the first octet's lowest.
ghost use Rattle.std.specs.Prelude.{◌≡◌, map, not, if◌then◌else◌};
ghost use Rattle.std.specs.Simd.Lanes.{mask_l};
ghost use Rattle.ion_tokens.specs.Usual.{is_usual};
ghost use Rattle.ion_tokens.specs.Names.{goes_on, is_base64, is_between, is_digit, is_numeric, is_raw, is_word_octet};
ghost use Rattle.ion_tokens.specs.declared.mode.Mode.TheVariants as modes;

use std::simd::prelude::*;

// LF, where it ends the run, and else an octet that does anyway.
#[inline(always)]
fn line_end(long: bool) -> u8
    ensures { result ≡ if long then 92 else 10 }
{
    if long { b'\\' } else { b'\n' }
}

/// The octets that a text in these quotes, long or not, doesn't keep as they are.
#[inline(always)]
pub fn text_ends(long: bool, quote: u8, octets: u8x16) -> u64
    ensures { result ≡ mask_l (map (λ o. not (is_between long quote o)) octets) }
{
    let line_end = line_end(long);
    (octets.simd_lt(u8x16::splat(b'\t'))
        | octets.simd_eq(u8x16::splat(line_end))
        | (octets - u8x16::splat(b'\r')).simd_lt(u8x16::splat(b' ' - b'\r'))
        | octets.simd_ge(u8x16::splat(0x80))
        | octets.simd_eq(u8x16::splat(b'\\'))
        | octets.simd_eq(u8x16::splat(quote))).to_bitmask()
}

/// The octets that are no usual characters of a text in these quotes.
#[inline(always)]
pub fn usual_ends(quote: u8, octets: u8x16) -> u64
    ensures { result ≡ mask_l (map (λ o. not (is_usual quote o)) octets) }
{
    ((octets - u8x16::splat(b' ')).simd_ge(u8x16::splat(0x60))
        | octets.simd_eq(u8x16::splat(b'\\'))
        | octets.simd_eq(u8x16::splat(quote))).to_bitmask()
}

/// The octets that are part of no character that such a text keeps as it is.
#[inline(always)]
pub fn raw_ends(long: bool, quote: u8, octets: u8x16) -> u64
    ensures { result ≡ mask_l (map (λ o. not (is_raw long quote o)) octets) }
{
    let line_end = line_end(long);
    (octets.simd_lt(u8x16::splat(b'\t'))
        | octets.simd_eq(u8x16::splat(line_end))
        | (octets - u8x16::splat(b'\r')).simd_lt(u8x16::splat(b' ' - b'\r'))
        | octets.simd_eq(u8x16::splat(b'\\'))
        | octets.simd_eq(u8x16::splat(quote))).to_bitmask()
}

/// The octets with which no word goes on.
#[inline(always)]
pub fn word_ends(octets: u8x16) -> u64
    ensures { result ≡ mask_l (map (λ o. not (is_word_octet o)) octets) }
{
    let lower = (octets | u8x16::splat(0x20)) - u8x16::splat(b'a');
    let digit = octets - u8x16::splat(b'0');
    (lower.simd_ge(u8x16::splat(26))
        & digit.simd_ge(u8x16::splat(10))
        & octets.simd_ne(u8x16::splat(b'_'))
        & octets.simd_ne(u8x16::splat(b'$'))).to_bitmask()
}

/// The octets that are no digits.
#[inline(always)]
pub fn digit_ends(octets: u8x16) -> u64
    ensures { result ≡ mask_l (map (λ o. not (is_digit o)) octets) }
{
    let above_zero = octets - u8x16::splat(b'0');
    above_zero.simd_ge(u8x16::splat(10)).to_bitmask()
}

/// The octets with which no number goes on.
#[inline(always)]
pub fn number_ends(octets: u8x16) -> u64
    ensures { result ≡ mask_l (map (λ o. not (is_numeric o)) octets) }
{
    // `[` and `{`, and `]` and `}`, are this bit apart
    let brace = octets | u8x16::splat(0x20);
    (brace.simd_eq(u8x16::splat(b'{'))
        | brace.simd_eq(u8x16::splat(b'}'))
        | (octets - u8x16::splat(b'\'')).simd_lt(u8x16::splat(3))
        | (octets - u8x16::splat(b'\t')).simd_lt(u8x16::splat(5))
        | octets.simd_eq(u8x16::splat(b','))
        | octets.simd_eq(u8x16::splat(b'/'))
        | octets.simd_eq(u8x16::splat(b'"'))
        | octets.simd_eq(u8x16::splat(b' '))).to_bitmask()
}

/// The octets that are no base64.
#[inline(always)]
pub fn base64_ends(octets: u8x16) -> u64
    ensures { result ≡ mask_l (map (λ o. not (is_base64 o)) octets) }
{
    let letter = (octets | u8x16::splat(0x20)) - u8x16::splat(b'a');
    // `/` stands before `0`
    let digit = octets - u8x16::splat(b'/');
    (letter.simd_ge(u8x16::splat(26))
        & digit.simd_ge(u8x16::splat(11))
        & octets.simd_ne(u8x16::splat(b'+'))
        & octets.simd_ne(u8x16::splat(b'='))).to_bitmask()
}

/// The stars, with which no block comment goes on as it is.
#[inline(always)]
pub fn stars(octets: u8x16) -> u64
    ensures { result ≡ mask_l (map (λ o. not (goes_on modes.BlockComment o)) octets) }
{
    octets.simd_eq(u8x16::splat(b'*')).to_bitmask()
}
