//! Texts and octets of clobs between quotes (Ion 1.0, "Ion Text Encoding", strings, symbols and
//! clobs). Each function appends to `out`, and its only fault is `Memory`, on which some of the
//! octets may stand there.
ghost use Rattle.std.specs.Prelude.{◌≡◌, ◌<◌, ◌++◌, OnOk, IsOkUnless, length, map, not, if◌then◌else◌};
ghost use Rattle.std.specs.List.{take_while};
ghost use Rattle.std.specs.Simd.Lanes.{mask_l};
ghost use Rattle.ion_text_writer.specs.Names.{escape, escaped_text, hexadecimal_of, is_raw, letter_for, quoted, stands_raw};
ghost use Rattle.ion_symtab.specs.declared.fault.Fault.TheVariants as faults;

use ion_spelling::Quotes;
use ion_symtab::Fault;
use std::simd::prelude::*;

/// Those of strings.
pub const OF_STRING: Quotes = Quotes {
    delimiter: b'"',
    ascii: false,
};

/// Those of symbols.
pub const OF_SYMBOL: Quotes = Quotes {
    delimiter: b'\'',
    ascii: false,
};

/// Those of clobs.
pub const OF_CLOB: Quotes = Quotes {
    delimiter: b'"',
    ascii: true,
};

/// The digit `0` to `9` or `a` to `f`.
pub fn hexadecimal_of(digit: u8) -> u8
    requires { digit < 16 }
    ensures { result ≡ hexadecimal_of digit }
{
    if digit < 10 {
        b'0' + digit
    } else {
        b'a' + (digit - 10)
    }
}

/// The letter behind a backslash that stands for an octet, if there is one.
pub fn letter_for(delimiter: u8, octet: u8) -> Option<u8>
    ensures { result ≡ letter_for delimiter octet }
{
    if octet == b'\\' || octet == delimiter {
        Some(octet)
    } else if octet == b'\n' {
        Some(b'n')
    } else if octet == b'\r' {
        Some(b'r')
    } else if octet == b'\t' {
        Some(b't')
    } else {
        None
    }
}

/// Whether an octet without such a letter stands for itself.
fn stands_raw(ascii: bool, octet: u8) -> bool
    ensures { result ≡ stands_raw ascii octet }
{
    octet >= 32 && (octet != 0x7F && !(ascii && octet >= 0x80))
}

/// Whether an octet stands for itself.
pub fn is_raw(quotes: Quotes, octet: u8) -> bool
    ensures { result ≡ is_raw quotes octet }
{
    octet != b'\\' && (octet != quotes.delimiter && stands_raw(quotes.ascii, octet))
}

// The greatest octet that may stand for itself.
#[inline(always)]
fn greatest_raw(ascii: bool) -> u8
    ensures { result ≡ if ascii then 127 else 255 }
{
    if ascii { 127 } else { 255 }
}

/// Which of sixteen octets don't stand for themselves, as the bits of a number, the first octet's
/// lowest.
#[inline(always)]
fn escaped_lanes(quotes: Quotes, octets: u8x16) -> u64
    ensures { result ≡ mask_l (map (λ o. not (is_raw quotes o)) octets) }
{
    let greatest = greatest_raw(quotes.ascii);
    (octets.simd_lt(u8x16::splat(b' '))
        | octets.simd_gt(u8x16::splat(greatest))
        | octets.simd_eq(u8x16::splat(0x7F))
        | octets.simd_eq(u8x16::splat(b'\\'))
        | octets.simd_eq(u8x16::splat(quotes.delimiter))).to_bitmask()
}

// How many octets at the front stand for themselves, one by one.
fn each_raw(quotes: Quotes, octets: &[u8]) -> usize
    ensures { result ≡ length (take_while (is_raw quotes) octets.now) }
{
    octets
        .iter()
        .copied()
        .take_while(|octet| is_raw(quotes, *octet))
        .count()
}

/// The same, sixteen at a time.
fn raw_front(quotes: Quotes, octets: &[u8]) -> usize
    ensures { result ≡ length (take_while (is_raw quotes) octets.now) }
{
    if octets.len() < 16 {
        return each_raw(quotes, octets);
    }
    let mut at = 0;
    while octets.len() - at >= 16 {
        let escaped = escaped_lanes(quotes, u8x16::from_slice(&octets[at..]));
        if escaped != 0 {
            return at + escaped.trailing_zeros() as usize;
        }
        at += 16;
    }
    // the last sixteen, of which some were seen
    let last = octets.len() - 16;
    let escaped = escaped_lanes(quotes, u8x16::from_slice(&octets[last..]));
    if escaped != 0 {
        return last + escaped.trailing_zeros() as usize;
    }
    octets.len()
}

/// Appends what an octet is written as.
fn put_octet(quotes: Quotes, octet: u8, out: &mut Vec<u8>) -> Result<(), Fault>
    ensures ok { OnOk result (out.new.items ≡ out.old.items ++ escape quotes octet) }
    ensures memory { IsOkUnless result faults.Memory }
{
    if let Some(letter) = letter_for(quotes.delimiter, octet) {
        out.extend_from_slice(&[b'\\', letter])?;
    } else if stands_raw(quotes.ascii, octet) {
        out.push(octet)?;
    } else {
        let high = hexadecimal_of(octet / 16);
        let low = hexadecimal_of(octet % 16);
        out.extend_from_slice(&[b'\\', b'x', high, low])?;
    }
    Ok(())
}

/// Appends octets as they are written between quotes; what stands for itself is copied at once.
fn put_escaped(quotes: Quotes, octets: &[u8], out: &mut Vec<u8>) -> Result<(), Fault>
    ensures ok { OnOk result (out.new.items ≡ out.old.items ++ escaped_text quotes octets.now) }
    ensures memory { IsOkUnless result faults.Memory }
{
    let mut rest = octets;
    while !rest.is_empty() {
        let (raw, others) = rest.split_at(raw_front(quotes, rest));
        out.extend_from_slice(raw)?;
        rest = others;
        if let Some((octet, others)) = rest.split_first() {
            put_octet(quotes, *octet, out)?;
            rest = others;
        }
    }
    Ok(())
}

/// Appends a text, or the octets of a clob, between quotes.
pub fn put_quoted(quotes: Quotes, octets: &[u8], out: &mut Vec<u8>) -> Result<(), Fault>
    ensures ok { OnOk result (out.new.items ≡ out.old.items ++ quoted quotes octets.now) }
    ensures memory { IsOkUnless result faults.Memory }
{
    out.push(quotes.delimiter)?;
    put_escaped(quotes, octets, out)?;
    out.push(quotes.delimiter)?;
    Ok(())
}
