//! The values of one token (Ion 1.0, "Ion Text Encoding"). Each function appends to `out`, and its
//! only fault is `Memory`, on which some of the octets may stand there.
ghost use Rattle.std.specs.Prelude.{◌≡◌, ◌++◌, ◌||◌, OnOk, IsOkUnless, IsUtf8, MatchResult, string_bytes};
ghost use Rattle.std.specs.List.{list_all};
ghost use Rattle.ion_text_writer.specs.Names.{KeptPayload, begins_identifier, blob_text, clob_text, is_identifier, is_letter, is_unquoted, is_word_octet, known_text, layer_text, null_text, number_text, out-Payload, payload_of, symbol_text, truth_text};
ghost use Rattle.ion_atoms.specs.declared.refusal.Reason.TheVariants as reasons;
ghost use Rattle.ion_symtab.specs.declared.fault.Fault.TheVariants as faults;

use crate::escape::{OF_CLOB, OF_STRING, OF_SYMBOL, put_quoted};
use base64::engine::general_purpose::STANDARD;
use ion_model::{Kind, Reason, Symbol};
use ion_scalar::{Number, put_number};
use ion_spelling::is_keyword;
use ion_symtab::Fault;
use ion_visiting::{Part, part_kept};
use std::alloc::Global;

/// A letter or `_`.
fn begins_identifier(octet: u8) -> bool
    ensures { result ≡ begins_identifier octet }
{
    octet.is_ascii_alphabetic() || octet == b'_'
}

/// A letter, `_`, `$` or a digit.
fn is_word_octet(octet: u8) -> bool
    ensures { result ≡ is_word_octet octet }
{
    octet.is_ascii_alphabetic() || is_word_octet_beside_letters(octet)
}

/// `_`, `$` or a digit. Most octets are letters, which are told first; inlined, this would be.
#[inline(never)]
fn is_word_octet_beside_letters(octet: u8) -> bool
    ensures { is_word_octet octet ≡ (is_letter octet || result) }
{
    octet == b'_' || octet == b'$' || octet.is_ascii_digit()
}

fn are_word_octets(octets: &[u8]) -> bool
    ensures { result ≡ list_all is_word_octet octets.now }
{
    octets.iter().all(|octet| is_word_octet(*octet))
}

/// A letter or `_`, then letters, `_`, `$` and digits.
fn is_identifier(text: &[u8]) -> bool
    ensures { result ≡ is_identifier text.now }
{
    match text.split_first() {
        None => false,
        Some((first, others)) => begins_identifier(*first) && are_word_octets(others),
    }
}

/// Whether a symbol of this text stands without quotes.
pub fn is_unquoted(text: &str) -> bool
    ensures { result ≡ is_unquoted text.now }
{
    is_identifier(text.as_bytes()) && !is_keyword(text)
}

/// Appends a symbol: `$0`, a word or a quoted symbol.
#[tactic(auto, unfolding(ion_spelling::specs::Output::symbol_text))]
pub fn put_symbol(symbol: &Symbol, out: &mut Vec<u8>) -> Result<(), Fault>
    ensures ok { OnOk result (out.new.items ≡ out.old.items ++ symbol_text symbol.now) }
    ensures utf8 { OnOk result (IsUtf8 (symbol_text symbol.now)) }
    ensures memory { IsOkUnless result faults.Memory }
{
    match symbol.text() {
        None => out.extend_from_slice(b"$0")?,
        Some(text) => put_known(text, out)?,
    }
    Ok(())
}

/// Appends a symbol of this text.
#[tactic(auto, using(ion_spelling::specs::laws::Quoted::known_utf8))]
pub fn put_known(text: &str, out: &mut Vec<u8>) -> Result<(), Fault>
    ensures ok { OnOk result (out.new.items ≡ out.old.items ++ known_text text.now) }
    ensures utf8 { IsUtf8 (known_text text.now) }
    ensures memory { IsOkUnless result faults.Memory }
{
    let octets = text.as_bytes();
    if is_unquoted(text) {
        out.extend_from_slice(octets)?;
    } else {
        put_quoted(OF_SYMBOL, octets, out)?;
    }
    Ok(())
}

/// The spelling of a symbol wherever it stands in a text document (Ion 1.0, "Ion Text Encoding",
/// symbols): `$0` where its text is unknown; without quotes where that is a letter or `_`, then
/// letters, `_`, `$` and digits, and neither `null`, `true`, `false` nor `nan`; else between `'`.
///
/// The only refusal is `Memory`.
pub fn symbol_text(alloc: Global, symbol: &Symbol) -> Result<String, Reason>
    ensures { MatchResult result
        (λ text. string_bytes text ≡ symbol_text symbol.now)
        (λ reason. reason ≡ reasons.Memory) }
{
    let mut octets = Vec::new(alloc);
    put_symbol(symbol, &mut octets).map_err(|_| Reason::Memory)?;
    // a text, with escapes in ASCII
    Ok(unsafe { String::from_utf8_unchecked(octets) })
}

/// Appends the null of a kind.
pub fn put_null(kind: Kind, out: &mut Vec<u8>) -> Result<(), Fault>
    ensures ok { OnOk result (out.new.items ≡ out.old.items ++ null_text kind) }
    ensures memory { IsOkUnless result faults.Memory }
{
    out.extend_from_slice(b"null")?;
    match kind {
        Kind::Null => {}
        _ => {
            out.push(b'.')?;
            out.extend_from_slice(kind.name().as_bytes())?;
        }
    }
    Ok(())
}

/// Appends a bool.
pub fn put_truth(truth: bool, out: &mut Vec<u8>) -> Result<(), Fault>
    ensures ok { OnOk result (out.new.items ≡ out.old.items ++ truth_text truth) }
    ensures memory { IsOkUnless result faults.Memory }
{
    if truth {
        out.extend_from_slice(b"true")?;
    } else {
        out.extend_from_slice(b"false")?;
    }
    Ok(())
}

/// Appends a number.
pub fn put_numeral(number: &Number, out: &mut Vec<u8>) -> Result<(), Fault>
    ensures ok { OnOk result (out.new.items ≡ out.old.items ++ number_text number.now) }
    ensures memory { IsOkUnless result faults.Memory }
{
    put_number(number, out).map_err(|_| Fault::Memory)
}

/// Appends a clob.
pub fn put_clob(octets: &[u8], out: &mut Vec<u8>) -> Result<(), Fault>
    ensures ok { OnOk result (out.new.items ≡ out.old.items ++ clob_text octets.now) }
    ensures memory { IsOkUnless result faults.Memory }
{
    out.extend_from_slice(b"{{")?;
    put_quoted(OF_CLOB, octets, out)?;
    out.extend_from_slice(b"}}")?;
    Ok(())
}

/// Appends a blob in base64 (RFC 4648, section 4).
pub fn put_blob(alloc: Global, octets: &[u8], out: &mut Vec<u8>) -> Result<(), Fault>
    ensures ok { OnOk result (out.new.items ≡ out.old.items ++ blob_text octets.now) }
    ensures memory { IsOkUnless result faults.Memory }
{
    let text = STANDARD.encode(alloc, octets)?;
    out.extend_from_slice(b"{{")?;
    out.extend_from_slice(text.as_bytes())?;
    out.extend_from_slice(b"}}")?;
    Ok(())
}

/// Appends a value of one token, which is no number.
pub(crate) fn put_part(alloc: Global, said: &Part<'_>, out: &mut Vec<u8>) -> Result<(), Fault>
    ensures ok { let level = out-Payload (payload_of said.now) in
        OnOk result (out.new.items ≡ out.old.items ++ layer_text level) }
    ensures kept { KeptPayload (payload_of said.now) }
    ensures memory { IsOkUnless result faults.Memory }
{
    part_kept(said);
    match said {
        Part::Null(kind) => put_null(*kind, out),
        Part::Truth(truth) => put_truth(*truth, out),
        Part::Symbol(text) => put_known(text, out),
        Part::Str(text) => put_quoted(OF_STRING, text.as_bytes(), out),
        Part::Clob(octets) => put_clob(octets, out),
        Part::Blob(octets) => put_blob(alloc, octets, out),
    }
}
