//! Blobs and clobs (Ion 1.0, "Ion Text Encoding", blobs and clobs).
ghost use Rattle.std.specs.Prelude.{◌≡◌};
ghost use Rattle.ion_tokens.specs.Names.{after_long, after_short, in_blob, in_lob, lob_start, second_brace, third_quote};

use crate::mode::{Action, Keep, Lob, Mode, Style, TokenKind, Within, add, go, unexpected};
use crate::octets::{is_base64, is_white};
use ion_atoms::Reason;

// One of the quotes that must be three.
fn third_quote(octet: u8, mode: Mode) -> Action
    ensures { result ≡ third_quote octet mode }
{
    if octet == b'\'' {
        go(mode)
    } else {
        unexpected()
    }
}

// The second `}` of the close.
fn second_brace(octet: u8, kind: TokenKind) -> Action
    ensures { result ≡ second_brace octet kind }
{
    if octet == b'}' {
        Action::Give(kind, Keep::Nothing)
    } else {
        unexpected()
    }
}

// An octet of a blob's content, or its first brace.
fn in_blob(octet: u8) -> Action
    ensures { result ≡ in_blob octet }
{
    if octet == b'}' {
        Action::EndBlob
    } else if is_base64(octet) {
        add(Mode::Lob(Lob::Base64), octet)
    } else {
        Action::Refuse(Reason::BadBase64)
    }
}

// Behind `{{`.
fn lob_start(octet: u8) -> Action
    ensures { result ≡ lob_start octet }
{
    if is_white(octet) {
        go(Mode::Lob(Lob::Start))
    } else if octet == b'"' {
        go(Mode::Text(Style::ShortClob, Within::Plain))
    } else if octet == b'\'' {
        go(Mode::Lob(Lob::StartQuote))
    } else {
        in_blob(octet)
    }
}

fn after_short(octet: u8) -> Action
    ensures { result ≡ after_short octet }
{
    if is_white(octet) {
        go(Mode::Lob(Lob::AfterShort))
    } else if octet == b'}' {
        go(Mode::Lob(Lob::ClobClose))
    } else {
        unexpected()
    }
}

fn after_long(octet: u8) -> Action
    ensures { result ≡ after_long octet }
{
    if is_white(octet) {
        go(Mode::Lob(Lob::AfterLong))
    } else if octet == b'}' {
        go(Mode::Lob(Lob::ClobClose))
    } else {
        third_quote(octet, Mode::Lob(Lob::AfterQuote))
    }
}

/// In a blob or a clob, outside its texts.
pub fn in_lob(lob: Lob, octet: u8) -> Action
    ensures { result ≡ in_lob lob octet }
{
    match lob {
        Lob::Start => lob_start(octet),
        Lob::StartQuote => third_quote(octet, Mode::Lob(Lob::StartQuotes)),
        Lob::StartQuotes => third_quote(octet, Mode::Text(Style::LongClob, Within::Plain)),
        Lob::Base64 => {
            if is_white(octet) {
                go(Mode::Lob(Lob::Base64))
            } else {
                in_blob(octet)
            }
        }
        Lob::BlobClose => second_brace(octet, TokenKind::Blob),
        Lob::AfterShort => after_short(octet),
        Lob::AfterLong => after_long(octet),
        Lob::AfterQuote => third_quote(octet, Mode::Lob(Lob::AfterQuotes)),
        Lob::AfterQuotes => third_quote(octet, Mode::Text(Style::LongClob, Within::Plain)),
        Lob::ClobClose => second_brace(octet, TokenKind::Clob),
    }
}
