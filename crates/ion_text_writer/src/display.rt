//! Symbols that print as text documents spell them (Ion 1.0, "Ion Text Encoding", symbols).
ghost use Rattle.std.specs.Prelude.{◌≡◌, Some, false};
ghost use Rattle.std.specs.Fmt.{WritesOnOk};
ghost use Rattle.ion_text_writer.specs.Names.{escape, escaped_text, is_raw, known_text, of_symbol, symbol_text};

use crate::escape::{OF_SYMBOL, hexadecimal_of, is_raw, letter_for};
use crate::scalar::is_unquoted;
use ion_model::Symbol;
use std::fmt::{self, Display, Formatter};

/// A symbol that prints as its spelling, where `symbol_text` makes a `String` of it.
#[derive(Clone, Copy)]
pub struct SymbolText<'a> {
    symbol: &'a Symbol,
}

/// The symbol as what prints as its spelling, as in `println!(rt; "{}", spelling_of(&name))`: that
/// of `symbol_text`. Takes no memory.
pub fn spelling_of(symbol: &Symbol) -> SymbolText<'_>
    ensures { result.symbol.now ≡ symbol.now }
{
    SymbolText { symbol }
}

impl Display for SymbolText<'_> {
    ghost output = { λ s. Some (symbol_text s.symbol.now) };

    #[tactic(auto, unfolding(ion_spelling::specs::Output::symbol_text))]
    fn fmt<W: fmt::Write>(&self, f: &mut Formatter<W>) -> fmt::Result {
        match self.symbol.text() {
            None => f.write_str("$0"),
            Some(text) => write_known(f, text),
        }
    }
}

fn write_known<W: fmt::Write>(f: &mut Formatter<W>, text: &str) -> fmt::Result
    ensures { WritesOnOk W.write_str_gives f.old result (known_text text.now) f.new }
{
    if is_unquoted(text) {
        return f.write_str(text);
    }
    f.write_str("'")?;
    write_escaped(f, text)?;
    f.write_str("'")
}

/// What stands between the quotes; what stands for itself is written at once.
fn write_escaped<W: fmt::Write>(f: &mut Formatter<W>, text: &str) -> fmt::Result
    ensures { WritesOnOk W.write_str_gives f.old result (escaped_text of_symbol text.now) f.new }
{
    let octets = text.as_bytes();
    let mut start = 0;
    for at in 0..octets.len() {
        let octet = octets[at];
        if !is_raw(OF_SYMBOL, octet) {
            f.write_str(&text[start..at])?;
            write_escape(f, octet)?;
            start = at + 1;
        }
    }
    f.write_str(&text[start..])
}

/// An octet that doesn't stand for itself.
fn write_escape<W: fmt::Write>(f: &mut Formatter<W>, octet: u8) -> fmt::Result
    requires { is_raw of_symbol octet ≡ false }
    ensures { WritesOnOk W.write_str_gives f.old result (escape of_symbol octet) f.new }
{
    match letter_for(b'\'', octet) {
        Some(letter) => {
            f.write_str("\\")?;
            f.write_char(char::from(letter))
        }
        None => {
            f.write_str("\\x")?;
            f.write_char(char::from(hexadecimal_of(octet / 16)))?;
            f.write_char(char::from(hexadecimal_of(octet % 16)))
        }
    }
}
