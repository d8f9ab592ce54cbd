//! Symbols: texts that name things, of which some are unknown.
ghost use Rattle.std.specs.Prelude.{◌≡◌, Some, None, MatchResult, is_ok, option_map, true};
ghost use Rattle.ion_atoms.specs.declared.refusal.Reason.TheVariants as reasons;
ghost use Rattle.ion_model.specs.Kinds.{names_table};
ghost use Rattle.ion_model.specs.Symbols.{IsFree, IsText, has_text, symbol_same, symbol_cmp};

use ion_atoms::Reason;
use std::alloc::Global;
use std::cmp::Ordering;
use std::fmt::{self, Debug, Formatter};
use std::marker::Model;
use std::rc::RcStr;
use std::str;

/// So many octets of a text stand in the symbol itself: nearly all names of fields are no longer.
const MOST_SHORT: usize = 14;

/// A symbol: a text, or unknown where nothing is known of it but that it has no text (Ion 1.0,
/// "Symbols"). A text of at most 14 octets takes no memory; copies share that of a longer one.
#[derive(Drop)]
pub struct Symbol {
    held: Held,
}

/// What a symbol holds of its text.
#[derive(Drop)]
enum Held {
    Unknown,
    /// So many octets at the front are the text.
    Short(u8, [u8; MOST_SHORT]),
    Shared(RcStr),
}

impl Model for Symbol {
    ghost use Rattle.std.specs.Prelude.{Option, List, ℕ};
    ghost use Rattle.ion_model.specs.Held.{IsHeld, held_text};

    ghost Value = { Option (List ℕ) };

    ghost view = { λ s. held_text s.held };

    ghost use Rattle.ion_model.specs.Symbols.{IsText};

    ghost invariant = { λ s. IsText (held_text s.held) × IsHeld s.held };
}

impl Debug for Symbol {
    fn fmt<W: fmt::Write>(&self, f: &mut Formatter<W>) -> fmt::Result {
        f.debug_struct("Symbol")
            .field("text", &self.text())
            .finish()
    }
}

impl Symbol {
    /// The symbol of unknown text. Takes no memory.
    pub fn unknown() -> Symbol
        ensures { result ≡ None }
    {
        Symbol {
            held: Held::Unknown,
        }
    }

    /// The symbol of this text. The only refusal is `Memory`, and none comes of a text of at most 14
    /// octets.
    pub fn known(alloc: Global, text: &str) -> Result<Symbol, Reason>
        ensures free { IsFree (Some text.now) → is_ok result ≡ true }
        ensures known { MatchResult result (λ s. s ≡ Some text.now) (λ r. r ≡ reasons.Memory) }
    {
        let octets = text.as_bytes();
        let count = octets.len();
        if count <= MOST_SHORT {
            let mut front = [0; MOST_SHORT];
            front[..count].copy_from_slice(octets);
            return Ok(Symbol {
                held: Held::Short(count as u8, front),
            });
        }
        let text = RcStr::from_str(alloc, text)?;
        Ok(Symbol {
            held: Held::Shared(text),
        })
    }

    /// What a symbol keeps about itself: its text, where it is known, is UTF-8. Does nothing.
    pub fn kept(&self)
        ensures { IsText self.now }
    {
        let _held = &self.held;
    }

    /// The text, `None` where it is unknown. Takes no memory.
    pub fn text(&self) -> Option<&str>
        ensures { option_map (λ t. t.now) result ≡ self.now }
    {
        match &self.held {
            Held::Unknown => None,
            Held::Short(count, front) => {
                Some(unsafe { str::from_utf8_unchecked(&front[..*count as usize]) })
            }
            Held::Shared(text) => Some(text.as_str()),
        }
    }

    /// Whether the symbol has this text; one of unknown text has none. Takes no memory.
    pub fn has_text(&self, text: &str) -> bool
        ensures { result ≡ has_text text.now self.now }
    {
        match self.text() {
            None => false,
            Some(known) => known == text,
        }
    }

    /// Whether the symbol is the name of local symbol tables, `$ion_symbol_table` (Ion 1.0,
    /// "Symbols", "Local Symbol Tables"). Takes no memory.
    pub fn names_table(&self) -> bool
        ensures { result ≡ names_table self.now }
    {
        match self.text() {
            None => false,
            Some(text) => text == "$ion_symbol_table",
        }
    }

    /// An equal symbol, which shares the memory of the text. The only refusal is `Memory`, and none
    /// comes of a symbol that takes no memory.
    pub fn copy(&self) -> Result<Symbol, Reason>
        ensures free { IsFree self.now → is_ok result ≡ true }
        ensures copied { MatchResult result (λ s. s ≡ self.now) (λ r. r ≡ reasons.Memory) }
    {
        let held = match &self.held {
            Held::Unknown => Held::Unknown,
            Held::Short(count, front) => Held::Short(*count, *front),
            Held::Shared(text) => Held::Shared(text.clone()?),
        };
        Ok(Symbol { held })
    }

    /// Whether both are unknown, or both have the same text. Takes no memory.
    pub fn same(&self, other: &Symbol) -> bool
        ensures { result ≡ symbol_same self.now other.now }
    {
        match (self.text(), other.text()) {
            (None, None) => true,
            (Some(text), Some(other)) => text == other,
            _ => false,
        }
    }

    /// The order of symbols: the unknown one first, then by the octets of the texts. Takes no
    /// memory.
    pub fn order(&self, other: &Symbol) -> Ordering
        ensures { result ≡ symbol_cmp self.now other.now }
    {
        match (self.text(), other.text()) {
            (None, None) => Ordering::Equal,
            (None, Some(_)) => Ordering::Less,
            (Some(_), None) => Ordering::Greater,
            (Some(text), Some(other)) => text.cmp(other),
        }
    }
}
