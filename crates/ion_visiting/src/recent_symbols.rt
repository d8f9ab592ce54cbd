//! Symbols met lately, whose texts are shared.
ghost use Rattle.std.specs.Prelude.{◌≡◌, ◌≤◌, length, Some, MatchResult};
ghost use Rattle.ion_atoms.specs.declared.refusal.Reason.TheVariants as reasons;

use ion_model::{Reason, Symbol};
use std::alloc::Global;
use std::marker::Model;
use std::mem;

/// How many symbols are kept at most.
const PLACES: usize = 128;

/// So many symbols are made before any is kept, since a small document has few and wouldn't gain.
const FEW: u8 = 8;

/// How many octets the text of a kept symbol has at least, since shorter ones stand in the symbol
/// itself and share nothing.
const SHORTEST: usize = 15;

/// How many it has at most, so that what is kept stays small.
const LONGEST: usize = 64;

/// Symbols met lately, each at a place that a cheap hash of its text tells. The names of fields and
/// many symbols come again with each record: their texts are made once and shared.
///
/// A kept symbol is compared in full, so which are kept doesn't matter, and contracts see nothing
/// of it.
#[derive(Drop)]
pub struct RecentSymbols {
    alloc: Global,
    /// How many symbols were made while none was kept.
    made: u8,
    /// None yet; or that of each place, or the unknown one.
    kept: Vec<Symbol>,
}

impl Model for RecentSymbols {
    ghost Value = { Unit {0} };

    ghost view = { λ s. tt };
}

impl RecentSymbols {
    /// No symbols yet. Takes no memory.
    pub fn new(alloc: Global) -> RecentSymbols {
        RecentSymbols {
            alloc,
            made: 0,
            kept: Vec::new(alloc),
        }
    }

    /// The symbol of this text. The only refusal is `Memory`.
    pub fn symbol(&mut self, text: &str) -> Result<Symbol, Reason>
        ensures { MatchResult result (λ s. s ≡ Some text.now) (λ r. r ≡ reasons.Memory) }
    {
        if text.len() < SHORTEST || text.len() > LONGEST {
            return Symbol::known(self.alloc, text);
        }
        let place = place_of(text.as_bytes());
        match self.kept.get(place) {
            Some(kept) if kept.has_text(text) => kept.copy(),
            _ => self.first(place, text),
        }
    }

    // The symbol of a text that isn't kept yet, and from now on is.
    #[inline(never)]
    fn first(&mut self, place: usize, text: &str) -> Result<Symbol, Reason>
        ensures { MatchResult result (λ s. s ≡ Some text.now) (λ r. r ≡ reasons.Memory) }
    {
        let symbol = Symbol::known(self.alloc, text)?;
        self.keep(place, &symbol);
        Ok(symbol)
    }

    // Keeps a symbol at its place, in place of the one that was there. The first ones aren't kept,
    // nor any without memory.
    fn keep(&mut self, place: usize, symbol: &Symbol) {
        if self.kept.is_empty() && !self.makes_places() {
            return;
        }
        if place >= self.kept.len() {
            return;
        }
        if let Ok(copy) = symbol.copy() {
            drop(mem::replace(&mut self.kept[place], copy));
        }
    }

    // Makes every place, with the unknown symbol, unless few symbols came yet. Whether it did.
    fn makes_places(&mut self) -> bool {
        if self.made < FEW {
            self.made += 1;
            return false;
        }
        if self.kept.reserve(PLACES).is_err() {
            return false;
        }
        for _ in 0..PLACES {
            if self.kept.push(Symbol::unknown()).is_err() {
                return false;
            }
        }
        true
    }
}

// By the length, and the octets in front, in the middle and at the end.
#[inline(always)]
fn place_of(octets: &[u8]) -> usize
    requires { length octets.now ≤ 64 }
{
    let count = octets.len();
    if count == 0 {
        return 0;
    }
    let seen = [octets[0], octets[count / 2], octets[count - 1], count as u8];
    let mixed = u32::from_le_bytes(seen).wrapping_mul(0x9E37_79B1);
    (mixed >> 16) as usize % PLACES
}
