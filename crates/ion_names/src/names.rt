//! The ids that a writer has given to symbols (Ion 1.0, "Symbols", "Symbol IDs").
ghost use Rattle.std.specs.Prelude.{◌≡◌, ◌<◌, ◌≤◌, ◌^◌, Some, suc, true, length, map, take, drop, MatchBool, MatchResult, IfOk};
ghost use Rattle.ion_names.specs.Names.{IsLater, Names as SymbolsById, NeedsLargeId, greatest_id, id_of, symbol_same, system_names, with_name, with_names};
ghost use Rattle.ion_symtab.specs.declared.fault.Fault.TheVariants as faults;

use crate::name::Name;
use indexmap::IndexSet;
use ion_symtab::{Fault, GREATEST_ID, SYSTEM_TEXTS};
use std::alloc::Global;
use std::hash::BuildHasher;
use std::marker::Model;

/// Symbols by their ids, found by a hash of their texts. The symbol of unknown text has the id 0,
/// and a text has one id, whatever the hasher.
#[derive(Drop)]
pub struct Names<S: BuildHasher> {
    symbols: IndexSet<Name, S>,
}

impl<S: BuildHasher> Model for Names<S> {
    ghost use Rattle.ion_names.specs.Ids.{Names as SymbolsById};

    ghost Value = { SymbolsById };

    ghost view = { λ n. n.symbols.keys };
}

impl<S: BuildHasher + Drop> Names<S> {
    /// The symbols that every document begins with. The only fault is `Memory`.
    #[tactic(auto, unfolding(crate::specs::Ids::system_names, ion_symtab::specs::Slots::system_texts))]
    pub fn system(alloc: Global, hasher: S) -> Result<Names<S>, Fault>
        ensures { MatchResult result (λ n. n ≡ system_names) (λ f. f ≡ faults.Memory) }
    {
        let mut names = Names {
            symbols: IndexSet::with_hasher(alloc, hasher),
        };
        let _unknown = names.insert(Name::unknown())?;
        names.insert_texts(alloc, &SYSTEM_TEXTS)?;
        Ok(names)
    }

    // Gives each of the texts the next id, if it has none. The only fault is `Memory`.
    fn insert_texts(&mut self, alloc: Global, texts: &[&str]) -> Result<(), Fault>
        ensures { MatchResult result (λ _. self.new
            ≡ with_names self.old (map (λ t. Some t.now) texts.now)) (λ f. f ≡ faults.Memory) }
    {
        for text in texts {
            let name = Name::known(alloc, text)?;
            let _id = self.insert(name)?;
        }
        Ok(())
    }

    /// How many symbols there are.
    pub fn len(&self) -> usize
        ensures count { result ≡ length self.now }
        ensures small { result < 2 ^ 63 }
    {
        self.symbols.len()
    }

    /// Whether a symbol has an id above 2^31-1.
    pub fn needs_large_id(&self) -> bool
        ensures { MatchBool result (NeedsLargeId self.now) (length self.now ≤ suc greatest_id) }
    {
        self.symbols.len() > GREATEST_ID as usize + 1
    }

    /// Whether this is the id of the symbol of a text. Takes no look by the text.
    pub fn is_text_at(&self, id: usize, text: &str) -> bool
        ensures id { result ≡ true → id ≡ id_of self.now (Some text.now) }
        ensures small { result ≡ true → id < 2 ^ 63 }
        ensures named { result ≡ true → with_name self.now (Some text.now) ≡ self.now }
    {
        match self.symbols.as_slice().get(id) {
            None => false,
            Some(symbol) => is_of_text(symbol, text),
        }
    }

    /// The id of a symbol, which is the next one where it had none, however great. It stays the
    /// symbol's id. The only fault is `Memory`.
    pub fn add(&mut self, name: Name) -> Result<usize, Fault>
        ensures ok { MatchResult result (λ _. self.new ≡ with_name self.old name)
            (λ f. f ≡ faults.Memory) }
        ensures id { IfOk result (λ id. (later : SymbolsById) → IsLater self.new later →
            id ≡ id_of later name) }
        ensures small { IfOk result (λ id. id < 2 ^ 63) }
    {
        let id = self.insert(name)?;
        Ok(id)
    }

    // The same, whose id is told of the symbols as they are now.
    fn insert(&mut self, key: Name) -> Result<usize, Fault>
        ensures ok { MatchResult result (λ _. self.new ≡ with_name self.old key)
            (λ f. f ≡ faults.Memory) }
        ensures id { IfOk result (λ id. id ≡ id_of self.new key) }
        ensures small { IfOk result (λ id. id < 2 ^ 63) }
    {
        let (id, _) = self.symbols.insert_full(key)?;
        // Its contract alone says that there are fewer than 2^63.
        let _count = self.symbols.len();
        Ok(id)
    }

    /// The id of a text, or how many symbols there are, where it has none. The only fault is
    /// `Memory`.
    #[inline(never)]
    pub fn id_of_text(&self, alloc: Global, text: &str) -> Result<u64, Fault>
        ensures id { MatchResult result (λ id. id ≡ id_of self.now (Some text.now))
            (λ f. f ≡ faults.Memory) }
        ensures small { IfOk result (λ id. id < 2 ^ 63) }
    {
        let key = Name::known(alloc, text)?;
        let count = self.len();
        Ok(self.symbols.get_index_of(&key).unwrap_or(count) as u64)
    }

    /// Takes the ids from the symbols that have one from `count` on.
    pub fn truncate(&mut self, count: usize)
        ensures { self.new ≡ take count self.old }
    {
        self.symbols.truncate(count);
    }

    /// The symbols from an id on, in the order of their ids.
    pub fn from(&self, id: usize) -> &[Name]
        requires { id ≤ length self.now }
        ensures { result.now ≡ drop id self.now }
    {
        &self.symbols.as_slice()[id..]
    }
}

// Whether a symbol has this text.
#[inline(always)]
fn is_of_text(name: &Name, text: &str) -> bool
    ensures { result ≡ symbol_same (Some text.now) name.now }
{
    match name.text() {
        None => false,
        Some(other) => text == other,
    }
}
