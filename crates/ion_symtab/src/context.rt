//! Contexts: what the symbol ids of a document stand for (Ion 1.0, "Symbols").
ghost use Rattle.std.specs.Prelude.{◌≡◌, ◌⊎◌, ◌≤◌, true, length, Ok, Err, IfErr, OnOk, OnErr, MatchResult, option_copied};
ghost use Rattle.ion_symtab.specs.Names.{Gives, appends, greatest_id, is_table, next, resolve, system_slots};
ghost use Rattle.ion_atoms.specs.declared.refusal.Reason.TheVariants as reasons;

use crate::catalog::Catalog;
use crate::fields::only;
use crate::segments::Segments;
use crate::symbols::Symbols;
use ion_model::{Payload, Reason, Symbol, Value};
use std::alloc::Global;
use std::fmt::{self, Debug, Formatter};
use std::marker::Model;

/// What the symbol ids stand for at a place of a document. Contracts see the list of slots, of
/// which the first has the id 1: each is a text, unknown, or a gap.
#[derive(Drop)]
pub struct Context {
    unknown: Symbol,
    system: Symbols,
    segments: Segments,
}

impl Debug for Context {
    fn fmt<W: fmt::Write>(&self, f: &mut Formatter<W>) -> fmt::Result {
        f.debug_struct("Context").finish_non_exhaustive()
    }
}

impl Model for Context {
    ghost use Rattle.std.specs.Prelude.{List, None, ◌≡◌, map, take};
    ghost use Rattle.ion_symtab.specs.Slots.{Slot, system_slots};
    ghost use Rattle.ion_symtab.specs.Next.{local_slot};
    ghost use Rattle.ion_symtab.specs.kept.Segments.{slots_of};

    ghost Value = { List Slot };

    ghost view = { λ c. slots_of c.segments };

    ghost invariant = { λ c. (map local_slot c.system ≡ system_slots)
        × (slots_of (take 1 c.segments) ≡ system_slots) × (c.unknown ≡ None) };
}

/// The texts of the system slots, from the id 1 on (Ion 1.0, "Symbols", "System Symbols").
pub const SYSTEM_TEXTS: [&str; 9] = [
    "$ion",
    "$ion_1_0",
    "$ion_symbol_table",
    "name",
    "version",
    "imports",
    "symbols",
    "max_id",
    "$ion_shared_symbol_table",
];

impl Context {
    /// The context of the system slots alone, in which every document begins (Ion 1.0, "Symbols",
    /// "System Symbols"). The only refusal is `Memory`.
    #[tactic(auto, unfolding(crate::specs::Slots::system_slots, crate::specs::Slots::system_texts))]
    pub fn system(alloc: Global) -> Result<Context, Reason>
        ensures { MatchResult result (λ c. c ≡ system_slots) (λ r. r ≡ reasons.Memory) }
    {
        let mut system = Vec::new(alloc);
        for text in SYSTEM_TEXTS {
            let symbol = Symbol::known(alloc, text)?;
            system.push(symbol)?;
        }
        let system = Symbols::from_vec(alloc, system)?;
        let segments = Segments::of_system(alloc, system.share()?)?;
        Ok(Context {
            unknown: Symbol::unknown(),
            system,
            segments,
        })
    }

    /// Makes it the context of the system slots alone. Takes no memory.
    pub fn reset(&mut self)
        ensures { self.new ≡ system_slots }
    {
        self.segments.truncate(1);
    }

    /// The greatest id, which is the number of slots: 9 to 2^31-1. Takes no memory.
    pub fn max_id(&self) -> u32
        ensures count { result ≡ length self.now }
        ensures bound { result ≤ greatest_id }
    {
        self.segments.end()
    }

    /// A copy of the symbol of an id, as `symbol` answers it, or `Memory`.
    pub fn resolve(&self, id: u64) -> Result<Symbol, Reason>
        ensures { Gives (resolve self.now id) result }
    {
        match self.symbol(id) {
            Ok(symbol) => symbol.copy(),
            Err(reason) => Err(reason),
        }
    }

    /// The symbol of an id; 0 is the symbol of unknown text. `SymbolRange` where the id is above
    /// the greatest, `ImportGap` where a gap stands there. Takes no memory.
    #[inline(always)]
    pub fn symbol(&self, id: u64) -> Result<&Symbol, Reason>
        ensures { MatchResult result (λ s. resolve self.now id ≡ Ok s.now)
            (λ r. resolve self.now id ≡ Err r) }
    {
        match self.segments.local_symbol(id) {
            Some(symbol) => Ok(symbol),
            None => self.any_symbol(id),
        }
    }

    // The same, wherever the id stands.
    #[inline(never)]
    #[tactic(auto, using(crate::specs::Slots::nine_system_slots), unfolding(crate::specs::Slots::resolve))]
    fn any_symbol(&self, id: u64) -> Result<&Symbol, Reason>
        ensures { MatchResult result (λ s. resolve self.now id ≡ Ok s.now)
            (λ r. resolve self.now id ≡ Err r) }
    {
        if id == 0 {
            return Ok(&self.unknown);
        }
        // `name` and `version` are common names of fields, too
        if let Some(symbol) = self.system.as_slice().get((id - 1) as usize) {
            return Ok(symbol);
        }
        if id > self.max_id() as u64 {
            return Err(Reason::SymbolRange);
        }
        self.segments.symbol_at((id - 1) as u32)
    }

    /// Makes it the context behind a local symbol table (Ion 1.0, "Symbols", "Local Symbol Tables"
    /// and "Imports"): the system slots, or all slots that there were where `imports` is the symbol
    /// `$ion_symbol_table`; then those of each struct in a list `imports`; then one for each
    /// element of a list `symbols`, a string's text or unknown text. Other fields are open content.
    ///
    /// An import is ignored where its `name` is no string, empty or `$ion`. Its `version` is 1
    /// where it is absent, null, no int, or below 1. It means the table of that name and version
    /// or, if there is none and `max_id` is an int that isn't negative, the one of that name with
    /// the greatest version. Such a `max_id` is its number of slots: the table is cut, or filled up
    /// with gaps.
    ///
    /// The first reason in this order answers, and leaves the context as it was: `NullTable` for
    /// `null.struct`; `RepeatedField` where `imports` or `symbols` stands twice; for each import in
    /// turn `RepeatedField` where `name`, `version` or `max_id` stands twice, also if it is
    /// ignored, `MissingImport` where the catalog has no table for it, `TableTooLarge` where an id
    /// would be above 2^31-1; last `TableTooLarge` by `symbols`. `Memory` may come at any point.
    #[tactic(auto, using(crate::specs::Slots::nine_system_slots), unfolding(crate::specs::Next::next))]
    pub fn apply(&mut self, table: &Value, catalog: &Catalog) -> Result<(), Reason>
        requires { is_table table.now ≡ true }
        ensures ok { OnOk result (next self.old table.now catalog.now ≡ Ok self.new) }
        ensures refused { IfErr result (λ r. (r ≡ reasons.Memory)
            ⊎ (next self.old table.now catalog.now ≡ Err r)) }
        ensures unchanged { OnErr result (self.new ≡ self.old) }
    {
        let fields = match &table.payload {
            Payload::Fields(fields) => fields.as_slice(),
            _ => return Err(Reason::NullTable),
        };
        let imports = only(fields, "imports")?;
        let symbols = only(fields, "symbols")?;
        if appends(imports) {
            return self.segments.extend(imports, symbols, catalog);
        }
        let mut segments = Segments::of_system(self.segments.alloc(), self.system.share()?)?;
        segments.extend(imports, symbols, catalog)?;
        self.segments = segments;
        Ok(())
    }
}

// Whether `imports` is the symbol `$ion_symbol_table`.
fn appends(imports: Option<&Value>) -> bool
    ensures { result ≡ appends (option_copied imports.entry) }
{
    match imports {
        None => false,
        Some(value) => match &value.payload {
            Payload::Symbol(symbol) => symbol.has_text("$ion_symbol_table"),
            _ => false,
        },
    }
}
