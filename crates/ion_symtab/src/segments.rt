//! The slots of a context in segments, so that a gap of any length takes no memory.
ghost use Rattle.std.specs.Prelude.{◌≡◌, ◌⊎◌, ◌≤◌, ◌<◌, ◌+◌, ◌++◌, [], ◌∷◌, length, map, take, Ok, Err, MatchResult, OnOk, OnErr, IfErr, IfSome, slice_get, option_copied};
ghost use Rattle.ion_atoms.specs.declared.refusal.Reason.TheVariants as reasons;
ghost use Rattle.ion_model.specs.declared.value.Payload.TheViews.{out-Payload};
ghost use Rattle.ion_symtab.specs.Slots.{greatest_id, symbol_at, slot_symbol, resolve};
ghost use Rattle.ion_symtab.specs.Fields.{symbol_of};
ghost use Rattle.ion_symtab.specs.Next.{local_slot, shared_slot, cut_or_filled, joined, element_added, imported, extended};
ghost use Rattle.ion_symtab.specs.kept.Segments.{part_slots, slots_of, system_segment, StartsBy, StartsBehind, Adds};

use crate::catalog::Catalog;
use crate::fields::{elements, symbols_of};
use crate::import::import_of;
use crate::shared_table::SharedTable;
use crate::symbols::{Symbols, copies_of};
use ion_model::{Payload, Reason, Symbol, Value};
use std::alloc::Global;
use std::marker::Model;

/// The greatest id that a symbol may have, 2^31-1.
pub const GREATEST_ID: u32 = 0x7FFF_FFFF;

/// Slots that stand together.
#[derive(Drop)]
pub(crate) enum Part {
    /// The system slots.
    System(Symbols),
    /// A shared table, cut or filled up to so many slots.
    Import(Symbols, u32),
    /// The symbols of one local table.
    Local(Vec<Symbol>),
}

/// Slots that stand together, and how many stand before them: one less than their first id.
#[derive(Drop)]
pub(crate) struct Segment {
    before: u32,
    part: Part,
}

/// Segments that follow one another, which contracts see as their list.
///
/// A segment is found by its first id, by halving. Documents may append a table for each value, so
/// in front stands a table by ids of the symbols of local tables behind the last import, which
/// share their texts.
#[derive(Drop)]
pub(crate) struct Segments {
    segments: Vec<Segment>,
    end: u32,
    indexed: Vec<Symbol>,
    indexed_from: u32,
}

impl Model for Segments {
    ghost use Rattle.std.specs.Prelude.{List};
    ghost use Rattle.ion_symtab.specs.declared.segments.Segment.{Segment};
    ghost use Rattle.ion_symtab.specs.kept.Segments.{Counts, Indexes, slots_of};

    ghost Value = { List Segment };

    ghost view = { λ s. s.segments.items };

    ghost invariant = { λ s. Counts s.segments.items s.end
        × Indexes (slots_of s.segments.items) s.indexed_from s.indexed.items };
}

impl Part {
    // The symbol of the slot at a place. `ImportGap` where it is a gap.
    fn symbol_at(&self, place: u32) -> Result<&Symbol, Reason>
        requires { place < length (part_slots self.now) }
        ensures { MatchResult result
            (λ s. symbol_at (slice_get (part_slots self.now) place) ≡ Ok s.now)
            (λ r. symbol_at (slice_get (part_slots self.now) place) ≡ Err r) }
    {
        match self {
            Part::System(symbols) => Ok(&symbols.as_slice()[place as usize]),
            Part::Local(symbols) => Ok(&symbols[place as usize]),
            Part::Import(symbols, _) => match symbols.as_slice().get(place as usize) {
                None => Err(Reason::ImportGap),
                Some(symbol) => imported(symbol),
            },
        }
    }
}

// The symbol of a slot of a shared table.
fn imported(symbol: &Symbol) -> Result<&Symbol, Reason>
    ensures { MatchResult result
        (λ s. slot_symbol (shared_slot symbol.now) ≡ Ok s.now)
        (λ r. slot_symbol (shared_slot symbol.now) ≡ Err r) }
{
    match symbol.text() {
        None => Err(Reason::ImportGap),
        Some(_) => Ok(symbol),
    }
}

// The index of the last segment that begins at this place or before it, by halving.
fn segment_of(segments: &[Segment], place: u32) -> usize
    requires some { 0 < length segments.now }
    requires starts { StartsBy place segments.now 0 }
    ensures within { result < length segments.now }
    ensures starts { StartsBy place segments.now result }
    ensures last { (result + 1 < length segments.now)
        → StartsBehind place segments.now (result + 1) }
{
    let mut low = 0;
    let mut high = segments.len();
    while high - low > 1 {
        let middle = low + (high - low) / 2;
        if segments[middle].before <= place {
            low = middle;
        } else {
            high = middle;
        }
    }
    low
}

impl Segments {
    /// The segment of the system slots alone. The only refusal is `Memory`.
    pub(crate) fn of_system(alloc: Global, symbols: Symbols) -> Result<Segments, Reason>
        requires { length symbols ≤ greatest_id }
        ensures { MatchResult result (λ s. s ≡ system_segment symbols ∷ [])
            (λ r. r ≡ reasons.Memory) }
    {
        let end = symbols.as_slice().len() as u32;
        let mut segments = Vec::new(alloc);
        segments.push(Segment {
            before: 0,
            part: Part::System(symbols),
        })?;
        Ok(Segments {
            segments,
            end,
            indexed: Vec::new(alloc),
            indexed_from: end,
        })
    }

    /// How many slots there are.
    pub(crate) fn end(&self) -> u32
        ensures count { result ≡ length (slots_of self.now) }
        ensures bound { result ≤ greatest_id }
    {
        self.end
    }

    /// The allocator.
    pub(crate) fn alloc(&self) -> Global {
        *self.segments.allocator()
    }

    /// The symbol at a place.
    pub(crate) fn symbol_at(&self, place: u32) -> Result<&Symbol, Reason>
        requires { place < length (slots_of self.now) }
        ensures { MatchResult result
            (λ s. symbol_at (slice_get (slots_of self.now) place) ≡ Ok s.now)
            (λ r. symbol_at (slice_get (slots_of self.now) place) ≡ Err r) }
    {
        let segments = self.segments.as_slice();
        let segment = &segments[segment_of(segments, place)];
        segment.part.symbol_at(place - segment.before)
    }

    /// The symbol of an id, where it is of a local table behind the last import, as most are.
    #[inline(always)]
    pub(crate) fn local_symbol(&self, id: u64) -> Option<&Symbol>
        ensures { IfSome result (λ s. resolve (slots_of self.now) id ≡ Ok s.now) }
    {
        let from = self.indexed_from as u64;
        if id <= from {
            return None;
        }
        self.indexed.get((id - 1 - from) as usize)
    }

    /// Drops all segments behind the first so many. Takes no memory.
    pub(crate) fn truncate(&mut self, count: usize)
        ensures { self.new ≡ take count self.old }
    {
        self.end = self.end_of(count);
        self.segments.truncate(count);
        self.indexed.clear();
        self.indexed_from = self.end;
    }

    // How many slots the first so many segments have.
    fn end_of(&self, count: usize) -> u32
        ensures { result ≡ length (slots_of (take count self.now)) }
    {
        match self.segments.get(count) {
            None => self.end,
            Some(segment) => segment.before,
        }
    }

    // Adds a part of so many slots.
    fn push(&mut self, part: Part, count: u32) -> Result<(), Reason>
        requires count { count ≡ length (part_slots part) }
        requires room { length (slots_of self.old) + count ≤ greatest_id }
        ensures kept { take (length self.old) self.new ≡ self.old }
        ensures ok { OnOk result (slots_of self.new ≡ slots_of self.old ++ part_slots part) }
        ensures err { IfErr result (λ r. r ≡ reasons.Memory) }
    {
        if count == 0 {
            return Ok(());
        }
        self.segments.push(Segment {
            before: self.end,
            part,
        })?;
        self.end += count;
        Ok(())
    }

    // So many slots more. `TableTooLarge` where the greatest id would be above 2^31-1.
    fn room_for(&self, count: u128) -> Result<u32, Reason>
        ensures { MatchResult result
            (λ n. (n ≡ count) × (length (slots_of self.now) + n ≤ greatest_id))
            (λ r. (r ≡ reasons.TableTooLarge)
            × (greatest_id < length (slots_of self.now) + count)) }
    {
        if count > (GREATEST_ID - self.end) as u128 {
            return Err(Reason::TableTooLarge);
        }
        Ok(count as u32)
    }

    // Adds the slots of a shared table, cut or filled up.
    fn push_import(&mut self, table: &SharedTable, count: u128) -> Result<(), Reason>
        ensures { Adds (λ slots. joined slots
            (cut_or_filled count (map shared_slot table.now.symbols))) self.old self.new result }
    {
        let count = self.room_for(count)?;
        let symbols = table.symbols().share()?;
        self.push(Part::Import(symbols, count), count)?;
        self.indexed.clear();
        self.indexed_from = self.end;
        Ok(())
    }

    // Adds the slots of one element of `imports`.
    fn push_element(&mut self, element: &Value, catalog: &Catalog) -> Result<(), Reason>
        ensures { Adds (λ slots. element_added catalog.now slots element.now) self.old self.new
            result }
    {
        match &element.payload {
            Payload::Fields(fields) => match import_of(fields.as_slice(), catalog)? {
                None => Ok(()),
                Some(import) => self.push_import(import.table, import.count),
            },
            _ => Ok(()),
        }
    }

    // Adds the slots of the elements of `imports`, in order.
    fn push_imports(&mut self, elements: &[Value], catalog: &Catalog) -> Result<(), Reason>
        ensures { Adds (λ slots. imported catalog.now slots elements.now) self.old self.new result }
    {
        for element in elements {
            self.push_element(element, catalog)?;
        }
        Ok(())
    }

    // Adds the slots of the elements of `symbols`, in order, if there are ids for them.
    fn push_symbols(&mut self, elements: &[Value]) -> Result<(), Reason>
        ensures { Adds (λ slots. joined slots (map local_slot (map symbol_of elements.now)))
            self.old self.new result }
    {
        let count = self.room_for(elements.len() as u128)?;
        let symbols = symbols_of(self.alloc(), elements)?;
        let mut copies = copies_of(self.alloc(), symbols.as_slice())?;
        let first = self.end as usize;
        self.push(Part::Local(symbols), count)?;
        if self.indexed.len() + self.indexed_from as usize == first {
            self.indexed.append(&mut copies)?;
        }
        Ok(())
    }

    // Adds the slots that `imports` and `symbols` give.
    fn push_table(
        &mut self,
        imports: Option<&Value>,
        symbols: Option<&Value>,
        catalog: &Catalog,
    ) -> Result<(), Reason>
        ensures { Adds (λ slots. extended catalog.now slots (option_copied imports.entry)
            (option_copied symbols.entry)) self.old self.new result }
    {
        self.push_imports(elements(imports), catalog)?;
        self.push_symbols(elements(symbols))
    }

    /// Adds the slots that `imports` and `symbols` give, behind all that there are. A refusal
    /// changes nothing.
    pub(crate) fn extend(
        &mut self,
        imports: Option<&Value>,
        symbols: Option<&Value>,
        catalog: &Catalog,
    ) -> Result<(), Reason>
        ensures adds { Adds (λ slots. extended catalog.now slots (option_copied imports.entry)
            (option_copied symbols.entry)) self.old self.new result }
        ensures unchanged { OnErr result (self.new ≡ self.old) }
    {
        let count = self.segments.len();
        let added = self.push_table(imports, symbols, catalog);
        if added.is_err() {
            self.truncate(count);
        }
        added
    }
}
