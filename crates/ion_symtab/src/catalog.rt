//! The shared symbol tables that documents may import (Ion 1.0, "Symbols", "Shared Symbol Tables").
ghost use Rattle.std.specs.Prelude.{◌≡◌, ◌⊎◌, [], ◌∷◌, ◌++◌, IfErr, OnOk, OnErr, IsSome, is_some, Option, option_copied};
ghost use Rattle.ion_atoms.specs.declared.refusal.Reason.TheVariants as reasons;
ghost use Rattle.ion_symtab.specs.laws.ContextTexts.{AreTextTables};
ghost use Rattle.ion_symtab.specs.Tables.{AreApart, find, find_best, newest};
ghost use Rattle.ion_symtab.specs.kept.Places.{table_at, newest_place};

use crate::catalog_index::Places;
use crate::shared_table::SharedTable;
use ion_model::Reason;
use std::alloc::Global;
use std::fmt::{self, Debug, Formatter};
use std::marker::Model;

/// Shared symbol tables, of which no two have the same name and version. Contracts see the tables
/// in the order in which they were added.
#[derive(Drop)]
pub struct Catalog {
    tables: Vec<SharedTable>,
    places: Places,
}

impl Debug for Catalog {
    fn fmt<W: fmt::Write>(&self, f: &mut Formatter<W>) -> fmt::Result {
        f.debug_struct("Catalog")
            .field("tables", &self.tables)
            .finish_non_exhaustive()
    }
}

impl Model for Catalog {
    ghost use Rattle.std.specs.Prelude.{List};
    ghost use Rattle.ion_symtab.specs.Tables.{Table};

    ghost Value = { List Table };

    ghost view = { λ c. c.tables.items };

    ghost use Rattle.ion_symtab.specs.kept.Places.{Indexes};
    ghost use Rattle.ion_symtab.specs.Tables.{AreApart};

    ghost invariant = { λ c. Indexes c.tables.items c.places × AreApart c.tables.items };
}

impl Catalog {
    /// A catalog of no tables; takes no memory.
    #[tactic(auto, using(crate::specs::laws::Tables::none_apart))]
    pub fn new(alloc: Global) -> Catalog
        ensures { result ≡ [] }
    {
        Catalog {
            tables: Vec::new(alloc),
            places: Places::new(alloc),
        }
    }

    /// Adds a table. `DuplicateTable` where one of its name and version is there already. A refusal
    /// hands the table back and changes nothing.
    pub fn add(&mut self, table: SharedTable) -> Result<(), (SharedTable, Reason)>
        ensures ok { OnOk result ((find self.old table.name table.version ≡ Option.None)
            × (self.new ≡ self.old ++ table ∷ [])) }
        ensures err { OnErr result (self.new ≡ self.old) }
        ensures handed_back { IfErr result (λ e. e.0 ≡ table) }
        ensures refused { IfErr result (λ e. (e.1 ≡ reasons.Memory)
            × (find self.old table.name table.version ≡ Option.None)
            ⊎ (e.1 ≡ reasons.DuplicateTable) × IsSome (find self.old table.name table.version)) }
    {
        if self.find(table.name(), table.version()).is_some() {
            return Err((table, Reason::DuplicateTable));
        }
        let alloc = *self.tables.allocator();
        let place = self.tables.len();
        let name = table.name();
        let newest = newest_place(self.places.newest(name), self.newest(name), &table, place);
        if self.tables.reserve(1).is_err() {
            return Err((table, Reason::Memory));
        }
        let version = table.version() as u128;
        match self.places.add(alloc, table.name(), version, place, newest) {
            Err(reason) => Err((table, reason)),
            Ok(()) => match self.tables.push(table) {
                Ok(()) => Ok(()),
                Err(failed) => Err((failed.value, Reason::Memory)),
            },
        }
    }

    /// What a catalog keeps about itself: its tables' texts are UTF-8, and under the name and
    /// version of each of its tables that table is found. Does nothing.
    pub fn kept(&self)
        ensures texts { AreTextTables self.now }
        ensures apart { AreApart self.now }
    {
        for table in &self.tables {
            table.kept();
        }
    }

    /// The table of this name and version. Takes no memory.
    pub fn find(&self, name: &str, version: u32) -> Option<&SharedTable>
        ensures { option_copied result ≡ find self.now name.now version }
    {
        self.exact(name, version as u128)
    }

    /// The table of this name and version, else that of the name with the greatest version. Takes
    /// no memory.
    pub fn find_best(&self, name: &str, version: u32) -> Option<&SharedTable>
        ensures { option_copied result ≡ find_best self.now name.now version }
    {
        match self.find(name, version) {
            Some(table) => Some(table),
            None => self.newest(name),
        }
    }

    /// The table of this name and version, which may be above all versions of tables.
    pub(crate) fn exact(&self, name: &str, version: u128) -> Option<&SharedTable>
        ensures { option_copied result ≡ find self.now name.now version }
    {
        self.at(self.places.place(name, version))
    }

    /// The table of this name with the greatest version.
    pub(crate) fn newest(&self, name: &str) -> Option<&SharedTable>
        ensures { option_copied result ≡ newest self.now name.now }
    {
        self.at(self.places.newest(name))
    }

    // The table at a place.
    fn at(&self, place: Option<usize>) -> Option<&SharedTable>
        ensures { option_copied result ≡ table_at self.now place }
    {
        match place {
            None => None,
            Some(place) => self.tables.as_slice().get(place),
        }
    }
}

// The place of the newest table of a name behind one more of that name, which stands at `place`;
// with the newest so far and its place.
fn newest_place(
    so_far: Option<usize>,
    best: Option<&SharedTable>,
    table: &SharedTable,
    place: usize,
) -> usize
    ensures { result ≡ newest_place so_far (option_copied best.entry) table.now place }
{
    match (so_far, best) {
        (Some(so_far), Some(best)) if table.version() <= best.version() => so_far,
        _ => place,
    }
}
