//! Where the tables of a catalog stand, by name and version, so that none is gone through to find
//! one.
ghost use Rattle.std.specs.Prelude.{◌≡◌, ◌&&◌, ◌==◌, ℕ, List, None, Some, cond, OnOk, OnErr, IfOk, IfErr};
ghost use Rattle.std.specs.BTreeMap.{get};
ghost use Rattle.std.specs.Ordering.{nat_cmp};
ghost use Rattle.std.specs.Str.{bytes_eq};
ghost use Rattle.ion_symtab.specs.Names.{newest_of, place_of};
ghost use Rattle.ion_atoms.specs.declared.refusal.Reason.TheVariants as reasons;

use ion_model::Reason;
use std::alloc::Global;
use std::collections::BTreeMap;

// The places of the tables of one name, by version, and that of the newest.
#[derive(Drop)]
struct Versions {
    newest: usize,
    places: BTreeMap<u128, usize>,
}

/// The places of tables. Ordered maps, so no choice of names makes look-ups slow.
#[derive(Drop)]
pub(crate) struct Places {
    names: BTreeMap<String, Versions>,
}

impl Places {
    /// Of no tables; takes no memory.
    pub(crate) fn new(alloc: Global) -> Places
        ensures none { (name : List ℕ) (version : ℕ) → place_of result name version ≡ None }
        ensures no_name { (name : List ℕ) → newest_of result name ≡ None }
    {
        Places {
            names: BTreeMap::new(alloc),
        }
    }

    /// The place of the table of this name and version.
    pub(crate) fn place(&self, name: &str, version: u128) -> Option<usize>
        ensures { result ≡ place_of self.now name.now version }
    {
        match self.names.get(name) {
            None => None,
            Some(versions) => versions.places.get(&version).copied(),
        }
    }

    /// The place of the newest table of this name.
    pub(crate) fn newest(&self, name: &str) -> Option<usize>
        ensures { result ≡ newest_of self.now name.now }
    {
        match self.names.get(name) {
            None => None,
            Some(versions) => Some(versions.newest),
        }
    }

    /// Notes the place of a table, and that of the newest of its name. `Memory` leaves all as it
    /// was.
    pub(crate) fn add(
        &mut self,
        alloc: Global,
        name: &str,
        version: u128,
        place: usize,
        newest: usize,
    ) -> Result<(), Reason>
        ensures place { OnOk result ((q : List ℕ) (v : ℕ) → place_of self.new q v
            ≡ cond (bytes_eq name.now q && (version == v)) (Some place) (place_of self.old q v)) }
        ensures newest { OnOk result ((q : List ℕ) → newest_of self.new q
            ≡ cond (bytes_eq name.now q) (Some newest) (newest_of self.old q)) }
        ensures places_kept { OnErr result
            ((q : List ℕ) (v : ℕ) → place_of self.new q v ≡ place_of self.old q v) }
        ensures newest_kept { OnErr result
            ((q : List ℕ) → newest_of self.new q ≡ newest_of self.old q) }
        ensures memory { IfErr result (λ r. r ≡ reasons.Memory) }
    {
        match self.names.get_mut(name) {
            Some(versions) => {
                versions.add(version, place, newest)?;
            }
            None => {
                let versions = Versions::only(alloc, version, place, newest)?;
                let name = String::from_str(alloc, name)?;
                self.names.insert(name, versions)?;
            }
        }
        Ok(())
    }
}

impl Versions {
    // Of one table.
    fn only(alloc: Global, version: u128, place: usize, newest: usize) -> Result<Versions, Reason>
        ensures places { IfOk result (λ versions. (v : ℕ) → get nat_cmp versions.places v
            ≡ cond (version == v) (Some place) None) }
        ensures newest { IfOk result (λ versions. versions.newest ≡ newest) }
        ensures memory { IfErr result (λ r. r ≡ reasons.Memory) }
    {
        let mut places = BTreeMap::new(alloc);
        places.insert(version, place)?;
        Ok(Versions { newest, places })
    }

    // Notes one table more. `Memory` leaves all as it was.
    fn add(&mut self, version: u128, place: usize, newest: usize) -> Result<(), Reason>
        ensures places { OnOk result ((v : ℕ) → get nat_cmp self.new.places v
            ≡ cond (version == v) (Some place) (get nat_cmp self.old.places v)) }
        ensures newest { OnOk result (self.new.newest ≡ newest) }
        ensures places_kept { OnErr result
            ((v : ℕ) → get nat_cmp self.new.places v ≡ get nat_cmp self.old.places v) }
        ensures newest_kept { OnErr result (self.new.newest ≡ self.old.newest) }
        ensures memory { IfErr result (λ r. r ≡ reasons.Memory) }
    {
        self.places.insert(version, place)?;
        self.newest = newest;
        Ok(())
    }
}
