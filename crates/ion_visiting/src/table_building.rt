//! The visitor that builds what counts of a local symbol table.
ghost use Rattle.std.specs.Prelude.{◌≡◌, ◌+◌, IfSome, option_map, true};
ghost use Rattle.ion_visiting.specs.Building.{value_in, without_value};
ghost use Rattle.ion_visiting.specs.Skims.{counts_in_table, field_begun, is_skipped, named, none_yet, place_closed, place_opened};

use crate::bracket::Bracket;
use crate::building::Building;
use crate::part::Part;
use crate::visitor::Visitor;
use ion_model::{Symbol, Value};
use ion_scalar::Number;
use std::alloc::Global;

/// Where what is told of a local symbol table stands.
#[derive(Clone, Copy)]
pub(crate) enum Place {
    /// The top level.
    Around,
    /// A field of the table that counts, or none yet.
    Fields,
    /// In one that counts, with so many containers around the innermost that is open there.
    Within(usize),
    /// In one that is open content, with so many containers open there.
    Skipping(usize),
}

/// The visitor that builds a local symbol table without its open content: of its fields only those
/// named `imports` or `symbols` (Ion 1.0, "Symbols", "Local Symbol Tables").
///
/// It answers `false` where memory was refused.
#[derive(Drop)]
pub(crate) struct TableBuilding {
    building: Building,
    place: Place,
}

// Whether a field of this name counts.
fn counts(name: Option<&str>) -> bool
    ensures { result ≡ counts_in_table (option_map (λ t. t.now) name.entry) }
{
    match name {
        Some(text) => text == "imports" || text == "symbols",
        None => false,
    }
}

// Where a field begins that counts, or else is open content.
fn field_begun(counts: bool) -> Place
    ensures { result ≡ field_begun counts }
{
    if counts {
        return Place::Fields;
    }
    Place::Skipping(0)
}

impl Place {
    fn is_skipped(self) -> bool
        ensures { result ≡ is_skipped self }
    {
        match self {
            Place::Skipping(_) => true,
            Place::Around | Place::Fields | Place::Within(_) => false,
        }
    }

    // Behind a name.
    fn named(self, counts: bool) -> Place
        ensures { result ≡ named self counts }
    {
        match self {
            Place::Fields => field_begun(counts),
            Place::Skipping(0) => field_begun(counts),
            other => other,
        }
    }

    // Behind the front of a container.
    fn opened(self) -> Option<Place>
        ensures { IfSome result (λ place. place ≡ place_opened self) }
    {
        match self {
            Place::Around => Some(Place::Fields),
            Place::Fields => Some(Place::Within(0)),
            Place::Within(count) => Some(Place::Within(count.checked_add(1)?)),
            Place::Skipping(count) => Some(Place::Skipping(count.checked_add(1)?)),
        }
    }

    // Behind the end of one.
    fn closed(self) -> Place
        ensures { result ≡ place_closed self }
    {
        match self {
            Place::Around => Place::Around,
            Place::Fields => Place::Around,
            Place::Within(0) => Place::Fields,
            Place::Within(count) => Place::Within(count - 1),
            Place::Skipping(0) => Place::Around,
            Place::Skipping(count) => Place::Skipping(count - 1),
        }
    }
}

impl TableBuilding {
    /// Nothing yet. Takes no memory.
    pub(crate) fn new(alloc: Global) -> TableBuilding
        ensures { result ≡ none_yet }
    {
        TableBuilding {
            building: Building::new(alloc),
            place: Place::Around,
        }
    }

    /// The value of the top level that was told last, if it came whole and wasn't taken.
    #[inline(always)]
    pub(crate) fn take(&mut self) -> Option<Value>
        ensures value { result ≡ value_in self.old.building.place }
        ensures left { self.new ≡ record self.old {
          building =
              record self.old.building { place = without_value self.old.building.place };
        } }
    {
        self.building.take()
    }

    // Whether what stands here is open content.
    fn skips(&self) -> bool
        ensures { result ≡ is_skipped self.now.place }
    {
        self.place.is_skipped()
    }
}

impl Visitor for TableBuilding {
    ghost use Rattle.ion_visiting.specs.Skims.{skims};

    ghost takes = { skims };

    fn part(&mut self, said: &Part<'_>) -> bool {
        self.skips() || self.building.part(said)
    }

    fn number(&mut self, number: Number) -> bool {
        self.skips() || self.building.number(number)
    }

    fn unknown_symbol(&mut self) -> bool {
        self.skips() || self.building.unknown_symbol()
    }

    fn symbol(&mut self, symbol: &Symbol) -> bool {
        self.skips() || self.building.symbol(symbol)
    }

    fn annotation(&mut self, text: Option<&str>) -> bool {
        self.skips() || self.building.annotation(text)
    }

    fn symbol_annotation(&mut self, symbol: &Symbol) -> bool {
        self.skips() || self.building.symbol_annotation(symbol)
    }

    fn name(&mut self, text: Option<&str>) -> bool {
        self.place = self.place.named(counts(text));
        self.skips() || self.building.name(text)
    }

    fn symbol_name(&mut self, symbol: &Symbol) -> bool {
        self.place = self.place.named(counts(symbol.text()));
        self.skips() || self.building.symbol_name(symbol)
    }

    fn open(&mut self, bracket: Bracket) -> bool {
        let Some(place) = self.place.opened() else {
            return false;
        };
        self.place = place;
        self.skips() || self.building.open(bracket)
    }

    fn close(&mut self, bracket: Bracket) -> bool {
        self.place = self.place.closed();
        self.skips() || self.building.close(bracket)
    }

    fn ended(&mut self) -> bool {
        self.skips() || self.building.ended()
    }
}
