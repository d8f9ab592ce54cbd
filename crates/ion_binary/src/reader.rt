//! The reader of binary documents that builds their values.
ghost use Rattle.std.specs.Prelude.{◌≡◌, IfOk, IfErr};
ghost use Rattle.ion_binary.specs.Names.{Memory};
ghost use Rattle.ion_symtab.specs.IsNew.{IsNew};

use crate::walking::BinaryWalk;
use ion_model::{Reason, Refusal, Value};
use ion_symtab::{Catalog, Items, Limits, Step, Walked};
use ion_visiting::{Building, Visitor};
use std::alloc::Global;
use std::fmt::{self, Debug, Formatter};

/// A reader of a binary document that comes in pieces (Ion 1.0, "Ion Binary Encoding").
///
/// It reads values of every type but floats, which are refused at their descriptor. It keeps the
/// value that is open, and the octets of one scalar: a length that goes beyond its container or the
/// limit on items is refused before any octet of what it counts. Local symbol tables change what
/// symbol ids stand for and aren't given; a version marker sets that back to the system symbols.
#[derive(Drop)]
pub struct BinaryReader<'a> {
    walk: BinaryWalk<'a>,
    /// Builds the values that steps give of what is told.
    build: Building,
}

impl Debug for BinaryReader<'_> {
    fn fmt<W: fmt::Write>(&self, f: &mut Formatter<W>) -> fmt::Result {
        f.debug_struct("BinaryReader").finish_non_exhaustive()
    }
}

impl<'a> BinaryReader<'a> {
    /// A reader of no octets yet, for a document within these limits that may import the shared
    /// tables of `catalog`. The only refusal is `Memory`.
    pub fn new(
        alloc: Global,
        catalog: &'a Catalog,
        limits: Limits,
    ) -> Result<BinaryReader<'a>, Reason>
        ensures is_new { IfOk result (IsNew ⟦<BinaryReader<'a> as Items>⟧ catalog.now limits) }
        ensures memory { IfErr result (λ reason. reason ≡ Memory) }
    {
        Ok(BinaryReader {
            walk: BinaryWalk::new(alloc, catalog, limits)?,
            build: Building::new(alloc),
        })
    }
}

impl Items for BinaryReader<'_> {
    ghost use Rattle.std.specs.Prelude.{None};
    ghost use Rattle.ion_binary.specs.Grammar.{Document, Whole, OpenRest};
    ghost use Rattle.ion_binary.specs.machine.Run.{trace};
    ghost use Rattle.ion_binary.specs.Reading.{Stands};
    ghost use Rattle.ion_binary.specs.walking.Runs.{Told, failed, kept, taken};
    ghost use Rattle.ion_binary.specs.laws.reading.Promises.{exact, one_stream, one_shown, refused, decided, documents_are_pieces, pieces_are_documents, shown, unfinished, reasons, small, grows, no_tables, ends_values};
    ghost use Rattle.ion_binary.specs.laws.reading.Apart.{nodes_between};
    ghost use Rattle.ion_binary.specs.laws.reading.Standing.{stood, has_told, nothing_told, one_stands};

    ghost catalog = { λ r. r.walk.catalog.now };

    ghost limits = { λ r. r.walk.limits };

    ghost denotes = { Document };

    ghost pieces = { λ g l front following s. Whole g l front s };

    ghost open_after = { λ l front rest. OpenRest l rest };

    ghost trace = { trace };

    ghost stands = { Stands };

    ghost told = { λ r. Told r.walk };

    ghost taken = { λ r. taken r.walk };

    ghost failed = { λ r. failed r.walk };

    ghost awaits = { λ _. None };

    ghost pending = { λ _. 0 };

    ghost kept = { λ r. kept r.walk };

    ghost counted = { λ r u s h. (stood r u s h).counted };

    ghost not_failed = { λ r u s h. (stood r u s h).not_failed };

    ghost not_refused = { λ r u s h. (stood r u s h).not_refused };

    ghost given_so_far = { λ r u s h none. (stood r u s h).given_so_far none };

    ghost given_with_next = { λ r u s h. tt };

    ghost bounded = { λ r u s h. (stood r u s h).bounded };

    ghost has_told = { has_told };

    ghost nothing_told = { nothing_told };

    ghost one_stands = { one_stands };

    ghost settled = { grows };

    ghost exact = { exact };

    ghost one_stream = { one_stream };

    ghost refused = { refused };

    ghost decided = { decided };

    ghost documents_are_pieces = { documents_are_pieces };

    ghost pieces_are_documents = { pieces_are_documents };

    ghost one_shown = { one_shown };

    ghost shown = { shown };

    ghost unfinished = { unfinished };

    ghost reasons = { reasons };

    ghost small = { small };

    ghost nodes_between = { λ g l front span behind. nodes_between g l front span };

    ghost no_tables = { no_tables };

    ghost ends_values = { ends_values };

    fn step(&mut self, piece: &[u8]) -> Result<Step, Refusal> {
        let before = self.walk.used();
        let Walked { used, ended } = self.walk.walk(piece, &mut self.build)?;
        if !ended {
            return Ok(Step { used, value: None });
        }
        match self.build.take() {
            Some(value) => Ok(Step {
                used,
                value: Some(value),
            }),
            None => Err(self.walk.run_out(before)),
        }
    }

    #[inline(always)]
    fn walk<V: Visitor>(&mut self, piece: &[u8], visitor: &mut V) -> Result<Walked, Refusal> {
        self.walk.walk(piece, visitor)
    }

    fn finish_by<V: Visitor>(self, visitor: &mut V) -> Result<bool, Refusal> {
        let BinaryReader { walk, build } = self;
        drop(build);
        walk.finish_by(visitor)
    }

    fn finish(self) -> Result<Option<Value>, Refusal> {
        let BinaryReader { walk, build } = self;
        let mut built = build;
        let answer = walk.finish_by(&mut built);
        drop(built);
        match answer {
            Ok(_) => Ok(None),
            Err(refusal) => Err(refusal),
        }
    }

    fn held(&self) -> usize {
        self.walk.held()
    }
}
