//! The reader of text documents that gives values.
ghost use Rattle.std.specs.Prelude.{◌≡◌, IfOk, IfErr};
ghost use Rattle.ion_text.specs.Names.{Memory};
ghost use Rattle.ion_symtab.specs.IsNew.{IsNew};

use crate::walk::TextWalk;
use ion_model::{Reason, Refusal, Value};
use ion_symtab::{Catalog, Items, Limits, Step, Walked};
use ion_visiting::{Building, Visitor};
use std::alloc::Global;
use std::fmt::{self, Debug, Formatter};

/// A reader of a text document that comes in pieces (Ion 1.0, "Ion Text Encoding"): it builds the
/// values of which a `TextWalk` tells it.
///
/// It keeps what came of the value that is open, and the octets of the token that is open. Local
/// symbol tables change what symbol ids stand for and aren't given; a version marker sets that back
/// to the system symbols.
#[derive(Drop)]
pub struct TextReader<'a> {
    walk: TextWalk<'a>,
    build: Building,
}

impl Debug for TextReader<'_> {
    fn fmt<W: fmt::Write>(&self, f: &mut Formatter<W>) -> fmt::Result {
        f.debug_struct("TextReader").finish_non_exhaustive()
    }
}

impl<'a> TextReader<'a> {
    /// A reader of no octets yet, for a document within these limits that may import the shared
    /// tables of `catalog`. The only refusal is `Memory`.
    pub fn new(
        alloc: Global,
        catalog: &'a Catalog,
        limits: Limits,
    ) -> Result<TextReader<'a>, Reason>
        ensures is_new { IfOk result (IsNew ⟦<TextReader<'a> as Items>⟧ catalog.now limits) }
        ensures memory { IfErr result (λ reason. reason ≡ Memory) }
    {
        let walk = TextWalk::new(alloc, catalog, limits)?;
        Ok(TextReader {
            walk,
            build: Building::new(alloc),
        })
    }
}

impl Items for TextReader<'_> {
    ghost use Rattle.ion_text.specs.Grammar.{Document, OpenRest, Whole};
    ghost use Rattle.ion_text.specs.machine.Run.{trace};
    ghost use Rattle.ion_text.specs.machine.Pieces.{grows};
    ghost use Rattle.ion_text.specs.walk.Ends.{failed, octets_used};
    ghost use Rattle.ion_text.specs.walk.Builds.{HasBuilt};
    ghost use Rattle.ion_text.specs.walk.Runs.{Told, octets_kept, pending};
    ghost use Rattle.ion_text.specs.laws.reading.Promises.{exact, has_reasons, one_stream};
    ghost use Rattle.ion_text.specs.laws.reading.Stops.{decided, no_tables, unfinished};
    ghost use Rattle.ion_text.specs.laws.reading.small.Small.{is_small};
    ghost use Rattle.ion_text.specs.laws.reading.Tells.{nothing_told, one_stands, reader_told};
    ghost use Rattle.ion_text.specs.laws.showing.tokens.Alone.{document_pieces, whole_document};
    ghost use Rattle.ion_text.specs.laws.reading.small.Apart.{nodes_between};
    ghost use Rattle.ion_text.specs.laws.showing.tokens.Once.{one_shown};
    ghost use Rattle.ion_text.specs.laws.showing.shown.Given.{shown};
    ghost use Rattle.ion_text.specs.laws.showing.refused.Refusing.{refuses};
    ghost use Rattle.ion_text.specs.laws.showing.ended.AtItsEnd.{at_its_end};

    ghost catalog = { λ r. r.walk.catalog.now };

    ghost limits = { λ r. r.walk.limits };

    ghost denotes = { Document };

    ghost pieces = { Whole };

    ghost open_after = { λ l front rest. OpenRest l rest };

    ghost trace = { trace };

    ghost stands = { HasBuilt };

    ghost told = { λ r. Told r.walk };

    ghost taken = { λ r. octets_used r.walk };

    ghost failed = { λ r. failed r.walk };

    ghost awaits = { λ r. r.walk.awaited };

    ghost pending = { λ r. pending r.walk };

    ghost kept = { λ r. octets_kept r.walk };

    ghost counted = { λ r u s h. (reader_told r u s h.0 h.1).counted };

    ghost not_failed = { λ r u s h. (reader_told r u s h.0 h.1).not_failed };

    ghost not_refused = { λ r u s h. (reader_told r u s h.0 h.1).not_refused };

    ghost given_so_far = { λ r u s h. (reader_told r u s h.0 h.1).given_so_far };

    ghost given_with_next = { λ r u s h. (reader_told r u s h.0 h.1).given_with_next };

    ghost bounded = { λ r u s h. (reader_told r u s h.0 h.1).bounded };

    ghost has_told = { reader_told };

    ghost nothing_told = { nothing_told };

    ghost one_stands = { one_stands };

    ghost settled = { grows };

    ghost exact = { exact };

    ghost one_stream = { one_stream };

    ghost refused = { refuses };

    ghost decided = { decided };

    ghost documents_are_pieces = { document_pieces };

    ghost pieces_are_documents = { λ g l u following s h some. whole_document g l u following s h };

    ghost one_shown = { one_shown };

    ghost shown = { shown };

    ghost unfinished = { unfinished };

    ghost reasons = { has_reasons };

    ghost small = { is_small };

    ghost nodes_between = { nodes_between };

    ghost no_tables = { no_tables };

    ghost ends_values = { at_its_end };

    fn step(&mut self, piece: &[u8]) -> Result<Step, Refusal> {
        let before = self.walk.used();
        let Walked { used, ended } = self.walk.walk(piece, &mut self.build)?;
        if !ended {
            return Ok(Step { used, value: None });
        }
        match self.build.take() {
            Some(value) => Ok(Step {
                used,
                value: Some(value),
            }),
            None => Err(self.walk.run_out(before)),
        }
    }

    fn walk<V: Visitor>(&mut self, piece: &[u8], visitor: &mut V) -> Result<Walked, Refusal> {
        self.walk.walk(piece, visitor)
    }

    fn finish_by<V: Visitor>(self, visitor: &mut V) -> Result<bool, Refusal> {
        let TextReader { walk, build } = self;
        drop(build);
        walk.finish_by(visitor)
    }

    fn finish(self) -> Result<Option<Value>, Refusal> {
        let TextReader { walk, mut build } = self;
        let answer = walk.finish_by(&mut build);
        let value = build.take();
        drop(build);
        match answer {
            Ok(true) => Ok(value),
            Ok(false) => {
                drop(value);
                Ok(None)
            }
            Err(refusal) => {
                drop(value);
                Err(refusal)
            }
        }
    }

    fn held(&self) -> usize {
        self.walk.held()
    }
}
