//! The reader that the first octet chooses.
ghost use Rattle.std.specs.Prelude.{◌≡◌, IfOk, IfErr};
ghost use Rattle.ion_symtab.specs.IsNew.{IsNew};
ghost use Rattle.ion_atoms.specs.declared.refusal.Reason.TheVariants.{Memory};

use crate::doc_walk::DocWalk;
use ion_model::{Reason, Refusal, Value};
use ion_symtab::{Catalog, Items, Limits, Step, Walked};
use ion_visiting::{Building, Visitor};
use std::alloc::Global;
use std::fmt::{self, Debug, Formatter};

/// A reader of a document of either encoding: binary if its first octet is E0 (Ion 1.0, "Ion Binary
/// Encoding", the binary version marker), text otherwise.
#[derive(Drop)]
pub struct DocReader<'a> {
    walk: DocWalk<'a>,
    /// Builds the values that steps give of what is told.
    build: Building,
}

impl Debug for DocReader<'_> {
    fn fmt<W: fmt::Write>(&self, f: &mut Formatter<W>) -> fmt::Result {
        f.debug_struct("DocReader").finish_non_exhaustive()
    }
}

impl<'a> DocReader<'a> {
    /// A reader of no octets yet; `Memory` where memory was refused.
    pub fn new(alloc: Global, catalog: &'a Catalog, limits: Limits) -> Result<DocReader<'a>, Reason>
        ensures is_new { IfOk result (IsNew ⟦<DocReader<'a> as Items>⟧ catalog.now limits) }
        ensures memory { IfErr result (λ reason. reason ≡ Memory) }
    {
        Ok(DocReader::unread(alloc, catalog, limits))
    }

    /// The same, which takes no memory yet.
    pub(crate) fn unread(alloc: Global, catalog: &'a Catalog, limits: Limits) -> DocReader<'a>
        ensures { IsNew ⟦<DocReader<'a> as Items>⟧ catalog.now limits result }
    {
        DocReader {
            walk: DocWalk::new(alloc, catalog, limits),
            build: Building::new(alloc),
        }
    }
}

impl Items for DocReader<'_> {
    ghost use Rattle.std.specs.Prelude.{List, ℕ, None};
    ghost use Rattle.ion_docs.specs.Documents.{Denotes, Pieces, OpenAfter};
    ghost use Rattle.ion_docs.specs.reading.Chosen.{chosen};
    ghost use Rattle.ion_docs.specs.reading.DocTold.{taken_of, failed_of, awaits_of, pending_of, kept_of};
    ghost use Rattle.ion_docs.specs.reading.DocStands.{DocStands, Told};
    ghost use Rattle.ion_docs.specs.laws.Documents.{one_document, one_shown, promised, document_pieces, whole_document, nodes_between};
    ghost use Rattle.ion_docs.specs.laws.Readers.{doc_counted, doc_not_failed, doc_not_refused, doc_given, doc_given_next, doc_bounded, doc_told, doc_nothing_told, doc_one_stands};

    ghost catalog = { λ r. r.walk.catalog.now };

    ghost limits = { λ r. r.walk.limits };

    ghost denotes = { Denotes };

    ghost pieces = { Pieces };

    ghost open_after = { OpenAfter };

    ghost trace = { chosen };

    ghost stands = { DocStands };

    ghost told = { Told };

    ghost taken = { λ r. taken_of r.walk };

    ghost failed = { λ r. failed_of r.walk };

    ghost awaits = { λ r. awaits_of r.walk };

    ghost pending = { λ r. pending_of r.walk };

    ghost kept = { λ r. kept_of r.walk };

    ghost counted = { doc_counted };

    ghost not_failed = { doc_not_failed };

    ghost not_refused = { doc_not_refused };

    ghost given_so_far = { doc_given };

    ghost given_with_next = { doc_given_next };

    ghost bounded = { doc_bounded };

    ghost has_told = { doc_told };

    ghost nothing_told = { doc_nothing_told };

    ghost one_stands = { doc_one_stands };

    ghost settled = { λ g l u. (promised g l u).settled };

    ghost exact = { λ g l u. (promised g l u).exact };

    ghost one_stream = { one_document };

    ghost refused = { λ g l u. (promised g l u).refused };

    ghost decided = { λ g l u. (promised g l u).decided };

    ghost documents_are_pieces = { document_pieces };

    ghost pieces_are_documents = { whole_document };

    ghost one_shown = { one_shown };

    ghost shown = { λ g l u. (promised g l u).shown };

    ghost unfinished = { λ g l u. (promised g l u).unfinished };

    ghost reasons = { λ g l u. (promised g l u).reasons };

    ghost small = { λ g l u. (promised g l u).small };

    ghost nodes_between = { nodes_between };

    ghost no_tables = { λ g l u. (promised g l u).no_tables };

    ghost ends_values = { λ g l u. (promised g l u).ends_values };

    fn step(&mut self, piece: &[u8]) -> Result<Step, Refusal> {
        self.walk.step(piece, &mut self.build)
    }

    #[inline(always)]
    fn walk<V: Visitor>(&mut self, piece: &[u8], visitor: &mut V) -> Result<Walked, Refusal> {
        self.walk.walk(piece, visitor)
    }

    fn finish_by<V: Visitor>(self, visitor: &mut V) -> Result<bool, Refusal> {
        let DocReader { walk, build } = self;
        drop(build);
        walk.finish_by(visitor)
    }

    fn finish(self) -> Result<Option<Value>, Refusal> {
        self.walk.finish(self.build)
    }

    fn held(&self) -> usize {
        self.walk.held()
    }
}
