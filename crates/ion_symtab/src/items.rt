//! What every reader of documents promises.
ghost use Rattle.std.specs.Prelude.{◌≡◌, ℕ, ◌+◌, ◌≤◌, ◌<◌, ◌^◌, List, [], ◌∷◌, ◌++◌, length, take, Option, Result, IfOk, IfErr, IfSome, IsNone, ◌↔◌};
ghost use Rattle.ion_model.specs.declared.value.Value.{Value};
ghost use Rattle.ion_model.specs.Measures.{nodes};
ghost use Rattle.ion_atoms.specs.declared.refusal.Reason.TheVariants.{Memory};
ghost use Rattle.ion_symtab.specs.Trace.{Trace, Answers, Finishes, Grows, Streams, IsFront, plain, given_at};
ghost use Rattle.ion_symtab.specs.Steps.{StepsOver, RefusesBy};
ghost use Rattle.ion_symtab.specs.Walks.{EndsOn, HasTold, WalksOn, if_ended};
ghost use Rattle.ion_symtab.specs.Promises.{Refuses, IsFirst, HasPieces, Shown, Shows, IsSmall, HasReasons, GivesNoTable, EndsValues};

use ion_model::{Refusal, Value};
use ion_visiting::Visitor;

/// What one step used of its piece, and the value that it gave.
#[derive(Drop, Debug)]
pub struct Step {
    /// How many octets of the piece were used, from its first on: all of them where no value is
    /// given.
    pub used: usize,
    /// The next value of the document, if the last octet used ends it, or if the one behind that
    /// shows that it has ended.
    pub value: Option<Value>,
}

/// What a walk used of its piece, and whether it ended a value.
#[derive(Clone, Copy, Drop, Debug)]
pub struct Walked {
    /// How many octets of the piece were used, from its first on: all of them where no value ended.
    pub used: usize,
    /// Whether a value ended, with the last octet used or before the one behind that; the visitor
    /// was told all of it.
    pub ended: bool,
}

/// What a walk did, of which a reader knows the refusal. Unlike a `Result<Walked, Refusal>` it fits
/// in registers.
#[derive(Clone, Copy)]
pub enum Went {
    /// A value ended, behind so many octets of the piece.
    Ended(usize),
    /// The whole piece was used, and no value ended.
    Ran,
    /// It was refused.
    Refused,
}

/// A reader of documents, to which the octets come in pieces of any size.
///
/// Its values, its refusal and the totals of octets used at which the values come depend on the
/// octets alone, and not on how they are cut. Below, g is a catalog, l are limits, u are the octets
/// used so far, and s the values that they gave. A total or an offset counts octets from the
/// document's first. Octets that may follow are any numbers from 0 to 255.
pub trait Items: Sized {
    ghost use Rattle.ion_atoms.specs.declared.refusal.Refusal.{Refusal};
    ghost use Rattle.ion_symtab.specs.declared.catalog.Catalog.{Catalog};
    ghost use Rattle.ion_symtab.specs.declared.limits.Limits.{Limits};
    ghost use Rattle.ion_visiting.specs.Events.{Event};

    /// The shared tables under which the reader reads.
    ghost catalog: { Self → Catalog };

    /// The limits within which it reads.
    ghost limits: { Self → Limits };

    /// Under this catalog and within these limits the octets are a document of the reader's format,
    /// and these values its stream.
    ghost denotes: { Catalog → Limits → List ℕ → List Value → Type 0 };

    /// Under this catalog and within these limits the first octets, where the second follow them,
    /// are whole pieces at the front of a document: its marker, its items, what may stand between
    /// them. These values are their stream.
    ghost pieces: { Catalog → Limits → List ℕ → List ℕ → List Value → Type 0 };

    /// Within these limits and behind whole pieces, which come first, these octets may stand open:
    /// begun, not ended, and not longer than the format lets an open rest be.
    ghost open_after: { Limits → List ℕ → List ℕ → Type 0 };

    /// What the reader says of these octets under this catalog and within these limits, however
    /// they are cut: the values with their totals, the refusal of a step, and what the end answers.
    ghost trace: { Catalog → Limits → List ℕ → Trace };

    /// What the reader holds now is what it comes to hold by these octets, and these are the values
    /// that it gave with them, each with the total of octets used when it came.
    ghost stands: { Self → List ℕ → List (Value × ℕ) → Type 0 };

    /// What the reader holds now is what it comes to hold by these octets, of which these values
    /// ended, each with the total of octets used then, and these events are all that there is to
    /// tell so far of the value that is open.
    ghost told: { Self → List ℕ → List (Value × ℕ) → List Event → Type 0 };

    /// How many octets were used so far, by all steps together.
    ghost taken: { Self → ℕ };

    /// The refusal that it answered, if it answered one: each call answers it from then on.
    ghost failed: { Self → Option Refusal };

    /// The octet that showed the end of the value last given and wasn't used, if there is one: the
    /// next call is a step over a piece that begins with it.
    ghost awaits: { Self → Option ℕ };

    /// How many values may still come before another octet is used. An octet used adds 2 at most,
    /// so that a caller's calls end.
    ghost pending: { Self → ℕ };

    /// How many octets of the unfinished item are held, those of it that were let go among them.
    ghost kept: { Self → ℕ };

    /// Takes up octets of the piece, at most up to the end of the next value; without a value it
    /// used the whole piece.
    ///
    /// Where it answers `Ok`, with a value or without, the octets used so far aren't refused: they
    /// are whole pieces of a document and an open rest (`stands`, `not_refused`, `shown`).
    ///
    /// Where it refuses at offset n, the n-th octet of all that were handed in is one of the piece
    /// (`within`), no document within the limits and under the catalog begins with the first n
    /// octets, and the values given are those that these n octets show. `Memory` alone says nothing
    /// of the octets; its offset is the number of octets that earlier steps used. `Incomplete`,
    /// `DuplicateTable` and `BadTable` are no refusals of a step. After a refusal no octet is
    /// awaited, and each later call answers that refusal.
    ///
    /// A value may be given before the octet that showed its end, where that octet isn't part of
    /// it: then `used` doesn't count the octet, and the next piece has to begin with it. The step
    /// over that piece uses one octet at least, or refuses.
    ///
    /// The octets of all pieces together have to be fewer than 2^63. After a refusal any piece may
    /// be handed in.
    fn step(&mut self, piece: &[u8]) -> Result<Step, Refusal>
        requires room { IsNone (failed self.old) → taken self.old + length piece.now < 2 ^ 63 }
        requires begins { IfSome (awaits self.old) (λ octet.
            (rest : List ℕ) × (piece.now ≡ octet ∷ rest)) }
        ensures setting { (catalog self.new ≡ catalog self.old)
            × (limits self.new ≡ limits self.old) }
        ensures leaves { IfOk result (λ step. StepsOver taken pending awaits failed
            self.old self.new piece.now step.used step.value) }
        ensures stands { IfOk result (λ step. (u : List ℕ) (s : List (Value × ℕ)) →
            stands self.old u s → stands self.new (u ++ take step.used piece.now)
            (s ++ given_at step.value (length u + step.used))) }
        ensures answers { (u : List ℕ) (s : List (Value × ℕ)) → stands self.old u s →
            Answers (trace (catalog self.old) (limits self.old)) u s piece.now result }
        ensures refuses { IfErr result (RefusesBy taken pending awaits failed
            self.old self.new piece.now) }
        ensures again { IfSome (failed self.old) (λ refusal. result ≡ Result.Err refusal) };

    /// Takes up octets as `step` does, but builds no value: a visitor is told each, event by event,
    /// as its octets come. A reader is asked by `walk` or by `step`, not by both.
    ///
    /// What was told of the value that is open has to have been told to this visitor. `Memory` comes
    /// also where the visitor can't go on; then its state means nothing. So it does where it heeds a
    /// scalar of which octets were let go, since the visitor of an earlier call heeded kinds alone.
    fn walk<V: Visitor>(&mut self, piece: &[u8], visitor: &mut V) -> Result<Walked, Refusal>
        requires room { IsNone (failed self.old) → taken self.old + length piece.now < 2 ^ 63 }
        requires begins { IfSome (awaits self.old) (λ octet.
            (rest : List ℕ) × (piece.now ≡ octet ∷ rest)) }
        ensures setting { (catalog self.new ≡ catalog self.old)
            × (limits self.new ≡ limits self.old) }
        ensures leaves { IfOk result (λ walked. StepsOver taken pending awaits failed
            self.old self.new piece.now walked.used (if_ended walked.ended)) }
        ensures tells { IfOk result (λ walked.
            (u : List ℕ) (s : List (Value × ℕ)) (es : List Event) → told self.old u s es →
            WalksOn V.takes told u s es piece.now walked.used walked.ended
            self.new visitor.old visitor.new) }
        ensures answers { IfErr result (λ refusal.
            (u : List ℕ) (s : List (Value × ℕ)) (es : List Event) → told self.old u s es →
            Answers (trace (catalog self.old) (limits self.old)) u s piece.now
            (Result.Err refusal)) }
        ensures refuses { IfErr result (RefusesBy taken pending awaits failed
            self.old self.new piece.now) }
        ensures again { IfSome (failed self.old) (λ refusal. result ≡ Result.Err refusal) };

    /// Ends the octets as `finish` does: whether a value ended that only the end shows to be whole,
    /// of which the visitor was told all then.
    fn finish_by<V: Visitor>(self, visitor: &mut V) -> Result<bool, Refusal>
        requires { IsNone (awaits self) }
        ensures ends { (u : List ℕ) (s : List (Value × ℕ)) (es : List Event) → told self u s es →
            EndsOn V.takes (trace (catalog self) (limits self) u) es
            result visitor.old visitor.new }
        ensures memory { IfErr result (λ refusal. refusal.reason ≡ Memory → IsNone (failed self) →
            refusal.offset ≡ taken self) }
        ensures again { IfSome (failed self) (λ refusal. result ≡ Result.Err refusal) };

    /// Ends the octets: the value that only the end shows to be whole, if there is one, or the
    /// refusal of octets that are no document.
    ///
    /// A refusal's offset is the number of octets used, or that of the step that refused before.
    /// `Memory` alone doesn't say that the octets are no document. An octet that the reader awaits
    /// has to be handed in before.
    fn finish(self) -> Result<Option<Value>, Refusal>
        requires { IsNone (awaits self) }
        ensures ends { (u : List ℕ) (s : List (Value × ℕ)) → stands self u s →
            Finishes (trace (catalog self) (limits self)) u result }
        ensures memory { IfErr result (λ refusal. refusal.reason ≡ Memory → IsNone (failed self) →
            refusal.offset ≡ taken self) }
        ensures again { IfSome (failed self) (λ refusal. result ≡ Result.Err refusal) };

    /// How many octets of the unfinished item are kept, at most as many as the limit on items
    /// allows, with those that were let go since the visitor heeds kinds alone. The octet with
    /// which the next piece has to begin isn't counted.
    fn held(&self) -> usize
        ensures { result ≡ kept self.now };

    /// As many octets were used as the reader stands for.
    ghost counted: { (r : Self) (u : List ℕ) (s : List (Value × ℕ)) → stands r u s →
        taken r ≡ length u };

    /// A reader that stands for octets has refused nothing.
    ghost not_failed: { (r : Self) (u : List ℕ) (s : List (Value × ℕ)) → stands r u s →
        failed r ≡ Option.None };

    /// No step over these octets refuses: so they are whole pieces and an open rest (`shown`), also
    /// behind a step that gave a value.
    ghost not_refused: { (r : Self) (u : List ℕ) (s : List (Value × ℕ)) → stands r u s →
        (trace (catalog r) (limits r) u).refused ≡ Option.None };

    /// Unless it awaits an octet, it gave all the values that the trace gives.
    ghost given_so_far: { (r : Self) (u : List ℕ) (s : List (Value × ℕ)) → stands r u s →
        IsNone (awaits r) → (trace (catalog r) (limits r) u).given ≡ s };

    /// Where it awaits an octet, the values that it gave are the first that the trace gives once
    /// that octet is there.
    ghost given_with_next: { (r : Self) (u : List ℕ) (s : List (Value × ℕ)) → stands r u s →
        IfSome (awaits r) (λ octet.
        IsFront s (trace (catalog r) (limits r) (u ++ octet ∷ [])).given) };

    /// No more octets are kept than an item may have.
    ghost bounded: { (r : Self) (u : List ℕ) (s : List (Value × ℕ)) → stands r u s →
        kept r ≤ (limits r).item };

    /// All that is so of a reader that stands for octets is so of one that told what they are.
    ghost has_told: { (r : Self) (u : List ℕ) (s : List (Value × ℕ)) (es : List Event) →
        told r u s es → HasTold taken kept failed awaits (trace (catalog r) (limits r))
        (limits r).item r u s };

    /// A reader that stands for no octets has told nothing.
    ghost nothing_told: { (r : Self) → stands r [] [] → told r [] [] [] };

    /// Where a reader told what octets are, one stands for them: it may have built what was told.
    ghost one_stands: { (r : Self) (u : List ℕ) (s : List (Value × ℕ)) (es : List Event) →
        told r u s es → (q : Self) × stands q u s × (catalog q ≡ catalog r)
        × (limits q ≡ limits r) };

    /// Octets that follow take nothing back: what was given stays given, and behind a refusal
    /// nothing changes.
    ghost settled: { (g : Catalog) (l : Limits) (u w : List ℕ) →
        Grows (trace g l u) (trace g l (u ++ w)) };

    /// The end accepts octets exactly where they are a document, and its stream is the values given
    /// with the one that the end gave.
    ghost exact: { (g : Catalog) (l : Limits) (u : List ℕ) (s : List Value) →
        Streams (trace g l u) s ↔ denotes g l u s };

    /// A document has one stream.
    ghost one_stream: { (g : Catalog) (l : Limits) (u : List ℕ) (s t : List Value) →
        denotes g l u s → denotes g l u t → s ≡ t };

    /// Where a step refuses at offset n, no document begins with the first n octets, the values
    /// given are those that these n octets show, and the end repeats the refusal.
    ghost refused: { (g : Catalog) (l : Limits) (u : List ℕ) (r : Refusal) →
        (trace g l u).refused ≡ Option.Some r →
        Refuses (denotes g l) (pieces g l) u (trace g l u) r };

    /// A refusal names the octet that decides: the octets up to it are refused so by themselves,
    /// and no step refuses a shorter front of them.
    ghost decided: { (g : Catalog) (l : Limits) (u : List ℕ) (r : Refusal) →
        (trace g l u).refused ≡ Option.Some r → IsFirst (trace g l) u r };

    /// A document is whole pieces with its values, and behind them at most what may stand open
    /// there: in text a comment that the end of the octets ends.
    ghost documents_are_pieces: { (g : Catalog) (l : Limits) (u : List ℕ) (s : List Value) →
        denotes g l u s → HasPieces (pieces g l) (open_after l) u s };

    /// Whole pieces, if they have an octet, are a document by themselves, whatever follows them
    /// where they stand.
    ghost pieces_are_documents: { (g : Catalog) (l : Limits) (u following : List ℕ)
        (s : List Value) → pieces g l u following s → 0 < length u → denotes g l u s };

    /// Octets show one stream.
    ghost one_shown: { (g : Catalog) (l : Limits) (u : List ℕ) (s t : List Value) →
        Shown (pieces g l) u s → Shown (pieces g l) u t → s ≡ t };

    /// Where no step refuses, the values given are those that the octets show: the values of the
    /// longest whole pieces at their front that stay such whatever octets follow. What is left
    /// stands open.
    ghost shown: { (g : Catalog) (l : Limits) (u : List ℕ) →
        (trace g l u).refused ≡ Option.None →
        Shows (pieces g l) (open_after l) u (plain (trace g l u).given) };

    /// Where no step refuses and the end does, its offset is the number of all octets.
    ghost unfinished: { (g : Catalog) (l : Limits) (u : List ℕ) (r : Refusal) →
        (trace g l u).refused ≡ Option.None → (trace g l u).ends ≡ Result.Err r →
        r.offset ≡ length u };

    /// No step and no end refuses with `DuplicateTable` or `BadTable`, nor octets with `Memory`.
    /// `Incomplete` comes from the end alone (`refused`).
    ghost reasons: { (g : Catalog) (l : Limits) (u : List ℕ) → HasReasons (trace g l u) };

    /// A value has at most as many nodes as octets were used since the value before it came, and at
    /// most as many as the limit on items allows octets.
    ghost small: { (g : Catalog) (l : Limits) (u : List ℕ) → IsSmall l.item u (trace g l u) };

    /// A value has at most as many nodes as its own item has octets: wherever whole pieces with the
    /// values before it end, and whole pieces with it, its item stands between.
    ghost nodes_between: { (g : Catalog) (l : Limits) (front span behind : List ℕ)
        (before : List Value) (v : Value) → pieces g l front (span ++ behind) before →
        pieces g l (front ++ span) behind (before ++ v ∷ []) → nodes v ≤ length span };

    /// A local symbol table where one may stand is no value: it changes what symbol ids stand for.
    ghost no_tables: { (g : Catalog) (l : Limits) (u : List ℕ) → GivesNoTable (trace g l u) };

    /// A value comes with its last octet, or before the one that shows its end: where the end of
    /// the octets would give a value, the first that the next octet gives is that value, and came
    /// before that octet.
    ghost ends_values: { (g : Catalog) (l : Limits) (u : List ℕ) → EndsValues (trace g l) u };
}
