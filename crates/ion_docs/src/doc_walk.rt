//! The reader that the first octet chooses, without values.
ghost use Rattle.std.specs.Prelude.{◌≡◌, ℕ, ◌+◌, ◌^◌, ◌<◌, List, [], ◌∷◌, ◌++◌, length, take, Option, Result, IfOk, IfErr, IfSome, IsNone};
ghost use Rattle.ion_docs.specs.Names.{Answers, DocTold, EndsOn, Event, Finishes, HasBuilt, RefusesBy, StepsOver, Value as AnyValue, WalksOn, awaits_of, chosen, failed_of, given_at, if_ended, kept_of, pending_of, taken_of};
ghost use Rattle.ion_atoms.specs.declared.refusal.Reason.TheVariants.{Memory};

use ion_binary::BinaryWalk;
use ion_model::{Reason, Refusal, Value};
use ion_symtab::{Catalog, Limits, Step, Walked};
use ion_text::TextWalk;
use ion_visiting::{Building, Visitor};
use std::alloc::Global;
use std::mem;

/// The first octet of a binary document, and of no text.
pub(crate) const BINARY: u8 = 0xE0;

/// What the octets so far are read as.
#[derive(Drop)]
pub(crate) enum Encoding<'a> {
    /// No octet has come.
    Unbegun,
    Refused(Refusal),
    Binary(BinaryWalk<'a>),
    Text(TextWalk<'a>),
}

/// A reader of a document of either encoding, which tells a visitor its values: binary if its first
/// octet is E0 (Ion 1.0, "Ion Binary Encoding", the binary version marker), text otherwise.
#[derive(Drop)]
pub(crate) struct DocWalk<'a> {
    alloc: Global,
    catalog: &'a Catalog,
    limits: Limits,
    encoding: Encoding<'a>,
}

impl<'a> DocWalk<'a> {
    /// A reader of no octets yet.
    pub(crate) fn new(alloc: Global, catalog: &'a Catalog, limits: Limits) -> DocWalk<'a>
        ensures told { DocTold result [] [] [] }
        ensures setting { (result.catalog.now ≡ catalog.now) × (result.limits ≡ limits) }
        ensures taken { taken_of result ≡ 0 }
        ensures failed { failed_of result ≡ Option.None }
        ensures awaits { awaits_of result ≡ Option.None }
        ensures pending { pending_of result ≡ 0 }
    {
        DocWalk {
            alloc,
            catalog,
            limits,
            encoding: Encoding::Unbegun,
        }
    }

    /// Reads octets so from now on.
    fn go_on(&mut self, encoding: Encoding<'a>)
        ensures { self.new ≡ record self.old { encoding = encoding.entry } }
    {
        drop(mem::replace(&mut self.encoding, encoding));
    }

    /// Refuses from now on, behind so many octets: there was no memory.
    fn run_out(&mut self, used: u64) -> Refusal
        ensures refusal { result ≡ record { offset = used; reason = Memory } }
        ensures kept { self.new ≡ record self.old { encoding = Encoding.Refused result } }
    {
        let refusal = Refusal {
            offset: used,
            reason: Reason::Memory,
        };
        self.go_on(Encoding::Refused(refusal));
        refusal
    }

    /// Takes up the first octets, by the reader that the first of them chooses.
    #[inline(never)]
    fn begin<V: Visitor>(&mut self, piece: &[u8], visitor: &mut V) -> Result<Walked, Refusal>
        requires unbegun { self.old.encoding ≡ Encoding.Unbegun }
        requires room { length piece.now < 2 ^ 63 }
        ensures setting { (self.new.catalog.now ≡ self.old.catalog.now)
            × (self.new.limits ≡ self.old.limits) }
        ensures leaves { IfOk result (λ walked. StepsOver taken_of pending_of awaits_of failed_of
            self.old self.new piece.now walked.used (if_ended walked.ended)) }
        ensures tells { IfOk result (λ walked.
            (u : List ℕ) (s : List (AnyValue × ℕ)) (es : List Event) → DocTold self.old u s es →
            WalksOn V.takes DocTold u s es piece.now walked.used walked.ended
            self.new visitor.old visitor.new) }
        ensures answers { IfErr result (λ refusal.
            (u : List ℕ) (s : List (AnyValue × ℕ)) (es : List Event) → DocTold self.old u s es →
            Answers (chosen self.old.catalog.now self.old.limits) u s piece.now
            (Result.Err refusal)) }
        ensures refuses { IfErr result (RefusesBy taken_of pending_of awaits_of failed_of
            self.old self.new piece.now) }
    {
        match piece.first() {
            None => Ok(Walked {
                used: 0,
                ended: false,
            }),
            Some(&BINARY) => match BinaryWalk::new(self.alloc, self.catalog, self.limits) {
                Err(_) => Err(self.run_out(0)),
                Ok(mut walk) => {
                    let result = walk.walk(piece, visitor);
                    self.go_on(Encoding::Binary(walk));
                    result
                }
            },
            Some(_) => match TextWalk::new(self.alloc, self.catalog, self.limits) {
                Err(_) => Err(self.run_out(0)),
                Ok(mut walk) => {
                    let result = walk.walk(piece, visitor);
                    self.go_on(Encoding::Text(walk));
                    result
                }
            },
        }
    }
}

impl DocWalk<'_> {
    /// Takes up the octets of a piece up to the end of the next value, as `Items::walk` does.
    #[inline(always)]
    pub(crate) fn walk<V: Visitor>(
        &mut self,
        piece: &[u8],
        visitor: &mut V,
    ) -> Result<Walked, Refusal>
        requires room { IsNone (failed_of self.old) →
            taken_of self.old + length piece.now < 2 ^ 63 }
        requires begins { IfSome (awaits_of self.old) (λ octet.
            (rest : List ℕ) × (piece.now ≡ octet ∷ rest)) }
        ensures setting { (self.new.catalog.now ≡ self.old.catalog.now)
            × (self.new.limits ≡ self.old.limits) }
        ensures leaves { IfOk result (λ walked. StepsOver taken_of pending_of awaits_of failed_of
            self.old self.new piece.now walked.used (if_ended walked.ended)) }
        ensures tells { IfOk result (λ walked.
            (u : List ℕ) (s : List (AnyValue × ℕ)) (es : List Event) → DocTold self.old u s es →
            WalksOn V.takes DocTold u s es piece.now walked.used walked.ended
            self.new visitor.old visitor.new) }
        ensures answers { IfErr result (λ refusal.
            (u : List ℕ) (s : List (AnyValue × ℕ)) (es : List Event) → DocTold self.old u s es →
            Answers (chosen self.old.catalog.now self.old.limits) u s piece.now
            (Result.Err refusal)) }
        ensures refuses { IfErr result (RefusesBy taken_of pending_of awaits_of failed_of
            self.old self.new piece.now) }
        ensures again { IfSome (failed_of self.old) (λ refusal. result ≡ Result.Err refusal) }
    {
        match &mut self.encoding {
            Encoding::Text(walk) => walk.walk(piece, visitor),
            Encoding::Binary(walk) => walk.walk(piece, visitor),
            Encoding::Refused(refusal) => Err(*refusal),
            Encoding::Unbegun => self.begin(piece, visitor),
        }
    }

    /// Ends the octets, as `Items::finish_by` does.
    pub(crate) fn finish_by<V: Visitor>(self, visitor: &mut V) -> Result<bool, Refusal>
        requires { IsNone (awaits_of self) }
        ensures ends { (u : List ℕ) (s : List (AnyValue × ℕ)) (es : List Event) →
            DocTold self.entry u s es →
            EndsOn V.takes (chosen self.entry.catalog.now self.entry.limits u) es
            result visitor.old visitor.new }
        ensures memory { IfErr result (λ refusal. refusal.reason ≡ Memory →
            IsNone (failed_of self.entry) → refusal.offset ≡ taken_of self.entry) }
        ensures again { IfSome (failed_of self.entry) (λ refusal. result ≡ Result.Err refusal) }
    {
        match self.encoding {
            Encoding::Unbegun => Ok(false),
            Encoding::Refused(refusal) => Err(refusal),
            Encoding::Binary(walk) => walk.finish_by(visitor),
            Encoding::Text(walk) => walk.finish_by(visitor),
        }
    }

    /// How many octets were used.
    fn used(&self) -> u64
        ensures { result ≡ taken_of self.now }
    {
        match &self.encoding {
            Encoding::Unbegun => 0,
            Encoding::Refused(_) => 0,
            Encoding::Binary(walk) => walk.used(),
            Encoding::Text(walk) => walk.used(),
        }
    }

    /// How many octets of what is open are kept.
    pub(crate) fn held(&self) -> usize
        ensures { result ≡ kept_of self.now }
    {
        match &self.encoding {
            Encoding::Unbegun => 0,
            Encoding::Refused(_) => 0,
            Encoding::Binary(walk) => walk.held(),
            Encoding::Text(walk) => walk.held(),
        }
    }
}

impl DocWalk<'_> {
    /// Takes up the octets of a piece up to the end of the next value, which is built, as
    /// `Items::step` does.
    pub(crate) fn step(&mut self, piece: &[u8], build: &mut Building) -> Result<Step, Refusal>
        requires room { IsNone (failed_of self.old) →
            taken_of self.old + length piece.now < 2 ^ 63 }
        requires begins { IfSome (awaits_of self.old) (λ octet.
            (rest : List ℕ) × (piece.now ≡ octet ∷ rest)) }
        ensures setting { (self.new.catalog.now ≡ self.old.catalog.now)
            × (self.new.limits ≡ self.old.limits) }
        ensures leaves { IfOk result (λ step. StepsOver taken_of pending_of awaits_of failed_of
            self.old self.new piece.now step.used step.value) }
        ensures stands { IfOk result (λ step. (u : List ℕ) (s : List (AnyValue × ℕ)) →
            HasBuilt self.old build.old u s → HasBuilt self.new build.new
            (u ++ take step.used piece.now) (s ++ given_at step.value (length u + step.used))) }
        ensures answers { IfErr result (λ refusal. (u : List ℕ) (s : List (AnyValue × ℕ)) →
            HasBuilt self.old build.old u s →
            Answers (chosen self.old.catalog.now self.old.limits) u s piece.now
            (Result.Err refusal)) }
        ensures refuses { IfErr result (RefusesBy taken_of pending_of awaits_of failed_of
            self.old self.new piece.now) }
        ensures again { IfSome (failed_of self.old) (λ refusal. result ≡ Result.Err refusal) }
    {
        let before = self.used();
        let Walked { used, ended } = self.walk(piece, build)?;
        if !ended {
            return Ok(Step { used, value: None });
        }
        match build.take() {
            Some(value) => Ok(Step {
                used,
                value: Some(value),
            }),
            None => Err(self.run_out(before)),
        }
    }

    /// Ends the octets, as `Items::finish` does: the value that only the end shows to be whole.
    pub(crate) fn finish(self, build: Building) -> Result<Option<Value>, Refusal>
        requires { IsNone (awaits_of self) }
        ensures ends { (u : List ℕ) (s : List (AnyValue × ℕ)) → HasBuilt self.entry build u s →
            Finishes (chosen self.entry.catalog.now self.entry.limits) u result }
        ensures memory { IfErr result (λ refusal. refusal.reason ≡ Memory →
            IsNone (failed_of self.entry) → refusal.offset ≡ taken_of self.entry) }
        ensures again { IfSome (failed_of self.entry) (λ refusal. result ≡ Result.Err refusal) }
    {
        let mut built = build;
        let answer = self.finish_by(&mut built);
        let value = built.take();
        drop(built);
        match answer {
            Ok(true) => Ok(value),
            Ok(false) => {
                drop(value);
                Ok(None)
            }
            Err(refusal) => {
                drop(value);
                Err(refusal)
            }
        }
    }
}
