//! Before the first octet, and the end of the octets.
ghost use Rattle.std.specs.Prelude.{◌≡◌, ℕ, List, Result, Option, Ok, Err, IfErr, IfOk, IfSome, IsNone};
ghost use Rattle.ion_text.specs.Names.{Begins, EndedSo, EndsOn, Event, FinishedSo, Frame, Holds, IsFine, Lexeme, Memory, Reason, Symbols, Told, Value as AnyValue, end_ready, end_settled, end_turned, end_waiting, failed, is_fresh, octets_kept, octets_used, reading_of, scanned, settle, state_of, told, trace, turn};
ghost use Rattle.ion_tokens.specs.machine.Steps.{Ends};
ghost use Rattle.ion_text.specs.machine.Run.{ends};
ghost use Rattle.ion_text.specs.machine.Views.{token_in};

use super::TextWalk;
use crate::reasons::end_late;
use crate::state::{Effect, Stage};
use ion_model::{Reason, Refusal};
use ion_symtab::{Catalog, Context, Limits};
use ion_tokens::{Scanner, Token, TokenReader};
use ion_visiting::{RecentSymbols, TableFilter, Visitor};
use std::alloc::Global;
use std::mem;

impl<'a> TextWalk<'a> {
    /// A reader of no octets yet, for a document within these limits that may import the shared
    /// tables of `catalog`. The only refusal is `Memory`.
    pub fn new(alloc: Global, catalog: &'a Catalog, limits: Limits) -> Result<TextWalk<'a>, Reason>
        ensures begins { IfOk result (Begins catalog.now limits) }
        ensures memory { IfErr result (λ reason. reason ≡ Memory) }
    {
        let context = Context::system(alloc)?;
        Ok(TextWalk {
            alloc,
            catalog,
            limits,
            scanner: Scanner::new(alloc),
            beside: TokenReader::new(alloc),
            recent: RecentSymbols::new(alloc),
            start: 0,
            context,
            frames: Vec::new(alloc),
            noted: false,
            stage: Stage::Ready,
            filter: TableFilter::new(alloc),
            awaited: None,
            failed: None,
        })
    }
}

impl TextWalk<'_> {
    /// Whether no item is open.
    fn is_fresh(&self) -> bool
        ensures { (fs : List Frame) (ss : Symbols) → Holds self.now fs ss →
            result ≡ is_fresh (reading_of self.now fs ss) }
    {
        match (self.frames.last(), self.noted, &self.stage) {
            (None, false, Stage::Ready) => true,
            _ => false,
        }
    }

    /// Nothing is open at the end but what waited for more.
    fn end_settled<V: Visitor>(&mut self, visitor: &mut V) -> Result<bool, Reason>
        ensures did { (fs : List Frame) (ss : Symbols) → Holds self.old fs ss → (used : ℕ) →
            EndedSo V.takes (told fs ss) used (end_settled used
            (settle self.old.catalog.now self.old.limits (reading_of self.old fs ss)))
            result visitor.old visitor.new }
    {
        match self.settle(visitor) {
            Err(reason) => Err(reason),
            Ok(Effect::Goes) => {
                if self.is_fresh() {
                    Ok(false)
                } else {
                    Err(Reason::Incomplete)
                }
            }
            Ok(Effect::Gives) => Ok(true),
            Ok(Effect::Late(reason)) => Err(end_late(reason)),
        }
    }

    /// What waited is decided by the end even where a comment or a colon behind it is open, if it
    /// is refused.
    fn end_waiting<V: Visitor>(
        &mut self,
        token: Result<Option<Token<'_>>, Refusal>,
        visitor: &mut V,
    ) -> Result<bool, Reason>
        ensures did { (fs : List Frame) (ss : Symbols) → Holds self.old fs ss →
            (used : ℕ) (x : Result (Option Lexeme) Reason) → Ends used x token.entry →
            EndedSo V.takes (told fs ss) used
            (end_waiting self.old.catalog.now self.old.limits used x
            (settle self.old.catalog.now self.old.limits (reading_of self.old fs ss)))
            result visitor.old visitor.new }
    {
        match token {
            Err(refusal) => match refusal.reason {
                Reason::Memory => Err(Reason::Memory),
                _ => self.end_open(visitor),
            },
            Ok(None) => self.end_settled(visitor),
            Ok(Some(found)) => {
                drop(found);
                self.end_open(visitor)
            }
        }
    }

    /// What waited is decided, and something behind it is open.
    fn end_open<V: Visitor>(&mut self, visitor: &mut V) -> Result<bool, Reason>
        ensures did { (fs : List Frame) (ss : Symbols) → Holds self.old fs ss →
            (used : ℕ) (reason : Reason) → EndedSo V.takes (told fs ss) used
            (end_waiting self.old.catalog.now self.old.limits used (Err reason)
            (settle self.old.catalog.now self.old.limits (reading_of self.old fs ss)))
            result visitor.old visitor.new }
    {
        match self.settle(visitor) {
            Err(reason) => Err(reason),
            Ok(Effect::Goes) => Err(Reason::Incomplete),
            Ok(Effect::Gives) => Err(Reason::Incomplete),
            Ok(Effect::Late(reason)) => Err(end_late(reason)),
        }
    }
}

impl TextWalk<'_> {
    /// Nothing waits: the end may end a token, or stand behind the last item.
    fn end_ready<V: Visitor>(
        &mut self,
        token: Result<Option<Token<'_>>, Refusal>,
        visitor: &mut V,
    ) -> Result<bool, Reason>
        ensures did { (fs : List Frame) (ss : Symbols) → Holds self.old fs ss →
            (used : ℕ) (x : Result (Option Lexeme) Reason) → Ends used x token.entry →
            EndedSo V.takes (told fs ss) used
            (end_ready self.old.catalog.now self.old.limits used (reading_of self.old fs ss) x)
            result visitor.old visitor.new }
    {
        match token {
            Err(refusal) => Err(refusal.reason),
            Ok(None) => {
                if self.is_fresh() {
                    Ok(false)
                } else {
                    Err(Reason::Incomplete)
                }
            }
            Ok(Some(token)) => self.end_turned(token, visitor),
        }
    }

    /// The end ended a token.
    fn end_turned<V: Visitor>(&mut self, token: Token<'_>, visitor: &mut V) -> Result<bool, Reason>
        ensures did { (fs : List Frame) (ss : Symbols) → Holds self.old fs ss → (used : ℕ) →
            EndedSo V.takes (told fs ss) used
            (end_turned self.old.catalog.now self.old.limits used
            (turn self.old.catalog.now self.old.limits (reading_of self.old fs ss)
            (token_in token.entry))) result visitor.old visitor.new }
    {
        match self.turn(token, visitor) {
            Err(reason) => Err(reason),
            Ok(Effect::Goes) => self.end_settled(visitor),
            Ok(Effect::Gives) => Ok(true),
            Ok(Effect::Late(reason)) => Err(end_late(reason)),
        }
    }

    /// Ends the octets: whether a value ended that only the end shows to be whole. The visitor
    /// heard it then.
    fn end<V: Visitor>(&mut self, visitor: &mut V) -> Result<bool, Reason>
        requires fine { IsFine self.old }
        ensures did { (fs : List Frame) (ss : Symbols) → Holds self.old fs ss →
            EndedSo V.takes (told fs ss) (scanned self.old.scanner).used
            (ends self.old.catalog.now self.old.limits (state_of self.old fs ss))
            result visitor.old visitor.new }
    {
        let place = self.place();
        let scanner = mem::replace(&mut self.scanner, Scanner::new(self.alloc));
        let token = scanner.finish(place);
        match &self.stage {
            Stage::Pending(_, _) => self.end_waiting(token, visitor),
            Stage::Long(_, _) => self.end_waiting(token, visitor),
            Stage::LongName(_) => Err(Reason::Incomplete),
            _ => self.end_ready(token, visitor),
        }
    }

    /// The refusal that each call answers, if one came.
    #[inline(always)]
    pub(super) fn failure(&self) -> Option<Refusal>
        ensures { result ≡ failed self.now }
    {
        match self.failed {
            Some(refusal) => Some(refusal),
            None => self.scanner.refusal(),
        }
    }

    /// What the end answers, where octets were refused before too.
    fn end_or_refuse<V: Visitor>(&mut self, visitor: &mut V) -> Result<bool, Refusal>
        ensures ends { IsNone (failed self.old) → (fs : List Frame) (ss : Symbols) →
            Holds self.old fs ss → FinishedSo V.takes (told fs ss)
            (ends self.old.catalog.now self.old.limits (state_of self.old fs ss))
            result visitor.old visitor.new }
        ensures memory { IfErr result (λ refusal. refusal.reason ≡ Memory →
            IsNone (failed self.old) → refusal.offset ≡ octets_used self.old) }
        ensures again { IfSome (failed self.old) (λ refusal. result ≡ Err refusal) }
    {
        if let Some(refusal) = self.failure() {
            return Err(refusal);
        }
        let offset = self.scanner.used();
        match self.end(visitor) {
            Ok(ended) => Ok(ended),
            Err(reason) => Err(Refusal { offset, reason }),
        }
    }

    /// Ends the octets: whether a value ended that only the end shows to be whole, of which the
    /// visitor was told all then; or the refusal of octets that are no document.
    ///
    /// A refusal's offset is the number of octets used, or that of the call that refused before.
    /// `Memory` alone doesn't say that the octets are no document. An octet that the reader awaits
    /// has to be handed in before.
    pub fn finish_by<V: Visitor>(self, visitor: &mut V) -> Result<bool, Refusal>
        requires { IsNone self.awaited }
        ensures ends { (u : List ℕ) (s : List (AnyValue × ℕ)) (es : List Event) →
            Told self.entry u s es →
            EndsOn V.takes (trace self.entry.catalog.now self.entry.limits u) es
            result visitor.old visitor.new }
        ensures memory { IfErr result (λ refusal. refusal.reason ≡ Memory →
            IsNone (failed self.entry) → refusal.offset ≡ octets_used self.entry) }
        ensures again { IfSome (failed self.entry) (λ refusal. result ≡ Err refusal) }
    {
        let mut reader = self;
        let answer = reader.end_or_refuse(visitor);
        drop(reader);
        answer
    }

    /// How many octets were used so far.
    pub fn used(&self) -> u64
        ensures { result ≡ octets_used self.now }
    {
        self.scanner.used()
    }

    /// How many octets of the open token are kept, with those that were let go: at most as many as
    /// the limit on items allows. The octet with which the next piece has to begin isn't counted.
    pub fn held(&self) -> usize
        ensures { result ≡ octets_kept self.now }
    {
        self.scanner.held()
    }
}
