//! Walks over pieces.
ghost use Rattle.std.specs.Prelude.{◌≡◌, ◌≢◌, ◌+◌, ◌-◌, ◌<◌, ◌≤◌, ◌^◌, ℕ, List, [], ◌∷◌, Some, None, Err, false, true, length, drop, IfOk, IfErr, IfSome, IsSome, IsNone};
ghost use Rattle.std.specs.Option.{is_some};
ghost use Rattle.ion_text.specs.Names.{Answers, Event, Frame, Holds, IsFine, IsWithin, Memory, RefusesBy, SameReader, StaysSteady, StepsOver, Symbols, Told, TookFront, Value as AnyValue, WalksOn, failed, if_ended, octets_used, pending, scanned, state_of, told, trace};
ghost use Rattle.ion_text.specs.machine.Progress.{BeginsWith};
ghost use Rattle.ion_text.specs.walk.Advances.{DidAdvance, SameSettings, gone, with_count, with_offset};
ghost use Rattle.ion_symtab.specs.Walks.{DoesWalk, answer_of};
ghost use Rattle.ion_symtab.specs.declared.items.Went.TheVariants as wents;

use super::TextWalk;
use crate::reasons::with_memory_at;
use crate::state::{Stage, Taken};
use ion_model::{Reason, Refusal};
use ion_symtab::{Walked, Went};
use ion_visiting::Visitor;

impl TextWalk<'_> {
    /// How many octets the scanner has moved from where so many were used.
    #[inline(always)]
    fn gone(&self, before: u64) -> usize
        requires { before ≤ (scanned self.now.scanner).used }
        ensures { result ≡ (scanned self.now.scanner).used - before }
    {
        (self.scanner.used() - before) as usize
    }

    /// Takes up octets at the front of a piece, up to the next token or what waits over them, or
    /// one. Where it refuses for another reason than `Memory`, `refused` gets the offset: so that
    /// what it answers is no longer than two octets.
    #[inline(never)]
    fn read_front<V: Visitor>(
        &mut self,
        piece: &[u8],
        refused: &mut u64,
        visitor: &mut V,
    ) -> Result<Taken, Reason>
        requires fine { IsFine self.old }
        requires room { (scanned self.old.scanner).used + length piece.now < 2 ^ 63 }
        requires some { 0 < length piece.now }
        ensures took { (fs : List Frame) (ss : Symbols) → Holds self.old fs ss →
            TookFront V.takes (told fs ss) self.old.catalog.now self.old.limits
            (scanned self.old.scanner).used (state_of self.old fs ss) piece.now
            (with_count (gone self.old self.new) (with_offset refused.new result)) self.new
            visitor.old visitor.new }
        ensures on { IfOk result (λ _.
            (scanned self.old.scanner).used ≤ (scanned self.new.scanner).used) }
        ensures within { IfOk result (IsWithin (length piece.now) (gone self.old self.new)) }
        ensures decides { IfErr result (λ reason. reason ≢ Memory →
            ((scanned self.old.scanner).used < refused.new)
            × (refused.new ≤ (scanned self.old.scanner).used + length piece.now)) }
        ensures fine { IfOk result (λ _. IsFine self.new) }
        ensures steady { IfOk result (λ _. StaysSteady self.old self.new) }
        ensures same { SameReader self.old self.new }
    {
        let run_to_token = self.run_to_token(piece);
        if run_to_token > 0 {
            return match self.read_to_token(&piece[..run_to_token], visitor) {
                Ok((_count, taken)) => Ok(taken),
                Err(refusal) => {
                    *refused = refusal.offset;
                    Err(refusal.reason)
                }
            };
        }
        let waiting_run = self.waiting_run(piece);
        if waiting_run > 0 {
            return match self.read_while_waiting(&piece[..waiting_run]) {
                Ok(()) => Ok(Taken::Uses),
                Err(refusal) => Err(refusal.reason),
            };
        }
        let offset = self.scanner.used() + 1;
        match self.read_octet(3, piece[0], visitor) {
            Ok(taken) => Ok(taken),
            Err(reason) => {
                *refused = offset;
                Err(reason)
            }
        }
    }

    /// Takes up octets at the front of a piece: the tokens that lie whole there, and some behind
    /// them. Where it refuses for another reason than `Memory`, `refused` gets the offset.
    #[inline(always)]
    fn read_piece<V: Visitor>(
        &mut self,
        piece: &[u8],
        refused: &mut u64,
        visitor: &mut V,
    ) -> Result<Taken, Reason>
        requires fine { IsFine self.old }
        requires room { (scanned self.old.scanner).used + length piece.now < 2 ^ 63 }
        requires some { 0 < length piece.now }
        ensures took { (fs : List Frame) (ss : Symbols) → Holds self.old fs ss →
            TookFront V.takes (told fs ss) self.old.catalog.now self.old.limits
            (scanned self.old.scanner).used (state_of self.old fs ss) piece.now
            (with_count (gone self.old self.new) (with_offset refused.new result)) self.new
            visitor.old visitor.new }
        ensures on { IfOk result (λ _.
            (scanned self.old.scanner).used ≤ (scanned self.new.scanner).used) }
        ensures within { IfOk result (IsWithin (length piece.now) (gone self.old self.new)) }
        ensures decides { IfErr result (λ reason. reason ≢ Memory →
            ((scanned self.old.scanner).used < refused.new)
            × (refused.new ≤ (scanned self.old.scanner).used + length piece.now)) }
        ensures fine { IfOk result (λ _. IsFine self.new) }
        ensures steady { IfOk result (λ _. StaysSteady self.old self.new) }
        ensures same { SameReader self.old self.new }
    {
        let Some(rest) = self.rests() else {
            return self.read_front(piece, refused, visitor);
        };
        match self.read_tokens(rest, piece, visitor) {
            Err(reason) => Err(reason),
            Ok(Taken::Uses) => {
                let count = self.gone(rest.used);
                self.read_front(&piece[count..], refused, visitor)
            }
            Ok(Taken::Tells) => Ok(Taken::Tells),
            Ok(Taken::Leaves) => Ok(Taken::Leaves),
        }
    }

    /// Takes up the octets of a piece up to the end of the next value. A refusal's offset counts the
    /// octet that decided; `Memory` has the octets of earlier walks. An octet that showed the end of
    /// a value before shows the end of no second one.
    #[inline(always)]
    fn advance<V: Visitor>(&mut self, piece: &[u8], visitor: &mut V) -> Result<Walked, Refusal>
        requires fine { IsFine self.old }
        requires room { octets_used self.old + length piece.now < 2 ^ 63 }
        requires begins { BeginsWith self.old.awaited piece.now }
        ensures does { (fs : List Frame) (ss : Symbols) → Holds self.old fs ss →
            DidAdvance V.takes (told fs ss) self.old.catalog.now self.old.limits
            (is_some self.old.awaited) (scanned self.old.scanner).used
            (state_of self.old fs ss) piece.now result self.new visitor.old visitor.new }
        ensures used { IfOk result (λ walked.
            octets_used self.new ≡ octets_used self.old + walked.used) }
        ensures within { IfOk result (λ walked. walked.used ≤ length piece.now) }
        ensures all { IfOk result (λ walked.
            walked.ended ≡ false → walked.used ≡ length piece.now) }
        ensures next { IfOk result (λ walked. IfSome self.new.awaited (λ octet.
            (rest : List ℕ) × (drop walked.used piece.now ≡ octet ∷ rest))) }
        ensures still { IfOk result (λ _. piece.now ≡ [] → pending self.new ≡ pending self.old) }
        ensures decides { IfErr result (λ refusal. refusal.reason ≢ Memory →
            (octets_used self.old < refusal.offset)
            × (refusal.offset ≤ octets_used self.old + length piece.now)) }
        ensures memory { IfErr result (λ refusal.
            refusal.reason ≡ Memory → refusal.offset ≡ octets_used self.old) }
        ensures unawaited { IfErr result (λ _. IsNone self.new.awaited) }
        ensures fine { IfOk result (λ _. IsFine self.new) }
        ensures steady { IfOk result (λ _. StaysSteady self.old self.new) }
        ensures setting { SameSettings self.old self.new }
    {
        let before = self.scanner.used();
        let again = self.awaited.is_some();
        self.awaited = None;
        let mut refused = before;
        let mut i = 0;
        while i < piece.len() {
            match self.read_piece(&piece[i..], &mut refused, visitor) {
                Err(reason) => {
                    let offset = refused;
                    return Err(with_memory_at(before, Refusal { offset, reason }));
                }
                Ok(Taken::Uses) => i = self.gone(before),
                Ok(Taken::Tells) => {
                    return Ok(Walked {
                        used: self.gone(before),
                        ended: true,
                    });
                }
                Ok(Taken::Leaves) => {
                    let used = self.gone(before);
                    if again && used == 0 {
                        return Err(Refusal {
                            offset: before + 1,
                            reason: Reason::Unexpected,
                        });
                    }
                    self.awaited = Some(piece[used]);
                    return Ok(Walked { used, ended: true });
                }
            }
        }
        Ok(Walked {
            used: piece.len(),
            ended: false,
        })
    }

    /// Whether a value has begun of which no octet showed the end, so that the next one may.
    #[inline(always)]
    fn owes(&self) -> bool
        ensures { result ≡ true → pending self.now ≡ 1 }
    {
        match (self.awaited, &self.stage) {
            (Some(_), _) => false,
            // Where the scanner rests, as most often, no token has begun.
            (None, Stage::Ready) => {
                self.scanner.rest().is_none() && self.scanner.begun().is_some()
            }
            (None, _) => true,
        }
    }

    /// Whether a value may have ended so: with an octet of the piece, or shown by the first where
    /// one was owed.
    #[inline(always)]
    fn may_end_so(&self, owed: bool, walked: Walked) -> bool
        ensures { result ≡ true → walked.ended ≡ true → walked.used ≡ 0 →
            (owed ≡ true) × IsSome self.now.awaited }
    {
        if !walked.ended || walked.used > 0 {
            return true;
        }
        owed && self.awaited.is_some()
    }

    /// What `advance` does, in the words of `Items`. So that a caller's calls end, a value ends with
    /// an octet of the piece, or was owed. Another answer couldn't come, and would be told as memory
    /// that ran out, which says nothing of the octets.
    #[inline(always)]
    fn advance_on<V: Visitor>(&mut self, piece: &[u8], visitor: &mut V) -> Result<Walked, Refusal>
        requires fine { IsNone (failed self.old) }
        requires room { octets_used self.old + length piece.now < 2 ^ 63 }
        requires begins { BeginsWith self.old.awaited piece.now }
        ensures leaves { IfOk result (λ walked. StepsOver octets_used pending (λ r. r.awaited)
            failed self.old self.new piece.now walked.used (if_ended walked.ended)) }
        ensures tells { IfOk result (λ walked.
            (u : List ℕ) (s : List (AnyValue × ℕ)) (es : List Event) → Told self.old u s es →
            WalksOn V.takes Told u s es piece.now walked.used walked.ended
            self.new visitor.old visitor.new) }
        ensures answers { IfErr result (λ refusal.
            (u : List ℕ) (s : List (AnyValue × ℕ)) (es : List Event) → Told self.old u s es →
            Answers (trace self.old.catalog.now self.old.limits) u s piece.now (Err refusal)) }
        ensures decides { IfErr result (λ refusal. refusal.reason ≢ Memory →
            (octets_used self.old < refusal.offset)
            × (refusal.offset ≤ octets_used self.old + length piece.now)) }
        ensures memory { IfErr result (λ refusal.
            refusal.reason ≡ Memory → refusal.offset ≡ octets_used self.old) }
        ensures unawaited { IfErr result (λ _. IsNone self.new.awaited) }
        ensures setting { SameSettings self.old self.new }
    {
        let before = self.scanner.used();
        let owed = self.owes();
        match self.advance(piece, visitor) {
            Err(refusal) => Err(refusal),
            Ok(walked) => {
                if self.may_end_so(owed, walked) {
                    return Ok(walked);
                }
                self.awaited = None;
                Err(Refusal {
                    offset: before,
                    reason: Reason::Memory,
                })
            }
        }
    }

    /// What `walk` does, of which it answers what `Went` says.
    #[inline(never)]
    fn go_on<V: Visitor>(&mut self, piece: &[u8], visitor: &mut V) -> Went
        requires room { IsNone (failed self.old) →
            octets_used self.old + length piece.now < 2 ^ 63 }
        requires begins { BeginsWith self.old.awaited piece.now }
        ensures setting { (self.new.catalog.now ≡ self.old.catalog.now)
            × (self.new.limits ≡ self.old.limits) }
        ensures walks { DoesWalk V.takes octets_used pending (λ r. r.awaited) failed Told
            (trace self.old.catalog.now self.old.limits) self.old self.new piece.now
            (answer_of result (length piece.now) (failed self.new)) visitor.old visitor.new }
        ensures refused { result ≡ wents.Refused → IsSome (failed self.new) }
    {
        if self.failure().is_some() {
            self.awaited = None;
            return Went::Refused;
        }
        match self.advance_on(piece, visitor) {
            Ok(walked) if walked.ended => Went::Ended(walked.used),
            Ok(_) => {
                self.let_go(visitor);
                Went::Ran
            }
            Err(refusal) => {
                self.failed = Some(refusal);
                Went::Refused
            }
        }
    }

    /// Takes up octets of the piece, at most up to the end of the next value, and tells a visitor
    /// what comes of them, event by event. Without a value it used the whole piece.
    ///
    /// It does what `Items::walk` promises. A refusal names the octet that decides, counted from the
    /// document's first, and comes again with each call. `Memory` comes where memory was refused, or
    /// where the visitor can't go on: also where it heeds a text whose front was let go, since the
    /// visitor of an earlier call heeded kinds alone. An octet that shows the end of a value without
    /// being part of it isn't used, and begins the next piece.
    #[inline(always)]
    pub fn walk<V: Visitor>(&mut self, piece: &[u8], visitor: &mut V) -> Result<Walked, Refusal>
        requires room { IsNone (failed self.old) →
            octets_used self.old + length piece.now < 2 ^ 63 }
        requires begins { BeginsWith self.old.awaited piece.now }
        ensures setting { (self.new.catalog.now ≡ self.old.catalog.now)
            × (self.new.limits ≡ self.old.limits) }
        ensures leaves { IfOk result (λ walked. StepsOver octets_used pending (λ r. r.awaited)
            failed self.old self.new piece.now walked.used (if_ended walked.ended)) }
        ensures tells { IfOk result (λ walked.
            (u : List ℕ) (s : List (AnyValue × ℕ)) (es : List Event) → Told self.old u s es →
            WalksOn V.takes Told u s es piece.now walked.used walked.ended
            self.new visitor.old visitor.new) }
        ensures answers { IfErr result (λ refusal.
            (u : List ℕ) (s : List (AnyValue × ℕ)) (es : List Event) → Told self.old u s es →
            Answers (trace self.old.catalog.now self.old.limits) u s piece.now (Err refusal)) }
        ensures refuses { IfErr result (RefusesBy octets_used pending (λ r. r.awaited) failed
            self.old self.new piece.now) }
        ensures again { IfSome (failed self.old) (λ refusal. result ≡ Err refusal) }
    {
        match self.go_on(piece, visitor) {
            Went::Ended(used) => Ok(Walked { used, ended: true }),
            Went::Ran => Ok(Walked {
                used: piece.len(),
                ended: false,
            }),
            Went::Refused => match self.failure() {
                Some(refusal) => Err(refusal),
                None => unreachable!(),
            },
        }
    }
}
