//! What each octet does: the scanner takes it up, and behind it the reader of tokens.
ghost use Rattle.std.specs.Prelude.{◌≡◌, ◌≢◌, ◌+◌, ◌<◌, ◌≤◌, ◌^◌, List, length, IfErr, IfOk, true, false};
ghost use Rattle.ion_text.specs.Names.{DidMeet, DidTake, Frame, Holds, IsFine, IsMet, MeetsWith, Memory, Notices, SameReader, SameSetting, StaysSteady, Symbols, begun_in, behind_given, behind_left, comes_again, count_of, feed, has_segment, noticed, on_scan, reaches, reading_of, scan as run, scanned, state_of, takes, told, turn, unsettled};
ghost use Rattle.ion_text.specs.machine.Views.{token_in};

use super::TextWalk;
use crate::reasons::{lesser, worse};
use crate::state::{Effect, Met, Stage, Taken};
use crate::tokens::foresight::{goes_on_long, goes_on_symbol};
use ion_model::{Reason, Refusal};
use ion_tokens::{Form, Place, Scan, Token};
use ion_visiting::Visitor;

impl TextWalk<'_> {
    /// How many octets the open item has now, as far as it is known to go.
    fn reach(&self) -> u64
        ensures { (fs : List Frame) (ss : Symbols) → Holds self.now fs ss →
            result ≡ reaches fs (reading_of self.now fs ss) (scanned self.now.scanner) }
    {
        let begun = self.scanner.begun();
        match (self.frames.last(), &self.stage, begun) {
            (Some(_), _, _) => self.scanner.used().saturating_sub(self.start),
            (None, Stage::Ready, None) => {
                if self.noted {
                    self.scanner.used().saturating_sub(self.start)
                } else {
                    0
                }
            }
            (None, Stage::Ready, Some(begun)) => {
                if self.noted {
                    begun.end.saturating_sub(self.start)
                } else {
                    begun.end.saturating_sub(begun.start)
                }
            }
            (None, Stage::Pending(_, end), _) => end.saturating_sub(self.start),
            (None, Stage::Long(_, end), None) => end.saturating_sub(self.start),
            (None, Stage::Long(_, end), Some(begun)) => match begun.form {
                Form::Long => begun.end.saturating_sub(self.start),
                _ => end.saturating_sub(self.start),
            },
            _ => 0,
        }
    }

    /// Octets were used and ended no value. A token that begins where none may is refused with its
    /// first octet, and an item that is too long with the first octet too many.
    fn notice(&self) -> Result<(), Reason>
        ensures { (fs : List Frame) (ss : Symbols) → Holds self.now fs ss →
            Notices
            (noticed self.now.limits (reading_of self.now fs ss) (scanned self.now.scanner))
            result (state_of self.now fs ss) }
    {
        match &self.stage {
            Stage::After | Stage::Keyed(_) if self.scanner.begun().is_some() => {
                return Err(Reason::Unexpected);
            }
            _ => {}
        }
        if self.reach() > self.limits.item {
            return Err(Reason::ItemTooLong);
        }
        Ok(())
    }

    /// Whether a segment of a long string has begun.
    fn in_segment(&self) -> bool
        ensures { result ≡ has_segment (begun_in (scanned self.now.scanner)) }
    {
        match self.scanner.begun() {
            None => false,
            Some(begun) => matches!(begun.form, Form::Long),
        }
    }

    /// Whether what waits may go on with the octet. A long string isn't whole where an octet is
    /// refused in its next segment.
    #[tactic(auto, using(crate::proofs::Foreseen::symbol_sights, crate::proofs::Foreseen::long_sights))]
    fn goes_on(&self, place: Place, octet: u8) -> bool
        ensures { (fs : List Frame) (ss : Symbols) → Holds self.now fs ss →
            result ≡ unsettled (scanned self.now.scanner) (reading_of self.now fs ss)
            (feed place (scanned self.now.scanner) octet) }
    {
        match &self.stage {
            Stage::Pending(_, _) => goes_on_symbol(self.scanner.foresee(place, octet)),
            Stage::Long(_, _) => {
                goes_on_long(self.is_top(), self.scanner.foresee(place, octet)) || self.in_segment()
            }
            Stage::LongName(_) => goes_on_long(false, self.scanner.foresee(place, octet)),
            _ => false,
        }
    }

    /// A token ended with the last octet.
    fn meet_given<V: Visitor>(&mut self, token: Token<'_>, visitor: &mut V) -> Result<Met, Reason>
        ensures did { (fs : List Frame) (ss : Symbols) → Holds self.old fs ss →
            DidMeet V.takes (told fs ss) (λ _. behind_given self.old.limits
            (scanned self.old.scanner)
            (turn self.old.catalog.now self.old.limits (reading_of self.old fs ss)
            (token_in token.entry))) result self.new visitor.old visitor.new }
        ensures ends { IfOk result (λ met. comes_again met ≡ false) }
        ensures setting { SameSetting self.old self.new }
    {
        match self.turn(token, visitor)? {
            Effect::Gives => Ok(Met::Tells),
            Effect::Goes => {
                self.notice()?;
                Ok(Met::Uses)
            }
            Effect::Late(reason) => match self.notice() {
                Err(other) => Err(lesser(reason, other)),
                Ok(()) => Err(reason),
            },
        }
    }

    /// A token ended before the last octet.
    fn meet_left<V: Visitor>(&mut self, token: Token<'_>, visitor: &mut V) -> Result<Met, Reason>
        ensures did { (fs : List Frame) (ss : Symbols) → Holds self.old fs ss →
            DidMeet V.takes (told fs ss) (λ again. behind_left again (scanned self.old.scanner)
            (turn self.old.catalog.now self.old.limits (reading_of self.old fs ss)
            (token_in token.entry))) result self.new visitor.old visitor.new }
        ensures again { IfOk result (λ met. comes_again met ≡ true) }
        ensures setting { SameSetting self.old self.new }
    {
        match self.turn(token, visitor)? {
            Effect::Gives => Ok(Met::Leaves),
            Effect::Goes => Ok(Met::Again),
            Effect::Late(reason) => Ok(Met::Late(reason)),
        }
    }

    /// A refusal behind so many octets more than are used.
    fn refused(&self, more: u64, reason: Reason) -> Refusal
        requires { (scanned self.now.scanner).used + more < 2 ^ 64 }
        ensures { result
            ≡ record { offset = (scanned self.now.scanner).used + more; reason = reason } }
    {
        let offset = self.scanner.used() + more;
        Refusal { offset, reason }
    }

    /// Hands octets to the scanner, up to the next token, which is looked for at `place`: how many
    /// are used, and what they did.
    pub(super) fn meet<V: Visitor>(
        &mut self,
        place: Place,
        piece: &[u8],
        visitor: &mut V,
    ) -> Result<(usize, Met), Refusal>
        requires room { (scanned self.old.scanner).used + length piece.now < 2 ^ 63 }
        ensures met { IsFine self.old → (fs : List Frame) (ss : Symbols) → Holds self.old fs ss →
            MeetsWith V.takes (told fs ss) self.old.catalog.now self.old.limits
            (reading_of self.old fs ss) (run place piece.now (scanned self.old.scanner))
            result self.new visitor.old visitor.new }
        ensures behind { IsFine self.old → IfOk result (λ met.
            IsMet (run place piece.now (scanned self.old.scanner)) met.1 self.new) }
        ensures used { IfOk result (λ met.
            (scanned self.new.scanner).used ≡ (scanned self.old.scanner).used + met.0) }
        ensures within { IfOk result (λ met. met.0 ≤ length piece.now) }
        ensures decides { IsFine self.old → 0 < length piece.now →
            IfErr result (λ refusal. refusal.reason ≢ Memory →
            ((scanned self.old.scanner).used < refusal.offset)
            × (refusal.offset ≤ (scanned self.old.scanner).used + length piece.now)) }
        ensures fine { IfOk result (λ _. IsFine self.new) }
        ensures steady { IfOk result (λ _. StaysSteady self.old self.new) }
        ensures same { SameReader self.old self.new }
    {
        match self.scanner.step(piece, place) {
            Err(refusal) => Err(refusal),
            Ok(Scan { used, token }) => match token {
                None => match self.notice() {
                    Ok(()) => Ok((used, Met::Uses)),
                    Err(reason) => Err(self.refused(0, reason)),
                },
                Some(token) if self.scanner.left() => match self.meet_left(token, visitor) {
                    Ok(met) => Ok((used, met)),
                    Err(reason) => Err(self.refused(1, reason)),
                },
                Some(token) => match self.meet_given(token, visitor) {
                    Ok(met) => Ok((used, met)),
                    Err(reason) => Err(self.refused(0, reason)),
                },
            },
        }
    }

    /// Takes up an octet, which may be left behind fewer than so many tokens that it ends.
    #[cycle(octet)]
    pub(super) fn read_octet<V: Visitor>(
        &mut self,
        tokens: u8,
        octet: u8,
        visitor: &mut V,
    ) -> Result<Taken, Reason>
        requires fine { IsFine self.old }
        requires room { (scanned self.old.scanner).used + 1 < 2 ^ 63 }
        ensures did { (fs : List Frame) (ss : Symbols) → Holds self.old fs ss →
            DidTake V.takes (told fs ss)
            (takes self.old.catalog.now self.old.limits tokens (state_of self.old fs ss) octet)
            result self.new visitor.old visitor.new }
        ensures used { IfOk result (λ taken.
            (scanned self.new.scanner).used
            ≡ (scanned self.old.scanner).used + count_of taken) }
        ensures fine { IfOk result (λ _. IsFine self.new) }
        ensures steady { IfOk result (λ _. StaysSteady self.old self.new) }
        ensures same { SameReader self.old self.new }
    {
        if tokens == 0 {
            return Err(Reason::Unexpected);
        }
        let place = self.place();
        if self.goes_on(place, octet) {
            return self.scan_octet(tokens - 1, place, octet, visitor);
        }
        match self.settle(visitor) {
            Err(reason) => Err(reason),
            Ok(Effect::Goes) => self.scan_octet(tokens - 1, place, octet, visitor),
            Ok(Effect::Gives) => Ok(Taken::Leaves),
            Ok(Effect::Late(reason)) => {
                let again = self.scan_octet(tokens - 1, place, octet, visitor);
                Err(worse(reason, again))
            }
        }
    }

    /// Hands an octet to the scanner, which comes again behind a token that it ended and left.
    #[cycle(octet)]
    fn scan_octet<V: Visitor>(
        &mut self,
        tokens: u8,
        place: Place,
        octet: u8,
        visitor: &mut V,
    ) -> Result<Taken, Reason>
        requires fine { IsFine self.old }
        requires room { (scanned self.old.scanner).used + 1 < 2 ^ 63 }
        ensures did { (fs : List Frame) (ss : Symbols) → Holds self.old fs ss →
            DidTake V.takes (told fs ss) (on_scan self.old.catalog.now self.old.limits
            (λ m. takes self.old.catalog.now self.old.limits tokens m octet)
            (reading_of self.old fs ss) (feed place (scanned self.old.scanner) octet))
            result self.new visitor.old visitor.new }
        ensures used { IfOk result (λ taken.
            (scanned self.new.scanner).used
            ≡ (scanned self.old.scanner).used + count_of taken) }
        ensures fine { IfOk result (λ _. IsFine self.new) }
        ensures steady { IfOk result (λ _. StaysSteady self.old self.new) }
        ensures same { SameReader self.old self.new }
    {
        let piece = [octet];
        match self.meet(place, &piece, visitor) {
            Err(refusal) => Err(refusal.reason),
            Ok((_, Met::Uses)) => Ok(Taken::Uses),
            Ok((_, Met::Tells)) => Ok(Taken::Tells),
            Ok((_, Met::Leaves)) => Ok(Taken::Leaves),
            Ok((_, Met::Again)) => self.read_octet(tokens, octet, visitor),
            Ok((_, Met::Late(reason))) => {
                let again = self.read_octet(tokens, octet, visitor);
                Err(worse(reason, again))
            }
        }
    }
}
