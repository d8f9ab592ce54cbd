//! Octets that are handed to the scanner at once: up to the next token, where nothing has to be
//! looked at before it.
ghost use Rattle.std.specs.Prelude.{◌≡◌, ◌≢◌, ◌+◌, ◌<◌, ◌≤◌, ◌^◌, List, length, IfErr, IfOk};
ghost use Rattle.ion_text.specs.Names.{Frame, Holds, IsCalm, IsFine, IsWithin, Memory, SameReader, StaysSteady, Symbols, TookFront, base, floor, scanned, state_of, told};

use super::TextWalk;
use crate::reasons::worse;
use crate::state::{Met, Stage, Taken};
use ion_model::Refusal;
use ion_visiting::Visitor;

impl TextWalk<'_> {
    /// Where the octets of the open item are counted from.
    fn base(&self) -> u64
        ensures { (fs : List Frame) (ss : Symbols) → Holds self.now fs ss →
            result ≡ base fs ss self.now.start (floor (scanned self.now.scanner)) }
    {
        if self.noted {
            return self.start;
        }
        match self.frames.last() {
            None => self.scanner.since(),
            Some(_) => self.start,
        }
    }

    /// How many octets at the front of a piece may be handed to the scanner at once: none where
    /// something waits or no token may begin, and no more than the limit on items leaves.
    pub(super) fn run_to_token(&self, piece: &[u8]) -> usize
        ensures within { result ≤ length piece.now }
        ensures calm { 0 < result → IsCalm self.now.stage }
        ensures high { 0 < result →
            floor (scanned self.now.scanner) ≤ (scanned self.now.scanner).used }
        ensures room { 0 < result → (fs : List Frame) (ss : Symbols) → Holds self.now fs ss →
            (scanned self.now.scanner).used + result ≤ self.now.limits.item
            + base fs ss self.now.start (floor (scanned self.now.scanner)) }
    {
        match &self.stage {
            Stage::Ready | Stage::Name => {}
            _ => return 0,
        }
        let used = self.scanner.used();
        if self.scanner.since() > used {
            return 0;
        }
        let last = self.base().saturating_add(self.limits.item);
        let room = last.saturating_sub(used);
        if (piece.len() as u64) < room {
            piece.len()
        } else {
            room as usize
        }
    }

    /// Takes up octets up to the next token, where nothing waits.
    pub(super) fn read_to_token<V: Visitor>(
        &mut self,
        piece: &[u8],
        visitor: &mut V,
    ) -> Result<(usize, Taken), Refusal>
        requires fine { IsFine self.old }
        requires room { (scanned self.old.scanner).used + length piece.now < 2 ^ 63 }
        requires some { 0 < length piece.now }
        requires calm { IsCalm self.old.stage }
        requires high { floor (scanned self.old.scanner) ≤ (scanned self.old.scanner).used }
        requires fits { (fs : List Frame) (ss : Symbols) → Holds self.old fs ss →
            (scanned self.old.scanner).used + length piece.now ≤ self.old.limits.item
            + base fs ss self.old.start (floor (scanned self.old.scanner)) }
        ensures took { (fs : List Frame) (ss : Symbols) → Holds self.old fs ss →
            TookFront V.takes (told fs ss) self.old.catalog.now self.old.limits
            (scanned self.old.scanner).used (state_of self.old fs ss) piece.now
            result self.new visitor.old visitor.new }
        ensures used { IfOk result (λ took.
            (scanned self.new.scanner).used ≡ (scanned self.old.scanner).used + took.0) }
        ensures within { IfOk result (λ took. IsWithin (length piece.now) took.0 took.1) }
        ensures decides { IfErr result (λ refusal. refusal.reason ≢ Memory →
            ((scanned self.old.scanner).used < refusal.offset)
            × (refusal.offset ≤ (scanned self.old.scanner).used + length piece.now)) }
        ensures fine { IfOk result (λ _. IsFine self.new) }
        ensures steady { IfOk result (λ _. StaysSteady self.old self.new) }
        ensures same { SameReader self.old self.new }
    {
        let place = self.place();
        match self.meet(place, piece, visitor) {
            Err(refusal) => Err(refusal),
            Ok((count, Met::Uses)) => Ok((count, Taken::Uses)),
            Ok((count, Met::Tells)) => Ok((count, Taken::Tells)),
            Ok((count, Met::Leaves)) => Ok((count, Taken::Leaves)),
            Ok((count, Met::Again)) => {
                let offset = self.scanner.used() + 1;
                match self.read_octet(2, piece[count], visitor) {
                    Err(reason) => Err(Refusal { offset, reason }),
                    Ok(Taken::Uses) => Ok((count + 1, Taken::Uses)),
                    Ok(Taken::Tells) => Ok((count + 1, Taken::Tells)),
                    Ok(Taken::Leaves) => Ok((count, Taken::Leaves)),
                }
            }
            Ok((count, Met::Late(reason))) => {
                let offset = self.scanner.used() + 1;
                let again = self.read_octet(2, piece[count], visitor);
                Err(Refusal {
                    offset,
                    reason: worse(reason, again),
                })
            }
        }
    }
}
