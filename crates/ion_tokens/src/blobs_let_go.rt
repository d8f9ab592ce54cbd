//! Blobs of which the front is let go, since nobody asks what they say. Their base64 is judged group
//! by group, and what the groups stand for is counted.
ghost use Rattle.std.specs.Prelude.{◌≡◌, ◌≢◌, ◌+◌, ◌-◌, ◌<◌, ◌≤◌, ◌^◌, ℕ, List, [], length, min, take, true, false, IfOk, IfErr, IfSome};
ghost use Rattle.ion_tokens.specs.Names.{Answers, BorrowsAt, IsSteady, Memory, answered, deciding, run};
ghost use Rattle.ion_tokens.specs.machine.LetGo.{IsBehind, StandsFor, behind_gone, front_in, in_base64};
ghost use Rattle.ion_tokens.specs.machine.Machines.{known};

use crate::blob::decoded;
use crate::gone_front::GoneFront;
use crate::let_go::{FEW, MOST, in_base64};
use crate::machine::{Machine, Taken};
use crate::mode::Place;
use crate::token::Scan;
use ion_atoms::{Reason, Refusal};

// Decodes the whole groups of base64 but for the last one, which may be padded, and counts the
// octets of the others. `None` where one is no group, and where memory runs out.
fn groups(text: &[u8], octets: &mut Vec<u8>) -> Option<usize>
    requires { 4 ≤ length text.now }
    ensures within { IfSome result (λ count. count < length text.now) }
    ensures fewer { IfSome result (λ count. length octets.new.items ≤ count) }
    ensures stands { IfSome result (λ count.
        StandsFor (take count text.now) octets.new.items) }
{
    let count = text.len() / 4 * 4 - 4;
    match decoded(&text[..count + 4], octets) {
        Ok(true) => {
            octets.truncate(count / 4 * 3);
            Some(count)
        }
        _ => None,
    }
}

impl Machine {
    /// Lets go base64 of the open blob, but for the last group or two. Where some of it doesn't decode
    /// the blob is refused at its close, so it is tried once.
    pub fn let_go_base64(&mut self, gone: &mut GoneFront)
        requires blob { in_base64 self.old.mode ≡ true }
        requires behind { IsBehind gone.old (known self.old) }
        ensures behind { IsBehind gone.new (known self.new) }
        ensures known { behind_gone gone.new.octets (known self.new)
            ≡ behind_gone gone.old.octets (known self.old) }
        ensures looked { self.new.looked ≡ self.old.looked }
        ensures left { self.new.left ≡ self.old.left }
    {
        let count = self.kept.len();
        if count < FEW || count as u64 > MOST || gone.count() >= MOST || !gone.takes_base64() {
            return;
        }
        let Some(spare) = groups(&self.kept, &mut self.ended) else {
            gone.doubt();
            return;
        };
        gone.add_base64(&self.kept[..spare], &self.ended);
        self.kept.copy_within(spare.., 0);
        self.kept.truncate(count - spare);
    }

    // No token came in a blob of which base64 was let go: behind its end it is what that stands for.
    fn follows(&mut self, gone: &mut GoneFront)
        requires { gone.old.is_base64 ≡ true }
        ensures front { (octets : List ℕ) × StandsFor gone.old.octets octets
            × (gone.new.octets ≡ front_in self.old.mode gone.old.octets octets) }
        ensures base64 { in_base64 self.old.mode ≡ true → gone.new.is_base64 ≡ true }
        ensures known { known self.new ≡ known self.old }
        ensures looked { self.new.looked ≡ self.old.looked }
        ensures left { self.new.left ≡ false }
    {
        gone.stands();
        self.left = false;
        if !in_base64(self.mode) {
            gone.decode();
        }
    }

    /// The same as `scan_behind` in a blob of which base64 was let go. Behind its base64 what that
    /// stands for is what was let go.
    pub fn scan_base64<'p>(
        &mut self,
        gone: &mut GoneFront,
        piece: &'p [u8],
        place: Place,
    ) -> Result<Scan<'p>, Refusal>
        requires room { self.old.used + length piece.now < 2 ^ 63 }
        requires blob { in_base64 self.old.mode ≡ true }
        requires base64 { gone.old.is_base64 ≡ true }
        requires some { 0 < length self.old.kept.items }
        requires steady { IsSteady (behind_gone gone.old.octets (known self.old)) self.old.looked }
        ensures answers { Answers self.old.used
            (run place piece.now (behind_gone gone.old.octets (known self.old)))
            (answered result self.new.left) (behind_gone gone.new.octets (known self.new)) }
        ensures behind { IfOk result (λ _. IsBehind gone.new (known self.new)) }
        ensures taken { IfOk result (λ scan. IfSome scan.token (λ _. gone.new.octets ≡ [])) }
        ensures steady { IfOk result (λ _.
            IsSteady (behind_gone gone.new.octets (known self.new)) self.new.looked) }
        ensures lends { IfOk result (λ scan. IfSome scan.token (λ token.
            BorrowsAt self.old.used token.start token.end piece.now token.body)) }
        ensures looked { IfOk result (λ scan. self.new.looked
            ≡ min (self.old.looked + deciding scan.used self.new.left) (2 ^ 64 - 1)) }
        ensures looked_at { IfErr result (λ refusal. refusal.reason ≢ Memory → self.new.looked
            ≡ min (self.old.looked + (refusal.offset - self.old.used)) (2 ^ 64 - 1)) }
        ensures memory { IfErr result (λ refusal. refusal.reason ≡ Memory →
            refusal.offset ≡ self.old.used) }
    {
        gone.stands();
        let before = self.used;
        match self.run(place, piece) {
            Err(_) => Err(Refusal {
                offset: before,
                reason: Reason::Memory,
            }),
            Ok(Taken::Next) => {
                self.follows(gone);
                Ok(Scan {
                    used: piece.len(),
                    token: None,
                })
            }
            Ok(Taken::Given(lexeme)) => {
                gone.decode();
                self.given_behind(lexeme, before, gone)
            }
            Ok(Taken::Left(_)) => unreachable!(),
            Ok(Taken::Refused(refusal)) => Err(refusal),
        }
    }
}
