//! The tokens of the scanner's machine, judged: what they say, or why they say nothing.
ghost use Rattle.std.specs.Prelude.{◌≡◌, ◌≢◌, ◌+◌, ◌-◌, ◌≤◌, ◌<◌, ◌^◌, length, [], IfOk, IfErr, IfSome, min};
ghost use Rattle.ion_tokens.specs.Bodies.{IsWhole};
ghost use Rattle.ion_tokens.specs.Names.{Answers, BorrowsAt, GivesToken, IsSteady, IsToken, Memory, RefusesToken, StandIn, answered, at_end, deciding, run};
ghost use Rattle.ion_tokens.specs.machine.Machines.{known, lexeme_in};
ghost use Rattle.ion_tokens.specs.machine.Steps.{Ends};

use crate::body::body_of;
use crate::machine::{Lexeme, Machine, Taken};
use crate::mode::{Place, TokenKind};
use crate::token::{Body, Scan, Token};
use ion_atoms::{Reason, Refusal};

// Where a token's octets stand in the piece behind `before` octets, if they stand there.
fn lent<'p>(piece: &'p [u8], before: u64, lexeme: Lexeme) -> &'p [u8]
    ensures { StandIn before lexeme.start lexeme.end piece.now result.now }
{
    match (
        lexeme.start.checked_sub(before),
        lexeme.end.checked_sub(before),
    ) {
        (Some(start), Some(end)) => piece.get(start as usize..end as usize).unwrap_or(&[]),
        _ => &[],
    }
}

impl Machine {
    // Judges the token that ended last, at the octet `decided`. It needs much room, for which marks
    // are not to pay.
    #[inline(never)]
    fn judged<'p>(
        &mut self,
        lexeme: Lexeme,
        before: u64,
        decided: u64,
        piece: &'p [u8],
    ) -> Result<Token<'p>, Refusal>
        ensures ok { IfOk result (λ token. IsToken (lexeme_in lexeme self.old) token) }
        ensures err { IfErr result (λ refusal. refusal.reason ≢ Memory →
            RefusesToken (lexeme_in lexeme self.old) decided refusal) }
        ensures memory { IfErr result (λ refusal. refusal.reason ≡ Memory →
            refusal.offset ≡ before) }
        ensures known { known self.new ≡ known self.old }
        ensures looked { self.new.looked ≡ self.old.looked }
        ensures left { self.new.left ≡ self.old.left }
        ensures lends { IfOk result (λ token.
            BorrowsAt before token.start token.end piece.now token.body) }
        ensures whole { IfOk result (λ token. IsWhole token.body) }
    {
        let Lexeme { start, end, kind } = lexeme;
        let lent = lent(piece, before, lexeme);
        match body_of(self.alloc, kind, &mut self.ended, lent) {
            Ok(body) => Ok(Token { start, end, body }),
            Err(Reason::Memory) => Err(Refusal {
                offset: before,
                reason: Reason::Memory,
            }),
            Err(reason) => Err(Refusal {
                offset: decided,
                reason,
            }),
        }
    }

    // Judges the token to which a step led, and which an octet ended that is left or not.
    fn given<'p>(
        &mut self,
        lexeme: Lexeme,
        before: u64,
        left: bool,
        piece: &'p [u8],
    ) -> Result<Scan<'p>, Refusal>
        requires before { before ≤ self.old.used }
        requires room { self.old.used < 2 ^ 63 }
        ensures ok { IfOk result (λ scan. GivesToken (lexeme_in lexeme self.old) scan.token ×
            (self.old.used ≡ before + scan.used)) }
        ensures err { IfErr result (λ refusal. refusal.reason ≢ Memory →
            RefusesToken (lexeme_in lexeme self.old) (deciding self.old.used left) refusal) }
        ensures memory { IfErr result (λ refusal. refusal.reason ≡ Memory →
            refusal.offset ≡ before) }
        ensures known { known self.new ≡ known self.old }
        ensures looked { self.new.looked ≡ self.old.looked }
        ensures left { self.new.left ≡ left }
        ensures lends { IfOk result (λ scan. IfSome scan.token (λ token.
            BorrowsAt before token.start token.end piece.now token.body)) }
        ensures whole { IfOk result (λ scan. IfSome scan.token (λ token. IsWhole token.body)) }
    {
        self.left = left;
        let used = (self.used - before) as usize;
        if let TokenKind::Mark(mark) = lexeme.kind {
            let token = Token {
                start: lexeme.start,
                end: lexeme.end,
                body: Body::Mark(mark),
            };
            return Ok(Scan {
                used,
                token: Some(token),
            });
        }
        let decided = if left { self.used + 1 } else { self.used };
        let token = self.judged(lexeme, before, decided, piece)?;
        Ok(Scan {
            used,
            token: Some(token),
        })
    }

    /// Takes up octets of a piece up to the first token, and judges it.
    pub fn scan<'p>(&mut self, piece: &'p [u8], place: Place) -> Result<Scan<'p>, Refusal>
        requires { self.old.used + length piece.now < 2 ^ 63 }
        ensures answers { Answers self.old.used (run place piece.now (known self.old))
            (answered result self.new.left) (known self.new) }
        ensures steady { IfOk result (λ _. IsSteady (known self.old) self.old.looked →
            IsSteady (known self.new) self.new.looked) }
        ensures lends { IfOk result (λ scan. IfSome scan.token (λ token.
            BorrowsAt self.old.used token.start token.end piece.now token.body)) }
        ensures looked { IfOk result (λ scan. self.new.looked
            ≡ min (self.old.looked + deciding scan.used self.new.left) (2 ^ 64 - 1)) }
        ensures looked_at { IfErr result (λ refusal. refusal.reason ≢ Memory → self.new.looked
            ≡ min (self.old.looked + (refusal.offset - self.old.used)) (2 ^ 64 - 1)) }
        ensures memory { IfErr result (λ refusal. refusal.reason ≡ Memory →
            refusal.offset ≡ self.old.used) }
        ensures whole { IfOk result (λ scan. IfSome scan.token (λ token. IsWhole token.body)) }
    {
        let before = self.used;
        match self.run(place, piece) {
            Err(_) => Err(Refusal {
                offset: before,
                reason: Reason::Memory,
            }),
            Ok(Taken::Next) => {
                self.left = false;
                Ok(Scan {
                    used: piece.len(),
                    token: None,
                })
            }
            Ok(Taken::Given(lexeme)) => self.given(lexeme, before, false, piece),
            Ok(Taken::Left(lexeme)) => self.given(lexeme, before, true, piece),
            Ok(Taken::Refused(refusal)) => Err(refusal),
        }
    }

    /// Judges the token that the end of the octets shows to be whole, if one is open.
    pub fn finish<'p>(&mut self, place: Place) -> Result<Option<Token<'p>>, Refusal>
        ensures ends { Ends self.old.used (at_end place (known self.old)) result }
        ensures memory { IfErr result (λ refusal. refusal.reason ≡ Memory →
            refusal.offset ≡ self.old.used) }
        ensures lends { IfOk result (λ token. IfSome token (λ token.
            BorrowsAt self.old.used token.start token.end [] token.body)) }
        ensures whole { IfOk result (λ token. IfSome token (λ token. IsWhole token.body)) }
    {
        let used = self.used;
        match self.end(place) {
            Ok(None) => Ok(None),
            Ok(Some(lexeme)) => Ok(Some(self.judged(lexeme, used, used, &[])?)),
            Err(reason) => Err(Refusal {
                offset: used,
                reason,
            }),
        }
    }
}
