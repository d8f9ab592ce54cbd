//! Texts of which the front is let go, since nobody asks what they say. What is known of them stays
//! the same.
ghost use Rattle.std.specs.Prelude.{◌≡◌, ◌≢◌, ◌+◌, ◌-◌, ◌<◌, ◌≤◌, ◌^◌, ◌++◌, ℕ, List, Ok, Err, [], length, min, take, true, false, IfOk, IfErr, IfSome, IsNone, IsUtf8};
ghost use Rattle.ion_tokens.specs.Bodies.{IsWhole, content};
ghost use Rattle.ion_tokens.specs.Names.{Answers, BadUtf8, BorrowsAt, GivesToken, IsBody, IsSteady, Memory, Passes, RefusesToken, answered, at_end, deciding, run};
ghost use Rattle.ion_tokens.specs.machine.Steps.{Ends};
ghost use Rattle.ion_tokens.specs.machine.LetGo.{IsBehind, behind_gone, begun_gone, in_base64, in_string, is_string_kind, is_text_kind, may_let_go, quotes_kept, text_content};
ghost use Rattle.ion_tokens.specs.machine.Machines.{known, lexeme_in};

use crate::gone_front::GoneFront;
use crate::machine::{Lexeme, Machine, Taken};
use crate::mode::{Lob, Mode, Place, Style, TokenKind, Within};
use crate::token::{Body, Scan, TextKind, Token};
use ion_atoms::{LetGo, Reason, Refusal};
use std::mem;

/// So few octets aren't let go.
pub const FEW: usize = 1024;

/// From so many octets on, none are let go of a text.
pub const MOST: u64 = 1 << 62;

// Of which texts the front may be let go.
fn may_let_go(mode: Mode) -> bool
    ensures { result ≡ may_let_go mode }
{
    match mode {
        // a short clob has no raw quotes
        Mode::Text(Style::ShortClob, Within::OneQuote | Within::TwoQuotes) => false,
        Mode::Text(style, _) => !matches!(style, Style::QuotedSymbol),
        Mode::Lob(lob) => matches!(
            lob,
            Lob::BlobClose
                | Lob::AfterShort
                | Lob::AfterLong
                | Lob::AfterQuote
                | Lob::AfterQuotes
                | Lob::ClobClose
        ),
        _ => false,
    }
}

/// Whether base64 is being read.
pub fn in_base64(mode: Mode) -> bool
    ensures { result ≡ in_base64 mode }
{
    matches!(mode, Mode::Lob(Lob::Base64))
}

// Whether it is in a string, which has to be UTF-8.
fn in_string(mode: Mode) -> bool
    ensures { result ≡ in_string mode }
{
    matches!(mode, Mode::Text(Style::ShortString | Style::LongString, _))
}

fn is_string(kind: TokenKind) -> bool
    ensures { result ≡ is_string_kind kind }
{
    matches!(kind, TokenKind::ShortString | TokenKind::LongString)
}

// Whether what begins with an octet is a character, and not the rest of one (RFC 3629, section 3).
fn begins_character(octet: &u8) -> bool {
    *octet < 0x80 || 0xbf < *octet
}

// What a text says of which octets were let go.
fn said<'p>(kind: TokenKind, gone: LetGo) -> Body<'p>
    ensures says { content result ≡ text_content kind gone }
    ensures lends { (before start end : ℕ) (piece : List ℕ) →
        BorrowsAt before start end piece result }
{
    match kind {
        TokenKind::ShortString => Body::LetGo(TextKind::Short, gone),
        TokenKind::LongString => Body::LetGo(TextKind::Long, gone),
        TokenKind::Clob => Body::LetGo(TextKind::Clob, gone),
        _ => Body::LetGo(TextKind::Blob, gone),
    }
}

// The same, of which octets were let go before these; `None` where they make no string.
fn body_behind<'p>(kind: TokenKind, gone: LetGo, rest: &[u8]) -> Option<Body<'p>>
    requires room { length gone + length rest.now < 2 ^ 63 }
    requires text { is_text_kind kind ≡ true }
    requires utf8 { is_string_kind kind ≡ true → IsUtf8 gone }
    ensures says { IfSome result (λ body. IsBody kind (gone ++ rest.now) (Ok (content body))) }
    ensures passes { IfSome result (λ _. Passes kind (gone ++ rest.now)) }
    ensures lends { (before start end : ℕ) (piece : List ℕ) →
        IfSome result (λ body. BorrowsAt before start end piece body) }
    ensures refuses { IsNone result → IsBody kind (gone ++ rest.now) (Err BadUtf8) }
{
    if is_string(kind) && !simdutf8::is_utf8(rest) {
        return None;
    }
    let mut gone = gone;
    gone.add(rest);
    Some(said(kind, gone))
}

impl Machine {
    // A token ended, of which octets were let go before those that are kept of it.
    pub fn given_behind<'p>(
        &mut self,
        lexeme: Lexeme,
        before: u64,
        gone: &mut GoneFront,
    ) -> Result<Scan<'p>, Refusal>
        requires before { before ≤ self.old.used }
        requires room { length gone.old.octets + length self.old.ended.items < 2 ^ 63 }
        requires text { is_text_kind lexeme.kind ≡ true }
        requires utf8 { is_string_kind lexeme.kind ≡ true → IsUtf8 gone.old.octets }
        ensures none { gone.new.octets ≡ [] }
        ensures known { behind_gone gone.new.octets (known self.new) ≡ known self.old }
        ensures token { IfOk result (λ scan.
            GivesToken (begun_gone gone.old.octets (lexeme_in lexeme self.old)) scan.token
            × (self.old.used ≡ before + scan.used)) }
        ensures refuses { IfErr result (λ refusal. (refusal.reason ≡ BadUtf8)
            × RefusesToken (begun_gone gone.old.octets (lexeme_in lexeme self.old))
            self.old.used refusal) }
        ensures lends { (piece : List ℕ) → IfOk result (λ scan. IfSome scan.token (λ token.
            BorrowsAt before token.start token.end piece token.body)) }
        ensures looked { self.new.looked ≡ self.old.looked }
        ensures left { self.new.left ≡ false }
    {
        self.left = false;
        let used = (self.used - before) as usize;
        let first = gone.take();
        match body_behind(lexeme.kind, first, &self.ended) {
            Some(body) => Ok(Scan {
                used,
                token: Some(Token {
                    start: lexeme.start,
                    end: lexeme.end,
                    body,
                }),
            }),
            None => Err(Refusal {
                offset: self.used,
                reason: Reason::BadUtf8,
            }),
        }
    }

    /// Takes up octets of a piece up to the first token, and judges it, where octets of the open
    /// text may have been let go.
    pub fn scan_behind<'p>(
        &mut self,
        gone: &mut GoneFront,
        piece: &'p [u8],
        place: Place,
    ) -> Result<Scan<'p>, Refusal>
        requires room { self.old.used + length piece.now < 2 ^ 63 }
        requires behind { IsBehind gone.old (known self.old) }
        requires steady { IsSteady (behind_gone gone.old.octets (known self.old)) self.old.looked }
        ensures answers { Answers self.old.used
            (run place piece.now (behind_gone gone.old.octets (known self.old)))
            (answered result self.new.left) (behind_gone gone.new.octets (known self.new)) }
        ensures behind { IfOk result (λ _. IsBehind gone.new (known self.new)) }
        ensures nothing_gone { gone.old.octets ≡ [] → (gone.new.octets ≡ [])
            × IfOk result (λ scan. IfSome scan.token (λ token. IsWhole token.body)) }
        ensures taken { IfOk result (λ scan. IfSome scan.token (λ _. gone.new.octets ≡ [])) }
        ensures steady { IfOk result (λ _.
            IsSteady (behind_gone gone.old.octets (known self.old)) self.old.looked →
            IsSteady (behind_gone gone.new.octets (known self.new)) self.new.looked) }
        ensures lends { IfOk result (λ scan. IfSome scan.token (λ token.
            BorrowsAt self.old.used token.start token.end piece.now token.body)) }
        ensures looked { IfOk result (λ scan. self.new.looked
            ≡ min (self.old.looked + deciding scan.used self.new.left) (2 ^ 64 - 1)) }
        ensures looked_at { IfErr result (λ refusal. refusal.reason ≢ Memory → self.new.looked
            ≡ min (self.old.looked + (refusal.offset - self.old.used)) (2 ^ 64 - 1)) }
        ensures memory { IfErr result (λ refusal. refusal.reason ≡ Memory →
            refusal.offset ≡ self.old.used) }
    {
        if gone.is_nothing() {
            return self.scan(piece, place);
        }
        if in_base64(self.mode) {
            return self.scan_base64(gone, piece, place);
        }
        let before = self.used;
        match self.run(place, piece) {
            Err(_) => Err(Refusal {
                offset: before,
                reason: Reason::Memory,
            }),
            Ok(Taken::Next) => {
                self.left = false;
                Ok(Scan {
                    used: piece.len(),
                    token: None,
                })
            }
            Ok(Taken::Given(lexeme)) => self.given_behind(lexeme, before, gone),
            Ok(Taken::Left(_)) => unreachable!(),
            Ok(Taken::Refused(refusal)) => Err(refusal),
        }
    }
    /// What the end of the octets shows, where octets of the open text may have been let go: no such
    /// text ends there.
    pub fn finish_behind<'p>(
        &mut self,
        gone: &GoneFront,
        place: Place,
    ) -> Result<Option<Token<'p>>, Refusal>
        requires { IsBehind gone.now (known self.old) }
        ensures ends { Ends self.old.used
            (at_end place (behind_gone gone.now.octets (known self.old))) result }
        ensures memory { IfErr result (λ refusal. refusal.reason ≡ Memory →
            refusal.offset ≡ self.old.used) }
        ensures lends { IfOk result (λ token. IfSome token (λ token.
            BorrowsAt self.old.used token.start token.end [] token.body)) }
        ensures whole { IfOk result (λ token. IfSome token (λ token. IsWhole token.body)) }
    {
        if gone.is_nothing() {
            return self.finish(place);
        }
        Err(Refusal {
            offset: self.used,
            reason: Reason::Incomplete,
        })
    }

    // How many of the octets that are kept may be let go: none of few. Whole characters of a string
    // are, and of a close no quotes.
    fn spare(&self) -> usize
        ensures within { result ≤ length self.now.kept.items }
        ensures kept { 0 < result → result + 4 ≤ length self.now.kept.items }
        ensures text { 0 < result → may_let_go self.now.mode ≡ true }
        ensures utf8 { in_string self.now.mode ≡ true → IsUtf8 (take result self.now.kept.items) }
    {
        let kept = self.kept.as_slice();
        if kept.len() < FEW || !may_let_go(self.mode) {
            return 0;
        }
        let front = &kept[..kept.len() - 4];
        if !in_string(self.mode) {
            return front.len();
        }
        let whole = front.iter().rposition(begins_character).unwrap_or(0);
        if simdutf8::is_utf8(&kept[..whole]) {
            whole
        } else {
            0
        }
    }

    /// Lets go octets of the open text that are kept, but for the last: what is known stays so with
    /// those before it. It is some of a kibibyte or more of a string, a clob or a blob, unless memory
    /// was refused for the others.
    pub fn let_go(&mut self, gone: &mut GoneFront)
        requires { IsBehind gone.old (known self.old) }
        ensures behind { IsBehind gone.new (known self.new) }
        ensures known { behind_gone gone.new.octets (known self.new)
            ≡ behind_gone gone.old.octets (known self.old) }
        ensures looked { self.new.looked ≡ self.old.looked }
        ensures left { self.new.left ≡ self.old.left }
    {
        if in_base64(self.mode) {
            return self.let_go_base64(gone);
        }
        let spare = self.spare();
        if spare == 0 || spare as u64 > MOST || gone.count() >= MOST {
            return;
        }
        self.ended.clear();
        if self.ended.extend_from_slice(&self.kept[spare..]).is_err() {
            return;
        }
        gone.add(&self.kept[..spare]);
        mem::swap(&mut self.kept, &mut self.ended);
    }
}
