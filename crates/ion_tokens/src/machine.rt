//! The scanner's machine: the table, and the octets that are kept of the open token.
ghost use Rattle.std.specs.Prelude.{◌≡◌, ℕ, ◌+◌, ◌-◌, ◌<◌, ◌^◌, [], length, min, IfOk, IfErr, false, ◌≢◌};
ghost use Rattle.ion_tokens.specs.Names.{IsSteady, Memory, StaysSteady, acts, at_end, blob_ends, blob_of, cut, feed, go_to, initial, kept_after, left_of, past, run, split_at, start_of, taken_up, takes_colon};
ghost use Rattle.ion_tokens.specs.machine.Machines.{found_in, known, lexeme_in, outcome_in};

use crate::blob::decoded;
use crate::mode::{Action, End, Keep, Lob, Mode, Place, TokenKind};
use crate::table::{end_of, next};
use ion_atoms::{Reason, Refusal};
use std::alloc::{AllocError, Global};
use std::mem;

/// A token that isn't judged yet; its octets stand in the machine.
#[derive(Clone, Copy)]
pub struct Lexeme {
    pub start: u64,
    pub end: u64,
    pub kind: TokenKind,
}

/// What came of octets.
#[derive(Clone, Copy)]
pub enum Taken {
    /// All were used.
    Next,
    /// The last one was used and ended a token.
    Given(Lexeme),
    /// A token ended before the last one, which wasn't used.
    Left(Lexeme),
    Refused(Refusal),
}

#[derive(Drop)]
pub struct Machine {
    pub alloc: Global,
    pub mode: Mode,
    /// The octets that are kept of the open token.
    pub kept: Vec<u8>,
    /// Those of the token that ended last.
    pub ended: Vec<u8>,
    /// Whether a colon may stand behind the token before.
    pub colon: bool,
    /// Where the open token begins, or the last one ended.
    pub start: u64,
    /// How many octets were used.
    pub used: u64,
    /// How many octets were taken up, each as often as it was.
    pub looked: u64,
    /// Whether the octet behind those used ended the token that was given last.
    pub left: bool,
}

// Adds to the octets that are kept: mostly nothing or one, for which no call is made.
#[inline(always)]
fn keep_in(kept: &mut Vec<u8>, keep: Keep) -> Result<(), AllocError>
    ensures { IfOk result (λ _. kept.new.items ≡ kept_after keep kept.old.items) }
{
    match keep {
        Keep::Nothing => Ok(()),
        Keep::One(octet) => {
            kept.push(octet)?;
            Ok(())
        }
        _ => keep_more(kept, keep),
    }
}

// The same, for what is rarely added.
fn keep_more(kept: &mut Vec<u8>, keep: Keep) -> Result<(), AllocError>
    ensures { IfOk result (λ _. kept.new.items ≡ kept_after keep kept.old.items) }
{
    match keep {
        Keep::Nothing => {}
        Keep::One(octet) => kept.push(octet)?,
        Keep::Two(first, second) => {
            kept.push(first)?;
            kept.push(second)?;
        }
        Keep::Character(c) => {
            let mut octets = [0; 4];
            kept.extend_from_slice(c.encode_utf8(&mut octets).as_bytes())?;
        }
        Keep::DropQuotes => {
            let length = kept.len();
            kept.truncate(length.saturating_sub(2));
        }
    }
    Ok(())
}

// Where a token begins that is open behind the next octet.
pub fn start_of(mode: Mode, start: u64, used: u64) -> u64
    ensures { result ≡ start_of mode start used }
{
    match mode {
        Mode::Blank => used,
        Mode::Slash => used.saturating_sub(1),
        _ => start,
    }
}

// The used octets that are left to a token that follows.
fn left_of(mode: Mode) -> u64
    ensures { result ≡ left_of mode }
{
    if matches!(mode, Mode::Slash) { 1 } else { 0 }
}

// Whether a colon may stand behind the token.
pub(crate) fn takes_colon(place: Place, kind: TokenKind) -> bool
    ensures { result ≡ takes_colon place kind }
{
    match kind {
        TokenKind::Word | TokenKind::KindName | TokenKind::QuotedSymbol => true,
        TokenKind::ShortString | TokenKind::LongString => matches!(place, Place::Name),
        _ => false,
    }
}

impl Machine {
    pub fn new(alloc: Global) -> Machine
        ensures known { known result ≡ initial }
        ensures looked { result.looked ≡ 0 }
        ensures left { result.left ≡ false }
    {
        Machine {
            alloc,
            mode: Mode::Blank,
            kept: Vec::new(alloc),
            ended: Vec::new(alloc),
            colon: false,
            start: 0,
            used: 0,
            looked: 0,
            left: false,
        }
    }

    // The octet is used.
    fn go(&mut self, mode: Mode)
        requires { self.old.used < 2 ^ 63 }
        ensures known { known self.new ≡ go_to (known self.old) mode self.old.kept.items }
        ensures looked { self.new.looked ≡ self.old.looked }
    {
        self.start = start_of(self.mode, self.start, self.used);
        self.mode = mode;
        self.used += 1;
    }

    // A token ended; what was kept of it is set aside.
    fn cut(&mut self, place: Place, kind: TokenKind, end: u64, mode: Mode) -> Lexeme
        ensures lexeme { lexeme_in result self.new ≡ cut (known self.old) kind self.old.kept.items
            end }
        ensures known { known self.new ≡ past place kind mode [] end self.old.used }
        ensures looked { self.new.looked ≡ self.old.looked }
    {
        let start = start_of(self.mode, self.start, self.used);
        mem::swap(&mut self.kept, &mut self.ended);
        self.kept.clear();
        self.mode = mode;
        self.colon = takes_colon(place, kind);
        self.start = end;
        Lexeme { start, end, kind }
    }

    // No document has the octet here.
    fn refuse(&self, reason: Reason) -> Taken
        requires { self.now.used < 2 ^ 63 }
        ensures { result ≡ Taken.Refused (record { offset = self.now.used + 1; reason = reason }) }
    {
        Taken::Refused(Refusal {
            offset: self.used + 1,
            reason,
        })
    }

    // The first brace of a blob's close: its content is decoded.
    fn end_blob(&mut self) -> Result<Taken, AllocError>
        requires { self.old.used < 2 ^ 63 }
        ensures does { IfOk result (λ taken. outcome_in taken self.new
            ≡ blob_ends (known self.old) (blob_of self.old.kept.items)) }
        ensures looked { self.new.looked ≡ self.old.looked }
    {
        if !decoded(self.kept.as_slice(), &mut self.ended)? {
            return Ok(self.refuse(Reason::BadBase64));
        }
        mem::swap(&mut self.kept, &mut self.ended);
        self.go(Mode::Lob(Lob::BlobClose));
        Ok(Taken::Next)
    }

    // A word ended, unless it is `null` and the octet a dot.
    fn end_word(&mut self, place: Place, octet: u8) -> Taken
        requires { self.old.used < 2 ^ 63 }
        ensures does { outcome_in result self.new ≡ acts place (known self.old) octet
            Action.EndWord }
        ensures looked { self.new.looked ≡ self.old.looked }
    {
        if octet == b'.' && self.kept.as_slice() == b"null".as_slice() {
            self.kept.clear();
            self.go(Mode::KindName);
            return Taken::Next;
        }
        let end = self.used;
        Taken::Left(self.cut(place, TokenKind::Word, end, Mode::Blank))
    }

    // An operator ended before letters of `inf`, which begin a word.
    fn split(&mut self, place: Place, letters: u8) -> Result<Taken, AllocError>
        ensures does { IfOk result (λ taken. outcome_in taken self.new
            ≡ split_at place (known self.old) letters) }
        ensures looked { self.new.looked ≡ self.old.looked }
    {
        let end = self.used.saturating_sub(u64::from(letters));
        let lexeme = self.cut(place, TokenKind::Operator, end, Mode::Word);
        let word: &[u8] = b"inf";
        self.kept
            .extend_from_slice(&word[..usize::from(letters.min(3))])?;
        Ok(Taken::Left(lexeme))
    }

    // Does what the table says of an octet.
    fn act(&mut self, place: Place, octet: u8, action: Action) -> Result<Taken, AllocError>
        requires { self.old.used < 2 ^ 63 }
        ensures does { IfOk result (λ taken. outcome_in taken self.new
            ≡ acts place (known self.old) octet action) }
        ensures looked { self.new.looked ≡ self.old.looked }
    {
        match action {
            Action::Go(mode, keep) => {
                keep_in(&mut self.kept, keep)?;
                self.go(mode);
                Ok(Taken::Next)
            }
            Action::Give(kind, keep) => {
                keep_in(&mut self.kept, keep)?;
                let end = self.used + 1;
                let lexeme = self.cut(place, kind, end, Mode::Blank);
                self.used = end;
                Ok(Taken::Given(lexeme))
            }
            Action::Before(kind, keep, mode) => {
                keep_in(&mut self.kept, keep)?;
                let end = self.used.saturating_sub(left_of(mode));
                Ok(Taken::Left(self.cut(place, kind, end, mode)))
            }
            Action::EndWord => Ok(self.end_word(place, octet)),
            Action::Split(letters) => self.split(place, letters),
            Action::EndBlob => self.end_blob(),
            Action::Refuse(reason) => Ok(self.refuse(reason)),
        }
    }

    /// Takes up one octet.
    pub fn take_up(&mut self, place: Place, octet: u8) -> Result<Taken, AllocError>
        requires { self.old.used < 2 ^ 63 }
        ensures does { IfOk result (λ taken. outcome_in taken self.new
            ≡ feed place (known self.old) octet) }
        ensures looked { self.new.looked ≡ min (self.old.looked + 1) (2 ^ 64 - 1) }
        ensures steady { IfOk result (λ taken. IsSteady (known self.old) self.old.looked
            → StaysSteady (outcome_in taken self.new) self.new.looked) }
    {
        self.looked = self.looked.saturating_add(1);
        self.act(place, octet, next(place, self.colon, self.mode, octet))
    }
}

impl Machine {
    /// Takes up octets of a piece, up to the first token.
    pub fn run(&mut self, place: Place, piece: &[u8]) -> Result<Taken, AllocError>
        requires { self.old.used + length piece.now < 2 ^ 63 }
        ensures does { IfOk result (λ taken. outcome_in taken self.new
            ≡ run place piece.now (known self.old)) }
        ensures looked { IfOk result (λ taken. self.new.looked
            ≡ min (self.old.looked + taken_up self.old.used (outcome_in taken self.new))
            (2 ^ 64 - 1)) }
        ensures steady { IfOk result (λ taken. IsSteady (known self.old) self.old.looked
            → StaysSteady (outcome_in taken self.new) self.new.looked) }
    {
        let mut at = 0;
        while at < piece.len() {
            let rest = &piece[at..];
            let count = self.front(rest);
            if count > 0 {
                self.go_on(&rest[..count])?;
                at += count;
            } else {
                match self.take_up(place, piece[at])? {
                    Taken::Next => at += 1,
                    ended => return Ok(ended),
                }
            }
        }
        Ok(Taken::Next)
    }
}

impl Machine {
    /// What the end of the input shows: the token that it ends, if one is open, or why the octets
    /// are none.
    pub fn end(&mut self, place: Place) -> Result<Option<Lexeme>, Reason>
        ensures ok { IfOk result (λ found. at_end place (known self.old)
            ≡ Ok (found_in found self.new)) }
        ensures err { IfErr result (λ reason. reason ≢ Memory → at_end place (known self.old)
            ≡ Err reason) }
    {
        match end_of(place, self.mode) {
            End::Blank => Ok(None),
            End::Token(kind, keep) => {
                keep_in(&mut self.kept, keep)?;
                let end = self.used;
                Ok(Some(self.cut(place, kind, end, Mode::Blank)))
            }
            End::Refuse(reason) => Err(reason),
        }
    }
}
