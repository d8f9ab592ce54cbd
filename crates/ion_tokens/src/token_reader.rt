//! Tokens of any form that lie whole in memory: those with escapes, typed nulls, clobs and blobs,
//! read by a machine beside the scanner's.
ghost use Rattle.std.specs.Prelude.{◌≡◌, ◌≢◌, ◌+◌, ◌<◌, ◌^◌, [], length, Ok, Err, IfOk, IfErr, IfSome, IsNone};
ghost use Rattle.ion_atoms.specs.declared.refusal.Reason.TheVariants.{Memory};
ghost use Rattle.ion_tokens.specs.Bodies.{IsWhole, content};
ghost use Rattle.ion_tokens.specs.machine.Rests.{resting, past_token, lexeme_at, IsFound};
ghost use Rattle.ion_tokens.specs.machine.Said.{said};
ghost use Rattle.ion_tokens.specs.machine.Contents.{StandsWhole};

use crate::body::body_of;
use crate::machine::{Lexeme, Machine, Taken, takes_colon};
use crate::mode::{Mode, Place, TokenKind};
use crate::plain_tokens::Rest;
use crate::token::Body;
use ion_atoms::Reason;
use std::alloc::Global;
use std::fmt::{self, Debug, Formatter};

/// Reads tokens beside a scanner; it keeps the octets of the last one, and none of a token that it
/// didn't find.
#[derive(Drop)]
pub struct TokenReader {
    machine: Machine,
    /// No octets are kept of a token that is open.
    ghost none_open: { machine.kept.items ≡ [] },
}

impl Debug for TokenReader {
    fn fmt<W: fmt::Write>(&self, f: &mut Formatter<W>) -> fmt::Result {
        f.debug_struct("TokenReader").finish_non_exhaustive()
    }
}

/// A token that was found whole.
#[derive(Clone, Copy, Debug)]
pub struct FoundToken {
    pub kind: TokenKind,
    /// How many octets it has.
    pub count: usize,
    /// Whether the octet behind it showed its end.
    pub left: bool,
}

impl TokenReader {
    ghost use Rattle.ion_tokens.specs.machine.Views.{octets_in};

    /// It takes no memory yet.
    pub fn new(alloc: Global) -> TokenReader {
        TokenReader {
            machine: Machine::new(alloc),
        }
    }

    /// What it takes its memory from.
    pub fn alloc(&self) -> Global
        ensures { result ≡ self.now.machine.alloc }
    {
        self.machine.alloc
    }

    /// The token at the front of these octets, where a scanner rests, if its end shows in them.
    /// `None` also where it is refused or unusual, where a comment stands before it, and where
    /// memory runs out. Where none is found no octets are kept.
    #[inline(never)]
    pub fn token(&mut self, place: Place, rest: Rest, octets: &[u8]) -> Option<FoundToken>
        requires { rest.used + length octets.now < 2 ^ 63 }
        ensures found { IfSome result (λ found. IsFound place rest octets.now found.kind
            (octets_in self.new) found.count found.left) }
        ensures none { IsNone result → octets_in self.new ≡ [] }
    {
        self.machine.token(place, rest, octets)
    }

    /// The text in quotes at the front of these octets, wherever a scanner rests, if its characters
    /// stand as they are or are escapes. `None` also of hidden line ends, and where memory runs out.
    /// Where none is found no octets are kept.
    #[inline(never)]
    pub fn text(&mut self, octets: &[u8]) -> Option<FoundToken>
        ensures found { IfSome result (λ found. StandsWhole octets.now (octets_in self.new) found) }
        ensures none { IsNone result → octets_in self.new ≡ [] }
    {
        self.machine.text(octets)
    }

    /// The octets of the token found last; of a text, a clob or a blob what they mean.
    pub fn octets(&self) -> &[u8]
        ensures { result.now ≡ octets_in self.now }
    {
        self.machine.ended.as_slice()
    }

    /// What the token found last says as one of this kind. What is kept of a text, a clob or a blob
    /// is taken.
    pub fn body<'p>(&mut self, kind: TokenKind) -> Result<Body<'p>, Reason>
        ensures says { IfOk result (λ body. said kind (octets_in self.old) ≡ Ok (content body)) }
        ensures refused { IfErr result (λ reason. reason ≢ Memory →
            said kind (octets_in self.old) ≡ Err reason) }
        ensures whole { IfOk result IsWhole }
    {
        body_of(self.machine.alloc, kind, &mut self.machine.ended, &[])
    }
}

impl Machine {
    ghost use Rattle.ion_tokens.specs.machine.Machines.{known, lexeme_in};

    // The token at the front of octets, where it rests. No octets are kept of another one.
    fn token(&mut self, place: Place, rest: Rest, octets: &[u8]) -> Option<FoundToken>
        requires { rest.used + length octets.now < 2 ^ 63 }
        ensures found { IfSome result (λ found. IsFound place rest octets.now found.kind
            self.new.ended.items found.count found.left) }
        ensures none { IsNone result → self.new.ended.items ≡ [] }
        ensures none_open { self.new.kept.items ≡ [] }
    {
        let found = self.find(place, rest, octets);
        self.kept.clear();
        if found.is_none() {
            self.ended.clear();
        }
        found
    }

    // The text in quotes at the front of octets. No octets are kept of another token.
    fn text(&mut self, octets: &[u8]) -> Option<FoundToken>
        ensures found { IfSome result (λ found.
            StandsWhole octets.now self.new.ended.items found) }
        ensures none { IsNone result → self.new.ended.items ≡ [] }
        ensures none_open { self.new.kept.items ≡ [] }
    {
        let found = self.found_at_once(octets);
        self.kept.clear();
        if found.is_none() {
            self.ended.clear();
        }
        found
    }

    // The same, which keeps octets of one that it didn't find.
    fn find(&mut self, place: Place, rest: Rest, octets: &[u8]) -> Option<FoundToken>
        requires { rest.used + length octets.now < 2 ^ 63 }
        ensures { IfSome result (λ found. IsFound place rest octets.now found.kind
            self.new.ended.items found.count found.left) }
    {
        if let Some(found) = self.found_at_once(octets) {
            return Some(found);
        }
        if let Some(found) = self.lob_at_once(place, octets) {
            return Some(found);
        }
        self.rest(rest);
        match self.run(place, octets) {
            Ok(Taken::Given(lexeme)) => self.found(place, rest, lexeme, false),
            Ok(Taken::Left(lexeme)) => self.found(place, rest, lexeme, true),
            _ => None,
        }
    }

    // It rests there.
    fn rest(&mut self, rest: Rest)
        ensures { known self.new ≡ resting rest }
    {
        self.kept.clear();
        self.mode = Mode::Blank;
        self.colon = rest.colon;
        self.start = rest.start;
        self.used = rest.used;
    }

    // The token that ended, if it began where the machine rested and the machine rests behind it.
    fn found(&self, place: Place, rest: Rest, lexeme: Lexeme, left: bool) -> Option<FoundToken>
        ensures some { IfSome result (λ found. 0 < found.count) }
        ensures known { IfSome result (λ found. known self.now
            ≡ resting (past_token place rest found.kind found.count)) }
        ensures lexeme { IfSome result (λ found. lexeme_in lexeme self.now
            ≡ lexeme_at rest found.kind self.now.ended.items found.count) }
        ensures left { IfSome result (λ found. found.left ≡ left) }
    {
        let Lexeme { start, end, kind } = lexeme;
        if start != rest.used || end <= start || self.start != end || self.used != end {
            return None;
        }
        if !matches!(self.mode, Mode::Blank)
            || !self.kept.is_empty()
            || self.colon != takes_colon(place, kind)
        {
            return None;
        }
        Some(FoundToken {
            kind,
            count: (end - start) as usize,
            left,
        })
    }
}
