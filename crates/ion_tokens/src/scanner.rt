//! The scanner, to which the octets come in pieces.
ghost use Rattle.std.specs.Prelude.{◌≡◌, None};
ghost use Rattle.ion_tokens.specs.machine.Bounds.{IsSteady};
ghost use Rattle.ion_tokens.specs.machine.LetGo.{IsBehind, behind_gone};
ghost use Rattle.ion_tokens.specs.machine.Machines.{known};

use crate::begun::{is_idle, shown};
use crate::gone_front::GoneFront;
use crate::machine::{Machine, start_of};
use crate::mode::{Mode, Place};
use crate::plain_tokens::Rest;
use crate::table::next;
use crate::token::{Begun, Foresight, Scan, Token};
use ion_atoms::{Reason, Refusal};
use std::alloc::Global;
use std::fmt::{self, Debug, Formatter};

/// A scanner of Ion text, to which the octets come in pieces of any size (Ion 1.0, "Ion Text
/// Encoding").
///
/// Its tokens, its refusal and the totals of octets used at which the tokens come depend on the
/// octets and the places alone, and not on how the octets are cut.
#[derive(Drop)]
pub struct Scanner {
    machine: Machine,
    /// What was let go of the front of the open text.
    gone: GoneFront,
    /// The refusal that each call answers from now on.
    failed: Option<Refusal>,
    /// Unless a call was refused, what the machine knows goes with the octets that it took up and
    /// with those that were let go.
    pub ghost steady: { failed ≡ None →
        IsSteady (behind_gone gone.octets (known machine)) machine.looked
        × IsBehind gone (known machine) },
}

impl Debug for Scanner {
    fn fmt<W: fmt::Write>(&self, f: &mut Formatter<W>) -> fmt::Result {
        f.debug_struct("Scanner").finish_non_exhaustive()
    }
}

impl Scanner {
    ghost use Rattle.std.specs.Prelude.{Ok, ◌≢◌, ◌+◌, ◌-◌, ◌*◌, ◌≤◌, ◌<◌, ◌^◌, length, [], OnOk, IfOk, IfErr, IfSome, IsNone, List, ℕ, true, false, take, min};
    ghost use Rattle.ion_atoms.specs.declared.refusal.Reason.TheVariants.{Memory};
    ghost use Rattle.ion_tokens.specs.machine.Scanning.{Next, run, at_end, initial, feed, start_of};
    ghost use Rattle.ion_tokens.specs.machine.Bounds.{debt};
    ghost use Rattle.ion_tokens.specs.machine.Views.{scanned, gone_in, failure, left_in, looks, begun_in, held_in, open_in, foresight};
    ghost use Rattle.ion_tokens.specs.machine.AtOnce.{GoesOver};
    ghost use Rattle.ion_tokens.specs.Bodies.{IsWhole};
    ghost use Rattle.ion_tokens.specs.Lexed.{Placed};
    ghost use Rattle.ion_tokens.specs.machine.Foreseen.{Foresees};
    ghost use Rattle.ion_tokens.specs.machine.Lent.{LendsWhole, OwnsLast};
    ghost use Rattle.ion_tokens.specs.machine.Rests.{resting};
    ghost use Rattle.ion_tokens.specs.machine.Scanned.{Scanned, Goes, RefusesAt, EndsWith, NeverEnds, EndsFor, AlwaysShows};
    ghost use Rattle.ion_tokens.specs.machine.Traces.{Places, IsTraced, AnswersTrace, EndsTrace};
    ghost use Rattle.ion_tokens.specs.machine.Steps.{answered, stepped, passed, Answers, Ends, IsWithin, deciding, is_step_reason};

    /// A scanner of no octets yet. It takes no memory.
    pub fn new(alloc: Global) -> Scanner
        ensures known { scanned result ≡ initial }
        ensures failed { failure result ≡ None }
        ensures looked { looks result ≡ 0 }
        ensures steady { IsSteady (scanned result) (looks result) }
        ensures begins { (place : Place) → Scanned place (scanned result) [] [] [] }
        ensures traced { (places : Places) → IsTraced places (scanned result) [] [] [] }
        ensures left { left_in result ≡ false }
        ensures nothing_gone { gone_in result ≡ [] }
    {
        Scanner {
            machine: Machine::new(alloc),
            gone: GoneFront::nothing(),
            failed: None,
        }
    }

    /// Takes up octets of the piece, up to the next token; without a token it used the whole piece.
    /// `place` is where that token stands, which changes only after a token.
    ///
    /// A token may be given before the octet that showed its end, where that octet isn't part of
    /// it: then `used` doesn't count the octet, `left()` says so from then on, and the next piece
    /// has to begin with it.
    ///
    /// A token's body is `Body::LetGo` only where octets of that token were let go.
    ///
    /// A refusal's offset counts the octets of the document up to the one that decides.
    /// `Malformed`, `TooLarge` and `Float` come from numbers as in `number_of`, `Malformed` from
    /// `null.` without the name of a kind and `Float` from a sign with `inf`; `BadEscape`,
    /// `BadUtf8` and `BadBase64` from quoted texts and blobs; `Ambiguous` from a run of two or more
    /// operator characters that ends in `-` before a digit; `Unexpected` from an octet that can't
    /// stand there. `Memory` says nothing of the octets; its offset is the number of octets that
    /// earlier steps used. After a refusal each later call answers that refusal.
    pub fn step<'p>(&mut self, piece: &'p [u8], place: Place) -> Result<Scan<'p>, Refusal>
        requires { (scanned self.old).used + length piece.now < 2 ^ 63 }
        ensures answers { IsNone (failure self.old) →
            Answers (scanned self.old).used (run place piece.now (scanned self.old))
            (answered result (left_in self.new)) (scanned self.new) }
        ensures used { IfOk result (λ scan. scan.used ≤ length piece.now) }
        ensures all { IfOk result (λ scan. scan.token ≡ None → scan.used ≡ length piece.now) }
        ensures counts { IfOk result (λ scan. (scanned self.new).used
            ≡ (scanned self.old).used + scan.used) }
        ensures steady { IfOk result (λ _. IsSteady (scanned self.old) (looks self.old) →
            IsSteady (scanned self.new) (looks self.new)) }
        ensures lends { IsNone (failure self.old) → IfOk result (λ scan. IfSome scan.token
            (λ token. LendsWhole place (scanned self.old) piece.now token)) }
        ensures looked { IfOk result (λ scan. looks self.new
            ≡ min (looks self.old + deciding scan.used (left_in self.new)) (2 ^ 64 - 1)) }
        ensures looked_at { IsNone (failure self.old) →
            IfErr result (λ refusal. refusal.reason ≢ Memory → looks self.new
            ≡ min (looks self.old + (refusal.offset - (scanned self.old).used)) (2 ^ 64 - 1)) }
        ensures few_pending { IfOk result (λ scan. debt (scanned self.new).mode
            ≤ debt (scanned self.old).mode + scan.used) }
        ensures progress { IfOk result (λ scan. IfSome scan.token (λ _.
            debt (scanned self.new).mode < debt (scanned self.old).mode + scan.used)) }
        ensures memory { IfErr result (λ refusal. refusal.reason ≡ Memory →
            IsNone (failure self.old) →
            refusal.offset ≡ (scanned self.old).used) }
        ensures reasons { IsNone (failure self.old) →
            IfErr result (λ refusal. is_step_reason refusal.reason ≡ true) }
        ensures goes { IsNone (failure self.old) →
            IfOk result (λ scan. Goes place (scanned self.old) piece.now
            (stepped scan (left_in self.new)) (scanned self.new)) }
        ensures refuses { IsNone (failure self.old) →
            IfErr result (λ refusal. refusal.reason ≢ Memory →
            RefusesAt place (scanned self.old) piece.now refusal.offset) }
        ensures within { IsNone (failure self.old) →
            IfErr result (λ refusal. refusal.reason ≢ Memory →
            IsWithin (scanned self.old).used (length piece.now) refusal) }
        ensures traced { IsNone (failure self.old) →
            AnswersTrace place (scanned self.old) piece.now
            (answered result (left_in self.new)) (scanned self.new) }
        ensures fails { IfErr result (λ refusal. failure self.new ≡ Some refusal) }
        ensures goes_on { IfOk result (λ _. failure self.new ≡ None) }
        ensures again { IfSome (failure self.old) (λ refusal. result ≡ Err refusal) }
        ensures nothing_gone { gone_in self.old ≡ [] → (gone_in self.new ≡ [])
            × IfOk result (λ scan. IfSome scan.token (λ token. IsWhole token.body)) }
        ensures taken { IfOk result (λ scan. IfSome scan.token (λ _. gone_in self.new ≡ [])) }
    {
        if let Some(refusal) = self.failed {
            return Err(refusal);
        }
        let result = self.machine.scan_behind(&mut self.gone, piece, place);
        if let Err(refusal) = &result {
            self.failed = Some(*refusal);
        }
        result
    }

    /// Ends the octets: the token that the end shows to be whole, if one is open.
    ///
    /// A refusal's offset is the number of octets used, or that of the step that refused before.
    /// `Incomplete` comes where the open octets are no token and no blank, `Float` from a sign with
    /// `inf`, `Malformed`, `TooLarge` and `Float` from numbers as in `number_of`, `Malformed` from
    /// `null.` without the name of a kind, `Memory` from no octets.
    pub fn finish<'p>(self, place: Place) -> Result<Option<Token<'p>>, Refusal>
        ensures ends { IsNone (failure self) →
            Ends (scanned self).used (at_end place (scanned self)) result }
        ensures whole { IsNone (failure self) →
            IfOk result (λ token. EndsWith place (scanned self) token) }
        ensures refuses { IsNone (failure self) →
            IfErr result (λ refusal. refusal.reason ≢ Memory → NeverEnds place (scanned self)) }
        ensures reasons { IsNone (failure self) →
            IfErr result (λ refusal. EndsFor place (scanned self) refusal.reason) }
        ensures traced { IsNone (failure self) → EndsTrace place (scanned self) result }
        ensures owns { IsNone (failure self) → IfOk result (λ token. IfSome token
            (λ token. OwnsLast place (scanned self) token)) }
        ensures memory { IfErr result (λ refusal. refusal.reason ≡ Memory → IsNone (failure self) →
            refusal.offset ≡ (scanned self).used) }
        ensures again { IfSome (failure self) (λ refusal. result ≡ Err refusal) }
        ensures whole_body { IfOk result (λ token. IfSome token (λ token. IsWhole token.body)) }
    {
        if let Some(refusal) = self.failed {
            return Err(refusal);
        }
        let mut machine = self.machine;
        machine.finish_behind(&self.gone, place)
    }

    /// Where it rests, unless a token is open or a step refused.
    pub fn rest(&self) -> Option<Rest>
        ensures rests { IfSome result (λ rest. scanned self.now ≡ resting rest) }
        ensures goes_on { IfSome result (λ _. failure self.now ≡ None) }
    {
        let machine = &self.machine;
        if self.failed.is_some() || !matches!(machine.mode, Mode::Blank) {
            return None;
        }
        Some(Rest {
            start: machine.start,
            used: machine.used,
            colon: machine.colon,
        })
    }

    /// It rests there from now on, behind octets that it didn't take up itself.
    pub fn move_to(&mut self, rest: Rest)
        requires onward { (scanned self.old).used ≤ rest.used }
        requires room { rest.used < 2 ^ 63 }
        ensures rests { scanned self.new ≡ resting rest }
        ensures failure { failure self.new ≡ failure self.old }
        ensures looked { looks self.new
            ≡ min (looks self.old + (rest.used - (scanned self.old).used)) (2 ^ 64 - 1) }
        ensures steady { IsSteady (scanned self.old) (looks self.old) →
            IsSteady (scanned self.new) (looks self.new) }
        ensures left { left_in self.new ≡ false }
        ensures nothing_gone { gone_in self.new ≡ [] }
    {
        if !self.gone.is_nothing() {
            self.gone = GoneFront::nothing();
        }
        let machine = &mut self.machine;
        machine.left = false;
        machine.looked = machine.looked.saturating_add(rest.used - machine.used);
        machine.kept.clear();
        machine.mode = Mode::Blank;
        machine.colon = rest.colon;
        machine.start = rest.start;
        machine.used = rest.used;
    }

    /// How many octets there are at the front of a piece over which what is open goes on as it is:
    /// all or some of these.
    pub fn front(&self, piece: &[u8]) -> usize
        ensures within { result ≤ length piece.now }
        ensures over { GoesOver (scanned self.now).mode (take result piece.now) }
    {
        self.machine.front(piece)
    }

    /// Takes up octets over which what is open goes on as it is, one at least. It leads where a
    /// step over them leads, which gives no token there.
    ///
    /// `Memory` as in `step`.
    #[tactic(auto, using(crate::proofs::runs::GoesOn::going_led))]
    pub fn go_on(&mut self, octets: &[u8]) -> Result<(), Refusal>
        requires room { (scanned self.old).used + length octets.now < 2 ^ 63 }
        requires some { 0 < length octets.now }
        requires over { GoesOver (scanned self.old).mode octets.now }
        ensures ran { IsNone (failure self.old) → OnOk result ((place : Place) →
            run place octets.now (scanned self.old) ≡ Next (scanned self.new)) }
        ensures goes { IsNone (failure self.old) → OnOk result ((place : Place) →
            Goes place (scanned self.old) octets.now (passed octets.now) (scanned self.new)) }
        ensures traced { IsNone (failure self.old) → OnOk result ((place : Place) →
            AnswersTrace place (scanned self.old) octets.now
            (Ok (passed octets.now)) (scanned self.new)) }
        ensures left { OnOk result (left_in self.new ≡ false) }
        ensures steady { OnOk result (IsSteady (scanned self.old) (looks self.old) →
            IsSteady (scanned self.new) (looks self.new)) }
        ensures looked { OnOk result (looks self.new
            ≡ min (looks self.old + length octets.now) (2 ^ 64 - 1)) }
        ensures few_pending { OnOk result (debt (scanned self.new).mode
            ≡ debt (scanned self.old).mode) }
        ensures memory { IsNone (failure self.old) → IfErr result (λ refusal.
            (refusal.reason ≡ Memory) × (refusal.offset ≡ (scanned self.old).used)) }
        ensures fails { IfErr result (λ refusal. failure self.new ≡ Some refusal) }
        ensures goes_on { OnOk result (failure self.new ≡ None) }
        ensures again { IfSome (failure self.old) (λ refusal. result ≡ Err refusal) }
        ensures gone { gone_in self.new ≡ gone_in self.old }
    {
        if let Some(refusal) = self.failed {
            return Err(refusal);
        }
        let offset = self.machine.used;
        match self.machine.go_on(octets) {
            Ok(()) => Ok(()),
            Err(_) => {
                let refusal = Refusal {
                    offset,
                    reason: Reason::Memory,
                };
                self.failed = Some(refusal);
                Err(refusal)
            }
        }
    }

    /// Whether the octet behind those that the last step used ended the token that it gave: the
    /// next piece has to begin with that octet. Behind `go_on` and `move_to` it is false.
    pub fn left(&self) -> bool
        ensures { result ≡ left_in self.now }
    {
        self.machine.left
    }

    /// How many octets were used, by all steps together.
    pub fn used(&self) -> u64
        ensures { result ≡ (scanned self.now).used }
    {
        self.machine.used
    }

    /// Where a token begins that is open behind the next octet: the open one, or else one that
    /// begins there, or with a `/` before it; in a comment, at the `/` with which it began or
    /// before it.
    pub fn since(&self) -> u64
        ensures { result ≡ start_of (scanned self.now).mode (scanned self.now).start
            (scanned self.now).used }
    {
        start_of(self.machine.mode, self.machine.start, self.machine.used)
    }

    /// The refusal that each call answers, if a step refused.
    pub fn refusal(&self) -> Option<Refusal>
        ensures { result ≡ failure self.now }
    {
        self.failed
    }

    /// How many octets were taken up, each as often as it was: unless a call was refused, at least
    /// as many as were used and at most twice as many.
    pub fn looked(&self) -> u64
        ensures looks { result ≡ looks self.now }
        ensures each { IsNone (failure self.now) → (scanned self.now).used ≤ result }
        ensures twice { IsNone (failure self.now) → result ≤ 2 * (scanned self.now).used }
    {
        self.machine.looked
    }

    /// How many octets are kept of the open token, with those that were let go.
    pub fn held(&self) -> usize
        ensures held { result ≡ held_in (scanned self.now) }
        ensures open { IsNone (failure self.now) → result ≤ open_in (scanned self.now) }
    {
        if is_idle(self.machine.mode) {
            0
        } else {
            self.gone.count() as usize + self.machine.kept.len()
        }
    }

    /// Lets go octets of the open string, clob or blob, but for the last. Who does so is told no more
    /// what it says: its token is `Body::LetGo`, and nothing else changes. Behind a refusal there is
    /// nothing to let go.
    pub fn let_go(&mut self)
        ensures scanned { scanned self.new ≡ scanned self.old }
        ensures failure { failure self.new ≡ failure self.old }
        ensures looked { looks self.new ≡ looks self.old }
        ensures left { left_in self.new ≡ left_in self.old }
    {
        if self.failed.is_none() {
            self.machine.let_go(&mut self.gone);
        }
    }

    /// What an octet would show of a token that may go on. It isn't taken up.
    pub fn foresee(&self, place: Place, octet: u8) -> Foresight
        ensures shows { result ≡ foresight (feed place (scanned self.now) octet) }
        ensures foresees { Foresees place (scanned self.now) octet result }
    {
        shown(next(place, self.machine.colon, self.machine.mode, octet))
    }

    /// The token that has begun and not ended: none in a blank, behind a `/` that may open a
    /// comment, and behind one colon.
    pub fn begun(&self) -> Option<Begun>
        ensures begun { result ≡ begun_in (scanned self.now) }
        ensures shows { AlwaysShows (scanned self.now) result }
    {
        self.machine.begun()
    }
}
