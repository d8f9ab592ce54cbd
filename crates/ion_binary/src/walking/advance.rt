//! Walks over pieces: octets of a body or a pad are taken up at once, else one.
ghost use Rattle.std.specs.Prelude.{◌≡◌, ◌≢◌, ℕ, ◌+◌, ◌-◌, ◌≤◌, ◌<◌, ◌^◌, [], ◌++◌, List, true, false, length, take, None, Some, Result, IfOk, IfErr, IfSome, IsNone, IsSome};
ghost use Rattle.ion_binary.specs.Names.{Answers, EndsOn, Event, Frame as AnyFrame, Holds, Memory, Moves, Reads, RefusesBy, SameSetting, StepsInside, StepsOver, Told, Value as AnyValue, Walks, WalksOn, awaits, failed, if_ended, judge, judged, pending, run_of, shells, taken, told, trace, whole};
ghost use Rattle.ion_binary.specs.declared.state.Phase.TheVariants as phases;
ghost use Rattle.ion_binary.specs.machine.EachOctet.{moved};
ghost use Rattle.ion_binary.specs.walking.Runs.{Led, TakesUp, kept};
ghost use Rattle.ion_symtab.specs.Walks.{DoesWalk, answer_of};
ghost use Rattle.ion_symtab.specs.declared.items.Went.TheVariants as wents;

use super::{BinaryWalk, TableFilter};
use crate::form::Scalar;
use crate::state::{Effect, Mark, Phase};
use crate::walking::open_body::OpenBody;
use crate::walking::whole_headers::LEAST_OF_CONTAINERS;
use crate::walking::whole_leaves::Leaf;
use ion_model::{Reason, Refusal};
use ion_symtab::{Catalog, Context, Limits, Walked, Went};
use ion_visiting::Visitor;
use std::alloc::Global;

impl<'a> BinaryWalk<'a> {
    /// A reader of no octets yet, for a document within these limits that may import the shared
    /// tables of `catalog`. The only refusal is `Memory`.
    pub fn new(
        alloc: Global,
        catalog: &'a Catalog,
        limits: Limits,
    ) -> Result<BinaryWalk<'a>, Reason>
        ensures told { IfOk result (λ r. Told r [] [] []) }
        ensures catalog { IfOk result (λ r. r.catalog.now ≡ catalog.now) }
        ensures limits { IfOk result (λ r. r.limits ≡ limits) }
        ensures used { IfOk result (λ r. r.used ≡ 0) }
        ensures failed { IfOk result (λ r. r.failed ≡ None) }
        ensures memory { IfErr result (λ reason. reason ≡ Memory) }
    {
        let context = Context::system(alloc)?;
        Ok(BinaryWalk {
            catalog,
            limits,
            used: 0,
            start: 0,
            context,
            phase: Phase::InMarker(Mark::First, true),
            body: OpenBody::new(alloc),
            frames: Vec::new(alloc),
            name: 0,
            filter: TableFilter::new(alloc),
            failed: None,
        })
    }
}

impl BinaryWalk<'_> {
    /// Takes up octets at the front of a piece, which `used` counts: what the last of them did. Where
    /// they are refused, that one decided, and nothing else is known of the machine.
    fn read_piece<V: Visitor>(&mut self, piece: &[u8], visitor: &mut V) -> Result<Effect, Reason>
        requires room { self.old.used + length piece.now < 2 ^ 63 }
        requires some { 0 < length piece.now }
        ensures does { Reads V.takes self.old piece.now result self.new visitor.old visitor.new }
        ensures up { TakesUp self.old.used self.new.used piece.now result }
        ensures setting { SameSetting self.old self.new }
    {
        match self.phase {
            Phase::Ready => return self.read_opening(piece, visitor),
            Phase::InBody(scalar, missing) => {
                return self.read_body(scalar, missing, piece, visitor);
            }
            Phase::InPad(missing) if missing > 0 => {
                self.read_pad(missing, piece);
                return Ok(Effect::Goes);
            }
            _ => {}
        }
        if let Some((id, named, end)) = self.whole_name(piece) {
            if named < piece.len() && piece[named] >= LEAST_OF_CONTAINERS {
                self.used += named as u64;
                return self.name_came(id);
            }
            return self.read_fields(id, named, end, piece, visitor);
        }
        self.feed(piece[0], visitor)
    }

    /// Takes up octets of a scalar's body, of which so many are missing behind the next one: the last
    /// of them, or all of a piece, which are kept. Inlined into `go_on`, it would slow that down.
    #[inline(never)]
    fn read_body<V: Visitor>(
        &mut self,
        scalar: Scalar,
        missing: u64,
        piece: &[u8],
        visitor: &mut V,
    ) -> Result<Effect, Reason>
        requires phase { self.old.phase ≡ phases.InBody scalar missing }
        requires room { self.old.used + length piece.now < 2 ^ 63 }
        requires some { 0 < length piece.now }
        ensures does { Reads V.takes self.old piece.now result self.new visitor.old visitor.new }
        ensures up { TakesUp self.old.used self.new.used piece.now result }
        ensures setting { SameSetting self.old self.new }
    {
        let count = piece.len() as u64;
        if missing < count {
            return self.read_end(scalar, &piece[..missing as usize + 1], visitor);
        }
        self.body.extend_from_slice(piece)?;
        self.used += count;
        self.phase = Phase::InBody(scalar, missing - count);
        Ok(Effect::Goes)
    }

    /// Takes up the last octets of a scalar's body. A body without earlier octets is judged where
    /// it stands.
    fn read_end<V: Visitor>(
        &mut self,
        scalar: Scalar,
        octets: &[u8],
        visitor: &mut V,
    ) -> Result<Effect, Reason>
        requires room { self.old.used + length octets.now < 2 ^ 63 }
        ensures does { StepsInside V.takes self.old
            (λ setting spot fs. judged setting (moved spot (self.old.used + length octets.now)) fs
            (judge self.old.context scalar (self.old.body ++ octets.now)))
            result self.new visitor.old visitor.new }
        ensures moves { Moves self.old self.new (self.old.used + length octets.now) }
    {
        self.used += octets.len() as u64;
        if self.body.is_empty() {
            return self.leaf(Leaf::Scalar(scalar), octets, visitor);
        }
        self.body.extend_from_slice(octets)?;
        self.kept_scalar(scalar, visitor)
    }

    /// Skips the octets of a pad that goes on behind them: how many.
    fn read_pad(&mut self, missing: u64, piece: &[u8]) -> usize
        requires phase { self.old.phase ≡ phases.InPad missing }
        requires room { self.old.used + length piece.now < 2 ^ 63 }
        requires some { 0 < length piece.now }
        requires more { 0 < missing }
        ensures within { result ≤ length piece.now }
        ensures some { 0 < result }
        ensures led { (fs : List AnyFrame) → Holds self.old fs →
            Led (run_of self.old fs (take result piece.now)) self.new fs }
        ensures moves { Moves self.old self.new (self.old.used + result) }
    {
        let skipped = missing.min(piece.len() as u64);
        self.used += skipped;
        self.phase = Phase::InPad(missing - skipped);
        skipped as usize
    }

    /// Takes up the octets of a piece up to the end of the next value. A refusal's offset counts the
    /// octet that decided; `Memory` has the octets of earlier walks.
    #[inline(always)]
    fn advance<V: Visitor>(&mut self, piece: &[u8], visitor: &mut V) -> Result<Walked, Refusal>
        requires room { self.old.used + length piece.now < 2 ^ 63 }
        ensures does { (fs : List AnyFrame) → Holds self.old fs →
            Walks V.takes (told fs) self.old.used (run_of self.old fs) piece.now
            result self.new visitor.old visitor.new }
        ensures within { IfOk result (λ walked. walked.used ≤ length piece.now) }
        ensures used { IfOk result (λ walked. self.new.used ≡ self.old.used + walked.used) }
        ensures all { IfOk result (λ walked.
            walked.ended ≡ false → walked.used ≡ length piece.now) }
        ensures some { IfOk result (λ walked. walked.ended ≡ true → 0 < walked.used) }
        ensures decides { IfErr result (λ refusal. refusal.reason ≢ Memory →
            (self.old.used < refusal.offset)
            × (refusal.offset ≤ self.old.used + length piece.now)) }
        ensures memory { IfErr result (λ refusal.
            refusal.reason ≡ Memory → refusal.offset ≡ self.old.used) }
        ensures setting { SameSetting self.old self.new }
    {
        let before = self.used;
        let mut i = 0;
        while i < piece.len() {
            match self.read_piece(&piece[i..], visitor) {
                Ok(Effect::Goes) => i = (self.used - before) as usize,
                Ok(Effect::Gives) => {
                    return Ok(Walked {
                        used: (self.used - before) as usize,
                        ended: true,
                    });
                }
                Err(Reason::Memory) => {
                    return Err(Refusal {
                        offset: before,
                        reason: Reason::Memory,
                    });
                }
                Err(reason) => {
                    let offset = self.used;
                    return Err(Refusal { offset, reason });
                }
            }
        }
        self.let_go(piece.len(), visitor);
        Ok(Walked {
            used: piece.len(),
            ended: false,
        })
    }

    /// Behind a piece of so many octets: lets go of the front of a long string, clob or blob that
    /// is open, if the visitor heeds its kind alone and it is in no local symbol table.
    #[inline(never)]
    fn let_go<V: Visitor>(&mut self, came: usize, visitor: &V)
        ensures { self.new ≡ self.old }
    {
        if let Phase::InBody(scalar, _) = self.phase {
            if visitor.heeds_kinds_alone() && !self.filter.may_be_table() {
                self.body.let_go_front(scalar, came);
            }
        }
    }

    /// What `walk` does, of which it answers what `Went` says.
    #[inline(never)]
    fn go_on<V: Visitor>(&mut self, piece: &[u8], visitor: &mut V) -> Went
        requires room { IsNone self.old.failed → self.old.used + length piece.now < 2 ^ 63 }
        ensures setting { (self.new.catalog.now ≡ self.old.catalog.now)
            × (self.new.limits ≡ self.old.limits) }
        ensures walks { DoesWalk V.takes taken pending awaits failed Told
            (trace self.old.catalog.now self.old.limits) self.old self.new piece.now
            (answer_of result (length piece.now) self.new.failed) visitor.old visitor.new }
        ensures refused { result ≡ wents.Refused → IsSome self.new.failed }
    {
        if self.failed.is_some() {
            return Went::Refused;
        }
        match self.advance(piece, visitor) {
            Ok(walked) if walked.ended => Went::Ended(walked.used),
            Ok(_) => Went::Ran,
            Err(refusal) => {
                self.failed = Some(refusal);
                Went::Refused
            }
        }
    }

    /// Takes up the octets of a piece up to the end of the next value of the top level, and tells a
    /// visitor what comes of them, as `Items::walk` promises it.
    ///
    /// The first refusal comes again with each call. `Memory` comes where memory was refused, where
    /// the visitor can't go on, and where octets of a scalar were let go that an earlier visitor
    /// didn't heed, and this one does.
    #[inline(always)]
    pub fn walk<V: Visitor>(&mut self, piece: &[u8], visitor: &mut V) -> Result<Walked, Refusal>
        requires room { IsNone self.old.failed → self.old.used + length piece.now < 2 ^ 63 }
        ensures setting { (self.new.catalog.now ≡ self.old.catalog.now)
            × (self.new.limits ≡ self.old.limits) }
        ensures leaves { IfOk result (λ walked. StepsOver taken pending awaits failed
            self.old self.new piece.now walked.used (if_ended walked.ended)) }
        ensures tells { IfOk result (λ walked.
            (u : List ℕ) (s : List (AnyValue × ℕ)) (es : List Event) → Told self.old u s es →
            WalksOn V.takes Told u s es piece.now walked.used walked.ended
            self.new visitor.old visitor.new) }
        ensures answers { IfErr result (λ refusal.
            (u : List ℕ) (s : List (AnyValue × ℕ)) (es : List Event) → Told self.old u s es →
            Answers (trace self.old.catalog.now self.old.limits) u s piece.now
            (Result.Err refusal)) }
        ensures refuses { IfErr result (RefusesBy taken pending awaits failed
            self.old self.new piece.now) }
        ensures again { IfSome self.old.failed (λ refusal. result ≡ Result.Err refusal) }
    {
        match self.go_on(piece, visitor) {
            Went::Ended(used) => Ok(Walked { used, ended: true }),
            Went::Ran => Ok(Walked {
                used: piece.len(),
                ended: false,
            }),
            Went::Refused => match self.failed {
                Some(refusal) => Err(refusal),
                None => unreachable!(),
            },
        }
    }

    /// Whether the octets so far are whole pieces.
    fn is_whole(&self) -> bool
        ensures { result ≡ whole self.now.phase (shells self.now) }
    {
        match self.phase {
            Phase::Ready => self.frames.is_empty(),
            _ => false,
        }
    }

    /// Ends the octets, which end no value that hasn't ended: whether one ended, so never. A refusal
    /// has the octets of all pieces, `Incomplete` where they end inside a value, a pad or a marker.
    pub fn finish_by<V: Visitor>(self, visitor: &mut V) -> Result<bool, Refusal>
        ensures never { IfOk result (λ ended. ended ≡ false) }
        ensures ends { (u : List ℕ) (s : List (AnyValue × ℕ)) (es : List Event) →
            Told self.entry u s es →
            EndsOn V.takes (trace self.entry.catalog.now self.entry.limits u) es
            result visitor.old visitor.new }
        ensures memory { IfErr result (λ refusal. refusal.reason ≡ Memory →
            IsNone self.entry.failed → refusal.offset ≡ self.entry.used) }
        ensures again { IfSome self.entry.failed (λ refusal. result ≡ Result.Err refusal) }
    {
        let failed = self.failed;
        let whole = self.is_whole();
        let end = self.used;
        drop(self);
        if let Some(refusal) = failed {
            return Err(refusal);
        }
        if whole {
            return Ok(false);
        }
        Err(Refusal {
            offset: end,
            reason: Reason::Incomplete,
        })
    }

    /// Refuses from now on, behind so many octets: what was told got no memory.
    pub(crate) fn run_out(&mut self, used: u64) -> Refusal
        ensures refusal { result ≡ record { offset = used; reason = Memory } }
        ensures kept { self.new ≡ record self.old { failed = Some result } }
    {
        let refusal = Refusal {
            offset: used,
            reason: Reason::Memory,
        };
        self.failed = Some(refusal);
        refusal
    }

    /// How many octets were used so far.
    pub fn used(&self) -> u64
        ensures { result ≡ taken self.now }
    {
        self.used
    }

    /// How many octets of the body of a scalar came so far, also those that were let go: at most as
    /// many as the limit on items allows.
    pub fn held(&self) -> usize
        ensures { result ≡ kept self.now }
    {
        match self.phase {
            Phase::InBody(_, _) => self.body.len(),
            _ => 0,
        }
    }
}
