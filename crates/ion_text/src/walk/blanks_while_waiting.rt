//! Octets that are handed to the scanner at once while something waits, or a mark is awaited: those
//! of a blank or a comment, and of a further segment of a long string.
ghost use Rattle.std.specs.Prelude.{◌≡◌, ◌+◌, ◌<◌, ◌≤◌, ◌^◌, List, length, take, OnOk, IfErr};
ghost use Rattle.ion_text.specs.Names.{Frame, GoesOver, Holds, IsFine, MayWaitOver, Memory, SameReader, StaysSteady, Symbols, ended_so_far, led, reading_of, run, scanned, state_of, waits_over};

use super::TextWalk;
use crate::state::Stage;
use ion_model::Refusal;
use ion_tokens::Form;

impl TextWalk<'_> {
    /// Whether it goes on to wait over octets with which the scanner goes on as it is.
    fn waits_over(&self) -> bool
        ensures { result ≡ waits_over self.now.stage (scanned self.now.scanner).mode }
    {
        match (&self.stage, self.scanner.begun()) {
            (Stage::Ready | Stage::Name, _) => false,
            (_, None) => true,
            (Stage::Long(_, _) | Stage::LongName(_), Some(begun)) => match begun.form {
                Form::Quote | Form::Long => true,
                Form::Other => false,
            },
            _ => false,
        }
    }

    /// Where what waits ended so far.
    fn ended_so_far(&self) -> u64
        ensures { result ≡ ended_so_far self.now.stage }
    {
        match &self.stage {
            Stage::Pending(_, end) => *end,
            Stage::Long(_, end) => *end,
            _ => 0,
        }
    }

    /// How many octets at the front of a piece it waits over: no more than the limit on items
    /// leaves.
    pub(super) fn waiting_run(&self, piece: &[u8]) -> usize
        ensures within { result ≤ length piece.now }
        ensures over { GoesOver (scanned self.now.scanner).mode (take result piece.now) }
        ensures waiting_run { 0 < result → (fs : List Frame) (ss : Symbols) → MayWaitOver self.now.limits
            (reading_of self.now fs ss) (scanned self.now.scanner) result }
    {
        let last = self.start.saturating_add(self.limits.item);
        if !self.waits_over() || self.ended_so_far() > last {
            return 0;
        }
        let room = last.saturating_sub(self.scanner.used());
        let count = self.scanner.front(piece);
        if (count as u64) <= room { count } else { 0 }
    }

    /// Takes up octets over which it waits, of which a visitor hears nothing. The only refusal is
    /// `Memory`.
    pub(super) fn read_while_waiting(&mut self, octets: &[u8]) -> Result<(), Refusal>
        requires fine { IsFine self.old }
        requires room { (scanned self.old.scanner).used + length octets.now < 2 ^ 63 }
        requires some { 0 < length octets.now }
        requires over { GoesOver (scanned self.old.scanner).mode octets.now }
        requires waiting_run { (fs : List Frame) (ss : Symbols) → MayWaitOver self.old.limits
            (reading_of self.old fs ss) (scanned self.old.scanner) (length octets.now) }
        ensures led { OnOk result ((fs : List Frame) (ss : Symbols) →
            run self.old.catalog.now self.old.limits (scanned self.old.scanner).used
            (state_of self.old fs ss) octets.now ≡ led (state_of self.new fs ss)) }
        ensures holds { (fs : List Frame) (ss : Symbols) → Holds self.old fs ss →
            Holds self.new fs ss }
        ensures used { OnOk result
            ((scanned self.new.scanner).used ≡ (scanned self.old.scanner).used
            + length octets.now) }
        ensures memory { IfErr result (λ refusal. refusal.reason ≡ Memory) }
        ensures fine { OnOk result (IsFine self.new) }
        ensures steady { OnOk result (StaysSteady self.old self.new) }
        ensures same { SameReader self.old self.new }
    {
        self.scanner.go_on(octets)
    }
}
