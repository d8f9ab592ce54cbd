//! Two values, the second of which is compared with the first as it is told.
ghost use Rattle.std.specs.Prelude.{◌≡◌, ◌+◌, ◌<◌, ◌^◌, List, IfSome, Some, true, false, option_map, slice_get};
ghost use Rattle.ion_visiting.specs.Names.{Event, annotation, body_payload, closes, name, number_payload, opens, part, payload_of};
ghost use Rattle.ion_visiting.specs.Tapes.{IsBlank, events_in, role_event, spelled};
ghost use Rattle.ion_visiting.specs.Twins.{IsApart, IsBegun, TellsSecond, WasTold, is_twin};

use crate::bracket::Bracket;
use crate::part::{NumberBody, Part};
use crate::short::Spelling;
use crate::tape::{Entry, Role, Tape, spelling_of};
use crate::visitor::Visitor;
use ion_model::Symbol;
use ion_scalar::Number;
use std::alloc::Global;

/// The visitor that is told a second value, while the first stands on its tape. As long as the
/// second is told as the first was, it goes along that tape and takes no memory. Where they part,
/// what both told so far is told to the second tape, and all that follows.
///
/// It answers `false` where the second tape does.
#[derive(Drop)]
pub struct Twin {
    /// What the first tells.
    pub first: Tape,
    /// What the second tells, once they have parted.
    pub second: Tape,
    /// How many entries of the first the second was told before they parted.
    at: usize,
    parted: bool,
}

impl Twin {
    /// Of nothing. Takes no memory.
    pub fn new(alloc: Global) -> Twin
        ensures first { IsBlank result.first }
        ensures second { IsBegun result }
    {
        Twin {
            first: Tape::new(alloc),
            second: Tape::new(alloc),
            at: 0,
            parted: false,
        }
    }

    /// Forgets both values, and keeps the memory.
    #[inline(always)]
    pub fn clear(&mut self)
        ensures first { IsBlank self.new.first }
        ensures second { IsBegun self.new }
    {
        self.first.clear();
        self.at = 0;
        self.parted = false;
    }

    /// Whether the second was told all that the first was, and nothing else. Equivalent values
    /// needn't be told the same.
    #[inline(always)]
    #[tactic(auto, using(crate::proofs::Twins::same_told))]
    pub fn are_same(&self) -> bool
        ensures exact { result ≡ is_twin self.now }
        ensures told { result ≡ true → (es : List Event) → WasTold self.now es →
            events_in self.now.first ≡ es }
    {
        !self.parted && self.at == self.first.entries.len()
    }

    /// Writes the second down, where that wasn't done as it was told; `false` where the second tape
    /// answered so.
    #[inline(always)]
    pub fn part_ways(&mut self) -> bool
        ensures { result ≡ true → IsApart self.old self.new }
    {
        self.parted || self.part_now()
    }

    #[inline(never)]
    #[tactic(auto, using(crate::proofs::Twins::told_apart))]
    fn part_now(&mut self) -> bool
        requires { self.old.parted ≡ false }
        ensures { result ≡ true → IsApart self.old self.new }
    {
        self.second.clear();
        self.parted = true;
        self.first.tell_front(self.at, &mut self.second)
    }

    // The entry that the second goes on with where they don't part.
    #[inline(always)]
    fn next(&self) -> Option<&Entry>
        ensures there { IfSome result (λ entry. slice_get self.now.first.entries.items self.now.at
            ≡ Some entry.now) }
        ensures along { IfSome result (λ _. self.now.parted ≡ false) }
        ensures room { IfSome result (λ _. self.now.at + 1 < 2 ^ 64) }
    {
        if self.parted {
            return None;
        }
        self.first.entries.get(self.at)
    }

    // Past that entry.
    #[inline(always)]
    fn pass(&mut self) -> bool
        requires { self.old.at + 1 < 2 ^ 64 }
        ensures passed { self.new ≡ record self.old { at = self.old.at + 1 } }
        ensures goes { result ≡ true }
    {
        self.at += 1;
        true
    }

    #[inline(always)]
    #[tactic(auto, using(crate::proofs::Twins::told_along))]
    fn spelled(&mut self, role: Role, spelling: Spelling<'_>) -> bool
        ensures { result ≡ true → TellsSecond self.old
            (role_event role (spelled spelling.entry)) self.new }
    {
        match self.next() {
            Some(entry) if self.first.tells_spelled(entry, role, spelling) => self.pass(),
            _ => self.other_spelled(role, spelling),
        }
    }

    #[inline(always)]
    #[tactic(auto, using(crate::proofs::Twins::told_along))]
    fn at_hand(&mut self, role: Role, symbol: &Symbol) -> bool
        ensures { result ≡ true → TellsSecond self.old (role_event role symbol.now) self.new }
    {
        match self.next() {
            Some(entry)
                if self
                    .first
                    .tells_spelled(entry, role, Spelling::of(symbol.text())) => { self.pass() }
            _ => self.other_symbol(role, symbol),
        }
    }

    // What follows tells the second tape what isn't the first's next entry.

    #[inline(never)]
    fn other_symbol(&mut self, role: Role, symbol: &Symbol) -> bool
        ensures { result ≡ true → TellsSecond self.old (role_event role symbol.now) self.new }
    {
        self.part_ways() && self.second.write_symbol(role, symbol)
    }

    #[inline(never)]
    fn other_spelled(&mut self, role: Role, spelling: Spelling<'_>) -> bool
        ensures { result ≡ true → TellsSecond self.old
            (role_event role (spelled spelling.entry)) self.new }
    {
        self.part_ways() && self.second.write(role, spelling)
    }

    #[inline(always)]
    fn other_part(&mut self, said: &Part<'_>) -> bool
        ensures { result ≡ true →
            TellsSecond self.old (part (payload_of said.now)) self.new }
    {
        self.part_ways() && self.second.part(said)
    }

    #[inline(always)]
    fn other_number(&mut self, number: Number) -> bool
        ensures { result ≡ true →
            TellsSecond self.old (part (number_payload number)) self.new }
    {
        self.part_ways() && self.second.number(number)
    }

    #[inline(always)]
    fn other_open(&mut self, bracket: Bracket) -> bool
        ensures { result ≡ true → TellsSecond self.old (opens bracket) self.new }
    {
        self.part_ways() && self.second.open(bracket)
    }

    #[inline(always)]
    fn other_close(&mut self, bracket: Bracket) -> bool
        ensures { result ≡ true → TellsSecond self.old (closes bracket) self.new }
    {
        self.part_ways() && self.second.close(bracket)
    }
}

impl Visitor for Twin {
    ghost takes = { TellsSecond };

    #[inline(always)]
    #[tactic(auto, using(crate::proofs::Twins::told_along))]
    fn part(&mut self, said: &Part<'_>) -> bool {
        match self.next() {
            Some(entry) if self.first.tells_part(entry, said) => self.pass(),
            _ => self.other_part(said),
        }
    }

    #[inline(always)]
    #[tactic(auto, using(crate::proofs::Twins::told_along))]
    fn number(&mut self, number: Number) -> bool {
        match self.next() {
            Some(entry) if self.first.tells_number(entry, &number) => self.pass(),
            _ => self.other_number(number),
        }
    }

    #[inline(always)]
    fn keeps_number_bodies(&self) -> bool {
        true
    }

    // Other octets than those of the first may be the same number.
    #[inline(always)]
    #[tactic(auto, using(crate::proofs::Twins::told_along))]
    fn number_body(&mut self, body: &NumberBody<'_>) -> Option<bool> {
        let (role, spelling) = spelling_of(body);
        match self.next() {
            Some(entry) if self.first.tells_spelled(entry, role, spelling) => Some(self.pass()),
            Some(_) => None,
            None => Some(self.other_spelled(role, spelling)),
        }
    }

    #[inline(always)]
    fn unknown_symbol(&mut self) -> bool {
        self.spelled(Role::Value, Spelling::Unknown)
    }

    #[inline(always)]
    fn symbol(&mut self, symbol: &Symbol) -> bool {
        self.at_hand(Role::Value, symbol)
    }

    #[inline(always)]
    fn symbol_annotation(&mut self, symbol: &Symbol) -> bool {
        self.at_hand(Role::Annotation, symbol)
    }

    #[inline(always)]
    fn symbol_name(&mut self, symbol: &Symbol) -> bool {
        self.at_hand(Role::Name, symbol)
    }

    #[inline(always)]
    fn annotation(&mut self, text: Option<&str>) -> bool {
        self.spelled(Role::Annotation, Spelling::of(text))
    }

    #[inline(always)]
    fn name(&mut self, text: Option<&str>) -> bool {
        self.spelled(Role::Name, Spelling::of(text))
    }

    #[inline(always)]
    #[tactic(auto, using(crate::proofs::Twins::told_along))]
    fn open(&mut self, bracket: Bracket) -> bool {
        match self.next() {
            Some(entry) if self.first.tells_open(entry, bracket) => self.pass(),
            _ => self.other_open(bracket),
        }
    }

    #[inline(always)]
    #[tactic(auto, using(crate::proofs::Twins::told_along))]
    fn close(&mut self, bracket: Bracket) -> bool {
        match self.next() {
            Some(entry) if self.first.tells_close(entry, bracket) => self.pass(),
            _ => self.other_close(bracket),
        }
    }

    // No tape tells it, so what follows stands apart.
    #[inline(always)]
    fn ended(&mut self) -> bool {
        self.part_ways() && self.second.ended()
    }
}
