//! Finding on one tape the value of another, the fields of a struct in any order.
ghost use Rattle.std.specs.Prelude.{◌≡◌, ◌+◌, ◌<◌, ◌^◌, ℕ, true, IfSome, Some, slice_get};
ghost use Rattle.std.specs.Option.{is_some};
ghost use Rattle.ion_visiting.specs.Names.{Led, closes, name, opens};
ghost use Rattle.ion_visiting.specs.Following.{Begins, Behind, Finds, IsField, IsFound, Seeks, Skips, Takes, behind_payload, follows, is_annotation, is_name};
ghost use Rattle.ion_visiting.specs.Tapes.{events_in, spelled, told};

use crate::bracket::Bracket;
use crate::pushing::push;
use crate::short::{Short, Spelling};
use crate::tape::{Entry, Role, Tape};
use std::alloc::Global;

/// Which fields of a struct are still to come.
#[derive(Clone, Copy, Drop)]
pub(crate) struct Frame {
    /// The first field of which that isn't known to be taken, or the close behind the last.
    free: usize,
    /// Which fields from that one on are taken, the first by the lowest bit.
    taken: u64,
}

/// Finds on a tape what another tells: the items of lists and s-expressions in their order, each
/// field of a struct as the first of its name that isn't taken yet, of the 64 fields from the first
/// on that is free. The memory of one search, 16 octets for each container that is open, serves the
/// next.
#[derive(Drop)]
pub struct Following {
    at: usize,
    frame: Frame,
    /// The frames around, the innermost last.
    outer: Vec<Frame>,
}

impl Following {
    /// Of no search yet. Takes no memory.
    pub fn new(alloc: Global) -> Following
        ensures { Begins result }
    {
        Following {
            at: 0,
            frame: Frame { free: 0, taken: 0 },
            outer: Vec::new(alloc),
        }
    }

    /// Whether what another tape tells is found on this one, from front to end.
    ///
    /// It answers `false` where that isn't there, and may do so of equivalent values: where a field
    /// stands further off, where fields of one name stand in another order, or where memory was
    /// refused.
    #[inline(always)]
    pub fn finds(&mut self, tape: &Tape, other: &Tape) -> bool
        ensures { result ≡ true → IsFound tape.now (events_in other.now) }
    {
        self.begin();
        self.goes_on(tape, other)
    }

    // At the front of a tape.
    #[inline(always)]
    fn begin(&mut self)
        ensures { Begins self.new }
    {
        self.at = 0;
        self.frame = Frame { free: 0, taken: 0 };
        self.outer.clear();
    }

    // Whether all that another tape tells is found from here on. Where it isn't, the state means
    // nothing any more.
    #[inline(always)]
    fn goes_on(&mut self, tape: &Tape, other: &Tape) -> bool
        ensures { result ≡ true →
            Led (follows tape.now) (events_in other.now) self.old self.new }
    {
        let entries = other.entries.as_slice();
        for entry in entries {
            if !self.finds_entry(tape, other, entry) {
                return false;
            }
        }
        true
    }

    // The entry there; goes behind it.
    #[inline(always)]
    fn take<'a>(&mut self, tape: &'a Tape) -> Option<&'a Entry>
        ensures { IfSome result (λ entry. Takes tape.now self.old entry.now self.new) }
    {
        let entry = tape.entries.get(self.at)?;
        self.at += 1;
        Some(entry)
    }
}

#[inline(always)]
fn is_name(entry: &Entry) -> bool
    ensures { result ≡ is_name entry.now }
{
    match entry {
        Entry::Long(Role::Name, _) => true,
        Entry::Shared(Role::Name, _) => true,
        Entry::Short(Role::Name, ..) => true,
        Entry::Unknown(Role::Name) => true,
        _ => false,
    }
}

// The name of the field that begins there.
#[inline(always)]
fn field_at(tape: &Tape, place: usize) -> Option<&Entry>
    ensures there { IfSome result (λ entry.
        slice_get tape.now.entries.items place ≡ Some entry.now) }
    ensures field { IfSome result (λ _. IsField tape.now place) }
{
    match tape.entries.get(place) {
        Some(entry) if is_name(entry) => Some(entry),
        _ => None,
    }
}

#[inline(always)]
fn is_annotation(entry: Entry) -> bool
    ensures { result ≡ is_annotation entry }
{
    match entry {
        Entry::Long(Role::Annotation, _) => true,
        Entry::Shared(Role::Annotation, _) => true,
        Entry::Short(Role::Annotation, ..) => true,
        Entry::Unknown(Role::Annotation) => true,
        _ => false,
    }
}

// Behind the payload whose front stands there.
#[inline(always)]
fn behind_payload(entry: Entry, place: usize) -> usize
    requires { place + 1 < 2 ^ 64 }
    ensures { result ≡ behind_payload entry place }
{
    match entry {
        Entry::Open(_, end) => end,
        _ => place + 1,
    }
}

// Behind the value there.
#[inline(always)]
#[tactic(auto, using(crate::proofs::Sought::past_payload))]
fn behind_value(tape: &Tape, from: usize) -> usize
    ensures { (j : ℕ) → Behind tape.now from j → result ≡ j }
{
    match tape.entries.get(from) {
        Some(entry) if !is_annotation(*entry) => behind_payload(*entry, from),
        _ => behind_annotated(tape, from),
    }
}

// The same, also where annotations stand in front.
#[inline(never)]
#[tactic(auto, using(crate::proofs::Sought::past_annotation, crate::proofs::Sought::past_payload, crate::proofs::Sought::past_none))]
fn behind_annotated(tape: &Tape, from: usize) -> usize
    ensures { (j : ℕ) → Behind tape.now from j → result ≡ j }
{
    let mut at = from;
    for _ in 0..tape.entries.len() {
        let Some(entry) = tape.entries.get(at) else {
            return at;
        };
        if !is_annotation(*entry) {
            return behind_payload(*entry, at);
        }
        at += 1;
    }
    at
}

// The first field of this name that isn't taken: where it stands, and its bit.
#[tactic(auto, using(crate::proofs::Sought::field_within))]
fn seek(tape: &Tape, frame: Frame, spelling: Spelling<'_>) -> Option<(usize, u64)>
    ensures { IfSome result (λ field.
        Seeks tape.now frame (spelled spelling.entry) field.0 field.1) }
{
    let mut place = frame.free;
    let mut others = frame.taken;
    let mut bit: u64 = 1;
    for _ in 0..64 {
        let Some(entry) = field_at(tape, place) else {
            return None;
        };
        if others % 2 == 0 && tape.tells_spelled(entry, Role::Name, spelling) {
            return Some((place, bit));
        }
        place = behind_value(tape, place + 1);
        others /= 2;
        bit = bit.checked_mul(2)?;
    }
    None
}

// Past fields that are taken.
#[tactic(auto, using(crate::proofs::Sought::field_within))]
fn skip_taken(tape: &Tape, frame: Frame) -> Option<Frame>
    ensures { IfSome result (λ left.
        Skips tape.now frame.free frame.taken left.free left.taken) }
{
    let mut free = frame.free;
    let mut taken = frame.taken;
    for _ in 0..64 {
        if taken % 2 == 0 {
            break;
        }
        let Some(_) = field_at(tape, free) else {
            return None;
        };
        free = behind_value(tape, free + 1);
        taken /= 2;
    }
    Some(Frame { free, taken })
}

impl Following {
    // Whether what this entry of the other tape tells is found.
    #[inline(always)]
    fn finds_entry(&mut self, tape: &Tape, other: &Tape, entry: &Entry) -> bool
        ensures told { result ≡ true →
            IfSome (told other.now entry.now) (λ e. follows tape.now self.old e self.new) }
        ensures some { result ≡ true → is_some (told other.now entry.now) ≡ true }
    {
        match *entry {
            Entry::Unknown(Role::Name) => self.finds_name(tape, Spelling::Unknown),
            Entry::Short(Role::Name, count, last, first) => {
                self.finds_name(tape, Spelling::Short(Short { count, last, first }))
            }
            Entry::Long(Role::Name, range) => match other.text(range) {
                Some(octets) => self.finds_name(tape, Spelling::Long(octets)),
                None => false,
            },
            Entry::Shared(Role::Name, place) => match other.symbol(place) {
                Some(symbol) => self.finds_name(tape, Spelling::of(symbol.text())),
                None => false,
            },
            Entry::Open(bracket, _) => self.finds_open(tape, bracket),
            Entry::Close(bracket) => self.finds_close(tape, bracket),
            _ => self.finds_same(tape, other, entry),
        }
    }

    // Whether the entry there tells the same.
    #[inline(always)]
    fn finds_same(&mut self, tape: &Tape, other: &Tape, entry: &Entry) -> bool
        ensures told { result ≡ true →
            IfSome (told other.now entry.now) (λ e. Finds tape.now self.old e self.new) }
        ensures some { result ≡ true → is_some (told other.now entry.now) ≡ true }
    {
        match self.take(tape) {
            Some(own) => tape.tells_as(own, other, entry),
            None => false,
        }
    }

    fn finds_name(&mut self, tape: &Tape, spelling: Spelling<'_>) -> bool
        ensures { result ≡ true →
            follows tape.now self.old (name (spelled spelling.entry)) self.new }
    {
        let Some((place, bit)) = seek(tape, self.frame, spelling) else {
            return false;
        };
        let Some(taken) = self.frame.taken.checked_add(bit) else {
            return false;
        };
        let free = self.frame.free;
        let Some(frame) = skip_taken(tape, Frame { free, taken }) else {
            return false;
        };
        self.frame = frame;
        self.at = place + 1;
        true
    }

    #[inline(always)]
    fn finds_open(&mut self, tape: &Tape, bracket: Bracket) -> bool
        ensures { result ≡ true → follows tape.now self.old (opens bracket) self.new }
    {
        let Some(Entry::Open(own, _)) = self.take(tape) else {
            return false;
        };
        let frame = Frame {
            free: self.at,
            taken: 0,
        };
        let outer = self.frame;
        self.frame = frame;
        *own == bracket && push(&mut self.outer, outer)
    }

    #[inline(always)]
    fn finds_close(&mut self, tape: &Tape, bracket: Bracket) -> bool
        ensures { result ≡ true → follows tape.now self.old (closes bracket) self.new }
    {
        if bracket == Bracket::Fields {
            self.at = self.frame.free;
        }
        let Some(Entry::Close(own)) = self.take(tape) else {
            return false;
        };
        let Some(frame) = self.outer.pop() else {
            return false;
        };
        self.frame = frame;
        *own == bracket
    }
}
