//! Values written down event by event, in whatever encoding they were read.
ghost use Rattle.std.specs.Prelude.{◌≡◌, ◌+◌, ◌++◌, ◌∷◌, [], ℕ, true, IfSome, Some, option_map, slice_get};
ghost use Rattle.std.specs.List.{flat_map};
ghost use Rattle.std.specs.Option.{is_some, option_to_list};
ghost use Rattle.ion_visiting.specs.Names.{Led, body_payload, closes, number_payload, opens, part, payload_of};
ghost use Rattle.ion_visiting.specs.Tapes.{Grows, IsBlank, Rests, Writes, events_before, events_in, short_text, spelled, role_event, text_at, text_event, text_from, told};

use crate::bracket::Bracket;
use crate::part::{NumberBody, Part};
use crate::pushing::push;
use crate::range::{GREAT, Great, Range};
use crate::same_octets::are_same;
use crate::short::{Short, Spelling};
use crate::visitor::Visitor;
use ion_atoms::{Decimal, Whole};
use ion_model::{Kind, Symbol};
use ion_scalar::{Number, decimal_of, timestamp_of};
use std::alloc::Global;
use std::str;

/// What a symbol is there, or a number that is written down as binary encodes it.
#[derive(Clone, Copy, PartialEq, Eq)]
pub(crate) enum Role {
    Value,
    Annotation,
    Name,
    /// The body of a decimal.
    Decimal,
    /// The body of a timestamp.
    Timestamp,
}

/// What octets are there.
#[derive(Clone, Copy, PartialEq, Eq)]
pub(crate) enum Form {
    Str,
    Clob,
    Blob,
}

/// An event as it is written down. Longer texts stand beside the entries, and so do symbols that were at
/// hand with longer ones, and numbers that don't fit an entry.
#[derive(Clone, Copy)]
pub(crate) enum Entry {
    Null(Kind),
    Truth(bool),
    Int(i64),
    /// By its sign, its exponent and its magnitude.
    Decimal(bool, i32, u64),
    /// Any other number, by its place among the numbers.
    Number(usize),
    /// A symbol of unknown text.
    Unknown(Role),
    /// At most 12 octets, by the numbers of a `Short`.
    Short(Role, u8, u32, u64),
    Long(Role, Range),
    /// A symbol that was at hand, by its place among those.
    Shared(Role, usize),
    Text(Form, Range),
    /// With the entry behind the close, once that is there.
    Open(Bracket, usize),
    Close(Bracket),
}

const _: () = prove!(size_of::<Entry>() == 16);

/// The visitor that writes down what it is told, to be told again or to be found there by
/// `Following`. An event takes 16 octets. A string or a lob takes as many more as it has, and so does
/// what has more than 12 of a symbol's text or of a number as binary encodes it. A symbol of more than
/// 12 that is at hand takes 16 more, and shares its text. Other timestamps take 40 more, and so does
/// an int outside of 64 bits or another decimal whose magnitude is.
///
/// It answers `false` where memory was refused, or for what is no value's; `clear` begins anew.
#[derive(Drop)]
pub struct Tape {
    pub(crate) entries: Vec<Entry>,
    octets: Vec<u8>,
    numbers: Vec<Number>,
    symbols: Vec<Symbol>,
    greats: Vec<Great>,
    /// Where the brackets that are open were opened, the innermost last.
    opened: Vec<usize>,
}

impl Tape {
    /// Of nothing. Takes no memory.
    pub fn new(alloc: Global) -> Tape
        ensures { IsBlank result }
    {
        Tape {
            entries: Vec::new(alloc),
            octets: Vec::new(alloc),
            numbers: Vec::new(alloc),
            symbols: Vec::new(alloc),
            greats: Vec::new(alloc),
            opened: Vec::new(alloc),
        }
    }

    /// Forgets what was written down, and keeps the memory.
    pub fn clear(&mut self)
        ensures { IsBlank self.new }
    {
        self.entries.clear();
        self.octets.clear();
        self.numbers.clear();
        self.symbols.clear();
        self.greats.clear();
        self.opened.clear();
    }

    // One entry more.
    #[inline(always)]
    fn put(&mut self, entry: Entry) -> bool
        ensures entries { result ≡ true →
            self.new.entries.items ≡ self.old.entries.items ++ entry ∷ [] }
        ensures rests { Rests self.old self.new }
        ensures opened { self.new.opened ≡ self.old.opened }
    {
        push(&mut self.entries, entry)
    }

    // Where this text stands now.
    #[inline(always)]
    #[tactic(auto, using(crate::proofs::Taped::text_grows, crate::proofs::Taped::text_there))]
    fn put_text(&mut self, text: &[u8]) -> Option<Range>
        ensures text { IfSome result (λ range. text_at self.new range ≡ Some text.now) }
        ensures grows { IfSome result (λ _. Grows self.old self.new) }
        ensures entries { self.new.entries ≡ self.old.entries }
    {
        let count = text.len();
        if count >= GREAT {
            return self.put_great(text);
        }
        let from = self.octets.len();
        if !self.octets.extend_from_slice(text).is_ok() {
            return None;
        }
        Some(Range::new(from, count as u32))
    }

    // The same of a great one.
    #[inline(never)]
    #[tactic(auto, using(crate::proofs::Taped::great_grows, crate::proofs::Taped::great_there))]
    fn put_great(&mut self, text: &[u8]) -> Option<Range>
        ensures text { IfSome result (λ range. text_at self.new range ≡ Some text.now) }
        ensures grows { IfSome result (λ _. Grows self.old self.new) }
        ensures entries { self.new.entries ≡ self.old.entries }
    {
        let (from, count) = (self.octets.len(), text.len());
        let place = self.greats.len();
        if !self.octets.extend_from_slice(text).is_ok()
            || !push(&mut self.greats, Great { from, count })
        {
            return None;
        }
        Some(Range::new(place, GREAT as u32))
    }

    #[inline(always)]
    #[tactic(auto, using(crate::proofs::Taped::put_writes, crate::proofs::Taped::text_writes))]
    pub(crate) fn write(&mut self, role: Role, spelling: Spelling<'_>) -> bool
        ensures { result ≡ true → Writes self.old self.new
            (role_event role (spelled spelling.entry)) }
    {
        match spelling {
            Spelling::Unknown => self.put(Entry::Unknown(role)),
            Spelling::Short(Short { count, last, first }) => {
                self.put(Entry::Short(role, count, last, first))
            }
            Spelling::Long(octets) => match self.put_text(octets) {
                Some(range) => self.put(Entry::Long(role, range)),
                None => false,
            },
        }
    }

    /// A symbol that is at hand.
    #[inline(always)]
    pub(crate) fn write_symbol(&mut self, role: Role, symbol: &Symbol) -> bool
        ensures { result ≡ true → Writes self.old self.new (role_event role symbol.now) }
    {
        match Spelling::of(symbol.text()) {
            Spelling::Long(_) => self.write_shared(role, symbol),
            spelling => self.write(role, spelling),
        }
    }

    // The same, whose text is shared.
    #[inline(always)]
    #[tactic(auto, using(crate::proofs::Taped::symbol_writes))]
    fn write_shared(&mut self, role: Role, symbol: &Symbol) -> bool
        ensures { result ≡ true → Writes self.old self.new (role_event role symbol.now) }
    {
        let Ok(copy) = symbol.copy() else {
            return false;
        };
        let place = self.symbols.len();
        self.symbols.push(copy).is_ok() && self.put(Entry::Shared(role, place))
    }

    #[inline(always)]
    #[tactic(auto, using(crate::proofs::Taped::text_writes))]
    fn write_text(&mut self, form: Form, octets: &[u8]) -> bool
        ensures { result ≡ true → Writes self.old self.new (text_event form octets.now) }
    {
        match self.put_text(octets) {
            Some(range) => self.put(Entry::Text(form, range)),
            None => false,
        }
    }

    #[inline(always)]
    #[tactic(auto, using(crate::proofs::Taped::number_writes))]
    fn write_number(&mut self, number: Number) -> bool
        ensures { result ≡ true → Writes self.old self.new (part (number_payload number)) }
    {
        let place = self.numbers.len();
        push(&mut self.numbers, number) && self.put(Entry::Number(place))
    }

    /// The text that stands there.
    #[inline(always)]
    #[tactic(auto, unfolding(crate::specs::Tapes::text_at))]
    pub(crate) fn text(&self, range: Range) -> Option<&[u8]>
        ensures { option_map (λ t. t.now) result ≡ text_at self.now range }
    {
        if range.count as usize == GREAT {
            let great = self.greats.get(range.place())?;
            return self.text_from(great.from, great.count);
        }
        self.text_from(range.place(), range.count as usize)
    }

    // So many octets from a place on, if there are as many.
    #[inline(always)]
    fn text_from(&self, from: usize, count: usize) -> Option<&[u8]>
        ensures { option_map (λ t. t.now) result ≡ text_from self.now from count }
    {
        let all = self.octets.len();
        if from > all || count > all - from {
            return None;
        }
        Some(&self.octets[from..from + count])
    }

    /// The symbol of this place.
    #[inline(always)]
    pub(crate) fn symbol(&self, place: usize) -> Option<&Symbol>
        ensures { option_map (λ s. s.now) result ≡ slice_get self.now.symbols.items place }
    {
        self.symbols.get(place)
    }

    // Whether the symbol of this place has this text.
    #[inline(always)]
    fn has_symbol(&self, place: usize, text: &[u8]) -> bool
        ensures { result ≡ true → slice_get self.now.symbols.items place ≡ Some (Some text.now) }
    {
        match self.symbol(place) {
            Some(symbol) => match symbol.text() {
                Some(own) => are_same(own.as_bytes(), text),
                None => false,
            },
            None => false,
        }
    }

    // Whether this text stands there.
    #[inline(always)]
    fn has_text(&self, range: Range, text: &[u8]) -> bool
        ensures { result ≡ true → text_at self.now range ≡ Some text.now }
    {
        match self.text(range) {
            Some(own) => are_same(own, text),
            None => false,
        }
    }

    /// Whether this entry tells this symbol, or this number by the same octets.
    #[inline(always)]
    pub(crate) fn tells_spelled(&self, entry: &Entry, role: Role, spelling: Spelling<'_>) -> bool
        ensures { result ≡ true → told self.now entry.now
            ≡ Some (role_event role (spelled spelling.entry)) }
    {
        match (entry, spelling) {
            (Entry::Unknown(own), Spelling::Unknown) => *own == role,
            (Entry::Short(own, count, last, first), Spelling::Short(short)) => {
                *own == role
                    && *first == short.first
                    && *last == short.last
                    && *count == short.count
            }
            (Entry::Long(own, range), Spelling::Long(octets)) => {
                *own == role && self.has_text(*range, octets)
            }
            (Entry::Shared(own, place), Spelling::Long(octets)) => {
                *own == role && self.has_symbol(*place, octets)
            }
            _ => false,
        }
    }

    /// Whether this entry tells these octets.
    #[inline(always)]
    pub(crate) fn tells_text(&self, entry: &Entry, form: Form, octets: &[u8]) -> bool
        ensures { result ≡ true → told self.now entry.now ≡ Some (text_event form octets.now) }
    {
        match entry {
            Entry::Text(own, range) => *own == form && self.has_text(*range, octets),
            _ => false,
        }
    }

    /// Whether this entry tells this part.
    #[inline(always)]
    pub(crate) fn tells_part(&self, entry: &Entry, said: &Part<'_>) -> bool
        ensures { result ≡ true → told self.now entry.now ≡ Some (part (payload_of said.now)) }
    {
        match said {
            Part::Null(kind) => matches!(entry, Entry::Null(own) if *own == *kind),
            Part::Truth(truth) => matches!(entry, Entry::Truth(own) if *own == *truth),
            Part::Symbol(text) => self.tells_spelled(entry, Role::Value, Spelling::of(Some(text))),
            Part::Str(text) => self.tells_text(entry, Form::Str, text.as_bytes()),
            Part::Clob(octets) => self.tells_text(entry, Form::Clob, octets),
            Part::Blob(octets) => self.tells_text(entry, Form::Blob, octets),
        }
    }

    /// Whether this entry tells this number.
    #[inline(always)]
    pub(crate) fn tells_number(&self, entry: &Entry, number: &Number) -> bool
        ensures { result ≡ true →
            told self.now entry.now ≡ Some (part (number_payload number.now)) }
    {
        if let (Entry::Int(own), Number::Int(whole)) = (entry, number) {
            return whole.get() == i128::from(*own);
        }
        match (entry, number) {
            (Entry::Decimal(negative, exponent, magnitude), Number::Decimal(decimal)) => {
                decimal.magnitude() == u128::from(*magnitude)
                    && decimal.exponent() == *exponent
                    && decimal.negative() == *negative
            }
            _ => self.is_number(entry, number),
        }
    }

    // The same of a number in whatever form.
    #[inline(never)]
    fn is_number(&self, entry: &Entry, number: &Number) -> bool
        ensures { result ≡ true →
            told self.now entry.now ≡ Some (part (number_payload number.now)) }
    {
        if let Entry::Number(place) = entry {
            return match self.numbers.get(*place) {
                Some(own) => is_same(own, number),
                None => false,
            };
        }
        match self.number_in(entry) {
            Some(own) => is_same(&own, number),
            None => false,
        }
    }

    // The number that this entry tells, in whatever form.
    fn number_in(&self, entry: &Entry) -> Option<Number>
        ensures { IfSome result (λ n. told self.now entry.now ≡ Some (part (number_payload n))) }
    {
        match *entry {
            Entry::Int(value) => Some(Number::Int(Whole::new(i128::from(value))?)),
            Entry::Decimal(negative, exponent, magnitude) => {
                let decimal = Decimal::new(negative, u128::from(magnitude), exponent)?;
                Some(Number::Decimal(decimal))
            }
            Entry::Number(place) => self.numbers.get(place).copied(),
            Entry::Short(role, count, last, first) if count <= 12 => {
                let short = Short { count, last, first };
                number_of(role, &short.octets()[..count as usize])
            }
            Entry::Long(role, range) => number_of(role, self.text(range)?),
            _ => None,
        }
    }

    /// Whether this entry tells what an entry of another tape tells.
    #[inline(always)]
    pub(crate) fn tells_as(&self, own: &Entry, other: &Tape, entry: &Entry) -> bool
        ensures told { result ≡ true → told self.now own.now ≡ told other.now entry.now }
        ensures some { result ≡ true → is_some (told other.now entry.now) ≡ true }
    {
        self.is_written_as(own, other, entry) || self.is_number_as(own, other, entry)
    }

    // Whether both are written down alike.
    #[inline(always)]
    fn is_written_as(&self, own: &Entry, other: &Tape, entry: &Entry) -> bool
        ensures told { result ≡ true → told self.now own.now ≡ told other.now entry.now }
        ensures some { result ≡ true → is_some (told other.now entry.now) ≡ true }
    {
        match *entry {
            Entry::Null(kind) => matches!(own, Entry::Null(null) if *null == kind),
            Entry::Truth(truth) => matches!(own, Entry::Truth(own) if *own == truth),
            Entry::Int(value) => matches!(own, Entry::Int(own) if *own == value),
            Entry::Decimal(negative, exponent, magnitude) => match own {
                Entry::Decimal(sign, power, size) => {
                    *sign == negative && *power == exponent && *size == magnitude
                }
                _ => false,
            },
            Entry::Unknown(role) => self.tells_spelled(own, role, Spelling::Unknown),
            Entry::Short(role, count, last, first) => {
                self.tells_spelled(own, role, Spelling::Short(Short { count, last, first }))
            }
            Entry::Long(role, range) => match other.text(range) {
                Some(octets) => self.tells_spelled(own, role, Spelling::Long(octets)),
                None => false,
            },
            Entry::Shared(role, place) => match other.symbol(place) {
                Some(symbol) => self.tells_spelled(own, role, Spelling::of(symbol.text())),
                None => false,
            },
            Entry::Text(form, range) => match other.text(range) {
                Some(octets) => self.tells_text(own, form, octets),
                None => false,
            },
            Entry::Number(_) | Entry::Open(..) | Entry::Close(_) => false,
        }
    }

    // Whether both are the same number.
    #[inline(never)]
    fn is_number_as(&self, own: &Entry, other: &Tape, entry: &Entry) -> bool
        ensures told { result ≡ true → told self.now own.now ≡ told other.now entry.now }
        ensures some { result ≡ true → is_some (told other.now entry.now) ≡ true }
    {
        match other.number_in(entry) {
            Some(number) => self.tells_number(own, &number),
            None => false,
        }
    }

    /// Whether this entry tells that these brackets open.
    #[inline(always)]
    pub(crate) fn tells_open(&self, entry: &Entry, bracket: Bracket) -> bool
        ensures { result ≡ true → told self.now entry.now ≡ Some (opens bracket) }
    {
        matches!(entry, Entry::Open(own, _) if *own == bracket)
    }

    /// Whether this entry tells that these brackets close.
    #[inline(always)]
    pub(crate) fn tells_close(&self, entry: &Entry, bracket: Bracket) -> bool
        ensures { result ≡ true → told self.now entry.now ≡ Some (closes bracket) }
    {
        matches!(entry, Entry::Close(own) if *own == bracket)
    }

    /// Tells a visitor what was written down; `false` where the visitor answered so, of which the
    /// rest isn't told. Takes no memory by itself.
    #[inline(always)]
    pub fn tell<V: Visitor>(&self, visitor: &mut V) -> bool
        ensures { result ≡ true →
            Led V.takes (events_in self.now) visitor.old visitor.new }
    {
        self.tell_entries(self.entries.as_slice(), visitor)
    }

    /// Tells a visitor what so many entries in front tell; `false` where there are fewer.
    pub(crate) fn tell_front<V: Visitor>(&self, count: usize, visitor: &mut V) -> bool
        ensures { result ≡ true →
            Led V.takes (events_before self.now count) visitor.old visitor.new }
    {
        match self.entries.get(..count) {
            Some(entries) => self.tell_entries(entries, visitor),
            None => false,
        }
    }

    // Tells a visitor what these entries tell.
    #[inline(always)]
    fn tell_entries<V: Visitor>(&self, entries: &[Entry], visitor: &mut V) -> bool
        ensures { result ≡ true → Led V.takes
            (flat_map (λ e. option_to_list (told self.now e)) entries.now)
            visitor.old visitor.new }
    {
        for entry in entries {
            if !self.tell_entry(*entry, visitor) {
                return false;
            }
        }
        true
    }

    #[inline(always)]
    fn tell_entry<V: Visitor>(&self, entry: Entry, visitor: &mut V) -> bool
        ensures told { result ≡ true →
            IfSome (told self.now entry) (λ e. V.takes visitor.old e visitor.new) }
        ensures some { result ≡ true → is_some (told self.now entry) ≡ true }
    {
        match entry {
            Entry::Null(kind) => visitor.part(&Part::Null(kind)),
            Entry::Truth(truth) => visitor.part(&Part::Truth(truth)),
            Entry::Int(_) | Entry::Decimal(..) | Entry::Number(_) => match self.number_in(&entry) {
                Some(number) => visitor.number(number),
                None => false,
            },
            Entry::Unknown(role) => tell_unknown(role, visitor),
            Entry::Short(role, count, last, first) => {
                tell_short(role, Short { count, last, first }, visitor)
            }
            Entry::Long(role, range) => match self.text(range) {
                Some(octets) => tell_known(role, octets, visitor),
                None => false,
            },
            Entry::Shared(role, place) => match self.symbol(place) {
                Some(symbol) => tell_shared(role, symbol, visitor),
                None => false,
            },
            Entry::Text(form, range) => match self.text(range) {
                Some(octets) => tell_text(form, octets, visitor),
                None => false,
            },
            Entry::Open(bracket, _) => visitor.open(bracket),
            Entry::Close(bracket) => visitor.close(bracket),
        }
    }
}

// A number that fits an entry, as that entry.
#[inline(always)]
fn short_entry(number: &Number) -> Option<Entry>
    ensures { IfSome result (λ entry. (t : Tape) →
        told t entry ≡ Some (part (number_payload number.now))) }
{
    match number {
        Number::Int(whole) => {
            let value = whole.get();
            if value < i128::from(i64::MIN) || value > i128::from(i64::MAX) {
                return None;
            }
            Some(Entry::Int(value as i64))
        }
        Number::Decimal(decimal) => {
            let magnitude = decimal.magnitude();
            if magnitude > u128::from(u64::MAX) {
                return None;
            }
            Some(Entry::Decimal(decimal.negative(), decimal.exponent(), magnitude as u64))
        }
        Number::Timestamp(_) => None,
    }
}

/// How a number is written down by its body.
#[inline(always)]
pub(crate) fn spelling_of<'a>(body: &NumberBody<'a>) -> (Role, Spelling<'a>)
    ensures { role_event result.0 (spelled result.1) ≡ part (body_payload body.now) }
{
    match body {
        NumberBody::Decimal(octets) => (Role::Decimal, Spelling::of_octets(octets)),
        NumberBody::Timestamp(octets) => (Role::Timestamp, Spelling::of_octets(octets)),
    }
}

// The number of this body, if it is one.
fn read_body(body: &NumberBody<'_>) -> Option<Number>
    ensures { IfSome result (λ n. body_payload body.now ≡ number_payload n) }
{
    match body {
        NumberBody::Decimal(octets) => Some(Number::Decimal(decimal_of(octets).ok()?)),
        NumberBody::Timestamp(octets) => Some(Number::Timestamp(timestamp_of(octets).ok()?)),
    }
}

// The number of these octets in this role, if they are the body of one.
fn number_of(role: Role, octets: &[u8]) -> Option<Number>
    ensures { IfSome result (λ n. role_event role (Some octets.now) ≡ part (number_payload n)) }
{
    match role {
        Role::Decimal => read_body(&NumberBody::Decimal(octets)),
        Role::Timestamp => read_body(&NumberBody::Timestamp(octets)),
        Role::Value | Role::Annotation | Role::Name => None,
    }
}

#[inline(always)]
fn is_same(first: &Number, second: &Number) -> bool
    ensures { result ≡ true → first.now ≡ second.now }
{
    first == second
}

#[inline(always)]
fn tell_unknown<V: Visitor>(role: Role, visitor: &mut V) -> bool
    ensures { result ≡ true → V.takes visitor.old (role_event role None) visitor.new }
{
    match role {
        Role::Value => visitor.unknown_symbol(),
        Role::Annotation => visitor.annotation(None),
        Role::Name => visitor.name(None),
        Role::Decimal | Role::Timestamp => false,
    }
}

// What this symbol is in this role.
#[inline(always)]
fn tell_shared<V: Visitor>(role: Role, symbol: &Symbol, visitor: &mut V) -> bool
    ensures { result ≡ true → V.takes visitor.old (role_event role symbol.now) visitor.new }
{
    match role {
        Role::Value => visitor.symbol(symbol),
        Role::Annotation => visitor.symbol_annotation(symbol),
        Role::Name => visitor.symbol_name(symbol),
        Role::Decimal | Role::Timestamp => false,
    }
}

// What these octets are in this role.
#[inline(always)]
fn tell_known<V: Visitor>(role: Role, octets: &[u8], visitor: &mut V) -> bool
    ensures { result ≡ true → V.takes visitor.old
        (role_event role (Some octets.now)) visitor.new }
{
    match role {
        Role::Value => match str::from_utf8(octets) {
            Ok(text) => visitor.part(&Part::Symbol(text)),
            Err(_) => false,
        },
        Role::Annotation => match str::from_utf8(octets) {
            Ok(text) => visitor.annotation(Some(text)),
            Err(_) => false,
        },
        Role::Name => match str::from_utf8(octets) {
            Ok(text) => visitor.name(Some(text)),
            Err(_) => false,
        },
        Role::Decimal => tell_body(&NumberBody::Decimal(octets), visitor),
        Role::Timestamp => tell_body(&NumberBody::Timestamp(octets), visitor),
    }
}

// A number as it is encoded, to who keeps it so, else the number.
fn tell_body<V: Visitor>(body: &NumberBody<'_>, visitor: &mut V) -> bool
    ensures { result ≡ true → V.takes visitor.old (part (body_payload body.now)) visitor.new }
{
    if let Some(went_on) = visitor.number_body(body) {
        return went_on;
    }
    match read_body(body) {
        Some(number) => visitor.number(number),
        None => false,
    }
}

#[inline(never)]
fn tell_short<V: Visitor>(role: Role, text: Short, visitor: &mut V) -> bool
    ensures { result ≡ true → V.takes visitor.old
        (role_event role (Some (short_text text))) visitor.new }
{
    if text.count > 12 {
        return false;
    }
    tell_known(role, &text.octets()[..text.count as usize], visitor)
}

#[inline(always)]
fn tell_text<V: Visitor>(form: Form, octets: &[u8], visitor: &mut V) -> bool
    ensures { result ≡ true → V.takes visitor.old (text_event form octets.now) visitor.new }
{
    match form {
        Form::Str => match str::from_utf8(octets) {
            Ok(text) => visitor.part(&Part::Str(text)),
            Err(_) => false,
        },
        Form::Clob => visitor.part(&Part::Clob(octets)),
        Form::Blob => visitor.part(&Part::Blob(octets)),
    }
}

impl Visitor for Tape {
    ghost use Rattle.ion_visiting.specs.Tapes.{tapes};

    ghost takes = { tapes };

    #[inline(always)]
    #[tactic(auto, using(crate::proofs::Taped::put_writes))]
    fn part(&mut self, said: &Part<'_>) -> bool {
        match said {
            Part::Null(kind) => self.put(Entry::Null(*kind)),
            Part::Truth(truth) => self.put(Entry::Truth(*truth)),
            Part::Symbol(text) => self.write(Role::Value, Spelling::of(Some(text))),
            Part::Str(text) => self.write_text(Form::Str, text.as_bytes()),
            Part::Clob(octets) => self.write_text(Form::Clob, octets),
            Part::Blob(octets) => self.write_text(Form::Blob, octets),
        }
    }

    #[inline(always)]
    #[tactic(auto, using(crate::proofs::Taped::put_writes))]
    fn number(&mut self, number: Number) -> bool {
        match short_entry(&number) {
            Some(entry) => self.put(entry),
            None => self.write_number(number),
        }
    }

    #[inline(always)]
    fn keeps_number_bodies(&self) -> bool {
        true
    }

    #[inline(always)]
    fn number_body(&mut self, body: &NumberBody<'_>) -> Option<bool> {
        let (role, spelling) = spelling_of(body);
        Some(self.write(role, spelling))
    }

    #[inline(always)]
    #[tactic(auto, using(crate::proofs::Taped::put_writes))]
    fn unknown_symbol(&mut self) -> bool {
        self.put(Entry::Unknown(Role::Value))
    }

    #[inline(always)]
    fn symbol(&mut self, symbol: &Symbol) -> bool {
        self.write_symbol(Role::Value, symbol)
    }

    #[inline(always)]
    fn symbol_annotation(&mut self, symbol: &Symbol) -> bool {
        self.write_symbol(Role::Annotation, symbol)
    }

    #[inline(always)]
    fn symbol_name(&mut self, symbol: &Symbol) -> bool {
        self.write_symbol(Role::Name, symbol)
    }

    #[inline(always)]
    fn annotation(&mut self, text: Option<&str>) -> bool {
        self.write(Role::Annotation, Spelling::of(text))
    }

    #[inline(always)]
    fn name(&mut self, text: Option<&str>) -> bool {
        self.write(Role::Name, Spelling::of(text))
    }

    #[inline(always)]
    fn open(&mut self, bracket: Bracket) -> bool {
        let place = self.entries.len();
        push(&mut self.opened, place) && self.put(Entry::Open(bracket, 0))
    }

    #[inline(always)]
    fn close(&mut self, bracket: Bracket) -> bool {
        let Some(place) = self.opened.pop() else {
            return false;
        };
        let count = self.entries.len();
        if place >= count {
            return false;
        }
        self.entries[place] = Entry::Open(bracket, count + 1);
        self.put(Entry::Close(bracket))
    }

    #[inline(always)]
    fn ended(&mut self) -> bool {
        true
    }
}
