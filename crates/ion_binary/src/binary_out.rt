//! The visitor that writes values as binary values.
ghost use Rattle.std.specs.Prelude.{[], ◌≡◌, ◌<◌, ◌≤◌, ◌^◌, IfOk, IfSome, MatchBool, MatchResult, Some, length, option_map, suc, true};
ghost use Rattle.ion_binary.specs.Names.{IsLater, IsText, Names as SymbolsById, NeedsLargeId, greatest_id, id_of, number_payload, payload_of, with_name};
ghost use Rattle.ion_model.specs.declared.value.Payload.TheVariants as payloads;
ghost use Rattle.ion_symtab.specs.declared.fault.Fault.TheVariants as faults;
ghost use Rattle.ion_binary.specs.visiting.BinaryOut.{counted_behind, no_octets, of_values, with_begun, with_body, with_end, with_ended, with_frame, with_id, with_part, without_begun, without_whole};

use crate::writer::framing::{
    code_of, frame, insert_length, put_decimal_value, put_digits, put_framed, put_null, put_symbol,
    put_timestamp_value, put_truth, put_whole,
};
use crate::writer::put_front;
use ion_names::{Guesses, Name, Names, place_of};
use ion_scalar::Number;
use ion_symtab::Fault;
use ion_visiting::{Bracket, Part, Visitor, number_kept, part_kept, text_kept};
use std::alloc::Global;
use std::hash::{BuildHasher, BuildHasherDefault, FoldHasher};
use std::marker::Model;
use std::mem;

/// Where an octet stands in place of a descriptor.
#[derive(Clone, Copy)]
pub(crate) struct Frame {
    place: usize,
    /// Whether annotations and their value follow.
    wraps: bool,
}

/// The visitor that writes what it is told as a binary document (Ion 1.0, "Ion Binary Encoding"):
/// each value of the top level as `BinaryWriter` does, behind the table of its new symbols. It keeps
/// what it wrote until that is handed over: `octets` are those of the values that ended.
///
/// It answers `false` where memory was refused, and where a value would end of which a symbol needs
/// an id above 2^31-1.
#[derive(Drop)]
pub struct BinaryOut<S: BuildHasher = BuildHasherDefault<FoldHasher>> {
    alloc: Global,
    names: Names<S>,
    guesses: Guesses,
    /// The values that ended, behind the marker and their tables.
    whole: Vec<u8>,
    /// How many symbols have their ids by those tables.
    known: usize,
    /// Whether the marker stands there.
    begun: bool,
    /// What came of the value that is open.
    value: Vec<u8>,
    /// The places of descriptors that are open, the outermost first.
    frames: Vec<Frame>,
    /// Whether annotations of the value that comes stand there.
    noted: bool,
}

impl<S: BuildHasher> Model for BinaryOut<S> {
    ghost use Rattle.std.specs.Prelude.{reverse};
    ghost use Rattle.ion_binary.specs.visiting.BinaryOut.{Encoded};

    ghost Value = { Encoded };

    ghost view = { λ s. record {
      whole = s.whole.items;
      names = s.names;
      known = s.known;
      begun = s.begun;
      value = s.value.items;
      frames = reverse s.frames.items;
      noted = s.noted;
    } };
}

impl BinaryOut {
    /// Nothing yet. The only fault is `Memory`. The hasher has a fixed seed: where a stranger
    /// chooses the texts, `with_hasher` has a random one.
    pub fn new(alloc: Global) -> Result<BinaryOut, Fault>
        ensures { MatchResult result (λ out. out ≡ no_octets) (λ f. f ≡ faults.Memory) }
    {
        BinaryOut::with_hasher(alloc, BuildHasherDefault::new())
    }
}

impl<S: BuildHasher + Drop> BinaryOut<S> {
    /// The same, of a visitor that finds ids by this hasher. What it writes is the same.
    pub fn with_hasher(alloc: Global, hasher: S) -> Result<BinaryOut<S>, Fault>
        ensures { MatchResult result (λ out. out ≡ no_octets) (λ f. f ≡ faults.Memory) }
    {
        let names = Names::system(alloc, hasher)?;
        let known = names.len();
        Ok(BinaryOut {
            alloc,
            names,
            guesses: Guesses::new(alloc),
            whole: Vec::new(alloc),
            known,
            begun: false,
            value: Vec::new(alloc),
            frames: Vec::new(alloc),
            noted: false,
        })
    }

    /// The octets of the values that ended, which `forget_octets` lets go.
    pub fn octets(&self) -> &[u8]
        ensures { result.now ≡ self.now.whole }
    {
        &self.whole
    }

    /// Lets go the octets, which were handed over, and keeps their memory for others. What came of
    /// the value that is open stays.
    pub fn forget_octets(&mut self)
        ensures { self.new ≡ without_whole self.old }
    {
        self.whole.clear();
    }

    /// Lets go all octets, those of the values that ended too, and keeps the ids of all symbols.
    pub(crate) fn go_on(&mut self)
        ensures { self.new ≡ of_values []
            (record { names = self.old.names; begun = self.old.begun }) }
    {
        self.whole.clear();
        self.known = self.names.len();
        self.value.clear();
        self.frames.clear();
        self.noted = false;
    }

    /// Whether the marker stands before the values that ended.
    pub(crate) fn has_begun(&self) -> bool
        ensures { result ≡ self.now.begun }
    {
        self.begun
    }

    /// Lets go what came of the value that is open, as where it was refused, with the ids of its
    /// new symbols. The octets of those before it stay, and another value may begin.
    pub fn forget_begun(&mut self)
        ensures { self.new ≡ without_begun self.old }
    {
        self.names.truncate(self.known);
        self.value.clear();
        self.frames.clear();
        self.noted = false;
    }

    /// Whether a symbol needs an id above 2^31-1.
    #[inline(always)]
    pub fn needs_large_id(&self) -> bool
        ensures { MatchBool result (NeedsLargeId self.now.names)
            (length self.now.names ≤ suc greatest_id) }
    {
        self.names.needs_large_id()
    }

    // Appends an octet in whose place a descriptor will stand.
    #[inline(always)]
    fn put_frame(&mut self, wraps: bool) -> bool
        ensures { result ≡ true → self.new ≡ with_frame self.old wraps }
    {
        let place = self.value.len();
        self.value.push(0).is_ok() && self.frames.push(Frame { place, wraps }).is_ok()
    }

    // Sets the descriptor of what stands behind the innermost place.
    #[inline(always)]
    fn set_frame(&mut self, code: u8) -> bool
        requires { code < 16 }
        ensures { result ≡ true → self.new ≡ with_body self.old code }
    {
        match self.frames.pop() {
            None => false,
            Some(open) => {
                open.place < self.value.len() && frame(code, open.place, &mut self.value).is_ok()
            }
        }
    }

    // Puts the number of the octets behind the innermost place before them.
    fn set_count(&mut self) -> bool
        ensures { result ≡ true → self.new ≡ record self.old {
          value = counted_behind self.old.frames self.old.value;
        } }
    {
        let Some(open) = self.frames.last() else {
            return false;
        };
        let place = open.place;
        if place >= self.value.len() {
            return false;
        }
        let count = self.value.len() - place - 1;
        insert_length(place + 1, count, &mut self.value).is_ok()
    }

    // Begins a value, with which its annotations end.
    #[inline(always)]
    fn begin_value(&mut self) -> bool
        ensures { result ≡ true → self.new ≡ with_begun self.old }
    {
        if !self.noted {
            return true;
        }
        self.noted = false;
        self.set_count()
    }

    // Ends a value, and what its annotations are about.
    #[inline(always)]
    fn end_value(&mut self) -> bool
        ensures { result ≡ true → self.new ≡ with_ended self.old }
    {
        let wraps = match self.frames.last() {
            None => false,
            Some(open) => open.wraps,
        };
        !wraps || self.set_frame(14)
    }

    // The value of the top level ended, and nothing stands before it: its octets aren't copied.
    #[inline(always)]
    fn end_alone(&mut self)
        requires whole { self.old.whole ≡ [] }
        requires begun { self.old.begun ≡ true }
        requires known { length self.old.names ≤ self.old.known }
        ensures { self.new ≡ with_end self.old }
    {
        mem::swap(&mut self.whole, &mut self.value);
        self.known = self.names.len();
    }

    // The id of a text, which is the next one where it had none.
    #[inline(always)]
    fn id_of_text(&mut self, text: &str) -> Result<u64, Fault>
        ensures named { IfOk result (λ _. self.new
            ≡ record self.old { names = with_name self.old.names (Some text.now) }) }
        ensures id { IfOk result (λ id. (later : SymbolsById) → IsLater self.new.names later →
            id ≡ id_of later (Some text.now)) }
        ensures small { IfOk result (λ id. id < 2 ^ 63) }
    {
        let place = place_of(text);
        let guess = self.guesses.guess(place);
        if self.names.is_text_at(guess, text) {
            return Ok(guess as u64);
        }
        self.id_by_look(place, text)
    }

    // The same, with a look by the text. Its place keeps the id.
    #[inline(never)]
    fn id_by_look(&mut self, place: usize, text: &str) -> Result<u64, Fault>
        ensures named { IfOk result (λ _. self.new
            ≡ record self.old { names = with_name self.old.names (Some text.now) }) }
        ensures id { IfOk result (λ id. (later : SymbolsById) → IsLater self.new.names later →
            id ≡ id_of later (Some text.now)) }
        ensures small { IfOk result (λ id. id < 2 ^ 63) }
    {
        let name = Name::known(self.alloc, text)?;
        let id = self.names.add(name)?;
        self.guesses.note(place, id);
        Ok(id as u64)
    }

    // The id of a symbol of this text, or of unknown text, which is the next one where it had none.
    fn symbol_id(&mut self, text: Option<&str>) -> Option<u64>
        ensures named { let s = option_map (λ t. t.now) text.entry in IfSome result (λ _. self.new
            ≡ record self.old { names = with_name self.old.names s }) }
        ensures id { let s = option_map (λ t. t.now) text.entry in IfSome result (λ id.
            (later : SymbolsById) → IsLater self.new.names later → id ≡ id_of later s) }
        ensures small { IfSome result (λ id. id < 2 ^ 63) }
        ensures kept { IsText (option_map (λ t. t.now) text.entry) }
    {
        match text {
            None => match self.names.add(Name::unknown()) {
                Ok(id) => Some(id as u64),
                Err(_) => None,
            },
            Some(text) => {
                text_kept(text);
                match self.id_of_text(text) {
                    Ok(id) => Some(id),
                    Err(_) => None,
                }
            }
        }
    }

    // Appends the id of a symbol.
    fn put_symbol_id(&mut self, text: Option<&str>) -> bool
        ensures put { result ≡ true → self.new
            ≡ with_id self.old (option_map (λ t. t.now) text.entry) }
        ensures kept { IsText (option_map (λ t. t.now) text.entry) }
    {
        match self.symbol_id(text) {
            None => false,
            Some(id) => put_digits(id, &mut self.value).is_ok(),
        }
    }

    // Appends a symbol as a value.
    fn put_symbol_value(&mut self, text: Option<&str>) -> bool
        ensures put { result ≡ true → self.new
            ≡ with_part self.old (payloads.Symbol (option_map (λ t. t.now) text.entry)) }
        ensures kept { IsText (option_map (λ t. t.now) text.entry) }
    {
        match self.symbol_id(text) {
            None => false,
            Some(id) => put_symbol(id, &mut self.value).is_ok(),
        }
    }

    // Appends a value of one token, which is no number.
    fn put_part(&mut self, said: &Part<'_>) -> bool
        ensures { result ≡ true → self.new ≡ with_part self.old (payload_of said.now) }
    {
        match said {
            Part::Null(kind) => put_null(*kind, &mut self.value).is_ok(),
            Part::Truth(truth) => put_truth(*truth, &mut self.value).is_ok(),
            Part::Symbol(text) => self.put_symbol_value(Some(*text)),
            Part::Str(text) => put_framed(8, text.as_bytes(), &mut self.value).is_ok(),
            Part::Clob(octets) => put_framed(9, octets, &mut self.value).is_ok(),
            Part::Blob(octets) => put_framed(10, octets, &mut self.value).is_ok(),
        }
    }

    // Appends a number.
    fn put_number(&mut self, number: Number) -> bool
        ensures { result ≡ true → self.new ≡ with_part self.old (number_payload number) }
    {
        match number {
            Number::Int(whole) => put_whole(whole, &mut self.value).is_ok(),
            Number::Decimal(decimal) => put_decimal_value(decimal, &mut self.value).is_ok(),
            Number::Timestamp(stamp) => put_timestamp_value(stamp, &mut self.value).is_ok(),
        }
    }
}

impl<S: BuildHasher + Drop> Visitor for BinaryOut<S> {
    ghost use Rattle.ion_binary.specs.visiting.BinaryOut.{Encodes};

    ghost takes = { Encodes };

    #[inline(always)]
    fn part(&mut self, said: &Part<'_>) -> bool {
        part_kept(said);
        self.begin_value() && self.put_part(said) && self.end_value()
    }

    #[inline(always)]
    fn number(&mut self, number: Number) -> bool {
        number_kept(&number);
        self.begin_value() && self.put_number(number) && self.end_value()
    }

    #[inline(always)]
    fn unknown_symbol(&mut self) -> bool {
        self.begin_value() && self.put_symbol_value(None) && self.end_value()
    }

    #[inline(always)]
    fn annotation(&mut self, text: Option<&str>) -> bool {
        if !self.noted {
            self.noted = true;
            if !self.put_frame(true) {
                return false;
            }
        }
        self.put_symbol_id(text)
    }

    #[inline(always)]
    fn name(&mut self, text: Option<&str>) -> bool {
        self.put_symbol_id(text)
    }

    #[inline(always)]
    fn open(&mut self, _bracket: Bracket) -> bool {
        self.begin_value() && self.put_frame(false)
    }

    #[inline(always)]
    fn close(&mut self, bracket: Bracket) -> bool {
        self.set_frame(code_of(bracket)) && self.end_value()
    }

    #[inline(always)]
    fn ended(&mut self) -> bool {
        if self.names.needs_large_id() {
            return false;
        }
        if self.begun && self.whole.is_empty() && self.names.len() <= self.known {
            self.end_alone();
            return true;
        }
        let (names, whole) = (&self.names, &mut self.whole);
        if put_front(self.alloc, names, self.known, self.begun, whole).is_err()
            || whole.extend_from_slice(&self.value).is_err()
        {
            return false;
        }
        self.known = self.names.len();
        self.begun = true;
        self.value.clear();
        true
    }
}
