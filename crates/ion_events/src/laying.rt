//! The visitor that lays out what it is told.
ghost use Rattle.std.specs.Prelude.{◌≡◌, ℕ, Option, MatchResult, Some, option_map, slice_get, true};
ghost use Rattle.ion_events.specs.Laying.{HandsOver, IsNamed, IsNew, PutsAt, Shows, ShowsSymbol, lays_down};
ghost use Rattle.ion_events.specs.Names.{IsText, Place as APlace, part};
ghost use Rattle.ion_model.specs.declared.value.Payload.TheVariants as payloads;
ghost use Rattle.ion_symtab.specs.declared.fault.Fault.TheVariants as faults;

use crate::draft::Draft;
use crate::entry::Place;
use crate::laid::Laid;
use ion_model::Kind;
use ion_names::{Guesses, Name, Names, place_of};
use ion_scalar::Number;
use ion_symtab::Fault;
use ion_visiting::{Bracket, Part, Visitor, number_kept, part_kept, text_kept};
use std::alloc::Global;
use std::hash::{BuildHasher, BuildHasherDefault, FoldHasher};

/// The visitor that lays out what it is told (docs/EVENTS.md), the text of each symbol once. It keeps
/// the value that is open. One that ended is handed over to the layout of those before it by
/// whoever tells, and so its end isn't told by `ended`, which answers `false`.
///
/// It answers `false` where memory was refused, for a text of 2^32 octets and more, for as many
/// values in one container, and beyond 2^64 entries or octets of texts.
#[derive(Drop)]
pub struct Laying<S: BuildHasher = BuildHasherDefault<FoldHasher>> {
    alloc: Global,
    draft: Draft,
    names: Names<S>,
    guesses: Guesses,
    /// Where the text of each symbol lies, by its id, if it was laid.
    places: Vec<Option<Place>>,
}

impl Laying {
    /// Of no value, behind none. The only fault is `Memory`. The hasher has a fixed seed: where a
    /// stranger chooses the texts, `with_hasher` has a random one.
    pub fn new(alloc: Global) -> Result<Laying, Fault>
        ensures { MatchResult result IsNew (λ f. f ≡ faults.Memory) }
    {
        Laying::with_hasher(alloc, BuildHasherDefault::new())
    }
}

impl<S: BuildHasher + Drop> Laying<S> {
    /// The same, of a visitor that finds symbols by this hasher. What it lays out is the same.
    pub fn with_hasher(alloc: Global, hasher: S) -> Result<Laying<S>, Fault>
        ensures { MatchResult result IsNew (λ f. f ≡ faults.Memory) }
    {
        let names = Names::system(alloc, hasher)?;
        let places: Vec<Option<Place>> = vec![in alloc; None; names.len()]?;
        Ok(Laying {
            alloc,
            draft: Draft::new(alloc),
            names,
            guesses: Guesses::new(alloc),
            places,
        })
    }

    /// Hands over the value that ended, behind those before it, and is of no value again.
    pub fn hand_over(&mut self, laid: &mut Laid) -> bool
        ensures { result ≡ true → HandsOver self.old laid.old self.new laid.new }
    {
        self.draft.hand_over(laid)
    }

    // Where the text of a symbol lies; where it wasn't laid yet it is put behind the texts so far.
    #[inline(always)]
    fn place(&mut self, text: &str) -> Option<Place>
        ensures { (p : APlace) → result ≡ Some p → Shows self.old text.now p self.new }
    {
        let at = place_of(text);
        let guess = self.guesses.guess(at);
        if self.names.is_text_at(guess, text) {
            if let Some(place) = self.known(guess) {
                return Some(place);
            }
        }
        self.place_by_look(at, text)
    }

    // The same, with a look by the text.
    #[inline(never)]
    fn place_by_look(&mut self, at: usize, text: &str) -> Option<Place>
        ensures { (p : APlace) → result ≡ Some p → Shows self.old text.now p self.new }
    {
        let id = self.id_of(text)?;
        self.guesses.note(at, id);
        match self.known(id) {
            Some(place) => Some(place),
            None => self.put(id, text),
        }
    }

    // Where the text of an id was laid, if it was.
    #[inline(always)]
    fn known(&self, id: usize) -> Option<Place>
        ensures { (p : APlace) → result ≡ Some p →
            slice_get self.now.places.items id ≡ Some (Some p) }
    {
        match self.places.get(id) {
            Some(place) => *place,
            None => None,
        }
    }

    // Puts the text of an id behind the texts so far, and keeps its place.
    fn put(&mut self, id: usize, text: &str) -> Option<Place>
        ensures { (p : APlace) → result ≡ Some p → PutsAt self.old id text.now p self.new }
    {
        let place = self.draft.symbol_text(text)?;
        if id < self.places.len() {
            self.places[id] = Some(place);
        }
        Some(place)
    }

    // The id of a text, which is the next one where it had none. There are as many places as ids.
    fn id_of(&mut self, text: &str) -> Option<usize>
        ensures { (id : ℕ) → result ≡ Some id → IsNamed self.old text.now id self.new }
    {
        let Ok(name) = Name::known(self.alloc, text) else {
            return None;
        };
        let Ok(id) = self.names.add(name) else {
            return None;
        };
        if self.places.len() < self.names.len() && self.places.push(None).is_err() {
            return None;
        }
        Some(id)
    }

    // Where the text of a symbol lies, if it has one; `None` where the visitor can't go on.
    #[inline(always)]
    fn symbol_place(&mut self, text: Option<&str>) -> Option<Option<Place>>
        ensures shows { (place : Option APlace) → result ≡ Some place →
            ShowsSymbol self.old (option_map (λ t. t.now) text.entry) place self.new }
        ensures kept { IsText (option_map (λ t. t.now) text.entry) }
    {
        match text {
            None => Some(None),
            Some(text) => {
                text_kept(text);
                match self.place(text) {
                    Some(place) => Some(Some(place)),
                    None => None,
                }
            }
        }
    }

    // Lays a symbol as a value.
    #[inline(always)]
    fn symbol_value(&mut self, text: Option<&str>) -> bool
        ensures { result ≡ true → lays_down self.old
            (part (payloads.Symbol (option_map (λ t. t.now) text.entry))) self.new }
    {
        match self.symbol_place(text) {
            Some(place) => self.draft.symbol(place),
            None => false,
        }
    }
}

impl<S: BuildHasher + Drop> Visitor for Laying<S> {
    ghost use Rattle.ion_events.specs.Laying.{lays_down};

    ghost takes = { lays_down };

    #[inline(always)]
    fn part(&mut self, said: &Part<'_>) -> bool {
        part_kept(said);
        match said {
            Part::Null(kind) => self.draft.null(*kind),
            Part::Truth(truth) => self.draft.truth(*truth),
            Part::Symbol(text) => self.symbol_value(Some(*text)),
            Part::Str(text) => self.draft.text(Kind::Str, text.as_bytes()),
            Part::Clob(octets) => self.draft.text(Kind::Clob, octets),
            Part::Blob(octets) => self.draft.text(Kind::Blob, octets),
        }
    }

    #[inline(always)]
    fn number(&mut self, number: Number) -> bool {
        number_kept(&number);
        self.draft.number(number)
    }

    #[inline(always)]
    fn unknown_symbol(&mut self) -> bool {
        self.symbol_value(None)
    }

    #[inline(always)]
    fn annotation(&mut self, text: Option<&str>) -> bool {
        match self.symbol_place(text) {
            Some(place) => self.draft.annotation(place),
            None => false,
        }
    }

    #[inline(always)]
    fn name(&mut self, text: Option<&str>) -> bool {
        match self.symbol_place(text) {
            Some(place) => self.draft.name(place),
            None => false,
        }
    }

    #[inline(always)]
    fn open(&mut self, bracket: Bracket) -> bool {
        self.draft.open(bracket)
    }

    #[inline(always)]
    fn close(&mut self, bracket: Bracket) -> bool {
        self.draft.close(bracket)
    }

    // Nobody tells it: a value that ended is handed over.
    #[inline(always)]
    fn ended(&mut self) -> bool {
        false
    }
}
