//! What is laid of a value that is open yet.
ghost use Rattle.std.specs.Prelude.{◌≡◌, ◌∷◌, [], ℕ, length, true};
ghost use Rattle.ion_events.specs.Names.{Place, annotation_code, code_of, label_entry, name_code, null_entry, number_entries, plain, truth_entry};
ghost use Rattle.ion_events.specs.Drafts.{Adds, Closes, IsBlank, IsHandedOver, Opens, text_place};
ghost use Rattle.ion_atoms.specs.declared.kind.Kind.TheVariants as kinds;

use crate::codes::{ANNOTATION, CLOSE, NAME, code_of, code_of_bracket};
use crate::entry::{Entry, Place, spell};
use crate::laid::Laid;
use crate::numbers::lay_number;
use ion_model::Kind;
use ion_scalar::Number;
use ion_visiting::Bracket;
use std::alloc::Global;

/// What stands around brackets that are open.
#[derive(Clone, Copy)]
pub(crate) struct Outer {
    /// Where they opened, among the entries of the value.
    place: usize,
    /// How many values stand around them so far, with them.
    values: u32,
}

/// The entries and texts of a value that is open yet, behind layouts of the values before it. How
/// its symbols are found is somebody else's.
///
/// Its calls answer `false` where memory was refused, for a text of 2^32 octets and more, for as
/// many values in one container, and beyond 2^64 entries or octets of texts. Then it is let go.
#[derive(Drop)]
pub struct Draft {
    entries: Vec<Entry>,
    texts: Vec<u8>,
    entries_before: u64,
    texts_before: u64,
    /// The brackets that are open, the outermost first.
    around: Vec<Outer>,
    /// How many values stand in the innermost so far.
    values: u32,
}

impl Draft {
    /// Of no value, behind none. Takes no memory.
    pub fn new(alloc: Global) -> Draft
        ensures { IsBlank result }
    {
        Draft {
            entries: Vec::new(alloc),
            texts: Vec::new(alloc),
            entries_before: 1,
            texts_before: 0,
            around: Vec::new(alloc),
            values: 0,
        }
    }

    /// Lays a null of this kind.
    #[inline(always)]
    pub fn null(&mut self, kind: Kind) -> bool
        ensures { result ≡ true → Adds self.old self.new (null_entry kind ∷ []) [] 1 }
    {
        self.value(Entry {
            kind: code_of(Kind::Null),
            detail: code_of(kind),
            more: 0,
            count: 0,
            number: 0,
        })
    }

    /// Lays a truth.
    #[inline(always)]
    pub fn truth(&mut self, truth: bool) -> bool
        ensures { result ≡ true → Adds self.old self.new (truth_entry truth ∷ []) [] 1 }
    {
        self.value(Entry::plain(code_of(Kind::Bool), 0, u64::from(truth)))
    }

    /// Lays a number.
    #[inline(always)]
    pub fn number(&mut self, number: Number) -> bool
        ensures { result ≡ true → Adds self.old self.new (number_entries number) [] 1 }
    {
        self.one_more() && lay_number(&mut self.entries, number)
    }

    /// Lays a string, clob or blob, by its kind, with octets of its own.
    #[inline(always)]
    pub fn text(&mut self, kind: Kind, octets: &[u8]) -> bool
        ensures { result ≡ true → Adds self.old self.new
            (plain (code_of kind) (length octets.now) (text_place self.old) ∷ []) octets.now 1 }
    {
        let Some(number) = self.text_place() else {
            return false;
        };
        let Ok(count) = u32::try_from(octets.len()) else {
            return false;
        };
        self.texts.extend_from_slice(octets).is_ok()
            && self.value(Entry::plain(code_of(kind), count, number))
    }

    /// Puts the text of a symbol behind the texts so far, and tells where it lies.
    #[inline(always)]
    pub fn symbol_text(&mut self, text: &str) -> Option<Place>
        ensures { (p : Place) → result ≡ Some p → Adds self.old self.new [] text.now 0
            × (p ≡ record { count = length text.now; number = text_place self.old }) }
    {
        let number = self.text_place()?;
        let Ok(count) = u32::try_from(text.len()) else {
            return None;
        };
        match self.texts.extend_from_slice(text.as_bytes()) {
            Ok(()) => Some(Place { count, number }),
            Err(_) => None,
        }
    }

    /// Lays a symbol whose text lies there, or is unknown.
    #[inline(always)]
    pub fn symbol(&mut self, place: Option<Place>) -> bool
        ensures { result ≡ true → Adds self.old self.new
            (label_entry (code_of kinds.Symbol) place ∷ []) [] 1 }
    {
        self.value(Entry::label(code_of(Kind::Symbol), place))
    }

    /// Lays such an annotation.
    #[inline(always)]
    pub fn annotation(&mut self, place: Option<Place>) -> bool
        ensures { result ≡ true → Adds self.old self.new
            (label_entry annotation_code place ∷ []) [] 0 }
    {
        self.entries.push(Entry::label(ANNOTATION, place)).is_ok()
    }

    /// Lays such a name of a field.
    #[inline(always)]
    pub fn name(&mut self, place: Option<Place>) -> bool
        ensures { result ≡ true → Adds self.old self.new (label_entry name_code place ∷ []) [] 0 }
    {
        self.entries.push(Entry::label(NAME, place)).is_ok()
    }

    /// Brackets open.
    #[inline(always)]
    pub fn open(&mut self, bracket: Bracket) -> bool
        ensures { result ≡ true → Opens self.old self.new bracket }
    {
        let place = self.entries.len();
        if !self.value(Entry::plain(code_of_bracket(bracket), 0, 0)) {
            return false;
        }
        let values = self.values;
        self.values = 0;
        self.around.push(Outer { place, values }).is_ok()
    }

    /// The innermost brackets close; `false` also where none are open.
    #[inline(always)]
    pub fn close(&mut self, bracket: Bracket) -> bool
        ensures { result ≡ true → Closes self.old self.new bracket }
    {
        let Some(outer) = self.around.pop() else {
            return false;
        };
        let at = self.entries.len();
        let Some(opened) = self.entries_before.checked_add(outer.place as u64) else {
            return false;
        };
        let Some(closed) = self.entries_before.checked_add(at as u64) else {
            return false;
        };
        if outer.place >= at || closed == u64::MAX {
            return false;
        }
        let code = code_of_bracket(bracket);
        self.entries[outer.place] = Entry::plain(code, self.values, closed + 1);
        self.values = outer.values;
        let close = Entry {
            kind: CLOSE,
            detail: code,
            more: 0,
            count: 0,
            number: opened,
        };
        self.entries.push(close).is_ok()
    }

    /// Hands over the value that ended, behind those before it, and is of no value again.
    pub fn hand_over(&mut self, laid: &mut Laid) -> bool
        ensures { result ≡ true → IsHandedOver self.old laid.old self.new laid.new }
    {
        let Some(entries_before) = self.entries_before.checked_add(self.entries.len() as u64) else {
            return false;
        };
        let Some(texts_before) = self.text_place() else {
            return false;
        };
        if !spell(self.entries.as_slice(), &mut laid.entries) {
            return false;
        }
        if laid.texts.extend_from_slice(self.texts.as_slice()).is_err() {
            return false;
        }
        self.entries.clear();
        self.texts.clear();
        self.entries_before = entries_before;
        self.texts_before = texts_before;
        self.values = 0;
        true
    }

    // One value more in what is open.
    #[inline(always)]
    fn one_more(&mut self) -> bool
        ensures { result ≡ true → Adds self.old self.new [] [] 1 }
    {
        if self.values == u32::MAX {
            return false;
        }
        self.values += 1;
        true
    }

    // A value of one entry.
    #[inline(always)]
    fn value(&mut self, entry: Entry) -> bool
        ensures { result ≡ true → Adds self.old self.new (entry ∷ []) [] 1 }
    {
        self.one_more() && self.entries.push(entry).is_ok()
    }

    // Where the next text begins.
    #[inline(always)]
    fn text_place(&self) -> Option<u64>
        ensures { (n : ℕ) → result ≡ Some n → n ≡ text_place self.now }
    {
        self.texts_before.checked_add(self.texts.len() as u64)
    }
}
