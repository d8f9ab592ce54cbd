//! The visitor that builds values.
ghost use Rattle.std.specs.Prelude.{◌≡◌, true};
ghost use Rattle.ion_visiting.specs.Building.{fresh, with_value, with_name, with_payload, opened, closed, value_in, without_value};

use crate::bracket::Bracket;
use crate::part::Part;
use crate::payloads::{number_payload, payload_of, symbol_of};
use crate::recent_symbols::RecentSymbols;
use crate::visitor::Visitor;
use ion_model::{Field, Payload, Sequence, Symbol, Value};
use ion_scalar::Number;
use std::alloc::Global;
use std::marker::Model;
use std::mem;

/// Where the value stands that comes next, and what stands before it there.
#[derive(Drop)]
pub(crate) enum Open {
    /// The top level, with the value that came.
    Top(Option<Value>),
    /// A list or an s-expression.
    Items(Sequence<Value>),
    /// A struct, and the name of the field whose value comes.
    Fields(Sequence<Field>, Option<Symbol>),
}

/// What stands around a container: the place that it is put into, and its annotations.
#[derive(Drop)]
pub(crate) struct Outer {
    place: Open,
    notes: Sequence<Symbol>,
}

/// The visitor that builds the value whose events it is told. Symbols of one text share its memory.
///
/// It answers `false` where memory was refused; `clear` begins anew.
#[derive(Drop)]
pub struct Building {
    alloc: Global,
    /// The annotations read of the value that comes.
    notes: Sequence<Symbol>,
    place: Open,
    /// What stands around, the outermost first.
    outer: Vec<Outer>,
    /// The symbols met lately, whose texts are shared.
    recent: RecentSymbols,
}

impl Model for Building {
    ghost use Rattle.std.specs.Prelude.{reverse};
    ghost use Rattle.std.specs.Coded.{codes};
    ghost use Rattle.ion_model.specs.contracts.value.Payload as payload;
    ghost use Rattle.ion_visiting.specs.Building.{Built};

    ghost Value = { Built };

    ghost coded = { Prim.hlevel (codes, payload.the_row.coded) };

    ghost view = { λ s.
        record { notes = s.notes; place = s.place; outer = reverse s.outer.items } };
}

impl Open {
    // A container of nothing yet.
    #[inline(always)]
    fn of(alloc: Global, bracket: Bracket) -> Open
        ensures { result ≡ opened bracket }
    {
        match bracket {
            Bracket::Fields => Open::Fields(Sequence::new(alloc), None),
            _ => Open::Items(Sequence::new(alloc)),
        }
    }

    // Puts a value there.
    fn put(&mut self, value: Value) -> bool
        ensures { result ≡ true → self.new ≡ with_value self.old value }
    {
        match self {
            Open::Items(items) => items.push(value).is_ok(),
            Open::Fields(fields, named) => match named.take() {
                Some(name) => fields.push(Field { name, value }).is_ok(),
                None => {
                    drop(value);
                    false
                }
            },
            Open::Top(came) => {
                *came = Some(value);
                true
            }
        }
    }

    // The value that comes is that of a field of this name.
    fn put_name(&mut self, name: Symbol) -> bool
        ensures { result ≡ true → self.new ≡ with_name self.old name }
    {
        match self {
            Open::Fields(_, named) => {
                *named = Some(name);
                true
            }
            _ => {
                drop(name);
                false
            }
        }
    }

    // The value that came at the top level, which is left without any.
    fn take(&mut self) -> Option<Value>
        ensures value { result ≡ value_in self.old }
        ensures left { self.new ≡ without_value self.old }
    {
        match self {
            Open::Top(came) => came.take(),
            _ => None,
        }
    }

    // The container of what came.
    #[inline(always)]
    fn closed(self, bracket: Bracket) -> Option<Payload>
        ensures { result ≡ closed bracket self }
    {
        match (bracket, self) {
            (Bracket::List, Open::Items(items)) => Some(Payload::List(items)),
            (Bracket::Sexp, Open::Items(items)) => Some(Payload::Sexp(items)),
            (Bracket::Fields, Open::Fields(fields, named)) => {
                drop(named);
                Some(Payload::Fields(fields))
            }
            (_, other) => {
                drop(other);
                None
            }
        }
    }
}

impl Building {
    /// Nothing yet. Takes no memory.
    pub fn new(alloc: Global) -> Building
        ensures { result ≡ fresh }
    {
        Building {
            alloc,
            notes: Sequence::new(alloc),
            place: Open::Top(None),
            outer: Vec::new(alloc),
            recent: RecentSymbols::new(alloc),
        }
    }

    /// The value of the top level that was told last, if it came whole and wasn't taken.
    pub fn take(&mut self) -> Option<Value>
        ensures value { result ≡ value_in self.old.place }
        ensures left { self.new ≡ record self.old { place = without_value self.old.place } }
    {
        self.place.take()
    }

    /// Lets go what was told, whole or not, and begins anew.
    pub fn clear(&mut self)
        ensures { self.new ≡ fresh }
    {
        drop(mem::replace(&mut self.notes, Sequence::new(self.alloc)));
        drop(mem::replace(&mut self.place, Open::Top(None)));
        self.outer.clear();
    }

    // Puts the value of the annotations that came and of this payload into its place.
    #[inline(always)]
    fn put(&mut self, payload: Payload) -> bool
        ensures { result ≡ true → self.new ≡ with_payload self.old payload }
    {
        let annotations = mem::replace(&mut self.notes, Sequence::new(self.alloc));
        self.place.put(Value {
            annotations,
            payload,
        })
    }
}

impl Visitor for Building {
    ghost use Rattle.ion_visiting.specs.Building.{builds};

    ghost takes = { builds };

    #[inline(always)]
    fn part(&mut self, said: &Part<'_>) -> bool {
        match payload_of(self.alloc, &mut self.recent, said) {
            Err(_) => false,
            Ok(payload) => self.put(payload),
        }
    }

    #[inline(always)]
    fn number(&mut self, number: Number) -> bool {
        self.put(number_payload(number))
    }

    #[inline(always)]
    fn unknown_symbol(&mut self) -> bool {
        self.put(Payload::Symbol(Symbol::unknown()))
    }

    #[inline(always)]
    fn symbol(&mut self, symbol: &Symbol) -> bool {
        match symbol.copy() {
            Err(_) => false,
            Ok(copy) => self.put(Payload::Symbol(copy)),
        }
    }

    #[inline(always)]
    fn symbol_annotation(&mut self, symbol: &Symbol) -> bool {
        match symbol.copy() {
            Err(_) => false,
            Ok(copy) => self.notes.push(copy).is_ok(),
        }
    }

    #[inline(always)]
    fn symbol_name(&mut self, symbol: &Symbol) -> bool {
        match symbol.copy() {
            Err(_) => false,
            Ok(copy) => self.place.put_name(copy),
        }
    }

    #[inline(always)]
    fn annotation(&mut self, text: Option<&str>) -> bool {
        match symbol_of(&mut self.recent, text) {
            Err(_) => false,
            Ok(symbol) => self.notes.push(symbol).is_ok(),
        }
    }

    #[inline(always)]
    fn name(&mut self, text: Option<&str>) -> bool {
        match symbol_of(&mut self.recent, text) {
            Err(_) => false,
            Ok(symbol) => self.place.put_name(symbol),
        }
    }

    #[inline(always)]
    fn open(&mut self, bracket: Bracket) -> bool {
        let place = mem::replace(&mut self.place, Open::of(self.alloc, bracket));
        let notes = mem::replace(&mut self.notes, Sequence::new(self.alloc));
        self.outer.push(Outer { place, notes }).is_ok()
    }

    #[inline(always)]
    fn close(&mut self, bracket: Bracket) -> bool {
        let Some(Outer { place, notes }) = self.outer.pop() else {
            return false;
        };
        match mem::replace(&mut self.place, place).closed(bracket) {
            None => {
                drop(notes);
                false
            }
            Some(payload) => self.place.put(Value {
                annotations: notes,
                payload,
            }),
        }
    }

    #[inline(always)]
    fn ended(&mut self) -> bool {
        true
    }
}
