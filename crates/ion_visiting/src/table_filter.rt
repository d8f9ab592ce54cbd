//! Local symbol tables, which are kept from a visitor (Ion 1.0, "Symbols", "Local Symbol Tables").
ghost use Rattle.std.specs.Prelude.{◌≡◌, ◌++◌, ◌∷◌, [], List, None, Some, map, true, false};
ghost use Rattle.ion_visiting.specs.Names.{Event, Led, Payload, Value as AnyValue, annotation, body_payload, closes, events_of, layer_kind, name, names_table, number_payload, opens, out-Payload, part, payload_of};
ghost use Rattle.ion_model.specs.declared.value.Payload.TheVariants as payloads;
ghost use Rattle.ion_visiting.specs.Tables.{Hears, IsTable, LetsPass, Tells, WasTold, heard, is_fields, is_null_struct, is_of_table, table_of};
ghost use Rattle.ion_visiting.specs.declared.table_filter.Table.TheVariants as tables;

use crate::bracket::Bracket;
use crate::part::{NumberBody, Part};
use crate::table_building::TableBuilding;
use crate::telling::{tell_annotation, tell_annotations, tell_name, tell_symbol};
use crate::visitor::Visitor;
use ion_model::{Kind, Sequence, Symbol, Value};
use ion_scalar::Number;
use std::alloc::Global;
use std::mem;

/// Whether the value that is told is a local symbol table.
#[derive(Clone, Copy)]
pub enum Table {
    /// Nothing was told of it yet.
    Unknown,
    No,
    /// Its annotations alone were told, and the first names tables.
    Noted,
    Yes,
}

/// Tells a visitor the events of values of the top level, but not those of local symbol tables,
/// which it builds, without their open content.
///
/// What it is told is told on at once, but for annotations that may be those of a table: they are
/// told on once it is seen that no struct follows. Each call answers `false` where the visitor does,
/// or where memory was refused.
#[derive(Drop)]
pub struct TableFilter {
    alloc: Global,
    table: Table,
    /// The annotations of what may be a table.
    notes: Sequence<Symbol>,
    tables: TableBuilding,
}

// Whether a part is the null of structs.
fn is_null_struct(said: &Part<'_>) -> bool
    ensures { result ≡ is_null_struct (payload_of said.now) }
{
    matches!(said, Part::Null(Kind::Fields))
}

// Whether what opens is a struct.
pub fn is_fields(bracket: Bracket) -> bool
    ensures { result ≡ is_fields bracket }
{
    match bracket {
        Bracket::Fields => true,
        Bracket::List | Bracket::Sexp => false,
    }
}

impl TableFilter {
    /// Nothing was told yet. Takes no memory.
    pub fn new(alloc: Global) -> TableFilter
        ensures { WasTold result [] }
    {
        TableFilter {
            alloc,
            table: Table::Unknown,
            notes: Sequence::new(alloc),
            tables: TableBuilding::new(alloc),
        }
    }

    // Whether an event, which may be a struct behind annotations, is of a table.
    #[inline(always)]
    fn is_table(&self, begins: bool) -> bool
        ensures { result ≡ is_of_table self.now.table begins }
    {
        // One arm for both, so that two tests find it.
        match self.table {
            Table::Unknown | Table::No => false,
            Table::Noted => begins,
            Table::Yes => true,
        }
    }

    // What is told is a table.
    #[inline(always)]
    fn enter_table(&mut self) -> bool
        requires { is_of_table self.old.table true ≡ true }
        ensures { result ≡ true → (es : List Event) → WasTold self.old es →
            IsTable self.new es × (heard es ≡ []) }
    {
        match self.table {
            Table::Yes => true,
            Table::Noted => self.begin_table(),
            Table::Unknown => unreachable!(),
            Table::No => unreachable!(),
        }
    }

    // What was noted is a table.
    #[inline(never)]
    fn begin_table(&mut self) -> bool
        requires { self.old.table ≡ tables.Noted }
        ensures { result ≡ true → (es : List Event) → WasTold self.old es →
            IsTable self.new es × (heard es ≡ []) }
    {
        let notes = mem::replace(&mut self.notes, Sequence::new(self.alloc));
        let told = tell_annotations(notes.as_slice(), &mut self.tables);
        drop(notes);
        self.table = Table::Yes;
        told
    }

    // What is told is no table, and annotations that were kept are told on.
    #[inline(always)]
    fn let_pass<V: Visitor>(&mut self, visitor: &mut V) -> bool
        requires { is_of_table self.old.table false ≡ false }
        ensures { result ≡ true → (es : List Event) → WasTold self.old es →
            LetsPass self.new × Hears V.takes (heard es) es visitor.old visitor.new }
    {
        match self.table {
            Table::Unknown | Table::No => {
                self.table = Table::No;
                true
            }
            Table::Noted => self.pass_annotations(visitor),
            Table::Yes => unreachable!(),
        }
    }

    #[inline(never)]
    fn pass_annotations<V: Visitor>(&mut self, visitor: &mut V) -> bool
        requires { self.old.table ≡ tables.Noted }
        ensures { result ≡ true → (es : List Event) → WasTold self.old es →
            LetsPass self.new × Hears V.takes (heard es) es visitor.old visitor.new }
    {
        let notes = mem::replace(&mut self.notes, Sequence::new(self.alloc));
        let told = tell_annotations(notes.as_slice(), visitor);
        drop(notes);
        self.table = Table::No;
        told
    }

    // One annotation more is kept.
    fn keep(&mut self, symbol: &Symbol) -> bool
        ensures { result ≡ true →
            self.new ≡ record self.old { notes = self.old.notes ++ symbol.now ∷ [] } }
    {
        match symbol.copy() {
            Ok(copy) => self.notes.push(copy).is_ok(),
            Err(_) => false,
        }
    }

    /// A part.
    #[inline(always)]
    pub fn part<V: Visitor>(&mut self, said: &Part<'_>, visitor: &mut V) -> bool
        ensures { result ≡ true →
            Tells V.takes (part (payload_of said.now)) self.old self.new visitor.old visitor.new }
    {
        if self.is_table(is_null_struct(said)) {
            return self.enter_table() && self.tables.part(said);
        }
        self.let_pass(visitor) && visitor.part(said)
    }

    /// A number.
    #[inline(always)]
    pub fn number<V: Visitor>(&mut self, number: Number, visitor: &mut V) -> bool
        ensures { result ≡ true →
            Tells V.takes (part (number_payload number)) self.old self.new visitor.old visitor.new }
    {
        if self.is_table(false) {
            return self.enter_table() && self.tables.number(number);
        }
        self.let_pass(visitor) && visitor.number(number)
    }

    /// A number as it is encoded. Answers `None`, and does nothing, where it has to be told by
    /// `number`: where the visitor says so, or what is told may be a table.
    #[inline(always)]
    pub fn number_body<V: Visitor>(
        &mut self,
        body: &NumberBody<'_>,
        visitor: &mut V,
    ) -> Option<bool>
        ensures told { result ≡ Some true → Tells V.takes (part (body_payload body.now))
            self.old self.new visitor.old visitor.new }
        ensures none { result ≡ None → (self.new ≡ self.old) × (visitor.new ≡ visitor.old) }
    {
        if self.may_be_table() {
            return None;
        }
        match visitor.number_body(body) {
            Some(true) => Some(self.lets_pass()),
            Some(false) => Some(false),
            None => None,
        }
    }

    /// A symbol that is a value.
    #[inline(always)]
    pub fn symbol<V: Visitor>(&mut self, symbol: &Symbol, visitor: &mut V) -> bool
        ensures { result ≡ true →
            Tells V.takes (part (payloads.Symbol symbol.now))
            self.old self.new visitor.old visitor.new }
    {
        if self.is_table(false) {
            return self.enter_table() && tell_symbol(symbol, &mut self.tables);
        }
        self.let_pass(visitor) && tell_symbol(symbol, visitor)
    }

    /// The name of the field whose value follows.
    #[inline(always)]
    pub fn name<V: Visitor>(&mut self, symbol: &Symbol, visitor: &mut V) -> bool
        ensures { result ≡ true →
            Tells V.takes (name symbol.now) self.old self.new visitor.old visitor.new }
    {
        if self.is_table(false) {
            return self.enter_table() && tell_name(symbol, &mut self.tables);
        }
        self.let_pass(visitor) && tell_name(symbol, visitor)
    }

    /// The front of a list, an s-expression or a struct.
    #[inline(always)]
    pub fn open<V: Visitor>(&mut self, bracket: Bracket, visitor: &mut V) -> bool
        ensures { result ≡ true →
            Tells V.takes (opens bracket) self.old self.new visitor.old visitor.new }
    {
        if self.is_table(is_fields(bracket)) {
            return self.enter_table() && self.tables.open(bracket);
        }
        self.let_pass(visitor) && visitor.open(bracket)
    }

    /// The end of the one that was opened last.
    #[inline(always)]
    pub fn close<V: Visitor>(&mut self, bracket: Bracket, visitor: &mut V) -> bool
        ensures { result ≡ true →
            Tells V.takes (closes bracket) self.old self.new visitor.old visitor.new }
    {
        if self.is_table(false) {
            return self.enter_table() && self.tables.close(bracket);
        }
        self.let_pass(visitor) && visitor.close(bracket)
    }

    /// An annotation of the value that follows.
    #[inline(always)]
    pub fn annotation<V: Visitor>(&mut self, symbol: &Symbol, visitor: &mut V) -> bool
        ensures { result ≡ true →
            Tells V.takes (annotation symbol.now) self.old self.new visitor.old visitor.new }
    {
        match self.table {
            Table::Unknown => {
                if symbol.names_table() {
                    self.table = Table::Noted;
                    return self.keep(symbol);
                }
                self.pass_annotation(symbol, visitor)
            }
            Table::No => self.pass_annotation(symbol, visitor),
            Table::Noted => self.keep(symbol),
            Table::Yes => tell_annotation(symbol, &mut self.tables),
        }
    }

    // An annotation of what is no table.
    #[inline(always)]
    fn pass_annotation<V: Visitor>(&mut self, symbol: &Symbol, visitor: &mut V) -> bool
        requires { is_of_table self.old.table true ≡ false }
        ensures { result ≡ true → (es : List Event) → WasTold self.old es → LetsPass self.new
            × Hears V.takes (heard es) (es ++ annotation symbol.now ∷ [])
            visitor.old visitor.new }
    {
        self.let_pass(visitor) && tell_annotation(symbol, visitor)
    }

    /// The end of a value of the top level: the local symbol table without its open content, if it was one. What is told next
    /// is another value.
    #[inline(always)]
    pub fn end(&mut self) -> Option<Value>
        ensures { (v : AnyValue) → WasTold self.old (events_of v) →
            (result ≡ table_of v) × WasTold self.new [] }
    {
        match self.table {
            Table::Yes => {
                self.table = Table::Unknown;
                self.tables.take()
            }
            Table::No => {
                self.table = Table::Unknown;
                None
            }
            Table::Unknown => None,
            Table::Noted => None,
        }
    }

    /// Whether the value of the top level that ends is seen at once to be no local symbol table:
    /// then what is told next is another value, else nothing is done.
    #[inline(always)]
    pub fn ends_plain(&mut self) -> bool
        ensures plain { result ≡ true → (v : AnyValue) → WasTold self.old (events_of v) →
            (None ≡ table_of v) × WasTold self.new [] }
        ensures none { result ≡ false → self.new ≡ self.old }
    {
        match self.table {
            Table::No => {
                self.table = Table::Unknown;
                true
            }
            Table::Unknown | Table::Noted | Table::Yes => false,
        }
    }

    /// The name of this text of the field whose value follows.
    #[inline(always)]
    pub fn text_name<V: Visitor>(&mut self, text: &str, visitor: &mut V) -> bool
        ensures { result ≡ true →
            Tells V.takes (name (Some text.now)) self.old self.new visitor.old visitor.new }
    {
        if self.is_table(false) {
            return self.enter_table() && self.tables.name(Some(text));
        }
        self.let_pass(visitor) && visitor.name(Some(text))
    }

    /// An annotation of this text, which names no tables, of the value that follows.
    #[inline(always)]
    pub fn text_annotation<V: Visitor>(&mut self, text: &str, visitor: &mut V) -> bool
        requires { names_table (Some text.now) ≡ false }
        ensures { result ≡ true →
            Tells V.takes (annotation (Some text.now)) self.old self.new visitor.old visitor.new }
    {
        match self.table {
            Table::No => self.pass_text(text, visitor),
            Table::Unknown => self.pass_text(text, visitor),
            Table::Noted => self.keep_text(text, visitor),
            Table::Yes => self.tables.annotation(Some(text)),
        }
    }

    // An annotation of what is no table.
    #[inline(always)]
    fn pass_text<V: Visitor>(&mut self, text: &str, visitor: &mut V) -> bool
        requires { is_of_table self.old.table true ≡ false }
        ensures { result ≡ true → (es : List Event) → WasTold self.old es →
            LetsPass self.new × Hears V.takes (heard es) (es ++ annotation (Some text.now) ∷ [])
            visitor.old visitor.new }
    {
        self.let_pass(visitor) && visitor.annotation(Some(text))
    }

    // An annotation of what may be a table.
    #[inline(never)]
    fn keep_text<V: Visitor>(&mut self, text: &str, visitor: &mut V) -> bool
        ensures { result ≡ true →
            Tells V.takes (annotation (Some text.now)) self.old self.new visitor.old visitor.new }
    {
        match Symbol::known(self.alloc, text) {
            Err(_) => false,
            Ok(symbol) => {
                let told = self.annotation(&symbol, visitor);
                drop(symbol);
                told
            }
        }
    }

    /// A part, whatever it says, where the visitor heeds nothing of it. Answers `None`, and does
    /// nothing, where it has to be told: the visitor heeds it, or it may be a local symbol table's.
    #[inline(always)]
    pub fn any_part<V: Visitor>(&mut self, visitor: &mut V) -> Option<bool>
        ensures told { result ≡ Some true → (payload : Payload) →
            Tells V.takes (part payload) self.old self.new visitor.old visitor.new }
        ensures self_kept { result ≡ None → self.new ≡ self.old }
        ensures visitor_kept { result ≡ None → visitor.new ≡ visitor.old }
    {
        if self.may_be_table() || !visitor.heeds_nothing() {
            return None;
        }
        let told = visitor.any_part()?;
        self.pass();
        Some(told)
    }

    /// A part of this kind, whatever it says, where the visitor heeds kinds alone. Answers `None`, and
    /// does nothing, where it has to be told.
    #[inline(always)]
    pub fn of_kind<V: Visitor>(&mut self, kind: Kind, visitor: &mut V) -> Option<bool>
        ensures told { result ≡ Some true → (payload : Payload) →
            layer_kind (out-Payload payload) ≡ kind →
            Tells V.takes (part payload) self.old self.new visitor.old visitor.new }
        ensures self_kept { result ≡ None → self.new ≡ self.old }
        ensures visitor_kept { result ≡ None → visitor.new ≡ visitor.old }
    {
        if self.may_be_table() || !visitor.heeds_kinds_alone() {
            return None;
        }
        let told = visitor.of_kind(kind)?;
        self.pass();
        Some(told)
    }

    // What is told is no local symbol table.
    #[inline(always)]
    fn pass(&mut self)
        requires { is_of_table self.old.table true ≡ false }
        ensures { (es : List Event) → WasTold self.old es → LetsPass self.new × (heard es ≡ es) }
    {
        self.table = Table::No;
    }

    /// Whether a part that is told next is of no local symbol table: then it is noted that what is
    /// told is none, and the part has to go on to the visitor.
    #[inline(always)]
    pub fn lets_pass(&mut self) -> bool
        ensures plain { result ≡ true → is_of_table self.old.table true ≡ false }
        ensures kept_back { result ≡ false → is_of_table self.old.table true ≡ true }
        ensures passes { result ≡ true → (es : List Event) → WasTold self.old es →
            LetsPass self.new × (heard es ≡ es) }
        ensures none { result ≡ false → self.new ≡ self.old }
    {
        match self.table {
            Table::Unknown | Table::No => {
                self.table = Table::No;
                true
            }
            Table::Noted | Table::Yes => false,
        }
    }

    /// Whether what is told is seen to be no local symbol table.
    #[inline(always)]
    pub fn is_plain(&self) -> bool
        ensures { result ≡ true → self.now.table ≡ tables.No }
    {
        matches!(self.table, Table::No)
    }

    /// Whether what is told may be a local symbol table.
    #[inline(always)]
    pub fn may_be_table(&self) -> bool
        ensures { result ≡ is_of_table self.now.table true }
    {
        matches!(self.table, Table::Noted | Table::Yes)
    }
}
