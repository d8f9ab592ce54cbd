//! The visitor that takes the outline of a value.
ghost use Rattle.std.specs.Prelude.{◌≡◌, ◌-◌, ◌^◌, ◌<◌, None, Some, option_map, true};
ghost use Rattle.ion_model.specs.declared.value.Payload.TheVariants as payloads;
ghost use Rattle.ion_visiting.specs.Names.{Payload, annotation, closes, layer_kind, name, number_payload, opens, out-Payload, part, payload_of};
ghost use Rattle.ion_visiting.specs.Outlining.{bracket_kind, kind_at, more_nodes, no_outline, outline_in};

use crate::bracket::Bracket;
use crate::part::Part;
use crate::visitor::Visitor;
use ion_model::{Kind, Outline, Symbol};
use ion_scalar::Number;

/// The visitor that takes the outline of a value: its kind, its depth and its number of nodes. It
/// takes no memory.
#[derive(Drop)]
pub struct Outlining {
    kind: Kind,
    /// How many containers are open.
    level: u64,
    /// How many were open at once at most.
    depth: u64,
    nodes: u64,
}

impl Outlining {
    /// Of no value yet.
    pub fn new() -> Outlining
        ensures { result ≡ no_outline }
    {
        Outlining {
            kind: Kind::Null,
            level: 0,
            depth: 0,
            nodes: 0,
        }
    }

    /// The outline of the value that was told, and it is of no value again.
    pub fn take(&mut self) -> Outline
        ensures outline { result ≡ outline_in self.old }
        ensures anew { self.new ≡ no_outline }
    {
        let outline = Outline {
            kind: self.kind,
            depth: self.depth,
            nodes: self.nodes,
        };
        *self = Outlining::new();
        outline
    }

    // One node more.
    #[inline(always)]
    fn count(&mut self)
        ensures { self.new ≡ record self.old { nodes = more_nodes self.old 1 } }
    {
        self.nodes = self.nodes.saturating_add(1);
    }

    // One node more, which is a value of this kind.
    #[inline(always)]
    fn count_value(&mut self, kind: Kind)
        ensures { self.new
            ≡ record self.old { kind = kind_at self.old kind; nodes = more_nodes self.old 1 } }
    {
        if self.level == 0 {
            self.kind = kind;
        }
        self.count();
    }
}

fn part_kind(said: &Part<'_>) -> Kind
    ensures { result ≡ layer_kind (out-Payload (payload_of said.now)) }
{
    match said {
        Part::Null(kind) => *kind,
        Part::Truth(_) => Kind::Bool,
        Part::Symbol(_) => Kind::Symbol,
        Part::Str(_) => Kind::Str,
        Part::Clob(_) => Kind::Clob,
        Part::Blob(_) => Kind::Blob,
    }
}

fn number_kind(number: Number) -> Kind
    ensures { result ≡ layer_kind (out-Payload (number_payload number)) }
{
    match number {
        Number::Int(_) => Kind::Int,
        Number::Decimal(_) => Kind::Decimal,
        Number::Timestamp(_) => Kind::Timestamp,
    }
}

fn bracket_kind(bracket: Bracket) -> Kind
    ensures { result ≡ bracket_kind bracket }
{
    match bracket {
        Bracket::List => Kind::List,
        Bracket::Sexp => Kind::Sexp,
        Bracket::Fields => Kind::Fields,
    }
}

impl Visitor for Outlining {
    ghost use Rattle.ion_visiting.specs.Outlining.{outlined, outlines};

    ghost takes = { outlines };

    // Inside of brackets a part is a node more, and no more than that.
    #[inline(always)]
    fn heeds_nothing(&self) -> bool {
        self.level > 0
    }

    #[inline(always)]
    fn heeds_kinds_alone(&self) -> bool {
        true
    }

    #[inline(always)]
    fn any_part(&mut self) -> Option<bool>
        ensures goes { 0 < self.old.level → result ≡ Some true }
        ensures told { result ≡ Some true →
            (payload : Payload) → self.new ≡ outlined self.old (part payload) }
        ensures none { result ≡ None → self.new ≡ self.old }
    {
        if self.level == 0 {
            return None;
        }
        self.count();
        Some(true)
    }

    #[inline(always)]
    fn of_kind(&mut self, _kind: Kind) -> Option<bool>
        ensures goes { result ≡ Some true }
        ensures outlined { (payload : Payload) → layer_kind (out-Payload payload) ≡ _kind →
            self.new ≡ outlined self.old (part payload) }
    {
        self.count_value(_kind);
        Some(true)
    }

    #[inline(always)]
    fn part(&mut self, said: &Part<'_>) -> bool
        ensures goes { result ≡ true }
        ensures outlined { self.new ≡ outlined self.old (part (payload_of said.now)) }
    {
        self.count_value(part_kind(said));
        true
    }

    #[inline(always)]
    fn number(&mut self, number: Number) -> bool
        ensures goes { result ≡ true }
        ensures outlined { self.new ≡ outlined self.old (part (number_payload number)) }
    {
        self.count_value(number_kind(number));
        true
    }

    #[inline(always)]
    fn unknown_symbol(&mut self) -> bool
        ensures goes { result ≡ true }
        ensures outlined { self.new ≡ outlined self.old (part (payloads.Symbol None)) }
    {
        self.count_value(Kind::Symbol);
        true
    }

    #[inline(always)]
    fn annotation(&mut self, text: Option<&str>) -> bool
        ensures goes { result ≡ true }
        ensures outlined { self.new
            ≡ outlined self.old (annotation (option_map (λ t. t.now) text.entry)) }
    {
        self.count();
        true
    }

    #[inline(always)]
    fn name(&mut self, text: Option<&str>) -> bool
        ensures goes { result ≡ true }
        ensures outlined { self.new
            ≡ outlined self.old (name (option_map (λ t. t.now) text.entry)) }
    {
        self.count();
        true
    }

    #[inline(always)]
    fn symbol(&mut self, _symbol: &Symbol) -> bool
        ensures goes { result ≡ true }
        ensures outlined { self.new ≡ outlined self.old (part (payloads.Symbol _symbol.now)) }
    {
        self.count_value(Kind::Symbol);
        true
    }

    #[inline(always)]
    fn symbol_annotation(&mut self, _symbol: &Symbol) -> bool
        ensures goes { result ≡ true }
        ensures outlined { self.new ≡ outlined self.old (annotation _symbol.now) }
    {
        self.count();
        true
    }

    #[inline(always)]
    fn symbol_name(&mut self, _symbol: &Symbol) -> bool
        ensures goes { result ≡ true }
        ensures outlined { self.new ≡ outlined self.old (name _symbol.now) }
    {
        self.count();
        true
    }

    #[inline(always)]
    fn open(&mut self, bracket: Bracket) -> bool
        ensures goes { self.old.level < 2 ^ 64 - 1 → result ≡ true }
        ensures outlined { result ≡ true → self.new ≡ outlined self.old (opens bracket) }
    {
        if self.level == u64::MAX {
            return false;
        }
        self.count_value(bracket_kind(bracket));
        self.level += 1;
        self.depth = self.depth.max(self.level);
        true
    }

    #[inline(always)]
    fn close(&mut self, bracket: Bracket) -> bool
        ensures goes { 0 < self.old.level → result ≡ true }
        ensures outlined { result ≡ true → self.new ≡ outlined self.old (closes bracket) }
    {
        if self.level == 0 {
            return false;
        }
        self.level -= 1;
        true
    }

    #[inline(always)]
    fn ended(&mut self) -> bool
        ensures goes { result ≡ true }
        ensures outlined { self.new ≡ self.old }
    {
        true
    }
}
