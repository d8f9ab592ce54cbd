//! The visitor that counts values.
ghost use Rattle.std.specs.Prelude.{◌≡◌, Some, true};
ghost use Rattle.ion_visiting.specs.Names.{ended, no_values};

use crate::bracket::Bracket;
use crate::part::Part;
use crate::visitor::Visitor;
use ion_model::{Kind, Symbol};
use ion_scalar::Number;

/// How many values of the top level ended; nothing is made of them, and no memory is taken.
#[derive(Drop)]
pub struct Count {
    values: u64,
}

impl Count {
    /// None yet.
    pub fn new() -> Count
        ensures { result ≡ no_values }
    {
        Count { values: 0 }
    }

    /// How many values ended; stops at 2^64-1.
    pub fn values(&self) -> u64
        ensures { result ≡ self.now.values }
    {
        self.values
    }
}

impl Visitor for Count {
    ghost use Rattle.ion_visiting.specs.Count.{counted, counts};

    ghost takes = { counts };

    #[inline(always)]
    fn heeds_nothing(&self) -> bool {
        true
    }

    #[inline(always)]
    fn heeds_kinds_alone(&self) -> bool {
        true
    }

    #[inline(always)]
    fn any_part(&mut self) -> Option<bool>
        ensures goes { result ≡ Some true }
        ensures counted { self.new ≡ self.old }
    {
        Some(true)
    }

    #[inline(always)]
    fn of_kind(&mut self, _kind: Kind) -> Option<bool>
        ensures goes { result ≡ Some true }
        ensures counted { self.new ≡ self.old }
    {
        Some(true)
    }

    #[inline(always)]
    fn part(&mut self, _said: &Part<'_>) -> bool
        ensures goes { result ≡ true }
        ensures counted { self.new ≡ self.old }
    {
        true
    }

    #[inline(always)]
    fn number(&mut self, _number: Number) -> bool
        ensures goes { result ≡ true }
        ensures counted { self.new ≡ self.old }
    {
        true
    }

    #[inline(always)]
    fn unknown_symbol(&mut self) -> bool
        ensures goes { result ≡ true }
        ensures counted { self.new ≡ self.old }
    {
        true
    }

    #[inline(always)]
    fn annotation(&mut self, _text: Option<&str>) -> bool
        ensures goes { result ≡ true }
        ensures counted { self.new ≡ self.old }
    {
        true
    }

    #[inline(always)]
    fn name(&mut self, _text: Option<&str>) -> bool
        ensures goes { result ≡ true }
        ensures counted { self.new ≡ self.old }
    {
        true
    }

    #[inline(always)]
    fn symbol(&mut self, _symbol: &Symbol) -> bool
        ensures goes { result ≡ true }
        ensures counted { self.new ≡ self.old }
    {
        true
    }

    #[inline(always)]
    fn symbol_annotation(&mut self, _symbol: &Symbol) -> bool
        ensures goes { result ≡ true }
        ensures counted { self.new ≡ self.old }
    {
        true
    }

    #[inline(always)]
    fn symbol_name(&mut self, _symbol: &Symbol) -> bool
        ensures goes { result ≡ true }
        ensures counted { self.new ≡ self.old }
    {
        true
    }

    #[inline(always)]
    fn open(&mut self, _bracket: Bracket) -> bool
        ensures goes { result ≡ true }
        ensures counted { self.new ≡ self.old }
    {
        true
    }

    #[inline(always)]
    fn close(&mut self, _bracket: Bracket) -> bool
        ensures goes { result ≡ true }
        ensures counted { self.new ≡ self.old }
    {
        true
    }

    #[inline(always)]
    fn ended(&mut self) -> bool
        ensures goes { result ≡ true }
        ensures counted { self.new ≡ counted self.old ended }
    {
        self.values = self.values.saturating_add(1);
        true
    }
}
