//! Where two values part.
ghost use Rattle.std.specs.Prelude.{◌≡◌, [], true, false, Ok, None, option_map, OnOk, IfErr, MatchResult, MatchOption};
ghost use Rattle.std.specs.declared.cmp.Ordering.TheVariants.{Equal};
ghost use Rattle.std.specs.Cmp.{partial_equiv_from_equiv};
ghost use Rattle.ion_model.specs.Paths.{part_same, path_same};
ghost use Rattle.ion_model.specs.laws.PathsSame.{part_same-equiv, path_same-equiv};
ghost use lib.Pointwise.{pointwise};
ghost use Rattle.ion_atoms.specs.declared.refusal.Reason.TheVariants as reasons;
ghost use Rattle.ion_model.specs.Order.{order};
ghost use Rattle.ion_model.specs.Same.{same, fields_same};
ghost use Rattle.ion_model.specs.Parting.{IsPath, IsParting, LeastParting, once_named};
ghost use Rattle.ion_model.specs.laws.PartingSteps.{Extends, ItemsPath, FieldsPath, AgreeTo, first_untied};

use crate::compare::order_field;
use crate::equivalence::{equivalent, sorted};
use crate::same::same_symbols;
use crate::sequence::Sequence;
use crate::symbol::Symbol;
use crate::value::{Field, Payload, Value};
use ion_atoms::Reason;
use std::alloc::Global;
use std::cmp::Ordering;
use std::marker::Model;

/// A step from a value to one inside it.
#[derive(Debug, Drop)]
pub enum Part {
    /// The item of this number in a list or s-expression; the first has number 1.
    Item(u64),
    /// The values of this name in a struct.
    Name(Symbol),
}

/// The way from two values down to where they part. Contracts see it as the list of its parts.
#[derive(Debug, Drop)]
pub struct Path {
    parts: Vec<Part>,
}

impl Model for Path {
    ghost use Rattle.std.specs.Prelude.{List};
    ghost use Rattle.ion_model.specs.declared.path.Part.{Part};

    ghost Value = { List Part };

    ghost view = { λ p. p.parts.items };
}

impl Path {
    /// The path of no parts. Takes no memory.
    pub fn empty(alloc: Global) -> Path
        ensures { result ≡ [] }
    {
        Path {
            parts: Vec::new(alloc),
        }
    }

    /// The parts, the outermost first. Takes no memory.
    pub fn parts(&self) -> &[Part]
        ensures { result.now ≡ self.now }
    {
        self.parts.as_slice()
    }
}

impl PartialEq for Part {
    ghost eq = { part_same };

    ghost laws = { partial_equiv_from_equiv part_same-equiv };

    fn eq(&self, other: &Part) -> bool {
        match (self, other) {
            (Part::Item(number), Part::Item(other)) => number == other,
            (Part::Name(name), Part::Name(other)) => name.same(other),
            _ => false,
        }
    }
}

impl Eq for Part {
    ghost laws = { part_same-equiv };
}

impl PartialEq for Path {
    ghost eq = { path_same };

    ghost laws = { partial_equiv_from_equiv path_same-equiv };

    fn eq(&self, other: &Path) -> bool {
        self.parts() == other.parts()
    }
}

impl Eq for Path {
    ghost laws = { path_same-equiv };
}

/// The path to where two values part, `None` where they are equivalent (`same_slow`). It leads down
/// to two values that differ in annotations, kind, nullness or scalar; or by `Part::Item` to the
/// first item that one of two lists or s-expressions lacks; or by `Part::Name` to the least name,
/// in the order of symbols, with which some value stands in different numbers in two structs (Ion
/// 1.0, "The Ion Data Model": a struct is unordered, and a name may repeat). It goes on behind a
/// name only if the name stands once in both. The only refusal is `Memory`. Values that agree part
/// by part, fields as they stand, take no memory. Each step down costs what `equivalent` does.
/// Calls itself once for each level.
pub fn parting(alloc: Global, a: &Value, b: &Value) -> Result<Option<Path>, Reason>
    ensures path { MatchResult result (λ path. IsParting path a.now b.now)
        (λ e. e ≡ reasons.Memory) }
    ensures free { order a.now b.now ≡ Equal → result ≡ Ok None }
{
    if equivalent(alloc, a, b)? {
        return Ok(None);
    }
    let mut parts = Vec::new(alloc);
    part_values(alloc, a, b, &mut parts)?;
    Ok(Some(Path { parts }))
}

// Puts the path of two values behind the parts.
#[cycle(part)]
fn part_values(alloc: Global, a: &Value, b: &Value, parts: &mut Vec<Part>) -> Result<(), Reason>
    requires { same a.now b.now ≡ false }
    ensures path { OnOk result (Extends (λ p. IsPath p a.now b.now) parts.old.items
        parts.new.items) }
    ensures memory { IfErr result (λ e. e ≡ reasons.Memory) }
{
    if !same_symbols(a.annotations.as_slice(), b.annotations.as_slice()) {
        return Ok(());
    }
    match (&a.payload, &b.payload) {
        (Payload::List(vs), Payload::List(ws)) => {
            part_items(alloc, vs.as_slice(), ws.as_slice(), parts)
        }
        (Payload::Sexp(vs), Payload::Sexp(ws)) => {
            part_items(alloc, vs.as_slice(), ws.as_slice(), parts)
        }
        (Payload::Fields(fs), Payload::Fields(gs)) => part_fields(alloc, fs, gs, parts),
        _ => Ok(()),
    }
}

#[cycle(part)]
fn part_items(
    alloc: Global,
    vs: &[Value],
    ws: &[Value],
    parts: &mut Vec<Part>,
) -> Result<(), Reason>
    requires { pointwise same vs.now ws.now ≡ false }
    ensures path { OnOk result (Extends (ItemsPath vs.now ws.now) parts.old.items parts.new.items) }
    ensures memory { IfErr result (λ e. e ≡ reasons.Memory) }
{
    let before = agreeing(alloc, vs, ws)?;
    parts.push(Part::Item(before as u64 + 1))?;
    if before < vs.len() && before < ws.len() {
        return part_values(alloc, &vs[before], &ws[before], parts);
    }
    Ok(())
}

// How many items agree before the first two that don't, or before one list ends.
fn agreeing(alloc: Global, vs: &[Value], ws: &[Value]) -> Result<usize, Reason>
    ensures { MatchResult result (λ k. AgreeTo vs.now ws.now k) (λ e. e ≡ reasons.Memory) }
{
    for (i, item) in vs.iter().enumerate() {
        if i == ws.len() || !equivalent(alloc, item, &ws[i])? {
            return Ok(i);
        }
    }
    Ok(vs.len())
}

#[cycle(part)]
fn part_fields(
    alloc: Global,
    fs: &Sequence<Field>,
    gs: &Sequence<Field>,
    parts: &mut Vec<Part>,
) -> Result<(), Reason>
    requires { fields_same same fs.now gs.now ≡ false }
    ensures path { OnOk result (Extends (FieldsPath fs.now gs.now) parts.old.items
        parts.new.items) }
    ensures memory { IfErr result (λ e. e ≡ reasons.Memory) }
{
    let name = match least_name(alloc, fs, gs)? {
        None => return Ok(()),
        Some(name) => name,
    };
    let left = once_named(fs.as_slice(), &name);
    let right = once_named(gs.as_slice(), &name);
    parts.push(Part::Name(name))?;
    match (left, right) {
        (Some(f), Some(g)) => part_values(alloc, &f.value, &g.value, parts),
        _ => Ok(()),
    }
}

// The least name with which some value stands in different numbers.
fn least_name(
    alloc: Global,
    fs: &Sequence<Field>,
    gs: &Sequence<Field>,
) -> Result<Option<Symbol>, Reason>
    ensures { MatchResult result
        (λ name. MatchOption name (fields_same same fs.now gs.now ≡ true)
        (λ s. LeastParting fs.now gs.now s))
        (λ e. e ≡ reasons.Memory) }
{
    let left = sorted(alloc, fs)?;
    let right = sorted(alloc, gs)?;
    match first_untied(&left, &right) {
        None => Ok(None),
        Some(name) => Ok(Some(name.copy()?)),
    }
}

// The lesser name at the first place where two lists of fields don't tie.
fn first_untied<'a>(fs: &'a [Field], gs: &'a [Field]) -> Option<&'a Symbol>
    ensures { option_map (λ s. s.now) result ≡ first_untied fs.now gs.now }
{
    for (i, field) in fs.iter().enumerate() {
        if i == gs.len() {
            return Some(&field.name);
        }
        match order_field(field, &gs[i]) {
            Ordering::Less => return Some(&field.name),
            Ordering::Equal => {}
            Ordering::Greater => return Some(&gs[i].name),
        }
    }
    if fs.len() < gs.len() {
        return Some(&gs[fs.len()].name);
    }
    None
}

// The field of the name, if the name stands once.
fn once_named<'a>(fields: &'a [Field], name: &Symbol) -> Option<&'a Field>
    ensures { option_map (λ f. f.now) result ≡ once_named name.now fields.now }
{
    let mut found = None;
    for field in fields {
        if name.same(&field.name) {
            if found.is_some() {
                return None;
            }
            found = Some(field);
        }
    }
    found
}
