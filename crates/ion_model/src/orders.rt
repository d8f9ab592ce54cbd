//! Orders and hashes of symbols and values as std's traits have them, so that sorts and maps take
//! them. `==` compares part by part, fields as they stand; whether two values are equivalent
//! `equivalent` says. What values themselves feed a hasher stands in `hashed.rt`.
ghost use Rattle.std.specs.Prelude.{refl};
ghost use Rattle.std.specs.Cmp.{eq_by_cmp_equiv, on_equiv, partial_equiv_from_equiv, partial_order_from_own_ties, partial_order_from_total};
ghost use Rattle.std.specs.Cmp.Rules.{comparing, hashing};
ghost use Rattle.std.specs.Ordering.{as_partial_cmp, eq_by_cmp, on};
ghost use Rattle.std.proofs.Common.{rules};
ghost use Rattle.ion_model.specs.Names.{field_cmp, layer_cmp, order, out-Payload, symbol_cmp, symbol_same};
ghost use Rattle.ion_model.specs.Hashed.{symbol_fed};
ghost use Rattle.ion_model.specs.laws.Equivalence.{symbol_same-equiv};
ghost use Rattle.ion_model.specs.laws.OrderTotal.{field_cmp-total, layer_cmp-total, order-total, symbol_cmp-total, symbol_ties};

use crate::compare::{order, order_field, order_payload};
use crate::symbol::Symbol;
use crate::value::{Field, Payload, Value};
use std::cmp::Ordering;
use std::hash::{Hash, Hasher};

impl PartialEq for Symbol {
    ghost eq = { symbol_same };

    ghost laws = { partial_equiv_from_equiv symbol_same-equiv };

    fn eq(&self, other: &Symbol) -> bool {
        self.same(other)
    }
}

impl Eq for Symbol {
    ghost laws = { symbol_same-equiv };
}

impl PartialOrd for Symbol {
    ghost partial_cmp = { as_partial_cmp symbol_cmp };

    ghost laws = { partial_order_from_own_ties (Prim.search (comparing, rules)) symbol_ties };

    fn partial_cmp(&self, other: &Symbol) -> Option<Ordering> {
        Some(self.order(other))
    }
}

impl Ord for Symbol {
    ghost cmp = { symbol_cmp };

    ghost total = { symbol_cmp-total };

    ghost matches_partial_cmp = { Prim.search (comparing, rules) };

    ghost matches_eq = { symbol_ties };

    fn cmp(&self, other: &Symbol) -> Ordering {
        self.order(other)
    }
}

impl Hash for Symbol {
    ghost hash_input = { symbol_fed };

    ghost respects_eq = { Prim.search (hashing, rules) };

    fn hash<H: Hasher>(&self, state: &mut H) {
        match self.text() {
            Some(text) => {
                state.write_isize(1);
                text.hash(state);
            }
            None => state.write_isize(0),
        }
    }
}

/// `==` is stricter than equivalence: fields have to stand in one order. `equivalent` answers by
/// the data model, and two values that `normalise` gave are equal just where they are equivalent.
impl PartialEq for Value {
    ghost eq = { eq_by_cmp order };

    ghost laws = { partial_equiv_from_equiv (eq_by_cmp_equiv order-total) };

    fn eq(&self, other: &Value) -> bool {
        order(self, other).is_eq()
    }
}

impl Eq for Value {
    ghost laws = { eq_by_cmp_equiv order-total };
}

/// `<` orders values as they stand, fields included: `normalise` them first where they are to be
/// sorted by the data model.
impl PartialOrd for Value {
    ghost partial_cmp = { as_partial_cmp order };

    ghost laws = { partial_order_from_total order-total };

    fn partial_cmp(&self, other: &Value) -> Option<Ordering> {
        Some(order(self, other))
    }
}

impl Ord for Value {
    ghost cmp = { order };

    ghost total = { order-total };

    ghost matches_partial_cmp = { λ a b. refl };

    ghost matches_eq = { λ a b. refl };

    fn cmp(&self, other: &Value) -> Ordering {
        order(self, other)
    }
}

/// As `==` of values: of one kind, both null or neither, and part by part.
impl PartialEq for Payload {
    ghost eq = { on out-Payload (eq_by_cmp (layer_cmp order)) };

    ghost laws = { partial_equiv_from_equiv
        (on_equiv out-Payload (eq_by_cmp_equiv (layer_cmp-total order order-total))) };

    fn eq(&self, other: &Payload) -> bool {
        order_payload(self, other).is_eq()
    }
}

impl Eq for Payload {
    ghost laws = { on_equiv out-Payload (eq_by_cmp_equiv (layer_cmp-total order order-total)) };
}

/// The same name, and values that are `==`.
impl PartialEq for Field {
    ghost eq = { eq_by_cmp (field_cmp order) };

    ghost laws = { partial_equiv_from_equiv (eq_by_cmp_equiv (field_cmp-total order order-total)) };

    fn eq(&self, other: &Field) -> bool {
        order_field(self, other).is_eq()
    }
}

impl Eq for Field {
    ghost laws = { eq_by_cmp_equiv (field_cmp-total order order-total) };
}
