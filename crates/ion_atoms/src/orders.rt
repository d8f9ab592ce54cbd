//! Orders and hashes of ints, decimals, timestamps, texts and octets as std's traits have them, so
//! that sorts and maps take them.
ghost use Rattle.std.specs.Prelude.{refl, nat_eq};
ghost use Rattle.std.specs.Cmp.{int_cmp_total, partial_equiv_from_equiv, partial_order_from_own_ties, partial_order_from_total};
ghost use Rattle.std.specs.Cmp.Lexicographic.{nat_list_cmp_total, slice_cmp, texts_po, texts_ties};
ghost use Rattle.std.specs.Cmp.Rules.{comparing, hashing};
ghost use Rattle.std.specs.Hash as fed;
ghost use Rattle.std.specs.Ordering.{as_partial_cmp, int_cmp, nat_cmp};
ghost use Rattle.std.proofs.Common.{rules};
ghost use Rattle.ion_atoms.specs.Decimals.{decimal_cmp};
ghost use Rattle.ion_atoms.specs.Timestamps.{timestamp_same, timestamp_cmp};
ghost use Rattle.ion_atoms.specs.Hashed.{decimal_fed, timestamp_fed};
ghost use Rattle.ion_atoms.specs.laws.Equivalence.{timestamp_same-equiv};
ghost use Rattle.ion_atoms.specs.laws.OrderTotal.{decimal_cmp-total, timestamp_cmp-total};
ghost use Rattle.ion_atoms.specs.laws.Ties.{timestamp_ties};
ghost use Rattle.ion_atoms.specs.laws.Hashed.{timestamps_alike};

use crate::decimal::Decimal;
use crate::int::Whole;
use crate::text::{Bytes, Text};
use crate::timestamp::Timestamp;
use std::cmp::Ordering;
use std::hash::{Hash, Hasher};

impl PartialOrd for Whole {
    ghost partial_cmp = { as_partial_cmp int_cmp };

    ghost laws = { partial_order_from_own_ties (partial_order_from_total int_cmp_total)
        (Prim.search (comparing, rules)) };

    fn partial_cmp(&self, other: &Whole) -> Option<Ordering> {
        Some(self.cmp(other))
    }
}

impl Ord for Whole {
    ghost cmp = { int_cmp };

    ghost total = { int_cmp_total };

    ghost matches_partial_cmp = { λ y z. refl };

    ghost matches_eq = { λ y z. refl };

    fn cmp(&self, other: &Whole) -> Ordering {
        self.get().cmp(&other.get())
    }
}

impl Hash for Whole {
    ghost hash_input = { fed.i128 };

    ghost respects_eq = { Prim.search (hashing, rules) };

    fn hash<H: Hasher>(&self, state: &mut H) {
        self.get().hash(state);
    }
}

impl PartialOrd for Decimal {
    ghost partial_cmp = { as_partial_cmp decimal_cmp };

    ghost laws = { partial_order_from_own_ties (partial_order_from_total decimal_cmp-total)
        (Prim.search (comparing, rules)) };

    fn partial_cmp(&self, other: &Decimal) -> Option<Ordering> {
        Some(self.order(*other))
    }
}

impl Ord for Decimal {
    ghost cmp = { decimal_cmp };

    ghost total = { decimal_cmp-total };

    ghost matches_partial_cmp = { Prim.search (comparing, rules) };

    ghost matches_eq = { Prim.search (comparing, rules) };

    fn cmp(&self, other: &Decimal) -> Ordering {
        self.order(*other)
    }
}

impl Hash for Decimal {
    ghost hash_input = { decimal_fed };

    ghost respects_eq = { Prim.search (hashing, rules) };

    fn hash<H: Hasher>(&self, state: &mut H) {
        self.negative().hash(state);
        self.magnitude().hash(state);
        self.exponent().hash(state);
    }
}

impl PartialEq for Timestamp {
    ghost eq = { timestamp_same };

    ghost laws = { partial_equiv_from_equiv timestamp_same-equiv };

    fn eq(&self, other: &Timestamp) -> bool {
        self.same(*other)
    }
}

impl Eq for Timestamp {
    ghost laws = { timestamp_same-equiv };
}

// As `Timestamp::order` says: by precision first, and so not by the instant.
impl PartialOrd for Timestamp {
    ghost partial_cmp = { as_partial_cmp timestamp_cmp };

    ghost laws = { partial_order_from_own_ties (partial_order_from_total timestamp_cmp-total)
        timestamp_ties };

    fn partial_cmp(&self, other: &Timestamp) -> Option<Ordering> {
        Some(self.order(*other))
    }
}

impl Ord for Timestamp {
    ghost cmp = { timestamp_cmp };

    ghost total = { timestamp_cmp-total };

    ghost matches_partial_cmp = { Prim.search (comparing, rules) };

    ghost matches_eq = { timestamp_ties };

    fn cmp(&self, other: &Timestamp) -> Ordering {
        self.order(*other)
    }
}

impl Hash for Timestamp {
    ghost hash_input = { timestamp_fed };

    ghost respects_eq = { timestamps_alike };

    fn hash<H: Hasher>(&self, state: &mut H) {
        let local = self.local();
        self.precision().rank().hash(state);
        self.offset().hash(state);
        local.year.hash(state);
        local.month.hash(state);
        local.day.hash(state);
        local.hour.hash(state);
        local.minute.hash(state);
        local.second.hash(state);
        local.fraction.hash(state);
    }
}

impl PartialOrd for Text {
    ghost partial_cmp = { as_partial_cmp (slice_cmp nat_cmp) };

    ghost laws = { texts_po };

    fn partial_cmp(&self, other: &Text) -> Option<Ordering> {
        Some(self.cmp(other))
    }
}

// Octet by octet, a proper prefix first.
impl Ord for Text {
    ghost cmp = { slice_cmp nat_cmp };

    ghost total = { nat_list_cmp_total };

    ghost matches_partial_cmp = { λ s t. refl };

    ghost matches_eq = { texts_ties };

    fn cmp(&self, other: &Text) -> Ordering {
        self.as_str().cmp(other.as_str())
    }
}

impl Hash for Text {
    ghost hash_input = { fed.str };

    ghost respects_eq = { Prim.search (hashing, rules) };

    fn hash<H: Hasher>(&self, state: &mut H) {
        self.as_str().hash(state);
    }
}

impl PartialOrd for Bytes {
    ghost partial_cmp = { as_partial_cmp (slice_cmp nat_cmp) };

    ghost laws = { texts_po };

    fn partial_cmp(&self, other: &Bytes) -> Option<Ordering> {
        Some(self.cmp(other))
    }
}

// Octet by octet, a proper prefix first.
impl Ord for Bytes {
    ghost cmp = { slice_cmp nat_cmp };

    ghost total = { nat_list_cmp_total };

    ghost matches_partial_cmp = { λ s t. refl };

    ghost matches_eq = { texts_ties };

    fn cmp(&self, other: &Bytes) -> Ordering {
        self.as_slice().cmp(other.as_slice())
    }
}

impl Hash for Bytes {
    ghost hash_input = { fed.slice fed.u8 };

    ghost respects_eq = { Prim.search (hashing, rules) };

    fn hash<H: Hasher>(&self, state: &mut H) {
        self.as_slice().hash(state);
    }
}
