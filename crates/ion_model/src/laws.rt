//! Laws of equivalence, of the order and of normal forms. Each stands on an empty function: its
//! contract is the law.
ghost use Rattle.std.specs.Prelude.{◌≡◌, ◌+◌, ◌↔◌, ◌&&◌, ℕ, List, Option, length, false, IsTrue, IsPermutation};
ghost use Rattle.std.specs.Cmp.{IsTotalOrder};
ghost use Rattle.std.specs.declared.cmp.Ordering.TheVariants.{Equal};
ghost use lib.Pointwise.{pointwise};
ghost use Rattle.ion_model.specs.Names.{EndsApart, Field, IsNormal, IsPath, IsTimestamp, LayerNormal, Part, TimestampParts, Value, annotated, depth, field_same, instant, layer_depth, layer_nodes, nodes, order, out-Payload, same, symbol_same, timestamp_same, value_cmp, value_same};
ghost use Rattle.ion_model.specs.ByKind.{payload_same};
ghost use Rattle.ion_model.specs.declared.value.Payload.TheVariants as payloads;

/// Two values are equivalent where one level of them says so, with equivalence itself as the test
/// of the values inside.
pub fn level_by_level()
    ensures { (v w : Value) → same v w ≡ value_same same v w }
{}

/// Two values are equivalent where their annotations agree one by one and their payloads do by
/// their kinds: nulls of one kind, scalars in every part, lists and s-expressions place by place,
/// and structs of whose fields each stands as often in the one as in the other.
pub fn equivalent_by_kind()
    ensures { (v w : Value) → same v w
        ≡ (pointwise symbol_same v.annotations w.annotations
        && payload_same same (out-Payload v.payload) (out-Payload w.payload)) }
{}

/// Equivalence is reflexive, symmetric and transitive.
pub fn equivalence()
    ensures reflexive { (v : Value) → IsTrue (same v v) }
    ensures symmetric { (v w : Value) → IsTrue (same v w) → IsTrue (same w v) }
    ensures transitive { (u v w : Value) → IsTrue (same u v) → IsTrue (same v w)
        → IsTrue (same u w) }
{}

/// Timestamps are the same just where precision, offset and instant agree (Ion 1.0, "The Ion Data
/// Model", timestamps).
pub fn timestamps_by_instant()
    ensures { (s t : TimestampParts) → IsTimestamp s → IsTimestamp t → IsTrue (timestamp_same s t)
        ↔ ((s.precision ≡ t.precision) × (s.offset ≡ t.offset) × (instant s ≡ instant t)) }
{}

/// Replacing parts by equivalent ones gives an equivalent value.
pub fn replacing()
    ensures list { (a : List (Option (List ℕ))) (vs ws : List Value) → IsTrue (pointwise same vs ws)
        → IsTrue (same (annotated a (payloads.List vs)) (annotated a (payloads.List ws))) }
    ensures sexp { (a : List (Option (List ℕ))) (vs ws : List Value) → IsTrue (pointwise same vs ws)
        → IsTrue (same (annotated a (payloads.Sexp vs)) (annotated a (payloads.Sexp ws))) }
    ensures fields { (a : List (Option (List ℕ))) (fs gs : List Field)
        → IsTrue (pointwise (field_same same) fs gs)
        → IsTrue (same (annotated a (payloads.Fields fs)) (annotated a (payloads.Fields gs))) }
{}

/// Putting the fields of a struct into another order gives an equivalent value; by `replacing` so
/// does doing that deeper inside.
pub fn reordering()
    ensures { (a : List (Option (List ℕ))) (fs gs : List Field) → IsPermutation fs gs
        → IsTrue (same (annotated a (payloads.Fields fs)) (annotated a (payloads.Fields gs))) }
{}

/// The order of two values is what one level of them says, with the order itself for the values
/// inside.
pub fn order_by_level()
    ensures { (v w : Value) → order v w ≡ value_cmp order v w }
{}

/// The order is total, and ties each value with itself alone.
pub fn total_order()
    ensures total { IsTotalOrder order }
    ensures apart { (v w : Value) → (order v w ≡ Equal) ↔ (v ≡ w) }
{}

/// How deep a value goes, and of how many nodes it is, by what one level of it says of the values
/// inside.
pub fn measures_by_level()
    ensures depth { (v : Value) → depth v ≡ layer_depth (out-Payload v.payload) }
    ensures nodes { (v : Value) →
        nodes v ≡ length v.annotations + layer_nodes (out-Payload v.payload) }
{}

/// A value is a normal form where the values inside are, and its fields stand in order.
pub fn normal_by_level()
    ensures { (v : Value) → IsNormal v ↔ LayerNormal (out-Payload v.payload) }
{}

/// Each value has a normal form. Two normal forms are equivalent just where the order ties them,
/// and then they are equal: to take the normal form of a normal form changes nothing.
pub fn normal_forms()
    ensures some { (v : Value) → (w : Value) × IsNormal w × IsTrue (same w v) }
    ensures ties { (v w : Value) → IsNormal v → IsNormal w → IsTrue (same v w)
        ↔ (order v w ≡ Equal) }
    ensures one { (v w : Value) → IsNormal v → IsNormal w → IsTrue (same v w) → v ≡ w }
{}

/// Two values have a path just where they aren't equivalent, and one alone. What stands at its end
/// truly differs: two values that aren't equivalent, an item that one side lacks, or the values of
/// one name, of which one stands in different numbers.
pub fn paths()
    ensures some { (v w : Value) → same v w ≡ false → (path : List Part) × IsPath path v w }
    ensures differ { (path : List Part) (v w : Value) → IsPath path v w → same v w ≡ false }
    ensures end { (path : List Part) (v w : Value) → IsPath path v w → EndsApart path v w }
    ensures one { (path other : List Part) (v w : Value) → IsPath path v w → IsPath other v w
        → path ≡ other }
{}
