//! Laws of layouts. Each stands on an empty function: its contract is the law.
ghost use Rattle.std.specs.Prelude.{◌≡◌, ◌<◌, ◌^◌, ◌∷◌, ◌++◌, [], ℕ, List, length};
ghost use Rattle.ion_events.specs.Names.{AreKept, Draft, Event, Lays, LaysStream, Led, Value, events_of};
ghost use Rattle.ion_events.specs.Drafts.{IsEmpty, joined};
ghost use Rattle.ion_events.specs.Drawing.{Drawn, HandedOver, draws};
ghost use Rattle.ion_events.specs.Laying.{HandsOver, IsNew, LaidDown, lays_down};
ghost use Rattle.ion_events.specs.declared.laid.Laid.{Laid};
ghost use Rattle.ion_events.specs.declared.laying.Laying.{Laying};
ghost use Rattle.ion_events.specs.laws.Worked.{worked_layout, worked_stream};

use std::hash::BuildHasher;

/// A layout has one list of events.
pub fn lays_one_list()
    ensures { (es fs : List Event) (o : List ℕ) → Lays es o → Lays fs o → es ≡ fs }
{}

/// A layout has one stream of values, and these are such as the types keep.
pub fn lays_one_stream()
    ensures one { (s t : List Value) (o : List ℕ) → LaysStream s o → LaysStream t o → s ≡ t }
    ensures kept { (s : List Value) (o : List ℕ) → LaysStream s o → AreKept s }
{}

/// The worked document of docs/EVENTS.md lies in these octets.
pub fn worked_layout()
    ensures { LaysStream worked_stream worked_layout }
{}

/// What a draft was told of a value, behind these texts, lies in each layout that has its entries
/// and its texts, from where it stood to where it stands.
pub fn drafted()
    ensures { (before : List ℕ) (v : Value) (a b : Draft) → length before ≡ a.texts_before
        → Led (draws before) (events_of v) a b → Drawn before (events_of v) a b 1 }
{}

/// Values that were told to a draft and handed over, one by one and from nothing, are the layout of
/// their stream once it is joined.
pub fn handed_over()
    ensures { (s : List Value) (laid : Laid) (a : Draft) → length laid.entries.items < 2 ^ 64
        → HandedOver s laid a → LaysStream s (joined laid) }
{}

/// What a visitor was told of values that were handed over one by one and from nothing is the
/// layout of their stream once it is joined, and no symbol that it finds again lies elsewhere.
pub fn laid_down<S: BuildHasher>()
    ensures none { (laid : Laid) (a : Laying S S.Hasher) → IsEmpty laid → IsNew a → LaidDown [] laid a }
    ensures one_more { (s : List Value) (v : Value) (laid more : Laid) (a b c : Laying S S.Hasher) →
        LaidDown s laid a → Led lays_down (events_of v) a b → HandsOver b laid c more →
        LaidDown (s ++ v ∷ []) more c }
    ensures stream { (s : List Value) (laid : Laid) (a : Laying S S.Hasher) →
        length laid.entries.items < 2 ^ 64 → LaidDown s laid a → LaysStream s (joined laid) }
{}
