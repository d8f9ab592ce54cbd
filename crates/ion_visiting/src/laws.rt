//! Laws of events and of visitors. Each stands on an empty function: its contract is the law.
ghost use Rattle.std.specs.Prelude.{◌≡◌, ◌-◌, ◌^◌, ◌++◌, List, length, min, true, Some};
ghost use Rattle.ion_visiting.specs.Names.{AreKept, Built, Count, Event, IsKept, Led, Outlining, Tape, Twin, Value, builds, counts, events_of, fresh, no_values, outline_of, same, stream_events};
ghost use Rattle.ion_visiting.specs.Following.{IsFound};
ghost use Rattle.ion_visiting.specs.KeptEvents.{AreKeptEvents};
ghost use Rattle.ion_visiting.specs.Outlining.{no_outline, outline_in, outlines};
ghost use Rattle.ion_visiting.specs.Tapes.{Holds, IsBlank, events_in, tapes};
ghost use Rattle.ion_visiting.specs.Twins.{IsApart, IsBegun, TellsSecond, WasTold};
ghost use Rattle.ion_visiting.specs.declared.building.Open.TheVariants as places;

use crate::visitor::Visitor;

/// Events are those of one value, whatever follows them, and tell where it ends.
pub fn events_one()
    ensures { (v w : Value) (es fs : List Event) → events_of v ++ es ≡ events_of w ++ fs
        → (v ≡ w) × (es ≡ fs) }
{}

/// Events one behind the other lead a visitor from where to where each part of them does.
pub fn events_join<V: Visitor>()
    ensures joins { (es fs : List Event) (a m b : V) → Led V.takes es a m → Led V.takes fs m b
        → Led V.takes (es ++ fs) a b }
    ensures splits { (es fs : List Event) (a b : V) → Led V.takes (es ++ fs) a b
        → (m : V) × Led V.takes es a m × Led V.takes fs m b }
{}

/// Values are such as the types keep where all that is told of them is.
pub fn events_kept()
    ensures value { (v : Value) → AreKeptEvents (events_of v) → IsKept v }
    ensures values { (s : List Value) → AreKeptEvents (stream_events s) → AreKept s }
{}

/// A visitor that builds, told the events of a value from nothing, has built that value, and is as
/// new once it is taken.
pub fn built()
    ensures { (v : Value) (b : Built) → Led builds (events_of v) fresh b
        → b ≡ record fresh { place = places.Top (Some v) } }
{}

/// A visitor that counts is as before behind the events inside of a value, and has counted the
/// values of the top level that it was told ended.
pub fn counted()
    ensures value { (v : Value) (a b : Count) → Led counts (events_of v) a b → b ≡ a }
    ensures values { (vs : List Value) (b : Count) → Led counts (stream_events vs) no_values b
        → b.values ≡ min (length vs) (2 ^ 64 - 1) }
{}

/// A visitor that outlines, told the events of a value from nothing, holds the value's outline.
pub fn outlined()
    ensures { (v : Value) (o : Outlining) → Led outlines (events_of v) no_outline o
        → outline_in o ≡ outline_of v }
{}

/// A tape that was told the events of a value, from nothing, holds that value, and tells those
/// events.
pub fn value_wrote()
    ensures holds { (v : Value) (a t : Tape) → IsBlank a → Led tapes (events_of v) a t
        → Holds t v }
    ensures tells { (v : Value) (t : Tape) → Holds t v → events_in t ≡ events_of v }
{}

/// Where a second value is told beside the first from nothing on, the first stays, and so much was
/// told; once they part, the second's own tape holds it.
pub fn second_told()
    ensures told { (v : Value) (a b : Twin) → IsBegun a → Led TellsSecond (events_of v) a b
        → (b.first ≡ a.first) × WasTold b (events_of v) }
    ensures holds { (v : Value) (a b : Twin) → WasTold a (events_of v) → IsApart a b
        → Holds b.second v }
{}

/// Where a tape holds a value, and the events of another were found there from its front on, the two
/// are equivalent.
pub fn value_followed()
    ensures { (t : Tape) (v w : Value) → Holds t v → IsFound t (events_of w) → same v w ≡ true }
{}
