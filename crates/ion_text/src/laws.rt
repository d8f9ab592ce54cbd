//! Laws of text documents. Each stands on an empty function: its contract is the law. What they say
//! of reading is said of the definitions of `specs/machine/Run.antt`, which read octet by octet;
//! `TextReader` is proved to answer what they say.
ghost use Rattle.std.specs.Prelude.{◌≡◌, ◌↔◌, ◌<◌, ◌≤◌, ◌++◌, ◌⊎◌, ℕ, Bool, List, [], ◌∷◌, length, Some, None, Err};
ghost use Rattle.ion_text.specs.Names.{AreKept, Document, EndsValues, FitsIn, GivesNoTable, Grows, HasPieces, HasReasons, IsFirst, IsKept, IsSmall, Led, LexesTo, Limits, Means, NoTables, OpenRest, Place, Placed, Refusal, Refuses, Shown, Shows, Slot, Streams, Table, Took, Value, Whole, Writes, WritesEach, Written, events_of, lines, no_text, nodes, plain, span, stream_events, text_of, trace, value_text, with_item};
ghost use Rattle.ion_symtab.specs.laws.ContextTexts.{AreTextTables};
ghost use Rattle.ion_text.specs.laws.reading.Rows.{AreDocuments, worked_documents};

use ion_symtab::Outlet;

/// What is written of values that the types keep, none of them a local symbol table, is a document
/// with these values, under every catalog and all limits that admit it; so what is written of the
/// values of a document is, where the catalog's texts are UTF-8. So is the text of one such value
/// (`value`), which has no LF behind it.
pub fn round_trip()
    ensures written { (g : List Table) (l : Limits) (s : List Value) →
        AreKept s → NoTables s → FitsIn l s → Document g l (text_of s) s }
    ensures again { (g h : List Table) (l m : Limits) (u : List ℕ) (s : List Value) →
        AreTextTables g → Document g l u s → FitsIn m s → Document h m (text_of s) s }
    ensures value { (g : List Table) (l : Limits) (v : Value) → AreKept (v ∷ []) →
        NoTables (v ∷ []) → FitsIn l (v ∷ []) → Document g l (value_text v) (v ∷ []) }
{}

/// The values of a document are such as the types keep, where the catalog's texts are UTF-8, and
/// none of them is a local symbol table.
pub fn document_values()
    ensures kept { (g : List Table) (l : Limits) (u : List ℕ) (s : List Value) →
        AreTextTables g → Document g l u s → AreKept s }
    ensures no_tables { (g : List Table) (l : Limits) (u : List ℕ) (s : List Value) →
        Document g l u s → NoTables s }
{}

/// Octets are a document with these values exactly where the reading of them, octet by octet, ends
/// well and gives these values.
pub fn reading_is_exact()
    ensures { (g : List Table) (l : Limits) (u : List ℕ) (s : List Value) →
        Streams (trace g l u) s ↔ Document g l u s }
{}

/// Octets are a document with one list of values at most.
pub fn one_stream()
    ensures { (g : List Table) (l : Limits) (u : List ℕ) (s t : List Value) →
        Document g l u s → Document g l u t → s ≡ t }
{}

/// Further octets take back no value that the reading gave, and no refusal.
pub fn reading_grows()
    ensures { (g : List Table) (l : Limits) (u w : List ℕ) →
        Grows (trace g l u) (trace g l (u ++ w)) }
{}

/// Where an octet is refused, no document begins with the octets up to it, they show the values
/// given, and the end repeats the refusal; a refusal at the end alone counts all octets; neither is
/// for want of memory or a fault of the catalog, and the first is not for want of more octets.
pub fn reading_refuses()
    ensures whole { (g : List Table) (l : Limits) (u : List ℕ) (r : Refusal) →
        (trace g l u).refused ≡ Some r → Refuses (Document g l) (Whole g l) u (trace g l u) r }
    ensures unfinished { (g : List Table) (l : Limits) (u : List ℕ) (r : Refusal) →
        (trace g l u).refused ≡ None → (trace g l u).ends ≡ Err r → r.offset ≡ length u }
    ensures reasons { (g : List Table) (l : Limits) (u : List ℕ) → HasReasons (trace g l u) }
{}

/// No value that the reading gives is a local symbol table.
pub fn reading_gives_no_table()
    ensures { (g : List Table) (l : Limits) (u : List ℕ) → GivesNoTable (trace g l u) }
{}

/// A value that the reading gives has at most as many nodes as octets were read since the value
/// before it came, and at most as many as the limit on items allows octets.
pub fn reading_is_small()
    ensures { (g : List Table) (l : Limits) (u : List ℕ) → IsSmall l.item u (trace g l u) }
{}

/// A value comes with its last octet, or before the one that shows its end: where the end of the
/// octets would give a value, the first that the next octet gives is that value, and came before
/// that octet.
pub fn reading_ends_values()
    ensures { (g : List Table) (l : Limits) (u : List ℕ) → EndsValues (trace g l) u }
{}

/// Octets show one stream: the values of the longest whole pieces at their front, whatever follows.
pub fn one_shown()
    ensures { (g : List Table) (l : Limits) (u : List ℕ) (s t : List Value) →
        Shown (Whole g l) u s → Shown (Whole g l) u t → s ≡ t }
{}

/// Of the values of whole pieces at the front of octets, the octets show all, or all but the last
/// one.
pub fn all_but_the_last()
    ensures { (g : List Table) (l : Limits) (front rest : List ℕ) (s t : List Value) →
        Whole g l front rest s → Shown (Whole g l) (front ++ rest) t →
        ((more : List Value) × (t ≡ s ++ more)) ⊎ ((v : Value) × (s ≡ t ++ v ∷ [])) }
{}

/// Where the reading refuses no octet, the octets show the values given: those of the longest list
/// of whole pieces at their front that remain pieces whatever follows. What is left of them is at
/// most one open item, within the limit on items, and what may stand open behind it.
pub fn reading_has_pieces()
    ensures shown { (g : List Table) (l : Limits) (u : List ℕ) →
        (trace g l u).refused ≡ None →
        Shows (Whole g l) (λ front rest. OpenRest l rest) u (plain (trace g l u).given) }
{}

/// A value has at most as many nodes as its tokens span octets, from the first octet of the first
/// of them to the last of the last.
pub fn values_are_small()
    ensures { (c : List Slot) (p : Place) (ts : List Placed) (v : Value)
        (colon : Bool) (before : ℕ) (octets : List ℕ) (after : Bool) (end : ℕ) (rest : List ℕ) →
        Means c p ts v → LexesTo colon before octets ts after end rest → nodes v ≤ span ts }
{}

/// A document is whole pieces with its values, and behind them at most a comment that its end ends.
/// Whole pieces are a document by themselves, whatever octets follow them where they stand.
pub fn whole_pieces()
    ensures documents { (g : List Table) (l : Limits) (u : List ℕ) (s : List Value) →
        Document g l u s → HasPieces (Whole g l) (λ front rest. OpenRest l rest) u s }
    ensures pieces { (g : List Table) (l : Limits) (u following : List ℕ) (s : List Value) →
        Whole g l u following s → Document g l u s }
{}

/// A refusal names the octet that decides: the octets up to it are refused so by themselves, and no
/// shorter front of them is refused by an octet.
pub fn first_refused()
    ensures { (g : List Table) (l : Limits) (u : List ℕ) (r : Refusal) →
        (trace g l u).refused ≡ Some r → IsFirst (trace g l) u r }
{}

/// Worked documents denote their streams, under every catalog and all limits of at least two levels
/// and items of 100 octets: a long string in segments, operators, comments behind an annotation, a
/// symbol table that another one appends to.
pub fn worked_documents()
    ensures { (g : List Table) (l : Limits) → 2 ≤ l.depth → 100 ≤ l.item →
        AreDocuments g l worked_documents }
{}

/// A document within limits is one with the same values within wider ones.
pub fn wider_limits()
    ensures { (g : List Table) (l m : Limits) → l.depth ≤ m.depth → l.item ≤ m.item →
        (u : List ℕ) (s : List Value) → Document g l u s → Document g m u s }
{}

/// Where `put` was called with each value of a stream in turn, and then `finish`, and all answered
/// `Ok`, the device took the document of the stream.
pub fn written<W: Outlet>()
    ensures { (s : List Value) (old new : W) → WritesEach W.Outlet old s new →
        Took W.took W.written old new (text_of s) }
{}

/// What a visitor that writes text has written once it was told a value is the value's text, behind
/// what it wrote before and what stands between items there; the types keep the value (`value`).
/// Told values that ended, from nothing, it has written their document, all of it whole lines
/// (`values`).
pub fn text_told()
    ensures value { (v : Value) (a b : Written) → Led Writes (events_of v) a b
        → (b ≡ with_item a (value_text v)) × IsKept v }
    ensures values { (s : List Value) (b : Written) → Led Writes (stream_events s) no_text b
        → (b.octets ≡ text_of s) × (lines b ≡ text_of s) × AreKept s }
{}
