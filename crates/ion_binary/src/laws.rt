//! Laws of binary documents. Each stands on an empty function: its contract is the law.
ghost use Rattle.std.specs.Prelude.{◌↔◌, ℕ, List, ◌≡◌, false, ◌⊎◌, ◌<◌, ◌≤◌, Bool, length, map};
ghost use Rattle.ion_binary.specs.Names.{AreKept, AreOctets, Binary, Document, FitsIn, Form, Header, IsHeader, IsKept, Kind, Led, Limits, NoTables, Null, Slot, Table, Took, Truth, Value, behind, bin_of, events_of, nodes, nothing_yet, null_octet, opening_of, puts, stream_events, truth_octet};
ghost use Rattle.ion_atoms.specs.declared.kind.Kind.TheVariants as kinds;
ghost use Rattle.ion_symtab.specs.laws.ContextTexts.{AreTextTables};
ghost use Rattle.ion_binary.specs.visiting.BinaryOut.{Encoded, Encodes, no_octets, with_value, wraps_next};
ghost use Rattle.ion_binary.specs.writer.Calls.{WritesEach};
ghost use Rattle.ion_binary.specs.laws.reading.Rows.{AreDocuments, worked_documents};
ghost use Rattle.ion_binary.specs.laws.writing.Rows.{worked};

use ion_symtab::Outlet;

/// The headers of the grammar are the descriptors and lengths that the specification's table of
/// type codes and length codes has, and its nulls and bools are the octets there. Those of negative
/// ints have a null of their own, which is the null of ints.
pub fn headers()
    ensures sized { (form : Form) (n : ℕ) (octets : List ℕ) →
        Header form n octets ↔ IsHeader form n octets }
    ensures nulls { (b : ℕ) (k : Kind) → b < 256 →
        (opening_of b ≡ Null k) ↔ ((b ≡ null_octet k) ⊎ ((k ≡ kinds.Int) × (b ≡ 0x3F))) }
    ensures truths { (b : ℕ) (t : Bool) → b < 256 →
        (opening_of b ≡ Truth t) ↔ (b ≡ truth_octet t) }
{}

/// What is written of values that the types keep, none of them a local symbol table, is a document
/// with these values, under every catalog and all limits that admit it. The values of a document
/// of octets are such values, where the catalog's texts are UTF-8.
pub fn round_trip()
    ensures written { (g : List Table) (l : Limits) (s : List Value) →
        AreKept s → NoTables s → FitsIn l s → Document g l (bin_of s) s }
    ensures again { (g h : List Table) (l m : Limits) (u : List ℕ) (s : List Value) →
        AreTextTables g → AreOctets u → Document g l u s → FitsIn m s → Document h m (bin_of s) s }
{}

/// A value has at most as many nodes as octets.
pub fn values_are_small()
    ensures { (c : List Slot) (w : List ℕ) (v : Value) → Binary c w v → nodes v ≤ length w }
{}

/// Octets are a document with one list of values at most.
pub fn one_stream()
    ensures { (g : List Table) (l : Limits) (u : List ℕ) (s t : List Value) →
        Document g l u s → Document g l u t → s ≡ t }
{}

/// The values of a document of octets are such as the types keep, where the catalog's texts are
/// UTF-8, and none of them is a local symbol table.
pub fn document_values()
    ensures kept { (g : List Table) (l : Limits) (u : List ℕ) (s : List Value) →
        AreTextTables g → AreOctets u → Document g l u s → AreKept s }
    ensures no_tables { (g : List Table) (l : Limits) (u : List ℕ) (s : List Value) →
        Document g l u s → NoTables s }
{}

/// Where `put` was called with each value of a stream in turn, and then `finish`, and all answered
/// `Ok`, the device took the document of the stream.
pub fn written<W: Outlet>()
    ensures { (s : List Value) (old new : W) → WritesEach W.Outlet nothing_yet old s new →
        Took W.took W.written old new (bin_of s) }
{}

/// What is written of worked streams: of no value, symbols with ids of their own and ids that a
/// table gives in the order of first use, a list, a year, the sign of a zero, a field.
pub fn worked_binary()
    ensures { map (λ row. bin_of row.0) worked ≡ map (λ row. row.1) worked }
{}

/// Worked documents denote their streams, under every catalog and all limits whose items may have
/// as many octets: lengths in more octets than are needed, a pad behind a field name, an
/// annotation, the greatest id of the system symbols.
pub fn worked_documents()
    ensures { (g : List Table) (l : Limits) → AreDocuments g l worked_documents }
{}

/// A visitor that writes binary values, told a value where one may begin, has given ids to its
/// symbols and written its octets behind what stood there (`value`). Told values that ended, from
/// nothing, it has written what they add to a document, and has the symbols that have ids there
/// (`values`). The types keep what it was told.
pub fn binary_told()
    ensures value { (v : Value) (a b : Encoded) → a.noted ≡ false → wraps_next a.frames ≡ false
        → Led Encodes (events_of v) a b → (b ≡ with_value a v) × IsKept v }
    ensures values { (s : List Value) (b : Encoded) → Led Encodes (stream_events s) no_octets b
        → (b.whole ≡ puts nothing_yet s) × (b.names ≡ (behind nothing_yet s).names)
        × (b.begun ≡ (behind nothing_yet s).begun) × AreKept s }
{}
