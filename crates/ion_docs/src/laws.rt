//! Laws of documents and verdicts. Each stands on a function that does nothing: its contract is the
//! law.
ghost use Rattle.std.specs.Prelude.{◌≡◌, ◌≤◌, ◌↔◌, ℕ, List, [], length, map, Option, Result, Ok};
ghost use Rattle.ion_docs.specs.Names.{AreApart, AreKept, AreOctets, Catalog, Denotes, DenotesAnywhere, DescribesUnder, IsCatalog, IsChecked, IsCompared, IsConverted, IsDocumentOf, IsShown, IsVerdict, KeepsStream, Limits, NoTables, Part, Refusal, Table, Target, Took, Value, Verdict, WereMade, catalog_of, documents, encoding_of, find, plain, shared_table};
ghost use Rattle.ion_symtab.specs.laws.ContextTexts.{AreTextTables};
ghost use Rattle.ion_docs.specs.Headline.{AreDocuments, AreEquivalent, IsCheckOf, IsConversionOf, IsDocument, IsListingOf, IsNoDocument, IsVerdictOn, PartFirst, RefusesLeft, RefusesRight, SaysDifferent, SaysEquivalent, TellsOnly};

use ion_model::laws::{equivalence, paths};
use ion_symtab::{Inlet, Outlet};

/// The promise of `compare` over two octet strings in memory, in the words of
/// `specs/Headline.antt`. They have a verdict, and one alone. It is `Equivalent` exactly where both
/// are documents of equivalent streams, with the number of their values, and `Different` exactly
/// where both are documents whose streams part, at the first value where they do and the path
/// within it. It refuses the left exactly where that is no document, and the right exactly where
/// the left is one and the right is none.
pub fn headline()
    ensures some { (g : Catalog) (k : Limits) (l r : List ℕ) →
        (v : Verdict) × IsVerdictOn g k l r v }
    ensures one { (g : Catalog) (k : Limits) (l r : List ℕ) (v w : Verdict) →
        IsVerdictOn g k l r v → IsVerdictOn g k l r w → v ≡ w }
    ensures equivalent { (g : Catalog) (k : Limits) (l r : List ℕ) (values : ℕ) →
        SaysEquivalent g k l r values ↔ AreDocuments g k l r (AreEquivalent values) }
    ensures different { (g : Catalog) (k : Limits) (l r : List ℕ) (index : ℕ) (path : List Part) →
        SaysDifferent g k l r index path ↔ AreDocuments g k l r (PartFirst index path) }
    ensures left { (g : Catalog) (k : Limits) (l r : List ℕ) →
        RefusesLeft g k l r ↔ IsNoDocument g k l }
    ensures right { (g : Catalog) (k : Limits) (l r : List ℕ) →
        RefusesRight g k l r ↔ (IsDocument g k l × IsNoDocument g k r) }
{
    paths();
    one_verdict();
}

/// The promise of `convert` over octets in memory, in the words of `specs/Headline.antt`. What is
/// written, and the answer, are one alone. A document of octets has a conversion: what is the
/// document of its stream in the encoding of `target`, where the texts of the catalog are UTF-8. It
/// denotes that stream, under every catalog and all limits that admit it, and so `compare` says
/// that both are equivalent.
pub fn conversions()
    ensures exact { (target : Target) (g : Catalog) (k : Limits) (u w : List ℕ) (values : ℕ) →
        AreTextTables g → AreOctets u →
        IsConversionOf g k (encoding_of target) u w (Ok values)
        ↔ ((s : List Value) × Denotes g k u s × (length s ≡ values)
        × (w ≡ (encoding_of target).document s)) }
    ensures one { (target : Target) (g : Catalog) (k : Limits) (u w x : List ℕ)
        (p q : Result ℕ Refusal) → IsConversionOf g k (encoding_of target) u w p →
        IsConversionOf g k (encoding_of target) u x q → (w ≡ x) × (p ≡ q) }
    ensures same { (target : Target) (g h : Catalog) (k m : Limits) (u w : List ℕ) (values : ℕ)
        (s : List Value) → IsConversionOf g k (encoding_of target) u w (Ok values) →
        Denotes g k u s → (encoding_of target).admits m s → Denotes h m w s }
    ensures equivalent { (target : Target) (g : Catalog) (k : Limits) (u w : List ℕ) (values : ℕ) →
        IsConversionOf g k (encoding_of target) u w (Ok values) →
        ((s : List Value) → Denotes g k u s → (encoding_of target).admits k s) →
        SaysEquivalent g k u w values }
{
    equivalence();
}

/// A document denotes one stream.
pub fn one_stream()
    ensures { (g : Catalog) (l : Limits) (octets : List ℕ) (s t : List Value) → Denotes g l octets s
        →
        Denotes g l octets t → s ≡ t }
{}

/// Two octet strings have one verdict: it is `Equivalent` exactly where both are documents of
/// equivalent streams, `Different` exactly where both are documents and the streams part, at the
/// one place and the one path where they do, and else it refuses one side, with the one refusal
/// that its octets give.
pub fn one_verdict()
    ensures { (g : Catalog) (k : Limits) (l r : List ℕ) (v w : Verdict) →
        IsVerdict (documents g k) (documents g k) l r v →
        IsVerdict (documents g k) (documents g k) l r w → v ≡ w }
{
    paths();
}

/// The document of a stream in either encoding denotes it, under every catalog and all limits that
/// admit it: where the types keep the values and none of them is a local symbol table, as where
/// they are the stream of octets, and the texts of the catalog are UTF-8.
pub fn same_stream()
    ensures written { (target : Target) (s : List Value) → AreKept s → NoTables s →
        DenotesAnywhere (encoding_of target) ((encoding_of target).document s) s }
    ensures again { (target : Target) (g : Catalog) (l : Limits) (u : List ℕ) (s : List Value) →
        AreTextTables g → AreOctets u → Denotes g l u s →
        DenotesAnywhere (encoding_of target) ((encoding_of target).document s) s }
{}

/// Values are loaded as a catalog exactly where each describes a shared symbol table and no table
/// has the name and version of one before it: the catalog is those tables, in order, whatever the
/// totals of octets at which the values come.
pub fn catalogs()
    ensures each { (given : List (Value × ℕ)) (tables : List Table) → catalog_of [] given
        ≡ Ok tables →
        (map shared_table (plain given) ≡ map Ok tables) × AreApart [] tables }
    ensures all { (given : List (Value × ℕ)) (tables : List Table) →
        map shared_table (plain given) ≡ map Ok tables → AreApart [] tables →
        catalog_of [] given ≡ Ok tables }
{}

/// All octets are loaded as a catalog or refused, and within the same limits as one catalog, or
/// with one reason and one offset.
pub fn one_catalog()
    ensures some { (l : Limits) (octets : List ℕ) →
        (answer : Result (List Table) Refusal) × IsCatalog (documents [] l) octets answer }
    ensures one { (l : Limits) (octets : List ℕ) (p q : Result (List Table) Refusal) →
        IsCatalog (documents [] l) octets p → IsCatalog (documents [] l) octets q → p ≡ q }
{}

/// Octets are loaded as a catalog exactly where they are a document under a catalog of no tables,
/// each of its values describes a shared symbol table, and no name and version comes twice.
pub fn catalog_documents()
    ensures { (l : Limits) (octets : List ℕ) (tables : List Table) →
        IsCatalog (documents [] l) octets (Ok tables) ↔ IsDocumentOf (documents [] l) octets tables }
{}

/// In a catalog that was loaded `find` gives a table under a name and version exactly where a value
/// of the document describes that table, and that name and version are its own; under all others
/// none.
pub fn catalogs_find()
    ensures tables { (l : Limits) (octets : List ℕ) (tables : List Table) (s : List Value) →
        IsCatalog (documents [] l) octets (Ok tables) → Denotes [] l octets s →
        (name : List ℕ) (version : ℕ) (t : Table) →
        find tables name version ≡ Option.Some t ↔ DescribesUnder s name version t }
    ensures no_others { (l : Limits) (octets : List ℕ) (tables : List Table) (s : List Value) →
        IsCatalog (documents [] l) octets (Ok tables) → Denotes [] l octets s →
        (name : List ℕ) (version : ℕ) → ((t : Table) → DescribesUnder s name version t → ⊥) →
        find tables name version ≡ Option.None }
{}

/// Where two devices tell only certain octets, as those over octets in memory, what `compare`
/// answers of them is the verdict on these octets: with `headline` that is the promise outright.
pub fn verdict_of_told<L: Inlet, R: Inlet>()
    ensures { (g : Catalog) (k : Limits) (a b : L) (c d : R) (v : Verdict) →
        IsCompared L.Inlet R.Inlet (documents g k) (documents g k) a b c d v →
        (l r : List ℕ) → TellsOnly L.Inlet a l → TellsOnly R.Inlet c r → IsVerdictOn g k l r v }
{}

/// What `check` answers of a device that tells only certain octets is what they are.
pub fn check_of_told<R: Inlet>()
    ensures { (g : Catalog) (k : Limits) (a b : R) (answer : Result ℕ Refusal) →
        IsChecked R.Inlet (documents g k) a b answer →
        (u : List ℕ) → TellsOnly R.Inlet a u → IsCheckOf g k u answer }
{}

/// What `show` answers of a device that tells only certain octets, and what it writes, is what they
/// are.
pub fn listing_of_told<R: Inlet, W: Outlet>()
    ensures { (g : Catalog) (k : Limits) (a b : R) (old new : W) (answer : Result ℕ Refusal) →
        IsShown R.Inlet W.Outlet (documents g k) a b old new answer →
        (u : List ℕ) → TellsOnly R.Inlet a u →
        (w : List ℕ) × Took W.took W.written old new w × IsListingOf g k u w answer }
{}

/// What `convert` answers of a device that tells only certain octets is what they are, and what it
/// writes denotes the stream that they denote, or the values before the refusal.
pub fn conversion_of_told<R: Inlet, W: Outlet>()
    ensures { (target : Target) (g : Catalog) (k : Limits) (a b : R) (old new : W)
        (answer : Result ℕ Refusal) →
        IsConverted R.Inlet W.Outlet (encoding_of target) (documents g k) a b old new answer →
        KeepsStream R.Inlet W.Outlet (encoding_of target) g k a b old new answer →
        (u : List ℕ) → TellsOnly R.Inlet a u →
        (w : List ℕ) × Took W.took W.written old new w
        × IsConversionOf g k (encoding_of target) u w answer }
{}

/// A device that tells only certain octets is asked at most once for each of them before it answers
/// its end: so a call over it is stopped by `TooManyReads` only where they are at least as many as
/// the reads that its limits allow.
pub fn reads_of_told<R: Inlet>()
    ensures { (reads : ℕ) (first now : R) (u : List ℕ) → TellsOnly R.Inlet first u →
        WereMade R.Inlet reads first now → reads ≤ length u }
{}
