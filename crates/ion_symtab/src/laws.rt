//! Laws of catalogs and contexts. Each stands on an empty function: its contract is the law.
ghost use Rattle.std.specs.Prelude.{◌≡◌, ◌↔◌, ◌≤◌, ◌⊎◌, ◌++◌, ◌∷◌, [], ℕ, List, length, map, Option, Some, IsSome, Ok, IfErr, Contains};
ghost use Rattle.ion_symtab.specs.Names.{Decides, IsIdReason, IsKept, IsSharedReason, IsTableReason, IsText, Slot, Table, Value, find, find_best, greatest_id, newest, next, resolve, shared_table, system_slots};
ghost use Rattle.ion_symtab.specs.LocalTables.{MakesContext};
ghost use Rattle.ion_symtab.specs.laws.ContextTexts.{AreTextSlots, AreTextTables};
ghost use Rattle.ion_symtab.specs.laws.Contexts.{Begins};
ghost use Rattle.ion_symtab.specs.laws.Tables.{IsAtLeast};
ghost use Rattle.ion_symtab.specs.laws.WorkedTables.{worked_catalog, worked_context, worked_tables};

/// A table that is found by name and version is one of the catalog, under both; and where there is
/// one, one is found.
pub fn exact()
    ensures found { (g : List Table) (name : List ℕ) (version : ℕ) (t : Table) →
        find g name version ≡ Some t → Contains g t × (t.name ≡ name) × (t.version ≡ version) }
    ensures there { (g : List Table) (t : Table) → Contains g t → IsSome (find g t.name t.version) }
{}

/// The newest table of a name is one of the catalog, under that name, and no table of the name has
/// a greater version.
pub fn greatest()
    ensures found { (g : List Table) (name : List ℕ) (t : Table) →
        newest g name ≡ Some t → Contains g t × (t.name ≡ name) }
    ensures there { (g : List Table) (t : Table) → Contains g t
        → IsAtLeast t.version (newest g t.name) }
{}

/// A table that is added to a catalog, which has none of its name and version, is found under
/// these; and under any other name and version what was found before.
pub fn added()
    ensures itself { (g : List Table) (t : Table) → find g t.name t.version ≡ Option.None →
        find (g ++ t ∷ []) t.name t.version ≡ Some t }
    ensures best { (g : List Table) (t : Table) → find g t.name t.version ≡ Option.None →
        find_best (g ++ t ∷ []) t.name t.version ≡ Some t }
    ensures others { (g : List Table) (t : Table) (name : List ℕ) (version : ℕ) →
        ((t.name ≡ name) × (t.version ≡ version) → ⊥) →
        find (g ++ t ∷ []) name version ≡ find g name version }
{}

/// What is behind a local symbol table begins with all slots that were before it or with the system
/// slots, so the system slots stay first, and its ids are at most 2^31-1.
pub fn behind_a_table()
    ensures begins { (c d : List Slot) (v : Value) (g : List Table) →
        next c v g ≡ Ok d → Begins c d ⊎ Begins system_slots d }
    ensures system { (c d : List Slot) (v : Value) (g : List Table) →
        next c v g ≡ Ok d → Begins system_slots c → Begins system_slots d }
    ensures bounded { (c d : List Slot) (v : Value) (g : List Table) →
        next c v g ≡ Ok d → length d ≤ greatest_id }
{}

/// What is behind a local symbol table is what the symbols chapter says, and nothing else (Ion 1.0,
/// "Symbols"): the base, then for each element of `imports` its table's slots, cut or filled, then
/// one slot for each element of `symbols`.
pub fn local_tables()
    ensures { (c d : List Slot) (v : Value) (g : List Table) →
        (next c v g ≡ Ok d) ↔ MakesContext g c v d }
{}

/// Worked local symbol tables: slots that are cut off, filled up, or gaps; a version that isn't
/// there; no name; two imports; a table that appends a text and an unknown one.
pub fn worked_tables()
    ensures { map (λ row. next worked_context row.0 worked_catalog) worked_tables
        ≡ map (λ row. Ok (system_slots ++ row.1)) worked_tables }
{}

/// An id keeps its symbol where slots are added.
pub fn ids_stay()
    ensures { (c d : List Slot) (id : ℕ) → Begins c d → id ≤ length c
        → resolve d id ≡ resolve c id }
{}

/// Want of memory aside, an id is refused as above the greatest or as a gap; a local symbol table
/// as null, for a repeated field, for a missing import, or as too large; and a value that is to
/// describe a shared one for a repeated field or as none.
pub fn reasons()
    ensures ids { (c : List Slot) (id : ℕ) → IfErr (resolve c id) IsIdReason }
    ensures tables { (c : List Slot) (v : Value) (g : List Table) →
        IfErr (next c v g) IsTableReason }
    ensures shared { (v : Value) → IfErr (shared_table v) IsSharedReason }
{}

/// Ids and local symbol tables are refused only for reasons that octets decide.
pub fn decided()
    ensures ids { (c : List Slot) (id : ℕ) → Decides (resolve c id) }
    ensures tables { (c : List Slot) (v : Value) (g : List Table) → Decides (next c v g) }
{}

/// The texts of the system slots are UTF-8, and so are those behind a local symbol table where they
/// were before it, those of the catalog are, and the table is a value that the types keep. The
/// symbols of such a context have UTF-8 texts.
pub fn texts_stay()
    ensures system { AreTextSlots system_slots }
    ensures behind { (c d : List Slot) (v : Value) (g : List Table) → AreTextTables g →
        AreTextSlots c → IsKept v → next c v g ≡ Ok d → AreTextSlots d }
    ensures symbols { (c : List Slot) (id : ℕ) (s : Option (List ℕ)) →
        AreTextSlots c → resolve c id ≡ Ok s → IsText s }
{}
