//! Of text documents.
ghost use Rattle.std.specs.Prelude.{◌≡◌, ◌<◌, ◌≤◌, ◌⊎◌, ℕ, List, length, take, Some, None, Err};
ghost use Rattle.ion_refusals.specs.Names.{Decides, Document, EndDecides, HasRow, ItemTooLong, Limits, Reason, Refusal, Table, Value, reason_number, trace};

/// Where an octet is refused for a symbol, a symbol table, a version or a level, the octets up to
/// it are such as the table of the format names for that reason, and the last of them shows it
/// (`octet`). Where the end refuses for one of these reasons, they are all the octets, and the end
/// shows it (`end`). Octets begin with such as the table names up to one octet at most, and for one
/// reason (`one_octet`). That octet is refused for it, or for a reason with a smaller number that
/// has no row here, unless an octet before it was refused since the item became too long
/// (`refuses`). Where all are such as the end shows, it refuses for that very reason, with all
/// octets counted, unless one of them was refused since the item became too long (`ends`). The end
/// shows one reason (`one_end`), and none where octets begin with such as the table names
/// (`no_octet`). No document begins with octets of a row (`no_document`), and none is octets of
/// which the end shows one (`none_ends`).
pub fn deciding()
    ensures octet { (g : List Table) (l : Limits) (u : List ℕ) (r : Refusal) →
        (trace g l u).refused ≡ Some r → HasRow r.reason → Decides g l (take r.offset u) r.reason }
    ensures end { (g : List Table) (l : Limits) (u : List ℕ) (r : Refusal) → (trace g l u).refused
        ≡ None →
        (trace g l u).ends ≡ Err r → HasRow r.reason → EndDecides g l u r.reason }
    ensures one_octet { (g : List Table) (l : Limits) (u : List ℕ) (j k : ℕ) (e f : Reason) →
        j ≤ length u → k ≤ length u → Decides g l (take j u) e → Decides g l (take k u) f →
        (j ≡ k) × (e ≡ f) }
    ensures refuses { (g : List Table) (l : Limits) (u : List ℕ) (k : ℕ) (e : Reason) → k ≤ length u
        →
        Decides g l (take k u) e → (r : Refusal) × ((trace g l u).refused ≡ Some r)
        × (((r.reason ≡ ItemTooLong) × (r.offset < k))
        ⊎ ((r.offset ≡ k) × (reason_number r.reason ≤ reason_number e)))
        × (HasRow r.reason → (r.offset ≡ k) × (r.reason ≡ e)) }
    ensures ends { (g : List Table) (l : Limits) (u : List ℕ) (e : Reason) →
        EndDecides g l u e → (r : Refusal) × ((trace g l u).ends ≡ Err r) ×
        (((r.offset ≡ length u) × (r.reason ≡ e))
        ⊎ (((trace g l u).refused ≡ Some r) × (r.reason ≡ ItemTooLong))) }
    ensures one_end { (g : List Table) (l : Limits) (u : List ℕ) (e f : Reason) →
        EndDecides g l u e → EndDecides g l u f → e ≡ f }
    ensures no_octet { (g : List Table) (l : Limits) (u : List ℕ) (k : ℕ) (e f : Reason) →
        Decides g l (take k u) f → EndDecides g l u e → ⊥ }
    ensures no_document { (g : List Table) (l : Limits) (u : List ℕ) (k : ℕ) (e : Reason)
        (s : List Value) →
        k ≤ length u → Decides g l (take k u) e → Document g l u s → ⊥ }
    ensures none_ends { (g : List Table) (l : Limits) (u : List ℕ) (e : Reason) (s : List Value) →
        EndDecides g l u e → Document g l u s → ⊥ }
{}
