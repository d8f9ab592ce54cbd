//! Of binary documents.
ghost use Rattle.std.specs.Prelude.{◌≡◌, ◌≤◌, ℕ, List, length, take, Some, None, Err};
ghost use Rattle.ion_refusals.specs.BinaryNames.{Decides, Incomplete, Limits, Reason, Refusal, Table, trace};
ghost use Rattle.ion_binary.specs.Deciding.{Answers};

/// Each refusal is one that the table of the format has, and each row of the table refuses.
pub fn refusals()
    ensures answers { (g : List Table) (l : Limits) (u : List ℕ) (r : Refusal) →
        (trace g l u).refused ≡ Some r → (r.offset ≤ length u)
        × Answers g l (take r.offset u) r.reason }
    ensures refuses { (g : List Table) (l : Limits) (u : List ℕ) (k : ℕ) (e : Reason) → k ≤ length u
        →
        Decides g l (take k u) e → (r : Refusal) × ((trace g l u).refused ≡ Some r)
        × (r.offset ≡ k) }
    ensures ends { (g : List Table) (l : Limits) (u : List ℕ) (r : Refusal) → (trace g l u).refused
        ≡ None →
        (trace g l u).ends ≡ Err r → r ≡ record { offset = length u; reason = Incomplete } }
{}
