//! Laws of the orders that std's `Ord` has of kinds and reasons. Each stands on an empty function:
//! its contract is the law.
ghost use Rattle.std.specs.Prelude.{◌≡◌};
ghost use Rattle.std.specs.Ordering.{nat_cmp};
ghost use Rattle.ion_atoms.specs.Kinds.{kind_rank};
ghost use Rattle.ion_atoms.specs.Reasons.{reason_number};

use crate::kind::Kind;
use crate::refusal::Reason;

/// Kinds are ordered by their ranks.
pub fn kinds_by_rank()
    ensures { (k l : Kind) → ⟦<Kind as Ord>⟧.cmp k l ≡ nat_cmp (kind_rank k) (kind_rank l) }
{}

/// Reasons are ordered by their numbers.
pub fn reasons_by_number()
    ensures { (r s : Reason) →
        ⟦<Reason as Ord>⟧.cmp r s ≡ nat_cmp (reason_number r) (reason_number s) }
{}
