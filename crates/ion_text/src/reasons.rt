//! Which reason is answered where more than one stands.
ghost use Rattle.std.specs.Prelude.{◌≡◌, ◌≢◌, ℕ, Err};
ghost use Rattle.ion_text.specs.Names.{Memory, end_late, lesser, worse};

use crate::state::Taken;
use ion_model::{Reason, Refusal};

/// The reason of the smaller number.
pub(crate) fn lesser(first: Reason, second: Reason) -> Reason
    ensures { result ≡ lesser first second }
{
    if second.number() < first.number() {
        second
    } else {
        first
    }
}

/// The reason for which an octet is refused that was refused already, and comes again.
pub(crate) fn worse(reason: Reason, again: Result<Taken, Reason>) -> Reason
    ensures { result ≡ worse reason again }
{
    match again {
        Ok(_) => reason,
        Err(other) => lesser(reason, other),
    }
}

// A struct that would be too deep is no reason at the end, which completes nothing by it.
pub(crate) fn end_late(reason: Reason) -> Reason
    ensures { (used : ℕ) → end_late used reason ≡ Err (record { offset = used; reason = result }) }
{
    match reason {
        Reason::Depth => Reason::Incomplete,
        _ => reason,
    }
}

// The refusal, which says nothing of the octets behind `before` where memory ran out.
pub(crate) fn with_memory_at(before: u64, refusal: Refusal) -> Refusal
    ensures memory { result.reason ≡ Memory → result.offset ≡ before }
    ensures other { result.reason ≢ Memory → result ≡ refusal }
{
    match refusal.reason {
        Reason::Memory => Refusal {
            offset: before,
            reason: Reason::Memory,
        },
        _ => refusal,
    }
}
