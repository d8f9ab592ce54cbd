//! Why there is no next value.
use ion_model::Refusal;
use ion_symtab::Fault;
use std::fmt::{self, Display, Formatter};

/// Why a document gives no next value though it hasn't ended. Its message is that of the refusal or
/// the fault.
#[derive(Clone, Copy, Debug, PartialEq, Eq)]
pub enum Stop {
    /// The octets are no document: at which octet, and why.
    Refused(Refusal),
    /// The call ended without an answer, which says nothing of the octets.
    Fault(Fault),
}

impl Display for Stop {
    ghost use Rattle.ion.specs.Messages.{stop_text};

    ghost output = { stop_text };

    fn fmt<W: fmt::Write>(&self, f: &mut Formatter<W>) -> fmt::Result {
        match self {
            Stop::Refused(refusal) => refusal.fmt(f),
            Stop::Fault(fault) => fault.fmt(f),
        }
    }
}

impl std::error::Error for Stop {}

ghost use Rattle.ion.specs.declared.stop.Stop.TheVariants as stops;
ghost use Rattle.std.specs.Prelude.{◌≡◌};

impl From<Fault> for Stop {
    ghost from_gives = { λ fault stop. stop ≡ stops.Fault fault };

    fn from(fault: Fault) -> Stop {
        Stop::Fault(fault)
    }
}

impl From<Refusal> for Stop {
    ghost from_gives = { λ refusal stop. stop ≡ stops.Refused refusal };

    fn from(refusal: Refusal) -> Stop {
        Stop::Refused(refusal)
    }
}
