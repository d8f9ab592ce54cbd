//! How a call ends, and the numbers that other languages are told it by.
ghost use Rattle.std.specs.Prelude.{◌≡◌};
ghost use Rattle.ion_memory.specs.Endings.{whose_number, fault_number, status_of, number_of, whose_of, reason_of, ending_of};

use ion_model::Refusal;
use ion_symtab::Fault;

/// Which octets were refused.
#[derive(Clone, Copy, Debug, PartialEq, Eq)]
pub enum Whose {
    /// The only document.
    Only,
    /// The first of two.
    Left,
    /// The second of two.
    Right,
    /// The catalog.
    Catalog,
}

impl Whose {
    /// Its number, 1 to 4.
    fn number(self) -> u32
        ensures { result ≡ whose_number self }
    {
        match self {
            Whose::Only => 1,
            Whose::Left => 2,
            Whose::Right => 3,
            Whose::Catalog => 4,
        }
    }
}

/// How a call ended.
#[derive(Clone, Copy, Debug, PartialEq, Eq)]
pub enum Ending {
    /// The document was accepted, or the two are equivalent.
    Accepted {
        /// How many values each has.
        values: u64,
    },
    /// Both are documents, and they aren't equivalent.
    Different {
        /// The first value that isn't equivalent, counted from 1.
        index: u64,
    },
    /// Octets were refused.
    Refused {
        /// Which octets.
        whose: Whose,
        /// Where, and why.
        refusal: Refusal,
    },
    /// There are no such limits.
    WrongLimits,
    /// A fault came before there was an answer.
    Faulted {
        /// Which one.
        fault: Fault,
    },
}

impl Ending {
    /// How a call on one document ends with this answer.
    pub fn of(answer: Result<u64, Refusal>) -> Ending
        ensures { result ≡ ending_of answer }
    {
        match answer {
            Ok(values) => Ending::Accepted { values },
            Err(refusal) => Ending::Refused {
                whose: Whose::Only,
                refusal,
            },
        }
    }

    /// The status, 0 to 4, as the command's.
    pub fn status(self) -> u32
        ensures { result ≡ status_of self }
    {
        match self {
            Ending::Accepted { .. } => 0,
            Ending::Different { .. } => 1,
            Ending::Refused { .. } => 2,
            Ending::WrongLimits => 3,
            Ending::Faulted { .. } => 4,
        }
    }

    /// How many values there are, the number of the one that differs, or the offset of the refusal;
    /// else 0.
    pub fn number(self) -> u64
        ensures { result ≡ number_of self }
    {
        match self {
            Ending::Accepted { values } => values,
            Ending::Different { index } => index,
            Ending::Refused { refusal, .. } => refusal.offset,
            Ending::WrongLimits => 0,
            Ending::Faulted { .. } => 0,
        }
    }

    /// The number of whose octets were refused, 1 to 4; else 0.
    pub fn whose(self) -> u32
        ensures { result ≡ whose_of self }
    {
        match self {
            Ending::Refused { whose, .. } => whose.number(),
            Ending::Accepted { .. } => 0,
            Ending::Different { .. } => 0,
            Ending::WrongLimits => 0,
            Ending::Faulted { .. } => 0,
        }
    }

    /// The number of the reason of a refusal, 1 to 22, or that of a fault, 1 to 6; else 0.
    pub fn reason(self) -> u32
        ensures { result ≡ reason_of self }
    {
        match self {
            Ending::Refused { refusal, .. } => u32::from(refusal.reason.number()),
            Ending::Faulted { fault } => fault_number(fault),
            Ending::Accepted { .. } => 0,
            Ending::Different { .. } => 0,
            Ending::WrongLimits => 0,
        }
    }
}

/// The number of a fault, 1 to 6.
fn fault_number(fault: Fault) -> u32
    ensures { result ≡ fault_number fault }
{
    match fault {
        Fault::Memory => 1,
        Fault::Read => 2,
        Fault::Write => 3,
        Fault::TooManyReads => 4,
        Fault::TooLarge => 5,
        Fault::Open => 6,
    }
}
