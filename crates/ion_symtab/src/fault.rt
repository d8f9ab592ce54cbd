//! Why a call on a whole document ended without an answer.
use std::alloc::{AllocError, AllocFailed};
use thiserror::Error;

/// Why a call ended without an answer, which says nothing of the octets: a device or the memory
/// failed, or a limit that isn't one of the document's was met. Its message is the variant's name.
#[derive(Clone, Copy, Debug, PartialEq, Eq, Error)]
pub enum Fault {
    /// A growth was refused.
    #[error("Memory")]
    Memory,
    /// A read failed, in this call or before it.
    #[error("Read")]
    Read,
    /// A write or a flush failed, in this call or before it.
    #[error("Write")]
    Write,
    /// As many reads of one document were made as `Limits` allows, and none answered the end.
    #[error("TooManyReads")]
    TooManyReads,
    /// A binary document would need a symbol id above 2^31-1. (A body of 2^63 octets would be too
    /// large as well, and memory ends before.)
    #[error("TooLarge")]
    TooLarge,
    /// A name gave no reader.
    #[error("Open")]
    Open,
}

ghost use Rattle.ion_symtab.specs.declared.fault.Fault.TheVariants.{Memory};
ghost use Rattle.std.specs.Prelude.{◌≡◌};

impl From<AllocError> for Fault {
    ghost from_gives = { λ _ e. e ≡ Memory };

    fn from(_error: AllocError) -> Fault {
        Fault::Memory
    }
}

impl<T: Drop> From<AllocFailed<T>> for Fault {
    ghost from_gives = { λ _ e. e ≡ Memory };

    fn from(_error: AllocFailed<T>) -> Fault {
        Fault::Memory
    }
}
