//! Hashers, by which a conversion to binary finds the ids of symbols.
ghost use Rattle.std.specs.Prelude.{◌≡◌, IfErr};

use ion_symtab::Fault;
use std::hash::{BuildHasher, BuildHasherDefault, FoldHasher};

/// What gives the hasher of a conversion to binary. What is written doesn't depend on it.
pub trait Hashers {
    type Hasher: BuildHasher + Drop;

    /// It may have none to give.
    ghost refuses: { Self → Type 0 };

    /// The hasher. `Read` where none can be had.
    fn hasher(&self) -> Result<Self::Hasher, Fault>
        ensures refused { IfErr result (λ fault. (fault ≡ Fault.Read) × refuses self.now) };
}

/// The hasher of a fixed seed, for documents that are trusted.
#[derive(Clone, Copy, Debug)]
pub struct FixedHasher;

impl Hashers for FixedHasher {
    type Hasher = BuildHasherDefault<FoldHasher>;

    ghost refuses = { λ _. ⊥ };

    fn hasher(&self) -> Result<BuildHasherDefault<FoldHasher>, Fault> {
        Ok(BuildHasherDefault::new())
    }
}
