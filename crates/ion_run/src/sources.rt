//! Readers by name.
ghost use Rattle.std.specs.Prelude.{◌≡◌, ◌⊎◌, ℕ, List, [], ◌∷◌, Some, IfOk, IfErr};
ghost use Rattle.ion_run.specs.Names.{Name, Keeps, Opens};

use ion_symtab::{Fault, Inlet};

/// What gives a reader by its name.
pub trait Sources {
    type Input: Inlet + Drop;

    /// This may be the reader of this name, as it is handed out.
    ghost gives: { Self → Name → Self.Input → Type 0 };

    /// This name may give no reader.
    ghost refuses: { Self → Name → Type 0 };

    /// All names that `source` was called with, in order, also those that gave no reader.
    ghost opened: { Self → List Name };

    /// The reader of this name, from its first octet on; `-` names the standard input, which is to
    /// be taken once.
    ///
    /// `Open` where the name gives no reader, and `Memory` where a growth was refused.
    fn source(&mut self, name: &str) -> Result<Self::Input, Fault>
        ensures given { IfOk result (gives self.old name.now) }
        ensures opened { Opens (opened self.old) (opened self.new) (name.now ∷ []) }
        ensures kept { Keeps gives refuses self.old self.new (Some name.now) }
        ensures refused { IfErr result (λ fault.
            (fault ≡ Fault.Open) × refuses self.old name.now ⊎ fault ≡ Fault.Memory) };
}
