//! Memory that ran out behind a walk.
ghost use Rattle.std.specs.Prelude.{◌≡◌, Some, None};
ghost use Rattle.ion_text.specs.Names.{Memory};

use super::TextWalk;
use ion_model::{Reason, Refusal};

impl TextWalk<'_> {
    /// Refuses from now on, behind so many octets: there was no memory for what was told.
    pub(crate) fn run_out(&mut self, used: u64) -> Refusal
        ensures refusal { result ≡ record { offset = used; reason = Memory } }
        ensures kept { self.new ≡ record self.old { awaited = None; failed = Some result } }
    {
        let refusal = Refusal {
            offset: used,
            reason: Reason::Memory,
        };
        self.awaited = None;
        self.failed = Some(refusal);
        refusal
    }
}
