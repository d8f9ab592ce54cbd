//! The writers of both encodings, as conversions see them.
ghost use Rattle.std.specs.Prelude.{◌≡◌, ◌++◌, ◌∷◌, [], List, ℕ, length, refl, true, false, OnOk, OnErr, IfErr};
ghost use Rattle.ion_docs.specs.Names.{Encoding, IsFrontOf, IsKept, IsPuttingFault, TookBehind, TookSomeBehind, Value, WasTold};
ghost use Rattle.ion_symtab.specs.declared.fault.Fault.TheVariants as faults;

use ion_binary::{BinaryOut, finish_document};
use ion_symtab::{Fault, Outlet, flushed, write_whole};
use ion_text_writer::TextOut;
use ion_visiting::Visitor;
use std::hash::BuildHasher;

/// A writer of documents in one encoding, which is told the values of a stream, and hands over what
/// it makes of each.
pub trait Encoder: Visitor {
    /// The encoding.
    ghost encoding: { Encoding };

    /// What is written of a document before its end, where these are its values.
    ghost puts: { List Value → List ℕ };

    /// These values may have been told and handed over, one after another, and no call answered a
    /// fault; of no other value anything was told.
    ghost has_put: { Self → List Value → Type 0 };

    /// Writes what the value that was told adds behind those before it. A local symbol table isn't
    /// one: it would be read as a table. A value that is written is one that the types keep.
    ///
    /// `Memory`; `Write` where the device failed; `TooLarge` where a symbol would need an id above
    /// 2^31-1. Some first octets of what the value adds may be out then.
    fn hand_over<W: Outlet>(&mut self, out: &mut W) -> Result<(), Fault>
        ensures wrote { OnOk result ((s : List Value) (v : Value) →
            WasTold has_put Self.takes s v self.old →
            TookBehind W.Outlet out.old out.new (puts s) (puts (s ++ v ∷ []))) }
        ensures put { OnOk result ((s : List Value) (v : Value) →
            WasTold has_put Self.takes s v self.old → has_put self.new (s ++ v ∷ [])) }
        ensures kept { OnOk result ((s : List Value) (v : Value) →
            WasTold has_put Self.takes s v self.old → IsKept v) }
        ensures front { OnErr result ((s : List Value) (v : Value) →
            WasTold has_put Self.takes s v self.old →
            TookSomeBehind W.Outlet out.old out.new (puts s) (puts (s ++ v ∷ []))) }
        ensures cause { IfErr result (λ fault. (s : List Value) (v : Value) →
            WasTold has_put Self.takes s v self.old →
            IsPuttingFault encoding (s ++ v ∷ []) (W.has_failed out.new) fault) };

    /// Writes what is left of a document of so many values, and makes the device pass on all that it
    /// took.
    ///
    /// `Write` where the device failed.
    fn finish<W: Outlet>(out: &mut W, values: u64) -> Result<(), Fault>
        ensures wrote { OnOk result ((s : List Value) → length s ≡ values →
            TookBehind W.Outlet out.old out.new (puts s) (encoding.document s)) }
        ensures passed_on { OnOk result (W.passed out.new ≡ W.written out.new) }
        ensures no_write_failed { OnOk result (W.has_failed out.new ≡ false) }
        ensures front { OnErr result ((s : List Value) → length s ≡ values →
            TookSomeBehind W.Outlet out.old out.new (puts s) (encoding.document s)) }
        ensures cause { IfErr result (λ fault.
            (fault ≡ faults.Write) × (W.has_failed out.new ≡ true)) };

    /// Nothing is written before the first value.
    ghost begins: { puts [] ≡ [] };

    /// What is written before the end is a front of the document.
    ghost fronts: { (s : List Value) → IsFrontOf (puts s) (encoding.document s) };
}

impl<S: BuildHasher + Drop> Encoder for BinaryOut<S> {
    ghost use Rattle.ion_binary.specs.Output.{nothing_yet};
    ghost use Rattle.ion_binary.specs.visiting.BinaryOut.{of_values};
    ghost use Rattle.ion_binary.specs.writer.Puts.{puts as binary_puts, behind};
    ghost use Rattle.ion_docs.specs.Encodings.{binary_encoding};
    ghost use Rattle.ion_docs.specs.laws.Encodings.{binary_fronts};

    ghost encoding = { binary_encoding };

    ghost puts = { binary_puts nothing_yet };

    ghost has_put = { λ out s. out ≡ of_values [] (behind nothing_yet s) };

    fn hand_over<W: Outlet>(&mut self, out: &mut W) -> Result<(), Fault> {
        if self.needs_large_id() {
            return Err(Fault::TooLarge);
        }
        if !self.ended() {
            return Err(Fault::Memory);
        }
        write_whole(out, self.octets())?;
        self.forget_octets();
        Ok(())
    }

    fn finish<W: Outlet>(out: &mut W, values: u64) -> Result<(), Fault> {
        finish_document(out, values > 0)
    }

    ghost begins = { refl };

    ghost fronts = { binary_fronts };
}

impl Encoder for TextOut {
    ghost use Rattle.ion_spelling.specs.Output.{text_of};
    ghost use Rattle.ion_spelling.specs.TextOut.{no_text};
    ghost use Rattle.ion_docs.specs.Encodings.{text_encoding};
    ghost use Rattle.ion_docs.specs.laws.Encodings.{text_fronts};

    ghost encoding = { text_encoding };

    ghost puts = { text_of };

    ghost has_put = { λ out s. out ≡ no_text };

    fn hand_over<W: Outlet>(&mut self, out: &mut W) -> Result<(), Fault> {
        if !self.ended() {
            return Err(Fault::Memory);
        }
        write_whole(out, self.lines())?;
        self.forget_lines();
        Ok(())
    }

    fn finish<W: Outlet>(out: &mut W, _values: u64) -> Result<(), Fault> {
        flushed(out)
    }

    ghost begins = { refl };

    ghost fronts = { text_fronts };
}
