//! The writer of binary documents.
ghost use Rattle.std.specs.Prelude.{◌≡◌, ◌≢◌, ◌+◌, ◌≤◌, ◌<◌, ◌^◌, ◌++◌, suc, length, Some, None, Ok, Err, false, true, MatchResult, OnOk, OnErr, IfErr, IsOkUnless};
ghost use Rattle.ion_binary.specs.Names.{Fault as AnyFault, IsKept, IsWritingFault, Took, TookFront, adds, after, greatest_id, names_after, nothing_yet, opening, table_from};
ghost use Rattle.ion_symtab.specs.declared.fault.Fault.TheVariants as faults;

use crate::binary_out::BinaryOut;
use ion_model::Value;
use ion_names::Names;
use ion_symtab::{Fault, Outlet, flushed, write_whole};
use ion_visiting::{Visitor, tell};
use std::alloc::Global;
use std::fmt::{self, Debug, Formatter};
use std::hash::{BuildHasher, BuildHasherDefault, FoldHasher};
use std::marker::Model;
use table::put_table;

pub(crate) mod framing;
mod table;

/// The marker of Ion 1.0 (Ion 1.0, "Ion Binary Encoding", "Value Streams").
const MARKER: [u8; 4] = [0xE0, 0x01, 0x00, 0xEA];

/// Writes values, one after another, as one binary document (Ion 1.0, "Ion Binary Encoding").
/// Contracts see the symbols that have ids, whether the marker is out, and the fault that each call
/// answers.
///
/// Every length and number has the fewest octets. Before a value with symbols whose texts have no
/// ids yet stands one local symbol table, which appends them in the order of their first use. Ids
/// are found by a hash of the texts, and don't depend on it.
#[derive(Drop)]
pub struct BinaryWriter<S: BuildHasher = BuildHasherDefault<FoldHasher>> {
    /// Writes the value that it is told; the octets of the next value take the memory of those.
    visitor: BinaryOut<S>,
    /// The fault that each call answers from now on.
    failed: Option<Fault>,
}

impl<S: BuildHasher> Debug for BinaryWriter<S> {
    fn fmt<W: fmt::Write>(&self, f: &mut Formatter<W>) -> fmt::Result {
        f.debug_struct("BinaryWriter").finish_non_exhaustive()
    }
}

impl<S: BuildHasher> Model for BinaryWriter<S> {
    ghost use Rattle.ion_binary.specs.Writing.{Writing};

    ghost Value = { Writing };

    ghost view = { λ w. record {
      progress = record { names = w.visitor.names; begun = w.visitor.begun };
      failed = w.failed;
    } };
}

impl BinaryWriter {
    /// A writer of a document of which nothing is written yet. The only fault is `Memory`. The
    /// hasher has a fixed seed: where a stranger chooses the texts, `with_hasher` has a random one.
    pub fn new(alloc: Global) -> Result<BinaryWriter, Fault>
        ensures { MatchResult result (λ w. w ≡ record { progress = nothing_yet; failed = None })
            (λ f. f ≡ faults.Memory) }
    {
        BinaryWriter::with_hasher(alloc, BuildHasherDefault::new())
    }
}

impl<S: BuildHasher + Drop> BinaryWriter<S> {
    /// The same, of a writer that finds ids by this hasher. What it writes is the same.
    pub fn with_hasher(alloc: Global, hasher: S) -> Result<BinaryWriter<S>, Fault>
        ensures { MatchResult result (λ w. w ≡ record { progress = nothing_yet; failed = None })
            (λ f. f ≡ faults.Memory) }
    {
        Ok(BinaryWriter {
            visitor: BinaryOut::with_hasher(alloc, hasher)?,
            failed: None,
        })
    }

    /// Writes a value; before the first one the version marker. A local symbol table isn't one: it
    /// would be written as it stands and read as a table. A value that is written is one that the
    /// types keep.
    ///
    /// `Memory`; `Write` where the device failed; `TooLarge` where a symbol would need an id above
    /// 2^31-1, so that no value that is written has one. Nothing went out before a fault other than
    /// `Write`. After a fault each later call answers the same.
    pub fn put<W: Outlet>(&mut self, out: &mut W, value: &Value) -> Result<(), Fault>
        ensures ok { OnOk result (Took W.took W.written out.old out.new
            (adds self.old.progress value.now)) }
        ensures after { OnOk result (self.new
            ≡ record { progress = after self.old.progress value.now; failed = None }) }
        ensures in_range { OnOk result
            (length (names_after self.old.progress.names value.now) ≤ suc greatest_id) }
        ensures kept { OnOk result (IsKept value.now) }
        ensures front { OnErr result (TookFront W.took W.written out.old out.new
            (adds self.old.progress value.now)) }
        ensures unwritten { IfErr result (λ fault. fault ≢ faults.Write → out.new ≡ out.old) }
        ensures cause { self.old.failed ≡ None
            → IfErr result (IsWritingFault (names_after self.old.progress.names value.now)
            (W.has_failed out.new)) }
        ensures again { (fault : AnyFault) → self.old.failed ≡ Some fault → (result ≡ Err fault)
            × (out.new ≡ out.old) }
        ensures failed { IfErr result (λ fault. self.new.failed ≡ Some fault) }
    {
        if let Some(fault) = self.failed {
            return Err(fault);
        }
        let answer = self.put_next(out, value);
        self.remember_fault(answer)
    }

    /// Writes the version marker where no value was put, and makes the device pass on all that it
    /// took.
    ///
    /// `Write` where the device failed; the fault of an earlier call, where there was one.
    pub fn finish<W: Outlet>(self, out: &mut W) -> Result<(), Fault>
        ensures ok { OnOk result (Took W.took W.written out.old out.new
            (opening self.progress.begun)) }
        ensures passed_on { OnOk result (W.passed out.new ≡ W.written out.new) }
        ensures no_write_failed { OnOk result (W.has_failed out.new ≡ false) }
        ensures front { OnErr result (TookFront W.took W.written out.old out.new
            (opening self.progress.begun)) }
        ensures cause { self.failed ≡ None
            → IfErr result (λ fault. (fault ≡ faults.Write) × (W.has_failed out.new ≡ true)) }
        ensures again { (fault : AnyFault) → self.failed ≡ Some fault → (result ≡ Err fault)
            × (out.new ≡ out.old) }
    {
        let (failed, begun) = (self.failed, self.visitor.has_begun());
        // by a call, which is one step of the proof; each way out would let go of it part by part
        drop(self);
        match failed {
            None => finish_document(out, begun),
            Some(fault) => Err(fault),
        }
    }

    // Keeps a fault for the later calls.
    #[inline(always)]
    fn remember_fault(&mut self, answer: Result<(), Fault>) -> Result<(), Fault>
        ensures answer { result ≡ answer }
        ensures failed { IfErr result (λ fault. self.new.failed ≡ Some fault) }
        ensures kept { OnOk result (self.new ≡ self.old) }
    {
        if let Err(fault) = answer {
            self.failed = Some(fault);
        }
        answer
    }

    // The same for a writer that has answered no fault.
    fn put_next<W: Outlet>(&mut self, out: &mut W, value: &Value) -> Result<(), Fault>
        ensures ok { OnOk result (Took W.took W.written out.old out.new
            (adds self.old.progress value.now)) }
        ensures after { OnOk result (self.new
            ≡ record { progress = after self.old.progress value.now; failed = self.old.failed }) }
        ensures in_range { OnOk result
            (length (names_after self.old.progress.names value.now) ≤ suc greatest_id) }
        ensures kept { OnOk result (IsKept value.now) }
        ensures front { OnErr result (TookFront W.took W.written out.old out.new
            (adds self.old.progress value.now)) }
        ensures unwritten { IfErr result (λ fault. fault ≢ faults.Write → out.new ≡ out.old) }
        ensures cause { IfErr result (IsWritingFault (names_after self.old.progress.names value.now)
            (W.has_failed out.new)) }
    {
        self.visitor.go_on();
        if !tell(value, &mut self.visitor) {
            return Err(Fault::Memory);
        }
        if self.visitor.needs_large_id() {
            return Err(Fault::TooLarge);
        }
        if !self.visitor.ended() {
            return Err(Fault::Memory);
        }
        write_whole(out, self.visitor.octets())
    }
}

/// Ends a binary document: writes the version marker where no value was written, and makes the
/// device pass on all that it took.
///
/// `Write` where the device failed.
pub fn finish_document<W: Outlet>(out: &mut W, begun: bool) -> Result<(), Fault>
    ensures ok { OnOk result (Took W.took W.written out.old out.new (opening begun)) }
    ensures passed_on { OnOk result (W.passed out.new ≡ W.written out.new) }
    ensures no_write_failed { OnOk result (W.has_failed out.new ≡ false) }
    ensures front { OnErr result (TookFront W.took W.written out.old out.new (opening begun)) }
    ensures cause { IfErr result (λ fault. (fault ≡ faults.Write) × (W.has_failed out.new ≡ true)) }
{
    if begun {
        return flushed(out);
    }
    write_whole(out, &MARKER)?;
    flushed(out)
}

// Appends what stands before a value: the marker where none is out, and the table of the names from
// an id on where there are any. The only fault is `Memory`.
pub(crate) fn put_front<S: BuildHasher + Drop>(
    alloc: Global,
    names: &Names<S>,
    known: usize,
    begun: bool,
    front: &mut Vec<u8>,
) -> Result<(), Fault>
    ensures ok { OnOk result (front.new.items ≡
        front.old.items ++ (opening begun ++ table_from known names.now)) }
    ensures memory { IsOkUnless result faults.Memory }
{
    let count = names.len();
    if !begun {
        front.extend_from_slice(&MARKER)?;
    }
    if count > known {
        put_table(alloc, names, known, front)?;
    }
    Ok(())
}
