//! The writer of text documents.
ghost use Rattle.std.specs.Prelude.{◌≡◌, ◌+◌, ◌<◌, ◌++◌, Some, None, Err, true, false, [], codes, OnOk, OnErr, IfErr};
ghost use Rattle.ion_text_writer.specs.Names.{Fault as AnyFault, IsKept, Took, adds};
ghost use Rattle.ion_symtab.specs.Took.{TookFront};
ghost use Rattle.ion_symtab.specs.declared.fault.Fault.TheVariants as faults;
ghost use Rattle.ion_text_writer.specs.Writing.{IsWritingFault};

use crate::spelled::put_value;
use ion_model::Value;
use ion_symtab::{Fault, Outlet, flushed, write_whole};
use std::alloc::Global;
use std::fmt::{self, Debug, Formatter};
use std::marker::Model;

/// Writes values, one after another, as one text document: each value on a line of its own (Ion
/// 1.0, "Ion Text Encoding"). Contracts see the fault that each call answers, if there is one.
#[derive(Drop)]
pub struct TextWriter {
    alloc: Global,
    /// The line that was written last; the next one takes its memory.
    line: Vec<u8>,
    /// The fault that each call answers from now on.
    failed: Option<Fault>,
}

impl Debug for TextWriter {
    fn fmt<W: fmt::Write>(&self, f: &mut Formatter<W>) -> fmt::Result {
        f.debug_struct("TextWriter").finish_non_exhaustive()
    }
}

impl Model for TextWriter {
    ghost use Rattle.std.specs.Prelude.{Option};
    ghost use Rattle.ion_symtab.specs.declared.fault.Fault.{Fault};

    ghost Value = { Option Fault };

    ghost view = { λ w. w.failed };
}

impl TextWriter {
    /// A writer of a document of which nothing is written yet. It takes no memory.
    pub fn new(alloc: Global) -> TextWriter
        ensures { result ≡ None }
    {
        TextWriter {
            alloc,
            line: Vec::new(alloc),
            failed: None,
        }
    }

    /// Writes a value and LF, in one write where the device takes all octets at once. A local
    /// symbol table isn't a value: it would be written as it stands and read as a table. What is
    /// written is a value that the types keep.
    ///
    /// `Memory`, on which nothing went out; `Write` where the device failed, on which some first
    /// octets of the line may be out. After a fault each later call answers the same.
    pub fn put<W: Outlet>(&mut self, out: &mut W, value: &Value) -> Result<(), Fault>
        ensures ok { OnOk result (Took W.took W.written out.old out.new (adds value.now)) }
        ensures kept { OnOk result (IsKept value.now) }
        ensures after { OnOk result (self.new ≡ None) }
        ensures front { OnErr result (TookFront W.took W.written out.old out.new (adds value.now)) }
        ensures memory { IfErr result (λ fault. fault ≡ faults.Memory → out.new ≡ out.old) }
        ensures cause { self.old ≡ None → IfErr result (IsWritingFault (W.has_failed out.new)) }
        ensures again { (fault : AnyFault) → self.old ≡ Some fault
            → (result ≡ Err fault) × (out.new ≡ out.old) }
        ensures failed { IfErr result (λ fault. self.new ≡ Some fault) }
    {
        if let Some(fault) = self.failed {
            return Err(fault);
        }
        let answer = self.put_next(out, value);
        self.remember_fault(answer)
    }

    /// Ends the document behind the last line, and makes the device pass on all that it took.
    ///
    /// `Write` where the device failed; the fault of an earlier call, where there was one.
    pub fn finish<W: Outlet>(self, out: &mut W) -> Result<(), Fault>
        ensures kept { Took W.took W.written out.old out.new [] }
        ensures passed_on { OnOk result (W.passed out.new ≡ W.written out.new) }
        ensures no_write_failed { OnOk result (W.has_failed out.new ≡ false) }
        ensures cause { self ≡ None
            → IfErr result (λ fault. (fault ≡ faults.Write) × (W.has_failed out.new ≡ true)) }
        ensures again { (fault : AnyFault) → self ≡ Some fault
            → (result ≡ Err fault) × (out.new ≡ out.old) }
    {
        if let Some(fault) = self.failed {
            return Err(fault);
        }
        flushed(out)
    }

    // Keeps a fault for the later calls.
    fn remember_fault(&mut self, answer: Result<(), Fault>) -> Result<(), Fault>
        ensures answer { result ≡ answer }
        ensures failed { IfErr result (λ fault. self.new ≡ Some fault) }
        ensures kept { OnOk result (self.new ≡ self.old) }
    {
        if let Err(fault) = answer {
            self.failed = Some(fault);
        }
        answer
    }

    // The same for a writer that has answered no fault.
    fn put_next<W: Outlet>(&mut self, out: &mut W, value: &Value) -> Result<(), Fault>
        ensures ok { OnOk result (Took W.took W.written out.old out.new (adds value.now)) }
        ensures kept { OnOk result (IsKept value.now) }
        ensures same { self.new ≡ self.old }
        ensures front { OnErr result (TookFront W.took W.written out.old out.new (adds value.now)) }
        ensures memory { IfErr result (λ fault. fault ≡ faults.Memory → out.new ≡ out.old) }
        ensures cause { IfErr result (IsWritingFault (W.has_failed out.new)) }
    {
        self.line.clear();
        put_value(self.alloc, value, &mut self.line)?;
        write_line(out, &mut self.line)
    }
}

// Ends the line, and writes it in one write where the device takes all octets at once.
fn write_line<W: Outlet>(out: &mut W, line: &mut Vec<u8>) -> Result<(), Fault>
    ensures ok { OnOk result (Took W.took W.written out.old out.new
        (line.old.items ++ codes "\n")) }
    ensures front { OnErr result (TookFront W.took W.written out.old out.new
        (line.old.items ++ codes "\n")) }
    ensures memory { IfErr result (λ fault. fault ≡ faults.Memory → out.new ≡ out.old) }
    ensures cause { IfErr result (IsWritingFault (W.has_failed out.new)) }
{
    line.push(b'\n')?;
    write_whole(out, line)
}
