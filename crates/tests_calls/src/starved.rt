//! Readers and writers that get no memory once: each gives its own answer or want of memory, and
//! then that again. `tests/starved.py` refuses each growth in turn; elsewhere none is refused.
mod tables;
mod values;

use crate::answers::{same, same_or_starved};
use crate::steps::{ends, gives_value};
use ion_binary::{BinaryReader, BinaryWriter};
use ion_model::{Reason, Refusal, Value};
use ion_symtab::{Catalog, Fault, Limits, ToWrite};
use ion_text::TextReader;
use ion_text_writer::TextWriter;
use std::alloc::Global;
use std::io;
use std::io::Write;
use std::process::Abort;
use tables::value;

/// A device that counts the octets that it takes, and so takes no memory.
#[derive(Drop)]
struct Counting {
    taken: usize,
}

impl Write for Counting {
    fn write(&mut self, buf: &[u8]) -> io::Result<usize> {
        self.taken = self.taken.saturating_add(buf.len());
        Ok(buf.len())
    }

    fn flush(&mut self) -> io::Result<()> {
        Ok(())
    }
}

/// The answer to a step that gets no memory: no octet was used.
const STARVED: Refusal = Refusal {
    offset: 0,
    reason: Reason::Memory,
};

/// Whether a step over a text gives a value.
fn read_text(alloc: Global, catalog: &Catalog) -> Result<bool, Refusal> {
    match TextReader::new(alloc, catalog, Limits::usual()) {
        Ok(mut reader) => {
            let step = gives_value(&mut reader, TEXT);
            drop(reader);
            step
        }
        Err(reason) => Err(Refusal { offset: 0, reason }),
    }
}

const TEXT: &[u8] = b"a::{b:[\"c\",1.5,2007T,d],e:{{Zg==}}} ";

/// A table of the symbol `a`, and `[a,"$ion"]`.
const BINARY: [u8; 20] = [
    0xE0, 1, 0, 0xEA, 0xE7, 0x81, 0x83, 0xD4, 0x87, 0xB2, 0x81, b'a', 0xB7, 0x71, 10, 0x84, b'$',
    b'i', b'o', b'n',
];

/// Whether a step gives a value, and what the end refuses.
type Binary = (Result<bool, Refusal>, Option<Refusal>);

/// Reads the binary document.
fn read_binary(alloc: Global, catalog: &Catalog) -> Result<Binary, Reason> {
    let mut reader = BinaryReader::new(alloc, catalog, Limits::usual())?;
    let step = gives_value(&mut reader, &BINARY);
    let end = ends(reader).err();
    Ok((step, end))
}

/// A value; or want of memory, which the end answers again.
fn gives(rt: &impl Abort, read: Result<Binary, Reason>) {
    match read {
        Ok((step, end)) => {
            same_or_starved(rt, "binary", step, true, STARVED);
            same(rt, "end", end, step.err());
        }
        Err(reason) => same(rt, "binary", reason, Reason::Memory),
    }
}

#[test]
fn starved_readers(rt: HostRuntime) {
    let catalog = Catalog::new(rt.alloc());
    let text = read_text(rt.alloc(), &catalog);
    let binary = read_binary(rt.alloc(), &catalog);
    drop(catalog);
    same_or_starved(&rt, "text", text, true, STARVED);
    gives(&rt, binary);
}

/// What a put answers, what it answers again if it was refused, and what the end answers.
type Puts = [Result<(), Fault>; 3];

/// Puts a value as text; whether octets went out, too.
fn puts_text(alloc: Global, value: &Value) -> (Puts, bool) {
    let mut out = ToWrite::new(Counting { taken: 0 });
    let mut writer = TextWriter::new(alloc);
    let put = writer.put(&mut out, value);
    let again = match put {
        Ok(()) => put,
        Err(_) => writer.put(&mut out, value),
    };
    let end = writer.finish(&mut out);
    ([put, again, end], out.into_inner().taken > 0)
}

/// Puts a value in binary.
fn puts_binary(alloc: Global, value: &Value) -> Result<Puts, Fault> {
    let mut writer = BinaryWriter::new(alloc)?;
    let mut out = ToWrite::new(Counting { taken: 0 });
    let put = writer.put(&mut out, value);
    let again = match put {
        Ok(()) => put,
        Err(_) => writer.put(&mut out, value),
    };
    Ok([put, again, writer.finish(&mut out)])
}

/// A put is done or wants memory, and each later call answers the same.
fn stays(rt: &impl Abort, puts: Puts) {
    same_or_starved(rt, "put", puts[0], (), Fault::Memory);
    same(rt, "again", puts, [puts[0]; 3]);
}

/// Without memory nothing goes out as text.
fn puts(rt: &impl Abort, alloc: Global, value: &Value) {
    let (puts, went_out) = puts_text(alloc, value);
    stays(rt, puts);
    same(rt, "octets", went_out, puts[0].is_ok());
    match puts_binary(alloc, value) {
        Ok(puts) => stays(rt, puts),
        Err(fault) => same(rt, "binary", fault, Fault::Memory),
    }
}

#[test]
fn starved_writers(rt: HostRuntime) {
    match value(rt.alloc(), TEXT) {
        Ok(value) => {
            puts(&rt, rt.alloc(), &value);
            drop(value);
        }
        Err(reason) => same(&rt, "value", reason, Reason::Memory),
    }
}
