//! Devices over readers and writers that fail, and the messages of faults.
use crate::answers::same;
use ion_devices::{FrailReader, FrailWriter, NEVER};
use ion_symtab::{Failed, Fault, FromRead, Inlet, Outlet, ToWrite, flushed, write_whole};
use std::alloc::{AllocError, Global};
use std::io;
use std::process::Abort;
use std::test::Fail;

/// What two reads answer, the first octet of their piece then, and whether the reader has failed.
type Reads = ([Result<usize, Failed>; 2], u8, bool);

/// Reads twice.
fn two_reads(reader: &mut FromRead<FrailReader<'_>>) -> Reads {
    let mut piece = [0u8; 8];
    let read = [reader.read(&mut piece), reader.read(&mut piece)];
    (read, piece[0], reader.failed())
}

/// Two reads of a reader that fails at the call behind them with this kind, two more, and how many
/// calls that were.
fn fails_once(kind: io::ErrorKind) -> (Reads, Reads, u64) {
    let mut failing = FrailReader::new(b"abc", 1, 1).failing(2);
    failing.kind = kind;
    let mut reader = FromRead::new(failing);
    let going = two_reads(&mut reader);
    let ended = two_reads(&mut reader);
    (going, ended, reader.calls())
}

#[test]
fn read_fails_once(rt: HostRuntime) {
    for kind in &[io::ErrorKind::Interrupted, io::ErrorKind::Other] {
        let (going, (read, _, failed), calls) = fails_once(*kind);
        same(&rt, *kind, going, ([Ok(1), Ok(1)], b'b', false));
        let ended = (read, failed, calls);
        same(&rt, *kind, ended, ([Err(Failed), Err(Failed)], true, 4));
    }
}

/// A read, and the piece behind it.
type Read = (Result<usize, Failed>, [u8; 3]);

/// Two reads, two that give nothing, and how often the reader was called and whether it has failed.
fn reads_to_the_end(octets: &[u8]) -> (Read, Read, [Result<usize, Failed>; 2], (u64, bool)) {
    let mut reader = FromRead::new(octets);
    let mut piece = [0u8; 3];
    let three = (reader.read(&mut piece), piece);
    let two = (reader.read(&mut piece), piece);
    let none = [reader.read(&mut piece[..0]), reader.read(&mut piece)];
    (three, two, none, (reader.calls(), reader.failed()))
}

#[test]
fn read_to_the_end(rt: HostRuntime) {
    let (three, (two, piece), none, ended) = reads_to_the_end(b"abcde");
    same(&rt, "three", three, (Ok(3), *b"abc"));
    same(&rt, "two", (two, piece[0], piece[1]), (Ok(2), b'd', b'e'));
    same(&rt, "none", none, [Ok(0), Ok(0)]);
    same(&rt, "ended", ended, (4, false));
}

/// What a write of `abcde` and a flush behind it answer, and whether the writer has failed.
type Written = (Result<(), Fault>, Result<(), Fault>, bool);

/// Writes `abcde` two octets a call and flushes, where the call with this index fails; `taken` gets
/// the octets.
fn write_and_flush(fails_at: u64, taken: &mut Vec<u8>) -> Written {
    let mut writer = ToWrite::new(FrailWriter::new(taken, 2, fails_at));
    let written = write_whole(&mut writer, b"abcde");
    let passed_on = flushed(&mut writer);
    (written, passed_on, writer.failed())
}

/// Which call fails, what was taken before, and what is answered.
static WRITTEN: [(u64, &[u8], Written); 5] = [
    (0, b"", (Err(Fault::Write), Err(Fault::Write), true)),
    (1, b"ab", (Err(Fault::Write), Err(Fault::Write), true)),
    (2, b"abcd", (Err(Fault::Write), Err(Fault::Write), true)),
    (3, b"abcde", (Ok(()), Err(Fault::Write), true)),
    (4, b"abcde", (Ok(()), Ok(()), false)),
];

/// Each write of three, and then the flush, fails; what was taken before is a front of the text.
#[test]
fn write_fails_once(rt: HostRuntime) {
    for (fails_at, front, wanted) in &WRITTEN {
        let mut taken = Vec::new(rt.alloc());
        let found = write_and_flush(*fails_at, &mut taken);
        same(&rt, *fails_at, found, *wanted);
        same(&rt, *fails_at, taken.as_slice(), *front);
        drop(taken);
    }
}

/// What a write of no octet and one of an octet answer, each with whether the writer has failed
/// then, and a flush.
type Takes = (
    (Result<usize, Failed>, bool),
    (Result<usize, Failed>, Result<(), Failed>, bool),
);

/// Writes to a writer that takes no octet.
fn write_nothing(taken: &mut Vec<u8>) -> Takes {
    let mut writer = ToWrite::new(FrailWriter::new(taken, 0, NEVER));
    let nothing = (writer.write(b""), writer.failed());
    let refused = (writer.write(b"a"), writer.flush(), writer.failed());
    (nothing, refused)
}

#[test]
fn write_takes_nothing(rt: HostRuntime) {
    let mut taken = Vec::new(rt.alloc());
    let found = write_nothing(&mut taken);
    drop(taken);
    let refused = (Err(Failed), Err(Failed), true);
    same(&rt, "writes", found, ((Ok(0), false), refused));
}

#[test]
fn writer_comes_back(rt: HostRuntime) {
    let mut writer = ToWrite::new(Vec::new(rt.alloc()));
    let written = write_whole(&mut writer, b"abc");
    let inner = writer.into_inner();
    same(&rt, "written", written, Ok(()));
    same(&rt, "inner", inner.as_slice(), b"abc");
    drop(inner);
}

static MESSAGES: [(Fault, &str); 6] = [
    (Fault::Memory, "Memory"),
    (Fault::Read, "Read"),
    (Fault::Write, "Write"),
    (Fault::TooManyReads, "TooManyReads"),
    (Fault::TooLarge, "TooLarge"),
    (Fault::Open, "Open"),
];

/// The message of a fault is this word.
fn says(rt: &impl Abort, alloc: Global, fault: Fault, word: &str) -> Result<(), AllocError> {
    let message = format!(in alloc; "{fault}")?;
    same(rt, fault, message.as_str(), word);
    drop(message);
    Ok(())
}

#[test]
fn messages(rt: HostRuntime) -> Result<(), Fail> {
    for (fault, word) in &MESSAGES {
        says(&rt, rt.alloc(), *fault, *word)?;
    }
    Ok(())
}
