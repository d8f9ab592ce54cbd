//! The calls of `ion_docs` over devices that fail once and then would go on, and with reads beyond
//! what may be. `M` in a comment stands for the version marker `E0 01 00 EA`.
use crate::answers::same;
use ion_devices::{FrailReader, NEVER};
use ion_docs::{Side, Target, Verdict, check, compare, convert, load_catalog, read_document, show};
use ion_model::{Refusal, Value};
use ion_symtab::{Catalog, Fault, FromRead, Inlet, Limits, ToWrite};
use std::alloc::Global;
use std::io;
use std::io::{ErrorKind, Read};

/// The octets, so many a call; the call with this index fails.
fn in_pieces(octets: &[u8], size: usize, fails_at: u64) -> FromRead<FrailReader<'_>> {
    FromRead::new(FrailReader::new(octets, size, size).failing(fails_at))
}

/// A reader that never ends: these octets, then one again and again, one octet a call.
#[derive(Drop)]
struct Endless {
    front: &'static [u8],
    then: u8,
    calls: u64,
}

impl Read for Endless {
    fn read(&mut self, buf: &mut [u8]) -> io::Result<usize> {
        let octet = match self.front.get(self.calls as usize) {
            Some(octet) => *octet,
            None => self.then,
        };
        self.calls = self.calls.saturating_add(1);
        match buf.first_mut() {
            None => Ok(0),
            Some(place) => {
                *place = octet;
                Ok(1)
            }
        }
    }
}

/// Octets in memory, of which no call may ask for more than 4096.
#[derive(Drop)]
struct Narrow {
    octets: &'static [u8],
}

impl Read for Narrow {
    fn read(&mut self, buf: &mut [u8]) -> io::Result<usize> {
        if buf.len() > 4096 {
            return Err(io::Error::from(ErrorKind::InvalidInput));
        }
        self.octets.read(buf)
    }
}

/// What a call over one document answers: how many values it has, or a refusal.
type Answer = Result<Result<u64, Refusal>, Fault>;

/// A call over one document.
#[derive(Clone, Copy, Debug)]
enum Call {
    Check,
    Show,
    ToText,
    ToBinary,
    Values,
    Load,
}

static CALLS: [Call; 6] = [
    Call::Check,
    Call::Show,
    Call::ToText,
    Call::ToBinary,
    Call::Values,
    Call::Load,
];

/// What a call answers of the octets of a reader, and how many reads it made.
fn called<R: Read + Drop>(
    alloc: Global,
    call: Call,
    mut reader: FromRead<R>,
    limits: Limits,
) -> (Answer, u64) {
    let catalog = Catalog::new(alloc);
    let mut writer = ToWrite::new(Vec::new(alloc));
    let (r, w, c) = (&mut reader, &mut writer, &catalog);
    let answer = match call {
        Call::Check => check(alloc, r, c, limits),
        Call::Show => show(alloc, r, w, c, limits),
        Call::ToText => convert(alloc, r, w, Target::Text, c, limits),
        Call::ToBinary => convert(alloc, r, w, Target::Binary, c, limits),
        Call::Values => counted(read_document(alloc, r, c, limits)),
        Call::Load => found(load_catalog(alloc, r, limits)),
    };
    drop(writer);
    drop(catalog);
    (answer, reader.calls())
}

/// How many values were read.
fn counted(answer: Result<Result<Vec<Value>, Refusal>, Fault>) -> Answer {
    match answer? {
        Ok(values) => {
            let count = values.len() as u64;
            drop(values);
            Ok(Ok(count))
        }
        Err(refusal) => Ok(Err(refusal)),
    }
}

/// How many tables t 1 were read.
fn found(answer: Result<Result<Catalog, Refusal>, Fault>) -> Answer {
    match answer? {
        Ok(catalog) => {
            let count = u64::from(catalog.find("t", 1).is_some());
            drop(catalog);
            Ok(Ok(count))
        }
        Err(refusal) => Ok(Err(refusal)),
    }
}

/// A document of no values, of two whole pieces and a part of one.
static BLANKS: [u8; 10000] = [b' '; 10000];

/// No call of a device asks for more than 4096 octets, and each piece is asked for by itself.
#[test]
fn pieces_are_short(rt: HostRuntime) {
    for call in &CALLS {
        let octets = BLANKS.as_slice();
        let reader = FromRead::new(Narrow { octets });
        let found = called(rt.alloc(), *call, reader, Limits::usual());
        same(&rt, *call, found, (Ok(Ok(0)), 4));
    }
}

/// `$ion_shared_symbol_table::{name:"t",version:1,symbols:["x"]}` in binary, of 19 reads: the
/// octets and the end.
const TABLE: &[u8] = b"\xE0\x01\x00\xEA\xED\x81\x89\xDA\x84\x81\x74\x85\x21\x01\x87\xB2\x81\x78";

/// Each read in single octets fails, and the one that answers the end.
#[test]
fn a_read_fails(rt: HostRuntime) {
    for fails_at in 0..20 {
        let wanted = if fails_at < 19 {
            Err(Fault::Read)
        } else {
            Ok(Ok(1))
        };
        for call in &CALLS {
            let reader = in_pieces(TABLE, 1, fails_at);
            let (found, _) = called(rt.alloc(), *call, reader, Limits::usual());
            same(&rt, (*call, fails_at), found, wanted);
        }
    }
}

/// The usual limits, but of so many reads.
fn within(reads: u64) -> Limits {
    let usual = Limits::usual();
    usual.with_reads(reads).unwrap_or(usual)
}

/// Octets, so many reads, and what each call answers within them.
static WITHIN: [(&[u8], u64, Answer); 5] = [
    (b"1 2", 2, Err(Fault::TooManyReads)),
    (b"1 2", 3, Err(Fault::TooManyReads)),
    (b"1 2", 4, Ok(Ok(2))),
    // M `20 20`
    (b"\xE0\x01\x00\xEA\x20\x20", 6, Err(Fault::TooManyReads)),
    (b"\xE0\x01\x00\xEA\x20\x20", 7, Ok(Ok(2))),
];

/// The octets and the end are a read each.
#[test]
fn reads_are_limited(rt: HostRuntime) {
    for (octets, reads, wanted) in &WITHIN {
        for call in &CALLS[..5] {
            let reader = in_pieces(octets, 1, NEVER);
            let (found, _) = called(rt.alloc(), *call, reader, within(*reads));
            same(&rt, (*call, *octets, *reads), found, *wanted);
        }
    }
    for (reads, wanted) in [(18, Err(Fault::TooManyReads)), (19, Ok(Ok(1)))] {
        let reader = in_pieces(TABLE, 1, NEVER);
        let (found, _) = called(rt.alloc(), Call::Load, reader, within(reads));
        same(&rt, reads, found, wanted);
    }
}

/// What a reader that never ends begins with, and the octet that it goes on with: spaces, and
/// behind the marker pads of one octet.
static ENDLESS: [(&[u8], u8); 2] = [(b"", b' '), (b"\xE0\x01\x00\xEA", 0)];

#[test]
fn endless_reads_are_limited(rt: HostRuntime) {
    for (front, then) in &ENDLESS {
        let reader = FromRead::new(Endless {
            front: *front,
            then: *then,
            calls: 0,
        });
        let found = called(rt.alloc(), Call::Check, reader, within(1000));
        same(&rt, *then, found, (Err(Fault::TooManyReads), 1000));
    }
}

/// How many values two documents have, where they are equivalent, or at which octet the left one is
/// refused, where it is; or a fault.
type Compared = Result<(Option<u64>, Option<u64>), Fault>;

fn brief(verdict: &Verdict) -> (Option<u64>, Option<u64>) {
    match verdict {
        Verdict::Equivalent { values } => (Some(*values), None),
        Verdict::Refused {
            side: Side::Left,
            refusal,
        } => (None, Some(refusal.offset)),
        _ => (None, None),
    }
}

/// What two documents are to each other, so many octets a call, where of each the read with this
/// index fails; and how often each was read.
fn compared(
    alloc: Global,
    documents: [&[u8]; 2],
    size: usize,
    fail_at: [u64; 2],
    limits: Limits,
) -> (Compared, [u64; 2]) {
    let catalog = Catalog::new(alloc);
    let mut left = in_pieces(documents[0], size, fail_at[0]);
    let mut right = in_pieces(documents[1], size, fail_at[1]);
    let answer = match compare(alloc, &mut left, &mut right, &catalog, limits) {
        Ok(verdict) => {
            let brief = brief(&verdict);
            drop(verdict);
            Ok(brief)
        }
        Err(fault) => Err(fault),
    };
    drop(catalog);
    (answer, [left.calls(), right.calls()])
}

/// Three values, which are shown by the octets behind them and by the end.
const THREE: &[u8] = b"1 2 3";

/// A string, and behind it an octet that can't stand there.
const CLOSED: &[u8] = b"\"aaaaaaaaaaaaaaaaaaaaaaaa\" ]";

/// The same string, and behind it a list that goes on.
const CUT: &[u8] = b"\"aaaaaaaaaaaaaaaaaaaaaaaa\" [1";

/// Two documents, how many octets a call, which read of each fails, what is answered and how often
/// each was read.
type Turns = ([&'static [u8]; 2], usize, [u64; 2], Compared, [u64; 2]);

static TURNS: [Turns; 6] = [
    ([b"]", THREE], 1, [NEVER, 0], Ok((None, Some(1))), [1, 0]),
    ([b"1", THREE], 1, [NEVER, 0], Err(Fault::Read), [2, 1]),
    ([THREE, THREE], 1, [NEVER, 0], Err(Fault::Read), [2, 1]),
    ([THREE, THREE], 1, [2, NEVER], Err(Fault::Read), [3, 2]),
    ([CLOSED, CUT], 64, [NEVER, 1], Ok((None, Some(28))), [1, 1]),
    ([CUT, CUT], 64, [NEVER, 1], Ok((None, Some(29))), [2, 1]),
];

/// One value of each side is read in turn, the left one first; where that is refused, the right
/// isn't read, also where octets of it are left.
#[test]
fn sides_are_read_in_turn(rt: HostRuntime) {
    for (at, (documents, size, fail_at, wanted, reads)) in TURNS.iter().enumerate() {
        let limits = Limits::usual();
        let found = compared(rt.alloc(), *documents, *size, *fail_at, limits);
        same(&rt, at, found, (*wanted, *reads));
    }
}

/// Two documents, so many reads of each, and what a comparison answers within them.
static BOTH_WITHIN: [([&[u8]; 2], u64, Compared); 6] = [
    ([b"1 2", b"1"], 3, Err(Fault::TooManyReads)),
    ([b"1", b"1 2"], 3, Err(Fault::TooManyReads)),
    ([b"1 2", b"1"], 4, Ok((None, None))),
    ([b"1", b"1 2"], 4, Ok((None, None))),
    ([b"1 2", b"1 2"], 3, Err(Fault::TooManyReads)),
    ([b"1 2", b"1 2"], 4, Ok((Some(2), None))),
];

/// Of either side.
#[test]
fn reads_of_two_are_limited(rt: HostRuntime) {
    for (documents, reads, wanted) in &BOTH_WITHIN {
        let never = [NEVER, NEVER];
        let (found, _) = compared(rt.alloc(), *documents, 1, never, within(*reads));
        same(&rt, (*documents, *reads), found, *wanted);
    }
}
