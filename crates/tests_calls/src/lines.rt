//! Which names a command opens, and what it answers where memory is wanted, over documents in
//! memory.
use crate::answers::same;
use crate::wanted::Row;
use ion_run::{NameHistory, Sources, run};
use ion_symtab::{Fault, FromRead, ToWrite};
use std::alloc::{AllocError, Global};
use std::io;
use std::process::Abort;
use std::test::Fail;

static FILES: [(&str, &[u8]); 10] = [
    ("-", b""),
    ("list", b"\xE0\x01\x00\xEA\xB3\x21\x05\x11"),
    ("zero", b"\xE0\x01\x00\xEA\x20"),
    ("zeros", b"\xE0\x01\x00\xEA\x20\x20"),
    ("null", b"\xE0\x01\x00\xEA\x21\x05\x4F"),
    ("bad", b"\xE0\x01\x00\xEA\x13"),
    ("y", b"y"),
    // imports t 2, and the second symbol
    (
        "another",
        b"$ion_symbol_table::{imports:[{name:\"t\",version:2,max_id:2}]} $11",
    ),
    // the shared table t 1 of x
    ("table", b"$9::{name:\"t\",version:1,symbols:[\"x\"]}"),
    // t 3 of x, y and z
    (
        "tables",
        b"$9::{name:\"t\",version:3,symbols:[\"x\",\"y\",\"z\"]}",
    ),
];

/// The documents by name, given whole; each name that is opened is written down, with a space
/// behind it.
#[derive(Drop)]
struct Shelf {
    names: String,
    opened: NameHistory,
}

impl Shelf {
    fn new(alloc: Global) -> Shelf {
        Shelf {
            names: String::new(alloc),
            opened: NameHistory::new(),
        }
    }
}

impl Sources for Shelf {
    ghost use Rattle.std.specs.Prelude.{⊤};

    type Input = FromRead<&'static [u8]>;

    ghost gives = { λ _ _ _. ⊤ };

    ghost refuses = { λ _ _. ⊤ };

    ghost opened = { λ shelf. shelf.opened };

    fn source(&mut self, name: &str) -> Result<FromRead<&'static [u8]>, Fault> {
        self.opened.add(name);
        self.names.push_str(name)?;
        self.names.push(' ')?;
        match FILES.iter().find(|file| file.0 == name) {
            Some(file) => Ok(FromRead::new(file.1)),
            None => Err(Fault::Open),
        }
    }
}

/// Words, and the names that are opened for them, each with a space behind it.
static OPENED: [(&[&str], &str); 8] = [
    (&["frob"], ""),
    (&["check", "list"], "list "),
    (
        &["convert", "null", "--to", "text", "--catalog", "table"],
        "table null ",
    ),
    (
        &["compare", "list", "-", "--catalog", "table"],
        "table list - ",
    ),
    (&["compare", "list", "list"], "list list "),
    // a left one that isn't there keeps the right one closed, and a refused catalog both
    (&["compare", "absent", "list"], "absent "),
    (&["compare", "bad", "absent"], "bad absent "),
    (&["compare", "list", "zero", "--catalog", "bad"], "bad "),
];

/// Runs the words over the documents, and compares the names that were opened.
fn opens_so(rt: &impl Abort, alloc: Global, words: &[&str], wanted: &str) {
    let mut shelf = Shelf::new(alloc);
    let mut out = ToWrite::new(Vec::new(alloc));
    let mut err = ToWrite::new(Vec::new(alloc));
    run(alloc, words, &mut shelf, &mut out, &mut err);
    same(rt, words, shelf.names.as_str(), wanted);
}

#[test]
fn names_are_opened_in_order(rt: HostRuntime) {
    for (words, names) in &OPENED {
        opens_so(&rt, rt.alloc(), words, names);
    }
}

static ROWS: [Row; 5] = [
    Row {
        words: &["show", "null"],
        out: "1 int depth 0 nodes 1\n2 float depth 0 nodes 1\naccepted 2\n",
        err: "",
        status: 0,
    },
    Row {
        words: &["convert", "null", "--to", "text"],
        out: "5\nnull.float\n",
        err: "",
        status: 0,
    },
    Row {
        words: &["compare", "zeros", "zero"],
        out: "different 2\n",
        err: "",
        status: 1,
    },
    Row {
        words: &["compare", "another", "y", "--catalog", "tables"],
        out: "equivalent 1\n",
        err: "",
        status: 0,
    },
    Row {
        words: &["check", "bad"],
        out: "",
        err: "refused 5 Malformed\n",
        status: 2,
    },
];

/// The status of a row, and how much goes to these places for the output and the errors. Takes no
/// memory of its own, but for the names.
fn run_in_place(
    alloc: Global,
    row: &Row,
    out: &mut [u8; 64],
    err: &mut [u8; 256],
) -> (u8, u64, u64) {
    let mut out = ToWrite::new(io::Cursor::new(out.as_mut_slice()));
    let mut err = ToWrite::new(io::Cursor::new(err.as_mut_slice()));
    let mut shelf = Shelf::new(alloc);
    let status = run(alloc, row.words, &mut shelf, &mut out, &mut err);
    drop(shelf);
    let (out, err) = (out.into_inner(), err.into_inner());
    (status, out.position(), err.position())
}

/// The status of a row, whose lines are its own; or those of want of memory, behind a front of its
/// output.
fn status_of(rt: &impl Abort, alloc: Global, row: &Row) -> u8 {
    let mut out_room = [0u8; 64];
    let mut err_room = [0u8; 256];
    let (status, out, err) = run_in_place(alloc, row, &mut out_room, &mut err_room);
    let out = out_room.get(..out as usize).unwrap_or(&[]);
    let err = err_room.get(..err as usize).unwrap_or(&[]);
    let own = row.wanted();
    let wanted = if status == own.status {
        (status, own.out, own.err.as_bytes())
    } else {
        let front = own.out.get(..out.len()).unwrap_or(&[]);
        (4, front, b"fault Memory\n".as_slice())
    };
    same(rt, row.words, (status, out, err), wanted);
    status
}
/// Where a growth is refused, each row gives its own answer, or want of memory. Here none is, but
/// by `rt try --test --fail-alloc N`.
#[test]
fn growths(rt: HostRuntime) {
    let alloc = rt.alloc();
    for row in &ROWS {
        status_of(&rt, alloc, row);
    }
}

/// Takes all memory that the process can get, in blocks of falling size.
fn take_all(alloc: Global, blocks: &mut Vec<Vec<u8>>) -> Result<(), AllocError> {
    let mut size: usize = 1 << 46;
    for _ in 0..1000000u32 {
        if size < 16 {
            break;
        }
        match Vec::with_capacity(alloc, size) {
            Ok(block) => blocks.push(block)?,
            Err(_) => size /= 2,
        }
    }
    Ok(())
}

/// Gives back one block more from one run of the row to the next, until one gets memory enough; how
/// many got too little.
fn refusals(rt: &impl Abort, alloc: Global, row: &Row, blocks: &mut Vec<Vec<u8>>) -> u32 {
    let mut refused = 0u32;
    for _ in 0..100000u32 {
        if status_of(rt, alloc, row) == row.status {
            break;
        }
        refused = refused.saturating_add(1);
        drop(blocks.pop());
    }
    refused
}

/// With all memory taken, and then given back.
#[test]
fn starved(rt: HostRuntime) -> Result<(), Fail> {
    let alloc = rt.alloc();
    let mut blocks = Vec::with_capacity(alloc, 1 << 20)?;
    let taken = take_all(alloc, &mut blocks);
    let refused = refusals(&rt, alloc, &ROWS[1], &mut blocks);
    drop(blocks);
    assert!(rt; 0 < refused && refused < 100000);
    Ok(taken?)
}
