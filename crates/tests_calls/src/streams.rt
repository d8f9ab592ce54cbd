//! The calls of `ion_docs` over whole documents where memory is wanted: here it isn't, but by
//! `tests/starved.py`. `M` in a comment stands for the version marker `E0 01 00 EA`.
use crate::answers::same_or_starved;
use ion_docs::{Verdict, compare, load_catalog, path_text, read_document};
use ion_model::{Path, Reason};
use ion_symtab::{Catalog, Fault, FromRead, Limits};
use std::alloc::Global;

/// Whether a catalog document has a table t 1, or its refusal.
type Tables = Result<bool, (u64, Reason)>;

/// M and the shared table t 1 of x; two tables in text, of which the second has a field twice, and
/// the same table twice.
static LOADED: [(&[u8], Tables); 3] = [
    (
        b"\xE0\x01\x00\xEA\xED\x81\x89\xDA\x84\x81\x74\x85\x21\x01\x87\xB2\x81\x78",
        Ok(true),
    ),
    (
        b"$9::{name:\"t\",symbols:[\"x\"]} $9::{name:\"u\",name:\"u\"}",
        Err((52, Reason::RepeatedField)),
    ),
    (
        b"$9::{name:\"t\",symbols:[\"x\"]} $9::{name:\"t\",symbols:[\"x\"]}",
        Err((57, Reason::DuplicateTable)),
    ),
];

fn loaded(alloc: Global, octets: &[u8]) -> Result<Tables, Fault> {
    match load_catalog(alloc, &mut FromRead::new(octets), Limits::usual())? {
        Ok(catalog) => {
            let found = catalog.find("t", 1).is_some();
            drop(catalog);
            Ok(Ok(found))
        }
        Err(refusal) => Ok(Err((refusal.offset, refusal.reason))),
    }
}

/// {name:1,version:[1,{imports:2,symbols:3}]}
const LEFT: &[u8] =
    b"\xE0\x01\x00\xEA\xDE\x8E\x84\x21\x01\x85\xB9\x21\x01\xD6\x86\x21\x02\x87\x21\x03";

/// {version:[1,{symbols:4,imports:2}],name:1}
const RIGHT: &[u8] =
    b"\xE0\x01\x00\xEA\xDE\x8E\x85\xB9\x21\x01\xD6\x87\x21\x04\x86\x21\x02\x84\x21\x01";

/// How many values the left document has.
fn read(alloc: Global, catalog: &Catalog) -> Result<Result<usize, (u64, Reason)>, Fault> {
    match read_document(alloc, &mut FromRead::new(LEFT), catalog, Limits::usual())? {
        Ok(values) => {
            let count = values.len();
            drop(values);
            Ok(Ok(count))
        }
        Err(refusal) => Ok(Err((refusal.offset, refusal.reason))),
    }
}

/// Whether this is the path to where the two part.
fn is_the_path(alloc: Global, path: &Path) -> Result<bool, Fault> {
    match path_text(alloc, path) {
        Ok(text) => {
            let is_it = text.as_str() == "version [2] symbols";
            drop(text);
            Ok(is_it)
        }
        Err(Reason::Memory) => Err(Fault::Memory),
        Err(_) => Err(Fault::Open),
    }
}

/// Whether the two documents part at their first value, at the path.
fn parted(alloc: Global, catalog: &Catalog) -> Result<bool, Fault> {
    let mut left = FromRead::new(LEFT);
    let mut right = FromRead::new(RIGHT);
    let verdict = compare(alloc, &mut left, &mut right, catalog, Limits::usual())?;
    let parted = match &verdict {
        Verdict::Different { index: 1, path } => is_the_path(alloc, path),
        _ => Ok(false),
    };
    drop(verdict);
    parted
}

/// Where a growth is refused, each call gives its own answer or want of memory.
#[test]
fn starved_documents(rt: HostRuntime) {
    for (octets, wanted) in &LOADED {
        let found = loaded(rt.alloc(), *octets);
        same_or_starved(&rt, *octets, found, *wanted, Fault::Memory);
    }
    let catalog = Catalog::new(rt.alloc());
    let read = read(rt.alloc(), &catalog);
    let parted = parted(rt.alloc(), &catalog);
    drop(catalog);
    same_or_starved(&rt, "read", read, Ok(1), Fault::Memory);
    same_or_starved(&rt, "parted", parted, true, Fault::Memory);
}
