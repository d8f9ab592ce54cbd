//! The calls of `ion_memory` over documents worked out by hand.
use crate::answers::same;
use ion_docs::{Target, Verdict};
use ion_memory::{
    Ending, Outcome, Whose, Written, check, checked, compare, compared, convert, converted,
    load_catalog, show, shown,
};
use ion_model::{Reason, Refusal};
use ion_symtab::{Catalog, Fault, Limits};
use std::alloc::Global;
use std::process::Abort;

/// Whether the answer and the octets that were written are these.
fn wrote(written: Result<Written, Fault>, answer: Result<u64, Refusal>, octets: &[u8]) -> bool {
    match written {
        Ok(written) => {
            let equal = written.answer == answer && written.octets.as_slice() == octets;
            drop(written);
            equal
        }
        Err(_) => false,
    }
}

/// At which value two documents differ.
fn index_of(verdict: Result<Verdict, Fault>) -> Option<u64> {
    match verdict {
        Ok(Verdict::Different { index, path }) => {
            drop(path);
            Some(index)
        }
        Ok(other) => {
            drop(other);
            None
        }
        Err(_) => None,
    }
}

/// The refusal of `1 ]`.
const CLOSED: Refusal = Refusal {
    offset: 3,
    reason: Reason::Unexpected,
};

#[test]
fn documents_in_memory(rt: HostRuntime) {
    let alloc = rt.alloc();
    let limits = Limits::usual();
    let catalog = Catalog::new(alloc);
    let two = check(alloc, b"1 2", &catalog, limits);
    let closed = check(alloc, b"1 ]", &catalog, limits);
    let lines = show(alloc, b"1", &catalog, limits);
    let list = b"\xE0\x01\x00\xEA\xB2\x21\x05";
    let text = convert(alloc, list, Target::Text, &catalog, limits);
    let parted = compare(alloc, b"1 2", b"1 3", &catalog, limits);
    drop(catalog);
    same(&rt, "check", two, Ok(Ok(2)));
    same(&rt, "check", closed, Ok(Err(CLOSED)));
    let lines = wrote(lines, Ok(1), b"1 int depth 0 nodes 1\naccepted 1\n");
    same(&rt, "show", lines, true);
    same(&rt, "convert", wrote(text, Ok(1), b"[5]\n"), true);
    same(&rt, "compare", index_of(parted), Some(2));
}

/// Whether a document is equivalent to `[1,2] a`, and so many values are in each.
fn agrees(alloc: Global, other: &[u8], values: u64) -> Result<bool, Fault> {
    let catalog = Catalog::new(alloc);
    let verdict = compare(alloc, b"[1,2] a", other, &catalog, Limits::usual());
    drop(catalog);
    let verdict = verdict?;
    let agrees = verdict == Verdict::Equivalent { values };
    drop(verdict);
    Ok(agrees)
}

static VERDICTS: [(&[u8], u64, bool); 4] = [
    (b"[ 1, 2 ] 'a'", 2, true),
    (b"[1,2] a", 1, false),
    (b"[1,3] a", 2, false),
    (b"[1,2] ]", 2, false),
];

#[test]
fn verdicts_are_compared(rt: HostRuntime) {
    for (other, values, wanted) in &VERDICTS {
        let found = agrees(rt.alloc(), other, *values);
        same(&rt, *other, found, Ok(*wanted));
    }
}

/// Whether the octets are refused as a catalog, and where.
fn catalog_refusal(alloc: Global, octets: &[u8]) -> Result<Option<Refusal>, Fault> {
    match load_catalog(alloc, octets, Limits::usual())? {
        Ok(catalog) => {
            drop(catalog);
            Ok(None)
        }
        Err(refusal) => Ok(Some(refusal)),
    }
}

#[test]
fn catalogs_in_memory(rt: HostRuntime) {
    same(&rt, "none", catalog_refusal(rt.alloc(), b""), Ok(None));
    let table = b"$ion_shared_symbol_table::{name:\"t\",version:1,symbols:[\"x\"]}";
    same(&rt, "one", catalog_refusal(rt.alloc(), table), Ok(None));
    let (offset, reason) = (1, Reason::BadTable);
    let bad = catalog_refusal(rt.alloc(), b"1 ");
    same(&rt, "1", bad, Ok(Some(Refusal { offset, reason })));
}

/// An outcome has this ending and this text.
fn ends_so(rt: &impl Abort, place: &str, outcome: Outcome, ending: Ending, text: &[u8]) {
    let found = (outcome.ending, outcome.text.as_slice() == text);
    drop(outcome);
    same(rt, place, found, (ending, true));
}

#[test]
fn outcomes(rt: HostRuntime) {
    let alloc = rt.alloc();
    let one = Ending::Accepted { values: 1 };
    ends_so(&rt, "check", checked(alloc, b"1", b"", 64, 16), one, b"");
    let lines = b"1 int depth 0 nodes 1\naccepted 1\n";
    ends_so(&rt, "show", shown(alloc, b"1", b"", 64, 16), one, lines);
    let text = converted(alloc, b"[1]", Target::Text, b"", 64, 16);
    ends_so(&rt, "convert", text, one, b"[1]\n");
    let parted = compared(alloc, b"{a:1}", b"{a:2}", b"", 64, 16);
    ends_so(&rt, "compare", parted, Ending::Different { index: 1 }, b"a");
    let refused = Ending::Refused {
        whose: Whose::Right,
        refusal: CLOSED,
    };
    let right = compared(alloc, b"1", b"1 ]", b"", 64, 16);
    ends_so(&rt, "refused", right, refused, b"");
    let wrong = checked(alloc, b"1", b"", 129, 16);
    ends_so(&rt, "limits", wrong, Ending::WrongLimits, b"");
}
