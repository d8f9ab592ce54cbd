//! What is handed over of values that are told to `TextOut`, and documents that are told.
use crate::answers::same;
use ion_docs::{in_memory, visit};
use ion_model::{Reason, Refusal};
use ion_symtab::{Catalog, Fault, Limits};
use ion_text_writer::TextOut;
use ion_visiting::{Bracket, Building, Count, Part, Visitor};
use std::alloc::Global;

/// Tells a front of a list.
fn begin(out: &mut TextOut) -> bool {
    out.annotation(Some("a")) && out.open(Bracket::List) && out.part(&Part::Truth(true))
}

/// Tells what is left of it.
fn end(out: &mut TextOut) -> bool {
    out.unknown_symbol() && out.close(Bracket::List) && out.ended()
}

const LINE: &[u8] = b"a::[true,$0]\n";

/// What is handed over of a value that isn't ended, of it behind one that was, and of one that goes
/// on while the lines before it are handed over.
#[test]
fn lines_are_of_values_that_ended(rt: HostRuntime) {
    let mut out = TextOut::new(rt.alloc());
    let told = begin(&mut out);
    same(&rt, "begun", (told, out.lines()), (true, b""));
    let told = end(&mut out) && begin(&mut out);
    same(&rt, "ended", (told, out.lines()), (true, LINE));
    out.forget_lines();
    same(&rt, "handed over", out.lines(), b"");
    let told = end(&mut out);
    same(&rt, "gone on", (told, out.lines()), (true, LINE));
    drop(out);
}

/// What a document is answered that is told to a visitor.
fn told<V: Visitor>(
    alloc: Global,
    document: &[u8],
    visitor: &mut V,
) -> Result<Result<u64, Refusal>, Fault> {
    let catalog = Catalog::new(alloc);
    let limits = Limits::usual();
    let answer = visit(alloc, &mut in_memory(document), &catalog, limits, visitor);
    drop(catalog);
    answer
}

/// A document is told to whatever visitor, or as far as the octet that is refused; one that can't
/// go on, as in a struct without a name, ends it as want of memory does.
#[test]
fn documents_are_told(rt: HostRuntime) {
    let alloc = rt.alloc();
    let mut out = TextOut::new(alloc);
    let answer = told(alloc, b"{ a : 1 } b::[2]", &mut out);
    same(&rt, "answer", answer, Ok(Ok(2)));
    same(&rt, "told", out.lines(), b"{a:1}\nb::[2]\n");
    drop(out);
    let (offset, reason) = (3, Reason::Unexpected);
    let refused = told(alloc, b"1 ]", &mut Count::new());
    same(&rt, "refused", refused, Ok(Err(Refusal { offset, reason })));
    let mut building = Building::new(alloc);
    let begun = building.open(Bracket::Fields) && building.name(Some("a"));
    let stopped = told(alloc, b"1 [2] ]", &mut building);
    drop(building);
    same(&rt, "stopped", (begun, stopped), (true, Err(Fault::Memory)));
}
