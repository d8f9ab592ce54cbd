//! What is handed over of values that are told to `BinaryOut`.
use crate::answers::same;
use ion_binary::BinaryOut;
use ion_visiting::{Bracket, Part, Visitor};
use std::test::Fail;

/// Tells a front of a list.
fn begin(out: &mut BinaryOut, text: &str) -> bool {
    out.annotation(Some(text)) && out.open(Bracket::List) && out.part(&Part::Truth(true))
}

/// Tells what is left of it.
fn end(out: &mut BinaryOut) -> bool {
    out.unknown_symbol() && out.close(Bracket::List) && out.ended()
}

/// `name::[true,$0]`, of which no symbol is new.
const NAMED: &[u8] = b"\xE0\x01\x00\xEA\xE5\x81\x84\xB2\x11\x70";

#[test]
fn octets_are_of_values_that_ended(rt: HostRuntime) -> Result<(), Fail> {
    let mut out = BinaryOut::new(rt.alloc())?;
    let told = begin(&mut out, "abc");
    same(&rt, "begun", (told, out.octets()), (true, b""));
    out.forget_begun();
    let told = begin(&mut out, "name") && end(&mut out) && begin(&mut out, "name");
    same(&rt, "ended", (told, out.octets()), (true, NAMED));
    out.forget_octets();
    same(&rt, "handed over", out.octets(), b"");
    let told = end(&mut out);
    same(&rt, "gone on", (told, out.octets()), (true, &NAMED[4..]));
    drop(out);
    Ok(())
}
