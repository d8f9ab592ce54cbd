//! A writer of text over devices that fail once and then would go on, or take nothing.
use crate::answers::same;
use ion_devices::{FrailWriter, NEVER};
use ion_model::Value;
use ion_symtab::{Fault, ToWrite};
use ion_text_writer::TextWriter;
use std::alloc::Global;

/// What a put of 1, one of 2 and the end of a writer of text answer.
type Puts = [Result<(), Fault>; 3];

/// Puts 1 and 2 as text into a device that takes so many octets a call, of which the one with this
/// index fails.
fn put_two(alloc: Global, taken: &mut Vec<u8>, takes: usize, fails_at: u64) -> Puts {
    let out = &mut ToWrite::new(FrailWriter::new(taken, takes, fails_at));
    let (one, two) = (Value::int(alloc, 1), Value::int(alloc, 2));
    let mut writer = TextWriter::new(alloc);
    let puts = [writer.put(out, &one), writer.put(out, &two)];
    drop(one);
    drop(two);
    [puts[0], puts[1], writer.finish(out)]
}

/// Which call fails, what was written before, and what is answered.
static PUTS: [(u64, &[u8], Puts); 6] = [
    (0, b"", [Err(Fault::Write); 3]),
    (1, b"1", [Err(Fault::Write); 3]),
    (2, b"1\n", [Ok(()), Err(Fault::Write), Err(Fault::Write)]),
    (3, b"1\n2", [Ok(()), Err(Fault::Write), Err(Fault::Write)]),
    (4, b"1\n2\n", [Ok(()), Ok(()), Err(Fault::Write)]),
    (5, b"1\n2\n", [Ok(()), Ok(()), Ok(())]),
];

/// Each write of `1 2` in single octets, and then the flush, fails: what was written before stands,
/// and the fault stays.
#[test]
fn a_write_fails(rt: HostRuntime) {
    for (fails_at, front, wanted) in &PUTS {
        let mut taken = Vec::new(rt.alloc());
        let found = put_two(rt.alloc(), &mut taken, 1, *fails_at);
        same(&rt, *fails_at, found, *wanted);
        same(&rt, *fails_at, taken.as_slice(), *front);
        drop(taken);
    }
}

/// A writer that takes no octet fails.
#[test]
fn a_writer_of_text_is_taken_nothing(rt: HostRuntime) {
    let mut taken = Vec::new(rt.alloc());
    let found = put_two(rt.alloc(), &mut taken, 0, NEVER);
    drop(taken);
    same(&rt, "puts", found, [Err(Fault::Write); 3]);
}
