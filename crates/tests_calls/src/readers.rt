//! What a step of a reader uses, and what a reader holds between two.
ghost use Rattle.std.specs.Prelude.{◌≡◌, IsNone};

use crate::answers::same;
use crate::held::{Held, held_behind};
use ion_binary::BinaryReader;
use ion_model::{Reason, Refusal};
use ion_symtab::{Catalog, Items, Limits};
use ion_text::TextReader;
use std::alloc::Global;

/// What two steps of a binary reader give.
type Steps = Result<[Held; 2], Refusal>;

/// Two steps of a reader that has used nothing yet.
fn two_steps<'a>(reader: &mut BinaryReader<'a>, front: &[u8; 6], rest: &[u8; 1]) -> Steps
    requires { ⟦<BinaryReader<'a> as Items>⟧.taken reader.old ≡ 0 }
{
    let open = held_behind(reader, front)?;
    let whole = held_behind(reader, rest)?;
    Ok([open, whole])
}

/// Two steps of a binary document.
fn read_body(
    alloc: Global,
    catalog: &Catalog,
    front: [u8; 6],
    rest: [u8; 1],
) -> Result<Steps, Reason> {
    let mut reader = BinaryReader::new(alloc, catalog, Limits::usual())?;
    let steps = two_steps(&mut reader, &front, &rest);
    drop(reader);
    Ok(steps)
}

/// While an item lacks octets some are held, and none behind it.
#[test]
fn a_body_is_held(rt: HostRuntime) {
    let catalog = Catalog::new(rt.alloc());
    let found = read_body(rt.alloc(), &catalog, [0xE0, 1, 0, 0xEA, 0x22, 5], [7]);
    drop(catalog);
    same(
        &rt,
        "steps",
        found,
        Ok(Ok([(6, false, true), (1, true, false)])),
    );
}

/// What a step of a reader that has used nothing yet uses and gives, and whether it holds some
/// octets behind it and no more than so many.
fn held_within<'a>(reader: &mut TextReader<'a>, octets: &[u8], item: u64) -> Result<Held, Refusal>
    requires taken { ⟦<TextReader<'a> as Items>⟧.taken reader.old ≡ 0 }
    requires awaits { IsNone (⟦<TextReader<'a> as Items>⟧.awaits reader.old) }
{
    let (used, gives, holds) = held_behind(reader, octets)?;
    Ok((used, gives, holds && reader.held() as u64 <= item))
}

/// The same of a text under a limit of octets.
fn read_within(
    alloc: Global,
    catalog: &Catalog,
    item: u64,
    octets: &[u8],
) -> Result<Result<Held, Refusal>, Reason> {
    let usual = Limits::usual();
    let limits = usual.with_item(item).unwrap_or(usual);
    let mut reader = TextReader::new(alloc, catalog, limits)?;
    let step = held_within(&mut reader, octets, item);
    drop(reader);
    Ok(step)
}

/// An open string is held, and in a list and not of ASCII alone it is kept once: the octets held
/// are no more than an item may have.
#[test]
fn an_open_string_is_kept_once(rt: HostRuntime) {
    let catalog = Catalog::new(rt.alloc());
    let found = [
        read_within(rt.alloc(), &catalog, 1 << 24, b"\"ab"),
        read_within(rt.alloc(), &catalog, 16, b"[\"\xC3\xA9abcdefghijk"),
    ];
    drop(catalog);
    same(
        &rt,
        "steps",
        found,
        [Ok(Ok((3, false, true))), Ok(Ok((15, false, true)))],
    );
}

/// What a step refuses, and what the step behind it answers.
type Refused = Option<(Refusal, Result<Held, Refusal>)>;

/// A step of a reader that has used nothing yet, and where it refuses, one more.
fn step_behind<'a>(reader: &mut TextReader<'a>, front: &[u8; 5], rest: &[u8; 1]) -> Refused
    requires taken { ⟦<TextReader<'a> as Items>⟧.taken reader.old ≡ 0 }
    requires awaits { IsNone (⟦<TextReader<'a> as Items>⟧.awaits reader.old) }
{
    match held_behind(reader, front) {
        Ok(_) => None,
        Err(refusal) => Some((refusal, held_behind(reader, rest))),
    }
}

/// A step of a text that refuses, and one more.
fn read_refused(
    alloc: Global,
    catalog: &Catalog,
    front: [u8; 5],
    rest: [u8; 1],
) -> Result<Refused, Reason> {
    let mut reader = TextReader::new(alloc, catalog, Limits::usual())?;
    let steps = step_behind(&mut reader, &front, &rest);
    drop(reader);
    Ok(steps)
}

/// A list without its comma is refused at `b`, and so is whatever is handed in later.
#[test]
fn a_refusal_is_answered_again(rt: HostRuntime) {
    let catalog = Catalog::new(rt.alloc());
    let found = read_refused(rt.alloc(), &catalog, *b"[a b]", *b"1");
    drop(catalog);
    let refusal = Refusal {
        offset: 4,
        reason: Reason::Unexpected,
    };
    same(&rt, "steps", found, Ok(Some((refusal, Err(refusal)))));
}
