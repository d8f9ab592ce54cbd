//! The body of a scalar that isn't whole yet.
ghost use Rattle.std.specs.Prelude.{◌≡◌, ◌≢◌, ◌++◌, [], ◌<◌, ◌≤◌, true, List, Err, is_ok, length, IfErr, IfSome, OnOk};
ghost use Rattle.ion_binary.specs.Names.{Memory, RefusedAs, Slot, TellsAs, judge};

use super::heard;
use crate::form::Scalar;
use crate::walking::scalars::{is_utf8, tell_scalar};
use ion_atoms::LetGo;
use ion_model::Reason;
use ion_symtab::Context;
use ion_visiting::{TableFilter, Visitor};
use std::alloc::Global;
use std::marker::Model;

/// So few octets of a body are kept, whoever heeds them.
const FEW: usize = 512;

/// So many octets a body never has.
const TOO_MANY: usize = 1 << 63;

/// The octets of a scalar's body so far, of whose front it may be kept only how many they were.
///
/// In clauses it is the list of all of them.
#[derive(Drop)]
pub(crate) struct OpenBody {
    let_go: LetGo,
    kept: Vec<u8>,
}

impl Model for OpenBody {
    ghost use Rattle.std.specs.Prelude.{List, ℕ, ◌++◌, ◌<◌, ◌^◌, ◌+◌, length};

    ghost Value = { List ℕ };

    ghost view = { λ b. b.let_go ++ b.kept.items };

    ghost invariant = { λ b. length b.let_go + length b.kept.items < 2 ^ 63 };
}

/// One octet back, where no character begins at this one.
fn back_in_character(octets: &[u8], at: usize) -> usize
    requires { at < length octets.now }
    ensures { result ≤ at }
{
    if at > 0 && octets[at] & 0xC0 == 0x80 {
        at - 1
    } else {
        at
    }
}

/// How many octets at the front are whole characters. The last one is left out, since it is mostly
/// cut, and then the front would be read twice.
fn whole_characters(octets: &[u8]) -> usize
    ensures { result ≤ length octets.now }
{
    if octets.is_empty() {
        return 0;
    }
    // a character is four octets at most
    let fourth = octets.len() - 1;
    let third = back_in_character(octets, fourth);
    let second = back_in_character(octets, third);
    let last = back_in_character(octets, second);
    match simdutf8::compat::from_utf8(&octets[..last]) {
        Ok(_) => last,
        Err(fault) => fault.valid_up_to(),
    }
}

impl OpenBody {
    /// None. Takes no memory.
    pub(super) fn new(alloc: Global) -> OpenBody
        ensures { result ≡ [] }
    {
        OpenBody {
            let_go: LetGo::nothing(),
            kept: Vec::new(alloc),
        }
    }

    /// Begins with none.
    pub(super) fn clear(&mut self)
        ensures { self.new ≡ [] }
    {
        self.let_go = LetGo::nothing();
        self.kept.clear();
    }

    /// How many there are.
    pub(super) fn len(&self) -> usize
        ensures { result ≡ length self.now }
    {
        self.let_go.count() as usize + self.kept.len()
    }

    /// Whether there are none.
    pub(super) fn is_empty(&self) -> bool
        ensures { result ≡ true → self.now ≡ [] }
    {
        self.kept.is_empty() && self.let_go.count() == 0
    }

    /// Keeps more of them. The only refusal is `Memory`.
    pub(super) fn extend_from_slice(&mut self, octets: &[u8]) -> Result<(), Reason>
        ensures ok { OnOk result (self.new ≡ self.old ++ octets.now) }
        ensures memory { IfErr result (λ reason. reason ≡ Memory) }
    {
        if octets.len() >= TOO_MANY - self.len() {
            return Err(Reason::Memory);
        }
        self.kept.extend_from_slice(octets)?;
        Ok(())
    }

    /// Lets go of the front of a long string, clob or blob, of which so many octets came at last:
    /// of a string whole characters. What isn't UTF-8 is tried once, and then kept.
    pub(super) fn let_go_front(&mut self, scalar: Scalar, came: usize)
        ensures { self.new ≡ self.old }
    {
        let count = self.kept.len();
        if count <= FEW || count - FEW > came {
            return;
        }
        let front = match scalar {
            Scalar::Str => whole_characters(&self.kept),
            Scalar::Clob | Scalar::Blob => count,
            _ => 0,
        };
        self.let_go.add(&self.kept[..front]);
        self.kept.copy_within(front.., 0);
        self.kept.truncate(count - front);
    }

    /// All of them, if none were let go.
    fn whole(&self) -> Option<&[u8]>
        ensures { IfSome result (λ octets. octets.now ≡ self.now) }
    {
        if self.let_go.count() > 0 {
            return None;
        }
        Some(&self.kept)
    }

    /// Whether they are this scalar, though some were let go; `Memory` where that can't be known.
    fn judge_unread(&self, scalar: Scalar) -> Result<(), Reason>
        ensures is { OnOk result ((c : List Slot) → is_ok (judge c scalar self.now) ≡ true) }
        ensures refused { IfErr result (λ reason. reason ≢ Memory → (c : List Slot) →
            judge c scalar self.now ≡ Err reason) }
    {
        match scalar {
            Scalar::Str if !self.let_go.is_text() => Err(Reason::Memory),
            Scalar::Str if !is_utf8(&self.kept) => Err(Reason::BadUtf8),
            Scalar::Str => Ok(()),
            Scalar::Clob => Ok(()),
            Scalar::Blob => Ok(()),
            _ => Err(Reason::Memory),
        }
    }
}

/// Tells the scalar that a body is, as `tell_scalar` does. Of one whose front was let go it is told
/// its kind, and `Memory` answers a visitor that heeds more.
pub(super) fn tell_body<V: Visitor>(
    context: &Context,
    scalar: Scalar,
    body: &OpenBody,
    filter: &mut TableFilter,
    visitor: &mut V,
) -> Result<(), Reason>
    ensures told { OnOk result (TellsAs V.takes (judge context.now scalar body.now)
        filter.old filter.new visitor.old visitor.new) }
    ensures refused { IfErr result (RefusedAs (judge context.now scalar body.now)) }
{
    if let Some(octets) = body.whole() {
        return tell_scalar(context, scalar, octets, filter, visitor);
    }
    body.judge_unread(scalar)?;
    if let Some(went_on) = filter.of_kind(scalar.kind(), visitor) {
        return heard(went_on);
    }
    Err(Reason::Memory)
}
