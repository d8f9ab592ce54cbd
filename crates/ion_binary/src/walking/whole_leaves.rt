//! Leaves that lie whole in a piece: nulls, truths and scalars, which have no value in them.
ghost use Rattle.std.specs.Prelude.{◌≤◌, ◌+◌, ◌<◌, IfErr, IfSome, None, OnOk, length};
ghost use Rattle.ion_binary.specs.Names.{HasLeaf, Moves, RefusedAs, StepsInside, TellsAs, judge_leaf, judged, told};

use super::whole_headers::header_at;
use super::{BinaryWalk, heard};
use crate::form::{Form, Opening, Scalar, opening_of};
use crate::state::Effect;
use crate::walking::scalars::tell_scalar;
use ion_model::{Kind, Reason};
use ion_symtab::Context;
use ion_visiting::{Part, TableFilter, Visitor};

/// A value with no value in it.
#[derive(Clone, Copy)]
pub(crate) enum Leaf {
    Null(Kind),
    Truth(bool),
    Scalar(Scalar),
}

/// A leaf that lies whole in a piece: where its body begins and where it ends.
#[derive(Clone, Copy)]
pub(crate) struct WholeLeaf {
    pub(super) leaf: Leaf,
    pub(super) front: usize,
    pub(super) to: usize,
}

/// The leaf behind so many octets of a piece, if it is all there.
#[inline(always)]
pub(super) fn leaf_at(skipped: usize, piece: &[u8]) -> Option<WholeLeaf>
    requires { skipped ≤ length piece.now }
    ensures { IfSome result (HasLeaf piece.now skipped) }
{
    let octets = &piece[skipped..];
    if octets.is_empty() {
        return None;
    }
    let front = skipped + 1;
    match opening_of(octets[0]) {
        Opening::Null(kind) => Some(WholeLeaf {
            leaf: Leaf::Null(kind),
            front,
            to: front,
        }),
        Opening::Truth(truth) => Some(WholeLeaf {
            leaf: Leaf::Truth(truth),
            front,
            to: front,
        }),
        opening => {
            let (form, front, size) = header_at(opening, octets)?;
            match form {
                Form::Scalar(scalar) if size <= (octets.len() - front) as u64 => Some(WholeLeaf {
                    leaf: Leaf::Scalar(scalar),
                    front: skipped + front,
                    to: skipped + front + size as usize,
                }),
                _ => None,
            }
        }
    }
}

/// Tells the leaf that a body is, as `tell_scalar` does where it is a scalar.
#[inline(always)]
pub(super) fn tell_leaf<V: Visitor>(
    context: &Context,
    leaf: Leaf,
    body: &[u8],
    filter: &mut TableFilter,
    visitor: &mut V,
) -> Result<(), Reason>
    ensures told { OnOk result (TellsAs V.takes (judge_leaf context.now leaf body.now)
        filter.old filter.new visitor.old visitor.new) }
    ensures refused { IfErr result (RefusedAs (judge_leaf context.now leaf body.now)) }
{
    match leaf {
        Leaf::Null(kind) => heard(filter.part(&Part::Null(kind), visitor)),
        Leaf::Truth(truth) => heard(filter.part(&Part::Truth(truth), visitor)),
        Leaf::Scalar(scalar) => tell_scalar(context, scalar, body, filter, visitor),
    }
}

impl BinaryWalk<'_> {
    /// Tells the leaf that a body is, whose last octet was taken up.
    #[inline(always)]
    pub(super) fn leaf<V: Visitor>(
        &mut self,
        leaf: Leaf,
        body: &[u8],
        visitor: &mut V,
    ) -> Result<Effect, Reason>
        ensures does { StepsInside V.takes self.old
            (λ setting spot fs. judged setting spot fs (judge_leaf self.old.context leaf body.now))
            result self.new visitor.old visitor.new }
        ensures moves { Moves self.old self.new self.old.used }
    {
        self.begin_value(visitor)?;
        tell_leaf(&self.context, leaf, body, &mut self.filter, visitor)?;
        self.ended(visitor)
    }
}
