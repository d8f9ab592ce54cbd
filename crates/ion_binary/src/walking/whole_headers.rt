//! Descriptors. A header that lies whole in a piece is taken up at once, and a leaf that does, too.
//! What is cut, or may not stand where it does, is left to the walk octet by octet.
ghost use Rattle.std.specs.Prelude.{◌≡◌, ◌+◌, ◌-◌, ◌≤◌, ◌<◌, ◌^◌, None, get_or, length, take, IfSome};
ghost use Rattle.ion_binary.specs.Names.{Header, Reads, SameSetting, begin, hollow, opening_of};
ghost use Rattle.ion_binary.specs.declared.state.Phase.TheVariants as phases;
ghost use Rattle.ion_binary.specs.walking.Runs.{TakesUp};

use super::BinaryWalk;
use super::whole_leaves::leaf_at;
use crate::form::{Form, Opening, hollow, opening_of};
use crate::lengths::lengths;
use crate::state::Effect;
use ion_model::Reason;
use ion_visiting::Visitor;

/// The least descriptor of a container or a wrapper: their type codes are those from 11 on.
pub(super) const LEAST_OF_CONTAINERS: u8 = 0xB0;

/// The header at the front of these octets, of which the first opens this, if it is all there: how
/// many octets it has, and how many the body of which it is.
#[inline(always)]
pub(super) fn header_at(opening: Opening, octets: &[u8]) -> Option<(Form, usize, u64)>
    requires some { 0 < length octets.now }
    requires first { opening ≡ opening_of (get_or octets.now 0 0) }
    ensures front { IfSome result (λ found. 0 < found.1) }
    ensures within { IfSome result (λ found. found.1 ≤ length octets.now) }
    ensures small { IfSome result (λ found. found.2 < 2 ^ 63) }
    ensures header { IfSome result (λ found.
        Header found.0 found.2 (take found.1 octets.now)) }
    ensures full { IfSome result (λ found. hollow found.0 found.2 ≡ None) }
{
    let Opening::Sized(form, size) = opening else {
        return None;
    };
    let (used, count) = lengths(size, &octets[1..])?;
    if let Some(_) = hollow(form, count) {
        return None;
    }
    Some((form, 1 + used, count))
}

impl BinaryWalk<'_> {
    /// Takes up what is at the front of a piece where a descriptor comes.
    #[inline(always)]
    pub(super) fn read_opening<V: Visitor>(
        &mut self,
        piece: &[u8],
        visitor: &mut V,
    ) -> Result<Effect, Reason>
        requires room { self.old.used + length piece.now < 2 ^ 63 }
        requires some { 0 < length piece.now }
        requires ready { self.old.phase ≡ phases.Ready }
        ensures does { Reads V.takes self.old piece.now result self.new visitor.old visitor.new }
        ensures up { TakesUp self.old.used self.new.used piece.now result }
        ensures setting { SameSetting self.old self.new }
    {
        if piece[0] < LEAST_OF_CONTAINERS {
            if let Some(whole) = leaf_at(0, piece) {
                let to = self.used + whole.to as u64;
                if let Some(end) = self.items_end()
                    && to < end
                {
                    return self.read_items(whole, end, piece, visitor);
                }
                // a leaf may stand where a struct may
                if let None = self.unfit(Form::Struct, to) {
                    self.used = to;
                    return self.leaf(whole.leaf, &piece[whole.front..whole.to], visitor);
                }
            }
        } else if let Some((form, front, size)) = header_at(opening_of(piece[0]), piece)
            && let None = self.unfit(form, self.used + front as u64 + size)
        {
            if form == Form::Wrapper {
                return self.read_wrapper(front, size, piece, visitor);
            }
            self.used += front as u64;
            return self.begin(form, size, visitor);
        }
        self.used += 1;
        self.on_descriptor(opening_of(piece[0]), visitor)
    }
}
