//! Leaves of a list or an s-expression that lie whole in a piece, taken up one behind the other. The
//! last one, with which the container ends, is left to the walk, and so is any that may not stand
//! there.
ghost use Rattle.std.specs.Prelude.{◌≡◌, ◌+◌, ◌<◌, ◌^◌, None, Some, IfSome, length};
ghost use Rattle.ion_binary.specs.Names.{HasItem, Reads, SameSetting, items_end, open_containers};
ghost use Rattle.ion_binary.specs.declared.state.Phase.TheVariants as phases;
ghost use Rattle.ion_binary.specs.walking.Runs.{TakesUp};

use super::BinaryWalk;
use super::whole_leaves::{WholeLeaf, leaf_at, tell_leaf};
use crate::state::Effect;
use ion_model::Reason;
use ion_visiting::Visitor;

impl BinaryWalk<'_> {
    /// The leaf at the front of a piece, if it is all there and ends before the octet `end`.
    #[inline(always)]
    fn item_before(&self, end: u64, piece: &[u8]) -> Option<WholeLeaf>
        requires room { self.now.used + length piece.now < 2 ^ 63 }
        ensures { IfSome result (HasItem self.now end piece.now) }
    {
        let item = leaf_at(0, piece)?;
        if self.used + item.to as u64 >= end {
            return None;
        }
        Some(item)
    }

    /// Takes up this leaf at the front of a piece and those behind it, in a container that ends at
    /// the octet `end`.
    #[inline(never)]
    pub(super) fn read_items<V: Visitor>(
        &mut self,
        first: WholeLeaf,
        end: u64,
        piece: &[u8],
        visitor: &mut V,
    ) -> Result<Effect, Reason>
        requires room { self.old.used + length piece.now < 2 ^ 63 }
        requires ready { self.old.phase ≡ phases.Ready }
        requires items { Some end ≡ items_end (open_containers self.old) }
        requires item { HasItem self.old end piece.now first }
        ensures does { Reads V.takes self.old piece.now result self.new visitor.old visitor.new }
        ensures up { TakesUp self.old.used self.new.used piece.now result }
        ensures setting { SameSetting self.old self.new }
    {
        let mut at = 0;
        let mut next = Some(first);
        while let Some(item) = next {
            let behind = &piece[at..];
            let body = &behind[item.front..item.to];
            self.used += item.to as u64;
            match tell_leaf(&self.context, item.leaf, body, &mut self.filter, visitor) {
                Ok(()) => {
                    at += item.to;
                    next = self.item_before(end, &piece[at..]);
                }
                Err(reason) => return Err(reason),
            }
        }
        Ok(Effect::Goes)
    }
}
