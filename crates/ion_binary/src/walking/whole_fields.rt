//! Fields of a struct that lie whole in a piece and have a leaf, taken up one behind the other. Of any
//! other the name is.
ghost use Rattle.std.specs.Prelude.{◌≡◌, ◌+◌, ◌≤◌, ◌<◌, ◌^◌, Some, length, IfSome};
ghost use Rattle.ion_binary.specs.Names.{HasField, HasName, Reads, SameSetting, fields_end, open_containers};
ghost use Rattle.ion_binary.specs.walking.Runs.{TakesUp};

use super::BinaryWalk;
use super::whole_leaves::{WholeLeaf, leaf_at, tell_leaf};
use crate::state::Effect;
use ion_model::Reason;
use ion_visiting::Visitor;

impl BinaryWalk<'_> {
    /// The leaf behind so many octets of a piece, which are a field's name, if it is all there and
    /// in the struct, which ends at the octet `end`.
    #[inline(always)]
    fn field_in(&self, named: usize, end: u64, piece: &[u8]) -> Option<WholeLeaf>
        requires room { self.now.used + length piece.now < 2 ^ 63 }
        requires within { named ≤ length piece.now }
        ensures { IfSome result (HasField self.now end piece.now named) }
    {
        let field = leaf_at(named, piece)?;
        if self.used + field.to as u64 > end {
            return None;
        }
        Some(field)
    }

    /// Takes up a field whose name is at the front of a piece, and those behind it as long as they
    /// are leaves, in a struct that ends at the octet `end`.
    #[inline(never)]
    pub(super) fn read_fields<V: Visitor>(
        &mut self,
        id: u64,
        named: usize,
        end: u64,
        piece: &[u8],
        visitor: &mut V,
    ) -> Result<Effect, Reason>
        requires room { self.old.used + length piece.now < 2 ^ 63 }
        requires fields { Some end ≡ fields_end (open_containers self.old) }
        requires name { HasName self.old piece.now id named }
        ensures does { Reads V.takes self.old piece.now result self.new visitor.old visitor.new }
        ensures up { TakesUp self.old.used self.new.used piece.now result }
        ensures setting { SameSetting self.old self.new }
    {
        let mut at = 0;
        let mut next = Some((id, named));
        while let Some((id, named)) = next {
            let behind = &piece[at..];
            let Some(field) = self.field_in(named, end, behind) else {
                self.used += named as u64;
                return self.name_came(id);
            };
            let Ok(symbol) = self.context.symbol(id) else {
                self.used += named as u64;
                return self.name_came(id);
            };
            self.used += field.to as u64;
            if !self.filter.name(symbol, visitor) {
                return Err(Reason::Memory);
            }
            let body = &behind[field.front..field.to];
            match tell_leaf(&self.context, field.leaf, body, &mut self.filter, visitor) {
                Ok(()) => {
                    if self.used == end {
                        return self.proceed_or_end(visitor);
                    }
                    at += field.to;
                    next = self.name_in(end, &piece[at..]);
                }
                Err(reason) => return Err(reason),
            }
        }
        Ok(Effect::Goes)
    }
}
