//! Wrappers with one annotation, taken up with it at once, and with the leaf behind it if that is
//! all there, too. Of any other the header is.
ghost use Rattle.std.specs.Prelude.{◌+◌, ◌≤◌, ◌<◌, ◌^◌, length, IfSome};
ghost use Rattle.ion_binary.specs.Names.{HasNote, Opens, Reads, SameSetting};
ghost use Rattle.ion_binary.specs.declared.form.Form.TheVariants as forms;
ghost use Rattle.ion_binary.specs.walking.Runs.{TakesUp};

use super::whole_leaves::{leaf_at, tell_leaf};
use super::{BinaryWalk, Container, heard};
use crate::lengths::number;
use crate::state::{Effect, Phase};
use ion_model::Reason;
use ion_visiting::Visitor;

/// The only annotation of a wrapper at the front of a piece: its id, which begins at `id_at`, and
/// where the value behind it begins.
#[derive(Clone, Copy)]
pub(crate) struct Note {
    id: u64,
    id_at: usize,
    to: usize,
}

/// The annotation of a wrapper whose header has so many octets of a piece, and whose body has this
/// size, if it is the only one and all there.
#[inline(always)]
fn note_in(front: usize, size: u64, piece: &[u8]) -> Option<Note>
    requires within { front ≤ length piece.now }
    ensures { IfSome result (HasNote piece.now front size) }
{
    let (count, counted) = number(&piece[front..])?;
    let id_at = front + counted;
    let (id, few) = number(&piece[id_at..])?;
    if count != few as u64 || (counted + few) as u64 >= size {
        return None;
    }
    Some(Note {
        id,
        id_at,
        to: id_at + few,
    })
}

impl BinaryWalk<'_> {
    /// Takes up the header of a wrapper that may stand here, with its annotation if that is the only
    /// one and all there, and with the leaf behind that if it is all there and fills the wrapper.
    #[inline(never)]
    pub(super) fn read_wrapper<V: Visitor>(
        &mut self,
        front: usize,
        size: u64,
        piece: &[u8],
        visitor: &mut V,
    ) -> Result<Effect, Reason>
        requires room { self.old.used + length piece.now < 2 ^ 63 }
        requires opens { Opens self.old piece.now forms.Wrapper front size }
        ensures does { Reads V.takes self.old piece.now result self.new visitor.old visitor.new }
        ensures up { TakesUp self.old.used self.new.used piece.now result }
        ensures setting { SameSetting self.old self.new }
    {
        let Some(note) = note_in(front, size, piece) else {
            self.used += front as u64;
            return self.begin_wrapper(size, visitor);
        };
        let begin = self.used;
        let end = begin + front as u64 + size;
        self.used += note.to as u64;
        self.begin_value(visitor)?;
        // The proof names the arms of what is refused here, so they are no `?`.
        let symbol = match self.context.symbol(note.id) {
            Ok(symbol) => symbol,
            Err(reason) => return Err(reason),
        };
        heard(self.filter.annotation(symbol, visitor))?;
        if let Some(noted) = leaf_at(note.to, piece) {
            let to = begin + noted.to as u64;
            if to == end {
                self.used = to;
                let body = &piece[noted.front..noted.to];
                return match tell_leaf(&self.context, noted.leaf, body, &mut self.filter, visitor) {
                    Ok(()) => self.ended(visitor),
                    Err(reason) => Err(reason),
                };
            }
        }
        self.frames.push(Container::Annotated { end })?;
        self.phase = Phase::Ready;
        Ok(Effect::Goes)
    }
}
