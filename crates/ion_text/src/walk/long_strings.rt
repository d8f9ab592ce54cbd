//! Long strings that lie whole in a piece, with all their segments and the octet behind these, which
//! shows that no other follows.
#![tactic(auto)]

ghost use Rattle.std.specs.Prelude.{◌<◌};
ghost use Rattle.ion_text.specs.Names.{EndsBy, IsHere, Takes};
ghost use Rattle.ion_text.specs.declared.state.Stage.TheVariants as stages;
ghost use Rattle.ion_text.specs.machine.LongStrings.{LongThere};

use super::TextWalk;
use super::whole_tokens::value_took;
use crate::state::Taken;
use crate::tokens::long_strings::{begins_long, join_segments, one_segment};
use ion_model::Reason;
use ion_tokens::{Place, Rest};
use ion_visiting::{Part, Visitor};

impl TextWalk<'_> {
    /// A long string, or a quoted symbol that isn't plain.
    #[inline(never)]
    pub(super) fn read_long<V: Visitor>(
        &mut self,
        rest: &mut Rest,
        octets: &[u8],
        visitor: &mut V,
    ) -> Result<Taken, Reason>
        requires { Takes stages.Ready self.old rest.old octets.now }
        ensures { EndsBy V.takes self.old self.new rest.old rest.new octets.now result
            visitor.old visitor.new }
    {
        let here = self.place();
        if !begins_long(octets) {
            return self.read_unusual(here, rest, octets, visitor);
        }
        match one_segment(here, *rest, octets) {
            None => self.read_segments(here, rest, octets, visitor),
            Some((count, behind, text)) => {
                self.read_long_text(here, count, behind, text, rest, octets, visitor)
            }
        }
    }

    /// A long string of segments that have to be joined.
    #[inline(never)]
    fn read_segments<V: Visitor>(
        &mut self,
        here: Place,
        rest: &mut Rest,
        octets: &[u8],
        visitor: &mut V,
    ) -> Result<Taken, Reason>
        requires takes { Takes stages.Ready self.old rest.old octets.now }
        requires here { IsHere self.old here }
        ensures { EndsBy V.takes self.old self.new rest.old rest.new octets.now result
            visitor.old visitor.new }
    {
        let mut text = String::new(self.alloc);
        match join_segments(&mut self.beside, here, *rest, octets, true, &mut text) {
            None => Ok(Taken::Uses),
            Some((count, behind)) => {
                self.read_long_text(here, count, behind, text.as_str(), rest, octets, visitor)
            }
        }
    }

    /// This long string.
    #[inline(always)]
    fn read_long_text<V: Visitor>(
        &mut self,
        here: Place,
        count: usize,
        behind: Rest,
        text: &str,
        rest: &mut Rest,
        octets: &[u8],
        visitor: &mut V,
    ) -> Result<Taken, Reason>
        requires takes { Takes stages.Ready self.old rest.old octets.now }
        requires here { IsHere self.old here }
        requires long { LongThere here rest.old octets.now count behind text.now }
        ensures { EndsBy V.takes self.old self.new rest.old rest.new octets.now result
            visitor.old visitor.new }
    {
        self.start = self.begun_at(rest.used);
        *rest = behind;
        value_took(self.whole(&Part::Str(text), behind.used, visitor), true)
    }
}
