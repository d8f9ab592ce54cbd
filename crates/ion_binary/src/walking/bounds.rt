//! Where a value, a pad or a number may stand, and how far it may reach.
ghost use Rattle.std.specs.Prelude.{◌≡◌, nat_lt};
ghost use Rattle.ion_binary.specs.Names.{fields_end, is_named, items_end, levels, malformed_unless, misfits, named_end, nameless, open_containers, outside, past, shells, stray, too_long, unending, unfit, wrapper_end};

use super::{BinaryWalk, Container};
use crate::form::Form;
use crate::state::Purpose;
use ion_model::Reason;

/// No reason where it holds, else `Malformed`.
fn malformed_unless(holds: bool) -> Option<Reason>
    ensures { result ≡ malformed_unless holds }
{
    if holds { None } else { Some(Reason::Malformed) }
}

impl BinaryWalk<'_> {
    /// Whether the innermost container is a struct whose next field has a name.
    pub(super) fn is_named(&self) -> bool
        ensures { result ≡ is_named (open_containers self.now) }
    {
        match self.frames.last() {
            Some(Container::Named { .. }) => true,
            _ => false,
        }
    }

    /// Where the innermost container ends, if it is a struct and the name of a field comes next.
    pub(super) fn fields_end(&self) -> Option<u64>
        ensures { result ≡ fields_end (open_containers self.now) }
    {
        match self.frames.last() {
            Some(Container::Fields { end }) => Some(*end),
            _ => None,
        }
    }

    /// Where the innermost container ends, if it is a list or an s-expression.
    pub(super) fn items_end(&self) -> Option<u64>
        ensures { result ≡ items_end (open_containers self.now) }
    {
        match self.frames.last() {
            Some(Container::Items { end, .. }) => Some(*end),
            _ => None,
        }
    }

    /// Where the innermost container ends, if it is a struct and the value of a field comes next.
    pub(super) fn named_end(&self) -> Option<u64>
        ensures { result ≡ named_end (open_containers self.now) }
    {
        match self.frames.last() {
            Some(Container::Named { end }) => Some(*end),
            _ => None,
        }
    }

    /// Where the innermost container ends, if it is a wrapper.
    pub(super) fn wrapper_end(&self) -> Option<u64>
        ensures { result ≡ wrapper_end (open_containers self.now) }
    {
        match self.frames.last() {
            Some(Container::Annotated { end }) => Some(*end),
            _ => None,
        }
    }

    /// How many lists, s-expressions and structs are open.
    fn levels(&self) -> usize
        ensures { result ≡ levels (shells self.now) }
    {
        let mut count = 0;
        for frame in &self.frames {
            if !matches!(frame, Container::Annotated { .. }) {
                count += 1;
            }
        }
        count
    }

    /// Whether the limit on depth admits one more list, s-expression or struct.
    pub(super) fn may_deepen(&self) -> bool
        ensures { result ≡ nat_lt (levels (shells self.now)) self.now.limits.depth }
    {
        let depth = self.limits.depth as usize;
        if self.frames.len() < depth {
            return true;
        }
        self.levels() < depth
    }

    /// Why an item of the top level may not reach up to the octet `to`; pads have no limit, since
    /// nothing of them is kept.
    fn too_long(&self, form: Form, to: u64) -> Option<Reason>
        ensures { result ≡ too_long self.now.limits.item self.now.start form to }
    {
        if form == Form::Pad || to <= self.start.saturating_add(self.limits.item) {
            return None;
        }
        Some(Reason::ItemTooLong)
    }

    /// Why the body of a form may not end at the octet `to`: `ItemTooLong` at the top level, else
    /// `Malformed` behind the end of its container, and in a wrapper also before it.
    fn misfits(&self, form: Form, to: u64) -> Option<Reason>
        ensures { result
            ≡ misfits self.now.limits.item self.now.start (shells self.now) form to }
    {
        match self.frames.last() {
            None => self.too_long(form, to),
            Some(Container::Annotated { end }) => malformed_unless(to == *end),
            Some(Container::Items { end, .. }) => malformed_unless(to <= *end),
            Some(Container::Fields { end }) => malformed_unless(to <= *end),
            Some(Container::Named { end }) => malformed_unless(to <= *end),
        }
    }

    /// Why a form may not stand here: a wrapper holds neither a pad nor a wrapper (Ion 1.0, "Ion
    /// Binary Encoding", "14: Annotations").
    pub(super) fn stray(&self, form: Form) -> Option<Reason>
        ensures { result ≡ stray (shells self.now) form }
    {
        match self.frames.last() {
            Some(Container::Annotated { .. }) => {
                malformed_unless(form != Form::Pad && form != Form::Wrapper)
            }
            _ => None,
        }
    }

    /// Why a value may not stand behind its field name: the id of the name has no symbol. A name
    /// before a pad isn't looked at.
    pub(super) fn nameless(&self, form: Form) -> Option<Reason>
        ensures { result ≡ nameless (shells self.now) form }
    {
        match self.frames.last() {
            Some(Container::Named { .. }) if form != Form::Pad => {
                match self.context.symbol(self.name) {
                    Ok(_) => None,
                    Err(reason) => Some(reason),
                }
            }
            _ => None,
        }
    }

    /// Why a header that isn't whole may not go on: no octet is left of its container, or of the
    /// limit.
    pub(super) fn unending(&self, form: Form) -> Option<Reason>
        ensures { result ≡ unending self.now.limits.item self.now.start (shells self.now)
            form self.now.used }
    {
        match self.frames.last() {
            None => self.too_long(form, self.used),
            Some(_) => self.outside(),
        }
    }

    /// Why a number of a container may not go on: no octet is left of the container.
    fn outside(&self) -> Option<Reason>
        ensures { result ≡ outside (shells self.now) self.now.used }
    {
        match self.frames.last() {
            None => Some(Reason::Malformed),
            Some(Container::Items { end, .. }) => malformed_unless(self.used < *end),
            Some(Container::Fields { end }) => malformed_unless(self.used < *end),
            Some(Container::Named { end }) => malformed_unless(self.used < *end),
            Some(Container::Annotated { end }) => malformed_unless(self.used < *end),
        }
    }

    /// Why a VarUInt may not go on.
    pub(super) fn past(&self, purpose: Purpose) -> Option<Reason>
        ensures { result ≡ past self.now.limits.item self.now.start (shells self.now)
            purpose self.now.used }
    {
        match purpose {
            Purpose::Length(form) => self.unending(form),
            Purpose::FieldName => self.outside(),
            Purpose::AnnotationsLength => self.outside(),
            Purpose::Annotation(stop) => malformed_unless(self.used < stop),
        }
    }

    /// Why a form whose body ends at the octet `to` may not stand here.
    #[inline(always)]
    pub(super) fn unfit(&self, form: Form, to: u64) -> Option<Reason>
        ensures { result
            ≡ unfit self.now.limits.item self.now.start (shells self.now) form to }
    {
        if let Some(reason) = self.stray(form) {
            return Some(reason);
        }
        if let Some(reason) = self.misfits(form, to) {
            return Some(reason);
        }
        self.nameless(form)
    }
}
