//! VarUInts: lengths, and the ids of field names and annotations.
ghost use Rattle.std.specs.Prelude.{◌≡◌, ◌+◌, ◌<◌, ◌^◌, IfSome, Some, length};
ghost use Rattle.ion_binary.specs.Names.{Does, HasName, Moves, Steps, StepsAlone, annotation_came, behind_annotation, count_came, fields_end, longer, name_came, number_came, on_number, open_containers, resolve, unsized};
ghost use Rattle.ion_binary.specs.declared.state.Phase.TheVariants as phases;
ghost use Rattle.ion_binary.specs.declared.state.Purpose.TheVariants as purposes;

use super::{BinaryWalk, Container, heard};
use crate::form::Form;
use crate::lengths::number;
use crate::state::{Effect, Phase, Purpose};
use ion_model::Reason;
use ion_visiting::Visitor;

impl BinaryWalk<'_> {
    /// Goes on in a VarUInt, whose octets make `so_far` up to here.
    fn longer(&mut self, purpose: Purpose, so_far: u64) -> Result<Effect, Reason>
        ensures does { StepsAlone self.old
            (λ setting spot fs. longer setting spot fs purpose so_far)
            result self.new }
        ensures moves { Moves self.old self.new self.old.used }
    {
        match self.past(purpose) {
            Some(reason) => Err(reason),
            None => {
                self.phase = Phase::InNumber(purpose, so_far);
                Ok(Effect::Goes)
            }
        }
    }

    /// Begins the length of a form, if the form may stand here.
    pub(super) fn length_follows(&mut self, form: Form) -> Result<Effect, Reason>
        ensures does { StepsAlone self.old (λ setting spot fs. unsized setting spot fs form)
            result self.new }
        ensures moves { Moves self.old self.new self.old.used }
    {
        if let Some(reason) = self.stray(form) {
            return Err(reason);
        }
        if let Some(reason) = self.unending(form) {
            return Err(reason);
        }
        if let Some(reason) = self.nameless(form) {
            return Err(reason);
        }
        self.phase = Phase::InNumber(Purpose::Length(form), 0);
        Ok(Effect::Goes)
    }

    /// Takes up an octet of a VarUInt (Ion 1.0, "Ion Binary Encoding", "VarUInt and VarInt
    /// Fields"); `TooLarge` from 2^63 on.
    pub(super) fn on_number<V: Visitor>(
        &mut self,
        purpose: Purpose,
        so_far: u64,
        octet: u8,
        visitor: &mut V,
    ) -> Result<Effect, Reason>
        requires used { self.old.used < 2 ^ 63 }
        ensures does { Steps V.takes self.old
            (λ setting spot fs. on_number setting spot fs purpose so_far octet)
            result self.new visitor.old visitor.new }
        ensures moves { Moves self.old self.new self.old.used }
    {
        if so_far >= 1 << 56 {
            return Err(Reason::TooLarge);
        }
        if octet < 128 {
            return self.longer(purpose, 128 * so_far + u64::from(octet));
        }
        self.number_came(purpose, 128 * so_far + u64::from(octet - 128), visitor)
    }

    /// Does what a VarUInt that has ended is for.
    fn number_came<V: Visitor>(
        &mut self,
        purpose: Purpose,
        number: u64,
        visitor: &mut V,
    ) -> Result<Effect, Reason>
        requires used { self.old.used < 2 ^ 63 }
        requires number { number < 2 ^ 63 }
        ensures does { Steps V.takes self.old
            (λ setting spot fs. number_came setting spot fs purpose number)
            result self.new visitor.old visitor.new }
        ensures moves { Moves self.old self.new self.old.used }
    {
        match purpose {
            Purpose::Length(form) => self.sized(form, number, visitor),
            Purpose::FieldName => self.name_came(number),
            Purpose::AnnotationsLength => self.count_came(number),
            Purpose::Annotation(stop) => self.annotation_came(stop, number, visitor),
        }
    }

    /// The id of a field's name at the front of a piece, if such a name begins here and all its
    /// octets are there and in its struct: and how many they are, and where the struct ends.
    #[inline(always)]
    pub(super) fn whole_name(&self, piece: &[u8]) -> Option<(u64, usize, u64)>
        requires room { self.now.used + length piece.now < 2 ^ 63 }
        ensures is { IfSome result (λ name. HasName self.now piece.now name.0 name.1) }
        ensures fields { IfSome result (λ name. Some name.2 ≡ fields_end (open_containers self.now)) }
    {
        let Phase::InNumber(Purpose::FieldName, 0) = self.phase else {
            return None;
        };
        let end = self.fields_end()?;
        let (id, size) = self.name_in(end, piece)?;
        Some((id, size, end))
    }

    /// The same where such a name begins, in a struct that ends at the octet `end`.
    #[inline(always)]
    #[tactic(auto, using(crate::proofs::VarUInts::number_some))]
    pub(super) fn name_in(&self, end: u64, piece: &[u8]) -> Option<(u64, usize)>
        requires room { self.now.used + length piece.now < 2 ^ 63 }
        requires phase { self.now.phase ≡ phases.InNumber purposes.FieldName 0 }
        requires fields { Some end ≡ fields_end (open_containers self.now) }
        ensures { IfSome result (λ name. HasName self.now piece.now name.0 name.1) }
    {
        let (id, size) = number(piece)?;
        if self.used + size as u64 > end {
            return None;
        }
        Some((id, size))
    }

    /// Takes the id of a field name, behind which an octet has to be left of the struct. Whether
    /// the id has a symbol counts only if a value follows.
    pub(super) fn name_came(&mut self, id: u64) -> Result<Effect, Reason>
        ensures does { StepsAlone self.old (λ _ spot fs. name_came spot fs id) result self.new }
        ensures moves { Moves self.old self.new self.old.used }
    {
        let Some(end) = self.fields_end() else {
            return Err(Reason::Malformed);
        };
        if self.used >= end {
            return Err(Reason::Malformed);
        }
        self.put_innermost(Container::Named { end });
        self.name = id;
        self.phase = Phase::Ready;
        Ok(Effect::Goes)
    }

    /// Takes the number of the octets of a wrapper's annotations: there is one at least, and one
    /// behind them.
    fn count_came(&mut self, count: u64) -> Result<Effect, Reason>
        requires used { self.old.used < 2 ^ 63 }
        requires count { count < 2 ^ 63 }
        ensures does { StepsAlone self.old (λ _ spot fs. count_came spot fs count) result self.new }
        ensures moves { Moves self.old self.new self.old.used }
    {
        let Some(end) = self.wrapper_end() else {
            return Err(Reason::Malformed);
        };
        let stop = self.used + count;
        if count == 0 || stop >= end {
            return Err(Reason::Malformed);
        }
        self.phase = Phase::InNumber(Purpose::Annotation(stop), 0);
        Ok(Effect::Goes)
    }

    /// Takes the id of an annotation; the annotations end at the octet `stop`.
    fn annotation_came<V: Visitor>(
        &mut self,
        stop: u64,
        id: u64,
        visitor: &mut V,
    ) -> Result<Effect, Reason>
        ensures does { Steps V.takes self.old
            (λ _ spot fs. annotation_came spot fs stop (resolve self.old.context id))
            result self.new visitor.old visitor.new }
        ensures moves { Moves self.old self.new self.old.used }
    {
        if let None = self.wrapper_end() {
            return Err(Reason::Malformed);
        }
        let symbol = self.context.symbol(id)?;
        heard(self.filter.annotation(symbol, visitor))?;
        self.phase = self.behind_annotation(stop);
        Ok(Effect::Goes)
    }

    /// What comes behind an annotation, where the annotations end at the octet `stop`.
    fn behind_annotation(&self, stop: u64) -> Phase
        ensures { result ≡ behind_annotation self.now.used stop }
    {
        if self.used == stop {
            return Phase::Ready;
        }
        Phase::InNumber(Purpose::Annotation(stop), 0)
    }
}
