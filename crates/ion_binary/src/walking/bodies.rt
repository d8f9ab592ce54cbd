//! Bodies: of scalars, pads and containers.
ghost use Rattle.std.specs.Prelude.{◌<◌, ◌^◌, List, []};
ghost use Rattle.ion_binary.specs.Names.{AreAround, Does, Frame as AnyFrame, Holds, HoldsNoWrapper, MayBegin, Moves, Steps, StepsInside, begin, judge, judged, on_pad, open_struct, setting_of, sized, spot_of, told};
ghost use Rattle.ion_binary.specs.declared.form.Form.TheVariants as forms;

use super::{BinaryWalk, Container, heard};
use crate::form::{Form, ListOrSexp, Scalar, bracket_of, hollow};
use crate::state::{Effect, Phase, Purpose};
use crate::walking::open_body::tell_body;
use crate::walking::whole_leaves::Leaf;
use ion_model::Reason;
use ion_visiting::{Bracket, Visitor};

impl BinaryWalk<'_> {
    /// Tells the scalar that a body is, of which earlier octets were kept, and whose last octet was
    /// taken up.
    pub(super) fn kept_scalar<V: Visitor>(
        &mut self,
        scalar: Scalar,
        visitor: &mut V,
    ) -> Result<Effect, Reason>
        ensures does { StepsInside V.takes self.old
            (λ setting spot fs. judged setting spot fs (judge self.old.context scalar self.old.body))
            result self.new visitor.old visitor.new }
        ensures moves { Moves self.old self.new self.old.used }
    {
        self.begin_value(visitor)?;
        tell_body(&self.context, scalar, &self.body, &mut self.filter, visitor)?;
        self.ended(visitor)
    }

    /// Begins a body of this size, which the form may have, behind its header.
    #[inline(always)]
    pub(super) fn begin<V: Visitor>(
        &mut self,
        form: Form,
        size: u64,
        visitor: &mut V,
    ) -> Result<Effect, Reason>
        requires used { self.old.used < 2 ^ 63 }
        requires size { size < 2 ^ 63 }
        ensures does { (fs : List AnyFrame) → Holds self.old fs → MayBegin form fs →
            Does V.takes (told fs)
            (begin (setting_of self.old) (spot_of self.old) fs form size)
            result self.new visitor.old visitor.new }
        ensures moves { Moves self.old self.new self.old.used }
    {
        match form {
            Form::Pad => self.on_pad(size, visitor),
            Form::Scalar(scalar) => self.begin_scalar(scalar, size, visitor),
            Form::ListOrSexp(listing) => self.begin_listing(listing, size, visitor),
            Form::Struct | Form::OrderedStruct => self.begin_struct(size, visitor),
            Form::Wrapper => self.begin_wrapper(size, visitor),
        }
    }

    fn begin_scalar<V: Visitor>(
        &mut self,
        scalar: Scalar,
        size: u64,
        visitor: &mut V,
    ) -> Result<Effect, Reason>
        ensures does { StepsInside V.takes self.old
            (λ setting spot fs. begin setting spot fs (forms.Scalar scalar) size)
            result self.new visitor.old visitor.new }
        ensures moves { Moves self.old self.new self.old.used }
    {
        if size == 0 {
            return self.leaf(Leaf::Scalar(scalar), &[], visitor);
        }
        self.body.clear();
        self.phase = Phase::InBody(scalar, size - 1);
        Ok(Effect::Goes)
    }

    fn begin_listing<V: Visitor>(
        &mut self,
        listing: ListOrSexp,
        size: u64,
        visitor: &mut V,
    ) -> Result<Effect, Reason>
        requires used { self.old.used < 2 ^ 63 }
        requires size { size < 2 ^ 63 }
        ensures does { StepsInside V.takes self.old
            (λ setting spot fs. begin setting spot fs (forms.ListOrSexp listing) size)
            result self.new visitor.old visitor.new }
        ensures moves { Moves self.old self.new self.old.used }
    {
        if !self.may_deepen() {
            return Err(Reason::Depth);
        }
        self.begin_value(visitor)?;
        let bracket = bracket_of(listing);
        heard(self.filter.open(bracket, visitor))?;
        let end = self.used + size;
        self.frames.push(Container::Items { end, listing })?;
        self.phase = Phase::Ready;
        self.proceed(visitor)
    }

    fn begin_struct<V: Visitor>(&mut self, size: u64, visitor: &mut V) -> Result<Effect, Reason>
        requires used { self.old.used < 2 ^ 63 }
        requires size { size < 2 ^ 63 }
        ensures does { StepsInside V.takes self.old
            (λ setting spot fs. open_struct setting spot fs size)
            result self.new visitor.old visitor.new }
        ensures moves { Moves self.old self.new self.old.used }
    {
        if !self.may_deepen() {
            return Err(Reason::Depth);
        }
        self.begin_value(visitor)?;
        heard(self.filter.open(Bracket::Fields, visitor))?;
        let end = self.used + size;
        self.frames.push(Container::Fields { end })?;
        self.phase = Phase::Ready;
        self.proceed(visitor)
    }

    pub(super) fn begin_wrapper<V: Visitor>(
        &mut self,
        size: u64,
        visitor: &mut V,
    ) -> Result<Effect, Reason>
        requires used { self.old.used < 2 ^ 63 }
        requires size { size < 2 ^ 63 }
        ensures does { (fs : List AnyFrame) → Holds self.old fs → HoldsNoWrapper fs → AreAround fs →
            Does V.takes (told fs)
            (begin (setting_of self.old) (spot_of self.old) fs forms.Wrapper size)
            result self.new visitor.old visitor.new }
        ensures moves { Moves self.old self.new self.old.used }
    {
        self.begin_value(visitor)?;
        let end = self.used + size;
        self.frames.push(Container::Annotated { end })?;
        self.phase = Phase::InNumber(Purpose::AnnotationsLength, 0);
        Ok(Effect::Goes)
    }

    /// Begins a body of this size, if it may stand here.
    pub(super) fn sized<V: Visitor>(
        &mut self,
        form: Form,
        size: u64,
        visitor: &mut V,
    ) -> Result<Effect, Reason>
        requires used { self.old.used < 2 ^ 63 }
        requires size { size < 2 ^ 63 }
        ensures does { Steps V.takes self.old (λ setting spot fs. sized setting spot fs form size)
            result self.new visitor.old visitor.new }
        ensures moves { Moves self.old self.new self.old.used }
    {
        if let Some(reason) = hollow(form, size) {
            return Err(reason);
        }
        match self.unfit(form, self.used + size) {
            Some(reason) => Err(reason),
            None => self.begin(form, size, visitor),
        }
    }

    /// Goes on before so many octets of a pad.
    pub(super) fn on_pad<V: Visitor>(
        &mut self,
        missing: u64,
        visitor: &mut V,
    ) -> Result<Effect, Reason>
        ensures does { Steps V.takes self.old (λ setting spot fs. on_pad setting spot fs missing)
            result self.new visitor.old visitor.new }
        ensures moves { Moves self.old self.new self.old.used }
    {
        if missing == 0 {
            return self.proceed(visitor);
        }
        self.phase = Phase::InPad(missing - 1);
        Ok(Effect::Goes)
    }
}
