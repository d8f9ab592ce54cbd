//! What is made of values that are told event by event.
ghost use Rattle.std.specs.Prelude.{◌≡◌, true, None, Some, option_map};
ghost use Rattle.ion_model.specs.declared.value.Payload.{Payload};
ghost use Rattle.ion_model.specs.declared.value.Payload.TheVariants as payloads;
ghost use Rattle.ion_model.specs.declared.value.Payload.TheViews.{out-Payload};
ghost use Rattle.ion_model.specs.Kinds.{layer_kind};
ghost use Rattle.ion_visiting.specs.Events.{Event, part, annotation, name, opens, closes, ended};
ghost use Rattle.ion_visiting.specs.Parts.{body_payload, number_payload, payload_of};

use crate::bracket::Bracket;
use crate::part::{NumberBody, Part};
use ion_model::{Kind, Symbol};
use ion_scalar::Number;

/// What is told values, event by event, symbols by their texts or as unknown. Whoever tells holds
/// no values; what a visitor needs of the containers that are open it keeps by itself.
///
/// Each call answers `false` where the visitor can't go on, as where memory was refused. Its state
/// means nothing then.
pub trait Visitor {
    /// From which state to which an event leads it.
    ghost takes: { Self → Event → Self → Type 0 };

    /// Whether it heeds nothing of what the next part says: then that needn't be read for it, and it
    /// is told by `any_part`.
    fn heeds_nothing(&self) -> bool {
        false
    }

    /// Whether it heeds of no part more than its kind, whatever is told before it: then octets of a
    /// long one may be let go, also before its field's name is told, and it is told by `of_kind`.
    fn heeds_kinds_alone(&self) -> bool {
        false
    }

    /// A part, whatever it says. Only where `heeds_nothing`. Answers `None`, and does nothing, where it
    /// has to be told this one as it is.
    fn any_part(&mut self) -> Option<bool>
        ensures told { result ≡ Some true →
            (payload : Payload) → takes self.old (part payload) self.new }
        ensures none { result ≡ None → self.new ≡ self.old }
    {
        None
    }

    /// A part of this kind, whatever it says. Only where `heeds_kinds_alone`. Answers `None`, and does
    /// nothing, where it has to be told this one as it is; octets of it that were let go are lost then,
    /// and whoever tells it answers `Memory`.
    fn of_kind(&mut self, _kind: Kind) -> Option<bool>
        ensures told { result ≡ Some true → (payload : Payload) →
            layer_kind (out-Payload payload) ≡ _kind → takes self.old (part payload) self.new }
        ensures none { result ≡ None → self.new ≡ self.old }
    {
        None
    }

    /// A value with no value in it, but no number and no symbol of unknown text.
    fn part(&mut self, said: &Part<'_>) -> bool
        ensures { result ≡ true → takes self.old (part (payload_of said.now)) self.new };

    /// A number.
    fn number(&mut self, number: Number) -> bool
        ensures { result ≡ true → takes self.old (part (number_payload number)) self.new };

    /// Whether it keeps numbers as they are encoded: then they may be told by `number_body`, and needn't be
    /// read for it.
    fn keeps_number_bodies(&self) -> bool {
        false
    }

    /// The number whose body this is. Only where it is one, and where `keeps_number_bodies`. Answers `None`,
    /// and does nothing, where it has to be told this one by `number`.
    fn number_body(&mut self, _body: &NumberBody<'_>) -> Option<bool>
        ensures told { result ≡ Some true →
            takes self.old (part (body_payload _body.now)) self.new }
        ensures none { result ≡ None → self.new ≡ self.old }
    {
        None
    }

    /// A symbol of unknown text.
    fn unknown_symbol(&mut self) -> bool
        ensures { result ≡ true → takes self.old (part (payloads.Symbol None)) self.new };

    /// An annotation of the value that follows; `None` where its text is unknown.
    fn annotation(&mut self, text: Option<&str>) -> bool
        ensures { result ≡ true →
            takes self.old (annotation (option_map (λ t. t.now) text.entry)) self.new };

    /// The name of the field whose value follows; `None` where its text is unknown.
    fn name(&mut self, text: Option<&str>) -> bool
        ensures { result ≡ true →
            takes self.old (name (option_map (λ t. t.now) text.entry)) self.new };

    /// A symbol that is a value, where it is at hand: its text may be shared.
    fn symbol(&mut self, symbol: &Symbol) -> bool
        ensures { result ≡ true →
            takes self.old (part (payloads.Symbol symbol.now)) self.new }
    {
        match symbol.text() {
            None => self.unknown_symbol(),
            Some(text) => self.part(&Part::Symbol(text)),
        }
    }

    /// The same of an annotation.
    fn symbol_annotation(&mut self, symbol: &Symbol) -> bool
        ensures { result ≡ true → takes self.old (annotation symbol.now) self.new }
    {
        self.annotation(symbol.text())
    }

    /// The same of a field's name.
    fn symbol_name(&mut self, symbol: &Symbol) -> bool
        ensures { result ≡ true → takes self.old (name symbol.now) self.new }
    {
        self.name(symbol.text())
    }

    /// The front of a list, an s-expression or a struct.
    fn open(&mut self, bracket: Bracket) -> bool
        ensures { result ≡ true → takes self.old (opens bracket) self.new };

    /// The end of the one that was opened last.
    fn close(&mut self, bracket: Bracket) -> bool
        ensures { result ≡ true → takes self.old (closes bracket) self.new };

    /// The end of a value of the top level.
    fn ended(&mut self) -> bool
        ensures { result ≡ true → takes self.old ended self.new };
}
