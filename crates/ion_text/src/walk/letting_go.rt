//! Texts and blobs that nobody asks for aren't held.
ghost use Rattle.std.specs.Prelude.{◌≡◌, ℕ, List};
ghost use Rattle.ion_text.specs.Names.{Event, Told, Value as AnyValue, failed, octets_used, pending};
ghost use Rattle.ion_text.specs.walk.Advances.{SameSettings};

use super::TextWalk;
use crate::state::Stage;
use ion_tokens::Place;
use ion_visiting::Visitor;

impl TextWalk<'_> {
    /// Lets go octets of the open string, clob or blob, if the visitor heeds its kind alone. What it
    /// stands for stays the same.
    pub(super) fn let_go<V: Visitor>(&mut self, visitor: &V)
        ensures used { octets_used self.new ≡ octets_used self.old }
        ensures pending { pending self.new ≡ pending self.old }
        ensures awaited { self.new.awaited ≡ self.old.awaited }
        ensures failed { failed self.new ≡ failed self.old }
        ensures told { (u : List ℕ) (s : List (AnyValue × ℕ)) (es : List Event) →
            Told self.old u s es → Told self.new u s es }
        ensures setting { SameSettings self.old self.new }
    {
        if !visitor.heeds_kinds_alone() || self.filter.may_be_table() {
            return;
        }
        match self.place() {
            Place::Name => {}
            _ => self.scanner.let_go(),
        }
        if let Stage::Long(text, _) = &mut self.stage {
            text.let_go(self.alloc);
        }
    }
}
