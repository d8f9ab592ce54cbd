//! The symbols of a document that is written.
ghost use Rattle.std.specs.Prelude.{◌≡◌, None, Some, MatchResult, option_map};
ghost use Rattle.std.proofs.Common.{ap};
ghost use Rattle.std.specs.Cmp.{partial_equiv_from_equiv};
ghost use Rattle.ion_names.specs.Names.{name_fed, same_is_equal, symbol_same};
ghost use Rattle.ion_model.specs.laws.Equivalence.{symbol_same-equiv};
ghost use Rattle.ion_symtab.specs.declared.fault.Fault.TheVariants as faults;

use arrayvec::ArrayString;
use ion_symtab::Fault;
use std::alloc::Global;
use std::hash::{Hash, Hasher};
use std::marker::Model;

/// How many octets of a text are kept in place.
const SHORT: usize = 24;

/// A text that may be unknown. Most are short, and take no memory beside the name's.
#[derive(Drop)]
pub enum Text {
    Unknown,
    Short(ArrayString<SHORT>),
    Long(String),
}

/// A symbol that has an id. Its text is its own: a `Symbol` shares it, which takes two blocks of
/// memory.
#[derive(Drop)]
pub struct Name {
    text: Text,
}

impl Model for Name {
    ghost use Rattle.std.specs.Prelude.{Option, List, ℕ};
    ghost use Rattle.ion_names.specs.Texts.{text_in};

    ghost Value = { Option (List ℕ) };

    ghost view = { λ n. text_in n.text };
}

impl Name {
    /// The symbol of unknown text. Takes no memory.
    pub fn unknown() -> Name
        ensures { result ≡ None }
    {
        Name {
            text: Text::Unknown,
        }
    }

    /// The symbol of this text. The only fault is `Memory`.
    pub fn known(alloc: Global, text: &str) -> Result<Name, Fault>
        ensures { MatchResult result (λ n. n ≡ Some text.now) (λ f. f ≡ faults.Memory) }
    {
        let text = match ArrayString::from(text) {
            Ok(short) => Text::Short(short),
            Err(_) => Text::Long(String::from_str(alloc, text)?),
        };
        Ok(Name { text })
    }

    /// The text, `None` where it is unknown. Takes no memory.
    #[inline(always)]
    pub fn text(&self) -> Option<&str>
        ensures { option_map (λ t. t.now) result ≡ self.now }
    {
        match &self.text {
            Text::Unknown => None,
            Text::Short(text) => Some(text.as_str()),
            Text::Long(text) => Some(text.as_str()),
        }
    }
}

impl PartialEq for Name {
    ghost eq = { symbol_same };

    ghost laws = { partial_equiv_from_equiv symbol_same-equiv };

    fn eq(&self, other: &Name) -> bool {
        match (self.text(), other.text()) {
            (None, None) => true,
            (Some(text), Some(other)) => text == other,
            _ => false,
        }
    }
}

impl Eq for Name {
    ghost laws = { symbol_same-equiv };
}

impl Hash for Name {
    ghost hash_input = { name_fed };

    ghost respects_eq = { λ a b same. ap name_fed (same_is_equal a b same) };

    fn hash<H: Hasher>(&self, state: &mut H) {
        if let Some(text) = self.text() {
            text.hash(state);
        }
    }
}
