//! Lists of symbols that several tables and contexts share.
ghost use Rattle.std.specs.Prelude.{◌≡◌, MatchResult};
ghost use Rattle.ion_atoms.specs.declared.refusal.Reason.TheVariants as reasons;
ghost use Rattle.ion_model.specs.Symbols.{AreTexts};

use ion_model::{Reason, Symbol};
use std::alloc::Global;
use std::marker::Model;
use std::rc::Rc;

/// Symbols in order, which contracts see as their list. Copies share the memory.
#[derive(Drop, Debug)]
pub(crate) struct Symbols {
    shared: Rc<Vec<Symbol>>,
}

impl Model for Symbols {
    ghost use Rattle.std.specs.Prelude.{List, ℕ, Option};

    ghost Value = { List (Option (List ℕ)) };

    ghost view = { λ s. s.shared.value.items };

    ghost use Rattle.ion_model.specs.Symbols.{AreTexts};

    ghost invariant = { λ s. AreTexts s.shared.value.items };
}

impl Symbols {
    /// These symbols. The only refusal is `Memory`.
    pub(crate) fn from_vec(alloc: Global, symbols: Vec<Symbol>) -> Result<Symbols, Reason>
        ensures { MatchResult result (λ s. s ≡ symbols.items) (λ r. r ≡ reasons.Memory) }
    {
        for symbol in &symbols {
            symbol.kept();
        }
        let shared = Rc::new(alloc, symbols)?;
        Ok(Symbols { shared })
    }

    /// What the symbols keep about themselves: texts that are known are UTF-8. Does nothing.
    pub(crate) fn kept(&self)
        ensures { AreTexts self.now }
    {
        let _shared = &self.shared;
    }

    /// The same symbols, shared. The only refusal is `Memory`.
    pub(crate) fn share(&self) -> Result<Symbols, Reason>
        ensures { MatchResult result (λ s. s ≡ self.now) (λ r. r ≡ reasons.Memory) }
    {
        let shared = self.shared.clone()?;
        Ok(Symbols { shared })
    }

    /// The symbols in order.
    pub(crate) fn as_slice(&self) -> &[Symbol]
        ensures { result.now ≡ self.now }
    {
        self.shared.as_slice()
    }
}

/// Copies that share the texts. The only refusal is `Memory`.
pub(crate) fn copies_of(alloc: Global, symbols: &[Symbol]) -> Result<Vec<Symbol>, Reason>
    ensures { MatchResult result (λ c. c.items ≡ symbols.now) (λ r. r ≡ reasons.Memory) }
{
    let mut copies = Vec::new(alloc);
    for symbol in symbols {
        let copy = symbol.copy()?;
        copies.push(copy)?;
    }
    Ok(copies)
}
