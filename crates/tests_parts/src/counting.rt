//! A client of the scanner: the clauses of `Scanner::step` alone say that its loop ends.
ghost use Rattle.std.specs.Prelude.{◌≡◌, ◌+◌, ◌<◌, ◌^◌, ◌≤◌, Some, None, length, OnOk, IfErr};
ghost use Rattle.ion_atoms.specs.declared.refusal.Refusal.{Refusal};
ghost use Rattle.ion_tokens.specs.machine.Views.{scanned, looks, failure};
ghost use Rattle.tests_parts.specs.declared.counting.Uncounted.TheVariants.{Refused, TooLong};

use ion_model::Refusal;
use ion_tokens::{Body, Mark, Place, Scan, Scanner};
use std::alloc::{AllocError, Global};

/// Where the next token stands, and how many came before it.
#[derive(Drop)]
pub struct Count {
    outer: Vec<Place>,
    place: Place,
    tokens: u64,
}

/// Why nothing more is counted.
#[derive(Clone, Copy, Debug, PartialEq)]
pub enum Uncounted {
    /// A growth was refused.
    Memory,
    /// More than 2^62 octets were taken up.
    TooLong,
    /// The scanner refuses the octets.
    Refused(Refusal),
}

impl Count {
    /// No token, at the top level.
    pub fn new(alloc: Global) -> Count
        ensures { result.tokens ≡ 0 }
    {
        Count {
            outer: Vec::new(alloc),
            place: Place::Top,
            tokens: 0,
        }
    }

    /// How many tokens came.
    pub fn tokens(&self) -> u64
        ensures { result ≡ self.now.tokens }
    {
        self.tokens
    }

    fn enter(&mut self, place: Place) -> Result<(), AllocError> {
        self.outer.push(self.place)?;
        self.place = place;
        Ok(())
    }

    fn add(&mut self, body: Body<'_>) -> Result<(), AllocError> {
        self.tokens = self.tokens.saturating_add(1);
        match body {
            Body::Mark(Mark::FieldsOpen) => self.enter(Place::Name)?,
            Body::Mark(Mark::ListOpen) => self.enter(Place::List)?,
            Body::Mark(Mark::SexpOpen) => self.enter(Place::Sexp)?,
            Body::Mark(Mark::FieldsClose | Mark::ListClose | Mark::SexpClose) => {
                self.place = self.outer.pop().unwrap_or(Place::Top);
            }
            Body::Mark(Mark::Colon) => self.place = Place::FieldValue,
            Body::Mark(Mark::Comma) if matches!(self.place, Place::FieldValue) => {
                self.place = Place::Name;
            }
            _ => {}
        }
        Ok(())
    }
}

/// Counts the tokens that a piece of at most 4096 octets ends, all of which it uses; or says why
/// not. A refusal is the scanner's, which keeps it.
pub fn count_piece(scanner: &mut Scanner, count: &mut Count, piece: &[u8]) -> Result<(), Uncounted>
    requires going { failure scanner.old ≡ None }
    requires short { length piece.now ≤ 4096 }
    ensures going { OnOk result (failure scanner.new ≡ None) }
    ensures uses_all { OnOk result
        ((scanned scanner.new).used ≡ (scanned scanner.old).used + length piece.now) }
    ensures refused { IfErr result (λ uncounted. (refusal : Refusal) →
        uncounted ≡ Refused refusal → failure scanner.new ≡ Some refusal) }
    ensures too_long { IfErr result (λ uncounted. uncounted ≡ TooLong → 2 ^ 62 < looks scanner.new) }
{
    let mut at = 0usize;
    while at < piece.len() {
        if scanner.looked() > 1 << 62 {
            return Err(Uncounted::TooLong);
        }
        match scanner.step(&piece[at..], count.place) {
            Ok(Scan { used, token }) => {
                at += used;
                if let Some(token) = token {
                    match count.add(token.body) {
                        Ok(()) => {}
                        Err(_) => return Err(Uncounted::Memory),
                    }
                }
            }
            Err(refusal) => return Err(Uncounted::Refused(refusal)),
        }
    }
    Ok(())
}
