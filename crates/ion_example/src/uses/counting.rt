//! How many strings has a document, at whatever depth? A visitor of one's own counts them.
ghost use Rattle.std.specs.Prelude.{◌≡◌, List, IfOk, OnOk, IfErr};
ghost use Rattle.ion_model.specs.declared.value.Value.{Value};
ghost use Rattle.ion_streams.specs.Outcomes.{ToldDocument};
ghost use Rattle.ion_docs.specs.Formats.{documents};
ghost use Rattle.ion_example.specs.Strings.{strings_of};

use ion::visiting::{Bracket, Number, Part, Visitor};
use ion::{Catalog, Fault, Inlet, Limits, Refusal, visit};
use std::alloc::Global;

/// How many strings were told. It answers `false` beyond 2^64-1 of them.
#[derive(Drop)]
struct Strings {
    count: u64,
}

impl Visitor for Strings {
    ghost use Rattle.ion_example.specs.Strings.{counts};

    ghost takes = { counts };

    fn part(&mut self, said: &Part<'_>) -> bool {
        let Part::Str(_) = said else {
            return true;
        };
        match self.count.checked_add(1) {
            None => false,
            Some(count) => {
                self.count = count;
                true
            }
        }
    }

    fn number(&mut self, _number: Number) -> bool {
        true
    }

    fn unknown_symbol(&mut self) -> bool {
        true
    }

    fn annotation(&mut self, _text: Option<&str>) -> bool {
        true
    }

    fn name(&mut self, _text: Option<&str>) -> bool {
        true
    }

    fn open(&mut self, _bracket: Bracket) -> bool {
        true
    }

    fn close(&mut self, _bracket: Bracket) -> bool {
        true
    }

    fn ended(&mut self) -> bool {
        true
    }
}

/// How many strings the values of a document hold; names of fields, symbols and annotations are
/// none. No value is built, however great it is.
pub(crate) fn strings_in<R: Inlet>(
    alloc: Global,
    reader: &mut R,
    catalog: &Catalog,
    limits: Limits,
) -> Result<Result<u64, Refusal>, Fault>
    ensures { IfOk result (λ answer. IfOk answer (λ count. (s : List Value)
        × ToldDocument R.Inlet (documents catalog.now limits) reader.old reader.new s
        × (count ≡ strings_of s))) }
{
    let mut strings = Strings { count: 0 };
    match visit(alloc, reader, catalog, limits, &mut strings)? {
        Ok(_) => Ok(Ok(strings.count)),
        Err(refusal) => Ok(Err(refusal)),
    }
}
