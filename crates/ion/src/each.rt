//! The values of a document as an iterator.
use crate::one_by_one::Values;
use crate::stop::Stop;
use ion_model::Value;
use ion_symtab::{Inlet, Items};

/// The values of a document as an iterator: each value, and at the end nothing; or what stopped it,
/// and then nothing more. It ends: a document of at most 2^32 reads has finitely many values.
#[derive(Drop)]
pub struct Each<'r, I: Items, R> {
    pub(crate) values: Values<'r, I, R>,
    /// Whether it gave what stopped it.
    pub(crate) stopped: bool,
}

impl<'r, I: Items + Drop, R: Inlet> Iterator for Each<'r, I, R> {
    type Item = Result<Value, Stop>;

    ghost use Rattle.std.specs.Prelude.{◌+◌};
    ghost use Rattle.std.specs.Iterator.{at_most};
    ghost use Rattle.ion_streams.specs.reading.ReadState.{work_of};
    ghost use Rattle.ion.specs.Each.{EachGives, still_one};

    ghost remaining = { λ e. at_most (work_of I.Items e.values.place + still_one e.stopped) };

    ghost next_gives = { λ old item new. EachGives R.Inlet I.Items
        old.values.reader.now old.values.place old.values.fault old.stopped item
        new.values.reader.now new.values.place new.values.fault new.stopped };

    fn next(&mut self) -> Option<Result<Value, Stop>> {
        if self.stopped {
            return None;
        }
        match self.values.next() {
            Ok(None) => None,
            Ok(Some(value)) => Some(Ok(value)),
            Err(stop) => {
                self.stopped = true;
                Some(Err(stop))
            }
        }
    }
}
