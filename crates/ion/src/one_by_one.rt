//! The values of a document, one by one.
ghost use Rattle.std.specs.Prelude.{◌≡◌, ℕ, ◌+◌, ◌^◌, ◌<◌, ◌≤◌, List, [], ◌++◌, ◌*◌, length, false, Ok, Some, None, IfOk, IfErr, OnOk, OnErr, IfSome, IsSome, option_to_list};
ghost use Rattle.ion.specs.Names.{Catalog, GaveSoFar, IfClosed, IfOpen, IsFresh, IsReadCause, IsReady, IsWithin, Limits, NoReadFailed, Stood, Value, reads_of, work_of};
ghost use Rattle.ion.specs.Readable.{CanGoOn};
ghost use Rattle.ion.specs.Given.{HasGiven, IfAnswered, IsNext, WentOn, answer_of, given_by, settled};

use crate::each::Each;
use crate::stop::Stop;
use ion_model::Value;
use ion_streams::{PieceReader, ReadState};
use ion_symtab::{Fault, Inlet, Items};
use std::alloc::Global;

/// A document whose values are asked for one by one: `items` takes up the octets, which come from a
/// device. It holds 4096 octets at most, and what the reader keeps of the value that it reads.
#[derive(Drop)]
pub struct Values<'r, I: Items, R> {
    /// The device that the octets come from.
    pub(crate) reader: &'r mut R,
    /// Where the document stands.
    pub(crate) place: ReadState<I>,
    /// The fault at which reading ended, if it did.
    pub(crate) fault: Option<Fault>,
    ghost ready: { CanGoOn I.Items place },
}

/// The values of a document one by one, whose octets `items` reads from `reader` in at most `reads`
/// calls. Nothing is read yet. `Memory`, and no other fault, where a growth was refused.
pub fn values_by<'r, I: Items + Drop, R: Inlet>(
    alloc: Global,
    items: I,
    reads: u64,
    reader: &'r mut R,
) -> Result<Values<'r, I, R>, Fault>
    requires fresh { IsFresh I.Items items }
    requires reads { reads ≤ 2 ^ 32 }
    requires within { (I.limits items).reads ≡ reads }
    ensures same_reader { IfOk result (λ values.
        values.reader.ghost_name ≡ reader.entry.ghost_name) }
    ensures unread { IfOk result (λ values. values.reader.now ≡ reader.old) }
    ensures begun { IfOk result (λ values. HasGiven R.Inlet I.Items (I.catalog items)
        (I.limits items)
        reader.old reader.old values.place values.fault []) }
    ensures reads { IfOk result (λ values. reads_of values.place ≡ reads) }
    ensures cause { IfErr result (λ fault. fault ≡ Fault.Memory) }
{
    let source = PieceReader::new(alloc, items, reads)?;
    Ok(Values {
        reader,
        place: ReadState::Open(source),
        fault: None,
    })
}

impl<'r, I: Items + Drop, R: Inlet> Values<'r, I, R> {
    /// The values as an iterator.
    pub fn each(self) -> Each<'r, I, R>
        ensures same_reader { result.values.reader.ghost_name ≡ self.entry.reader.ghost_name }
        ensures same { (result.values.reader.now ≡ self.entry.reader.now)
            × (result.values.place ≡ self.entry.place) × (result.values.fault ≡ self.entry.fault) }
        ensures going { result.stopped ≡ false }
    {
        Each {
            values: self,
            stopped: false,
        }
    }

    /// The next value of the document; `None` exactly at its end, where the octets that `reader`
    /// handed over are a document. The values so far are the first of the stream of whichever
    /// document begins with the octets that were handed over.
    ///
    /// `Stop::Refused` where the octets are no document: refusals and their offsets are those of
    /// `check`. `Stop::Fault` with `Memory`, `Read` or `TooManyReads`, which says nothing of the
    /// octets. Behind the end, a refusal or a fault each call answers the same, and `reader` isn't
    /// asked any more.
    pub fn next(&mut self) -> Result<Option<Value>, Stop>
        ensures next { (g : Catalog) (l : Limits) (first : R) (s : List Value) →
            HasGiven R.Inlet I.Items g l first self.old.reader.now
            self.old.place self.old.fault s →
            IsNext R.Inlet I.Items g l first self.new.reader.now s result }
        ensures goes_on { (g : Catalog) (l : Limits) (first : R) (s : List Value) →
            HasGiven R.Inlet I.Items g l first self.old.reader.now
            self.old.place self.old.fault s →
            HasGiven R.Inlet I.Items g l first self.new.reader.now
            self.new.place self.new.fault (s ++ given_by result) }
        ensures same_reader { self.new.reader.ghost_name ≡ self.old.reader.ghost_name }
        ensures fused { IfSome (settled self.old.place self.old.fault) (λ answer.
            (result ≡ answer) × (self.new.reader.now ≡ self.old.reader.now)
            × (self.new.place ≡ self.old.place) × (self.new.fault ≡ self.old.fault)) }
        ensures settles { given_by result ≡ [] →
            settled self.new.place self.new.fault ≡ Some result }
        ensures less { IfOk result (λ value. IsSome value →
            work_of I.Items self.new.place < work_of I.Items self.old.place) }
        ensures no_more { work_of I.Items self.new.place ≤ work_of I.Items self.old.place }
        ensures few_calls { R.calls_made self.new.reader.now + reads_of self.new.place
            ≤ R.calls_made self.old.reader.now + reads_of self.old.place }
        ensures few_octets { length (R.handed self.new.reader.now)
            + 4096 * reads_of self.new.place
            ≤ length (R.handed self.old.reader.now) + 4096 * reads_of self.old.place }
        ensures no_read_failed { IfAnswered result
            (NoReadFailed R.Inlet self.old.reader.now self.new.reader.now) }
    {
        if let Some(fault) = self.fault {
            return Err(Stop::Fault(fault));
        }
        match go_on(&mut self.place, self.reader) {
            Ok(value) => answer_of(&self.place, value),
            Err(fault) => {
                self.fault = Some(fault);
                Err(Stop::Fault(fault))
            }
        }
    }
}

/// What is answered of a document that gave this, and stands there.
fn answer_of<I>(place: &ReadState<I>, value: Option<Value>) -> Result<Option<Value>, Stop>
    ensures { result ≡ answer_of place.now value }
{
    match place {
        ReadState::Refused(refusal) => {
            drop(value);
            Err(Stop::Refused(*refusal))
        }
        _ => Ok(value),
    }
}

/// Reads on up to the next value, or to the end, where the document is open; else it stays where it
/// stands. At a fault it isn't open any more.
///
/// Faults are `Memory`, `Read` and `TooManyReads`.
fn go_on<I: Items + Drop, R: Inlet>(
    place: &mut ReadState<I>,
    reader: &mut R,
) -> Result<Option<Value>, Fault>
    requires { IfOpen place.old (IsReady I.Items) }
    ensures gives { IfOk result (λ value. (g : Catalog) (l : Limits) (first : R) (s : List Value) →
        Stood R.Inlet I.Items g l first reader.old place.old s →
        WentOn R.Inlet I.Items g l first reader.new place.new s value) }
    ensures none { IfOk result (λ value. value ≡ None → IfOpen place.new (λ after. ⊥)) }
    ensures ready { IfOpen place.new (IsReady I.Items) }
    ensures closed { IfClosed place.old
        ((result ≡ Ok None) × (reader.new ≡ reader.old) × (place.new ≡ place.old)) }
    ensures less { IfOk result (λ value. IsSome value →
        work_of I.Items place.new < work_of I.Items place.old) }
    ensures no_more { work_of I.Items place.new ≤ work_of I.Items place.old }
    ensures within { IfOk result (λ value. (first : R) (reads : ℕ) →
        IfOpen place.old (IsWithin R.Inlet reads first reader.old) →
        IfOpen place.new (IsWithin R.Inlet reads first reader.new)) }
    ensures few_calls { R.calls_made reader.new + reads_of place.new
        ≤ R.calls_made reader.old + reads_of place.old }
    ensures few_octets { length (R.handed reader.new) + 4096 * reads_of place.new
        ≤ length (R.handed reader.old) + 4096 * reads_of place.old }
    ensures no_read_failed { OnOk result (NoReadFailed R.Inlet reader.old reader.new) }
    ensures cause { IfErr result (λ fault. (first : R) (reads : ℕ) →
        IfOpen place.old (IsWithin R.Inlet reads first reader.old) →
        IsReadCause R.Inlet reads first reader.new fault) }
    ensures kept { OnErr result ((g : Catalog) (l : Limits) (first : R) (s : List Value) →
        Stood R.Inlet I.Items g l first reader.old place.old s →
        GaveSoFar R.Inlet I.Items g l first reader.new s) }
{
    match place.advance(reader)? {
        None => Ok(None),
        Some((value, _)) => Ok(Some(value)),
    }
}
