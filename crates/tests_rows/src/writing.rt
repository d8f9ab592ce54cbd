//! What is written of documents, a line for each value or a conversion, however the octets come and
//! go.
use crate::documents::{Asked, Pieces, WHOLE, answers, is_failed_read, is_so};
use crate::row::are_so;
use ion_devices::{FrailReader, FrailWriter, NEVER};
use ion_docs::{Target, convert, show};
use ion_model::Refusal;
use ion_symtab::{Fault, FromRead, Inlet, Limits, ToWrite};
use std::test::Fail;

/// A row's document, of which the lines are written or a conversion.
#[derive(Clone, Copy)]
struct Writing<'a> {
    asked: Asked<'a>,
    target: Option<Target>,
}

/// What has to be written, and what has to be answered.
#[derive(Clone, Copy)]
struct Wanted<'a> {
    written: &'a [u8],
    answer: &'a str,
}

/// What the lines or the conversion answer, and how many reads are made of the document.
type Written = (Result<Result<u64, Refusal>, Fault>, u64);

impl<'a> Writing<'a> {
    /// Puts what is written of a document, where a call takes so many octets at most and one call
    /// fails.
    fn put(self, pieces: Pieces<'_>, takes: usize, fails_at: u64, taken: &mut Vec<u8>) -> Written {
        taken.clear();
        let mut reader = pieces.reader();
        let mut writer = ToWrite::new(FrailWriter::new(taken, takes, fails_at));
        let answer = self.write(&mut reader, &mut writer);
        (answer, reader.calls())
    }

    fn write(
        self,
        reader: &mut FromRead<FrailReader<'_>>,
        writer: &mut ToWrite<FrailWriter<'_>>,
    ) -> Result<Result<u64, Refusal>, Fault> {
        let Asked {
            alloc,
            catalog,
            limits,
            ..
        } = self.asked;
        match self.target {
            None => show(alloc, reader, writer, catalog, limits),
            Some(target) => convert(alloc, reader, writer, target, catalog, limits),
        }
    }

    /// Fails, where anything else is written or answered: however the octets come, and however few
    /// a call takes, none too. Each read and each write fails once, the flush behind the last too:
    /// then what was written before stands.
    fn writes(self, wanted: Wanted<'_>) -> Result<(), Fail> {
        let mut taken = Vec::new(self.asked.alloc);
        self.writes_each_cut(wanted, &mut taken)?;
        self.fails_at_each_read(wanted, &mut taken)?;
        self.fails_at_each_call(wanted, &mut taken)?;
        self.takes_nothing(wanted, &mut taken)
    }

    fn writes_each_cut(self, wanted: Wanted<'_>, taken: &mut Vec<u8>) -> Result<(), Fail> {
        let document = self.asked.document;
        for first in 1..=document.len() + 1 {
            for takes in [first, WHOLE] {
                let (answer, _) = self.put(Pieces::cut(document, first), takes, NEVER, taken);
                answers(wanted.answer, answer?)?;
                are_so(taken.as_slice() == wanted.written, taken.as_slice())?;
            }
        }
        Ok(())
    }

    /// Fails, where one of the reads fails and that is not the answer, or what was written before
    /// is no front.
    fn fails_at_each_read(self, wanted: Wanted<'_>, taken: &mut Vec<u8>) -> Result<(), Fail> {
        let pieces = Pieces::each(self.asked.document, 1);
        let (_, reads) = self.put(pieces, WHOLE, NEVER, taken);
        for fails_at in 0..reads {
            let (answer, _) = self.put(pieces.failing(fails_at), WHOLE, NEVER, taken);
            is_failed_read(fails_at, answer.err())?;
            let is_front = wanted.written.starts_with(taken.as_slice());
            are_so(is_front, taken.as_slice())?;
        }
        Ok(())
    }

    /// Fails, where a writer takes no octet of some and that is not the answer.
    fn takes_nothing(self, wanted: Wanted<'_>, taken: &mut Vec<u8>) -> Result<(), Fail> {
        if wanted.written.is_empty() {
            return Ok(());
        }
        let (answer, _) = self.put(Pieces::each(self.asked.document, WHOLE), 0, NEVER, taken);
        is_so(answer == Err(Fault::Write) && taken.is_empty(), answer)
    }

    /// Fails, where a call of the writer fails and that is not the answer, or not what was written
    /// before stands.
    fn fails_at_each_call(self, wanted: Wanted<'_>, taken: &mut Vec<u8>) -> Result<(), Fail> {
        for calls in 0..=wanted.written.len() {
            let front = wanted.written.get(..calls).unwrap_or(&[]);
            for first in [4, WHOLE] {
                let pieces = Pieces::cut(self.asked.document, first);
                let (answer, _) = self.put(pieces, 1, calls as u64, taken);
                is_so(answer == Err(Fault::Write), (calls, answer))?;
                are_so(taken.as_slice() == front, taken.as_slice())?;
            }
        }
        Ok(())
    }

    /// Fails, where anything else is written of a row's document than field `number` spells, by the
    /// call or by the command.
    fn is_written(self, number: usize, answer: &str) -> Result<(), Fail> {
        let octets = self.asked.row.octets(self.asked.alloc, number)?;
        let written = octets.as_slice();
        self.writes(Wanted { written, answer })?;
        match self.target {
            None => self.asked.is_shown(written, answer),
            Some(target) => self.asked.is_converted(target, written, answer),
        }
    }
}

/// `show` | a document | the lines | how many values, or the offset and the reason of the refusal |
/// limits and the shared table.
pub fn shows(asked: Asked<'_>) -> Result<(), Fail> {
    let target = None;
    Writing { asked, target }.is_written(2, asked.row.field(3))
}

/// The encodings, and the field of a row that has what is written in each.
const TARGETS: [(Target, usize); 2] = [(Target::Binary, 2), (Target::Text, 3)];

/// `convert` | a document | its conversion to binary | and to text | how many values, or the offset
/// and the reason of the refusal | limits and the shared table.
///
/// What was written is read as the same stream, and converted once more is as it was.
pub fn converts(asked: Asked<'_>) -> Result<(), Fail> {
    for (target, number) in TARGETS {
        let target = Some(target);
        Writing { asked, target }.is_written(number, asked.row.field(4))?;
    }
    let usual = Limits::usual();
    let limits = Limits::new(128, usual.item(), usual.reads()).ok_or("limits")?;
    for (_, number) in TARGETS {
        is_converted_again(asked, limits, number)?;
    }
    Ok(())
}

/// Fails, where what a field spells is converted otherwise to either encoding.
fn is_converted_again(asked: Asked<'_>, limits: Limits, number: usize) -> Result<(), Fail> {
    let document = asked.row.octets(asked.alloc, number)?;
    converts_to_both(Asked {
        document: document.as_slice(),
        limits,
        ..asked
    })
}

fn converts_to_both(asked: Asked<'_>) -> Result<(), Fail> {
    let pieces = Pieces::each(asked.document, WHOLE);
    let mut taken = Vec::new(asked.alloc);
    for (target, number) in TARGETS {
        let target = Some(target);
        let _ = Writing { asked, target }.put(pieces, WHOLE, NEVER, &mut taken);
        asked
            .row
            .wants_octets(asked.alloc, number, taken.as_slice())?;
    }
    Ok(())
}

/// The number that stands at this place between blanks.
fn nth(field: &str, place: usize) -> Result<usize, Fail> {
    let word = field.split_whitespace().nth(place).ok_or("a number")?;
    Ok(word.parse::<usize>()?)
}

/// `cut` | a document | where its values end | what is written of all | behind how many octets of
/// that a value ends, at first those of a document of none | `binary` or `text`, which it is
/// converted to.
///
/// Where it is cut the values that are whole are written, and nothing of one that was half told.
pub fn is_cut(asked: Asked<'_>) -> Result<(), Fail> {
    let written = asked.row.octets(asked.alloc, 3)?;
    let document = asked.document;
    for cut in 0..=document.len() {
        let count = ended_in(asked.row.field(2), cut)?;
        let length = nth(asked.row.field(4), count)?;
        let mut front = asked;
        front.document = document.get(..cut).unwrap_or(&[]);
        writes_front(front, count as u64, written.get(..length).unwrap_or(&[]))?;
    }
    Ok(())
}

/// How many of these places are no further than this one.
fn ended_in(ends: &str, cut: usize) -> Result<usize, Fail> {
    let mut count: usize = 0;
    for end in ends.split_whitespace() {
        if end.parse::<usize>()? <= cut {
            count = count.saturating_add(1);
        }
    }
    Ok(count)
}

/// Fails, where anything else is written of a document with each length of its first piece, or it
/// is answered otherwise than by so many values or a refusal.
fn writes_front(asked: Asked<'_>, count: u64, wanted: &[u8]) -> Result<(), Fail> {
    let target = match asked.row.field(5) {
        "binary" => Some(Target::Binary),
        _ => Some(Target::Text),
    };
    let mut taken = Vec::new(asked.alloc);
    for first in 1..=asked.document.len() + 1 {
        let pieces = Pieces::cut(asked.document, first);
        let (answer, _) = Writing { asked, target }.put(pieces, WHOLE, NEVER, &mut taken);
        let answer = answer?;
        is_so(answer.is_err() || answer == Ok(count), answer)?;
        are_so(taken.as_slice() == wanted, taken.as_slice())?;
    }
    Ok(())
}
