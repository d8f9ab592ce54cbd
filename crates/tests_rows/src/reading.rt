//! What the readers answer on worked documents: whole, in single octets, at every cut, and on each
//! prefix.
ghost use Rattle.std.specs.Prelude.{◌≡◌, ℕ, ◌+◌, ◌≤◌, ◌<◌, ◌^◌, ◌∷◌, List, true, length, IfOk, IfSome, None};

use crate::documents::{Asked, Pieces, WHOLE, is_so, refuses};
use crate::row::Row;
use crate::values::wants_text;
use ion_binary::BinaryReader;
use ion_docs::{DocReader, Target, read_all, read_document};
use ion_model::{Reason, Refusal, Value};
use ion_symtab::{Items, Step};
use ion_text::TextReader;
use std::alloc::{AllocError, Global};
use std::test::Fail;

/// What a reader answered.
#[derive(Drop)]
struct Answers {
    values: Vec<Value>,
    /// The octets used up to where each value comes.
    totals: Vec<u64>,
    /// The octets that each step used, and whether it gave a value.
    steps: Vec<(usize, bool)>,
    refusal: Option<Refusal>,
}

impl Answers {
    fn new(alloc: Global) -> Answers {
        Answers {
            values: Vec::new(alloc),
            totals: Vec::new(alloc),
            steps: Vec::new(alloc),
            refusal: None,
        }
    }

    /// None yet.
    fn clear(&mut self) {
        self.values.clear();
        self.totals.clear();
        self.steps.clear();
        self.refusal = None;
    }

    fn push(&mut self, value: Value, total: u64) -> Result<(), Fail> {
        self.values.push(value)?;
        Ok(self.totals.push(total)?)
    }

    /// Notes a step, unless it was one over no octets that gave no value.
    fn step(&mut self, used: usize, gives: bool) -> Result<(), Fail> {
        if used > 0 || gives {
            self.steps.push((used, gives))?;
        }
        Ok(())
    }
}

/// Takes up a piece behind `before` octets; `false` where it is refused.
fn take_up<I: Items>(
    reader: &mut I,
    piece: &[u8],
    before: u64,
    answers: &mut Answers,
) -> Result<bool, Fail>
    requires taken { I.taken reader.old ≡ before }
    requires room { before + length piece.now < 2 ^ 63 }
    requires begins { IfSome (I.awaits reader.old) (λ octet.
        (rest : List ℕ) × (piece.now ≡ octet ∷ rest)) }
    ensures taken { IfOk result (λ more. more ≡ true → I.taken reader.new
        ≡ before + length piece.now) }
    ensures none { IfOk result (λ more. more ≡ true → I.awaits reader.new ≡ None) }
{
    let mut at = 0;
    loop {
        match reader.step(&piece[at..]) {
            Ok(Step { used, value }) => {
                at += used;
                match value {
                    Some(value) => {
                        answers.push(value, before + at as u64)?;
                        answers.step(used, true)?;
                    }
                    None => {
                        answers.step(used, false)?;
                        return Ok(true);
                    }
                }
            }
            Err(refusal) => {
                answers.refusal = Some(refusal);
                return Ok(false);
            }
        }
    }
}

/// Takes up a document in pieces of `size` octets behind a first one of `cut`; `false` where it is
/// refused.
fn take_pieces<I: Items>(
    reader: &mut I,
    document: &[u8],
    cut: usize,
    size: usize,
    answers: &mut Answers,
) -> Result<bool, Fail>
    requires taken { I.taken reader.old ≡ 0 }
    requires awaits { I.awaits reader.old ≡ None }
    requires cut { cut ≤ length document.now }
    requires size { 0 < size }
    requires small { size < 2 ^ 32 }
    requires room { length document.now < 2 ^ 63 }
    ensures none { IfOk result (λ more. more ≡ true → I.awaits reader.new ≡ None) }
{
    let mut from = 0;
    let mut to = cut;
    loop {
        if !take_up(reader, &document[from..to], from as u64, answers)? {
            return Ok(false);
        }
        if to >= document.len() {
            return Ok(true);
        }
        from = to;
        to = (to + size).min(document.len());
    }
}

/// Takes up the end of a document of `total` octets.
fn take_end<I: Items>(reader: I, total: u64, answers: &mut Answers) -> Result<(), Fail>
    requires awaits { I.awaits reader ≡ None }
{
    match reader.finish() {
        Ok(None) => Ok(()),
        Ok(Some(value)) => answers.push(value, total),
        Err(refusal) => {
            answers.refusal = Some(refusal);
            Ok(())
        }
    }
}

/// Reads a document by a new reader, in pieces of `size` octets behind a first one of `cut`.
fn read<I: Items + Drop>(
    reader: I,
    document: &[u8],
    cut: usize,
    size: usize,
    answers: &mut Answers,
) -> Result<(), Fail>
    requires taken { I.taken reader ≡ 0 }
    requires awaits { I.awaits reader ≡ None }
    requires cut { cut ≤ length document.now }
    requires size { 0 < size }
    requires small { size < 2 ^ 32 }
    requires room { length document.now < 2 ^ 63 }
{
    let mut reader = reader;
    match take_pieces(&mut reader, document, cut, size, answers) {
        Ok(true) => take_end(reader, document.len() as u64, answers),
        Ok(false) => {
            drop(reader);
            Ok(())
        }
        Err(fail) => {
            drop(reader);
            Err(fail)
        }
    }
}

/// Reads octets by a new reader of an encoding, in pieces of `size` behind a first one of `cut`.
fn read_as(
    asked: Asked<'_>,
    encoding: &str,
    document: &[u8],
    cut: usize,
    size: usize,
    answers: &mut Answers,
) -> Result<(), Fail> {
    if cut > document.len() || size == 0 || size > WHOLE {
        return Err("octets of a piece".into());
    }
    answers.clear();
    let (alloc, catalog, limits) = (asked.alloc, asked.catalog, asked.limits);
    match encoding {
        "binary" => {
            let reader = BinaryReader::new(alloc, catalog, limits)?;
            read(reader, document, cut, size, answers)
        }
        "text" => {
            let reader = TextReader::new(alloc, catalog, limits)?;
            read(reader, document, cut, size, answers)
        }
        _ => {
            let reader = DocReader::new(alloc, catalog, limits)?;
            read(reader, document, cut, size, answers)
        }
    }
}

/// Tells the octets used up to where each value comes; of more than a hundred values, their number.
fn totals_told(alloc: Global, totals: &[u64]) -> Result<String, AllocError> {
    if totals.len() > 100 {
        return format!(in alloc; "{} values", totals.len());
    }
    let mut told = String::new(alloc);
    for total in totals {
        write!(told, "{total} ")?;
    }
    Ok(told)
}

/// Fails, where the row has other answers.
fn meets(asked: Asked<'_>, answers: &Answers) -> Result<(), Fail> {
    let told = totals_told(asked.alloc, answers.totals.as_slice())?;
    asked.row.wants(2, told.as_str().trim())?;
    refuses(asked.row.field(3), answers.refusal)
}

/// Whether the row is refused at an octet up to `size`.
fn is_refused_by(row: Row<'_>, size: u64) -> Result<bool, Fail> {
    match row.field(3).split_once(' ') {
        Some((offset, _)) => Ok(offset.parse::<u64>()? <= size),
        None => Ok(false),
    }
}

/// Fails, where the octets up to `size` are answered as they can't be. They are refused as the row
/// is, from the octet on that decided; fewer are a document, or are refused at their end, in binary
/// always as incomplete.
fn meets_as_prefix(asked: Asked<'_>, answers: &Answers, size: u64) -> Result<(), Fail> {
    if is_refused_by(asked.row, size)? {
        return meets(asked, answers);
    }
    match answers.refusal {
        Some(refusal) => {
            let fits = asked.row.field(0) != "binary" || refusal.reason == Reason::Incomplete;
            is_so(refusal.offset == size && fits, (size, refusal))
        }
        None => Ok(()),
    }
}

/// Fails, where a reader of this encoding answers otherwise, in pieces of `size` octets behind a
/// first one of `cut`.
fn reads_as(
    asked: Asked<'_>,
    encoding: &str,
    cut: usize,
    size: usize,
    answers: &mut Answers,
) -> Result<(), Fail> {
    read_as(asked, encoding, asked.document, cut, size, answers)?;
    meets(asked, answers)?;
    if asked.row.field(5).is_empty() {
        return Ok(());
    }
    wants_text(asked.alloc, asked.row, 5, answers.values.as_slice())
}

/// Tries the reader of the encoding and the one that chooses it, and the first `cut` octets.
fn reads_cut(asked: Asked<'_>, cut: usize, size: usize, answers: &mut Answers) -> Result<(), Fail> {
    let encoding = asked.row.field(0);
    reads_as(asked, encoding, cut, size, answers)?;
    reads_as(asked, "either", cut, size, answers)?;
    let front = asked.document.get(..cut).unwrap_or(&[]);
    read_as(asked, encoding, front, 0, size, answers)?;
    meets_as_prefix(asked, answers, cut as u64)
}

fn reads_each_cut(asked: Asked<'_>, answers: &mut Answers) -> Result<(), Fail> {
    if asked.document.len() > 1000 {
        return reads_cut(asked, 0, WHOLE, answers);
    }
    for cut in 0..=asked.document.len() {
        for size in [WHOLE, 2, 1] {
            reads_cut(asked, cut, size, answers)?;
        }
    }
    Ok(())
}

/// `binary` or `text` | a document | the octets used up to where each value comes; of more than a
/// hundred values, their number | the offset and the reason of the refusal | limits and the shared
/// table | the values in text, each with a line feed, where the row tells them.
///
/// The reader of the encoding and the one that chooses it are asked, with each cut in two pieces
/// and in short ones behind it, and each prefix in one and in short ones; then `check`, and the
/// command for what the row says. A long document comes in great pieces alone.
pub fn reads(asked: Asked<'_>) -> Result<(), Fail> {
    let mut answers = Answers::new(asked.alloc);
    let tried = reads_each_cut(asked, &mut answers);
    drop(answers);
    tried?;
    let answer = answer_told(asked.alloc, asked.row)?;
    answers_so(asked, answer.as_str())
}

/// The refusal of a row, or how many values it has.
fn answer_told(alloc: Global, row: Row<'_>) -> Result<String, AllocError> {
    if !row.field(3).is_empty() {
        return String::from_str(alloc, row.field(3));
    }
    match row.field(2).strip_suffix(" values") {
        Some(values) => String::from_str(alloc, values),
        None => format!(in alloc; "{}", row.field(2).split_whitespace().count()),
    }
}

/// Fails, where this isn't the answer of `check` and of the command.
fn answers_so(asked: Asked<'_>, answer: &str) -> Result<(), Fail> {
    asked.checks(answer)?;
    asked.is_checked(answer)?;
    if asked.row.field(2).is_empty() {
        asked.writes_nothing(answer)?;
    }
    if asked.row.field(5).is_empty() {
        return Ok(());
    }
    let written = asked.row.octets(asked.alloc, 5)?;
    asked.is_converted(Target::Text, written.as_slice(), answer)
}

/// Tells the octets that each step used, with `!` behind them where it gave a value, and then
/// `end`, with `!` where that gave one.
fn steps_told(alloc: Global, answers: &Answers) -> Result<String, AllocError> {
    let mut told = String::new(alloc);
    let mut given: usize = 0;
    for (used, gives) in &answers.steps {
        let mark = if *gives { "! " } else { " " };
        write!(told, "{used}{mark}")?;
        given = given.saturating_add(usize::from(*gives));
    }
    told.push_str(if answers.values.len() > given {
        "end!"
    } else {
        "end"
    })?;
    Ok(told)
}

/// `binary steps` or `text steps` | a document | the octets of a piece | the octets that each step
/// uses, with `!` behind them where it gives a value, and then `end`, with `!` where that gives
/// one.
pub fn steps(asked: Asked<'_>) -> Result<(), Fail> {
    let size = asked.row.field(2).parse::<usize>()?;
    let mut answers = Answers::new(asked.alloc);
    let tried = steps_so(asked, size, &mut answers);
    drop(answers);
    tried
}

fn steps_so(asked: Asked<'_>, size: usize, answers: &mut Answers) -> Result<(), Fail> {
    let encoding = match asked.row.field(0) {
        "text steps" => "text",
        _ => "binary",
    };
    let document = asked.document;
    read_as(
        asked,
        encoding,
        document,
        size.min(document.len()),
        size,
        answers,
    )?;
    let told = steps_told(asked.alloc, answers)?;
    asked.row.wants(3, told.as_str())
}

/// `values` | a document | the kinds of its values, or the offset and the reason of the refusal.
/// It is read in memory, and at each cut.
pub fn gives(asked: Asked<'_>) -> Result<(), Fail> {
    let (alloc, document, limits) = (asked.alloc, asked.document, asked.limits);
    has_kinds(asked, read_all(alloc, document, asked.catalog, limits))?;
    for first in 1..=document.len() + 1 {
        let mut reader = Pieces::cut(document, first).reader();
        let answer = read_document(alloc, &mut reader, asked.catalog, limits);
        drop(reader);
        has_kinds(asked, answer?)?;
    }
    Ok(())
}

fn has_kinds(asked: Asked<'_>, answer: Result<Vec<Value>, Refusal>) -> Result<(), Fail> {
    match answer {
        Ok(values) => {
            let told = kinds_told(asked.alloc, values.as_slice());
            drop(values);
            let told = told?;
            asked.row.wants(2, told.as_str().trim())
        }
        Err(refusal) => refuses(asked.row.field(2), Some(refusal)),
    }
}

fn kinds_told(alloc: Global, values: &[Value]) -> Result<String, AllocError> {
    let mut told = String::new(alloc);
    for value in values {
        write!(told, "{} ", value.kind().name())?;
    }
    Ok(told)
}
