//! What a document and two of them are answered, however their octets come.
use crate::commands;
use crate::row::Row;
use ion_devices::{FrailReader, NEVER};
use ion_docs::{Side, Target, Verdict, check, compare, convert, load_catalog, path_text};
use ion_model::Refusal;
use ion_symtab::{Catalog, Fault, FromRead, Inlet, Limits, ToWrite};
use std::alloc::Global;
use std::fmt::Debug;
use std::test::Fail;

/// More octets than any of the documents has that are cut.
pub const WHOLE: usize = 4096;

/// Octets, how many the first call gives of them and each other, and which call fails.
#[derive(Clone, Copy)]
pub struct Pieces<'a> {
    octets: &'a [u8],
    first: usize,
    then: usize,
    fails_at: u64,
}

impl<'a> Pieces<'a> {
    /// A piece of so many octets, and others of so many.
    pub fn of(octets: &'a [u8], first: usize, then: usize) -> Pieces<'a> {
        Pieces {
            octets,
            first,
            then,
            fails_at: NEVER,
        }
    }

    /// In two pieces, cut behind the first `first`, or in one.
    pub fn cut(octets: &'a [u8], first: usize) -> Pieces<'a> {
        Pieces::of(octets, first, WHOLE)
    }

    /// In pieces of so many octets.
    pub fn each(octets: &'a [u8], size: usize) -> Pieces<'a> {
        Pieces::of(octets, size, size)
    }

    /// The same, where the call with this index fails once.
    pub fn failing(mut self, fails_at: u64) -> Pieces<'a> {
        self.fails_at = fails_at;
        self
    }

    /// Them; unless it was said, no call fails.
    pub fn reader(self) -> FromRead<FrailReader<'a>> {
        let reader = FrailReader::new(self.octets, self.first, self.then);
        FromRead::new(reader.failing(self.fails_at))
    }
}

/// A document of a row, and with what it is read.
#[derive(Clone, Copy)]
pub struct Asked<'a> {
    pub alloc: Global,
    pub row: Row<'a>,
    /// The field that names limits and shared tables.
    pub options: usize,
    pub document: &'a [u8],
    pub catalog: &'a Catalog,
    pub limits: Limits,
}

/// The limits that a field names, `depth` and `item` with their numbers; the usual ones, where it
/// doesn't.
pub fn limits(row: Row<'_>, number: usize) -> Result<Limits, Fail> {
    let usual = Limits::usual();
    let depth = row.number_behind(number, "depth", u64::from(usual.depth()))?;
    let item = row.number_behind(number, "item", usual.item())?;
    let limits = Limits::new(u32::try_from(depth)?, item, usual.reads());
    Ok(limits.ok_or("limits")?)
}

/// The shared table `t` of version 1 of `x`: it is shorter than each limit that stands beside it in
/// a row.
const TABLE: &str = "$9::{name:\"t\",version:1,symbols:[\"x\"]}";

/// And that of version 3 of `x`, `y` and `z` behind it.
const TABLES: &str =
    "$9::{name:\"t\",version:1,symbols:[\"x\"]} $9::{name:\"t\",version:3,symbols:[\"x\",\"y\",\"z\"]}";

/// The document of the shared table `t` of version 1, where a field ends in `table t`, of that of
/// version 3 as well, where it ends in `tables t`, or none.
pub fn tables(row: Row<'_>, number: usize) -> Option<&'static str> {
    let field = row.field(number);
    if field.ends_with("tables t") {
        return Some(TABLES);
    }
    if field.ends_with("table t") {
        return Some(TABLE);
    }
    None
}

/// The catalog of the shared tables that a field names.
pub fn catalog(alloc: Global, row: Row<'_>, number: usize) -> Result<Catalog, Fail> {
    let document = tables(row, number).unwrap_or("");
    let mut reader = FromRead::new(document.as_bytes());
    Ok(load_catalog(alloc, &mut reader, Limits::usual())??)
}

/// Fails, unless that is so; `found` is what was answered.
pub fn is_so(is_so: bool, found: impl Copy + Debug) -> Result<(), Fail> {
    if is_so {
        return Ok(());
    }
    Err(Fail::new(format_args!("not so, but: {found:?}")))
}

/// Whether this says the offset and the reason of a refusal.
fn says(wanted: &str, refusal: Refusal) -> bool {
    match wanted.split_once(' ') {
        Some((offset, reason)) => {
            offset.parse::<u64>().ok() == Some(refusal.offset) && reason == refusal.reason.name()
        }
        None => false,
    }
}

/// Fails, where this isn't the answer wanted: the number of values, or the offset and the reason of
/// the refusal.
pub fn answers(wanted: &str, answer: Result<u64, Refusal>) -> Result<(), Fail> {
    let is_wanted = match answer {
        Ok(values) => wanted.parse::<u64>().ok() == Some(values),
        Err(refusal) => says(wanted, refusal),
    };
    is_so(is_wanted, answer)
}

/// Fails, where this isn't the refusal wanted, or the empty text of none.
pub fn refuses(wanted: &str, refusal: Option<Refusal>) -> Result<(), Fail> {
    match refusal {
        None => is_so(wanted.is_empty(), refusal),
        Some(answer) => is_so(says(wanted, answer), refusal),
    }
}

/// Fails, where this isn't the fault of a read.
pub fn is_failed_read(fails_at: u64, fault: Option<Fault>) -> Result<(), Fail> {
    is_so(fault == Some(Fault::Read), ("read", fails_at, fault))
}

/// What `check` answers of a document, and how many reads it makes.
type Checked = (Result<Result<u64, Refusal>, Fault>, u64);

/// What two documents are to each other, and how many reads are made of each.
type Compared = (Result<Verdict, Fault>, [u64; 2]);

impl<'a> Asked<'a> {
    fn checked(self, pieces: Pieces<'_>) -> Checked {
        let mut reader = pieces.reader();
        let answer = check(self.alloc, &mut reader, self.catalog, self.limits);
        (answer, reader.calls())
    }

    /// Fails, where `check` gives a document another answer, which comes whole, cut once or in
    /// single octets; or another than the fault, where a read of it fails.
    pub fn checks(self, wanted: &str) -> Result<(), Fail> {
        let is_short = self.document.len() < 1000;
        let cuts = if is_short { self.document.len() } else { 0 };
        for first in 1..=cuts + 1 {
            let (answer, _) = self.checked(Pieces::cut(self.document, first));
            answers(wanted, answer?)?;
        }
        let (answer, _) = self.checked(Pieces::each(self.document, 1));
        answers(wanted, answer?)?;
        self.fails_each_read(if is_short { 1 } else { WHOLE })
    }

    /// Fails, where one of the reads that `check` makes fails, and that isn't its answer.
    fn fails_each_read(self, size: usize) -> Result<(), Fail> {
        let pieces = Pieces::each(self.document, size);
        let (_, reads) = self.checked(pieces);
        for fails_at in 0..reads {
            let (answer, _) = self.checked(pieces.failing(fails_at));
            is_failed_read(fails_at, answer.err())?;
        }
        Ok(())
    }

    fn compared(self, left: Pieces<'_>, right: Pieces<'_>) -> Compared {
        let (mut left, mut right) = (left.reader(), right.reader());
        let answer = compare(self.alloc, &mut left, &mut right, self.catalog, self.limits);
        (answer, [left.calls(), right.calls()])
    }

    /// Fails, where these documents are something else to each other than field 3 says.
    fn compares(self, left: Pieces<'_>, right: Pieces<'_>) -> Result<(), Fail> {
        let (answer, _) = self.compared(left, right);
        let verdict = answer?;
        let told = told(self.alloc, &verdict);
        drop(verdict);
        let told = told?;
        self.row.wants(3, told.as_str().trim())
    }

    /// Fails, where that is so of two documents, one of them cut anywhere and the other in pieces of
    /// so many octets.
    fn compares_cut(self, left: &[u8], right: &[u8], size: usize) -> Result<(), Fail> {
        for first in 1..=cuts_of(left) {
            self.compares(Pieces::cut(left, first), Pieces::each(right, size))?;
        }
        for first in 1..=cuts_of(right) {
            self.compares(Pieces::each(left, size), Pieces::cut(right, first))?;
        }
        Ok(())
    }

    /// Fails, where one of the reads that `compare` makes of either document fails, and that isn't
    /// its answer.
    fn fails_each_read_of_two(self, right: &[u8]) -> Result<(), Fail> {
        let (left, right) = (Pieces::each(self.document, 1), Pieces::each(right, 1));
        let (_, reads) = self.compared(left, right);
        for fails_at in 0..reads[0] {
            let (answer, _) = self.compared(left.failing(fails_at), right);
            is_failed_read(fails_at, answer.err())?;
        }
        for fails_at in 0..reads[1] {
            let (answer, _) = self.compared(left, right.failing(fails_at));
            is_failed_read(fails_at, answer.err())?;
        }
        Ok(())
    }

    /// The stream of a document in binary.
    fn in_binary(self, document: &[u8]) -> Result<Vec<u8>, Fail> {
        let mut taken = Vec::new(self.alloc);
        let answer = convert(
            self.alloc,
            &mut FromRead::new(document),
            &mut ToWrite::new(&mut taken),
            Target::Binary,
            self.catalog,
            self.limits,
        );
        answer??;
        Ok(taken)
    }
}

/// At how many places a document is cut that is compared: a long one only at its front.
fn cuts_of(document: &[u8]) -> usize {
    if document.len() > 400 {
        return 2;
    }
    document.len() + 1
}

/// What two documents are to each other.
fn told(alloc: Global, verdict: &Verdict) -> Result<String, Fail> {
    match verdict {
        Verdict::Equivalent { values } => Ok(format!(in alloc; "equivalent {values}")?),
        Verdict::Different { index, path } => {
            let path = path_text(alloc, path)?;
            Ok(format!(in alloc; "different {index} at {path}")?)
        }
        Verdict::Refused { side, refusal } => {
            let side = match side {
                Side::Left => "left",
                Side::Right => "right",
            };
            let (offset, reason) = (refusal.offset, refusal.reason.name());
            Ok(format!(in alloc; "{side} {offset} {reason}")?)
        }
    }
}

/// `compare` | a document | another | `equivalent` and how many values; `different`, the first
/// value that is, and the path to where; `left` or `right`, the offset and the reason of its
/// refusal | the shared table.
///
/// Each is cut, the other whole or in single octets; documents that differ are turned as well. Each
/// read of either fails once. Then the command compares them.
pub fn compares(asked: Asked<'_>) -> Result<(), Fail> {
    let right = asked.row.octets(asked.alloc, 2)?;
    let (left, right) = (asked.document, right.as_slice());
    asked.compares_cut(left, right, WHOLE)?;
    asked.compares_cut(left, right, 1)?;
    if asked.row.field(3).starts_with("different") {
        asked.compares_cut(right, left, WHOLE)?;
    }
    asked.fails_each_read_of_two(right)?;
    commands::compares(asked, right)
}

/// `encodings` | a document in text | and so on as in `compare`: the same holds where either is
/// written in binary, and where both are.
pub fn compares_encodings(asked: Asked<'_>) -> Result<(), Fail> {
    compares(asked)?;
    let right = asked.row.octets(asked.alloc, 2)?;
    let other = asked.in_binary(right.as_slice())?;
    asked.compares_cut(asked.document, other.as_slice(), WHOLE)?;
    let left = asked.in_binary(asked.document)?;
    asked.compares_cut(left.as_slice(), right.as_slice(), WHOLE)?;
    asked.compares_cut(left.as_slice(), other.as_slice(), WHOLE)
}

/// `loaded` | a document of shared tables | the names of those of version 1, of `t`, `u` and `v`,
/// or the offset and the reason of the refusal.
pub fn loads(alloc: Global, row: Row<'_>, document: &[u8]) -> Result<(), Fail> {
    for first in 1..=document.len() + 1 {
        loads_cut(alloc, row, Pieces::cut(document, first))?;
    }
    Ok(())
}

fn loads_cut(alloc: Global, row: Row<'_>, pieces: Pieces<'_>) -> Result<(), Fail> {
    match load_catalog(alloc, &mut pieces.reader(), Limits::usual())? {
        Ok(catalog) => {
            let found = names_in(alloc, &catalog);
            drop(catalog);
            let found = found?;
            row.wants(2, found.as_str().trim())
        }
        Err(refusal) => refuses(row.field(2), Some(refusal)),
    }
}

fn names_in(alloc: Global, catalog: &Catalog) -> Result<String, Fail> {
    let mut found = String::new(alloc);
    for name in ["t", "u", "v"] {
        if catalog.find(name, 1).is_some() {
            write!(found, "{name} ")?;
        }
    }
    Ok(found)
}
