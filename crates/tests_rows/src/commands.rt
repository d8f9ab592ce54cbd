//! What the command makes of rows: each of their documents is given whole, and one octet a call.
use crate::documents::{Asked, Pieces, WHOLE, tables};
use crate::row::{Row, are_so};
use ion_devices::{FrailReader, FrailWriter, NEVER};
use ion_docs::Target;
use ion_run::{NameHistory, Sources, run};
use ion_symtab::{Fault, FromRead, ToWrite};
use std::alloc::{AllocError, Global};
use std::test::Fail;

/// Documents by name, each of which comes so many octets a call; of the one named `fails` a call
/// fails.
#[derive(Drop)]
struct Shelf<'a> {
    files: &'a [(&'a str, &'a [u8])],
    size: usize,
    fails: &'a str,
    fails_at: u64,
    opened: NameHistory,
}

impl<'a> Sources for Shelf<'a> {
    ghost use Rattle.std.specs.Prelude.{⊤};

    type Input = FromRead<FrailReader<'a>>;

    ghost gives = { λ _ _ _. ⊤ };

    ghost refuses = { λ _ _. ⊤ };

    ghost opened = { λ shelf. shelf.opened };

    fn source(&mut self, name: &str) -> Result<FromRead<FrailReader<'a>>, Fault> {
        self.opened.add(name);
        let fails_at = if name == self.fails {
            self.fails_at
        } else {
            NEVER
        };
        match self.files.iter().find(|file| file.0 == name) {
            Some(file) => {
                let pieces = Pieces::each(file.1, self.size);
                Ok(pieces.failing(fails_at).reader())
            }
            None => Err(Fault::Open),
        }
    }
}

/// What has to come of a command: what goes to the output and to the errors, and the status.
#[derive(Clone, Copy)]
struct Wanted<'a> {
    out: &'a [u8],
    err: &'a [u8],
    status: u8,
}

/// What comes where a device of the command failed.
fn fault<'a>(out: &'a [u8], err: &'a [u8]) -> Wanted<'a> {
    Wanted {
        out,
        err,
        status: 4,
    }
}

/// How many octets a call of the output takes, which call of it fails, and which of the errors,
/// that take one octet a call.
type Devices = (usize, u64, u64);

const SOUND: Devices = (WHOLE, NEVER, NEVER);

/// Words over documents.
#[derive(Clone, Copy)]
struct Command<'a> {
    alloc: Global,
    files: &'a [(&'a str, &'a [u8])],
    words: &'a [&'a str],
}

impl<'a> Command<'a> {
    fn shelf(self, size: usize, fails: &'a str, fails_at: u64) -> Shelf<'a> {
        Shelf {
            files: self.files,
            size,
            fails,
            fails_at,
            opened: NameHistory::new(),
        }
    }

    /// Fails, where anything else comes of the words over this shelf and these devices.
    fn comes(self, mut shelf: Shelf<'_>, devices: Devices, wanted: Wanted<'_>) -> Result<(), Fail> {
        let (mut out, mut err) = (Vec::new(self.alloc), Vec::new(self.alloc));
        let (takes, out_fails_at, err_fails_at) = devices;
        let status = run(
            self.alloc,
            self.words,
            &mut shelf,
            &mut ToWrite::new(FrailWriter::new(&mut out, takes, out_fails_at)),
            &mut ToWrite::new(FrailWriter::new(&mut err, 1, err_fails_at)),
        );
        drop(shelf);
        are_so(out.as_slice() == wanted.out, out.as_slice())?;
        are_so(err.as_slice() == wanted.err, err.as_slice())?;
        are_so(status == wanted.status, &[status])
    }

    /// Fails, where anything else comes of the words over the documents, given whole or one octet a
    /// call.
    fn ends(self, wanted: Wanted<'_>) -> Result<(), Fail> {
        self.comes(self.shelf(WHOLE, "", NEVER), SOUND, wanted)?;
        self.comes(self.shelf(1, "", NEVER), SOUND, wanted)
    }

    /// Fails, where a command refuses otherwise, or writes anything else before; `refusal` is whose
    /// document it is, the offset and the reason.
    fn refuses(self, out: &[u8], refusal: &str) -> Result<(), Fail> {
        let line = format!(in self.alloc; "refused {refusal}\n")?;
        self.ends(Wanted {
            out,
            err: line.as_bytes(),
            status: 2,
        })
    }

    /// Fails, where the command writes anything else, or answers otherwise: how many values there
    /// are, or the offset and the reason of the refusal.
    fn answers(self, out: &[u8], answer: &str) -> Result<(), Fail> {
        if answer.contains(' ') {
            return self.refuses(out, answer);
        }
        self.ends(Wanted {
            out,
            err: b"",
            status: 0,
        })
    }

    /// Fails, where a read fails of a document that is read to its end, and that isn't the answer.
    fn fails_each_read(self, wanted: Wanted<'_>) -> Result<(), Fail> {
        for (name, octets) in self.files {
            if self.words.contains(name) && *name != "-" {
                let reads = (octets.len() as u64).saturating_add(1);
                for fails_at in 0..reads {
                    let shelf = self.shelf(1, name, fails_at);
                    self.comes(shelf, SOUND, fault(b"", b"fault Read\n"))?;
                }
                self.comes(self.shelf(1, name, reads), SOUND, wanted)?;
            }
        }
        Ok(())
    }

    /// Fails, where a write of an octet to the output fails, or the flush behind the last, and that
    /// isn't the answer, or what was written before doesn't stand.
    fn fails_each_write(self, wanted: Wanted<'_>) -> Result<(), Fail> {
        for fails_at in 0..=wanted.out.len() {
            let front = wanted.out.get(..fails_at).unwrap_or(&[]);
            let shelf = self.shelf(WHOLE, "", NEVER);
            let devices = (1, fails_at as u64, NEVER);
            self.comes(shelf, devices, fault(front, b"fault Write\n"))?;
        }
        Ok(())
    }

    /// Fails, where the output takes nothing, and that isn't a fault; that the errors take three
    /// octets changes no status.
    fn takes_nothing(self, wanted: Wanted<'_>) -> Result<(), Fail> {
        let (err, status) = if wanted.out.is_empty() {
            (wanted.err.get(..3).unwrap_or(&[]), wanted.status)
        } else {
            (b"fau".as_slice(), 4)
        };
        let out = b"";
        let shelf = self.shelf(WHOLE, "", NEVER);
        self.comes(shelf, (0, NEVER, 3), Wanted { out, err, status })
    }

    /// Fails, where anything else comes of the words, also where a device fails.
    fn ends_so(self, wanted: Wanted<'_>) -> Result<(), Fail> {
        self.ends(wanted)?;
        self.takes_nothing(wanted)?;
        if wanted.status < 2 && self.words.first() == Some(&"compare") {
            self.fails_each_read(wanted)?;
        }
        if wanted.out.is_empty() {
            return Ok(());
        }
        self.fails_each_write(wanted)
    }
}

const USAGE: &[u8] =
    b"usage: ion_cmd check|show|convert|compare FILE.. [--to text|binary] [--catalog FILE] [--depth N] [--item N]\n";

/// `command` | words | what goes to the output | what goes to the errors, or `usage` for that line
/// | the status | the documents `l`, `r` and `t`; `-` is empty, and others aren't there.
pub fn ends(alloc: Global, row: Row<'_>) -> Result<(), Fail> {
    let (left, right) = (row.octets(alloc, 5)?, row.octets(alloc, 6)?);
    let tables = row.octets(alloc, 7)?;
    ends_over(
        alloc,
        row,
        &[
            ("l", left.as_slice()),
            ("r", right.as_slice()),
            ("t", tables.as_slice()),
            ("-", b""),
        ],
    )
}

fn ends_over(alloc: Global, row: Row<'_>, files: &[(&str, &[u8])]) -> Result<(), Fail> {
    let mut words = Vec::new(alloc);
    put_split(row.field(1), &mut words)?;
    let out = row.octets(alloc, 2)?;
    let err = match row.field(3) {
        "usage" => USAGE.to_vec(alloc)?,
        _ => row.octets(alloc, 3)?,
    };
    let wanted = Wanted {
        out: out.as_slice(),
        err: err.as_slice(),
        status: row.field(4).parse::<u8>()?,
    };
    let words = words.as_slice();
    Command {
        alloc,
        files,
        words,
    }
    .ends_so(wanted)
}

fn put_split<'a>(field: &'a str, words: &mut Vec<&'a str>) -> Result<(), AllocError> {
    for word in field.split_whitespace() {
        words.push(word)?;
    }
    Ok(())
}

/// Puts the words of a command, and behind them those of the limits and tables that a row names.
fn put_words<'a>(
    asked: Asked<'a>,
    command: &[&'a str],
    words: &mut Vec<&'a str>,
) -> Result<(), AllocError> {
    words.extend_from_slice(command)?;
    for (name, option) in [("depth", "--depth"), ("item", "--item")] {
        if let Some(number) = asked.row.word_behind(asked.options, name) {
            words.extend_from_slice(&[option, number])?;
        }
    }
    if tables(asked.row, asked.options).is_some() {
        words.extend_from_slice(&["--catalog", "t"])?;
    }
    Ok(())
}

impl<'a> Asked<'a> {
    /// Fails, where a command over the document writes anything else, or answers otherwise: how
    /// many values it has, or the offset and the reason of its refusal.
    fn ends(self, command: &[&'a str], out: &[u8], answer: &str) -> Result<(), Fail> {
        let mut words = Vec::new(self.alloc);
        put_words(self, command, &mut words)?;
        let tables = tables(self.row, self.options).unwrap_or("").as_bytes();
        let command = Command {
            alloc: self.alloc,
            files: &[("f", self.document), ("t", tables)],
            words: words.as_slice(),
        };
        command.answers(out, answer)
    }

    /// Fails, where a command writes anything but the line of an accepted document.
    fn writes_last(self, command: &[&'a str], answer: &str) -> Result<(), Fail> {
        if answer.contains(' ') {
            return self.ends(command, b"", answer);
        }
        let line = format!(in self.alloc; "accepted {answer}\n")?;
        self.ends(command, line.as_bytes(), answer)
    }

    /// Fails, where the command `check` comes to something else.
    pub fn is_checked(self, answer: &str) -> Result<(), Fail> {
        self.writes_last(&["check", "f"], answer)
    }

    /// Fails, where `show` writes other lines or answers otherwise, or `check` does.
    pub fn is_shown(self, lines: &[u8], answer: &str) -> Result<(), Fail> {
        self.ends(&["show", "f"], lines, answer)?;
        self.is_checked(answer)
    }

    /// Fails, where `convert` writes something else or answers otherwise.
    pub fn is_converted(self, to: Target, written: &[u8], answer: &str) -> Result<(), Fail> {
        let target = match to {
            Target::Binary => "binary",
            Target::Text => "text",
        };
        self.ends(&["convert", "f", "--to", target], written, answer)
    }

    /// Fails, where a value is shown or written of a document that has none before its end or its
    /// refusal.
    pub fn writes_nothing(self, answer: &str) -> Result<(), Fail> {
        self.writes_last(&["show", "f"], answer)?;
        self.is_converted(Target::Text, b"", answer)?;
        self.is_converted(Target::Binary, b"\xE0\x01\x00\xEA", answer)
    }
}

/// Fails, where `compare` comes to something else than field 3 says of a row's two documents.
pub fn compares(asked: Asked<'_>, right: &[u8]) -> Result<(), Fail> {
    let alloc = asked.alloc;
    let tables = tables(asked.row, 4).unwrap_or("").as_bytes();
    let mut words = Vec::new(alloc);
    put_words(asked, &["compare", "l", "r"], &mut words)?;
    let command = Command {
        alloc,
        files: &[("l", asked.document), ("r", right), ("t", tables)],
        words: words.as_slice(),
    };
    let answer = asked.row.field(3);
    if answer.starts_with("left ") || answer.starts_with("right ") {
        return command.refuses(b"", answer);
    }
    let (index, path) = answer.split_once(" at").unwrap_or((answer, ""));
    let line = format!(in alloc; "{index}{path}\n")?;
    command.ends(Wanted {
        out: line.as_bytes(),
        err: b"",
        status: u8::from(answer.starts_with("different")),
    })
}
