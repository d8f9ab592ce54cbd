//! Rows of words: what they ask for, with memory enough.

use crate::answers::same;
use ion_symtab::{Limits, Target};
use ion_words::{Request, Task, WordsError, parse};

/// The words, and what they ask for: the task, the catalog, the depth and the octets of an item.
struct Row {
    words: &'static [&'static str],
    task: Task<'static>,
    catalog: Option<&'static str>,
    depth: u32,
    item: u64,
}

/// The words of a task without options, and the task.
static PLAIN: [(&[&str], Task); 10] = [
    (&[], Task::Show("-")),
    (&["check", "a"], Task::Check("a")),
    (&["check", ""], Task::Check("")),
    (&["show", "-"], Task::Show("-")),
    (
        &["convert", "--to", "binary", "a"],
        Task::Convert("a", Target::Binary),
    ),
    (
        &["convert", "-", "--to=text"],
        Task::Convert("-", Target::Text),
    ),
    (&["compare", "a", "b"], Task::Compare("a", "b")),
    (&["compare", "a", "a"], Task::Compare("a", "a")),
    (&["compare", "b", "-"], Task::Compare("b", "-")),
    (&["check", "--", "--depth"], Task::Check("--depth")),
];

static WITH_OPTIONS: [Row; 3] = [
    Row {
        words: &["check", "--catalog", "c", "a", "--depth=3", "--item", "9"],
        task: Task::Check("a"),
        catalog: Some("c"),
        depth: 3,
        item: 9,
    },
    Row {
        words: &["compare", "--catalog=-", "a", "b", "--depth", "128"],
        task: Task::Compare("a", "b"),
        catalog: Some("-"),
        depth: 128,
        item: 16777216,
    },
    Row {
        words: &["show", "a", "--depth=+1", "--item=01073741824"],
        task: Task::Show("a"),
        catalog: None,
        depth: 1,
        item: 1073741824,
    },
];

static REFUSED: [&[&str]; 39] = [
    &["frob"],
    &["a"],
    &[""],
    &["check"],
    &["check", "a", "b"],
    &["compare", "a"],
    &["compare", "a", "b", "c"],
    &["convert", "a"],
    &["convert", "--to", "binary"],
    &["convert", "a", "--to", "json"],
    &["check", "a", "--to", "text"],
    &["check", "--deep", "a"],
    &["--depth=3", "check", "a"],
    &["check", "a", "--depth=3", "--depth=3"],
    &["check", "a", "--depth"],
    &["check", "a", "--depth", ""],
    &["check", "a", "--depth", "0"],
    &["check", "a", "--depth", "129"],
    &["check", "a", "--depth", "4294967297"],
    &["check", "a", "--depth", "18446744073709551617"],
    &["check", "a", "--depth=-3"],
    &["check", "a", "--depth", "3x"],
    &["check", "a", "--depth", " 3"],
    &["check", "a", "--depth", "+"],
    &["check", "a", "--item=3 "],
    &["check", "a", "--item", "0"],
    &["check", "a", "--item", "1073741825"],
    &["compare", "-", "-"],
    &["check", "-", "--catalog=-"],
    &["check", "--help"],
    &["check", "a", "--help"],
    &["--help"],
    &["-h"],
    &["help"],
    &["help", "check"],
    &["--version"],
    &["check", "a", "--depth", "x"],
    &["convert", "a", "--to", "Text"],
    &["convert", "a", "--to", "text", "--to", "text"],
];

#[test]
fn plain(rt: HostRuntime) {
    for (words, task) in &PLAIN {
        let request = Request {
            task: *task,
            catalog: None,
            limits: Limits::usual(),
        };
        same(&rt, *words, parse(rt.alloc(), words), Ok(request));
    }
}

/// What a row asks for.
fn request_of(row: &Row) -> Option<Request<'static>> {
    let limits = Limits::new(row.depth, row.item, Limits::usual().reads())?;
    Some(Request {
        task: row.task,
        catalog: row.catalog,
        limits,
    })
}

#[test]
fn with_options(rt: HostRuntime) {
    for row in &WITH_OPTIONS {
        let asked = parse(rt.alloc(), row.words).ok();
        same(&rt, row.words, asked, request_of(row));
    }
}

#[test]
fn refused(rt: HostRuntime) {
    for words in &REFUSED {
        same(
            &rt,
            *words,
            parse(rt.alloc(), words),
            Err(WordsError::Usage),
        );
    }
}
