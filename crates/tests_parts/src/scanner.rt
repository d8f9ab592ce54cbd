//! What a scanner holds, foresees and lends, and what it says again.
use crate::answers::same;
use crate::counting::{Count, Uncounted, count_piece};
use ion_model::{Reason, Refusal};
use ion_tokens::{Body, Foresight, Form, Place, Scanner, TextKind, Token};
use std::alloc::Global;
use std::borrow::CowStr;
use std::process::Abort;

/// What a step gave.
#[derive(Clone, Copy, Debug, PartialEq)]
enum Given {
    Nothing,
    LentWord,
    OwnedWord,
    LentOperator,
    OwnedOperator,
    Other,
}

/// How many octets a step used, what it gave, and whether the octet behind those used is left.
type Stepped = (usize, Given, bool);

/// What is told of a token.
fn told(token: &Option<Token>) -> Given {
    let Some(token) = token else {
        return Given::Nothing;
    };
    match &token.body {
        Body::Word(CowStr::Borrowed(_)) => Given::LentWord,
        Body::Word(CowStr::Owned(_)) => Given::OwnedWord,
        Body::Operator(CowStr::Borrowed(_)) => Given::LentOperator,
        Body::Operator(CowStr::Owned(_)) => Given::OwnedOperator,
        _ => Given::Other,
    }
}

/// Takes up a piece, unless it is far too long.
fn step(scanner: &mut Scanner, piece: &[u8], place: Place) -> Option<Result<Stepped, Refusal>> {
    if scanner.used() > 1 << 40 || piece.len() > 1 << 40 {
        return None;
    }
    match scanner.step(piece, place) {
        Ok(scan) => {
            let stepped = (scan.used, told(&scan.token), scanner.left());
            drop(scan);
            Some(Ok(stepped))
        }
        Err(refusal) => Some(Err(refusal)),
    }
}

/// The same at the top level, where only the number of octets used is asked for.
fn used(scanner: &mut Scanner, piece: &[u8]) -> Option<Result<usize, Refusal>> {
    match step(scanner, piece, Place::Top)? {
        Ok((count, _, _)) => Some(Ok(count)),
        Err(refusal) => Some(Err(refusal)),
    }
}

/// Pieces, how many octets of each are used, and where the token begins and ends that has begun
/// behind it.
static OPEN: [(&[u8], usize, Option<(u64, u64, Form)>); 6] = [
    (b"", 0, None),
    (b" \"ab", 4, Some((1, 4, Form::Other))),
    (b"\"", 1, None),
    (b" /", 2, None),
    (b"/ c\n''", 6, Some((11, 13, Form::Quote))),
    (b"'", 1, Some((11, 14, Form::Long))),
];

/// Where the token begins and ends that has begun, and its form.
fn begun(scanner: &Scanner) -> Option<(u64, u64, Form)> {
    let begun = scanner.begun()?;
    Some((begun.start, begun.end, begun.form))
}

/// Each piece uses what stands beside it, and that has begun behind it.
#[test]
fn open_octets(rt: HostRuntime) {
    let mut scanner = Scanner::new(rt.alloc());
    for (piece, count, wanted) in &OPEN {
        let found = (used(&mut scanner, *piece), begun(&scanner));
        same(&rt, *piece, found, (Some(Ok(*count)), *wanted));
    }
    let looked = scanner.looked();
    drop(scanner);
    same(&rt, "looked at", looked, 14);
}

/// What a step of a piece uses, and how many octets are held behind it.
type Held = (Option<Result<usize, Refusal>>, usize);

/// What is held while a token is open, and behind its end.
fn held(alloc: Global) -> [Held; 2] {
    let mut scanner = Scanner::new(alloc);
    let open = (used(&mut scanner, b" \"ab"), scanner.held());
    let ended = (used(&mut scanner, b"\""), scanner.held());
    drop(scanner);
    [open, ended]
}

/// Octets are held while a token is open.
#[test]
fn held_octets(rt: HostRuntime) {
    let [(open, held), ended] = held(rt.alloc());
    same(&rt, "open", (open, held > 0), (Some(Ok(4)), true));
    same(&rt, "ended", ended, (Some(Ok(1)), 0));
}

/// What a text is of which octets were let go, and how many octets it means.
fn told_let_go(token: &Option<Token>) -> Option<(TextKind, u64)> {
    let Some(token) = token else {
        return None;
    };
    match &token.body {
        Body::LetGo(kind, gone) => Some((*kind, gone.count())),
        _ => None,
    }
}

/// The same of one that opens and closes so, with 6,000 octets between, half of which were let go; or
/// where and why its close is refused.
fn let_go(alloc: Global, opens: &[u8], close: &[u8]) -> Option<Result<(TextKind, u64), Refusal>> {
    let octets = [b'a'; 3000];
    let mut scanner = Scanner::new(alloc);
    used(&mut scanner, opens)?.ok()?;
    used(&mut scanner, &octets)?.ok()?;
    scanner.let_go();
    used(&mut scanner, &octets)?.ok()?;
    scanner.let_go();
    if scanner.used() > 1 << 40 || close.len() > 1 << 40 {
        return None;
    }
    match scanner.step(close, Place::Top) {
        Ok(scan) => {
            let told = told_let_go(&scan.token);
            drop(scan);
            Some(Ok(told?))
        }
        Err(refusal) => Some(Err(refusal)),
    }
}

/// A text that was let go is told as what it is.
#[test]
fn texts_let_go(rt: HostRuntime) {
    let alloc = rt.alloc();
    let short = let_go(alloc, b"\"", b"\"");
    same(&rt, "short", short, Some(Ok((TextKind::Short, 6000))));
    let long = let_go(alloc, b"'''", b"'''");
    same(&rt, "long", long, Some(Ok((TextKind::Long, 6000))));
    let clob = let_go(alloc, b"{{\"", b"\"}}");
    same(&rt, "clob", clob, Some(Ok((TextKind::Clob, 6000))));
}

/// Where and why a blob is refused of which octets were let go.
fn bad_blob(offset: u64, reason: Reason) -> Option<Result<(TextKind, u64), Refusal>> {
    Some(Err(Refusal { offset, reason }))
}

/// A blob that was let go is told with how many octets its base64 stands for, and is refused where
/// it would be otherwise. Behind white space the groups stand elsewhere.
#[test]
fn blobs_let_go(rt: HostRuntime) {
    let alloc = rt.alloc();
    let whole = let_go(alloc, b"{{", b"}}");
    same(&rt, "whole", whole, Some(Ok((TextKind::Blob, 4500))));
    let begun = let_go(alloc, b"{{ AB\n", b"CD AA==}}");
    same(&rt, "padded", begun, Some(Ok((TextKind::Blob, 4504))));
    let close = bad_blob(6011, Reason::Unexpected);
    same(&rt, "one brace", let_go(alloc, b"{{ AB ", b"AA } "), close);
    let length = bad_blob(6004, Reason::BadBase64);
    same(&rt, "wrong length", let_go(alloc, b"{{", b"A}}"), length);
    let octet = bad_blob(6004, Reason::BadBase64);
    same(&rt, "no base64", let_go(alloc, b"{{", b"A.}}"), octet);
    let early = bad_blob(6007, Reason::BadBase64);
    same(&rt, "padded early", let_go(alloc, b"{{AA==", b"}}"), early);
}

/// What two steps of a token with a bad escape use, and what the end refuses.
fn refused(alloc: Global) -> ([Option<Result<usize, Refusal>>; 2], Option<Refusal>) {
    let mut scanner = Scanner::new(alloc);
    let steps = [used(&mut scanner, b"\"\\q"), used(&mut scanner, b" ")];
    let ended = match scanner.finish(Place::Top) {
        Ok(_) => None,
        Err(refusal) => Some(refusal),
    };
    (steps, ended)
}

/// A refusal is answered again.
#[test]
fn refusal_stays(rt: HostRuntime) {
    let refusal = Refusal {
        offset: 3,
        reason: Reason::BadEscape,
    };
    let (steps, ended) = refused(rt.alloc());
    same(&rt, "steps", steps, [Some(Err(refusal)); 2]);
    same(&rt, "the end", ended, Some(refusal));
}

/// A piece, how many of its octets are used, and what each of some octets would show behind it.
type Foreseen = (&'static [u8], usize, &'static [u8], Foresight);

static FORESEEN: [Foreseen; 9] = [
    (b"a ", 1, b" /:", Foresight::Blank),
    (b"", 0, b"'", Foresight::Long),
    (b"", 0, b"b\"}!", Foresight::Other),
    (b" :", 2, b":", Foresight::Colons),
    (b"", 0, b" ", Foresight::Other),
    (b":''", 1, b"", Foresight::Other),
    (b"''", 2, b"'", Foresight::Long),
    (b"", 0, b" b", Foresight::Empty),
    (b"'a''", 4, b"'b", Foresight::Long),
];

/// What an octet would show behind a symbol, a colon, quotes and a segment of a long string.
#[test]
fn foresights(rt: HostRuntime) {
    let mut scanner = Scanner::new(rt.alloc());
    for (piece, count, octets, wanted) in &FORESEEN {
        let found = used(&mut scanner, *piece);
        same(&rt, *piece, found, Some(Ok(*count)));
        for octet in *octets {
            let found = scanner.foresee(Place::Top, *octet);
            same(&rt, *octet, found, *wanted);
        }
    }
    drop(scanner);
}

/// Three pieces, and what the step of each gives.
type Three = [(&'static [u8], Stepped); 3];

/// Where an octet ended a token and isn't part of it, the step says so.
static LEFT: Three = [
    (b"ab,", (2, Given::LentWord, true)),
    (b",c", (1, Given::Other, false)),
    (b"c", (1, Given::Nothing, false)),
];

/// A word whole in its piece is lent, and one that two pieces gave is owned.
static LENT: Three = [
    (b"ab cd", (2, Given::LentWord, true)),
    (b" cd", (3, Given::Nothing, false)),
    (b"e ", (1, Given::OwnedWord, true)),
];

/// An operator whole in its piece is lent too, and one that began in an earlier piece is owned.
static LENT_OPERATORS: Three = [
    (b"+ ", (1, Given::LentOperator, true)),
    (b" -", (2, Given::Nothing, false)),
    (b" ", (0, Given::OwnedOperator, true)),
];

/// Each piece in turn gives in that place what stands beside it.
fn gives(rt: &impl Abort, alloc: Global, place: Place, rows: &Three) {
    let mut scanner = Scanner::new(alloc);
    for (piece, wanted) in rows {
        let found = step(&mut scanner, *piece, place);
        same(rt, *piece, found, Some(Ok(*wanted)));
    }
    drop(scanner);
}

#[test]
fn tokens_are_left_and_lent(rt: HostRuntime) {
    gives(&rt, rt.alloc(), Place::Top, &LEFT);
    gives(&rt, rt.alloc(), Place::Top, &LENT);
    gives(&rt, rt.alloc(), Place::Sexp, &LENT_OPERATORS);
}

/// How many tokens two pieces end together, or why that isn't counted.
fn counted(alloc: Global, first: &[u8], second: &[u8]) -> Result<u64, Uncounted> {
    if first.len() > 4096 || second.len() > 4096 {
        return Err(Uncounted::TooLong);
    }
    let mut scanner = Scanner::new(alloc);
    let mut count = Count::new(alloc);
    let answer = match count_piece(&mut scanner, &mut count, first) {
        Ok(()) => count_piece(&mut scanner, &mut count, second),
        Err(uncounted) => Err(uncounted),
    };
    let tokens = count.tokens();
    drop(count);
    drop(scanner);
    match answer {
        Ok(()) => Ok(tokens),
        Err(uncounted) => Err(uncounted),
    }
}

/// Tokens are counted, however the octets are cut, up to the octet that is refused.
#[test]
fn tokens_are_counted(rt: HostRuntime) {
    let whole = counted(rt.alloc(), b"{a:1, b:\"x\"}", b"");
    same(&rt, "in one piece", whole, Ok(9));
    let cut = counted(rt.alloc(), b"{a:1, b:\"", b"x\"}");
    same(&rt, "in two", cut, Ok(9));
    let refusal = Refusal {
        offset: 3,
        reason: Reason::BadEscape,
    };
    let refused = counted(rt.alloc(), b"\"\\q", b"\"");
    same(&rt, "refused", refused, Err(Uncounted::Refused(refusal)));
}
