//! Tokens, and what a step of the scanner answers.
use crate::mode::Mark;
use ion_atoms::{Bytes, Kind, LetGo, Text};
use ion_scalar::Number;
use std::borrow::CowStr;

/// A token, with its span: how many octets of the document stand before it and up to its end.
#[derive(Debug, Drop, PartialEq, Eq)]
pub struct Token<'p> {
    pub start: u64,
    pub end: u64,
    pub body: Body<'p>,
}

/// What a token says.
#[derive(Debug, Drop, PartialEq, Eq)]
pub enum Body<'p> {
    /// A word that is no symbol id; `null`, `true`, `false` and `nan` are words too.
    Word(CowStr<'p>),
    /// A symbol id, `$` and digits; 2^64-1 stands for every larger one.
    Id(u64),
    /// A quoted symbol.
    Quoted(Text),
    /// A short string.
    Short(Text),
    /// One segment of a long string.
    Long(Text),
    Number(Number),
    /// `null.` and the name of a kind.
    TypedNull(Kind),
    Operator(CowStr<'p>),
    Clob(Bytes),
    Blob(Bytes),
    Mark(Mark),
    /// A text or a blob of which octets were let go, so that nobody can be told what it says: only a
    /// scanner that was asked to let go gives it. Two of one kind are equal where they have as many
    /// octets, whichever these are.
    LetGo(TextKind, LetGo),
}

/// What a text is of which octets were let go.
#[derive(Clone, Copy, Debug, PartialEq, Eq)]
pub enum TextKind {
    /// A short string.
    Short,
    /// One segment of a long string.
    Long,
    Clob,
    /// What the base64 of a blob stands for.
    Blob,
}

/// What a step used of its piece, and the token that it gave.
#[derive(Debug, Drop, PartialEq, Eq)]
pub struct Scan<'p> {
    /// How many octets of the piece were used, all of them where no token is given.
    pub used: usize,
    /// The next token, if the octets used, or the one behind them, end it.
    pub token: Option<Token<'p>>,
}

/// The token that has begun and not ended.
#[derive(Clone, Copy, Debug, PartialEq, Eq)]
pub struct Begun {
    /// How many octets of the document stand before it.
    pub start: u64,
    /// How many octets stand before and in it that are part of a token whatever follows.
    pub end: u64,
    pub form: Form,
}

/// What is known of the token that has begun.
#[derive(Clone, Copy, Debug, PartialEq, Eq)]
pub enum Form {
    /// `'` or `''`: a quoted symbol or a long string.
    Quote,
    /// A segment of a long string, from its third quote on.
    Long,
    Other,
}

/// What an octet shows of a token that may go on: a symbol with `::`, a long string with its next
/// segment.
#[derive(Clone, Copy, Debug, PartialEq, Eq)]
pub enum Foresight {
    /// No token: a blank, or a first colon.
    Blank,
    /// `::` ends here.
    Colons,
    /// `'` or `''` stands here, or a segment of a long string goes on or ends.
    Long,
    /// `''` ended before it, the symbol of empty text.
    Empty,
    /// Another token, or none that can stand there.
    Other,
}
