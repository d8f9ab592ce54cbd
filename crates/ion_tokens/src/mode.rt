//! The states of the scanner between two octets, and what an octet does in them.
ghost use Rattle.std.specs.Prelude.{◌≡◌};

use ion_atoms::Reason;

/// Where a token stands.
#[derive(Clone, Copy, Debug, PartialEq, Eq)]
pub enum Place {
    /// At the top level of a document.
    Top,
    /// In a list.
    List,
    /// In an s-expression.
    Sexp,
    /// In a struct, up to the colon of a field.
    Name,
    /// In a struct, behind the colon of a field.
    FieldValue,
}

/// The marks, each a token of its own.
#[derive(Clone, Copy, Debug, PartialEq, Eq)]
pub enum Mark {
    /// `{`
    FieldsOpen,
    /// `}`
    FieldsClose,
    /// `[`
    ListOpen,
    /// `]`
    ListClose,
    /// `(`
    SexpOpen,
    /// `)`
    SexpClose,
    /// `,`
    Comma,
    /// `:`
    Colon,
    /// `::`
    Colons,
}

/// The sorts of quoted texts.
#[derive(Clone, Copy)]
pub enum Style {
    ShortString,
    QuotedSymbol,
    /// A segment of a long string.
    LongString,
    ShortClob,
    /// A segment of a long clob.
    LongClob,
}

/// Which escape the hexadecimal digits are part of.
#[derive(Clone, Copy)]
pub enum Digits {
    /// `\x`
    Octet,
    /// `\u`
    Unit,
    /// `\U`
    Scalar,
    /// `\u` behind the escape of this high surrogate.
    LowSurrogate(u32),
}

/// Where a quoted text stands.
#[derive(Clone, Copy)]
pub enum Within {
    /// Between two characters.
    Plain,
    /// Behind a CR, which takes an LF.
    AfterReturn,
    /// Behind one raw quote of a long text.
    OneQuote,
    /// Behind two raw quotes of a long text.
    TwoQuotes,
    /// Inside a character: how many octets are left, and the least and the greatest that may come
    /// next.
    Utf8(u8, u8, u8),
    /// Behind a backslash.
    Escape,
    /// In an escape's digits: how many are left, and the number so far.
    Hexadecimal(Digits, u8, u32),
    /// Behind the escape of a high surrogate.
    HighSurrogate(u32),
    /// Behind the escape of a high surrogate and a backslash.
    HighSurrogateEscape(u32),
}

/// How a run of operator characters ends.
#[derive(Clone, Copy)]
pub enum Ending {
    /// The run is `-` alone.
    LoneMinus,
    /// In `-` behind others.
    Minus,
    /// In `+`.
    Plus,
    Other,
}

/// Where a blob or a clob stands.
#[derive(Clone, Copy)]
pub enum Lob {
    /// Behind `{{`, where either may come.
    Start,
    /// Behind one quote there.
    StartQuote,
    /// Behind two.
    StartQuotes,
    /// In the content of a blob.
    Base64,
    /// Behind the first `}` of a blob.
    BlobClose,
    /// Behind the text of a short clob.
    AfterShort,
    /// Behind a segment of a long clob.
    AfterLong,
    /// Behind one quote there.
    AfterQuote,
    /// Behind two.
    AfterQuotes,
    /// Behind the first `}` of a clob.
    ClobClose,
}

/// What the octets so far leave open.
#[derive(Clone, Copy)]
pub enum Mode {
    /// No token.
    Blank,
    /// A `/` that may open a comment.
    Slash,
    LineComment,
    BlockComment,
    /// A block comment, behind a `*`.
    BlockCommentStar,
    /// One colon.
    Colon,
    Word,
    /// The name behind `null.`.
    KindName,
    Number,
    /// A number and a `/`, which may open a comment.
    NumberSlash,
    Operator(Ending),
    /// An operator and a `/`, which may open a comment.
    OperatorSlash,
    /// An operator that ends in a sign, and so many letters of `inf` behind it.
    Infinity(u8),
    /// One `'`.
    Quote,
    /// Two.
    Quotes,
    Text(Style, Within),
    /// One `{`.
    Brace,
    Lob(Lob),
}

/// What a token is, apart from its octets.
#[derive(Clone, Copy, Debug)]
pub enum TokenKind {
    /// A word or a symbol id.
    Word,
    /// A typed null, by the name behind `null.`.
    KindName,
    Number,
    Operator,
    QuotedSymbol,
    ShortString,
    LongString,
    Clob,
    Blob,
    Mark(Mark),
}

/// What is added to the octets that are kept.
#[derive(Clone, Copy)]
pub enum Keep {
    Nothing,
    One(u8),
    Two(u8, u8),
    Character(char),
    /// Takes the first two quotes of a long text's close away.
    DropQuotes,
}

/// What an octet does.
#[derive(Clone, Copy)]
pub enum Action {
    /// The octet is used.
    Go(Mode, Keep),
    /// The octet is used and ends a token.
    Give(TokenKind, Keep),
    /// A token ended before the octet, which is taken up again in this mode.
    Before(TokenKind, Keep, Mode),
    /// A word ended, unless it is `null` and the octet a dot.
    EndWord,
    /// An operator ended before so many letters of `inf`, which begin a word; the octet is taken up
    /// again.
    Split(u8),
    /// The first `}` of a blob: its content is decoded.
    EndBlob,
    Refuse(Reason),
}

/// What the end of the input does.
#[derive(Clone, Copy)]
pub enum End {
    /// No token is open.
    Blank,
    /// A token ends there.
    Token(TokenKind, Keep),
    Refuse(Reason),
}

/// The octet is used, and nothing is kept of it.
pub fn go(mode: Mode) -> Action
    ensures { result ≡ Action.Go mode Keep.Nothing }
{
    Action::Go(mode, Keep::Nothing)
}

/// The octet is used and kept.
pub fn add(mode: Mode, octet: u8) -> Action
    ensures { result ≡ Action.Go mode (Keep.One octet) }
{
    Action::Go(mode, Keep::One(octet))
}

/// The octet is a mark, or ends one.
pub fn give_mark(mark: Mark) -> Action
    ensures { result ≡ Action.Give (TokenKind.Mark mark) Keep.Nothing }
{
    Action::Give(TokenKind::Mark(mark), Keep::Nothing)
}

/// A token ended before the octet, and a blank may begin there.
pub fn before(kind: TokenKind) -> Action
    ensures { result ≡ Action.Before kind Keep.Nothing Mode.Blank }
{
    Action::Before(kind, Keep::Nothing, Mode::Blank)
}

/// No document has the octet there.
pub fn unexpected() -> Action
    ensures { result ≡ Action.Refuse Reason.Unexpected }
{
    Action::Refuse(Reason::Unexpected)
}
