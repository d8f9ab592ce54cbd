//! What a reader holds between two tokens.
use crate::long_text::LongText;
use ion_model::{Field, Kind, Reason, Sequence, Symbol, Text, Value};

/// A word, an id, a quoted symbol or a typed null, of which it isn't known yet whether `::`
/// follows.
#[derive(Drop)]
pub enum Held {
    Symbol(Symbol),
    /// An unquoted word of the form of a version marker, and whether it is that of Ion 1.0.
    Version(bool, Symbol),
    Null(Kind),
    Truth(bool),
    /// `nan`, a float.
    Nan,
}

/// What may come next.
#[derive(Drop)]
pub enum Stage {
    /// A value, an annotation, or the close of a list or an s-expression.
    Ready,
    /// Behind an element of a list or a field: a comma or the close.
    After,
    /// A field's name or the close.
    Name,
    /// Whatever shows whether this is an annotation; its token ended at the octet.
    Pending(Held, u64),
    /// More of a long string, whose last segment ended at the octet.
    Long(LongText, u64),
    /// More of a long string that is a field's name.
    LongName(Text),
    /// The colon behind a field's name.
    Keyed(Symbol),
}

/// What has items without names.
#[derive(Clone, Copy)]
pub enum ListOrSexp {
    List,
    Sexp,
}

/// A container that isn't whole yet: its annotations, and what has come of it.
#[derive(Drop)]
pub enum Frame {
    Items(ListOrSexp, Sequence<Symbol>, Sequence<Value>),
    /// A struct where no value is open.
    Fields(Sequence<Symbol>, Sequence<Field>),
    /// A struct, and the name of the field whose value is open.
    Named(Sequence<Symbol>, Sequence<Field>, Symbol),
}

/// What a token did that wasn't refused.
#[derive(Clone, Copy)]
pub enum Effect {
    /// More is to come.
    Goes,
    /// It ended a value of the top level, which the reader holds until it is taken.
    Gives,
    /// It is refused for the reason, unless the octet that shows it is refused for a smaller one.
    Late(Reason),
}

/// What octets did that weren't refused.
#[derive(Clone, Copy)]
pub enum Taken {
    /// They are used, and ended no value.
    Uses,
    /// They are used, and the last one ended a value of the top level, which the reader holds until
    /// it is taken.
    Tells,
    /// The octet behind them showed the end of a value of the top level, and isn't used.
    Leaves,
}

/// What octets did at the scanner and behind it.
#[derive(Clone, Copy)]
pub enum Met {
    /// They are used, and ended no value.
    Uses,
    /// They are used, and the last one ended a value of the top level.
    Tells,
    /// The last one showed the end of a value of the top level, and isn't used.
    Leaves,
    /// The last one showed the end of a token, and comes again.
    Again,
    /// So it did, and is refused for the reason, unless it is refused for a smaller one where it
    /// comes again.
    Late(Reason),
}
