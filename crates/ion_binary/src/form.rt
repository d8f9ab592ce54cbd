//! What a descriptor octet opens.
ghost use Rattle.std.specs.Prelude.{◌≡◌, IfSome};
ghost use Rattle.ion_binary.specs.Names.{body_of, bracket_of, hollow, opening_of, scalar_kind, type_code, with_octets};
ghost use Rattle.ion_binary.specs.declared.form.Form.TheVariants as forms;

use ion_model::{Kind, Reason};
use ion_scalar::{Descriptor, Size};
use ion_visiting::Bracket;

/// A scalar whose octets are its body.
#[derive(Clone, Copy, PartialEq, Eq)]
pub enum Scalar {
    Int,
    NegativeInt,
    Decimal,
    Timestamp,
    Symbol,
    Str,
    Clob,
    Blob,
}

impl Scalar {
    /// The kind of the values with such a body.
    pub fn kind(self) -> Kind
        ensures { result ≡ scalar_kind self }
    {
        match self {
            Scalar::Int => Kind::Int,
            Scalar::NegativeInt => Kind::Int,
            Scalar::Decimal => Kind::Decimal,
            Scalar::Timestamp => Kind::Timestamp,
            Scalar::Symbol => Kind::Symbol,
            Scalar::Str => Kind::Str,
            Scalar::Clob => Kind::Clob,
            Scalar::Blob => Kind::Blob,
        }
    }
}

/// The two kinds of values that are items one behind the other.
#[derive(Clone, Copy, PartialEq, Eq)]
pub enum ListOrSexp {
    List,
    Sexp,
}

/// What has a length.
#[derive(Clone, Copy, PartialEq, Eq)]
pub enum Form {
    Pad,
    Scalar(Scalar),
    ListOrSexp(ListOrSexp),
    Struct,
    /// A struct that announces the order of its fields; it has at least one.
    OrderedStruct,
    /// An annotation wrapper: annotations, and the value that they stand before.
    Wrapper,
}

/// What a descriptor octet opens, or why it can't stand where a value begins.
#[derive(Clone, Copy, PartialEq, Eq)]
pub enum Opening {
    Refused(Reason),
    Marker,
    Null(Kind),
    Truth(bool),
    Sized(Form, Size),
}

/// What an octet opens where a value may begin. Most are scalars with some octets.
#[inline(always)]
pub fn opening_of(octet: u8) -> Opening
    ensures { result ≡ opening_of octet }
{
    let length = octet % 16;
    if length == 0 || length == 15 {
        return opening_of_any(octet);
    }
    match scalar_of(octet / 16) {
        None => opening_of_any(octet),
        Some(scalar) if length == 14 => Opening::Sized(Form::Scalar(scalar), Size::Follows),
        Some(scalar) => Opening::Sized(Form::Scalar(scalar), Size::Known(length)),
    }
}

/// The scalar of a type code.
#[inline(always)]
fn scalar_of(code: u8) -> Option<Scalar>
    ensures { IfSome result (λ scalar. code ≡ type_code (forms.Scalar scalar)) }
{
    match code {
        2 => Some(Scalar::Int),
        3 => Some(Scalar::NegativeInt),
        5 => Some(Scalar::Decimal),
        6 => Some(Scalar::Timestamp),
        7 => Some(Scalar::Symbol),
        8 => Some(Scalar::Str),
        9 => Some(Scalar::Clob),
        10 => Some(Scalar::Blob),
        _ => None,
    }
}

/// The same of any octet.
#[tactic(auto, unfolding(crate::specs::Opening::opening_of))]
#[inline(always)]
fn opening_of_any(octet: u8) -> Opening
    ensures { result ≡ opening_of octet }
{
    match Descriptor::of(octet) {
        Err(reason) => Opening::Refused(reason),
        Ok(Descriptor::Marker) => Opening::Marker,
        Ok(Descriptor::Null(kind)) => Opening::Null(kind),
        Ok(Descriptor::Truth(truth)) => Opening::Truth(truth),
        Ok(Descriptor::Pad(size)) => Opening::Sized(Form::Pad, size),
        Ok(Descriptor::Ordered) => Opening::Sized(Form::OrderedStruct, Size::Follows),
        Ok(Descriptor::Body(code, size)) => body_of(code, size),
    }
}

/// What a type code with a body opens.
#[inline(always)]
fn body_of(code: u8, size: Size) -> Opening
    ensures { result ≡ body_of code size }
{
    match code {
        2 => Opening::Sized(Form::Scalar(Scalar::Int), size),
        3 => with_octets(Scalar::NegativeInt, size),
        5 => Opening::Sized(Form::Scalar(Scalar::Decimal), size),
        6 => with_octets(Scalar::Timestamp, size),
        7 => Opening::Sized(Form::Scalar(Scalar::Symbol), size),
        8 => Opening::Sized(Form::Scalar(Scalar::Str), size),
        9 => Opening::Sized(Form::Scalar(Scalar::Clob), size),
        10 => Opening::Sized(Form::Scalar(Scalar::Blob), size),
        11 => Opening::Sized(Form::ListOrSexp(ListOrSexp::List), size),
        12 => Opening::Sized(Form::ListOrSexp(ListOrSexp::Sexp), size),
        13 => Opening::Sized(Form::Struct, size),
        14 => Opening::Sized(Form::Wrapper, size),
        _ => Opening::Refused(Reason::Malformed),
    }
}

/// A scalar that no body without octets is: the descriptor alone shows that it is none.
#[inline(always)]
fn with_octets(scalar: Scalar, size: Size) -> Opening
    ensures { result ≡ with_octets scalar size }
{
    match size {
        Size::Known(0) => Opening::Refused(Reason::Malformed),
        _ => Opening::Sized(Form::Scalar(scalar), size),
    }
}

/// The brackets around the items of a listing.
#[inline(always)]
pub fn bracket_of(listing: ListOrSexp) -> Bracket
    ensures { result ≡ bracket_of listing }
{
    match listing {
        ListOrSexp::List => Bracket::List,
        ListOrSexp::Sexp => Bracket::Sexp,
    }
}

/// Why a form has no body of this size: a negative int, a timestamp, a struct that announces the
/// order of its fields and a wrapper have some octets (Ion 1.0, "Ion Binary Encoding", typed value
/// formats).
pub fn hollow(form: Form, size: u64) -> Option<Reason>
    ensures { result ≡ hollow form size }
{
    if size != 0 {
        return None;
    }
    match form {
        Form::Scalar(Scalar::NegativeInt | Scalar::Timestamp)
        | Form::OrderedStruct
        | Form::Wrapper => Some(Reason::Malformed),
        _ => None,
    }
}
