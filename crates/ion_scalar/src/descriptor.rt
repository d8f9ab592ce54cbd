//! The descriptor octet, with which each value in binary begins (Ion 1.0, "Ion Binary Encoding",
//! typed value formats).
ghost use Rattle.std.specs.Prelude.{◌≡◌, ◌/◌, ◌%◌, ◌<◌};
ghost use Rattle.ion_scalar.specs.Names.{descriptor_of, kind, size, typed};

use ion_atoms::{Kind, Reason};

/// How many octets the body has: that many, below 14, or as many as the VarUInt behind the
/// descriptor says.
#[derive(Clone, Copy, Debug, PartialEq, Eq)]
pub enum Size {
    Known(u8),
    Follows,
}

/// What a descriptor octet says: `tag` is the type code in its high four bits, `length` the length
/// code in its low four.
#[derive(Clone, Copy, Debug, PartialEq, Eq)]
pub enum Descriptor {
    /// The octet E0, with which a version marker begins.
    Marker,
    /// A null of that kind, whole.
    Null(Kind),
    /// A bool, whole.
    Truth(bool),
    /// A pad of that size.
    Pad(Size),
    /// The octet D1: a struct that announces the order of its fields; its length follows.
    Ordered,
    /// A body of that type code (2, 3 or 5 to 14) and size.
    Body(u8, Size),
}

impl Descriptor {
    /// What the descriptor octet says, by the table of type codes and length codes.
    ///
    /// Answers `Float` for a float that isn't null, and `Malformed` for an octet that the table has
    /// no row for. Which descriptors may stand where, as octet 30, E0 or a wrapper in a wrapper, is
    /// not judged here.
    #[tactic(auto, unfolding(crate::specs::binary::Descriptor::descriptor_of))]
    #[inline(always)]
    pub fn of(octet: u8) -> Result<Descriptor, Reason>
        ensures { result ≡ descriptor_of octet }
    {
        of_codes(octet / 16, octet % 16)
    }
}

/// The row of a type code and a length code, each of four bits.
#[inline(always)]
fn of_codes(tag: u8, length: u8) -> Result<Descriptor, Reason>
    requires tag { tag < 16 }
    requires length { length < 16 }
    ensures { result ≡ typed tag length }
{
    if tag == 15 {
        return Err(Reason::Malformed);
    }
    if tag == 14 {
        return match length {
            0 => Ok(Descriptor::Marker),
            1 | 2 | 15 => Err(Reason::Malformed),
            _ => Ok(Descriptor::Body(tag, size_of(length))),
        };
    }
    if length == 15 {
        return Ok(Descriptor::Null(kind_of(tag)));
    }
    match tag {
        0 => Ok(Descriptor::Pad(size_of(length))),
        1 => match length {
            0 => Ok(Descriptor::Truth(false)),
            1 => Ok(Descriptor::Truth(true)),
            _ => Err(Reason::Malformed),
        },
        4 => match length {
            0 | 4 | 8 => Err(Reason::Float),
            _ => Err(Reason::Malformed),
        },
        13 if length == 1 => Ok(Descriptor::Ordered),
        _ => Ok(Descriptor::Body(tag, size_of(length))),
    }
}

#[inline(always)]
fn size_of(length: u8) -> Size
    ensures { result ≡ size length }
{
    if length == 14 {
        Size::Follows
    } else {
        Size::Known(length)
    }
}

#[inline(always)]
fn kind_of(tag: u8) -> Kind
    ensures { result ≡ kind tag }
{
    match tag {
        0 => Kind::Null,
        1 => Kind::Bool,
        2 | 3 => Kind::Int,
        4 => Kind::Float,
        5 => Kind::Decimal,
        6 => Kind::Timestamp,
        7 => Kind::Symbol,
        8 => Kind::Str,
        9 => Kind::Clob,
        10 => Kind::Blob,
        11 => Kind::List,
        12 => Kind::Sexp,
        _ => Kind::Fields,
    }
}
