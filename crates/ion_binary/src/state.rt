//! What a reader holds between two octets.

use crate::form::{Form, Scalar};

/// Which octet of a version marker comes next.
#[derive(Clone, Copy, PartialEq, Eq)]
pub enum Mark {
    First,
    Second,
    Third,
    Fourth,
}

/// What a VarUInt is the number of.
#[derive(Clone, Copy, PartialEq, Eq)]
pub enum Purpose {
    /// The octets of a body.
    Length(Form),
    /// The id of a field name.
    FieldName,
    /// The octets of a wrapper's annotations.
    AnnotationsLength,
    /// The id of an annotation; the annotations end at this octet.
    Annotation(u64),
}

/// What the next octet is part of.
#[derive(Clone, Copy, PartialEq, Eq)]
pub enum Phase {
    /// A version marker, and whether its octets so far are good.
    InMarker(Mark, bool),
    /// A descriptor.
    Ready,
    /// A VarUInt, with the number that its octets make so far.
    InNumber(Purpose, u64),
    /// The body of a scalar, with how many octets are missing behind the next.
    InBody(Scalar, u64),
    /// A pad, with how many octets are missing behind the next.
    InPad(u64),
}

/// What an octet did that wasn't refused.
#[derive(Clone, Copy, PartialEq, Eq)]
pub enum Effect {
    /// More octets are to come.
    Goes,
    /// It ended a value of the top level, which the reader holds until it is taken.
    Gives,
}
