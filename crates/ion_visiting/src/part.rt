//! Values with no others in them, as a visitor is told them.
ghost use Rattle.std.specs.Str.{IsUtf8};
ghost use Rattle.ion_visiting.specs.Names.{KeptPayload, number_payload, payload_of};
ghost use Rattle.ion_atoms.specs.Octets.{AreOctets};

use ion_model::Kind;
use ion_scalar::Number;

/// A value with no others in it, but no number, without its annotations.
#[derive(Clone, Copy)]
pub enum Part<'a> {
    Null(Kind),
    Truth(bool),
    Symbol(&'a str),
    Str(&'a str),
    Clob(&'a [u8]),
    Blob(&'a [u8]),
}

/// A number as binary encodes it, by its body (Ion 1.0, "Ion Binary Encoding", decimal, timestamp).
#[derive(Clone, Copy)]
pub enum NumberBody<'a> {
    Decimal(&'a [u8]),
    Timestamp(&'a [u8]),
}

/// A text is UTF-8. Does nothing.
#[inline(always)]
pub fn text_kept(_text: &str)
    ensures { IsUtf8 _text.now }
{}

/// What the types keep about a part. Does nothing.
#[inline(always)]
pub fn part_kept(said: &Part<'_>)
    ensures { KeptPayload (payload_of said.now) }
{
    match said {
        Part::Null(_) => {}
        Part::Truth(_) => {}
        Part::Symbol(text) => text_kept(text),
        Part::Str(text) => text_kept(text),
        Part::Clob(octets) => are_octets(octets),
        Part::Blob(octets) => are_octets(octets),
    }
}

/// What the types keep about a number. Does nothing.
#[inline(always)]
pub fn number_kept(number: &Number)
    ensures { KeptPayload (number_payload number.now) }
{
    match number {
        Number::Int(whole) => {
            let _value = whole.get();
        }
        Number::Decimal(decimal) => {
            let _magnitude = decimal.magnitude();
        }
        Number::Timestamp(timestamp) => {
            let _local = timestamp.local();
        }
    }
}

/// Octets are whole numbers below 256. Does nothing: a proof knows an octet to be one once it is
/// read, and the compiled loop is empty.
#[inline(always)]
fn are_octets(octets: &[u8])
    ensures { AreOctets octets.now }
{
    for octet in octets {
        let _octet = *octet;
    }
}
