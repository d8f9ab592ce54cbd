//! Numbers and lengths at the front of octets that are all here.
ghost use Rattle.std.specs.Prelude.{◌≤◌, ◌<◌, ◌^◌, length, take, IfSome};
ghost use Rattle.ion_binary.specs.Names.{VarUInt};
ghost use Rattle.ion_binary.specs.machine.Framed.{Heads};

use ion_scalar::{Size, read_var_uint};

// A VarUInt of more octets begins with zeros that it needn't have, and is left to the walk, which
// looks at each octet once: by any number of them it would look through a piece again and again.
const MOST_DIGITS: usize = 16;

/// The VarUInt at the front of these octets, and how many octets it has.
#[inline(always)]
pub(crate) fn number(octets: &[u8]) -> Option<(u64, usize)>
    ensures within { IfSome result (λ read. read.1 ≤ length octets.now) }
    ensures is { IfSome result (λ read. VarUInt (take read.1 octets.now) read.0) }
{
    if octets.is_empty() {
        return None;
    }
    if octets[0] >= 128 {
        return Some((u64::from(octets[0] - 128), 1));
    }
    long_number(octets)
}

/// The same of more than one octet.
#[inline(never)]
#[tactic(auto, using(ion_scalar::specs::binary::laws::VarUInt::var_uint_ok))]
fn long_number(octets: &[u8]) -> Option<(u64, usize)>
    ensures within { IfSome result (λ read. read.1 ≤ length octets.now) }
    ensures is { IfSome result (λ read. VarUInt (take read.1 octets.now) read.0) }
{
    let near = &octets[..octets.len().min(MOST_DIGITS)];
    match read_var_uint(near) {
        Ok(read) => Some(read),
        Err(_) => None,
    }
}

/// How many octets behind a descriptor are a length, and how many the body has.
#[inline(always)]
pub(crate) fn lengths(size: Size, rest: &[u8]) -> Option<(usize, u64)>
    ensures within { IfSome result (λ sizes. sizes.0 ≤ length rest.now) }
    ensures small { IfSome result (λ sizes. sizes.1 < 2 ^ 63) }
    ensures header { IfSome result (λ sizes. Heads size sizes.1 (take sizes.0 rest.now)) }
{
    match size {
        Size::Known(count) => Some((0, u64::from(count))),
        Size::Follows => {
            let (count, used) = number(rest)?;
            Some((used, count))
        }
    }
}
