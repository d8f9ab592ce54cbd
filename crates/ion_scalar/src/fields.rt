//! The fields of binary values that are whole numbers (Ion 1.0, "Ion Binary Encoding", basic field
//! formats).
ghost use Rattle.std.specs.Prelude.{◌≡◌, ◌<◌, ◌≤◌, ◌+◌, ◌^◌, ◌∷◌, IfSome, Ok, SomeIff, false, is_ok, length};
ghost use Rattle.ion_scalar.specs.Names.{int_field, positional, signed_of, uint_field, var_int, var_rest, var_uint};

use ion_atoms::Reason;

/// Reads the VarUInt at the front of `octets`: its value, and how many octets it takes.
///
/// Each octet holds seven bits, the most significant first, and the highest bit is set on the last
/// octet alone (Ion 1.0, "Ion Binary Encoding", "VarUInt and VarInt Fields"). Leading zero octets
/// are accepted.
///
/// Answers `TooLarge` once the octets read, the last at most, reach 2^63, else `Incomplete` where
/// no octet ends.
#[inline(always)]
pub fn read_var_uint(octets: &[u8]) -> Result<(u64, usize), Reason>
    ensures { result ≡ var_uint octets.now }
{
    if octets.is_empty() {
        return Err(Reason::Incomplete);
    }
    // most have one octet, and most others two
    if octets[0] >= 128 {
        return Ok((u64::from(octets[0] % 128), 1));
    }
    if octets.len() > 1 && octets[1] >= 128 {
        return Ok((u64::from(octets[0]) * 128 + u64::from(octets[1] % 128), 2));
    }
    read_rest(0, 0, octets)
}

/// The sign and the magnitude of a number that has two zeros.
#[derive(Clone, Copy, Debug, PartialEq, Eq)]
pub struct Signed {
    pub negative: bool,
    pub magnitude: u64,
}

impl Signed {
    /// The number of that sign and magnitude.
    pub fn new(negative: bool, magnitude: u64) -> Signed
        ensures { result ≡ signed_of negative magnitude }
    {
        Signed {
            negative,
            magnitude,
        }
    }
}

/// Reads the VarInt at the front of `octets`: its sign and magnitude, and how many octets it takes.
///
/// The bit below the highest of the first octet is the sign; else it is as a VarUInt
/// (Ion 1.0, "Ion Binary Encoding", "VarUInt and VarInt Fields"). The octet C0 is -0.
///
/// Answers `TooLarge` once the magnitude read, with the last octet at most, reaches 2^63, else
/// `Incomplete` where no octet ends.
#[inline(always)]
pub fn read_var_int(octets: &[u8]) -> Result<(Signed, usize), Reason>
    ensures { result ≡ var_int octets.now }
{
    if octets.is_empty() {
        return Err(Reason::Incomplete);
    }
    let first = octets[0];
    let negative = first % 128 >= 64;
    let magnitude = u64::from(first % 64);
    if first >= 128 {
        return Ok((Signed::new(negative, magnitude), 1));
    }
    match read_rest(magnitude, 1, &octets[1..]) {
        Ok((magnitude, used)) => Ok((Signed::new(negative, magnitude), used)),
        Err(reason) => Err(reason),
    }
}

/// Reads the rest of a number behind the digit `front`, which took `used` octets.
#[inline(never)]
fn read_rest(front: u64, used: usize, octets: &[u8]) -> Result<(u64, usize), Reason>
    requires front { front < 2 ^ 63 }
    requires used { used ≤ 1 }
    requires room { length octets.now + used < 2 ^ 64 }
    ensures { result ≡ var_rest front used octets.now }
{
    let mut value = front;
    for (i, octet) in octets.iter().enumerate() {
        if value >= 1 << 56 {
            return Err(Reason::TooLarge);
        }
        value = value * 128 + u64::from(*octet % 128);
        if *octet >= 128 {
            return Ok((value, used + i + 1));
        }
    }
    Err(Reason::Incomplete)
}

/// The value of a UInt, which is all of `octets`, big endian (Ion 1.0, "Ion Binary Encoding", "UInt
/// and Int Fields").
///
/// No octets are 0, and leading zero octets are accepted. Answers `TooLarge` from 2^127 on.
pub fn uint_of(octets: &[u8]) -> Result<u128, Reason>
    ensures { result ≡ uint_field octets.now }
{
    match fold_octets(0, octets) {
        Some(value) => Ok(value),
        None => Err(Reason::TooLarge),
    }
}

/// Whether the UInt that all of `octets` are is below 2^127, so that `uint_of` answers it.
#[inline(always)]
pub fn is_uint(octets: &[u8]) -> bool
    ensures { result ≡ is_ok (uint_field octets.now) }
{
    // 15 octets hold 120 bits
    if octets.len() < 16 {
        return true;
    }
    uint_of(octets).is_ok()
}

/// The sign, true if it is negative, and the magnitude of an Int, which is all of `octets`, big
/// endian (Ion 1.0, "Ion Binary Encoding", "UInt and Int Fields").
///
/// The highest bit of the first octet is the sign; no octets are +0. Answers `TooLarge` from the
/// magnitude 2^127 on.
pub fn int_of(octets: &[u8]) -> Result<(bool, u128), Reason>
    ensures { result ≡ int_field octets.now }
{
    if octets.is_empty() {
        return Ok((false, 0));
    }
    match fold_octets(u128::from(octets[0] % 128), &octets[1..]) {
        Some(magnitude) => Ok((octets[0] >= 128, magnitude)),
        None => Err(Reason::TooLarge),
    }
}

/// The magnitude of an Int of at most eight octets that isn't negative, as most are.
#[inline(always)]
pub(crate) fn few_int_of(octets: &[u8]) -> Option<u64>
    ensures { IfSome result (λ magnitude. int_field octets.now ≡ Ok (false, magnitude)) }
{
    if octets.is_empty() || octets.len() > 8 || octets[0] >= 128 {
        return None;
    }
    Some(fold_few(u64::from(octets[0]), &octets[1..]))
}

/// The number that the digit `front` and behind it the octets make, if it is below 2^127.
fn fold_octets(front: u128, octets: &[u8]) -> Option<u128>
    requires { front < 2 ^ 127 }
    ensures { SomeIff result (positional 256 (front ∷ octets.now) < 2 ^ 127)
        (positional 256 (front ∷ octets.now)) }
{
    // Most ids and ints have few octets, which 64 bits hold.
    if octets.len() < 8 && front < 256 {
        return Some(u128::from(fold_few(front as u64, octets)));
    }
    let mut value = front;
    for octet in octets {
        if value >= 1 << 119 {
            return None;
        }
        value = value * 256 + u128::from(*octet);
    }
    Some(value)
}

/// The number that the digit `front` and behind it so few octets make that 64 bits hold it.
#[inline(always)]
fn fold_few(front: u64, octets: &[u8]) -> u64
    requires few { length octets.now < 8 }
    requires front { front < 256 }
    ensures { result ≡ positional 256 (front ∷ octets.now) }
{
    let mut value = front;
    for octet in octets {
        value = value * 256 + u64::from(*octet);
    }
    value
}
