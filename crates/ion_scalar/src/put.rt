//! Numbers written as octets: always the fewest (Ion 1.0, "Ion Binary Encoding", basic field
//! formats).
ghost use Rattle.std.specs.Prelude.{◌≡◌, ℕ, ◌<◌, ◌≤◌, ◌+◌, ◌^◌, ◌++◌, List, OnOk, OnErr, IsOkUnless, Ok, length, vec_len, vec_capacity};
ghost use Rattle.ion_scalar.specs.Names.{Memory, ROOM, decimal_octets, decimal_of_body, int_field, int_octets, uint_field, uint_octets, var_int, var_int_octets, var_uint, var_uint_octets};

use crate::backward::{Backward, sign_bit};
use crate::fields::Signed;
use ion_atoms::{Decimal, Reason};

/// Appends `value` as a VarUInt (Ion 1.0, "Ion Binary Encoding", "VarUInt and VarInt Fields").
/// Answers `Memory`, and leaves `out` as it was, where it has no room and gets none.
#[tactic(auto, using(crate::specs::binary::laws::Spellings::var_uint_again))]
pub fn put_var_uint(value: u64, out: &mut Vec<u8>) -> Result<(), Reason>
    requires { value < 2 ^ 63 }
    ensures ok { OnOk result (out.new.items ≡ out.old.items ++ var_uint_octets value) }
    ensures err { OnErr result (out.new.items ≡ out.old.items) }
    ensures memory { IsOkUnless result Memory }
    ensures full { OnErr result (vec_capacity out.old < vec_len out.old + length
        (var_uint_octets value)) }
    ensures again { (rest : List ℕ) → var_uint (var_uint_octets value ++ rest)
        ≡ Ok (value, length (var_uint_octets value)) }
{
    let mut octets = Backward::new();
    var_uint_before(&mut octets, value);
    append(octets.written(), out)
}

/// Appends `value` as a UInt (Ion 1.0, "Ion Binary Encoding", "UInt and Int Fields"); 0 has no
/// octets. Answers `Memory`, and leaves `out` as it was, where it has no room and gets none.
#[tactic(auto, using(crate::specs::binary::laws::Spellings::uint_again))]
pub fn put_uint(value: u128, out: &mut Vec<u8>) -> Result<(), Reason>
    requires { value < 2 ^ 127 }
    ensures ok { OnOk result (out.new.items ≡ out.old.items ++ uint_octets value) }
    ensures err { OnErr result (out.new.items ≡ out.old.items) }
    ensures memory { IsOkUnless result Memory }
    ensures full { OnErr result (vec_capacity out.old < vec_len out.old + length
        (uint_octets value)) }
    ensures again { uint_field (uint_octets value) ≡ Ok value }
{
    let mut octets = Backward::new();
    octets.push_digits(256, value);
    append(octets.written(), out)
}

/// Appends `signed` as a VarInt (Ion 1.0, "Ion Binary Encoding", "VarUInt and VarInt Fields").
/// Answers `Memory`, and leaves `out` as it was, where it has no room and gets none.
#[tactic(auto, using(crate::specs::binary::laws::Spellings::var_int_again))]
pub fn put_var_int(signed: Signed, out: &mut Vec<u8>) -> Result<(), Reason>
    requires { signed.magnitude < 2 ^ 63 }
    ensures ok { OnOk result (out.new.items ≡ out.old.items ++ var_int_octets signed.negative
        signed.magnitude) }
    ensures err { OnErr result (out.new.items ≡ out.old.items) }
    ensures memory { IsOkUnless result Memory }
    ensures full { OnErr result (vec_capacity out.old < vec_len out.old + length
        (var_int_octets signed.negative signed.magnitude)) }
    ensures again { (rest : List ℕ) → var_int
        (var_int_octets signed.negative signed.magnitude ++ rest)
        ≡ Ok (signed, length (var_int_octets signed.negative signed.magnitude)) }
{
    let mut octets = Backward::new();
    var_int_before(&mut octets, signed);
    append(octets.written(), out)
}

/// Appends an Int of that sign and magnitude (Ion 1.0, "Ion Binary Encoding", "UInt and Int
/// Fields"); +0 has no octets, -0 has the one octet 80. Answers `Memory`, and leaves `out` as it
/// was, where it has no room and gets none.
#[tactic(auto, using(crate::specs::binary::laws::Spellings::int_again))]
pub fn put_int(negative: bool, magnitude: u128, out: &mut Vec<u8>) -> Result<(), Reason>
    requires { magnitude < 2 ^ 127 }
    ensures ok { OnOk result (out.new.items ≡ out.old.items ++ int_octets negative magnitude) }
    ensures err { OnErr result (out.new.items ≡ out.old.items) }
    ensures memory { IsOkUnless result Memory }
    ensures full { OnErr result (vec_capacity out.old < vec_len out.old + length
        (int_octets negative magnitude)) }
    ensures again { int_field (int_octets negative magnitude) ≡ Ok (negative, magnitude) }
{
    let mut octets = Backward::new();
    int_before(&mut octets, negative, magnitude);
    append(octets.written(), out)
}

/// Appends the body of a decimal (Ion 1.0, "Ion Binary Encoding", decimal), its exponent and its
/// coefficient; 0d0 has no octets, a coefficient +0 none behind the exponent, and -0 has the one
/// octet 80. Answers `Memory`, and leaves `out` as it was, where it has no room and gets none.
#[tactic(auto, using(crate::specs::binary::laws::Decimal::decimal_again))]
pub fn put_decimal(decimal: &Decimal, out: &mut Vec<u8>) -> Result<(), Reason>
    ensures ok { OnOk result (out.new.items ≡ out.old.items ++ decimal_octets decimal.now) }
    ensures err { OnErr result (out.new.items ≡ out.old.items) }
    ensures memory { IsOkUnless result Memory }
    ensures full { OnErr result (vec_capacity out.old < vec_len out.old + length
        (decimal_octets decimal.now)) }
    ensures again { decimal_of_body (decimal_octets decimal.now) ≡ Ok decimal.now }
{
    let (negative, magnitude) = (decimal.negative(), decimal.magnitude());
    let exponent = decimal.exponent();
    if !negative && magnitude == 0 && exponent == 0 {
        return Ok(());
    }
    let power = Signed::new(exponent < 0, u64::from(exponent.unsigned_abs()));
    // most have few octets, and there is room
    let few = power.magnitude < 64 && 0 < magnitude && magnitude < 1 << 23;
    if few && out.capacity() - out.len() >= 4 {
        put_few(power, negative, magnitude as u32, out);
        return Ok(());
    }
    let mut octets = Backward::new();
    int_before(&mut octets, negative, magnitude);
    var_int_before(&mut octets, power);
    append(octets.written(), out)
}

// The exponent in one octet and the coefficient in one to three, for which there is room: they are
// written at once.
#[inline(always)]
fn put_few(power: Signed, negative: bool, magnitude: u32, out: &mut Vec<u8>)
    requires power { power.magnitude < 64 }
    requires magnitude { (0 < magnitude) × (magnitude < 2 ^ 23) }
    requires room { vec_len out.old + 4 ≤ vec_capacity out.old }
    ensures { out.new.items ≡ out.old.items
        ++ (var_int_octets power.negative power.magnitude ++ int_octets negative magnitude) }
{
    out.push_reserved(128 + (sign_bit(64, power.negative) + power.magnitude as u8));
    let sign = sign_bit(128, negative);
    if magnitude < 0x80 {
        out.push_reserved(sign + magnitude as u8);
        return;
    }
    let last = (magnitude % 0x100) as u8;
    if magnitude < 0x8000 {
        out.push_reserved(sign + (magnitude / 0x100) as u8);
        out.push_reserved(last);
        return;
    }
    out.push_reserved(sign + (magnitude / 0x1_0000) as u8);
    out.push_reserved((magnitude / 0x100 % 0x100) as u8);
    out.push_reserved(last);
}

/// Writes a VarUInt in front of what is written. So do the others below.
pub fn var_uint_before(octets: &mut Backward, value: u64)
    requires value { value < 2 ^ 63 }
    requires room { length octets.old + 9 ≤ ROOM }
    ensures octets { octets.new ≡ var_uint_octets value ++ octets.old }
    ensures few { length octets.new ≤ length octets.old + 9 }
    ensures few_of_small { value < 2 ^ 16 → length octets.new ≤ length octets.old + 3 }
{
    octets.push_front(128 + (value % 128) as u8);
    octets.push_digits(128, u128::from(value / 128));
}

pub fn var_int_before(octets: &mut Backward, signed: Signed)
    requires value { signed.magnitude < 2 ^ 63 }
    requires room { length octets.old + 10 ≤ ROOM }
    ensures octets { octets.new ≡ var_int_octets signed.negative signed.magnitude ++ octets.old }
    ensures few { length octets.new ≤ length octets.old + 10 }
{
    let magnitude = signed.magnitude;
    if magnitude < 64 {
        octets.push_front(128 + (sign_bit(64, signed.negative) + magnitude as u8));
        return;
    }
    octets.push_front(128 + (magnitude % 128) as u8);
    let front = u128::from(magnitude / 128);
    octets.push_signed(128, signed.negative, front);
}

pub fn int_before(octets: &mut Backward, negative: bool, magnitude: u128)
    requires value { magnitude < 2 ^ 127 }
    requires room { length octets.old + 17 ≤ ROOM }
    ensures octets { octets.new ≡ int_octets negative magnitude ++ octets.old }
    ensures few { length octets.new ≤ length octets.old + 17 }
{
    if !negative && magnitude == 0 {
        return;
    }
    octets.push_signed(256, negative, magnitude);
}

// Appends whole, or answers `Memory` and leaves `out` as it was.
pub fn append(octets: &[u8], out: &mut Vec<u8>) -> Result<(), Reason>
    ensures ok { OnOk result (out.new.items ≡ out.old.items ++ octets.now) }
    ensures err { OnErr result (out.new.items ≡ out.old.items) }
    ensures memory { IsOkUnless result Memory }
    ensures full { OnErr result (vec_capacity out.old < vec_len out.old + length octets.now) }
{
    match out.extend_from_slice(octets) {
        Ok(()) => Ok(()),
        Err(_) => Err(Reason::Memory),
    }
}
