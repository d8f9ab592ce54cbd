//! Octets with their descriptor and length in front, and the values that hold no others (Ion 1.0,
//! "Ion Binary Encoding"). Each function appends to `out`, and its only fault is `Memory`, on which
//! some of the octets may stand there.
ghost use Rattle.std.specs.Prelude.{◌≡◌, ◌<◌, ◌≤◌, ◌*◌, ◌^◌, ◌+◌, ◌++◌, ◌∷◌, [], take, drop, vec_capacity, vec_len, OnOk, IsOkUnless};
ghost use Rattle.ion_binary.specs.Names.{code_in, decimal_octets, framed, null_octet, timestamp_octets, truth_octet, uint_octets, var_uint_octets, whole_octets};
ghost use Rattle.ion_symtab.specs.declared.fault.Fault.TheVariants as faults;

use ion_model::{Decimal, Kind, Timestamp, Whole};
use ion_scalar::{put_decimal, put_timestamp, put_uint, put_var_uint};
use ion_symtab::Fault;
use ion_visiting::Bracket;

/// The type code of what stands in brackets (Ion 1.0, "Ion Binary Encoding", "11: List", "12:
/// S-expression", "13: Structure").
pub(crate) fn code_of(bracket: Bracket) -> u8
    ensures code { result ≡ code_in bracket }
    ensures small { result < 16 }
{
    match bracket {
        Bracket::List => 11,
        Bracket::Sexp => 12,
        Bracket::Fields => 13,
    }
}

/// Appends a body behind the descriptor of its type code and length, which has the fewest octets.
#[inline(never)]
pub(crate) fn put_framed(code: u8, body: &[u8], out: &mut Vec<u8>) -> Result<(), Fault>
    requires { code < 16 }
    ensures ok { OnOk result (out.new.items ≡ out.old.items ++ framed code body.now) }
    ensures memory { IsOkUnless result faults.Memory }
{
    if body.len() < 14 {
        out.push(code * 16 + body.len() as u8)?;
    } else {
        out.push(code * 16 + 14)?;
        put_digits(body.len() as u64, out)?;
    }
    out.extend_from_slice(body)?;
    Ok(())
}

/// Makes a body of what stands behind a place: sets the descriptor of its type code and length
/// there, and moves the body up by the octets of a longer length.
pub(crate) fn frame(code: u8, place: usize, out: &mut Vec<u8>) -> Result<(), Fault>
    requires code { code < 16 }
    requires place { place < vec_len out.old }
    ensures ok { let body = drop (place + 1) out.old.items in
        OnOk result (out.new.items ≡ take place out.old.items ++ framed code body) }
    ensures memory { IsOkUnless result faults.Memory }
{
    let length = out.len() - place - 1;
    if length < 14 {
        out[place] = code * 16 + length as u8;
        return Ok(());
    }
    out[place] = code * 16 + 14;
    insert_length(place + 1, length, out)
}

/// Puts a number before the octets from a place on.
#[inline(never)]
pub(crate) fn insert_length(place: usize, length: usize, out: &mut Vec<u8>) -> Result<(), Fault>
    requires place { place ≤ vec_len out.old }
    requires length { length < 2 ^ 63 }
    ensures ok { let behind = drop place out.old.items in
        OnOk result (out.new.items ≡ take place out.old.items
        ++ (var_uint_octets length ++ behind)) }
    ensures memory { IsOkUnless result faults.Memory }
{
    // The last digit first, and each in front of those that stand.
    out.insert(place, 128 + (length % 128) as u8)?;
    let mut rest = length / 128;
    while rest > 0 {
        out.insert(place, (rest % 128) as u8)?;
        rest /= 128;
    }
    Ok(())
}

/// Appends the digits of a VarUInt. Most are few.
pub(crate) fn put_digits(number: u64, out: &mut Vec<u8>) -> Result<(), Fault>
    requires { number < 2 ^ 63 }
    ensures ok { OnOk result (out.new.items ≡ out.old.items ++ var_uint_octets number) }
    ensures memory { IsOkUnless result faults.Memory }
{
    if number >= 0x20_0000 {
        return put_var_uint(number, out).map_err(|_| Fault::Memory);
    }
    let last = 128 + (number % 0x80) as u8;
    let second = (number / 0x80 % 0x80) as u8;
    out.reserve(3)?;
    if number < 0x80 {
        out.push_reserved(last);
        return Ok(());
    }
    if number < 0x4000 {
        out.push_reserved(second);
        out.push_reserved(last);
        return Ok(());
    }
    out.push_reserved((number / 0x4000) as u8);
    out.push_reserved(second);
    out.push_reserved(last);
    Ok(())
}

/// Appends the null of a kind.
pub(crate) fn put_null(kind: Kind, out: &mut Vec<u8>) -> Result<(), Fault>
    ensures ok { OnOk result (out.new.items ≡ out.old.items ++ null_octet kind ∷ []) }
    ensures memory { IsOkUnless result faults.Memory }
{
    out.push(null_octet(kind))?;
    Ok(())
}

fn null_octet(kind: Kind) -> u8
    ensures { result ≡ null_octet kind }
{
    match kind {
        Kind::Null => 0x0F,
        Kind::Bool => 0x1F,
        Kind::Int => 0x2F,
        Kind::Float => 0x4F,
        Kind::Decimal => 0x5F,
        Kind::Timestamp => 0x6F,
        Kind::Symbol => 0x7F,
        Kind::Str => 0x8F,
        Kind::Clob => 0x9F,
        Kind::Blob => 0xAF,
        Kind::List => 0xBF,
        Kind::Sexp => 0xCF,
        Kind::Fields => 0xDF,
    }
}

/// Appends a bool.
pub(crate) fn put_truth(truth: bool, out: &mut Vec<u8>) -> Result<(), Fault>
    ensures ok { OnOk result (out.new.items ≡ out.old.items ++ truth_octet truth ∷ []) }
    ensures memory { IsOkUnless result faults.Memory }
{
    out.push(if truth { 0x11 } else { 0x10 })?;
    Ok(())
}

/// Appends a magnitude behind the descriptor of a type code.
#[inline(always)]
fn put_magnitude(code: u8, magnitude: u128, out: &mut Vec<u8>) -> Result<(), Fault>
    requires code { code < 16 }
    requires magnitude { magnitude < 2 ^ 127 }
    ensures ok { OnOk result (out.new.items ≡ out.old.items
        ++ framed code (uint_octets magnitude)) }
    ensures memory { IsOkUnless result faults.Memory }
{
    // most have few octets, and there is room
    if magnitude > 0 && magnitude < 1 << 32 && out.capacity() - out.len() >= 5 {
        put_few(code, magnitude as u32, out);
        return Ok(());
    }
    put_any(code, magnitude, out)
}

// The same, for which memory may be needed.
#[inline(never)]
fn put_any(code: u8, magnitude: u128, out: &mut Vec<u8>) -> Result<(), Fault>
    requires code { code < 16 }
    requires magnitude { magnitude < 2 ^ 127 }
    ensures ok { OnOk result (out.new.items ≡ out.old.items
        ++ framed code (uint_octets magnitude)) }
    ensures memory { IsOkUnless result faults.Memory }
{
    let place = out.len();
    out.push(0)?;
    put_uint(magnitude, out).map_err(|_| Fault::Memory)?;
    frame(code, place, out)
}

// The same of a magnitude of one to four octets, for which there is room: they are written at once.
#[inline(always)]
fn put_few(code: u8, magnitude: u32, out: &mut Vec<u8>)
    requires code { code < 16 }
    requires some { 0 < magnitude }
    requires room { vec_len out.old + 5 ≤ vec_capacity out.old }
    ensures { out.new.items ≡ out.old.items ++ framed code (uint_octets magnitude) }
{
    let front = code * 16;
    let last = (magnitude % 0x100) as u8;
    let second = (magnitude / 0x100 % 0x100) as u8;
    let third = (magnitude / 0x1_0000 % 0x100) as u8;
    if magnitude < 0x100 {
        out.push_reserved(front + 1);
        out.push_reserved(last);
        return;
    }
    if magnitude < 0x1_0000 {
        out.push_reserved(front + 2);
        out.push_reserved(second);
        out.push_reserved(last);
        return;
    }
    if magnitude < 0x100_0000 {
        out.push_reserved(front + 3);
        out.push_reserved(third);
        out.push_reserved(second);
        out.push_reserved(last);
        return;
    }
    out.push_reserved(front + 4);
    out.push_reserved((magnitude / 0x100_0000) as u8);
    out.push_reserved(third);
    out.push_reserved(second);
    out.push_reserved(last);
}

/// Appends an int, of which the type code has the sign.
#[inline(never)]
pub(crate) fn put_whole(whole: Whole, out: &mut Vec<u8>) -> Result<(), Fault>
    ensures ok { OnOk result (out.new.items ≡ out.old.items ++ whole_octets whole) }
    ensures memory { IsOkUnless result faults.Memory }
{
    let value = whole.get();
    let magnitude = value.unsigned_abs();
    put_magnitude(if value < 0 { 3 } else { 2 }, magnitude, out)
}

/// Appends a decimal.
#[inline(never)]
pub(crate) fn put_decimal_value(decimal: Decimal, out: &mut Vec<u8>) -> Result<(), Fault>
    ensures ok { OnOk result (out.new.items ≡ out.old.items ++ framed 5 (decimal_octets decimal)) }
    ensures memory { IsOkUnless result faults.Memory }
{
    let place = out.len();
    out.push(0)?;
    put_decimal(&decimal, out).map_err(|_| Fault::Memory)?;
    frame(5, place, out)
}

/// Appends a timestamp.
#[inline(never)]
pub(crate) fn put_timestamp_value(timestamp: Timestamp, out: &mut Vec<u8>) -> Result<(), Fault>
    ensures ok { OnOk result (out.new.items ≡ out.old.items
        ++ framed 6 (timestamp_octets timestamp)) }
    ensures memory { IsOkUnless result faults.Memory }
{
    let place = out.len();
    out.push(0)?;
    put_timestamp(&timestamp, out).map_err(|_| Fault::Memory)?;
    frame(6, place, out)
}

/// Appends a symbol of this id as a value.
#[inline(never)]
pub(crate) fn put_symbol(id: u64, out: &mut Vec<u8>) -> Result<(), Fault>
    ensures ok { OnOk result (out.new.items ≡ out.old.items ++ framed 7 (uint_octets id)) }
    ensures memory { IsOkUnless result faults.Memory }
{
    put_magnitude(7, u128::from(id), out)
}
