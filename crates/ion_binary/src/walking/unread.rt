//! Scalars that a visitor heeds not: whether a body is one, without reading it.
ghost use Rattle.std.specs.Prelude.{◌≡◌, true, is_ok, List, IfSome};
ghost use Rattle.ion_binary.specs.Names.{Slot, judge, positional};
ghost use Rattle.ion_binary.specs.declared.form.Scalar.TheVariants as scalars;

use crate::form::Scalar;
use crate::walking::scalars::{int_of, is_utf8};
use ion_scalar::{is_decimal_body, is_timestamp_body, is_uint};
use ion_symtab::Context;

/// Whether a body is this scalar (Ion 1.0, "Ion Binary Encoding", typed value formats).
#[inline(always)]
pub(super) fn is_scalar(context: &Context, scalar: Scalar, body: &[u8]) -> bool
    ensures { result ≡ true → is_ok (judge context.now scalar body.now) ≡ true }
{
    match scalar {
        Scalar::Int => is_uint(body),
        Scalar::NegativeInt => is_negative(body),
        Scalar::Decimal => is_decimal_body(body),
        Scalar::Timestamp => is_timestamp_body(body),
        Scalar::Symbol => is_symbol(context, body),
        Scalar::Str => is_utf8(body),
        Scalar::Clob => true,
        Scalar::Blob => true,
    }
}

fn is_negative(body: &[u8]) -> bool
    ensures { result ≡ true → (c : List Slot) →
        is_ok (judge c scalars.NegativeInt body.now) ≡ true }
{
    // most are spelled without leading zeros
    if !body.is_empty() && body[0] != 0 {
        return is_uint(body);
    }
    int_of(true, body).is_ok()
}

fn is_symbol(context: &Context, body: &[u8]) -> bool
    ensures { result ≡ true → is_ok (judge context.now scalars.Symbol body.now) ≡ true }
{
    let Some(id) = small_uint(body) else {
        return false;
    };
    let Ok(_) = context.symbol(id) else {
        return false;
    };
    true
}

/// The number that these octets make, if it is found to be below 2^64. Most are one octet.
#[inline(always)]
fn small_uint(body: &[u8]) -> Option<u64>
    ensures { IfSome result (λ number. number ≡ positional 256 body.now) }
{
    if body.len() == 1 {
        return Some(u64::from(body[0]));
    }
    small_uint_of_any(body)
}

fn small_uint_of_any(body: &[u8]) -> Option<u64>
    ensures { IfSome result (λ number. number ≡ positional 256 body.now) }
{
    let mut number = 0;
    for octet in body {
        if number >= 1 << 56 {
            return None;
        }
        number = number * 256 + u64::from(*octet);
    }
    Some(number)
}
