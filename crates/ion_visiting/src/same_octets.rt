//! Whether octets are the same, sixteen at a time.
ghost use Rattle.std.specs.Prelude.{◌≡◌, true};

use std::simd::prelude::*;

const LANES: usize = 16;

// Whether these are the same.
#[inline(always)]
fn have_same_lanes(first: u8x16, second: u8x16) -> bool
    ensures { result ≡ true → first ≡ second }
{
    first.simd_ne(second).to_bitmask() == 0
}

/// Whether these are the same octets.
#[inline(always)]
pub(crate) fn are_same(first: &[u8], second: &[u8]) -> bool
    ensures { result ≡ true → first.now ≡ second.now }
{
    let count = first.len();
    if count != second.len() {
        return false;
    }
    if count < LANES {
        return first == second;
    }
    let mut at = 0;
    while count - at >= LANES {
        if !have_same_lanes(
            u8x16::from_slice(&first[at..]),
            u8x16::from_slice(&second[at..]),
        ) {
            return false;
        }
        at += LANES;
    }
    let last = count - LANES;
    have_same_lanes(
        u8x16::from_slice(&first[last..]),
        u8x16::from_slice(&second[last..]),
    )
}
