//! Ints.
ghost use Rattle.std.specs.Prelude.{◌≡◌, SomeIff};
ghost use Rattle.std.specs.Ordering.{int_eq};
ghost use Rattle.std.specs.Cmp.{int_eq_equiv, partial_equiv_from_equiv};
ghost use Rattle.ion_atoms.specs.Ranges.{IsWhole};

use crate::halves::Halves;
use std::fmt::{self, Debug, Formatter};
use std::marker::Model;

/// An int of magnitude below 2^127, which contracts see as a whole number. Ion itself sets ints no
/// bound.
#[derive(Clone, Copy)]
pub struct Whole {
    // the value in two's complement
    bits: Halves,
}

impl Model for Whole {
    ghost use Rattle.std.specs.Prelude.{ℤ, ◌<◌, ◌^◌};
    ghost use Rattle.std.specs.Int.{w128, cast_signed, cast_unsigned};
    ghost use Rattle.ion_atoms.specs.Ranges.{IsWhole};

    ghost Value = { ℤ };

    ghost view = { λ w. cast_signed w128 w.bits };

    ghost invariant = { λ w. (w.bits < 2 ^ 128) × IsWhole (cast_signed w128 w.bits) };

    ghost inverse = { λ z. record { bits = cast_unsigned w128 z } };

    ghost use Rattle.std.proofs.lemmas.Int.{of_z-to_z};

    ghost inverse_ok = { λ w kept i. record { bits = of_z-to_z w128 w.bits kept.0 i } };
}

impl PartialEq for Whole {
    ghost eq = { int_eq };

    ghost laws = { partial_equiv_from_equiv int_eq_equiv };

    fn eq(&self, other: &Whole) -> bool {
        self.get() == other.get()
    }
}

impl Eq for Whole {
    ghost laws = { int_eq_equiv };
}

impl Debug for Whole {
    fn fmt<W: fmt::Write>(&self, f: &mut Formatter<W>) -> fmt::Result {
        f.debug_struct("Whole").field("value", &self.get()).finish()
    }
}

impl Whole {
    /// The int of this value; `None` exactly where the magnitude is 2^127, the one that is out of
    /// range.
    #[inline(always)]
    pub fn new(value: i128) -> Option<Whole>
        ensures { SomeIff result (IsWhole value) value }
    {
        if value == i128::MIN {
            return None;
        }
        Some(Whole {
            bits: Halves::new(value.cast_unsigned()),
        })
    }

    /// The value, above -2^127 and below 2^127.
    #[inline(always)]
    pub fn get(self) -> i128
        ensures same { result ≡ self }
        ensures range { IsWhole result }
    {
        self.bits.get().cast_signed()
    }
}
