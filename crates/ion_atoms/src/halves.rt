//! Numbers of 128 bits in two halves.
ghost use Rattle.std.specs.Prelude.{◌≡◌, nat_eq};
ghost use Rattle.std.specs.Cmp.{nat_eq_equiv, partial_equiv_from_equiv};

use std::marker::Model;

/// A number below 2^128, which contracts see as that number. A `u128` asks for an alignment of 16
/// octets, which fills up what holds it; halves ask for 8.
#[derive(Clone, Copy)]
pub(crate) struct Halves {
    high: u64,
    low: u64,
}

impl Model for Halves {
    ghost use Rattle.std.specs.Prelude.{ℕ, ◌+◌, ◌*◌, ◌/◌, ◌%◌, ◌^◌, ◌<◌};

    ghost Value = { ℕ };

    ghost view = { λ h. h.high * 2 ^ 64 + h.low };

    ghost invariant = { λ h. h.low < 2 ^ 64 };

    ghost inverse = { λ n. record { high = n / 2 ^ 64; low = n % 2 ^ 64 } };

    ghost use Rattle.std.proofs.lemmas.Nat.{shr_high, mod_low};

    ghost inverse_ok = { λ h within i. record {
      high = shr_high h.high 64 h.low within i;
      low = mod_low h.high 64 h.low within i;
    } };
}

impl PartialEq for Halves {
    ghost eq = { nat_eq };

    ghost laws = { partial_equiv_from_equiv nat_eq_equiv };

    #[inline(always)]
    fn eq(&self, other: &Halves) -> bool {
        self.get() == other.get()
    }
}

impl Eq for Halves {
    ghost laws = { nat_eq_equiv };
}

impl Halves {
    /// The halves of this number.
    #[inline(always)]
    pub(crate) fn new(value: u128) -> Halves
        ensures { result ≡ value }
    {
        Halves {
            high: (value >> 64) as u64,
            low: (value % (1 << 64)) as u64,
        }
    }

    /// The number.
    #[inline(always)]
    pub(crate) fn get(self) -> u128
        ensures { result ≡ self }
    {
        (u128::from(self.high) << 64) | u128::from(self.low)
    }
}
