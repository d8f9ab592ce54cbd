//! Where a text stands among the octets of a tape.
ghost use Rattle.std.specs.Prelude.{◌≡◌};
ghost use Rattle.ion_visiting.specs.Tapes.{range_place};

/// Which octets of a tape a text is: so many from a place on, of which `high` counts 2^32 each. One of
/// 2^32-1 octets or more has that count here, and its own at that place among the great ones.
#[derive(Clone, Copy)]
pub(crate) struct Range {
    pub(crate) count: u32,
    low: u32,
    high: u32,
}

/// Which octets of a tape a text of 2^32-1 octets or more is.
#[derive(Clone, Copy)]
pub(crate) struct Great {
    pub(crate) from: usize,
    pub(crate) count: usize,
}

/// So many octets count from one on for a great text.
pub(crate) const GREAT: usize = 0xFFFF_FFFF;

/// What `high` counts.
const HIGH: usize = 0x1_0000_0000;

impl Range {
    // So many octets from a place on, or a great text of that place.
    #[inline(always)]
    pub(crate) fn new(place: usize, count: u32) -> Range
        ensures place { range_place result ≡ place }
        ensures count { result.count ≡ count }
    {
        Range {
            count,
            low: (place % HIGH) as u32,
            high: (place / HIGH) as u32,
        }
    }

    #[inline(always)]
    pub(crate) fn place(self) -> usize
        ensures { result ≡ range_place self }
    {
        self.low as usize + self.high as usize * HIGH
    }
}
