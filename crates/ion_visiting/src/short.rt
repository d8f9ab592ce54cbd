//! Symbols by their texts and numbers by their bodies, of which those as short as most are as numbers.
ghost use Rattle.std.specs.Prelude.{◌≡◌, ◌+◌, ◌<◌, ◌≤◌, ◌∷◌, [], IfSome, Some, length, option_map, slice_index, take};
ghost use Rattle.std.specs.Int.{to_le_bytes, w32, w64};
ghost use Rattle.ion_visiting.specs.Tapes.{short_text, spelled};

/// A text of at most 12 octets, as numbers, so that two are compared at once.
#[derive(Clone, Copy)]
pub(crate) struct Short {
    pub(crate) count: u8,
    /// The last four octets, of a text of four at least.
    pub(crate) last: u32,
    /// The first octets: eight, four of a text of fewer than eight, or all of one of fewer than four.
    pub(crate) first: u64,
}

impl Short {
    /// This text, unless it is longer.
    #[inline(always)]
    #[tactic(auto, using(crate::proofs::Shorts::eight_ends, crate::proofs::Shorts::four_ends, crate::proofs::Shorts::few_ends))]
    pub(crate) fn of(text: &[u8]) -> Option<Short>
        ensures { IfSome result (λ s. short_text s ≡ text.now) }
    {
        let count = text.len();
        if count > 12 {
            return None;
        }
        if count >= 8 {
            return Some(Short {
                count: count as u8,
                last: four_at(text, count - 4),
                first: eight_at(text, 0),
            });
        }
        if count >= 4 {
            return Some(Short {
                count: count as u8,
                last: four_at(text, count - 4),
                first: u64::from(four_at(text, 0)),
            });
        }
        Some(Short {
            count: count as u8,
            last: 0,
            first: few_of(text),
        })
    }

    /// Its octets at the front.
    pub(crate) fn octets(&self) -> [u8; 12]
        requires { self.now.count ≤ 12 }
        ensures { take self.now.count result ≡ short_text self.now }
    {
        let mut octets = [0; 12];
        octets[..8].copy_from_slice(&self.first.to_le_bytes());
        let count = self.count as usize;
        if count >= 4 {
            octets[count - 4..count].copy_from_slice(&self.last.to_le_bytes());
        }
        octets
    }
}

// The eight octets there, as one number.
#[inline(always)]
fn eight_at(octets: &[u8], at: usize) -> u64
    requires { at + 8 ≤ length octets.now }
    ensures { to_le_bytes w64 result ≡ slice_index octets.now at ∷ slice_index octets.now (at + 1)
        ∷ slice_index octets.now (at + 2) ∷ slice_index octets.now (at + 3)
        ∷ slice_index octets.now (at + 4) ∷ slice_index octets.now (at + 5)
        ∷ slice_index octets.now (at + 6) ∷ slice_index octets.now (at + 7) ∷ [] }
{
    u64::from_le_bytes([
        octets[at],
        octets[at + 1],
        octets[at + 2],
        octets[at + 3],
        octets[at + 4],
        octets[at + 5],
        octets[at + 6],
        octets[at + 7],
    ])
}

// The four octets there, as one number.
#[inline(always)]
fn four_at(octets: &[u8], at: usize) -> u32
    requires { at + 4 ≤ length octets.now }
    ensures { to_le_bytes w32 result ≡ slice_index octets.now at ∷ slice_index octets.now (at + 1)
        ∷ slice_index octets.now (at + 2) ∷ slice_index octets.now (at + 3) ∷ [] }
{
    u32::from_le_bytes([octets[at], octets[at + 1], octets[at + 2], octets[at + 3]])
}

// All octets of a text of fewer than four.
#[inline(always)]
#[tactic(auto, using(crate::proofs::Shorts::few_spelled))]
fn few_of(text: &[u8]) -> u64
    requires { length text.now < 4 }
    ensures { take (length text.now) (to_le_bytes w64 result) ≡ text.now }
{
    let count = text.len();
    if count == 0 {
        return 0;
    }
    let seen = [text[0], text[count / 2], text[count - 1], 0, 0, 0, 0, 0];
    u64::from_le_bytes(seen)
}

/// What a tape writes down of a symbol, or of a number as it is encoded.
#[derive(Clone, Copy)]
pub(crate) enum Spelling<'a> {
    /// A symbol that has no known text.
    Unknown,
    Short(Short),
    Long(&'a [u8]),
}

impl<'a> Spelling<'a> {
    #[inline(always)]
    pub(crate) fn of(text: Option<&'a str>) -> Spelling<'a>
        ensures { spelled result ≡ option_map (λ t. t.now) text.entry }
    {
        match text {
            Some(text) => Spelling::of_octets(text.as_bytes()),
            None => Spelling::Unknown,
        }
    }

    #[inline(always)]
    pub(crate) fn of_octets(octets: &'a [u8]) -> Spelling<'a>
        ensures { spelled result ≡ Some octets.now }
    {
        match Short::of(octets) {
            Some(short) => Spelling::Short(short),
            None => Spelling::Long(octets),
        }
    }
}
