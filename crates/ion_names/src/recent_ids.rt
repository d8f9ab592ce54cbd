//! Which ids texts probably have.
ghost use Rattle.std.specs.Prelude.{◌+◌, ◌<◌, ◌≤◌, length};

use std::alloc::Global;

/// How many ids are kept at most.
const KEPT: usize = 4096;

/// The ids of texts that were looked up lately, each at a place that a cheap hash of the text
/// tells. Whoever takes a guess compares the text, so no clause speaks of what is kept here:
/// texts that share a place cost a look by the text.
#[derive(Drop)]
pub struct Guesses {
    ids: Vec<usize>,
}

impl Guesses {
    /// No ids yet. Takes no memory.
    pub fn new(alloc: Global) -> Guesses {
        Guesses {
            ids: Vec::new(alloc),
        }
    }

    /// The id that was noted there last, or 0.
    #[inline(always)]
    pub fn guess(&self, place: usize) -> usize {
        match self.ids.get(place) {
            Some(id) => *id,
            None => 0,
        }
    }

    /// Notes the id of a text with this place. Without memory nothing is kept.
    pub fn note(&mut self, place: usize, id: usize) {
        if self.ids.is_empty() && self.ids.resize(KEPT, 0).is_err() {
            return;
        }
        if place < self.ids.len() {
            self.ids[place] = id;
        }
    }
}

/// The place of the id of a text: by its first and its last octets, eight or four of them, and its
/// length. The highest bits of a product hang on all of these.
#[inline(always)]
pub fn place_of(text: &str) -> usize {
    let octets = text.as_bytes();
    let count = octets.len();
    let mixed = if count >= 8 {
        mix(eight_at(octets, 0), eight_at(octets, count - 8), count)
    } else if count >= 4 {
        mix(four_at(octets, 0), four_at(octets, count - 4), count)
    } else {
        mix(few(octets), 0, count)
    };
    (mixed >> 52) as usize % KEPT
}

#[inline(always)]
fn mix(first: u64, last: u64, count: usize) -> u64 {
    (first ^ last.rotate_left(29) ^ count as u64).wrapping_mul(0x9E37_79B9_7F4A_7C15)
}

#[inline(always)]
fn eight_at(octets: &[u8], at: usize) -> u64
    requires { at + 8 ≤ length octets.now }
{
    u64::from_le_bytes([
        octets[at],
        octets[at + 1],
        octets[at + 2],
        octets[at + 3],
        octets[at + 4],
        octets[at + 5],
        octets[at + 6],
        octets[at + 7],
    ])
}

#[inline(always)]
fn four_at(octets: &[u8], at: usize) -> u64
    requires { at + 4 ≤ length octets.now }
{
    u64::from(u32::from_le_bytes([octets[at], octets[at + 1], octets[at + 2], octets[at + 3]]))
}

#[inline(always)]
fn few(octets: &[u8]) -> u64 {
    let mut number = 0u64;
    for octet in octets {
        number = number.wrapping_mul(256).wrapping_add(u64::from(*octet));
    }
    number
}
