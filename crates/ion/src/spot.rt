//! How far a text was gone over.
ghost use Rattle.std.specs.Prelude.{◌≡◌, ℕ, ◌+◌, ◌^◌, ◌<◌, List, [], ◌++◌, length};
ghost use Rattle.ion.specs.Names.{begins_character, ends_line, position};
ghost use Rattle.ion.specs.Spots.{next, spot_of};

use crate::position::Position;

const LINE_FEED: u8 = b'\n';

const CARRIAGE_RETURN: u8 = b'\r';

/// Where the octet stands that was gone over last.
#[derive(Clone, Copy)]
pub(crate) struct Spot {
    /// How many lines ended before it.
    lines: u64,
    /// How many octets of its line there were, with it.
    octets: u64,
    /// How many characters of its line began.
    characters: u64,
    /// The octet; 0 where there was none yet.
    last: u8,
}

impl Spot {
    /// Before the first octet.
    pub(crate) fn new() -> Spot
        ensures { result ≡ spot_of [] }
    {
        Spot {
            lines: 0,
            octets: 0,
            characters: 0,
            last: 0,
        }
    }

    /// Goes over more octets.
    pub(crate) fn pass(&mut self, octets: &[u8])
        requires lines { self.old.lines + length octets.now < 2 ^ 64 }
        requires octets { self.old.octets + length octets.now < 2 ^ 64 }
        requires characters { self.old.characters + length octets.now < 2 ^ 64 }
        ensures { (before : List ℕ) → self.old ≡ spot_of before →
            self.new ≡ spot_of (before ++ octets.now) }
    {
        for octet in octets {
            *self = self.next(*octet);
        }
    }

    /// At the next octet.
    fn next(self, octet: u8) -> Spot
        requires lines { self.lines + 1 < 2 ^ 64 }
        requires octets { self.octets + 1 < 2 ^ 64 }
        requires characters { self.characters + 1 < 2 ^ 64 }
        ensures { result ≡ next self octet }
    {
        let began = if begins_character(octet) { 1 } else { 0 };
        if ends_line(self.last, octet) {
            return Spot {
                lines: self.lines + 1,
                octets: 1,
                characters: began,
                last: octet,
            };
        }
        Spot {
            lines: self.lines,
            octets: self.octets + 1,
            characters: self.characters + began,
            last: octet,
        }
    }

    /// The place, where this is what was gone over.
    pub(crate) fn position(self) -> Position
        requires { self.lines + 1 < 2 ^ 64 }
        ensures { (before : List ℕ) → self ≡ spot_of before → result ≡ position before }
    {
        Position {
            line: self.lines + 1,
            octet: self.octets.max(1),
            column: self.characters.max(1),
        }
    }
}

/// Whether a line ends with the first of two octets.
fn ends_line(octet: u8, following: u8) -> bool
    ensures { result ≡ ends_line octet following }
{
    octet == LINE_FEED || (octet == CARRIAGE_RETURN && following != LINE_FEED)
}

/// Whether an octet begins a character.
fn begins_character(octet: u8) -> bool
    ensures { result ≡ begins_character octet }
{
    !(0x80..0xC0).contains(&octet)
}
