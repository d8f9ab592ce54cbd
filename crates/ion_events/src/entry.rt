//! Entries and their octets.
ghost use Rattle.std.specs.Prelude.{◌≡◌, ◌+◌, ◌*◌, ◌≤◌, ◌++◌, length, true};
ghost use Rattle.std.specs.List.{All};
ghost use Rattle.ion_events.specs.Drafts.{IsSpelled};
ghost use Rattle.ion_events.specs.Names.{entry_at, entry_of, goes_on, label_entry, octets_of, plain, spelled};

use crate::codes::MORE;

/// How many octets an entry has.
pub const ENTRY: usize = 16;

/// One entry of a layout, as docs/EVENTS.md has them.
#[derive(Clone, Copy)]
pub struct Entry {
    /// What the entry is.
    pub kind: u8,
    pub detail: u8,
    /// How many entries behind it go on with it.
    pub more: u16,
    pub count: u32,
    pub number: u64,
}

const _: () = prove!(size_of::<Entry>() == ENTRY);

/// Where the text of a symbol lies among the texts.
#[derive(Clone, Copy)]
pub struct Place {
    /// How many octets it has.
    pub count: u32,
    /// Where they begin.
    pub number: u64,
}

impl Entry {
    /// An entry that says nothing but its kind, a count and a number.
    #[inline(always)]
    pub fn plain(kind: u8, count: u32, number: u64) -> Entry
        ensures { result ≡ plain kind count number }
    {
        Entry {
            kind,
            detail: 0,
            more: 0,
            count,
            number,
        }
    }

    /// A symbol as an entry of this kind: where its text lies, or `None` if it is unknown.
    #[inline(always)]
    pub(crate) fn label(kind: u8, place: Option<Place>) -> Entry
        ensures { result ≡ label_entry kind place }
    {
        match place {
            Some(place) => Entry::plain(kind, place.count, place.number),
            None => Entry {
                kind,
                detail: 1,
                more: 0,
                count: 0,
                number: 0,
            },
        }
    }

    /// One that goes on with the entry before it.
    #[inline(always)]
    pub fn goes_on(number: u64) -> Entry
        ensures { result ≡ goes_on number }
    {
        Entry::plain(MORE, 0, number)
    }

    /// Its octets.
    #[inline(always)]
    #[tactic(auto, unfolding(crate::specs::Entries::octets_of))]
    pub fn octets(self) -> [u8; 16]
        ensures octets { result ≡ octets_of self }
        ensures entry { entry_of result ≡ self }
    {
        let more = self.more.to_le_bytes();
        let count = self.count.to_le_bytes();
        let number = self.number.to_le_bytes();
        [
            self.kind,
            self.detail,
            more[0],
            more[1],
            count[0],
            count[1],
            count[2],
            count[3],
            number[0],
            number[1],
            number[2],
            number[3],
            number[4],
            number[5],
            number[6],
            number[7],
        ]
    }

    /// The entry that has these octets.
    #[inline(always)]
    pub fn of(octets: [u8; 16]) -> Entry
        ensures { result ≡ entry_of octets }
    {
        let [
            kind,
            detail,
            m0,
            m1,
            c0,
            c1,
            c2,
            c3,
            n0,
            n1,
            n2,
            n3,
            n4,
            n5,
            n6,
            n7,
        ] = octets;
        Entry {
            kind,
            detail,
            more: u16::from_le_bytes([m0, m1]),
            count: u32::from_le_bytes([c0, c1, c2, c3]),
            number: u64::from_le_bytes([n0, n1, n2, n3, n4, n5, n6, n7]),
        }
    }
}

/// The entry at a place of a layout, counted in entries.
#[inline(always)]
pub fn read_entry(layout: &[u8], place: usize) -> Entry
    requires { 16 * place + 16 ≤ length layout.now }
    ensures { result ≡ entry_at layout.now place }
{
    let mut octets = [0; 16];
    octets.copy_from_slice(&layout[ENTRY * place..ENTRY * place + ENTRY]);
    Entry::of(octets)
}

/// Spells entries behind octets; `false` where memory was refused.
pub fn spell(entries: &[Entry], octets: &mut Vec<u8>) -> bool
    ensures octets { result ≡ true
        → octets.new.items ≡ octets.old.items ++ spelled entries.now }
    ensures each { result ≡ true → All IsSpelled entries.now }
{
    for entry in entries {
        if !octets.extend_from_slice(&entry.octets()).is_ok() {
            return false;
        }
    }
    true
}
