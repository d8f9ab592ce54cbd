//! The layout of values that ended.
ghost use Rattle.std.specs.Prelude.{◌≡◌, ◌<◌, ◌^◌, IfSome, length};
ghost use Rattle.ion_events.specs.Drafts.{IsEmpty, joined};

use crate::entry::ENTRY;
use std::alloc::Global;

/// The first octets of a layout, with its version.
const MAGIC: &[u8; 8] = b"pjevent1";

/// The layout of values that ended, as octets: their entries behind the first one, and their texts.
#[derive(Drop)]
pub struct Laid {
    pub(crate) entries: Vec<u8>,
    pub(crate) texts: Vec<u8>,
}

impl Laid {
    /// Of no values; `None` where memory was refused.
    pub fn new(alloc: Global) -> Option<Laid>
        ensures { IfSome result IsEmpty }
    {
        let mut entries = Vec::new(alloc);
        let count: u64 = 0;
        if entries.extend_from_slice(MAGIC).is_err() {
            return None;
        }
        if entries.extend_from_slice(&count.to_le_bytes()).is_err() {
            return None;
        }
        Some(Laid {
            entries,
            texts: Vec::new(alloc),
        })
    }

    /// The whole layout; `None` where memory was refused.
    pub fn into_octets(self) -> Option<Vec<u8>>
        ensures joined { IfSome result (λ octets. octets.items ≡ joined self) }
        ensures few { IfSome result (λ _. length self.entries.items < 2 ^ 64) }
    {
        let Laid { mut entries, texts } = self;
        let all = entries.len();
        if all < ENTRY {
            return None;
        }
        let count = (all / ENTRY) as u64;
        entries[8..16].copy_from_slice(&count.to_le_bytes());
        if entries.extend_from_slice(texts.as_slice()).is_err() {
            return None;
        }
        Some(entries)
    }
}
