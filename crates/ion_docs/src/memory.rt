//! Octets in memory as a device.
ghost use Rattle.std.specs.Prelude.{◌≡◌, false, []};
ghost use Rattle.ion_docs.specs.Headline.{TellsOnly};
ghost use Rattle.ion_docs.specs.declared.memory.InMemory.{InMemory as ADevice};

use ion_symtab::{Failed, History, Inlet};

/// A device over octets in memory: it tells them to their end, and no read of it fails.
#[derive(Debug, Drop)]
pub struct InMemory<'a> {
    /// The octets that weren't handed over yet.
    rest: &'a [u8],
    /// How often `read` was called, up to 2^64-1.
    calls: u64,
    /// All octets that were handed over.
    handed: History,
    /// How many those were, at each end that was answered.
    ends: History,
}

/// The device over these octets: it tells them to their end, and no others, so that what the whole
/// calls answer of it is said of these octets (`laws::verdict_of_told`, `laws::headline`). It never
/// fails, so none of them answers `Read`, and it is asked at most once for each octet before it has
/// ended (`laws::reads_of_told`), so `TooManyReads` needs as many octets as reads are allowed.
pub fn in_memory(octets: &[u8]) -> InMemory<'_>
    ensures tells { TellsOnly ⟦<InMemory<'static> as Inlet>⟧ result octets.now }
    ensures calls { ⟦<InMemory<'static> as Inlet>⟧.calls_made result ≡ 0 }
    ensures handed { ⟦<InMemory<'static> as Inlet>⟧.handed result ≡ [] }
    ensures ends { ⟦<InMemory<'static> as Inlet>⟧.ends result ≡ [] }
    ensures never_fails { (device : ADevice) →
        ⟦<InMemory<'static> as Inlet>⟧.has_failed device ≡ false }
{
    InMemory {
        rest: octets,
        calls: 0,
        handed: History::new(),
        ends: History::new(),
    }
}

impl Inlet for InMemory<'_> {
    ghost use Rattle.std.specs.Prelude.{◌≡◌, false, refl};

    ghost tells = { λ device octets. octets ≡ device.rest.now };

    ghost handed = { λ device. device.handed };

    ghost ends = { λ device. device.ends };

    ghost calls_made = { λ device. device.calls };

    ghost has_failed = { λ _. false };

    ghost tells_some = { λ device. (device.rest.now, refl) };

    fn read(&mut self, piece: &mut [u8]) -> Result<usize, Failed> {
        self.calls = self.calls.saturating_add(1);
        let count = self.rest.len().min(piece.len());
        let front = &self.rest[..count];
        piece[..count].copy_from_slice(front);
        self.handed.add(front);
        self.rest = &self.rest[count..];
        if count == 0 && !piece.is_empty() {
            self.ends.add_count(&self.handed);
        }
        Ok(count)
    }

    fn calls(&self) -> u64 {
        self.calls
    }

    fn failed(&self) -> bool {
        false
    }
}
