//! Devices that octets come from.
ghost use Rattle.std.specs.Prelude.{◌≡◌, ℕ, ◌+◌, ◌-◌, ◌^◌, ◌<◌, ◌≤◌, Bool, true, false, List, [], ◌∷◌, ◌++◌, length, take, min, IfOk, OnErr, is_err, IsErr};
ghost use Rattle.ion_symtab.specs.Told.{Told, MayTell, known_some};
ghost use Rattle.ion_symtab.specs.kept.FromRead.{reader_of};

use crate::history::History;
use std::fmt::{self, Display, Formatter};
use std::io::Read;

/// A read, a write or a flush of a device failed; why is not told.
#[derive(Clone, Copy, Debug, PartialEq, Eq)]
pub struct Failed;

impl Display for Failed {
    ghost use Rattle.std.specs.Prelude.{Some, codes};

    ghost output = { λ _. Some (codes "Failed") };

    fn fmt<W: fmt::Write>(&self, f: &mut Formatter<W>) -> fmt::Result {
        f.write_str("Failed")
    }
}

impl std::error::Error for Failed {}

/// A device that tells octets up to an end.
///
/// Contracts see it in two ways. `tells` says what it may still tell: all that is known of a
/// slice's rest, and nothing of a file's. `handed` and `ends` say what its calls of `read` have
/// answered, of files too.
pub trait Inlet {
    /// These may be the octets that are told from here to the end.
    ghost tells: { Self → List ℕ → Type 0 };

    /// All octets that `read` has handed over, in order.
    ghost handed: { Self → List ℕ };

    /// For each time that `read` answered the end, in order: how many octets it had handed over by
    /// then.
    ghost ends: { Self → List ℕ };

    /// How often `read` was called, up to 2^64-1.
    ghost calls_made: { Self → ℕ };

    /// Whether a read has failed.
    ghost has_failed: { Self → Bool };

    /// Reads the next octets into the front of `piece`, and answers how many: at most its length,
    /// and of a piece that isn't empty 0 exactly at the end.
    ///
    /// `Failed` where the device failed, an interrupted call included, and then in each later call.
    /// No octet is lost by it.
    fn read(&mut self, piece: &mut [u8]) -> Result<usize, Failed>
        ensures within { IfOk result (λ n. n ≤ length piece.new) }
        ensures told { IfOk result (λ n. Told tells handed self.old self.new (take n piece.new)) }
        ensures kept { OnErr result (Told tells handed self.old self.new []) }
        ensures end { IfOk result (λ n. n ≡ 0 → 0 < length piece.new → tells self.new []) }
        ensures ended { IfOk result (λ n. n ≡ 0 → 0 < length piece.new →
            ends self.new ≡ ends self.old ++ length (handed self.new) ∷ []) }
        ensures going { IfOk result (λ n. 0 < n → ends self.new ≡ ends self.old) }
        ensures nothing_asked { IfOk result
            (λ n. length piece.new ≡ 0 → ends self.new ≡ ends self.old) }
        ensures stays { OnErr result (ends self.new ≡ ends self.old) }
        ensures calls { calls_made self.new ≡ min (calls_made self.old + 1) (2 ^ 64 - 1) }
        ensures failed { has_failed self.new ≡ is_err result }
        ensures fails { has_failed self.old ≡ true → IsErr result };

    /// How often `read` was called, failed calls included; stops at 2^64-1.
    fn calls(&self) -> u64
        ensures { result ≡ calls_made self.now };

    /// Whether a read has failed; each later one does then.
    fn failed(&self) -> bool
        ensures { result ≡ has_failed self.now };

    /// There always are octets that may be told from here to the end.
    ghost tells_some: { (r : Self) → (rest : List ℕ) × tells r rest };
}

/// A reader of std as a device: it tells the octets that the reader tells, and latches the first
/// error, so that a reader that would go on behind it isn't asked again.
#[derive(Debug, Drop)]
pub struct FromRead<R> {
    /// The reader that is asked.
    inner: R,
    /// How often `read` was called, up to 2^64-1.
    calls: u64,
    /// Whether the reader has answered an error.
    failed: bool,
    /// All octets that were handed over.
    handed: History,
    /// How many those were, at each end that was answered.
    ends: History,
}

impl<R: Read> FromRead<R> {
    /// The device that tells what `inner` has left; no read is made yet.
    pub fn new(inner: R) -> FromRead<R>
        ensures reader { reader_of result ≡ inner }
        ensures tells { (octets : List ℕ) → ⟦<FromRead<R> as Inlet>⟧.tells result octets →
            MayTell (R.remaining inner) octets }
        ensures calls { ⟦<FromRead<R> as Inlet>⟧.calls_made result ≡ 0 }
        ensures failed { ⟦<FromRead<R> as Inlet>⟧.has_failed result ≡ false }
        ensures handed { ⟦<FromRead<R> as Inlet>⟧.handed result ≡ [] }
        ensures ends { ⟦<FromRead<R> as Inlet>⟧.ends result ≡ [] }
    {
        FromRead {
            inner,
            calls: 0,
            failed: false,
            handed: History::new(),
            ends: History::new(),
        }
    }

    /// The reader, which goes on with what it hasn't handed over yet.
    pub fn into_inner(self) -> R
        ensures { result ≡ reader_of self }
    {
        let FromRead {
            inner,
            calls: _,
            failed: _,
            handed: _,
            ends: _,
        } = self;
        inner
    }

    /// The reader.
    pub fn get_ref(&self) -> &R
        ensures { result.now ≡ reader_of self.now }
    {
        &self.inner
    }
}

impl<R: Read> Inlet for FromRead<R> {
    ghost use Rattle.ion_symtab.specs.kept.FromRead.{calls_of, failed_of, handed_of, ends_of};

    ghost tells = { λ device. MayTell (R.remaining (reader_of device)) };

    ghost handed = { handed_of };

    ghost ends = { ends_of };

    ghost calls_made = { calls_of };

    ghost has_failed = { failed_of };

    ghost tells_some = { λ device. known_some (R.remaining (reader_of device)) };

    fn read(&mut self, piece: &mut [u8]) -> Result<usize, Failed> {
        self.calls = self.calls.saturating_add(1);
        if self.failed {
            return Err(Failed);
        }
        match self.inner.read(piece) {
            Ok(count) => {
                self.handed.add(&piece[..count]);
                if count == 0 && !piece.is_empty() {
                    self.ends.add_count(&self.handed);
                }
                Ok(count)
            }
            Err(_) => {
                self.failed = true;
                Err(Failed)
            }
        }
    }

    fn calls(&self) -> u64 {
        self.calls
    }

    fn failed(&self) -> bool {
        self.failed
    }
}
