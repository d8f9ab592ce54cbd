//! Devices that octets go to.
ghost use Rattle.std.specs.Prelude.{◌≡◌, ℕ, ◌<◌, ◌≤◌, Bool, true, false, Option, List, [], length, take, IfOk, OnOk, OnErr, is_err, IsErr};
ghost use Rattle.ion_symtab.specs.Took.{Took};
ghost use Rattle.ion_symtab.specs.kept.ToWrite.{writer_of};

use crate::history::History;
use crate::inlet::Failed;
use std::io::Write;

/// A device that takes octets.
///
/// Contracts see it in two ways. `took` is what it holds, where that is known: all of a vector,
/// nothing of a file. `written` and `passed` say what its calls of `write` and `flush` have
/// answered, of files too.
pub trait Outlet {
    /// The octets that were taken so far, where they are known.
    ghost took: { Self → Option (List ℕ) };

    /// All octets that `write` has taken, in order.
    ghost written: { Self → List ℕ };

    /// Those of them that had been taken when `flush` last answered `Ok`, and so were passed on.
    ghost passed: { Self → List ℕ };

    /// Whether a write or a flush has failed.
    ghost has_failed: { Self → Bool };

    /// Takes a front of `octets`, and answers how many: at most their number, and at least one
    /// where there is one.
    ///
    /// `Failed` where the device failed, an interrupted call included, and then in each later call.
    /// Nothing was taken by a call that failed.
    fn write(&mut self, octets: &[u8]) -> Result<usize, Failed>
        ensures within { IfOk result (λ n. n ≤ length octets.now) }
        ensures some { IfOk result (λ n. 0 < length octets.now → 0 < n) }
        ensures taken { IfOk result (λ n. Took took written self.old self.new (take n octets.now)) }
        ensures kept { OnErr result (Took took written self.old self.new []) }
        ensures not_passed { passed self.new ≡ passed self.old }
        ensures failed { has_failed self.new ≡ is_err result }
        ensures fails { has_failed self.old ≡ true → IsErr result };

    /// Passes on what was taken, where the device has kept some of it back.
    ///
    /// `Failed` where the device failed, and then in each later call. Nothing is taken, and nothing
    /// that was taken is lost.
    fn flush(&mut self) -> Result<(), Failed>
        ensures kept { Took took written self.old self.new [] }
        ensures passed_on { OnOk result (passed self.new ≡ written self.new) }
        ensures not_passed { OnErr result (passed self.new ≡ passed self.old) }
        ensures failed { has_failed self.new ≡ is_err result }
        ensures fails { has_failed self.old ≡ true → IsErr result };

    /// Whether a write or a flush has failed; each later one does then.
    fn failed(&self) -> bool
        ensures { result ≡ has_failed self.now };
}

/// A writer of std as a device: it passes on the octets, latches the first error, and takes a write
/// of which no octet was taken as an error.
#[derive(Debug, Drop)]
pub struct ToWrite<W> {
    /// The writer that octets are passed on to.
    inner: W,
    /// Whether the writer has answered an error, or took nothing where there was something.
    failed: bool,
    /// All octets that were taken.
    written: History,
    /// Those that were passed on by a flush.
    passed: History,
}

impl<W: Write> ToWrite<W> {
    /// The device that passes on to `inner`; no write is made yet.
    pub fn new(inner: W) -> ToWrite<W>
        ensures writer { writer_of result ≡ inner }
        ensures took { ⟦<ToWrite<W> as Outlet>⟧.took result ≡ W.contents inner }
        ensures written { ⟦<ToWrite<W> as Outlet>⟧.written result ≡ [] }
        ensures passed { ⟦<ToWrite<W> as Outlet>⟧.passed result ≡ [] }
        ensures failed { ⟦<ToWrite<W> as Outlet>⟧.has_failed result ≡ false }
    {
        ToWrite {
            inner,
            failed: false,
            written: History::new(),
            passed: History::new(),
        }
    }

    /// The writer, with what it took.
    pub fn into_inner(self) -> W
        ensures writer { result ≡ writer_of self }
        ensures took { W.contents result ≡ ⟦<ToWrite<W> as Outlet>⟧.took self }
    {
        let ToWrite {
            inner,
            failed: _,
            written: _,
            passed: _,
        } = self;
        inner
    }
}

impl<W: Write> Outlet for ToWrite<W> {
    ghost use Rattle.ion_symtab.specs.kept.ToWrite.{failed_of, written_of, passed_of};

    ghost took = { λ device. W.contents (writer_of device) };

    ghost written = { written_of };

    ghost passed = { passed_of };

    ghost has_failed = { failed_of };

    fn write(&mut self, octets: &[u8]) -> Result<usize, Failed> {
        if self.failed {
            return Err(Failed);
        }
        match self.inner.write(octets) {
            Ok(0) if !octets.is_empty() => {
                self.failed = true;
                Err(Failed)
            }
            Ok(count) => {
                self.written.add(&octets[..count]);
                Ok(count)
            }
            Err(_) => {
                self.failed = true;
                Err(Failed)
            }
        }
    }

    fn flush(&mut self) -> Result<(), Failed> {
        if self.failed {
            return Err(Failed);
        }
        match self.inner.flush() {
            Ok(()) => {
                self.passed = self.written.copy();
                Ok(())
            }
            Err(_) => {
                self.failed = true;
                Err(Failed)
            }
        }
    }

    fn failed(&self) -> bool {
        self.failed
    }
}
