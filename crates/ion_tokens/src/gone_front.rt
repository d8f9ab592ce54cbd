//! What was let go of the front of the open text.
ghost use Rattle.std.specs.Prelude.{◌≡◌, ◌≢◌, ◌+◌, ◌<◌, ◌≤◌, ◌^◌, ◌++◌, ◌↔◌, [], length, true};
ghost use Rattle.ion_tokens.specs.machine.LetGo.{Decodes, StandsFor};

use ion_atoms::LetGo;
use std::marker::Model;
use std::mem;

/// Octets at the front of the open string, clob or blob that were let go. Of a blob they are base64
/// of whole groups, or what that decodes to.
///
/// In clauses it is the list of these octets, and whether they are base64.
#[derive(Drop)]
pub struct GoneFront {
    gone: LetGo,
    /// What they decode to, if they are base64.
    octets: LetGo,
    is_base64: bool,
    /// Whether base64 was met that may not decode: no more of any is let go.
    is_doubted: bool,
}

impl Model for GoneFront {
    ghost use Rattle.ion_tokens.specs.machine.LetGo.{Front, IsFront};

    ghost Value = { Front };

    ghost view = { λ f. record { octets = f.gone; is_base64 = f.is_base64 } };

    ghost invariant = { λ f. IsFront f.gone f.octets f.is_base64 };
}

impl GoneFront {
    /// None.
    pub fn nothing() -> GoneFront
        ensures { result.octets ≡ [] }
    {
        GoneFront {
            gone: LetGo::nothing(),
            octets: LetGo::nothing(),
            is_base64: false,
            is_doubted: false,
        }
    }

    /// Whether there are none.
    pub fn is_nothing(&self) -> bool
        ensures { result ≡ true ↔ self.now.octets ≡ [] }
    {
        self.gone.is_nothing()
    }

    /// How many there are.
    pub fn count(&self) -> u64
        ensures count { result ≡ length self.now.octets }
        ensures few { result < 2 ^ 63 }
    {
        self.gone.count()
    }

    /// Lets go octets of a text behind those.
    pub fn add(&mut self, octets: &[u8])
        requires { length self.old.octets + length octets.now < 2 ^ 63 }
        ensures { self.new.octets ≡ self.old.octets ++ octets.now }
    {
        self.gone.add(octets);
        self.is_base64 = false;
    }

    // None are base64 of no groups.
    fn begin_base64(&mut self)
        requires { self.old.octets ≢ [] → self.old.is_base64 ≡ true }
        ensures same { self.new.octets ≡ self.old.octets }
        ensures begun { self.new.is_base64 ≡ true }
    {
        if self.gone.is_nothing() {
            self.octets = LetGo::nothing();
            self.is_base64 = true;
        }
    }

    /// Lets go base64 behind those, which decodes to these octets whatever follows.
    pub fn add_base64(&mut self, text: &[u8], octets: &[u8])
        requires room { length self.old.octets + length text.now < 2 ^ 63 }
        requires fewer { length octets.now ≤ length text.now }
        requires stands { StandsFor text.now octets.now }
        requires base64 { self.old.octets ≢ [] → self.old.is_base64 ≡ true }
        ensures added { self.new.octets ≡ self.old.octets ++ text.now }
        ensures base64 { self.new.is_base64 ≡ true }
    {
        self.begin_base64();
        self.gone.add(text);
        self.octets.add(octets);
    }

    /// Whether base64 may be let go behind them.
    pub fn takes_base64(&self) -> bool
        ensures { result ≡ true → self.now.octets ≢ [] → self.now.is_base64 ≡ true }
    {
        !self.is_doubted && (self.is_base64 || self.gone.is_nothing())
    }

    /// Base64 was met that may not decode.
    pub fn doubt(&mut self)
        ensures { self.new ≡ self.old }
    {
        self.is_doubted = true;
    }

    /// Base64 of whole groups decodes whatever follows. Nothing is done.
    pub fn stands(&self)
        ensures { self.now.is_base64 ≡ true → Decodes self.now.octets }
    {
        let _ = &self.gone;
    }

    /// What they decode to stands for them from now on.
    pub fn decode(&mut self)
        requires { self.old.is_base64 ≡ true }
        ensures { StandsFor self.old.octets self.new.octets }
    {
        self.gone = mem::replace(&mut self.octets, LetGo::nothing());
        self.is_base64 = false;
    }

    /// Takes them all.
    pub fn take(&mut self) -> LetGo
        ensures taken { result ≡ self.old.octets }
        ensures none { self.new.octets ≡ [] }
    {
        self.octets = LetGo::nothing();
        self.is_base64 = false;
        mem::replace(&mut self.gone, LetGo::nothing())
    }
}
