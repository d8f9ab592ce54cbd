//! Texts and octets that contracts see as lists of octets, whatever their capacities.
ghost use Rattle.std.specs.Prelude.{◌≡◌, MatchResult, string_bytes, nat_eq};
ghost use Rattle.std.specs.Cmp.{partial_equiv_from_equiv};
ghost use Rattle.std.specs.Cmp.Lexicographic.{pointwise, nat_list_eq_equiv};
ghost use Rattle.std.specs.Str.{IsUtf8};
ghost use Rattle.ion_atoms.specs.declared.refusal.Reason.TheVariants as reasons;
ghost use Rattle.ion_atoms.specs.Octets.{AreOctets};

use crate::refusal::Reason;
use std::marker::Model;

/// The text of a string, which contracts see as its octets in UTF-8.
#[derive(Debug, Drop)]
pub struct Text {
    text: String,
}

impl Model for Text {
    ghost use Rattle.std.specs.Prelude.{List, ℕ, string_bytes};

    ghost Value = { List ℕ };

    ghost view = { λ t. string_bytes t.text };
}

impl PartialEq for Text {
    ghost eq = { pointwise nat_eq };

    ghost laws = { partial_equiv_from_equiv nat_list_eq_equiv };

    fn eq(&self, other: &Text) -> bool {
        self.as_str() == other.as_str()
    }
}

impl Eq for Text {
    ghost laws = { nat_list_eq_equiv };
}

impl Text {
    /// The text of a `String`, taken over without a copy.
    pub fn from_string(text: String) -> Text
        ensures { result ≡ string_bytes text }
    {
        Self { text }
    }

    /// Gives the `String` back.
    pub fn into_string(self) -> String
        ensures { string_bytes result ≡ self }
    {
        let Text { text } = self;
        text
    }

    /// What a `Text` keeps about itself: its octets are UTF-8. Does nothing.
    pub fn kept(&self)
        ensures { IsUtf8 self.now }
    {
        let _text = self.as_str();
    }

    /// The text.
    pub fn as_str(&self) -> &str
        ensures { result.now ≡ self.now }
    {
        self.text.as_str()
    }

    /// An equal text. The only refusal is `Memory`.
    pub fn copy(&self) -> Result<Text, Reason>
        ensures { MatchResult result (λ t. t ≡ self.now) (λ r. r ≡ reasons.Memory) }
    {
        let text = self.text.clone()?;
        Ok(Text { text })
    }
}

/// The octets of a clob or blob.
#[derive(Debug, Drop)]
pub struct Bytes {
    bytes: Vec<u8>,
}

impl Model for Bytes {
    ghost use Rattle.std.specs.Prelude.{List, ℕ};

    ghost Value = { List ℕ };

    ghost view = { λ b. b.bytes.items };

    ghost use Rattle.ion_atoms.specs.Octets.{AreOctets};

    ghost invariant = { λ b. AreOctets b.bytes.items };
}

impl PartialEq for Bytes {
    ghost eq = { pointwise nat_eq };

    ghost laws = { partial_equiv_from_equiv nat_list_eq_equiv };

    fn eq(&self, other: &Bytes) -> bool {
        self.as_slice() == other.as_slice()
    }
}

impl Eq for Bytes {
    ghost laws = { nat_list_eq_equiv };
}

impl Bytes {
    /// The octets of a `Vec`, taken over without a copy.
    pub fn from_vec(bytes: Vec<u8>) -> Bytes
        ensures { result ≡ bytes.items }
    {
        // a proof knows an octet to be one once it is read; the compiled loop is empty
        for octet in &bytes {
            let _octet = *octet;
        }
        Self { bytes }
    }

    /// Gives the `Vec` back.
    pub fn into_vec(self) -> Vec<u8>
        ensures { result.items ≡ self }
    {
        let Bytes { bytes } = self;
        bytes
    }

    /// What a `Bytes` keeps about itself: its octets are whole numbers below 256. Does nothing.
    pub fn kept(&self)
        ensures { AreOctets self.now }
    {
        let _bytes = &self.bytes;
    }

    /// The octets.
    pub fn as_slice(&self) -> &[u8]
        ensures { result.now ≡ self.now }
    {
        self.bytes.as_slice()
    }

    /// Equal octets. The only refusal is `Memory`.
    pub fn copy(&self) -> Result<Bytes, Reason>
        ensures { MatchResult result (λ b. b ≡ self.now) (λ r. r ≡ reasons.Memory) }
    {
        let bytes = self.bytes.clone()?;
        Ok(Bytes { bytes })
    }
}
