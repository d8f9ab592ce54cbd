//! Octets that nobody asks for any more.
ghost use Rattle.std.specs.Prelude.{◌≡◌, ◌+◌, ◌<◌, ◌^◌, ◌++◌, ◌↔◌, [], length, nat_eq, true};
ghost use Rattle.std.specs.Cmp.{on_equiv, partial_equiv_from_equiv};
ghost use Rattle.std.specs.Ordering.{on};
ghost use Rattle.std.proofs.lemmas.Cmp.{nat_eq_equiv};
ghost use Rattle.std.specs.Str.{IsUtf8};

use boxcar::tag::{Names, Tag};
use std::fmt::{self, Debug, Formatter};
use std::marker::Model;

/// Octets at the front of a scalar that were let go, since nobody asks what it says: only how many
/// they were is kept, and whether they are known to be UTF-8.
///
/// In clauses it is the list of these octets.
#[derive(Drop)]
pub struct LetGo {
    count: u64,
    is_text: bool,
    octets: Tag,
}

impl Model for LetGo {
    ghost use Rattle.std.specs.Prelude.{List, ℕ};
    ghost use Rattle.ion_atoms.specs.LetGo.{WereLetGo};

    ghost Value = { List ℕ };

    ghost view = { λ l. l.octets.numbers };

    ghost invariant = { λ l. WereLetGo l.count l.is_text l.octets.numbers };
}

/// Of octets that were let go only how many they are can be compared.
impl PartialEq for LetGo {
    ghost eq = { on length nat_eq };

    ghost laws = { partial_equiv_from_equiv (on_equiv length nat_eq_equiv) };

    fn eq(&self, other: &LetGo) -> bool {
        self.count == other.count
    }
}

impl Eq for LetGo {
    ghost laws = { on_equiv length nat_eq_equiv };
}

impl Debug for LetGo {
    fn fmt<W: fmt::Write>(&self, f: &mut Formatter<W>) -> fmt::Result {
        f.write_str("LetGo")
    }
}

/// Octets that were let go, and others behind them.
#[derive(Drop)]
struct More<'a> {
    before: &'a Tag,
    octets: &'a [u8],
}

struct Joined;

impl<'a> Names<More<'a>> for Joined {
    ghost use Rattle.std.specs.Prelude.{◌++◌};

    ghost numbers = { λ more. more.before.now.numbers ++ more.octets.now };
}

fn are_texts(first: bool, second: bool) -> bool
    ensures { result ≡ true → (first ≡ true) × (second ≡ true) }
{
    first && second
}

// Whether octets behind a text, or behind others, are known to make a text with them.
fn goes_on_as_text(is_text: bool, octets: &[u8]) -> bool
    ensures { result ≡ true → (is_text ≡ true) × IsUtf8 octets.now }
{
    is_text && simdutf8::is_utf8(octets)
}

/// Octets that were let go, and behind them others that were.
#[derive(Drop)]
struct Sides<'a> {
    before: &'a Tag,
    behind: &'a Tag,
}

impl<'a> Names<Sides<'a>> for Joined {
    ghost use Rattle.std.specs.Prelude.{◌++◌};

    ghost numbers = { λ both. both.before.now.numbers ++ both.behind.now.numbers };
}

impl LetGo {
    /// None.
    pub fn nothing() -> LetGo
        ensures { result ≡ [] }
    {
        LetGo {
            count: 0,
            is_text: true,
            octets: Tag::empty(),
        }
    }

    /// Lets go octets behind those.
    pub fn add(&mut self, octets: &[u8])
        requires { length self.old + length octets.now < 2 ^ 63 }
        ensures { self.new ≡ self.old ++ octets.now }
    {
        self.is_text = goes_on_as_text(self.is_text, octets);
        self.count += octets.len() as u64;
        let tag = Tag::of::<More<'_>, Joined>(&More {
            before: &self.octets,
            octets,
        });
        self.octets = tag;
    }

    /// Lets go behind those what was let go elsewhere.
    pub fn join(&mut self, behind: &LetGo)
        requires { length self.old + length behind.now < 2 ^ 63 }
        ensures { self.new ≡ self.old ++ behind.now }
    {
        self.is_text = are_texts(self.is_text, behind.is_text);
        self.count += behind.count;
        let tag = Tag::of::<Sides<'_>, Joined>(&Sides {
            before: &self.octets,
            behind: &behind.octets,
        });
        self.octets = tag;
    }

    /// Whether there are none.
    pub fn is_nothing(&self) -> bool
        ensures { result ≡ true ↔ self.now ≡ [] }
    {
        self.count == 0
    }

    /// How many there are.
    pub fn count(&self) -> u64
        ensures count { result ≡ length self.now }
        ensures few { result < 2 ^ 63 }
    {
        self.count
    }

    /// Whether they are known to be UTF-8: each time whole characters were let go.
    pub fn is_text(&self) -> bool
        ensures { result ≡ true → IsUtf8 self.now }
    {
        self.is_text
    }
}
