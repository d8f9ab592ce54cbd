//! What a device did so far, in proofs alone.
ghost use Rattle.std.specs.Prelude.{◌≡◌, ℕ, List, [], ◌∷◌, ◌++◌, length};

use boxcar::tag::{Names, Tag};
use std::fmt::{self, Debug, Formatter};
use std::marker::Model;

/// Octets that went through a device, or other numbers that are to be remembered of it, in order.
///
/// In clauses it is their list. It takes no memory and its methods do nothing at run time: the list
/// is what `new`, `add` and `add_count` were called with.
#[derive(Drop)]
pub struct History {
    tag: Tag,
}

const _: () = prove!(size_of::<History>() == 0);

impl Model for History {
    ghost Value = { List ℕ };

    ghost view = { λ history. history.tag.numbers };
}

impl Debug for History {
    fn fmt<W: fmt::Write>(&self, f: &mut Formatter<W>) -> fmt::Result {
        f.write_str("History")
    }
}

/// A history, and octets behind it.
#[derive(Drop)]
struct More<'a> {
    before: &'a Tag,
    octets: &'a [u8],
}

struct Joined;

impl<'a> Names<More<'a>> for Joined {
    ghost numbers = { λ more. more.before.now.numbers ++ more.octets.now };
}

/// A history, and another that is counted behind it.
#[derive(Drop)]
struct Counted<'a> {
    before: &'a Tag,
    counted: &'a Tag,
}

struct Count;

impl<'a> Names<Counted<'a>> for Count {
    ghost numbers = { λ two. two.before.now.numbers ++ length two.counted.now.numbers ∷ [] };
}

/// A history, as it stood.
struct Same;

impl Names<Tag> for Same {
    ghost numbers = { λ tag. tag.numbers };
}

impl History {
    /// Nothing happened yet.
    pub fn new() -> History
        ensures { result ≡ [] }
    {
        History { tag: Tag::empty() }
    }

    /// These octets went through too.
    #[inline(always)]
    pub fn add(&mut self, octets: &[u8])
        ensures { self.new ≡ self.old ++ octets.now }
    {
        let tag = Tag::of::<More<'_>, Joined>(&More {
            before: &self.tag,
            octets,
        });
        self.tag = tag;
    }

    /// Behind what is remembered stands how long another history is by now.
    #[inline(always)]
    pub fn add_count(&mut self, counted: &History)
        ensures { self.new ≡ self.old ++ length counted.now ∷ [] }
    {
        let tag = Tag::of::<Counted<'_>, Count>(&Counted {
            before: &self.tag,
            counted: &counted.tag,
        });
        self.tag = tag;
    }

    /// The same history once more.
    #[inline(always)]
    pub fn copy(&self) -> History
        ensures { result ≡ self.now }
    {
        History {
            tag: Tag::of::<Tag, Same>(&self.tag),
        }
    }
}
