//! Which names were opened so far, in proofs alone.
ghost use Rattle.std.specs.Prelude.{◌≡◌, List, [], ◌∷◌, ◌++◌};
ghost use Rattle.ion_run.specs.Names.{Name};
ghost use Rattle.ion_run.specs.kept.Spelled.{spelled, names_in};

use boxcar::tag::{Names, Tag};
use std::marker::Model;

/// Names, in the order in which they were opened.
///
/// In clauses it is their list. It takes no memory and its methods do nothing at run time: the list
/// is what `add` was called with.
#[derive(Drop)]
pub struct NameHistory {
    tag: Tag,
}

const _: () = prove!(size_of::<NameHistory>() == 0);

impl Model for NameHistory {
    ghost Value = { List Name };

    ghost view = { λ history. names_in history.tag.numbers };
}

/// A history, and a name behind it.
#[derive(Drop)]
struct More<'a> {
    before: &'a Tag,
    name: &'a str,
}

struct Behind;

impl<'a> Names<More<'a>> for Behind {
    ghost numbers = { λ more. more.before.now.numbers ++ spelled more.name.now };
}

impl NameHistory {
    /// No name was opened yet.
    pub fn new() -> NameHistory
        ensures { result ≡ [] }
    {
        NameHistory { tag: Tag::empty() }
    }

    /// This name was opened too.
    #[inline(always)]
    pub fn add(&mut self, name: &str)
        ensures { self.new ≡ self.old ++ name.now ∷ [] }
    {
        let tag = Tag::of::<More<'_>, Behind>(&More {
            before: &self.tag,
            name,
        });
        self.tag = tag;
    }
}
