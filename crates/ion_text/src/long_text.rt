//! What a long string says, whose segments come one by one.
ghost use Rattle.std.specs.Prelude.{◌≡◌, ◌++◌, [], false, MatchResult, IfSome};
ghost use Rattle.ion_atoms.specs.declared.refusal.Reason.TheVariants as reasons;

use boxcar::tag::{Names, Tag};
use ion_atoms::LetGo;
use ion_model::{Reason, Text};
use std::alloc::Global;
use std::marker::Model;

/// So few octets aren't let go.
const FEW: usize = 1024;

/// What the segments of a long string say so far, of which the front may have been let go, since
/// nobody asks for it. In clauses it is all of it.
#[derive(Drop)]
pub struct LongText {
    /// Whether some may have been let go.
    is_cut: bool,
    /// What was let go, which exists in proofs alone.
    gone: Tag,
    text: Text,
}

impl Model for LongText {
    ghost use Rattle.std.specs.Prelude.{◌≡◌, List, ℕ, ◌++◌, [], false};

    ghost Value = { List ℕ };

    ghost view = { λ l. l.gone.numbers ++ l.text };

    ghost invariant = { λ l. l.is_cut ≡ false → l.gone.numbers ≡ [] };
}

/// What was let go, and a text behind it that is.
#[derive(Drop)]
struct Longer<'a> {
    before: &'a Tag,
    text: &'a [u8],
}

/// What was let go, and behind it what was elsewhere.
#[derive(Drop)]
struct Sides<'a> {
    before: &'a Tag,
    behind: &'a LetGo,
}

struct Joined;

impl<'a> Names<Longer<'a>> for Joined {
    ghost use Rattle.std.specs.Prelude.{◌++◌};

    ghost numbers = { λ longer. longer.before.now.numbers ++ longer.text.now };
}

impl<'a> Names<Sides<'a>> for Joined {
    ghost use Rattle.std.specs.Prelude.{◌++◌};

    ghost numbers = { λ both. both.before.now.numbers ++ both.behind.now };
}

impl LongText {
    /// This text.
    pub fn new(text: Text) -> LongText
        ensures { result ≡ text }
    {
        LongText {
            is_cut: false,
            gone: Tag::empty(),
            text,
        }
    }

    // A text of which nothing is kept.
    fn cut(alloc: Global, gone: Tag) -> LongText
        ensures { result ≡ gone.numbers }
    {
        LongText {
            is_cut: true,
            gone,
            text: Text::from_string(String::new(alloc)),
        }
    }

    /// A text of which octets were let go, so that nothing is kept of it.
    pub fn gone(alloc: Global, gone: &LetGo) -> LongText
        ensures { result ≡ gone.now }
    {
        let tag = Tag::of::<Sides<'_>, Joined>(&Sides {
            before: &Tag::empty(),
            behind: gone,
        });
        LongText::cut(alloc, tag)
    }

    /// The text, unless octets of it were let go.
    pub fn as_str(&self) -> Option<&str>
        ensures { IfSome result (λ text. text.now ≡ self.now) }
    {
        if self.is_cut {
            None
        } else {
            Some(self.text.as_str())
        }
    }

    /// Another segment follows. The only refusal is `Memory`.
    pub fn join(self, more: &Text) -> Result<LongText, Reason>
        ensures { MatchResult result (λ joined. joined ≡ self ++ more.now)
            (λ reason. reason ≡ reasons.Memory) }
    {
        let LongText { is_cut, gone, text } = self;
        let mut text = text.into_string();
        text.push_str(more.as_str())?;
        Ok(LongText {
            is_cut,
            gone,
            text: Text::from_string(text),
        })
    }

    /// Another segment follows, of which octets were let go.
    pub fn join_gone(self, alloc: Global, more: &LetGo) -> LongText
        ensures { result ≡ self ++ more.now }
    {
        let front = Tag::of::<Longer<'_>, Joined>(&Longer {
            before: &self.gone,
            text: self.text.as_str().as_bytes(),
        });
        let tag = Tag::of::<Sides<'_>, Joined>(&Sides {
            before: &front,
            behind: more,
        });
        LongText::cut(alloc, tag)
    }

    /// Lets go the text, if it isn't short. What it says stays the same.
    pub fn let_go(&mut self, alloc: Global)
        ensures { self.new ≡ self.old }
    {
        let octets = self.text.as_str().as_bytes();
        if octets.len() < FEW {
            return;
        }
        let tag = Tag::of::<Longer<'_>, Joined>(&Longer {
            before: &self.gone,
            text: octets,
        });
        self.is_cut = true;
        self.gone = tag;
        self.text = Text::from_string(String::new(alloc));
    }
}
