//! How paths are spelled.
ghost use Rattle.std.specs.Prelude.{◌≡◌, Some, MatchResult, string_bytes};
ghost use Rattle.std.specs.Fmt.{WritesOnOk};
ghost use Rattle.ion_atoms.specs.declared.refusal.Reason.TheVariants as reasons;
ghost use Rattle.ion_docs.specs.Paths.{part_text, path_text};

use ion_model::{Part, Path, Reason};
use ion_text_writer::spelling_of;
use std::alloc::Global;
use std::fmt::{self, Display, Formatter};

/// The parts of a path, one space between them: an item is its number in brackets, a name is
/// spelled as symbols of text documents are (`symbol_text`). The path of no parts is no text.
///
/// The only refusal is `Memory`.
pub fn path_text(alloc: Global, path: &Path) -> Result<String, Reason>
    ensures { MatchResult result
        (λ text. string_bytes text ≡ path_text path.now)
        (λ reason. reason ≡ reasons.Memory) }
{
    let text = spelling_of_path(path).to_string(alloc)?;
    Ok(text)
}

/// A path that prints as its spelling, where `path_text` makes a `String` of it.
#[derive(Clone, Copy)]
pub struct PathText<'a> {
    path: &'a Path,
}

/// The path as what prints as its spelling, as in `println!(rt; "{}", spelling_of_path(&path))`:
/// that of `path_text`. Takes no memory.
pub fn spelling_of_path(path: &Path) -> PathText<'_>
    ensures { result.path.now ≡ path.now }
{
    PathText { path }
}

impl Display for PathText<'_> {
    ghost output = { λ p. Some (path_text p.path.now) };

    fn fmt<W: fmt::Write>(&self, f: &mut Formatter<W>) -> fmt::Result {
        let Some((part, others)) = self.path.parts().split_first() else {
            return Ok(());
        };
        write_part(f, part)?;
        for part in others {
            f.write_str(" ")?;
            write_part(f, part)?;
        }
        Ok(())
    }
}

fn write_part<W: fmt::Write>(f: &mut Formatter<W>, part: &Part) -> fmt::Result
    ensures { WritesOnOk W.write_str_gives f.old result (part_text part.now) f.new }
{
    match part {
        Part::Item(number) => write!(f, "[{number}]"),
        Part::Name(name) => spelling_of(name).fmt(f),
    }
}
