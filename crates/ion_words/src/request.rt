//! What the program is asked for, and why words ask for nothing.
ghost use Rattle.std.specs.Prelude.{◌≡◌, ◌↔◌, Some};
ghost use Rattle.clap.specs.Words.{kind_of};
ghost use Rattle.clap.specs.declared.error.ErrorKind.TheVariants.{OutOfMemory};
ghost use Rattle.ion_words.specs.declared.request.WordsError.TheVariants.{Memory};
ghost use Rattle.ion_words.specs.Errors.{error_name};

use clap::Error;
use clap::error::ErrorKind;
use ion_symtab::{Limits, Target};
use std::alloc::AllocError;
use std::fmt::{self, Display, Formatter};

/// What is to be done, with the names of the documents; `-` names the standard input.
#[derive(Clone, Copy, Debug, PartialEq, Eq)]
pub enum Task<'a> {
    /// Whether the document of this name is one.
    Check(&'a str),
    /// A line for each value of the document of this name.
    Show(&'a str),
    /// The document of this name, converted to that encoding.
    Convert(&'a str, Target),
    /// The documents of these names compared, the left one first.
    Compare(&'a str, &'a str),
}

/// What the words ask for.
#[derive(Clone, Copy, Debug, PartialEq, Eq)]
pub struct Request<'a> {
    /// What is to be done.
    pub task: Task<'a>,
    /// The name of the document that holds the shared symbol tables, if one was given.
    pub catalog: Option<&'a str>,
    /// Within which limits each document is read, that of the catalog too.
    pub limits: Limits,
}

/// Why the words ask for nothing. Its message is the variant's name.
#[derive(Clone, Copy, Debug, PartialEq, Eq)]
pub enum WordsError {
    /// They are no words of the program, or a call for help.
    Usage,
    /// A growth was refused.
    Memory,
}

impl Display for WordsError {
    ghost output = { λ error. Some (error_name error) };

    fn fmt<W: fmt::Write>(&self, f: &mut Formatter<W>) -> fmt::Result {
        f.write_str(match self {
            WordsError::Usage => "Usage",
            WordsError::Memory => "Memory",
        })
    }
}

impl std::error::Error for WordsError {}

impl From<AllocError> for WordsError {
    ghost from_gives = { λ _ e. e ≡ Memory };

    fn from(_error: AllocError) -> WordsError {
        WordsError::Memory
    }
}

impl From<Error> for WordsError {
    ghost from_gives = { λ error e. (e ≡ Memory) ↔ (kind_of error ≡ OutOfMemory) };

    fn from(error: Error) -> WordsError {
        match error.kind() {
            ErrorKind::OutOfMemory => WordsError::Memory,
            _ => WordsError::Usage,
        }
    }
}
