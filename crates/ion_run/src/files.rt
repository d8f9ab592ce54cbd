//! The file system, the standard input and the arguments of the process.
ghost use Rattle.std.specs.Prelude.{◌≡◌, [], map, drop, string_bytes, MatchResult, IfOk, IfErr};
ghost use Rattle.std.specs.Vec.Iter.{into_iter_items};
ghost use Rattle.ion_run.specs.Arguments.{words_of, no_words};

use crate::hashers::Hashers;
use crate::history::NameHistory;
use crate::sources::Sources;
use ion_symtab::{Fault, FromRead, Inlet};
use ion_words::WordsError;
use std::alloc::{AllocError, Global};
use std::env::Args;
use std::fs::File;
use std::hash::RandomState;
use std::io;
use std::io::{ErrorKind, Read};
use std::rt::Stdin;

/// An open file, or the standard input.
#[derive(Drop)]
pub enum Opened {
    File(File),
    Standard(Stdin),
}

impl Read for Opened {
    fn read(&mut self, buf: &mut [u8]) -> io::Result<usize> {
        match self {
            Opened::File(file) => file.read(buf),
            Opened::Standard(stdin) => stdin.read(buf),
        }
    }
}

/// The files by their paths, and the standard input by the name `-`.
#[derive(Drop)]
pub struct FileSystem<'r> {
    rt: &'r HostRuntime,
    /// The names that were opened.
    opened: NameHistory,
}

impl<'r> FileSystem<'r> {
    /// The file system of this process, of which no name was opened yet.
    pub fn new(rt: &'r HostRuntime) -> FileSystem<'r>
        ensures { ⟦<FileSystem<'r> as Sources>⟧.opened result ≡ [] }
    {
        FileSystem {
            rt,
            opened: NameHistory::new(),
        }
    }
}

impl Sources for FileSystem<'_> {
    ghost use Rattle.std.specs.Prelude.{◌≡◌, ◌≢◌, [], codes};
    ghost use Rattle.ion_symtab.specs.kept.FromRead.{reader_of};
    ghost use Rattle.ion_run.specs.Named.{IsNamed};

    type Input = FromRead<Opened>;

    /// The standard input by the name `-`, a file by any other. What it holds isn't known; its
    /// reader has handed nothing over yet.
    ghost gives = { λ _ name input. IsNamed name (reader_of input)
        × (⟦<FromRead<Opened> as Inlet>⟧.handed input ≡ [])
        × (⟦<FromRead<Opened> as Inlet>⟧.ends input ≡ []) };

    /// Any name of a file may be refused, since nothing is known of what can be opened; the
    /// standard input never is.
    ghost refuses = { λ _ name. name ≢ codes "-" };

    ghost opened = { λ system. system.opened };

    fn source(&mut self, name: &str) -> Result<FromRead<Opened>, Fault> {
        self.opened.add(name);
        if name == "-" {
            return Ok(FromRead::new(Opened::Standard(self.rt.stdin())));
        }
        match File::open(self.rt, name) {
            Ok(file) => Ok(FromRead::new(Opened::File(file))),
            Err(error) if error.kind() == ErrorKind::OutOfMemory => Err(Fault::Memory),
            Err(_) => Err(Fault::Open),
        }
    }
}

/// A hasher of a random seed of this process, which no document can have been made for.
#[derive(Drop)]
pub struct RandomHasher<'r> {
    rt: &'r HostRuntime,
}

impl<'r> RandomHasher<'r> {
    /// That of this process. The seed is drawn where the hasher is asked for.
    pub fn new(rt: &'r HostRuntime) -> RandomHasher<'r> {
        RandomHasher { rt }
    }
}

impl Hashers for RandomHasher<'_> {
    ghost use Rattle.std.specs.Prelude.{⊤};

    type Hasher = RandomState;

    /// It may always have none, since nothing is known of when a seed can be drawn.
    ghost refuses = { λ _. ⊤ };

    fn hasher(&self) -> Result<RandomState, Fault> {
        RandomState::new(self.rt).map_err(|_| Fault::Read)
    }
}

/// The words among the arguments of the process that `env::args` gave: those behind the program's
/// name.
///
/// `Usage` where an argument is no UTF-8 text, and `Memory` where a growth was refused.
pub fn words_given(alloc: Global, arguments: io::Result<Args>) -> Result<Vec<String>, WordsError>
    ensures words { IfOk result (λ words. MatchResult arguments
        (λ all. map string_bytes words.items ≡ words_of all)
        (λ _. ⊥)) }
    ensures error { IfErr result (λ error. MatchResult arguments
        (λ all. error ≡ WordsError.Memory)
        (λ why. error ≡ no_words why)) }
{
    match arguments {
        Ok(all) => Ok(behind_first(alloc, all)?),
        Err(why) if why.kind() == ErrorKind::OutOfMemory => Err(WordsError::Memory),
        Err(_) => Err(WordsError::Usage),
    }
}

/// All arguments behind the first.
fn behind_first(alloc: Global, arguments: Args) -> Result<Vec<String>, AllocError>
    ensures { IfOk result (λ words. words.items ≡ drop 1 (into_iter_items arguments)) }
{
    arguments.skip(1).collect(alloc)
}
