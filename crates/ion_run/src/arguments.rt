//! What the arguments of a process ask for.
ghost use Rattle.ion_run.specs.Names.{Opens};
ghost use Rattle.ion_run.specs.Owed.{OwesFor};

use crate::command::{refuse_words, run_with_hasher};
use crate::files::words_given;
use crate::hashers::Hashers;
use crate::sources::Sources;
use ion_docs::DocReader;
use ion_symtab::{Inlet, Items, Outlet};
use std::alloc::Global;
use std::env::Args;
use std::io;

/// Does what the arguments of the process ask for, as the runtime gave them, and answers its
/// status: that of `run_with_hasher` over the words behind the program's name. Where they are no
/// words, `err` says so, as `refuse_words` does.
pub fn run_arguments<N: Sources, H: Hashers, O: Outlet, E: Outlet>(
    alloc: Global,
    arguments: io::Result<Args>,
    sources: &mut N,
    hashers: &H,
    out: &mut O,
    err: &mut E,
) -> u8
    ensures { OwesFor N.Input.Inlet (N.gives sources.old) (N.refuses sources.old)
        (Opens (N.opened sources.old) (N.opened sources.new)) (H.refuses hashers.now)
        ⟦<DocReader<'static> as Items>⟧ O.Outlet E.Outlet arguments
        out.old out.new err.old err.new result }
{
    match words_given(alloc, arguments) {
        Ok(words) => run_with_hasher(alloc, words.as_slice(), sources, hashers, out, err),
        Err(error) => refuse_words(error, err).code(),
    }
}
