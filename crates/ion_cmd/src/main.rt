//! The command: its words, the file system and the standard streams.
#![tactic(auto)]

use ion_run::{FileSystem, RandomHasher, refuse_words, run_arguments};
use ion_symtab::ToWrite;
use ion_words::WordsError;
use std::env;
use std::fs::File;
use std::io::BufWriter;
use std::process::ExitCode;

/// So many octets of the output are kept back before they go out together.
const KEPT_BACK: usize = 65536;

/// A standard stream that was closed at the start is the root folder from here on, which answers reads and
/// writes with an error. Otherwise the first document opened would take its number, and be read in its place.
const ROOT: &str = "/";

fn main(rt: HostRuntime) -> ExitCode {
    let standard = [
        File::open(&rt, ROOT),
        File::open(&rt, ROOT),
        File::open(&rt, ROOT),
    ];
    let mut err = ToWrite::new(rt.stderr());
    let status = match BufWriter::with_capacity(rt.alloc(), KEPT_BACK, rt.stdout()) {
        Ok(buffered) => {
            let mut sources = FileSystem::new(&rt);
            let hashers = RandomHasher::new(&rt);
            let mut out = ToWrite::new(buffered);
            let arguments = env::args(&rt);
            run_arguments(
                rt.alloc(),
                arguments,
                &mut sources,
                &hashers,
                &mut out,
                &mut err,
            )
        }
        Err(_) => refuse_words(WordsError::Memory, &mut err).code(),
    };
    drop(standard);
    ExitCode::from(status)
}
