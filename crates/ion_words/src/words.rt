//! From words to a request.
ghost use Rattle.std.specs.Prelude.{◌≡◌, ◌↔◌, ◌≤◌, ◌^◌, ℕ, map, MatchResult, IfOk, IfSome, option_map, option_and_then, Some, None};
ghost use Rattle.clap.specs.Words.{found_of, first_of, one_of, rows_of, kind_of, subcommand_rows_of};
ghost use Rattle.clap.specs.declared.error.ErrorKind.TheVariants.{OutOfMemory};
ghost use Rattle.ion_words.specs.declared.request.WordsError.TheVariants.{Memory};
ghost use Rattle.ion_words.specs.Asked.{asked, asked_by, told, job, job_of, target_named, limits_of, limits_told, number_of, up_to, names_input_once, names_of, NamesInputOnce};

use crate::command_line::command_line;
use crate::request::{Request, Task, WordsError};
use clap::{ArgMatches, Error};
use ion_symtab::{Limits, Target};
use std::alloc::Global;
use std::convert::AsStr;

const STANDARD_INPUT: &str = "-";

/// What the words ask for, which come without the program's name; none stand for `show -`.
///
/// `Usage` where they ask for nothing that the program does: they are no words of it, a limit is
/// out of its range, or the standard input is named twice. `Memory` where a growth was refused.
pub fn parse<'a, S: AsStr>(alloc: Global, words: &'a [S]) -> Result<Request<'a>, WordsError>
    ensures asked { MatchResult result
        (λ request. asked (map S.text words.now) ≡ Some (told request))
        (λ error. error ≡ WordsError.Usage → asked (map S.text words.now) ≡ None) }
    ensures reads { IfOk result (λ request. request.limits.reads ≡ 2 ^ 32) }
    ensures input_once { IfOk result (λ request. NamesInputOnce (names_of (told request))) }
{
    if words.is_empty() {
        return Ok(Request {
            task: Task::Show(STANDARD_INPUT),
            catalog: None,
            limits: Limits::usual(),
        });
    }
    let program = command_line(alloc)?;
    match program.try_get_matches_from(words) {
        Ok(matches) => match request_in(&matches) {
            Some(request) => Ok(request),
            None => Err(WordsError::Usage),
        },
        Err(error) => Err(refusal(error)),
    }
}

fn refusal(error: Error) -> WordsError
    ensures { (result ≡ Memory) ↔ (kind_of error ≡ OutOfMemory) }
{
    WordsError::from(error)
}

fn request_in<'a>(matches: &ArgMatches<'a>) -> Option<Request<'a>>
    ensures asked { option_map told result ≡
        option_and_then (λ found. asked_by found.0 found.1) (subcommand_rows_of matches.now) }
    ensures reads { IfSome result (λ request. request.limits.reads ≡ 2 ^ 32) }
    ensures input_once { IfSome result (λ request. NamesInputOnce (names_of (told request))) }
{
    let (name, inner) = entered(matches)?;
    request_of(name, inner)
}

/// The command that was named, with what was found for it.
fn entered<'m, 'a>(matches: &'m ArgMatches<'a>) -> Option<(&'a str, &'m ArgMatches<'a>)>
    ensures { option_map (λ p. (p.0.now, rows_of (found_of p.1.now))) result ≡
        subcommand_rows_of matches.now }
{
    matches.subcommand()
}

/// What the command of this name asks for.
fn request_of<'a>(name: &str, matches: &ArgMatches<'a>) -> Option<Request<'a>>
    ensures asked { option_map told result ≡ asked_by name.now (rows_of (found_of matches.now)) }
    ensures reads { IfSome result (λ request. request.limits.reads ≡ 2 ^ 32) }
    ensures input_once { IfSome result (λ request. NamesInputOnce (names_of (told request))) }
{
    let request = Request {
        task: task_of(name, matches)?,
        catalog: given(matches, "catalog"),
        limits: limits_of(matches)?,
    };
    if names_input_once(&request) {
        Some(request)
    } else {
        None
    }
}

fn task_of<'a>(name: &str, matches: &ArgMatches<'a>) -> Option<Task<'a>>
    ensures { option_map job result ≡ job_of name.now (rows_of (found_of matches.now)) }
{
    match name {
        "check" => Some(Task::Check(given(matches, "FILE")?)),
        "show" => Some(Task::Show(given(matches, "FILE")?)),
        "convert" => {
            let file = given(matches, "FILE")?;
            let to = given(matches, "to")?;
            Some(Task::Convert(file, target_named(to)?))
        }
        "compare" => {
            let left = given(matches, "LEFT")?;
            let right = given(matches, "RIGHT")?;
            Some(Task::Compare(left, right))
        }
        _ => None,
    }
}

fn target_named(name: &str) -> Option<Target>
    ensures { result ≡ target_named name.now }
{
    match name {
        "text" => Some(Target::Text),
        "binary" => Some(Target::Binary),
        _ => None,
    }
}

/// The value of an option, or the name in a place.
fn given<'a>(matches: &ArgMatches<'a>, id: &str) -> Option<&'a str>
    ensures { option_map (λ s. s.now) result ≡ first_of id.now (rows_of (found_of matches.now)) }
{
    matches.get_str(id)
}

/// The limits that the options give, each the usual one where it isn't given.
fn limits_of(matches: &ArgMatches<'_>) -> Option<Limits>
    ensures limits { option_map limits_told result ≡ limits_of (rows_of (found_of matches.now)) }
    ensures reads { IfSome result (λ limits. limits.reads ≡ 2 ^ 32) }
{
    let usual = Limits::usual();
    let depth = number_of(matches, "depth", u64::from(usual.depth()))?;
    let item = number_of(matches, "item", usual.item())?;
    Limits::new(u32::try_from(depth).ok()?, item, usual.reads())
}

/// The number of an option, as the library of command lines reads it, or the usual one where it
/// isn't given.
fn number_of(matches: &ArgMatches<'_>, id: &str, usual: u64) -> Option<u64>
    ensures { (most : ℕ) → 1 ≤ usual → usual ≤ most →
        up_to most result ≡ number_of usual most (one_of id.now (rows_of (found_of matches.now))) }
{
    match matches.try_get_one::<u64>(id) {
        Ok(given) => Some(given.unwrap_or(usual)),
        Err(_) => None,
    }
}

/// Whether the standard input is named once at most.
fn names_input_once(request: &Request<'_>) -> bool
    ensures { result ≡ names_input_once (told request.now) }
{
    let catalog = request.catalog == Some(STANDARD_INPUT);
    match request.task {
        Task::Check(file) | Task::Show(file) | Task::Convert(file, _) => {
            !(catalog && file == STANDARD_INPUT)
        }
        Task::Compare(left, right) => {
            let both = left == STANDARD_INPUT && right == STANDARD_INPUT;
            let either = left == STANDARD_INPUT || right == STANDARD_INPUT;
            !(both || catalog && either)
        }
    }
}
