//! The words of the command line, as its library is told of them.
ghost use Rattle.std.specs.Prelude.{◌≡◌, true, IfOk, IsOkAnd};
ghost use Rattle.clap.specs.Words.{app_of, with_rule, with_subcommand};
ghost use Rattle.ion_words.specs.Program.{program, bare, over_one, converting, comparing, place, option, number_option, needed_option, with_options};

use clap::builder::ValueParser;
use clap::{Arg, Command};
use std::alloc::{AllocError, Global};

/// A command, where there was memory for it.
type Made<'a> = Result<Command<'a>, AllocError>;

/// The program with its commands.
pub fn command_line<'a>(alloc: Global) -> Made<'a>
    ensures { IfOk result (λ command. app_of command ≡ program) }
{
    let program = with_command(bare(alloc), over_one(alloc, "check"))?;
    let program = with_command(program, over_one(alloc, "show"))?;
    let program = with_command(program, converting(alloc))?;
    with_command(program, comparing(alloc))
}

/// The program with no command.
fn bare<'a>(alloc: Global) -> Command<'a>
    ensures { app_of result ≡ bare }
{
    Command::new(alloc, "ion_cmd")
        .no_binary_name(true)
        .subcommand_required(true)
}

/// The program with one more command, where there was memory for it.
fn with_command<'a>(program: Command<'a>, command: Made<'a>) -> Made<'a>
    ensures { IfOk result (λ r. IsOkAnd command.entry (λ added. (app_of added).top.is_plain ≡ true →
        app_of r ≡ with_subcommand (app_of program.entry) (app_of added).top)) }
{
    program.subcommand(command?)
}

/// A command over one document.
fn over_one<'a>(alloc: Global, name: &'a str) -> Made<'a>
    ensures { IfOk result (λ command. app_of command ≡ over_one name.now) }
{
    let command = with_place(alloc, Command::new(alloc, name), "FILE")?;
    with_options(alloc, command)
}

/// The command that writes a document anew.
fn converting<'a>(alloc: Global) -> Made<'a>
    ensures { IfOk result (λ command. app_of command ≡ converting) }
{
    let command = with_place(alloc, Command::new(alloc, "convert"), "FILE")?;
    let command = with_needed_option(alloc, command, "to")?;
    with_options(alloc, command)
}

/// The command over two documents.
fn comparing<'a>(alloc: Global) -> Made<'a>
    ensures { IfOk result (λ command. app_of command ≡ comparing) }
{
    let command = with_place(alloc, Command::new(alloc, "compare"), "LEFT")?;
    let command = with_place(alloc, command, "RIGHT")?;
    with_options(alloc, command)
}

/// The command with the options that each command takes.
fn with_options<'a>(alloc: Global, command: Command<'a>) -> Made<'a>
    ensures { IfOk result (λ r. app_of r ≡ with_options (app_of command.entry)) }
{
    let command = with_option(alloc, command, "catalog")?;
    let command = with_number(alloc, command, "depth", 128)?;
    with_number(alloc, command, "item", 1 << 30)
}

/// The command with a name that must be given, by its place.
fn with_place<'a>(alloc: Global, command: Command<'a>, id: &'a str) -> Made<'a>
    ensures { IfOk result (λ r. app_of r ≡ with_rule (app_of command.entry) (place id.now)) }
{
    command.arg(Arg::new(alloc, id).required(true))
}

/// The command with `--id VALUE`, which may be given.
fn with_option<'a>(alloc: Global, command: Command<'a>, id: &'a str) -> Made<'a>
    ensures { IfOk result (λ r. app_of r ≡ with_rule (app_of command.entry) (option id.now)) }
{
    command.arg(Arg::new(alloc, id).long(id))
}

/// The command with `--id N`, which may be given, a whole number from 1 to `most`.
fn with_number<'a>(alloc: Global, command: Command<'a>, id: &'a str, most: u64) -> Made<'a>
    ensures { IfOk result (λ r.
        app_of r ≡ with_rule (app_of command.entry) (number_option most id.now)) }
{
    let numbers = ValueParser::Unsigned(1, most);
    command.arg(Arg::new(alloc, id).long(id).value_parser(numbers))
}

/// The command with `--id VALUE`, which must be given.
fn with_needed_option<'a>(alloc: Global, command: Command<'a>, id: &'a str) -> Made<'a>
    ensures { IfOk result (λ r. app_of r ≡ with_rule (app_of command.entry)
        (needed_option id.now)) }
{
    command.arg(Arg::new(alloc, id).long(id).required(true))
}
