//! The parser of the command line, as `clap` is given it.

use crate::argument::{Argument, Kind, Row};
use crate::commands::{PROGRAM_ABOUT, PROGRAM_NOTES, VERSION, rows};
use crate::names::LINES;
use clap::{Arg, ArgAction, Command};
use std::alloc::{AllocError, Global};

/// Returns an argument as `clap` is given it.
fn arg_of<'a>(alloc: Global, argument: &Argument) -> Result<Arg<'a>, AllocError> {
    let arg = Arg::new(alloc, argument.id).help(argument.help);
    match argument.kind {
        Kind::Optional => Ok(arg),
        Kind::Any => Ok(arg.action(ArgAction::Append).num_args(0..)),
        Kind::MaybeOneOf(words) => Ok(arg.value_parser(words)),
        Kind::OneOf(words) => Ok(arg.required(true).value_parser(words)),
        Kind::Batch => arg.required_unless_present(LINES),
        Kind::Second => arg.required_unless_present(LINES)?.conflicts_with(LINES),
        Kind::Flag => Ok(flag(arg, argument.id)),
        Kind::ShortFlag(name) => Ok(flag(arg, argument.id).short(name)),
        Kind::FlagWithout(others) => flag(arg, argument.id).conflicts_with_all(others),
        Kind::FlagOf(other) => flag(arg, argument.id).requires_arg(other),
        Kind::Value(name) => Ok(arg.long(argument.id).value_name(name)),
        Kind::Choice(name, words) => {
            Ok(arg.long(argument.id).value_name(name).value_parser(words))
        }
    }
}

/// Returns the argument as an option of this name without a value.
fn flag<'a>(arg: Arg<'a>, name: &'a str) -> Arg<'a> {
    arg.long(name).action(ArgAction::SetTrue)
}

/// Returns a command as `clap` is given it, with these arguments.
fn command_of<'a>(
    alloc: Global,
    row: Row,
    arguments: &[Argument],
) -> Result<Command<'a>, AllocError> {
    let mut args = Vec::new(alloc);
    for argument in arguments {
        args.push(arg_of(alloc, argument)?)?;
    }
    Command::new(alloc, row.name)
        .about(row.about)
        .override_usage(row.usage)
        .after_help(row.notes)
        .args(args)
}

/// Returns the program as `clap` is given it for these words. Only the commands that they name have arguments: no other is
/// read, and making the arguments of all takes longer than the check of a small batch.
pub fn program<'a>(alloc: Global, words: &[String]) -> Result<Command<'a>, AllocError> {
    let mut commands = Vec::new(alloc);
    for row in rows() {
        let is_named = words.iter().any(|word| word.as_str() == row.name);
        let arguments = if is_named { row.arguments } else { &[] };
        commands.push(command_of(alloc, row, arguments)?)?;
    }
    Command::new(alloc, "odb_batch")
        .about(PROGRAM_ABOUT)
        .version(VERSION)
        .after_help(PROGRAM_NOTES)
        .disable_help_subcommand(true)
        .subcommands(commands)
}

/// Returns the help of the command of this name, or of the program, as `--help` prints it.
pub fn help_of(alloc: Global, name: Option<&str>) -> Result<String, AllocError> {
    for row in rows() {
        if name == Some(row.name) {
            return command_of(alloc, row, row.arguments)?.render_help();
        }
    }
    program(alloc, &[])?.render_help()
}
