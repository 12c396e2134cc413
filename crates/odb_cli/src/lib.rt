//! The command line of `odb_batch`, as a library: the program calls [`run`], and does nothing else.
//!
//! Each command over documents is an engine of `odb_engine`, whose contract states what is written;
//! the others print a text of their own. This crate reads the command line, opens files, and turns
//! the end of a command into an exit status.
#![tactic(auto)]

mod argument;
mod command_line;
mod commands;
mod completions;
mod devices;
mod ending;
mod engines;
mod explain;
mod log;
mod man;
mod names;
mod page;
mod parser;
mod progress;
mod texts;

use clap::error::ErrorKind;
use command_line::{BadArguments, CommandLine};
use ending::{Status, failed, out_of_memory};
pub use engines::Terminals;
use engines::{Environment, answer_job};
use log::answer_log;
use odb_check::Seed;
use std::process::ExitCode;
use std::random::RandomSource;
use std::rt::Runtime;
use std::{env, io};

/// Prints the text of `clap`: help on standard output, and what is wrong on standard error.
fn print_clap<R: Runtime>(rt: &R, error: &clap::Error) -> Status {
    if error.kind() == ErrorKind::OutOfMemory {
        return out_of_memory(rt);
    }
    if error.use_stderr() {
        let _ = error.print(rt);
        return Status::WrongArguments;
    }
    match error.print(rt) {
        Ok(()) => Status::Done,
        Err(_) => failed(rt, "write", Status::Device),
    }
}

/// Prints why the arguments are rejected.
fn reject<R: Runtime>(rt: &R, wrong: &BadArguments) -> Status {
    let cause = match wrong {
        BadArguments::Arguments(error) => return print_clap(rt, error),
        BadArguments::Order => "--order must be first, last or wide",
        BadArguments::Width => "--width must be a whole number from 1 to 10000",
        BadArguments::StandardInputTwice => "standard input can be only one of the two documents",
    };
    failed(rt, cause, Status::WrongArguments)
}

/// Draws a random seed. If the system has no random bytes there is none: lookups are then as safe against
/// crafted names, but slower.
fn seed<R: RandomSource>(rt: &R) -> Seed {
    match Seed::random(rt) {
        Ok(seed) => seed,
        Err(_) => Seed::none(),
    }
}

/// Performs what the arguments ask for.
fn perform<R: Runtime + AllocGlobal>(rt: &R, environment: Environment, args: &[String]) -> Status {
    match CommandLine::read(rt.alloc(), args) {
        Ok(CommandLine::Answer(job)) => match job.log {
            Some(options) => answer_log(rt, environment, job, options),
            None => answer_job(rt, environment, job),
        },
        Ok(CommandLine::Print(text)) => texts::print(rt, &text),
        Err(wrong) => reject(rt, &wrong),
    }
}

/// Returns the arguments of the process, the name of the program first.
fn arguments<R: Runtime + AllocGlobal>(rt: &R) -> io::Result<Vec<String>> {
    Ok(env::args(rt)?.collect(rt.alloc())?)
}

/// Performs what the arguments of the process ask for, and returns its exit status.
pub fn run<R: Runtime + AllocGlobal + RandomSource>(rt: &R, terminals: Terminals) -> ExitCode {
    let status = match arguments(rt) {
        Ok(args) => {
            let seed = seed(rt);
            perform(rt, Environment { seed, terminals }, args.as_slice())
        }
        Err(error) if error.kind() == io::ErrorKind::OutOfMemory => out_of_memory(rt),
        Err(_) => failed(rt, "the arguments are not UTF-8", Status::WrongArguments),
    };
    ExitCode::from(status as u8)
}
