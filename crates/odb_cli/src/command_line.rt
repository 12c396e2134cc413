//! What the arguments ask for.

ghost use Rattle.std.specs.Prelude.{◌≡◌, ℕ, None, codes, Contains, IfErr, IfOk, IfSome};
ghost use Rattle.odb_cli.specs.Options.{Asks, AsksForm, AsksJob, AsksLog, AsksMode, AsksOrder, AsksPolicy, AsksStrictness, AsksTask};
ghost use Rattle.odb_cli.specs.Options.{IsRefused, IsWidth, TellsFlag, task_names, word_after};

use crate::names;
use crate::parser::program;
use clap::{ArgMatches, Error};
use odb_engine::{Form, Task};
use odb_reply::Strictness;
use odb_sched::{MAX_WIDTH, Mode, Order, Policy};
use std::alloc::{AllocError, Global};

/// Where a document or a log is read.
#[derive(Clone, Copy)]
pub enum Origin<'a> {
    /// There is no such document.
    Nowhere,
    StandardInput,
    File(&'a str),
}

impl<'a> Origin<'a> {
    /// Returns its name in front of a fault: the path as it was given.
    pub fn name(self) -> &'a str {
        match self {
            Origin::Nowhere => "",
            Origin::StandardInput => "<stdin>",
            Origin::File(path) => path,
        }
    }
}

/// How a log is answered.
#[derive(Clone, Copy)]
pub struct LogOptions {
    /// Whether each answer is written at once.
    pub flush: bool,
    /// Whether each fault has the number of its line.
    pub numbered: bool,
}

/// A command over documents.
#[derive(Clone, Copy)]
pub struct Job<'a> {
    /// What is done on the documents, or on each line of the log.
    pub task: Task,
    /// Where the batch is read, or the log.
    pub first: Origin<'a>,
    /// Where the second document is read, if the task takes one.
    pub second: Origin<'a>,
    /// The form in which a result or a fault is printed.
    pub form: Form,
    /// Whether each fault is printed with where it is in its document.
    pub located: bool,
    /// Whether nothing is printed: only the exit status reports it.
    pub quiet: bool,
    /// How a log is answered, if the task is done on each of its lines.
    pub log: Option<LogOptions>,
}

/// A text that depends on no document.
#[derive(Drop)]
pub enum Text<'a> {
    /// The list of all faults.
    Faults,
    /// The explanations of the faults of these codes or names.
    Explanations(Vec<&'a str>),
    /// The completions for the shell of this name.
    Completions(&'a str),
    /// The manual page.
    Manual,
    /// The help of a command, or of the program.
    Help(Option<&'a str>),
}

/// What the command line asks for.
#[derive(Drop)]
pub enum CommandLine<'a> {
    Answer(Job<'a>),
    Print(Text<'a>),
}

/// Why the command line was rejected.
#[derive(Drop)]
pub enum BadArguments {
    /// `clap` rejects it, or prints its help or the version.
    Arguments(Error),
    /// The order is none of the three.
    Order,
    /// The width is not a decimal number from 1 to 10,000.
    Width,
    /// Both documents are standard input.
    StandardInputTwice,
}

impl From<AllocError> for BadArguments {
    fn from(error: AllocError) -> Self {
        BadArguments::Arguments(Error::from(error))
    }
}

/// Parses a width: decimal digits for a number from 1 to 10,000.
fn width_of(text: &str) -> Option<u32>
    ensures some { IfSome result (IsWidth text.now) }
    ensures none { result ≡ None → (width : ℕ) → ¬ (IsWidth text.now width) }
{
    if text.as_bytes().first() == Some(&b'+') {
        return None;
    }
    let width = text.parse::<u32>().ok()?;
    (1..=MAX_WIDTH).contains(&width).then_some(width)
}

/// Returns whether this option without a value was given.
fn flag(args: &ArgMatches<'_>, name: &str) -> bool
    ensures { TellsFlag args.now name.now result }
{
    args.get_flag(name)
}

/// Returns whether an error stops the run, or the service.
fn mode_of(args: &ArgMatches<'_>) -> Mode
    ensures { AsksMode args.now result }
{
    if flag(args, names::STOP) {
        Mode::Stop
    } else {
        Mode::Continue
    }
}

/// Returns which runs have to answer the statuses of a match, if that is asked.
fn strictness_of(args: &ArgMatches<'_>) -> Option<Strictness>
    ensures { AsksStrictness args.now result }
{
    if !flag(args, names::STRICT) {
        None
    } else if flag(args, names::UNITS) {
        Some(Strictness::Units)
    } else {
        Some(Strictness::Requests)
    }
}

/// Returns the policy that the options of a run ask for.
fn policy_of(args: &ArgMatches<'_>) -> Result<Policy, BadArguments>
    ensures ok { IfOk result (AsksPolicy args.now) }
    ensures err { IfErr result (IsRefused args.now) }
{
    let mode = mode_of(args);
    let Some(text) = args.get_str(names::WIDTH) else {
        return Ok(Policy::free(mode));
    };
    let width = width_of(text).ok_or(BadArguments::Width)?;
    Policy::new(mode, width).ok_or(BadArguments::Width)
}

/// Returns the order that the options of a replay ask for.
fn order_of(args: &ArgMatches<'_>) -> Result<Order, BadArguments>
    ensures ok { IfOk result (AsksOrder (word_after args.now (codes "order"))) }
    ensures err { IfErr result (IsRefused args.now) }
{
    match args.get_str(names::ORDER) {
        None | Some(names::FIRST) => Ok(Order::First),
        Some(names::LAST) => Ok(Order::Last),
        Some(names::WIDE) => Ok(Order::Wide),
        Some(_) => Err(BadArguments::Order),
    }
}

/// Returns the task of the command of this name, or `None` if it is not a command over documents.
fn task_of(name: &str, args: &ArgMatches<'_>) -> Result<Option<Task>, BadArguments>
    ensures some { IfOk result (λ found. IfSome found (AsksTask args.now name.now)) }
    ensures none { IfOk result (λ found. found ≡ None → ¬ (Contains task_names name.now)) }
    ensures err { IfErr result (IsRefused args.now) }
{
    let task = match name {
        names::CHECK => Task::Check {
            all: flag(args, names::ALL),
        },
        names::PLAN if flag(args, names::DOT) => Task::Draw,
        names::PLAN => Task::Plan {
            full: flag(args, names::FULL),
        },
        names::CANON => Task::Canon,
        names::MATCH => Task::Match {
            mode: mode_of(args),
            strict: strictness_of(args),
        },
        names::REST => Task::Rest {
            mode: mode_of(args),
        },
        names::REPLAY => Task::Replay {
            policy: policy_of(args)?,
            order: order_of(args)?,
            traced: flag(args, names::TRACE),
        },
        names::RUN => Task::Run {
            policy: policy_of(args)?,
        },
        _ => return Ok(None),
    };
    Ok(Some(task))
}

/// Returns where this argument is read: a file, or standard input if it is `-` or absent.
fn origin_of<'a>(args: &ArgMatches<'a>, id: &str) -> Origin<'a> {
    match args.get_str(id) {
        None | Some("-") => Origin::StandardInput,
        Some(path) => Origin::File(path),
    }
}

/// Returns where the second document is read, if the task takes one.
fn second_of<'a>(args: &ArgMatches<'a>, task: Task) -> Origin<'a> {
    match task {
        Task::Match { .. } | Task::Rest { .. } => origin_of(args, names::RESPONSES),
        Task::Replay { .. } => origin_of(args, names::OUTCOMES),
        Task::Run { .. } => origin_of(args, names::EVENTS),
        Task::Check { .. } | Task::Plan { .. } | Task::Draw | Task::Canon => Origin::Nowhere,
    }
}

/// Returns how a log is answered, if a command is asked for that.
fn log_of(args: &ArgMatches<'_>) -> Option<LogOptions>
    ensures { AsksLog args.now result }
{
    flag(args, names::LINES).then_some(LogOptions {
        flush: flag(args, names::FLUSH),
        numbered: flag(args, names::NUMBER),
    })
}

/// Returns the form of an answer. A plan, a match and a list of faults of a line of a log are always JSON, and so is
/// a full plan.
fn form_of(args: &ArgMatches<'_>, task: Task) -> Form
    ensures { AsksForm args.now task result }
{
    let json = flag(args, names::JSON);
    let in_log = flag(args, names::LINES);
    let has_json_alone = match task {
        Task::Plan { full: true } => true,
        Task::Check { all: true } | Task::Plan { .. } | Task::Match { .. } => in_log,
        _ => false,
    };
    if json || has_json_alone {
        Form::Json
    } else {
        Form::Lines
    }
}

/// Returns this task on the documents that the arguments name.
fn job_of<'a>(args: &ArgMatches<'a>, task: Task) -> Result<Job<'a>, BadArguments>
    ensures task { IfOk result (λ job. job.task ≡ task) }
    ensures job { IfOk result (AsksJob args.now) }
{
    let log = log_of(args);
    let job = Job {
        task,
        first: origin_of(args, names::FILE),
        second: match log {
            None => second_of(args, task),
            Some(_) => Origin::Nowhere,
        },
        form: form_of(args, task),
        located: flag(args, names::WHERE),
        quiet: flag(args, names::QUIET),
        log,
    };
    match (job.first, job.second) {
        (Origin::StandardInput, Origin::StandardInput) => Err(BadArguments::StandardInputTwice),
        _ => Ok(job),
    }
}

/// Returns the explanations that their command asks for.
fn explanations_of<'a>(alloc: Global, args: &ArgMatches<'a>) -> Result<Text<'a>, AllocError> {
    match args.get_strs(names::CODE) {
        Some(codes) => Ok(Text::Explanations(Vec::from_slice(alloc, codes)?)),
        None => Ok(Text::Faults),
    }
}

/// Returns the text that the command of this name prints.
fn text_of<'a>(alloc: Global, name: &str, args: &ArgMatches<'a>) -> Result<Text<'a>, AllocError> {
    match name {
        names::EXPLAIN => explanations_of(alloc, args),
        names::COMPLETIONS => {
            let shell = args.get_str(names::SHELL).unwrap_or(names::BASH);
            Ok(Text::Completions(shell))
        }
        names::MAN => Ok(Text::Manual),
        names::HELP => Ok(Text::Help(args.get_str(names::COMMAND))),
        _ => Ok(Text::Help(None)),
    }
}

/// Returns what the command of this name asks for.
fn asked_by<'a>(
    alloc: Global,
    name: &str,
    args: &ArgMatches<'a>,
) -> Result<CommandLine<'a>, BadArguments>
    ensures { IfOk result (Asks args.now name.now) }
{
    match task_of(name, args)? {
        Some(task) => Ok(CommandLine::Answer(job_of(args, task)?)),
        None => Ok(CommandLine::Print(text_of(alloc, name, args)?)),
    }
}

impl<'a> CommandLine<'a> {
    /// Reads the arguments of the program, its name first. Without a command it is a check of standard input.
    ///
    /// # Errors
    ///
    /// `Width` for a width that is not valid; `StandardInputTwice` for two documents on standard input;
    /// `Arguments` for all else that `clap` rejects, for help and the version, and out of memory.
    pub fn read(alloc: Global, args: &'a [String]) -> Result<CommandLine<'a>, BadArguments> {
        let found = program(alloc, args)?
            .try_get_matches_from(args)
            .map_err(BadArguments::Arguments)?;
        match found.subcommand() {
            Some((name, matches)) => asked_by(alloc, name, matches),
            None => {
                let check = Task::Check { all: false };
                Ok(CommandLine::Answer(job_of(&found, check)?))
            }
        }
    }
}
