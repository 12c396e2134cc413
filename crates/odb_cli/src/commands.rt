//! The commands and their arguments: a row for each command, in which each name is written once. The parser of
//! the command line, the completions and the manual page are made of the rows, and the command line is read by
//! their names.

use crate::argument::{Argument, Kind, Row};
use crate::names;

/// The names of the rows, which `help` takes.
const COMMANDS: &[&str] = &[
    names::CHECK,
    names::PLAN,
    names::CANON,
    names::REPLAY,
    names::MATCH,
    names::RUN,
    names::REST,
    names::EXPLAIN,
    names::COMPLETIONS,
    names::MAN,
    names::HELP,
];

pub const VERSION: &str = "0.2.0";

pub const PROGRAM_ABOUT: &str =
    "Checks OData JSON batch requests. Without a command it checks standard input.";

pub const PROGRAM_NOTES: &str =
    "Exit status: 0 for a result, 1 for a fault of a document, 2 for wrong \
    arguments, 3 if a file or the output fails, 4 if out of memory";

/// The option that `clap` adds to each command after its own, and to the program before `SHOW_VERSION`.
pub const SHOW_HELP: Argument = Argument {
    id: names::HELP,
    kind: Kind::ShortFlag('h'),
    help: "Print help",
};

pub const SHOW_VERSION: Argument = Argument {
    id: "version",
    kind: Kind::ShortFlag('V'),
    help: "Print version",
};

const FILE: Argument = Argument {
    id: names::FILE,
    kind: Kind::Optional,
    help: "The batch document, or with --lines the log; standard input if it is absent or `-`",
};

const BATCH: Argument = Argument {
    kind: Kind::Batch,
    help: "The batch document, or with --lines the log, which may be absent; `-` is standard input",
    ..FILE
};

const OUTCOMES: Argument = Argument {
    id: names::OUTCOMES,
    kind: Kind::Second,
    help: "The document of recorded outcomes; `-` is standard input",
};

const RESPONSES: Argument = Argument {
    id: names::RESPONSES,
    kind: Kind::Second,
    help: "The response document of the service; `-` is standard input",
};

const EVENTS: Argument = Argument {
    id: names::EVENTS,
    kind: Kind::Second,
    help: "The document of recorded events; `-` is standard input",
};

const JSON: Argument = Argument {
    id: names::JSON,
    kind: Kind::Flag,
    help: "Print the result, or the fault, as one line of JSON",
};

const FAULT: Argument = Argument {
    help: "Print the fault of a refused document as one line of JSON",
    ..JSON
};

const ALL: Argument = Argument {
    id: names::ALL,
    kind: Kind::Flag,
    help: "Print all faults of the first phase that has any",
};

const DOT: Argument = Argument {
    id: names::DOT,
    kind: Kind::FlagWithout(&[names::JSON, names::LINES, names::WHERE]),
    help: "Print the plan as a drawing, in the language DOT of Graphviz",
};

const FULL: Argument = Argument {
    id: names::FULL,
    kind: Kind::FlagWithout(&[names::DOT]),
    help: "Print the plan as JSON, with what is to be sent of each request and where its body is",
};

const ORDER: Argument = Argument {
    id: names::ORDER,
    kind: Kind::Choice("ORDER", &[names::FIRST, names::LAST, names::WIDE]),
    help: "Scheduling order: `first` and `last` finish each request before they start \
        the next, by position; `wide` starts everything it can [default: first]",
};

const STOP: Argument = Argument {
    id: names::STOP,
    kind: Kind::Flag,
    help: "Start nothing more after a status from 400 to 599",
};

const LEFT_OUT: Argument = Argument {
    help: "Read each request without a response as answered 424 if a response has a status from 400 to 599",
    ..STOP
};

const STRICT: Argument = Argument {
    id: names::STRICT,
    kind: Kind::Flag,
    help: "Ask also that some finished run answers these statuses: F76 to F78",
};

const UNITS: Argument = Argument {
    id: names::UNITS,
    kind: Kind::FlagOf(names::STRICT),
    help: "The run may also send a group as one, so that its requests start together",
};

const WIDTH: Argument = Argument {
    id: names::WIDTH,
    kind: Kind::Value("N"),
    help: "How many requests may run at once, from 1 to 10000 [default: 10000]",
};

const TRACE: Argument = Argument {
    id: names::TRACE,
    kind: Kind::FlagWithout(&[names::LINES]),
    help: "Print the steps, and what has to be undone, before the response",
};

const LINES: Argument = Argument {
    id: names::LINES,
    kind: Kind::Flag,
    help: "Read a batch from each line, and print a line for each",
};

const PAIRS: Argument = Argument {
    help: "Read a batch and its second document from each line, as an array of both, and print a line for each",
    ..LINES
};

const FLUSH: Argument = Argument {
    id: names::FLUSH,
    kind: Kind::FlagOf(names::LINES),
    help: "Write each line at once",
};

const NUMBER: Argument = Argument {
    id: names::NUMBER,
    kind: Kind::FlagOf(names::LINES),
    help: "Print the number of its line with each fault, counted from 1",
};

const WHERE: Argument = Argument {
    id: names::WHERE,
    kind: Kind::Flag,
    help: "Print FILE:LINE:COLUMN: before each fault; with --json its line, its column and its offset",
};

const QUIET: Argument = Argument {
    id: names::QUIET,
    kind: Kind::ShortFlag('q'),
    help: "Print neither a result nor a fault; only the exit status reports it",
};

const CODE: Argument = Argument {
    id: names::CODE,
    kind: Kind::Any,
    help: "The codes or the names of faults, in any case; without one, all faults are listed",
};

const SHELL: Argument = Argument {
    id: names::SHELL,
    kind: Kind::OneOf(&[names::BASH, names::ZSH, names::FISH]),
    help: "The shell",
};

const COMMAND: Argument = Argument {
    id: names::COMMAND,
    kind: Kind::MaybeOneOf(COMMANDS),
    help: "The command",
};

const CHECK: Row = Row {
    name: names::CHECK,
    about: "Check a batch: print that it is accepted, or its first fault",
    usage: "odb_batch check [OPTIONS] [FILE]",
    notes: "Example: odb_batch check batch.json\n\n\
        Exit status: 0 for a batch that is accepted, 1 for one with a fault, 2 for wrong arguments, \
        3 if a file or the output fails, 4 if out of memory",
    arguments: &[FILE, ALL, JSON, LINES, FLUSH, NUMBER, WHERE, QUIET],
};

const PLAN: Row = Row {
    name: names::PLAN,
    about: "Plan a batch: print a line per request, with its level, its group and its dependencies",
    usage: "odb_batch plan [OPTIONS] [FILE]",
    notes: "Example: odb_batch plan batch.json\n\n\
        Exit status: 0 for a plan, 1 for a fault of the batch, 2 for wrong arguments, \
        3 if a file or the output fails, 4 if out of memory",
    arguments: &[FILE, JSON, FULL, DOT, LINES, FLUSH, NUMBER, WHERE, QUIET],
};

const CANON: Row = Row {
    name: names::CANON,
    about: "Print the canonical text of a batch: equal texts mean equal batches",
    usage: "odb_batch canon [OPTIONS] [FILE]",
    notes: "Example: odb_batch canon batch.json\n\n\
        Exit status: 0 for a text, 1 for a fault of the batch or a number that is not whole, \
        2 for wrong arguments, 3 if a file or the output fails, 4 if out of memory",
    arguments: &[FILE, FAULT, LINES, FLUSH, NUMBER, WHERE, QUIET],
};

const REPLAY: Row = Row {
    name: names::REPLAY,
    about: "Replay a batch by recorded outcomes: print its response",
    usage: "odb_batch replay [OPTIONS] <FILE> <OUTCOMES>\n       \
        odb_batch replay [OPTIONS] --lines [FILE]",
    notes: "Example: odb_batch replay batch.json outcomes.json --order wide --trace\n\n\
        Exit status: 0 for a response, 1 for a fault of a document or a request without an outcome, \
        2 for wrong arguments, 3 if a file or the output fails, 4 if out of memory",
    arguments: &[
        BATCH, OUTCOMES, ORDER, STOP, WIDTH, TRACE, FAULT, PAIRS, FLUSH, NUMBER, WHERE, QUIET,
    ],
};

const MATCH: Row = Row {
    name: names::MATCH,
    about: "Match a service's responses against a batch: print the status of each request",
    usage: "odb_batch match [OPTIONS] <FILE> <RESPONSES>\n       \
        odb_batch match [OPTIONS] --lines [FILE]",
    notes: "Example: odb_batch match batch.json responses.json\n\n\
        Exit status: 0 for responses that fit, 1 for a fault of a document or responses that do not fit, \
        2 for wrong arguments, 3 if a file or the output fails, 4 if out of memory",
    arguments: &[
        BATCH, RESPONSES, LEFT_OUT, STRICT, UNITS, JSON, PAIRS, FLUSH, NUMBER, WHERE, QUIET,
    ],
};

const RUN: Row = Row {
    name: names::RUN,
    about: "Run a batch by recorded events: print its response, or the first event that may not come",
    usage: "odb_batch run [OPTIONS] <FILE> <EVENTS>\n       \
        odb_batch run [OPTIONS] --lines [FILE]",
    notes: "Example: odb_batch run batch.json events.json --stop\n\n\
        Exit status: 0 for a response, 1 for a fault of a document, an event that may not come or an \
        unfinished run, 2 for wrong arguments, 3 if a file or the output fails, 4 if out of memory",
    arguments: &[
        BATCH, EVENTS, STOP, WIDTH, FAULT, PAIRS, FLUSH, NUMBER, WHERE, QUIET,
    ],
};

const REST: Row = Row {
    name: names::REST,
    about: "Print what may be sent again of a batch by a service's responses, as a batch of its own",
    usage: "odb_batch rest [OPTIONS] <FILE> <RESPONSES>\n       \
        odb_batch rest [OPTIONS] --lines [FILE]",
    notes: "Example: odb_batch rest batch.json responses.json\n\n\
        Exit status: 0 for a batch, which may be empty, 1 for a fault of a document, responses that do not fit or \
        a reference without a Location, 2 for wrong arguments, 3 if a file or the output fails, 4 if out of memory",
    arguments: &[
        BATCH, RESPONSES, LEFT_OUT, FAULT, PAIRS, FLUSH, NUMBER, WHERE, QUIET,
    ],
};

pub const EXPLAIN: Row = Row {
    name: names::EXPLAIN,
    about: "Explain faults: what each means, the reason for it, and how to repair it",
    usage: "odb_batch explain [CODE]...",
    notes: "Example: odb_batch explain F41\n\n\
        Exit status: 0 for a text, 2 for a fault that does not exist or other wrong arguments, \
        3 if the output fails, 4 if out of memory",
    arguments: &[CODE],
};

const COMPLETIONS: Row = Row {
    name: names::COMPLETIONS,
    about: "Print a completion script for a shell",
    usage: "odb_batch completions <SHELL>",
    notes: "Example: source <(odb_batch completions bash)\n\n\
        Exit status: 0 for a script, 2 for wrong arguments, 3 if the output fails, 4 if out of memory",
    arguments: &[SHELL],
};

const MAN: Row = Row {
    name: names::MAN,
    about: "Print the manual page, as roff",
    usage: "odb_batch man",
    notes: "Example: odb_batch man | man -l -\n\n\
        Exit status: 0 for a page, 2 for wrong arguments, 3 if the output fails, 4 if out of memory",
    arguments: &[],
};

const HELP: Row = Row {
    name: names::HELP,
    about: "Print this help, or the help of a command",
    usage: "odb_batch help [COMMAND]",
    notes: "Example: odb_batch help plan\n\n\
        Exit status: 0 for a text, 2 for a command that does not exist or other wrong arguments, \
        3 if the output fails, 4 if out of memory",
    arguments: &[COMMAND],
};

/// Returns the commands, in the order in which help shows them. As a constant the table would be part of each function
/// that goes over it, and of its proof.
pub fn rows() -> [Row; 11] {
    [
        CHECK,
        PLAN,
        CANON,
        REPLAY,
        MATCH,
        RUN,
        REST,
        EXPLAIN,
        COMPLETIONS,
        MAN,
        HELP,
    ]
}
