//! The names of commands, arguments, options and their values, each written once: the table of the commands has
//! them, and the command line is read by them.

pub const CHECK: &str = "check";

pub const PLAN: &str = "plan";

pub const CANON: &str = "canon";

pub const REPLAY: &str = "replay";

pub const MATCH: &str = "match";

pub const RUN: &str = "run";

pub const REST: &str = "rest";

pub const EXPLAIN: &str = "explain";

pub const COMPLETIONS: &str = "completions";

pub const MAN: &str = "man";

/// The name of a command, and of an option.
pub const HELP: &str = "help";

pub const FILE: &str = "FILE";

pub const OUTCOMES: &str = "OUTCOMES";

pub const RESPONSES: &str = "RESPONSES";

pub const EVENTS: &str = "EVENTS";

pub const CODE: &str = "CODE";

pub const SHELL: &str = "SHELL";

pub const COMMAND: &str = "COMMAND";

pub const ALL: &str = "all";

pub const JSON: &str = "json";

pub const DOT: &str = "dot";

pub const FULL: &str = "full";

pub const ORDER: &str = "order";

pub const STOP: &str = "stop";

pub const STRICT: &str = "strict";

pub const UNITS: &str = "units";

pub const WIDTH: &str = "width";

pub const TRACE: &str = "trace";

pub const LINES: &str = "lines";

pub const FLUSH: &str = "flush";

pub const NUMBER: &str = "number";

pub const WHERE: &str = "where";

pub const QUIET: &str = "quiet";

pub const FIRST: &str = "first";

pub const LAST: &str = "last";

pub const WIDE: &str = "wide";

pub const BASH: &str = "bash";

pub const ZSH: &str = "zsh";

pub const FISH: &str = "fish";
