//! `odb_batch`: checks batch requests in the JSON form of OData JSON Format 4.01. `odb_cli` is its command line.
#![tactic(auto)]

use odb_cli::Terminals;
use std::io::IsTerminal;
use std::process::ExitCode;

fn main(rt: HostRuntime) -> ExitCode {
    let terminals = Terminals {
        stdout: rt.stdout().is_terminal(),
        stderr: rt.stderr().is_terminal(),
    };
    odb_cli::run(&rt, terminals)
}
