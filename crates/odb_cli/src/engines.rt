//! The commands over documents: each opens its files and does its task.

ghost use Rattle.std.specs.Prelude.{◌≡◌};

use crate::command_line::Job;
use crate::devices::{open, writer_of};
use crate::ending::{Status, finish};
use odb_check::Seed;
use odb_engine::{Disposal, Faults, Form, Names, Setup, answer_documents};
use odb_io::{Input, Output};
use std::rt::Runtime;

/// Which output streams of the process are terminals.
#[derive(Clone, Copy, Drop)]
pub struct Terminals {
    /// Then each answer to a line is written at once.
    pub stdout: bool,
    /// Then the progress of a log is shown.
    pub stderr: bool,
}

/// What a command needs to know of its process.
#[derive(Clone, Copy, Drop)]
pub struct Environment {
    /// The seed of the tables of names.
    pub seed: Seed,
    pub terminals: Terminals,
}

impl Environment {
    /// Returns the setup of a task that writes in this form, and prints faults so. The process is about to exit, so what
    /// was read is not worth dropping.
    pub fn setup(self, form: Form, faults: Faults) -> Setup
        ensures form { result.form ≡ form }
        ensures faults { result.faults ≡ faults }
    {
        Setup {
            form,
            faults,
            seed: self.seed,
            disposal: Disposal::Leak,
        }
    }
}

/// Does a job on its documents. All files are opened before one is read.
pub fn answer_job<R: Runtime + AllocGlobal>(
    rt: &R,
    environment: Environment,
    job: Job<'_>,
) -> Status {
    let first = match open(rt, job.first) {
        Ok(document) => document,
        Err(status) => return status,
    };
    let second = match open(rt, job.second) {
        Ok(document) => document,
        Err(status) => return status,
    };
    let names = Names {
        batch: job.first.name(),
        second: job.second.name(),
    };
    let faults = Faults {
        numbered: false,
        located: job.located,
    };
    let ended = answer_documents(
        rt.alloc(),
        &mut Input::new(first),
        &mut Input::new(second),
        &mut Output::new(writer_of(rt, job.quiet)),
        names,
        job.task,
        environment.setup(job.form, faults),
    );
    finish(rt, ended)
}
