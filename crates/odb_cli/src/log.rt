//! The commands over a log: for each line of a file, or of standard input, they print a line.

ghost use Rattle.std.specs.Prelude.{◌≡◌, false};

use crate::command_line::{Job, LogOptions};
use crate::devices::{open, writer_of};
use crate::ending::{Status, finish, out_of_memory};
use crate::engines::{Environment, Terminals};
use crate::progress::Watched;
use odb_engine::{
    Disposal, EachLine, Ended, EngineFault, Faults, LineCommand, LineInput, Setup, answer_lines,
};
use odb_io::Output;
use std::alloc::Global;
use std::io::{BufWriter, Read, Write};
use std::rt::Runtime;

/// Size of the output buffer.
const BUFFER_BYTES: usize = 65_536;

/// Returns the command on each line of a log. It frees the memory of a line before the next one.
fn command_of<'n>(environment: Environment, job: Job<'n>, options: LogOptions) -> EachLine<'n>
    ensures task { result.task ≡ job.entry.task }
    ensures form { result.setup.form ≡ job.entry.form }
    ensures numbered { result.setup.faults.numbered ≡ options.numbered }
    ensures located { result.setup.faults.located ≡ job.entry.located }
{
    let faults = Faults {
        numbered: options.numbered,
        located: job.located,
    };
    EachLine {
        task: job.task,
        setup: Setup {
            disposal: Disposal::Drop,
            ..environment.setup(job.form, faults)
        },
        name: job.first.name(),
    }
}

/// Answers each line of a reader, and flushes the output at the end.
fn answer<R: Read + Drop, W: Write, C: LineCommand>(
    alloc: Global,
    reader: R,
    output: &mut Output<W>,
    command: &C,
    flush: bool,
) -> Result<Ended, EngineFault>
    requires { output.old.failed ≡ false }
{
    let mut input = LineInput::new(alloc, reader)?;
    let ended = answer_lines(alloc, &mut input, output, command, flush);
    if !output.failed() {
        output.flush()?;
    }
    ended
}

/// Answers each line of a reader, and shows the progress if only standard error is a terminal and answers
/// are printed.
fn answer_watched<R: Runtime + AllocGlobal, I: Read + Drop, W: Write>(
    rt: &R,
    environment: Environment,
    job: Job<'_>,
    options: LogOptions,
    reader: I,
    output: &mut Output<W>,
) -> Result<Ended, EngineFault>
    requires { output.old.failed ≡ false }
{
    let Terminals { stdout, stderr } = environment.terminals;
    let flush = options.flush || stdout;
    if stderr && !stdout && !job.quiet {
        if let Ok(watched) = Watched::new(rt, command_of(environment, job, options)) {
            let ended = answer(rt.alloc(), reader, output, &watched, flush);
            watched.end();
            return ended;
        }
    }
    let command = command_of(environment, job, options);
    answer(rt.alloc(), reader, output, &command, flush)
}

/// Does a job on each line of a log, in order.
pub fn answer_log<R: Runtime + AllocGlobal>(
    rt: &R,
    environment: Environment,
    job: Job<'_>,
    options: LogOptions,
) -> Status {
    let reader = match open(rt, job.first) {
        Ok(reader) => reader,
        Err(status) => return status,
    };
    match BufWriter::with_capacity(rt.alloc(), BUFFER_BYTES, writer_of(rt, job.quiet)) {
        Ok(writer) => {
            let mut output = Output::new(writer);
            let ended = answer_watched(rt, environment, job, options, reader, &mut output);
            finish(rt, ended)
        }
        Err(_) => out_of_memory(rt),
    }
}
