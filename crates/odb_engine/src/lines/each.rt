//! A task on each line.

ghost use Rattle.odb_engine.specs.lines.Numbers.{OfNumbered};

use crate::ending::{Ended, EngineFault, end};
use crate::lines::command::LineCommand;
use crate::setup::Setup;
use crate::tasks::answer::answer_line;
use crate::tasks::task::Task;
use odb_io::Output;
use std::alloc::Global;
use std::io::Write;

/// What is done on each line. What it writes of a line is held in memory until it is whole.
#[derive(Clone, Copy, Drop)]
pub struct EachLine<'n> {
    pub task: Task,
    pub setup: Setup,
    /// The name of the log, as faults are printed with it that are located.
    pub name: &'n str,
}

impl<'n> LineCommand for EachLine<'n> {
    ghost writes = { λ self number line. OfNumbered self.setup.faults.numbered self.setup.faults.located
        self.name.now self.task number line self.setup.form };

    fn answer<W: Write>(
        &self,
        alloc: Global,
        number: usize,
        line: &[u8],
        output: &mut Output<W>,
    ) -> Result<Ended, EngineFault> {
        let answer = answer_line(alloc, self.name, number, line, self.task, self.setup)?;
        end(Ok(answer), output)
    }
}
