//! Shows the progress of a log on standard error.

ghost use Rattle.odb_engine.specs.lines.Numbers.{OfNumbered};

use odb_engine::{EachLine, Ended, EngineFault, LineCommand};
use odb_io::Output;
use std::alloc::Global;
use std::cell::Cell;
use std::io;
use std::io::Write;
use std::rt::Runtime;
use std::time::Instant;

/// How many lines were answered, how many of them were refused, and how many bytes they have.
#[derive(Clone, Copy)]
struct Counts {
    lines: u64,
    refused: u64,
    bytes: u64,
}

/// A command on each line that shows its progress once a second, in one line that it overwrites.
#[derive(Drop)]
pub struct Watched<'r, 'n, R> {
    rt: &'r R,
    command: EachLine<'n>,
    begun: Instant,
    /// The second that was shown last, counted from the start.
    shown: Cell<u64>,
    counts: Cell<Counts>,
}

impl<'r, 'n, R: Runtime> Watched<'r, 'n, R> {
    /// Makes a command that shows its progress, counted from now.
    ///
    /// # Errors
    ///
    /// If the clock cannot be read.
    pub fn new(rt: &'r R, command: EachLine<'n>) -> io::Result<Self> {
        let counts = Counts {
            lines: 0,
            refused: 0,
            bytes: 0,
        };
        Ok(Watched {
            rt,
            command,
            begun: Instant::now(rt)?,
            shown: Cell::new(0),
            counts: Cell::new(counts),
        })
    }

    /// Counts a line of so many bytes.
    fn count(&self, bytes: usize, is_refused: bool) {
        let Counts {
            lines,
            refused,
            bytes: before,
        } = self.counts.get();
        self.counts.set(Counts {
            lines: lines.wrapping_add(1),
            refused: refused.wrapping_add(is_refused as u64),
            bytes: before.wrapping_add(bytes as u64),
        });
    }

    /// Overwrites the line of counts. A failure to write it is ignored.
    fn show(&self, seconds: u64) {
        let Counts {
            lines,
            refused,
            bytes,
        } = self.counts.get();
        let tenths = bytes / 100_000 / seconds.max(1);
        let (whole, tenth) = (tenths / 10, tenths % 10);
        let _ = eprint!(self.rt; "\r{lines} lines, {refused} refused, {whole}.{tenth} MB/s   ");
    }

    /// Shows the counts if another second has begun.
    fn look(&self) {
        if let Ok(passed) = self.begun.elapsed(self.rt) {
            let second = passed.as_secs();
            if second > self.shown.get() {
                self.shown.set(second);
                self.show(second);
            }
        }
    }

    /// Shows the last counts and ends the line, if there is one.
    pub fn end(&self) {
        let second = self.shown.get();
        if second > 0 {
            self.show(second);
            let _ = eprintln!(self.rt);
        }
    }
}

impl<'r, 'n, R: Runtime> LineCommand for Watched<'r, 'n, R> {
    ghost writes = { λ self number line. OfNumbered self.command.setup.faults.numbered
        self.command.setup.faults.located self.command.name.now self.command.task number line
        self.command.setup.form };

    fn answer<W: Write>(
        &self,
        alloc: Global,
        number: usize,
        line: &[u8],
        output: &mut Output<W>,
    ) -> Result<Ended, EngineFault> {
        let answered = self.command.answer(alloc, number, line, output);
        self.count(line.len(), answered == Ok(Ended::Refused));
        self.look();
        answered
    }
}
