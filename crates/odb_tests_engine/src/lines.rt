//! The lines of an input that comes in pieces, answered by a command that writes how long each is.

ghost use Rattle.std.specs.Prelude.{◌≡◌, false, IfSome};
ghost use Rattle.odb_engine.specs.lines.Answers.{AnswersEach, OfAnyLine};
ghost use Rattle.odb_engine.specs.lines.Lines.{lines_of};
ghost use Rattle.odb_testing.specs.Readings.{AreOne};

use odb_engine::lines::laws::one_text;
use odb_engine::{
    Command, EachLine, Ended, EngineFault, Form, LineCommand, LineInput, Setup, Task, answer_lines,
    laws,
};
use odb_io::Output;
use odb_sched::Mode;
use odb_testing::Two;
use odb_testing::devices::{ENOUGH, Narrow, Pace, Slow, TURNS};
use std::alloc::{AllocError, Global};
use std::cell::Cell;
use std::io::{self, Read, Write, repeat};

/// How a log ended, and what was written.
type Written = (Ended, Vec<u8>);

/// Writes how long a line is; refuses an empty one.
#[derive(Drop)]
struct Length;

impl LineCommand for Length {
    ghost use Rattle.odb_tests_engine.specs.Lengths.{WritesLength};

    ghost writes = { λ _ _. WritesLength };

    fn answer<W: Write>(
        &self,
        alloc: Global,
        _number: usize,
        line: &[u8],
        output: &mut Output<W>,
    ) -> Result<Ended, EngineFault> {
        let text = format!(in alloc; "{}\n", line.len())?;
        output.put_text(&text)?;
        Ok(if line.is_empty() {
            Ended::Refused
        } else {
            Ended::Done
        })
    }
}

/// What is read, what is written of it, and how that ends.
const EXAMPLES: [(&str, &str, Ended); 8] = [
    ("", "", Ended::Done),
    ("\n", "0\n", Ended::Refused),
    ("a", "1\n", Ended::Done),
    ("ab\n", "2\n", Ended::Done),
    ("a\r\nbcd", "2\n3\n", Ended::Done),
    ("ab\n\nabc", "2\n0\n3\n", Ended::Refused),
    ("\n\nabcd\n", "0\n0\n4\n", Ended::Refused),
    ("abcdefghij\nabcdefghijk\nl\n", "10\n11\n1\n", Ended::Done),
];

/// How the lines of a text end.
type End = Result<Ended, EngineFault>;

/// Whether the lines of a text are answered so by devices that work at these paces.
fn are_written(
    alloc: Global,
    text: &str,
    [reads, writes]: [Pace; 2],
    flush: bool,
    (written, ended): (&str, End),
) -> bool {
    let Ok(mut input) = LineInput::new(alloc, Slow::new(text.as_bytes(), reads)) else {
        return false;
    };
    let mut output = Output::new(Narrow::new(alloc, writes));
    let end = answer_lines(alloc, &mut input, &mut output, &Length, flush);
    end == ended && output.into_inner().bytes.as_slice() == written.as_bytes()
}

/// Whether a text is answered so by devices of which none fails.
fn are_answered(alloc: Global, (text, written, ended): (&str, &str, Ended), flush: bool) -> bool {
    for turns in &TURNS {
        let paces = [Pace::steady(*turns); 2];
        if !are_written(alloc, text, paces, flush, (written, Ok(ended))) {
            return false;
        }
    }
    true
}

#[test]
fn each_line_is_answered(rt: HostRuntime) {
    for example in &EXAMPLES {
        assert!(rt;
            are_answered(rt.alloc(), *example, false) && are_answered(rt.alloc(), *example, true)
        );
    }
}

/// A batch, an empty line, and a batch whose request has no identifier.
const LOG: &str = r#"{"requests":[{"id":"1","method":"get","url":"A"}]}

{"requests":[{"method":"get","url":"A"}]}
"#;

/// Returns the task on each line, whose answers have this form.
fn on_each_line(task: Task, form: Form) -> EachLine<'static>
    ensures task { result.task ≡ task }
    ensures form { result.setup.form ≡ form }
    ensures numbered { result.setup.faults.numbered ≡ false }
    ensures located { result.setup.faults.located ≡ false }
{
    EachLine {
        task,
        setup: Setup {
            form,
            ..Setup::plain()
        },
        name: "log",
    }
}

fn written<C: LineCommand>(alloc: Global, log: &[u8], command: &C) -> Option<Written>
    ensures { IfSome result (λ it. AnswersEach (OfAnyLine (C.writes command.now)) (lines_of log.now)
        it.0 it.1.items) }
{
    let mut input = LineInput::new(alloc, log).ok()?;
    let mut output = Output::new(Vec::new(alloc));
    match answer_lines(alloc, &mut input, &mut output, command, false) {
        Ok(ended) => Some((ended, output.into_inner())),
        Err(_) => None,
    }
}

fn written_twice(alloc: Global, log: &[u8], task: Task, form: Form) -> Two<Written>
    ensures { AreOne result.0 result.1 }
{
    let command = on_each_line(task, form);
    laws::one_text();
    one_text(&command);
    (written(alloc, log, &command), written(alloc, log, &command))
}

fn is_written_again(alloc: Global, log: &[u8], task: Task, form: Form) -> bool {
    match &written_twice(alloc, log, task, form) {
        (Some(one), Some(other)) => one == other,
        _ => false,
    }
}

/// The tasks of which a log is written in each form.
const TASKS: [Task; 4] = [
    Task::Check { all: false },
    Task::Check { all: true },
    Task::Plan { full: false },
    Task::Match {
        mode: Mode::Continue,
        strict: None,
    },
];

#[test]
fn the_same_text_is_written_again(rt: HostRuntime) {
    for task in &TASKS {
        assert!(rt;
            is_written_again(rt.alloc(), LOG.as_bytes(), *task, Form::Lines)
                && is_written_again(rt.alloc(), LOG.as_bytes(), *task, Form::Json)
        );
    }
}

/// How many bytes are read of `ab`, an empty line, `c` and `de`, and what is written of them.
const CUT: [(usize, &str); 7] = [
    (0, ""),
    (2, ""),
    (3, "2\n"),
    (4, "2\n0\n"),
    (5, "2\n0\n"),
    (6, "2\n0\n1\n"),
    (8, "2\n0\n1\n"),
];

/// Whether a call of a device fails, and this is written.
fn fails(alloc: Global, [reads, writes]: [usize; 2], fault: EngineFault, written: &str) -> bool {
    let paces = [Pace::bytewise(reads), Pace::bytewise(writes)];
    are_written(alloc, "ab\n\nc\nde", paces, false, (written, Err(fault)))
}

#[test]
fn the_lines_before_a_failed_read_are_answered(rt: HostRuntime) {
    for (calls, written) in &CUT {
        assert!(rt; fails(rt.alloc(), [*calls, ENOUGH], EngineFault::Read, written));
    }
}

#[test]
fn a_failed_write_ends_it(rt: HostRuntime) {
    let written = "2\n0\n1\n2\n";
    for calls in 0..written.len() {
        assert!(rt;
            fails(
                rt.alloc(),
                [ENOUGH, calls],
                EngineFault::Write,
                &written[..calls]
            )
        );
    }
}

/// Whether a line of so many bytes and a short one are answered so.
fn is_cut(alloc: Global, count: u64, written: &str) -> bool {
    let reader = repeat(b'a').take(count).chain("\nab".as_bytes());
    let Ok(mut input) = LineInput::new(alloc, reader) else {
        return false;
    };
    let mut output = Output::new(Vec::new(alloc));
    let ended = answer_lines(alloc, &mut input, &mut output, &Length, false);
    ended == Ok(Ended::Done) && output.into_inner().as_slice() == written.as_bytes()
}

/// How many bytes a line has, and what is written of it and a short one.
const LONG: [(u64, &str); 3] = [
    (16_777_216, "16777216\n2\n"),
    (16_777_217, "16777217\n2\n"),
    (17_000_000, "16777217\n2\n"),
];

#[test]
fn a_long_line_is_cut(rt: HostRuntime) {
    for (count, written) in &LONG {
        assert!(rt; is_cut(rt.alloc(), *count, written));
    }
}

/// Sends three bytes at a time, or all at once, and notes whether it was kept waiting for an answer.
#[derive(Drop)]
struct Peer<'a> {
    left: &'a [u8],
    count: usize,
    is_held: &'a Cell<bool>,
    was_kept_waiting: &'a Cell<bool>,
}

impl Read for Peer<'_> {
    fn read(&mut self, buffer: &mut [u8]) -> io::Result<usize> {
        if self.is_held.get() {
            self.was_kept_waiting.set(true);
        }
        let count = self.left.len().min(buffer.len()).min(self.count);
        let (given, left) = self.left.split_at(count);
        buffer[..count].copy_from_slice(given);
        self.left = left;
        Ok(count)
    }
}

/// Holds what is written until it is flushed, and notes whether it held one answer as the next came.
#[derive(Drop)]
struct Holding<'a> {
    is_held: &'a Cell<bool>,
    were_gathered: &'a Cell<bool>,
}

impl Write for Holding<'_> {
    fn write(&mut self, bytes: &[u8]) -> io::Result<usize> {
        if self.is_held.replace(true) {
            self.were_gathered.set(true);
        }
        Ok(bytes.len())
    }

    fn flush(&mut self) -> io::Result<()> {
        self.is_held.set(false);
        Ok(())
    }
}

/// Whether a peer that sends so many bytes at a time was kept waiting, and whether answers were
/// gathered.
fn passing(alloc: Global, count: usize, flush: bool) -> Result<(bool, bool), AllocError> {
    let is_held = Cell::new(false);
    let was_kept_waiting = Cell::new(false);
    let were_gathered = Cell::new(false);
    let reader = Peer {
        left: "ab\nab\na\nab\n".as_bytes(),
        count,
        is_held: &is_held,
        was_kept_waiting: &was_kept_waiting,
    };
    let writer = Holding {
        is_held: &is_held,
        were_gathered: &were_gathered,
    };
    let mut input = LineInput::new(alloc, reader)?;
    let _ended = answer_lines(alloc, &mut input, &mut Output::new(writer), &Length, flush);
    Ok((was_kept_waiting.get(), were_gathered.get()))
}

/// How many bytes are sent at a time, whether each answer is flushed, and whether they are gathered.
const PASSING: [(usize, bool, bool); 3] = [(3, false, false), (11, false, true), (11, true, false)];

#[test]
fn what_was_answered_is_passed_on_before_a_read(rt: HostRuntime) {
    for (count, flush, are_gathered) in &PASSING {
        assert!(rt; passing(rt.alloc(), *count, *flush) == Ok((false, *are_gathered)));
    }
}
