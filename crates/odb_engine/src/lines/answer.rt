//! Answers the lines of an input, one after the other.

ghost use Rattle.std.specs.Prelude.{◌≡◌, ◌≢◌, ◌↔◌, ◌+◌, ◌^◌, ◌<◌, ◌≤◌, [], true, false, length, Err, IsTrue, Ok, OnOk};
ghost use Rattle.std.specs.Io.KnownBytes.{IsAtEnd, Keeps};
ghost use Rattle.odb_engine.specs.declared.ending.EngineFault.TheVariants as faults;
ghost use Rattle.odb_engine.specs.Inputs.{most_read};
ghost use Rattle.odb_engine.specs.lines.Answers.{AnswersLines, OfAnyLine, both};
ghost use Rattle.odb_engine.specs.lines.Sources.{left};
ghost use Rattle.odb_engine.specs.lines.Steps.{Advances, ahead};

use crate::ending::{Ended, EngineFault};
use crate::lines::command::LineCommand;
use crate::lines::input::LineInput;
use crate::lines::line::{answer_line, hold};
use memchr::memchr;
use odb_io::Output;
use std::alloc::Global;
use std::io::{Read, Write};

/// Returns how two answers end together: refused if one of them is.
fn both(first: Ended, second: Ended) -> Ended
    ensures { result ≡ both first second }
{
    match first {
        Ended::Done => second,
        Ended::Refused => Ended::Refused,
    }
}

/// Passes on what was answered, if the input may have to be waited for or `flush` is set, and reads
/// ahead. Returns whether anything is ahead.
fn look<R: Read, W: Write>(
    input: &mut LineInput<R>,
    output: &mut Output<W>,
    flush: bool,
) -> Result<bool, EngineFault>
    requires input { input.old.failed ≡ false }
    requires output { output.old.failed ≡ false }
    ensures read { (result ≡ Err EngineFault.Read) ↔ IsTrue input.new.failed }
    ensures write { (result ≡ Err EngineFault.Write) ↔ IsTrue output.new.failed }
    ensures memory { result ≢ Err EngineFault.OutOfMemory }
    ensures left { Keeps (left R.remaining input.old) (left R.remaining input.new) }
    ensures written { Keeps (W.contents output.old.writer) (W.contents output.new.writer) }
    ensures end { result ≡ Ok false → IsAtEnd (left R.remaining input.old) }
    ensures more { result ≡ Ok true → ahead input.new ≢ [] }
    ensures fills { OnOk result (input.new.fills ≡ input.old.fills + 1) }
    ensures bound { OnOk result (input.new.fills < 2 ^ 64) }
    ensures passed { OnOk result (ahead input.old ≡ [] → output.new.flushed ≡ true) }
    ensures flushed { OnOk result (IsTrue flush → output.new.flushed ≡ true) }
{
    if flush || input.ahead().is_empty() {
        output.flush()?;
    }
    match input.fill() {
        Ok(()) => Ok(!input.ahead().is_empty()),
        Err(_) => Err(EngineFault::Read),
    }
}

/// Answers and counts the line that ends in what is ahead, or holds what is ahead.
fn advance<R: Read, W: Write, C: LineCommand>(
    alloc: Global,
    input: &mut LineInput<R>,
    output: &mut Output<W>,
    command: &C,
    count: &mut usize,
    held: &mut Vec<u8>,
) -> Result<Ended, EngineFault>
    requires room { count.old + 1 < 2 ^ 64 }
    requires works { output.old.failed ≡ false }
    requires held { length held.old.items ≤ most_read }
    ensures advances { Advances W.contents (C.writes command.now) (left R.remaining input.old) (left R.remaining input.new) count.old count.new held.old.items held.new.items
        output.old output.new result }
    ensures failed { input.new.failed ≡ input.old.failed }
    ensures fills { input.new.fills ≡ input.old.fills }
    ensures most { count.new ≤ count.old + 1 }
{
    let ahead = input.ahead();
    let Some(at) = memchr(b'\n', ahead) else {
        let count = ahead.len();
        let kept = hold(held, ahead);
        input.take(count);
        kept?;
        return Ok(Ended::Done);
    };
    *count += 1;
    let answered = answer_line(alloc, output, command, *count, held, &ahead[..at]);
    input.take(at + 1);
    answered
}

/// Answers each line of an input, in order: writes what the command writes of it, up to the end of the
/// input.
///
/// A line is what precedes a newline, and what follows the last newline unless that is empty. They are counted from 1. No more
/// than the first 16,777,217 bytes of a line are passed to the command: as many as are read of a
/// document. The input and the output must not have failed.
///
/// What was answered is flushed before each read of the input, and if `flush` is set after each line;
/// the answers to the last lines are left to the caller.
///
/// Takes O(n) time for n bytes, and what the command takes for each line. A line that was read at once
/// is passed as it was read; of another one the bytes are copied once, into memory that the next such
/// line uses again.
///
/// Example: `are_written` in crates/odb_tests_engine/src/lines.rt.
///
/// # Errors
///
/// - `Read` if and only if a read failed. Each line that a newline ends was answered.
/// - `Write` if and only if the output failed. It has received a prefix of the answers.
/// - `OutOfMemory` if an allocation fails. The output has received the answers to some first lines, each
///   of them whole.
pub fn answer_lines<R: Read, W: Write, C: LineCommand>(
    alloc: Global,
    input: &mut LineInput<R>,
    output: &mut Output<W>,
    command: &C,
    flush: bool,
) -> Result<Ended, EngineFault>
    requires input { input.old.failed ≡ false }
    requires output { output.old.failed ≡ false }
    ensures ends { AnswersLines R.remaining W.contents (OfAnyLine (C.writes command.now)) input.old input.new output.old output.new result }
{
    let mut held = Vec::new(alloc);
    let (mut ended, mut count) = (Ended::Done, 0);
    while look(input, output, flush)? {
        let answered = advance(alloc, input, output, command, &mut count, &mut held)?;
        ended = both(ended, answered);
    }
    if held.is_empty() {
        return Ok(ended);
    }
    let last = answer_line(alloc, output, command, count + 1, &mut held, &[])?;
    Ok(both(ended, last))
}
