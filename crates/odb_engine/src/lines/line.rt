//! Holds the beginning of a line until its end is read, and has the line answered.

ghost use Rattle.std.specs.Prelude.{◌≡◌, ◌++◌, ◌≤◌, [], false, length, OnOk};
ghost use Rattle.odb_engine.specs.Inputs.{most_read};
ghost use Rattle.odb_engine.specs.lines.Steps.{EndsAnswer, cut};

use crate::ending::{Ended, EngineFault};
use crate::lines::command::LineCommand;
use odb_doc::MAX_DOCUMENT_BYTES;
use odb_io::Output;
use std::alloc::{AllocError, Global};
use std::io::Write;

/// How many bytes are held of a line: one more than a document may have, so that a line that is too
/// long is noticed.
const MAX_LINE_BYTES: usize = MAX_DOCUMENT_BYTES + 1;

const _: () = prove!(MAX_LINE_BYTES == 16_777_217);

/// Holds a piece of a line, but no byte beyond the first 16,777,217 of the line.
pub fn hold(held: &mut Vec<u8>, piece: &[u8]) -> Result<(), AllocError>
    requires { length held.old.items ≤ most_read }
    ensures { OnOk result (held.new.items ≡ cut (held.old.items ++ piece.now)) }
{
    let room = piece.len().min(MAX_LINE_BYTES - held.len());
    held.extend_from_slice(&piece[..room])
}

/// Answers a line: what is held of it, and its end. A line that is not held is passed without a copy.
pub fn answer_line<W: Write, C: LineCommand>(
    alloc: Global,
    output: &mut Output<W>,
    command: &C,
    number: usize,
    held: &mut Vec<u8>,
    end: &[u8],
) -> Result<Ended, EngineFault>
    requires works { output.old.failed ≡ false }
    requires held { length held.old.items ≤ most_read }
    ensures ends { EndsAnswer W.contents (C.writes command.now number (cut (held.old.items ++ end.now))) output.old output.new result }
    ensures emptied { OnOk result (held.new.items ≡ []) }
{
    if held.is_empty() {
        let line = &end[..end.len().min(MAX_LINE_BYTES)];
        return command.answer(alloc, number, line, output);
    }
    hold(held, end)?;
    let ended = command.answer(alloc, number, held, output)?;
    held.clear();
    Ok(ended)
}
