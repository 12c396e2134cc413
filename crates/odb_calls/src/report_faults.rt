//! Why a report is refused, as a text.

ghost use Rattle.odb_engine.specs.declared.form.Form.TheVariants.{Lines};
ghost use Rattle.odb_engine.specs.Halts.{Found};
ghost use Rattle.odb_calls.specs.ReportFaults.{ChecksReport};
ghost use Rattle.odb_calls.specs.Returns.{Returns};

use crate::answer::give;
use crate::outcome::{body_of, outcome_of};
use odb_engine::{Answer, Form, Halt};
use std::alloc::Global;

/// A final status: which one it is makes no difference.
const STATUS: u32 = 200;

/// Returns an empty text if a report may have these headers and this body.
fn checked(alloc: Global, headers: &[u8], body: &[u8]) -> Result<String, Halt>
    ensures { Found (ChecksReport headers.now body.now) Lines result }
{
    let _outcome = outcome_of(alloc, STATUS, headers)?;
    let _text = body_of(alloc, body)?;
    Ok(String::new(alloc))
}

/// Gives the fault by which a report with these headers and this body is refused.
pub fn give_fault(
    alloc: Global,
    headers: &[u8],
    body: &[u8],
    text: &mut [u8],
    text_length: &mut usize,
) -> u32
    ensures { Returns (ChecksReport headers.now body.now Lines) result text_length.new text.old text.new }
{
    let found = checked(alloc, headers, body);
    give(Answer::of(alloc, Form::Lines, found), text, text_length)
}
