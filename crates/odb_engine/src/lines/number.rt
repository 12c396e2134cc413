//! The number of a line in front of its fault.

ghost use Rattle.std.specs.Prelude.{◌≡◌, ◌≤◌, true, length, IfOk};
ghost use Rattle.odb_engine.specs.lines.Numbers.{HasNumber, StartsWords, numbered_text};
ghost use Rattle.odb_engine.specs.declared.ending.Ended.TheVariants.{Refused};

use crate::ending::Ended;
use crate::form::Form;
use crate::setup::Setup;
use crate::tasks::answer::Answer;
use memchr::memchr;
use std::alloc::{AllocError, Global};

/// Returns the text of a fault with the number of its line: in front of its words, which begin at `start`, or as a
/// member `line` beside the member `fault`.
fn number_fault(
    alloc: Global,
    form: Form,
    number: usize,
    start: usize,
    fault: &[u8],
) -> Result<Vec<u8>, AllocError>
    requires { start ≤ length fault.now }
    ensures { IfOk result (λ text. text.items ≡ numbered_text form number start fault.now) }
{
    let mut text = Vec::new(alloc);
    match form {
        Form::Lines => {
            text.extend_from_slice(&fault[..start])?;
            text.extend_from_slice(format!(in alloc; "{number} ")?.as_bytes())?;
            text.extend_from_slice(&fault[start..])?;
        }
        Form::Json => {
            let end = fault.len().saturating_sub("}\n".len());
            text.extend_from_slice(&fault[..end])?;
            text.extend_from_slice(format!(in alloc; ",\"line\":{number}}}\n")?.as_bytes())?;
        }
    }
    Ok(text)
}

/// Returns where the words of a fault begin that is printed with where it is: after the first blank that follows the
/// name of the log.
fn words_start(name: &str, fault: &[u8]) -> usize
    ensures within { result ≤ length fault.now }
    ensures starts { StartsWords true name.now fault.now result }
{
    if fault.len() < name.len() {
        return 0;
    }
    match memchr(b' ', &fault[name.len()..]) {
        Some(at) => name.len() + at + 1,
        None => 0,
    }
}

/// Returns where the words of a fault begin, which is located or not.
fn start_of(located: bool, name: &str, fault: &[u8]) -> usize
    ensures within { result ≤ length fault.now }
    ensures starts { StartsWords located name.now fault.now result }
{
    if located { words_start(name, fault) } else { 0 }
}

/// Returns a fault with the number of its line in the log of this name.
pub(crate) fn with_number(
    alloc: Global,
    name: &str,
    number: usize,
    setup: Setup,
    fault: &[u8],
) -> Result<Answer, AllocError>
    ensures ended { IfOk result (λ answer. answer.ended ≡ Refused) }
    ensures text { IfOk result (λ answer. HasNumber setup.faults.located name.now setup.form number fault.now
        answer.text.items) }
{
    let start = start_of(setup.faults.located, name, fault);
    Ok(Answer {
        ended: Ended::Refused,
        text: number_fault(alloc, setup.form, number, start, fault)?,
    })
}
