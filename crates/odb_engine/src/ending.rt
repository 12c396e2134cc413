//! How a command ends, and which device failed it.

ghost use Rattle.std.specs.Prelude.{◌≡◌, false, map, Err, IfOk, string_bytes};
ghost use Rattle.odb_doc.specs.Refusals.{printed};
ghost use Rattle.odb_engine.specs.declared.ending.EngineFault.TheVariants as faults;
ghost use Rattle.odb_engine.specs.declared.halt.Halt.TheVariants as halts;
ghost use Rattle.odb_engine.specs.Engines.{Ends};
ghost use Rattle.odb_engine.specs.Answered.{answer_found, refused_text};
ghost use Rattle.odb_engine.specs.Forms.{all_located_text, fault_text, faults_text, located_text};
ghost use Rattle.odb_text.specs.Lines.{printed_at};

use crate::form::Form;
use crate::halt::Halt;
use crate::tasks::answer::Answer;
use odb_doc::Refusal;
use odb_io::{DeviceFault, Output};
use odb_text::{Located, fault_json, fault_line, fault_lines, faults_json};
use std::alloc::{AllocError, Global};
use std::io::Write;
use thiserror::Error;

/// How an engine ended that has written its whole output.
#[derive(Clone, Copy, Debug, PartialEq, Eq)]
pub enum Ended {
    /// It wrote its result.
    Done,
    /// It wrote a fault.
    Refused,
}

/// Why an engine has not written its whole output.
#[derive(Clone, Copy, Debug, PartialEq, Eq, Error)]
pub enum EngineFault {
    /// An input failed. Nothing was written.
    #[error("an input failed")]
    Read,
    /// The output failed. It has received a prefix of what the engine writes.
    #[error("the output failed")]
    Write,
    /// An allocation failed. Nothing was written; of a log, the answers to some first lines.
    #[error("out of memory")]
    OutOfMemory,
}

impl From<DeviceFault> for EngineFault {
    ghost from_gives = { λ _ fault. fault ≡ faults.Write };

    fn from(_fault: DeviceFault) -> Self {
        EngineFault::Write
    }
}

impl From<AllocError> for EngineFault {
    ghost from_gives = { λ _ fault. fault ≡ faults.OutOfMemory };

    fn from(_error: AllocError) -> Self {
        EngineFault::OutOfMemory
    }
}

/// Returns a fault in a form, with where it is in the document of this name if it has a position.
pub(crate) fn located_text(
    alloc: Global,
    form: Form,
    name: &str,
    fault: Located,
) -> Result<String, AllocError>
    ensures { IfOk result (λ text. string_bytes text ≡ located_text form name.now (printed_at fault)) }
{
    match form {
        Form::Lines => fault_line(alloc, name, fault),
        Form::Json => fault_json(alloc, fault),
    }
}

/// Returns faults in a form, each with where it is in the document of this name if it has a position.
pub(crate) fn all_located_text(
    alloc: Global,
    form: Form,
    name: &str,
    faults: &[Located],
) -> Result<String, AllocError>
    ensures { IfOk result (λ text. string_bytes text
        ≡ all_located_text form name.now (map printed_at faults.now)) }
{
    match form {
        Form::Lines => fault_lines(alloc, name, faults),
        Form::Json => faults_json(alloc, faults),
    }
}

/// Returns a fault in a form.
pub fn fault_text(alloc: Global, form: Form, refusal: Refusal) -> Result<String, AllocError>
    ensures { IfOk result (λ text. string_bytes text ≡ fault_text form (printed refusal)) }
{
    let fault = Located {
        refusal,
        position: None,
    };
    located_text(alloc, form, "", fault)
}

/// Returns faults in a form.
fn faults_text(alloc: Global, form: Form, refusals: &[Refusal]) -> Result<String, AllocError>
    ensures { IfOk result (λ text. string_bytes text ≡ faults_text form (map printed refusals.now)) }
{
    let mut faults = Vec::with_capacity(alloc, refusals.len())?;
    for refusal in refusals {
        faults.push(Located {
            refusal: *refusal,
            position: None,
        })?;
    }
    all_located_text(alloc, form, "", &faults)
}

/// Returns what is written of a refused document: its fault, or all faults if they are listed.
pub(crate) fn refused_text(
    alloc: Global,
    form: Form,
    all: bool,
    refusal: Refusal,
    faults: &[Refusal],
) -> Result<String, AllocError>
    ensures { IfOk result (λ text. string_bytes text
        ≡ refused_text all form (map printed faults.now) (printed refusal)) }
{
    if all {
        faults_text(alloc, form, faults)
    } else {
        fault_text(alloc, form, refusal)
    }
}

/// Writes an answer, and returns how the engine ended.
pub(crate) fn end<W: Write>(
    found: Result<Answer, Halt>,
    output: &mut Output<W>,
) -> Result<Ended, EngineFault>
    requires { output.old.failed ≡ false }
    ensures ends { Ends W.contents (answer_found found) (found ≡ Err halts.Read)
        output.old output.new result }
    ensures memory { result ≡ Err EngineFault.OutOfMemory → output.new ≡ output.old }
{
    let answer = match found {
        Ok(answer) => answer,
        Err(Halt::Read) => return Err(EngineFault::Read),
        Err(_) => return Err(EngineFault::OutOfMemory),
    };
    output.put_all(&answer.text)?;
    Ok(answer.ended)
}
