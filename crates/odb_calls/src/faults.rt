//! All faults of a batch with where they are, and how they reach the buffers of the caller.

ghost use Rattle.std.specs.Prelude.{◌≡◌, ◌++◌, map, IfOk, OnOk, string_bytes};
ghost use Rattle.odb_doc.specs.Refusals.{printed};
ghost use Rattle.odb_text.specs.Lines.{fault_line};
ghost use Rattle.odb_calls.specs.Lists.{Gives};
ghost use Rattle.odb_calls.specs.Places.{position_in};
ghost use Rattle.odb_calls.specs.Faults as calls;

use crate::buffer::give_list;
use crate::fault::Fault;
use crate::options::setup_of;
use crate::position::Position;
use crate::request::Part;
use crate::status::{DONE, REFUSED};
use odb_doc::Refusal;
use odb_engine::{Form, faults_in};
use odb_spans::{Position as Found, positions_of};
use odb_text::{Located, fault_line};
use std::alloc::{AllocError, Global};

/// What the line of a fault begins with.
const FAULT: &str = "fault ";

/// All faults of a batch.
#[derive(Drop)]
pub struct Faults {
    /// A line for each.
    pub text: String,
    /// Where the words of each line lie, and where its fault is.
    pub faults: Vec<Fault>,
}

/// Appends the line of a fault, and returns where its words lie.
fn push_fault(
    alloc: Global,
    text: &mut String,
    refusal: Refusal,
    found: Found,
) -> Result<Fault, AllocError>
    ensures line { OnOk result (string_bytes text.new ≡ string_bytes text.old
        ++ fault_line refusal.code.now refusal.name.now refusal.place) }
    ensures words { IfOk result (calls.HasWords (string_bytes text.new) (printed refusal)) }
    ensures position { IfOk result (λ fault. fault.position ≡ position_in found) }
{
    let fault = Located {
        refusal,
        position: None,
    };
    let line = fault_line(alloc, "", fault)?;
    let code = text.len() + FAULT.len();
    let name = code + refusal.code.len() + 1;
    let place = name + refusal.name.len() + 1;
    text.push_str(line.as_str())?;
    Ok(Fault {
        code: Part {
            start: code,
            length: refusal.code.len(),
        },
        name: Part {
            start: name,
            length: refusal.name.len(),
        },
        place: Part {
            start: place,
            length: text.len() - 1 - place,
        },
        position: Position::of(found),
    })
}

/// Returns these faults of a document with where they are.
fn located(alloc: Global, document: &[u8], refusals: &[Refusal]) -> Result<Faults, AllocError>
    ensures { IfOk result (λ found. calls.AreFaults document.now (map printed refusals.now)
        (string_bytes found.text) found.faults.items) }
{
    let positions = positions_of(alloc, document, refusals)?;
    let mut text = String::new(alloc);
    let mut faults = Vec::with_capacity(alloc, refusals.len())?;
    for at in 0..refusals.len() {
        faults.push(push_fault(alloc, &mut text, refusals[at], positions[at])?)?;
    }
    Ok(Faults { text, faults })
}

/// Returns all faults of the batch in a document with where they are.
pub fn all_faults(alloc: Global, document: &[u8], seed: u64) -> Result<Faults, AllocError>
    ensures { IfOk result (λ found. calls.ListsFaults document.now (string_bytes found.text)
        found.faults.items) }
{
    let refusals = faults_in(alloc, document, setup_of(Form::Lines, seed))?;
    located(alloc, document, &refusals)
}

/// Returns the status of a batch with these faults.
fn status_of(faults: &[Fault]) -> u32
    ensures { result ≡ calls.status_by faults.now }
{
    if faults.is_empty() { DONE } else { REFUSED }
}

/// Copies the text and the faults to the buffers if both fit, sets how long they are, and returns the status.
pub fn give_faults(
    found: &Faults,
    text: &mut [u8],
    text_length: &mut usize,
    faults: &mut [Fault],
    count: &mut usize,
) -> u32
    ensures { Gives (string_bytes found.now.text) found.now.faults.items
        (calls.status_by found.now.faults.items) result text_length.new count.new text.old text.new
        faults.old faults.new }
{
    give_list(
        found.text.as_str(),
        &found.faults,
        status_of(&found.faults),
        text,
        text_length,
        faults,
        count,
    )
}
