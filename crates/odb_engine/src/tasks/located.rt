//! Faults with where they are in their documents.
//!
//! A position can be found only in the bytes of a document, so the documents are kept. What a command writes
//! of good documents is the same, and takes no more time. The positions of all faults are found in O(n) for n bytes.

ghost use Rattle.std.specs.Prelude.{◌≡◌, IfOk, IfSome, map};
ghost use Rattle.serde_json.specs.Data.{Data};
ghost use Rattle.odb_doc.specs.Documents.{IsJson};
ghost use Rattle.odb_doc.specs.Refusals.{printed};
ghost use Rattle.odb_text.specs.Lines.{printed_at};
ghost use Rattle.odb_engine.specs.Answered.{LocatesFault};
ghost use Rattle.odb_engine.specs.Located.{AreLocated, HasPosition, PrintsAll, StandsIn, numbered};

mod pair;

use crate::ending::{Ended, all_located_text, located_text};
use crate::form::Form;
use crate::tasks::answer::Answer;
use odb_doc::{Place, Refusal};
use odb_spans::{ParseError, Position, position_by, position_in_pair_by, positions_by};
use odb_text::Located;
pub use pair::Names;
pub(crate) use pair::{Documents, print_found};
use std::alloc::{AllocError, Global};

/// Returns where a fault is in a document, or in an array of two documents. `error` is where the parser stopped in it, if
/// it is not JSON.
fn found_at(
    alloc: Global,
    document: &[u8],
    error: Option<ParseError>,
    is_pair: bool,
    place: Place,
) -> Result<Position, AllocError>
    requires { IfSome error (λ _. (d : Data) → ¬ IsJson document.now d) }
    ensures { IfOk result (StandsIn is_pair document.now place) }
{
    if is_pair {
        position_in_pair_by(alloc, document, error, place)
    } else {
        position_by(alloc, document, error, place)
    }
}

/// Returns a position in the line of a log that has this number, or in a document without one.
fn numbered(number: Option<usize>, position: Position) -> Position
    ensures { result ≡ numbered number position }
{
    match number {
        None => position,
        Some(line) => Position { line, ..position },
    }
}

/// Returns where a fault is in a document, in an array of two documents, or in such a line of a log.
fn position_at(
    alloc: Global,
    document: &[u8],
    error: Option<ParseError>,
    number: Option<usize>,
    is_pair: bool,
    place: Place,
) -> Result<Position, AllocError>
    requires { IfSome error (λ _. (d : Data) → ¬ IsJson document.now d) }
    ensures { IfOk result (HasPosition number is_pair document.now place) }
{
    let found = found_at(alloc, document, error, is_pair, place)?;
    Ok(numbered(number, found))
}

/// Returns the fault of a document with where it is. The document, or the log that has it as a line, has this name.
fn locate(
    alloc: Global,
    document: &[u8],
    error: Option<ParseError>,
    is_pair: bool,
    name: &str,
    number: Option<usize>,
    form: Form,
    refusal: Refusal,
) -> Result<Answer, AllocError>
    requires { IfSome error (λ _. (d : Data) → ¬ IsJson document.now d) }
    ensures { IfOk result (λ answer. LocatesFault (HasPosition number is_pair document.now refusal.place)
        form name.now (printed refusal) answer.ended answer.text.items) }
{
    let position = position_at(alloc, document, error, number, is_pair, refusal.place)?;
    let fault = Located {
        refusal,
        position: Some(position),
    };
    let text = located_text(alloc, form, name, fault)?;
    Ok(Answer {
        ended: Ended::Refused,
        text: text.into_bytes(),
    })
}

/// Returns faults of a document with where they are, in this order.
fn all_located(
    alloc: Global,
    document: &[u8],
    error: Option<ParseError>,
    number: Option<usize>,
    refusals: &[Refusal],
) -> Result<Vec<Located>, AllocError>
    requires { IfSome error (λ _. (d : Data) → ¬ IsJson document.now d) }
    ensures { IfOk result (λ faults. AreLocated number document.now (map printed refusals.now)
        (map printed_at faults.items)) }
{
    let positions = positions_by(alloc, document, error, refusals)?;
    let mut faults = Vec::with_capacity(alloc, refusals.len())?;
    for at in 0..refusals.len() {
        faults.push(Located {
            refusal: refusals[at],
            position: Some(numbered(number, positions[at])),
        })?;
    }
    Ok(faults)
}

/// Returns the answer that prints these faults of a document with where they are.
fn located_answer(
    alloc: Global,
    document: &[u8],
    error: Option<ParseError>,
    name: &str,
    number: Option<usize>,
    form: Form,
    refusals: &[Refusal],
) -> Result<Answer, AllocError>
    requires { IfSome error (λ _. (d : Data) → ¬ IsJson document.now d) }
    ensures { IfOk result (λ answer. PrintsAll name.now number document.now form (map printed refusals.now)
        answer.ended answer.text.items) }
{
    let faults = all_located(alloc, document, error, number, refusals)?;
    let text = all_located_text(alloc, form, name, &faults)?;
    Ok(Answer {
        ended: Ended::Refused,
        text: text.into_bytes(),
    })
}
