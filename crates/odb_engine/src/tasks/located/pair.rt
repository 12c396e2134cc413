//! What is written of a batch document and a second document, with where a fault is in either.

ghost use Rattle.std.specs.Prelude.{◌≡◌, ◌↔◌, Err, IfOk, IfSome, map};
ghost use Rattle.odb_doc.specs.Documents.{IsJson};
ghost use Rattle.serde_json.specs.Data.{Data};
ghost use Rattle.odb_doc.specs.Refusals.{printed};
ghost use Rattle.odb_engine.specs.declared.halt.Halt.TheVariants as halts;
ghost use Rattle.odb_engine.specs.Answered.{LocatesEither, LocatesFound, LocatesRefused, PrintsFound};

use crate::form::Form;
use crate::halt::Halt;
use crate::setup::Setup;
use crate::tasks::answer::Answer;
use crate::tasks::located::{locate, located_answer};
use odb_doc::Refusal;
use odb_spans::{ParseError, is_in_batch};
use std::alloc::{AllocError, Global};

/// The names of the documents, as faults are reported with them.
#[derive(Clone, Copy, Debug)]
pub struct Names<'n> {
    pub batch: &'n str,
    pub second: &'n str,
}

impl Names<'static> {
    /// No names, for faults that are printed as they are.
    pub const NONE: Names<'static> = Names {
        batch: "",
        second: "",
    };
}

/// Returns a fault with where it is, in the batch document or in the second one.
fn locate_in_either(
    alloc: Global,
    form: Form,
    names: Names<'_>,
    batch: &[u8],
    batch_error: Option<ParseError>,
    second: &[u8],
    second_error: Option<ParseError>,
    refusal: Refusal,
) -> Result<Answer, AllocError>
    requires batch { IfSome batch_error (λ _. (d : Data) → ¬ IsJson batch.now d) }
    requires second { IfSome second_error (λ _. (d : Data) → ¬ IsJson second.now d) }
    ensures { IfOk result (λ answer. LocatesEither form names.entry.batch.now batch.now
        names.entry.second.now second.now (printed refusal) answer.ended answer.text.items) }
{
    if is_in_batch(refusal.place) {
        locate(
            alloc,
            batch,
            batch_error,
            false,
            names.batch,
            None,
            form,
            refusal,
        )
    } else {
        locate(
            alloc,
            second,
            second_error,
            false,
            names.second,
            None,
            form,
            refusal,
        )
    }
}

/// The documents in which faults are located.
#[derive(Clone, Copy)]
pub struct Documents<'n, 'b, 's> {
    pub names: Names<'n>,
    /// The batch document, or the line of a log with one or both documents.
    pub batch: &'b [u8],
    /// Where the parser stopped in it, if it is not JSON.
    pub batch_error: Option<ParseError>,
    pub second: &'s [u8],
    pub second_error: Option<ParseError>,
    /// The number of the line. It is reported as the line of each fault; the column and the offset count within it.
    pub number: Option<usize>,
    /// Whether it has both documents.
    pub is_pair: bool,
}

/// Returns a fault with where it is: in either of two documents or in the first, or all these faults of the first.
fn locate_refused(
    alloc: Global,
    documents: Documents<'_, '_, '_>,
    all: bool,
    two: bool,
    form: Form,
    refusal: Refusal,
    faults: &[Refusal],
) -> Result<Answer, AllocError>
    requires batch { IfSome documents.batch_error (λ _. (d : Data) → ¬ IsJson documents.batch.now d) }
    requires second { IfSome documents.second_error (λ _. (d : Data) → ¬ IsJson documents.second.now d) }
    ensures { IfOk result (λ answer. LocatesRefused all two documents.entry.number documents.entry.is_pair form
        documents.entry.names.batch.now documents.entry.batch.now documents.entry.names.second.now
        documents.entry.second.now (map printed faults.now) (printed refusal) answer.ended answer.text.items) }
{
    let Documents {
        names,
        batch,
        batch_error,
        second,
        second_error,
        number,
        is_pair,
    } = documents;
    if all {
        return located_answer(alloc, batch, batch_error, names.batch, number, form, faults);
    }
    if two {
        return locate_in_either(
            alloc,
            form,
            names,
            batch,
            batch_error,
            second,
            second_error,
            refusal,
        );
    }
    locate(
        alloc,
        batch,
        batch_error,
        is_pair,
        names.batch,
        number,
        form,
        refusal,
    )
}

/// Returns what was found, or the fault with where it is, or all these faults if they are listed.
///
/// # Errors
///
/// `Read` if and only if that was found; `OutOfMemory` if that was found, or an allocation fails.
fn locate_found(
    alloc: Global,
    documents: Documents<'_, '_, '_>,
    all: bool,
    two: bool,
    form: Form,
    found: Result<String, Halt>,
    faults: &[Refusal],
) -> Result<Answer, Halt>
    requires batch { IfSome documents.batch_error (λ _. (d : Data) → ¬ IsJson documents.batch.now d) }
    requires second { IfSome documents.second_error (λ _. (d : Data) → ¬ IsJson documents.second.now d) }
    ensures located { IfOk result (λ answer. LocatesFound all two documents.entry.number documents.entry.is_pair form
        documents.entry.names.batch.now documents.entry.batch.now documents.entry.names.second.now
        documents.entry.second.now (map printed faults.now) found answer.ended answer.text.items) }
    ensures read { (result ≡ Err halts.Read) ↔ (found ≡ Err halts.Read) }
{
    match found {
        Ok(text) => Ok(Answer::done(text)),
        Err(Halt::Refused(refusal)) => Ok(locate_refused(
            alloc, documents, all, two, form, refusal, faults,
        )?),
        Err(halt) => Err(halt),
    }
}

/// Returns what is written of what was found: the text or the fault, or all these faults if they are listed; with where they
/// are in the documents if they are located.
///
/// # Errors
///
/// Those of [`Answer::listed`].
pub(crate) fn print_found(
    alloc: Global,
    documents: Documents<'_, '_, '_>,
    all: bool,
    two: bool,
    setup: Setup,
    found: Result<String, Halt>,
    faults: &[Refusal],
) -> Result<Answer, Halt>
    requires batch { IfSome documents.batch_error (λ _. (d : Data) → ¬ IsJson documents.batch.now d) }
    requires second { IfSome documents.second_error (λ _. (d : Data) → ¬ IsJson documents.second.now d) }
    ensures prints { IfOk result (λ answer. PrintsFound setup.faults.located all two documents.entry.number
        documents.entry.is_pair setup.form documents.entry.names.batch.now documents.entry.batch.now
        documents.entry.names.second.now documents.entry.second.now (map printed faults.now) found
        answer.ended answer.text.items) }
    ensures read { (result ≡ Err halts.Read) ↔ (found ≡ Err halts.Read) }
{
    if setup.faults.located {
        locate_found(alloc, documents, all, two, setup.form, found, faults)
    } else {
        Answer::listed(alloc, setup.form, all, found, faults)
    }
}
