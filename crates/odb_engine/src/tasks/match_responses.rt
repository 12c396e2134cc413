//! The command `match`: whether the responses of a service fit a batch.

ghost use Rattle.std.specs.Prelude.{◌≡◌, ◌≢◌, ◌⊎◌, length, None, Some, false, Err, IsTrue, IfOk, IfErr, OnOk, string_bytes};
ghost use Rattle.serde_json.specs.View.{view};
ghost use Rattle.odb_check.specs.Plans.{plan_records, plan_graph};
ghost use Rattle.odb_reply.specs.Fits.{places, statuses};
ghost use Rattle.odb_reply.specs.ResponseDocuments.{entries};
ghost use Rattle.odb_reply.specs.StatusFaults.{RefusesStatuses, status_at};
ghost use Rattle.odb_reply.specs.declared.strictness.Strictness.{Strictness};
ghost use Rattle.odb_engine.specs.declared.form.Form.TheVariants.{Lines};
ghost use Rattle.odb_engine.specs.declared.halt.Halt.TheVariants as halts;
ghost use Rattle.odb_engine.specs.Cascade.{Answers};
ghost use Rattle.odb_engine.specs.Contents.{AskedFor};
ghost use Rattle.odb_engine.specs.Inputs.{BySecond, IsFresh, ReadsFew, SomeDocument};
ghost use Rattle.odb_engine.specs.Engines.{Ends};
ghost use Rattle.odb_engine.specs.Halts.{Found, Halted};
ghost use Rattle.odb_engine.specs.Matches.{HasNoTable, IsAnswered, IsTableIn, Matches, MatchesValue, decided, match_text};

use crate::disposal::DropOrLeak;
use crate::ending::{Ended, EngineFault};
use crate::form::Form;
use crate::halt::Halt;
use crate::setup::Setup;
use crate::tasks::documents::answer_by_default;
use crate::tasks::task::Task;
use odb_check::Plan;
use odb_doc::Disposal;
use odb_io::{Input, Output};
use odb_reply::{Responses, StatusFault, Strictness, Table, check_statuses, match_responses};
use odb_sched::Mode;
use odb_text::{match_json, match_lines};
use serde_json::Value;
use std::alloc::{AllocError, Global};
use std::io::{Read, Write};

/// Returns what is printed of responses that fit.
fn match_text(
    alloc: Global,
    plan: &Plan<'_>,
    table: &Table,
    form: Form,
) -> Result<String, AllocError>
    requires { length (statuses table.now) ≡ length (plan_records plan.now) }
    ensures { IfOk result (λ text. string_bytes text
        ≡ match_text form (plan_records plan.now) (statuses table.now)) }
{
    match form {
        Form::Lines => match_lines(alloc, plan, table.statuses()),
        Form::Json => match_json(alloc, plan, table.statuses()),
    }
}

/// Returns the responses by which a match is decided: if the service stops at its first error, with those that
/// it may leave out.
fn decided<'a>(
    alloc: Global,
    plan: &Plan<'a>,
    responses: Responses<'a>,
    mode: Mode,
) -> Result<Responses<'a>, AllocError>
    ensures { IfOk result (λ all. entries all
        ≡ decided mode (plan_records plan.now) (entries responses.entry)) }
{
    match mode {
        Mode::Continue => Ok(responses),
        Mode::Stop => responses.completed(alloc, plan),
    }
}

/// Returns the table of the responses in a value, which fit the batch of a plan (OData JSON Format 4.01, section 19.5).
///
/// `mode` says whether the service stops at its first error: if it does, a request without a response counts as answered
/// 424. `disposal` says whether what was read of the value is dropped. Takes O(n log n) time and O(n) memory for n requests
/// and responses.
///
/// # Errors
///
/// `Refused` by F70 if the value is no response document, or by the first of F71 to F75 if its responses do not fit;
/// `OutOfMemory` if an allocation fails. Never `Read`.
pub fn table_of(
    alloc: Global,
    plan: &Plan<'_>,
    value: &Value,
    mode: Mode,
    disposal: Disposal,
) -> Result<Table, Halt>
    ensures table { IfOk result (λ table. IsTableIn mode (plan_records plan.now) (view value.now)
        (places table) (statuses table)) }
    ensures least { IfErr result (Halted (HasNoTable mode (plan_records plan.now) (view value.now))) }
    ensures read { result ≢ Err halts.Read }
{
    let read = Responses::read(alloc, value)?;
    let responses = DropOrLeak {
        value: decided(alloc, plan, read, mode)?,
        disposal,
    };
    let table = match_responses(alloc, plan, &responses.value)?;
    Ok(table)
}

/// Checks that some finished run answers the statuses of a table, if that is asked.
fn check_asked(
    alloc: Global,
    plan: &Plan<'_>,
    table: &Table,
    strict: Option<Strictness>,
) -> Result<(), StatusFault>
    requires { length (statuses table.now) ≡ length (plan_records plan.now) }
    ensures answered { OnOk result (IsAnswered strict (plan_records plan.now) (statuses table.now)) }
    ensures least { IfErr result (λ fault. (by : Strictness) × (strict ≡ Some by)
        × RefusesStatuses fault by (plan_graph plan.now) (status_at (statuses table.now))) }
{
    match strict {
        None => Ok(()),
        Some(strictness) => check_statuses(alloc, plan, table, strictness),
    }
}

/// Returns what is printed of the responses in a value, by whether an error stops the service, and whether some finished
/// run has to answer their statuses.
pub fn matched(
    alloc: Global,
    plan: &Plan<'_>,
    value: Value,
    mode: Mode,
    strict: Option<Strictness>,
    setup: Setup,
) -> Result<String, Halt>
    ensures found { Found (MatchesValue mode strict (plan_records plan.now) (view value)) setup.form result }
    ensures read { result ≢ Err halts.Read }
{
    let value = DropOrLeak {
        value,
        disposal: setup.disposal,
    };
    let table = table_of(alloc, plan, &value.value, mode, setup.disposal)?;
    check_asked(alloc, plan, &table, strict)?;
    Ok(match_text(alloc, plan, &table, setup.form)?)
}

/// Matches the response document of a service against the batch in a document: writes the count of
/// the responses and the status of each request, or the line of the first fault.
///
/// The responses fit the batch if each request has exactly one and nothing else has one, if each has
/// the group of its request, and if no success rests on a failure. The responses are read only if the
/// check accepts the batch. The inputs must be new, and the output must not have failed.
/// [`crate::answer_documents`] takes a [`Setup`] too, and in [`Task::Match`] the mode of a service that stops at its first error,
/// and whether some finished run has to answer the statuses.
///
/// Takes O(n log n) time and O(n) memory for documents of n bytes.
///
/// Example: `called` in crates/odb_tests_tasks/src/engines.rt.
///
/// # Errors
///
/// Those of [`crate::check_batch`], of either input.
pub fn match_batch<R: Read, S: Read, W: Write>(
    alloc: Global,
    batch: &mut Input<R>,
    responses: &mut Input<S>,
    output: &mut Output<W>,
) -> Result<Ended, EngineFault>
    requires batch { IsFresh batch.old }
    requires responses { IsFresh responses.old }
    requires output { output.old.failed ≡ false }
    ensures ends { SomeDocument (R.remaining batch.old.reader) (λ bytes. Ends W.contents
        (Answers (BySecond (S.remaining responses.old.reader) Matches) bytes Lines)
        (IsTrue batch.new.failed ⊎ IsTrue responses.new.failed) output.old output.new result
        × AskedFor R.remaining batch.old batch.new bytes responses.old responses.new) }
    ensures memory { result ≡ Err EngineFault.OutOfMemory → output.new ≡ output.old }
    ensures batch { ReadsFew R.remaining batch.old batch.new }
    ensures responses { ReadsFew S.remaining responses.old responses.new }
{
    let task = Task::Match {
        mode: Mode::Continue,
        strict: None,
    };
    answer_by_default(alloc, batch, responses, output, task)
}
