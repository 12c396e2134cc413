//! The rest and the parts of a batch: which requests a rest has, and what the texts are read as.

ghost use Rattle.std.specs.Prelude.{◌≡◌, ◌≤◌, ◌<◌, ◌↔◌, List, false, length, IsTrue};
ghost use Rattle.serde_json.specs.View.{view};
ghost use Rattle.odb_check.specs.LeastNameFault.{HasGoodNames};
ghost use Rattle.odb_check.specs.Plans.{plan_records};
ghost use Rattle.odb_check.specs.Units.{unit_at};
ghost use Rattle.odb_doc.specs.batch.Batches.{records};
ghost use Rattle.odb_doc.specs.batch.LeastFault.{IsWellShaped};
ghost use Rattle.odb_doc.specs.batch.Records.{Record, IsBatchOf};
ghost use Rattle.odb_doc.specs.canonical.CanonicalLaws.{IsDocumentOf};
ghost use Rattle.odb_reply.specs.Fits.{Fits, IsTableOf, places, statuses};
ghost use Rattle.odb_reply.specs.ResponseDocuments.{entries};
ghost use Rattle.odb_send.specs.Laws.{MayBeSent};
ghost use Rattle.odb_send.specs.Answers.{recorded};
ghost use Rattle.odb_send.specs.Rests.{IsRestOf};
ghost use Rattle.odb_send.specs.Parts.{IsBatchIn};

use odb_check::{CheckFault, Plan, check};
use odb_doc::{Batch, DocFault, parse};
use odb_reply::{Responses, Table};
use odb_sched::RequestState;
use odb_send::laws::{every_part, every_rest, every_text, every_unit};
use odb_send::{Recorded, Rest, part_of, rest_of, rest_text};
use serde_json::Value;
use std::alloc::Global;

/// Returns whether a request is in the rest of its batch: if and only if its unit may be sent.
fn is_sent(
    plan: &Plan<'_>,
    responses: &Responses<'_>,
    table: &Table,
    value: &Value,
    rest: &Rest,
    i: u32,
) -> bool
    requires request { i < length (plan_records plan.now) }
    requires fits { Fits (plan_records plan.now) (entries responses.now) }
    requires table { IsTableOf (plan_records plan.now) (entries responses.now) (places table.now) (statuses table.now) }
    requires rest { IsRestOf (plan_records plan.now) (statuses table.now)
        (recorded (view value.now) (places table.now) (statuses table.now)) rest.now }
    ensures { IsTrue result ↔ MayBeSent (plan_records plan.now) (statuses table.now) (unit_at (plan_records plan.now) i) }
{
    odb_check::laws::every_plan(plan);
    every_rest();
    every_unit();
    let _responses = responses;
    let _table = table;
    let _value = value;
    rest.contains(plan, i)
}

/// Returns whether the check refuses the names of a batch. It does not if memory runs out.
fn refuses_names(alloc: Global, batch: &Batch<'_>) -> bool
    ensures { HasGoodNames (records batch.now) → result ≡ false }
{
    odb_check::laws::one_fault();
    match check(alloc, batch) {
        Ok(_) | Err(CheckFault::OutOfMemory) => false,
        Err(_) => true,
    }
}

/// Returns whether a value is refused as a batch. It is not if memory runs out.
fn refuses_value(alloc: Global, value: &Value) -> bool
    ensures { (batch : List Record) → IsWellShaped (view value.now) → IsBatchOf (view value.now) batch
        → HasGoodNames batch → result ≡ false }
{
    odb_doc::laws::one_fault();
    odb_doc::laws::one_batch();
    match Batch::read(alloc, value) {
        Ok(batch) => refuses_names(alloc, &batch),
        Err(DocFault::OutOfMemory) => false,
        Err(_) => true,
    }
}

/// Returns whether a text is refused as a batch. It is not if memory runs out.
fn refuses_text(alloc: Global, text: &str) -> bool
    requires { length text.now ≤ 16777216 }
    ensures { (batch : List Record) → IsDocumentOf text.now batch → HasGoodNames batch → result ≡ false }
{
    match parse(alloc, text.as_bytes()) {
        Ok(value) => refuses_value(alloc, &value),
        Err(DocFault::OutOfMemory) => false,
        Err(_) => true,
    }
}

/// Returns whether the text of the rest of a batch is refused, unless it is too long or memory runs out: it never is.
fn refuses_rest(
    alloc: Global,
    document: &[u8],
    value: &Value,
    plan: &Plan<'_>,
    table: &Table,
    responses: &Value,
) -> bool
    requires document { IsBatchIn document.now (view value.now) (plan_records plan.now) }
    requires shaped { IsWellShaped (view value.now) }
    requires places { length (places table.now) ≡ length (plan_records plan.now) }
    requires statuses { length (statuses table.now) ≡ length (plan_records plan.now) }
    ensures { result ≡ false }
{
    odb_check::laws::every_plan(plan);
    every_rest();
    every_text();
    let _value = value;
    let Ok(rest) = rest_of(alloc, plan, table, responses) else {
        return false;
    };
    let Ok(text) = rest_text(alloc, document, plan, &rest) else {
        return false;
    };
    if text.len() > 16_777_216 {
        return false;
    }
    refuses_text(alloc, text.as_str())
}

/// Returns whether the text of a part of a batch is refused, unless it is too long or memory runs out: it never is.
fn refuses_part(
    alloc: Global,
    document: &[u8],
    value: &Value,
    plan: &Plan<'_>,
    states: &[RequestState],
    limit: u32,
    answers: &[Recorded<'_>],
) -> bool
    requires document { IsBatchIn document.now (view value.now) (plan_records plan.now) }
    requires shaped { IsWellShaped (view value.now) }
    requires states { length states.now ≡ length (plan_records plan.now) }
    requires answers { length answers.now ≡ length (plan_records plan.now) }
    ensures { result ≡ false }
{
    odb_check::laws::every_plan(plan);
    every_part();
    let _value = value;
    let Ok(part) = part_of(alloc, plan, states, limit, answers) else {
        return false;
    };
    let Ok(text) = rest_text(alloc, document, plan, &part) else {
        return false;
    };
    if text.len() > 16_777_216 {
        return false;
    }
    refuses_text(alloc, text.as_str())
}
