//! A rest that is made twice, and the responses to a rest in place of those to the same requests of its batch.

ghost use Rattle.std.specs.Prelude.{◌≡◌, true, List, length, string_bytes, IfSome};
ghost use Rattle.serde_json.specs.View.{view};
ghost use Rattle.odb_check.specs.Plans.{plan_records};
ghost use Rattle.odb_doc.specs.batch.Batches.{records};
ghost use Rattle.odb_doc.specs.batch.LeastFault.{IsWellShaped};
ghost use Rattle.odb_doc.specs.batch.Records.{Record, IsBatchOf};
ghost use Rattle.odb_doc.specs.canonical.CanonicalLaws.{IsDocumentOf};
ghost use Rattle.odb_reply.specs.Fits.{Fits, places, statuses};
ghost use Rattle.odb_reply.specs.ResponseDocuments.{entries};
ghost use Rattle.odb_send.specs.Answers.{recorded};
ghost use Rattle.odb_send.specs.Laws.{with_rest};
ghost use Rattle.odb_send.specs.Parts.{IsBatchIn};
ghost use Rattle.odb_testing.specs.Readings.{IsReading, IsSame};
ghost use Rattle.odb_tests_text.specs.Rests.{HasNoRest, HasRestText};

use crate::documents::{OnResponses, holds_of_responses};
use odb_check::laws::every_plan;
use odb_check::{Plan, check};
use odb_doc::{Batch, Fault, parse};
use odb_reply::{Responses, Table, match_responses};
use odb_send::laws::{every_resending, every_text, one_rest};
use odb_send::{RestFault, rest_of, rest_text};
use odb_testing::Two;
use serde_json::Value;
use std::alloc::Global;
use std::test::Fail;

/// Makes the text of the rest of a batch, unless memory runs out.
pub fn text_of_rest(
    alloc: Global,
    document: &[u8],
    value: &Value,
    plan: &Plan<'_>,
    table: &Table,
    given: &Value,
) -> Option<Result<String, RestFault>>
    requires document { IsBatchIn document.now (view value.now) (plan_records plan.now) }
    requires places { length (places table.now) ≡ length (plan_records plan.now) }
    requires statuses { length (statuses table.now) ≡ length (plan_records plan.now) }
    ensures { IfSome result (IsReading
        (λ text. HasRestText document.now (view value.now) (plan_records plan.now) (statuses table.now)
        (recorded (view given.now) (places table.now) (statuses table.now)) (string_bytes text))
        (HasNoRest (plan_records plan.now) (statuses table.now)
        (recorded (view given.now) (places table.now) (statuses table.now)))) }
{
    let _value = value;
    let rest = match rest_of(alloc, plan, table, given) {
        Ok(rest) => rest,
        Err(RestFault::OutOfMemory) => return None,
        Err(fault) => return Some(Err(fault)),
    };
    match rest_text(alloc, document, plan, &rest) {
        Ok(text) => Some(Ok(text)),
        Err(_) => None,
    }
}

/// Makes the text of the rest of a batch twice.
fn rest_twice(
    alloc: Global,
    document: &[u8],
    value: &Value,
    plan: &Plan<'_>,
    table: &Table,
    given: &Value,
) -> Two<Result<String, RestFault>>
    requires document { IsBatchIn document.now (view value.now) (plan_records plan.now) }
    requires places { length (places table.now) ≡ length (plan_records plan.now) }
    requires statuses { length (statuses table.now) ≡ length (plan_records plan.now) }
    ensures { IfSome result.0 (λ one. IfSome result.1 (IsSame string_bytes one)) }
{
    one_rest();
    (
        text_of_rest(alloc, document, value, plan, table, given),
        text_of_rest(alloc, document, value, plan, table, given),
    )
}

/// Returns whether responses fit a batch.
fn fits_batch(alloc: Global, batch: &Batch<'_>, others: &Responses<'_>) -> bool
    ensures { result ≡ true → Fits (records batch.now) (entries others.now) }
{
    let Ok(plan) = check(alloc, batch) else {
        return false;
    };
    match match_responses(alloc, &plan, others) {
        Ok(_) => true,
        Err(_) => false,
    }
}

/// Returns whether responses fit the batch in a value.
fn fits_value(alloc: Global, value: &Value, others: &Responses<'_>) -> bool
    ensures { (batch : List Record) → IsBatchOf (view value.now) batch → result ≡ true
        → Fits batch (entries others.now) }
{
    odb_doc::laws::one_batch();
    match Batch::read(alloc, value) {
        Ok(batch) => fits_batch(alloc, &batch, others),
        Err(_) => false,
    }
}

/// Returns whether responses fit the batch in a text.
fn fits_text(alloc: Global, text: &str, others: &Responses<'_>) -> bool
    ensures { (batch : List Record) → IsDocumentOf text.now batch → result ≡ true
        → Fits batch (entries others.now) }
{
    match parse(alloc, text.as_bytes()) {
        Ok(value) => fits_value(alloc, &value, others),
        Err(_) => false,
    }
}

/// Returns whether responses fit a batch, and others fit its rest. Then these fit the batch, in place of those to the same
/// requests.
fn fits_resent(
    alloc: Global,
    document: &[u8],
    value: &Value,
    plan: &Plan<'_>,
    responses: &Responses<'_>,
    given: &Value,
    others: &Responses<'_>,
) -> bool
    requires document { IsBatchIn document.now (view value.now) (plan_records plan.now) }
    requires shaped { IsWellShaped (view value.now) }
    ensures { result ≡ true
        → Fits (plan_records plan.now) (with_rest (entries responses.now) (entries others.now)) }
{
    every_plan(plan);
    every_text();
    every_resending();
    let _value = value;
    let Ok(table) = match_responses(alloc, plan, responses) else {
        return false;
    };
    let Ok(rest) = rest_of(alloc, plan, &table, given) else {
        return false;
    };
    let Ok(text) = rest_text(alloc, document, plan, &rest) else {
        return false;
    };
    fits_text(alloc, text.as_str(), others)
}

/// A batch of two requests, of which the second depends on the first.
const BATCH: &str = r#"{"requests":[{"id":"a","method":"post","url":"A","body":{}},
    {"id":"b","method":"get","url":"$a/B","dependsOn":["a"],"headers":{"If-Match":"$a"}}]}"#;

/// Responses to the batch, and the text of its rest or the code of the fault by which there is none.
const RESTS: &[(&str, &str)] = &[
    (
        r#"{"responses":[{"id":"a","status":503},{"id":"b","status":424}]}"#,
        r#"{"requests":[{"body":{},"id":"a","method":"post","url":"A"},{"dependsOn":["a"],"headers":{"if-match":"$a"},"id":"b","method":"get","url":"$a/B"}]}"#,
    ),
    (
        r#"{"responses":[{"id":"a","status":201},{"id":"b","status":503}]}"#,
        "F90",
    ),
    (
        r#"{"responses":[{"id":"a","status":201,"headers":{"Location":"/A(1)"}},{"id":"b","status":503}]}"#,
        "F91",
    ),
];

/// Whether both calls made this text, or found a fault with this code.
fn are(both: &Two<Result<String, RestFault>>, wanted: &str) -> bool {
    match both {
        (Some(Ok(one)), Some(Ok(other))) => one == other && one.as_str() == wanted,
        (Some(Err(one)), Some(Err(other))) => {
            one == other && one.refusal().is_some_and(|it| it.code == wanted)
        }
        _ => false,
    }
}

/// The text of the rest, or the code of the fault by which there is none.
#[derive(Drop)]
struct MadeTwice(&'static str);

impl OnResponses for MadeTwice {
    fn holds(
        &self,
        alloc: Global,
        document: &[u8],
        value: &Value,
        plan: &Plan<'_>,
        given: &Value,
        _responses: &Responses<'_>,
        table: &Table,
    ) -> bool {
        are(
            &rest_twice(alloc, document, value, plan, table, given),
            self.0,
        )
    }
}

#[test]
fn a_rest_is_one(rt: HostRuntime) -> Result<(), Fail> {
    for (given, wanted) in RESTS {
        if !holds_of_responses(rt.alloc(), BATCH, given, &MadeTwice(wanted)) {
            return Err(Fail::new(wanted));
        }
    }
    Ok(())
}

const UNAVAILABLE: &str =
    r#"{"responses":[{"id":"a","status":201,"headers":{"Location":"/A(1)","ETag":"1"}},{"id":"b","status":503}]}"#;

/// Responses to the rest, and whether they fit it.
const ANSWERS: &[(&str, bool)] = &[
    (r#"{"responses":[{"id":"b","status":200}]}"#, true),
    (r#"{"responses":[{"id":"b","status":503}]}"#, true),
    (
        r#"{"responses":[{"id":"a","status":200},{"id":"b","status":200}]}"#,
        false,
    ),
];

/// Responses to the rest of the batch, and whether they fit it.
#[derive(Drop)]
struct Resent(&'static str, bool);

impl Resent {
    /// Whether the responses in a value fit the rest, or do not, as is asked for.
    fn holds_of(
        &self,
        alloc: Global,
        document: &[u8],
        value: &Value,
        plan: &Plan<'_>,
        responses: &Responses<'_>,
        given: &Value,
        answers: &Value,
    ) -> bool
        requires document { IsBatchIn document.now (view value.now) (plan_records plan.now) }
        requires shaped { IsWellShaped (view value.now) }
    {
        match Responses::read(alloc, answers) {
            Ok(others) => fits_resent(alloc, document, value, plan, responses, given, &others)
                == self.1,
            Err(_) => false,
        }
    }
}

impl OnResponses for Resent {
    fn holds(
        &self,
        alloc: Global,
        document: &[u8],
        value: &Value,
        plan: &Plan<'_>,
        given: &Value,
        responses: &Responses<'_>,
        _table: &Table,
    ) -> bool {
        match parse(alloc, self.0.as_bytes()) {
            Ok(answers) => self.holds_of(alloc, document, value, plan, responses, given, &answers),
            Err(_) => false,
        }
    }
}

#[test]
fn responses_to_a_rest_fit_the_batch(rt: HostRuntime) -> Result<(), Fail> {
    for (answers, fit) in ANSWERS {
        if !holds_of_responses(rt.alloc(), BATCH, UNAVAILABLE, &Resent(answers, *fit)) {
            return Err(Fail::new(answers));
        }
    }
    Ok(())
}
