//! What a test asks of a batch with its document, and of the responses to it. Each is read in one place, since a function in
//! which many values are dropped takes long to prove.

ghost use Rattle.std.specs.Prelude.{◌≡◌, length};
ghost use Rattle.serde_json.specs.View.{view};
ghost use Rattle.odb_check.specs.Plans.{plan_records};
ghost use Rattle.odb_doc.specs.batch.Batches.{records};
ghost use Rattle.odb_doc.specs.batch.LeastFault.{IsWellShaped};
ghost use Rattle.odb_reply.specs.Fits.{Fits, IsTableOf, places, statuses};
ghost use Rattle.odb_reply.specs.ResponseDocuments.{entries};
ghost use Rattle.odb_doc.specs.Documents.{IsJson};
ghost use Rattle.odb_send.specs.Parts.{IsBatchIn};

use odb_check::{Plan, check};
use odb_doc::{Batch, parse};
use odb_reply::{Responses, Table, match_responses};
use serde_json::Value;
use std::alloc::Global;

/// What a test asks of a batch with its document.
pub trait OnBatch {
    ghost use Rattle.serde_json.specs.View.{view};
    ghost use Rattle.odb_check.specs.Plans.{plan_records};
    ghost use Rattle.odb_doc.specs.batch.LeastFault.{IsWellShaped};
    ghost use Rattle.odb_send.specs.Parts.{IsBatchIn};

    /// Whether it holds. A call that runs out of memory, or finds a fault, does not hold.
    fn holds(&self, alloc: Global, document: &[u8], value: &Value, plan: &Plan<'_>) -> bool
        requires document { IsBatchIn document.now (view value.now) (plan_records plan.now) }
        requires shaped { IsWellShaped (view value.now) };
}

/// What a test asks of responses that fit a batch.
pub trait OnResponses {
    ghost use Rattle.std.specs.Prelude.{◌≡◌, length};
    ghost use Rattle.serde_json.specs.View.{view};
    ghost use Rattle.odb_check.specs.Plans.{plan_records};
    ghost use Rattle.odb_doc.specs.batch.LeastFault.{IsWellShaped};
    ghost use Rattle.odb_reply.specs.Fits.{Fits, IsTableOf, places, statuses};
    ghost use Rattle.odb_reply.specs.ResponseDocuments.{entries};
    ghost use Rattle.odb_send.specs.Parts.{IsBatchIn};

    /// Whether it holds. A call that runs out of memory, or finds a fault, does not hold.
    fn holds(
        &self,
        alloc: Global,
        document: &[u8],
        value: &Value,
        plan: &Plan<'_>,
        given: &Value,
        responses: &Responses<'_>,
        table: &Table,
    ) -> bool
        requires document { IsBatchIn document.now (view value.now) (plan_records plan.now) }
        requires shaped { IsWellShaped (view value.now) }
        requires fits { Fits (plan_records plan.now) (entries responses.now) }
        requires table { IsTableOf (plan_records plan.now) (entries responses.now) (places table.now)
            (statuses table.now) }
        requires places { length (places table.now) ≡ length (plan_records plan.now) }
        requires statuses { length (statuses table.now) ≡ length (plan_records plan.now) };
}

fn holds_of_batch<T: OnBatch>(
    alloc: Global,
    document: &[u8],
    value: &Value,
    batch: &Batch<'_>,
    task: &T,
) -> bool
    requires document { IsBatchIn document.now (view value.now) (records batch.now) }
    requires shaped { IsWellShaped (view value.now) }
{
    match check(alloc, batch) {
        Ok(plan) => task.holds(alloc, document, value, &plan),
        Err(_) => false,
    }
}

fn holds_of_value<T: OnBatch>(alloc: Global, document: &[u8], value: &Value, task: &T) -> bool
    requires { IsJson document.now (view value.now) }
{
    match Batch::read(alloc, value) {
        Ok(batch) => holds_of_batch(alloc, document, value, &batch, task),
        Err(_) => false,
    }
}

/// Whether a document is a batch that the check accepts, and it is what is asked for.
pub fn holds_of<T: OnBatch>(alloc: Global, document: &str, task: &T) -> bool {
    match parse(alloc, document.as_bytes()) {
        Ok(value) => holds_of_value(alloc, document.as_bytes(), &value, task),
        Err(_) => false,
    }
}

/// A response document, and what is asked of it.
#[derive(Drop)]
struct Answered<'a, T> {
    given: &'a str,
    task: &'a T,
}

impl<T: OnResponses> Answered<'_, T> {
    fn holds_of_responses(
        &self,
        alloc: Global,
        document: &[u8],
        value: &Value,
        plan: &Plan<'_>,
        given: &Value,
        responses: &Responses<'_>,
    ) -> bool
        requires document { IsBatchIn document.now (view value.now) (plan_records plan.now) }
        requires shaped { IsWellShaped (view value.now) }
    {
        match match_responses(alloc, plan, responses) {
            Ok(table) => self
                .task
                .holds(alloc, document, value, plan, given, responses, &table),
            Err(_) => false,
        }
    }

    fn holds_of_given(
        &self,
        alloc: Global,
        document: &[u8],
        value: &Value,
        plan: &Plan<'_>,
        given: &Value,
    ) -> bool
        requires document { IsBatchIn document.now (view value.now) (plan_records plan.now) }
        requires shaped { IsWellShaped (view value.now) }
    {
        match Responses::read(alloc, given) {
            Ok(responses) => self.holds_of_responses(
                alloc, document, value, plan, given, &responses,
            ),
            Err(_) => false,
        }
    }
}

impl<T: OnResponses> OnBatch for Answered<'_, T> {
    fn holds(&self, alloc: Global, document: &[u8], value: &Value, plan: &Plan<'_>) -> bool {
        match parse(alloc, self.given.as_bytes()) {
            Ok(given) => self.holds_of_given(alloc, document, value, plan, &given),
            Err(_) => false,
        }
    }
}

/// Whether a document has responses that fit a batch, and they are what is asked for.
pub fn holds_of_responses<T: OnResponses>(
    alloc: Global,
    batch: &str,
    given: &str,
    task: &T,
) -> bool {
    holds_of(alloc, batch, &Answered { given, task })
}
