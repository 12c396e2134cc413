//! The responses of a service that stops at its first error.

ghost use Rattle.std.specs.Prelude.{◌≡◌, length, map, IfOk};
ghost use Rattle.odb_doc.specs.batch.Records.{record_of};
ghost use Rattle.odb_check.specs.Plans.{plan_records};
ghost use Rattle.odb_reply.specs.Completed as completions;
ghost use Rattle.odb_reply.specs.Places.{AreMarks};
ghost use Rattle.odb_reply.specs.ResponseDocuments.{entries, entry_of};

use crate::responses::{Response, Responses};
use odb_check::Plan;
use odb_doc::Request;
use odb_doc::status::{FAILED_DEPENDENCY, is_error};
use std::alloc::{AllocError, Global};

/// Returns whether a response has a status from 400 to 599.
fn has_error(responses: &[Response<'_>]) -> bool
    ensures { result ≡ completions.has_error (map entry_of responses.now) }
{
    for response in responses {
        if is_error(response.status) {
            return true;
        }
    }
    false
}

/// Returns for each request whether a response has its id.
fn marks_of(
    alloc: Global,
    plan: &Plan<'_>,
    responses: &Responses<'_>,
) -> Result<Vec<bool>, AllocError>
    ensures { IfOk result (λ marks. AreMarks (plan_records plan.now) (entries responses.now)
        (length (entries responses.now)) marks.items) }
{
    odb_check::laws::every_plan(plan);
    let mut marks = vec![in alloc; false; plan.len() as usize]?;
    for at in 0..responses.len() {
        if let Some(i) = plan.position_near(at, responses.entry(at).id) {
            marks[i as usize] = true;
        }
    }
    Ok(marks)
}

/// Returns the response to a request that was not performed.
fn not_performed<'a>(request: &Request<'a>) -> Response<'a>
    ensures { entry_of result ≡ completions.not_performed (record_of request.now) }
{
    Response {
        id: request.id,
        group: request.group,
        status: FAILED_DEPENDENCY,
    }
}

impl<'a> Responses<'a> {
    /// Returns the responses of a service that stops at its first error, with those that it may leave out (OData
    /// Protocol 4.01, section 8.2.8.3): if a response has a status from 400 to 599, a response 424 to each request
    /// of the plan that no response has the id of, with the group of the request, after all others and in the
    /// order of the requests. Else they are unchanged, so that a missing response is still F73.
    ///
    /// A response with an unknown or a repeated id stays where it is, so that it is still F71 or F72.
    ///
    /// Allocates a mark per request, and space for the responses that are added. Takes O(responses + requests),
    /// and a look-up in the plan for each response.
    ///
    /// # Errors
    ///
    /// If an allocation fails.
    pub fn completed(self, alloc: Global, plan: &Plan<'a>) -> Result<Responses<'a>, AllocError>
        ensures { IfOk result (λ all. entries all
            ≡ completions.completed (plan_records plan.now) (entries self.entry)) }
    {
        if !has_error(&self.list) {
            return Ok(self);
        }
        let marks = marks_of(alloc, plan, &self)?;
        let mut list = self.list;
        for i in 0..plan.len() {
            if !marks[i as usize] {
                list.push(not_performed(plan.request(i)))?;
            }
        }
        Ok(Responses { list })
    }
}
