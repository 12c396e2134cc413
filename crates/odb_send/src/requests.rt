//! What is to be sent of all requests of a batch.

ghost use Rattle.std.specs.Prelude.{◌≡◌, length, IfOk, string_bytes};
ghost use Rattle.std.specs.List.{AllZip};
ghost use Rattle.serde_json.specs.Data.{Data};
ghost use Rattle.odb_check.specs.Plans.{plan_records};
ghost use Rattle.odb_send.specs.Parts.{AreRequestsOf, HasParts, IsBatchIn, bodies_of};

use crate::parts::{RequestParts, push_request};
use odb_check::Plan;
use odb_spans::{Span, bodies_in};
use std::alloc::{AllocError, Global};

/// What is to be sent of the requests of a batch, in the order of the batch.
#[derive(Drop)]
pub struct Requests {
    /// The text in which all parts lie but the bodies.
    pub text: String,
    /// The parts of each request.
    pub parts: Vec<RequestParts>,
}

/// Returns the parts of the requests of a plan, by where the body of each lies in the document.
fn with_bodies(
    alloc: Global,
    plan: &Plan<'_>,
    bodies: &[Option<Span>],
) -> Result<Requests, AllocError>
    requires { length bodies.now ≡ length (plan_records plan.now) }
    ensures parts { IfOk result (λ found. AllZip (HasParts (plan_records plan.now)
        (string_bytes found.text)) (plan_records plan.now) found.parts.items) }
    ensures bodies { IfOk result (λ found. bodies_of found.parts.items ≡ bodies.now) }
{
    let mut text = String::new(alloc);
    let mut parts = Vec::with_capacity(alloc, bodies.len())?;
    for i in 0..plan.len() {
        let request = push_request(alloc, &mut text, plan, i, bodies[i as usize])?;
        parts.push(request)?;
    }
    Ok(Requests { text, parts })
}

/// Returns what is to be sent of each request of a planned batch (OData JSON Format 4.01, section 19.1). `document`
/// is the document of the batch.
///
/// Costs O(n log r) for a document of n bytes and r requests, and allocates O(n) bytes: no body is copied.
///
/// # Errors
///
/// If an allocation fails.
pub fn requests_of(alloc: Global, document: &[u8], plan: &Plan<'_>) -> Result<Requests, AllocError>
    requires { (d : Data) × IsBatchIn document.now d (plan_records plan.now) }
    ensures { IfOk result (λ found. (d : Data) → IsBatchIn document.now d (plan_records plan.now)
        → AreRequestsOf document.now d (plan_records plan.now) found) }
{
    let bodies = bodies_in(alloc, document)?;
    with_bodies(alloc, plan, &bodies)
}
