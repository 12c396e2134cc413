//! The lines that commands print.

ghost use Rattle.std.specs.Prelude.{◌≡◌, ◌<◌, ◌++◌, length, IfOk, OnOk, string_bytes};
ghost use Rattle.odb_check.specs.Plans.{plan_records};
ghost use Rattle.odb_text.specs.Lines as lines;

use odb_check::Plan;
use odb_doc::Place;
use std::alloc::{AllocError, Global};
use std::fmt::Write;

/// Room for the line of any batch that is accepted, so that the text does not grow.
const ACCEPTED_BYTES: usize = 32;

/// Returns the text of a place.
pub fn place_text(alloc: Global, place: Place) -> Result<String, AllocError>
    ensures { IfOk result (λ text. string_bytes text ≡ lines.place_text place) }
{
    match place {
        Place::Batch => format!(in alloc; "batch"),
        Place::Request(at) => format!(in alloc; "/requests/{at}"),
        Place::Outcomes => format!(in alloc; "outcomes"),
        Place::Outcome(at) => format!(in alloc; "/outcomes/{at}"),
        Place::Responses => format!(in alloc; "responses"),
        Place::Response(at) => format!(in alloc; "/responses/{at}"),
        Place::Events => format!(in alloc; "events"),
        Place::Event(at) => format!(in alloc; "/events/{at}"),
    }
}

/// Returns the line of responses that fit their batch: `ok N responses`.
fn fit_line(alloc: Global, responses: u32) -> Result<String, AllocError>
    ensures { IfOk result (λ line. string_bytes line ≡ lines.fit_line responses) }
{
    format!(in alloc; "ok {responses} responses\n")
}

/// Appends the id of a request and the status of its response as a line.
fn push_status(
    text: &mut String,
    plan: &Plan<'_>,
    statuses: &[u16],
    i: u32,
) -> Result<(), AllocError>
    requires within { i < length (plan_records plan.now) }
    requires statuses { length statuses.now ≡ length (plan_records plan.now) }
    ensures { OnOk result (string_bytes text.new
        ≡ string_bytes text.old ++ lines.status_line (plan_records plan.now) statuses.now i) }
{
    let id = plan.request(i).id;
    let status = statuses[i as usize];
    write!(text, "{id} {status}\n").map_err(|_| AllocError)
}

/// Returns the line of responses that fit their batch, `ok N responses`, and then for each request a line
/// `ID STATUS`, in the order of the batch. `statuses` has the status of each request.
///
/// # Errors
///
/// `AllocError` if an allocation fails.
pub fn match_lines(alloc: Global, plan: &Plan<'_>, statuses: &[u16]) -> Result<String, AllocError>
    requires { length statuses.now ≡ length (plan_records plan.now) }
    ensures { IfOk result (λ text. string_bytes text ≡ lines.fit_line (length (plan_records plan.now))
        ++ lines.status_lines (plan_records plan.now) statuses.now) }
{
    let mut text = fit_line(alloc, plan.len())?;
    for i in 0..plan.len() {
        push_status(&mut text, plan, statuses, i)?;
    }
    Ok(text)
}

/// Returns the line of a batch that the check accepts: `ok N requests M groups`.
///
/// # Errors
///
/// `AllocError` if an allocation fails.
pub fn accepted_line(alloc: Global, requests: u32, groups: u32) -> Result<String, AllocError>
    ensures { IfOk result (λ line. string_bytes line ≡ lines.accepted_line requests groups) }
{
    let mut line = String::with_capacity(alloc, ACCEPTED_BYTES)?;
    write!(line, "ok {requests} requests {groups} groups\n").map_err(|_| AllocError)?;
    Ok(line)
}
