//! A plan with what is to be sent of each request, as one line of compact JSON.

ghost use Rattle.std.specs.Prelude.{◌≡◌, ◌<◌, ◌++◌, None, get_or, length, IfOk, OnOk, string_bytes};
ghost use Rattle.odb_doc.specs.batch.Records.{record_of};
ghost use Rattle.odb_check.specs.Plans.{plan_records};
ghost use Rattle.odb_text.specs.FullPlans.{full_plan_value, full_planned};
ghost use Rattle.odb_text.specs.Results.{json_line};
ghost use Rattle.odb_text.specs.ResultParts.{body_part, element, before_needs_part, headers_part, reference_part, url_part};

use crate::plan::{push_group, push_id, push_needs};
use crate::results::push_string;
use odb_check::Plan;
use odb_doc::Request;
use odb_doc::text::push_open;
use odb_spans::Span;
use std::alloc::{AllocError, Global};
use std::fmt::Write;

/// Appends the member `body`, if there is a body: where its bytes are in the document.
fn push_body(text: &mut String, body: Option<Span>) -> Result<(), AllocError>
    ensures { OnOk result (string_bytes text.new ≡ string_bytes text.old ++ body_part body) }
{
    match body {
        Some(Span { start, end }) => {
            let length = end.saturating_sub(start);
            write!(text, "\"body\":{{\"length\":{length},\"offset\":{start}}},").map_err(
                |_| AllocError,
            )
        }
        None => Ok(()),
    }
}

/// Appends the member `headers`.
fn push_headers(alloc: Global, text: &mut String, request: &Request<'_>) -> Result<(), AllocError>
    ensures { OnOk result (string_bytes text.new ≡ string_bytes text.old
        ++ headers_part (record_of request.now).headers) }
{
    text.push_str("\"headers\":")?;
    request.push_headers(alloc, text)?;
    text.push_str(",")
}

/// Appends a comma and the member `reference`, if the URL refers to a request.
fn push_reference(alloc: Global, text: &mut String, request: &Request<'_>) -> Result<(), AllocError>
    ensures { OnOk result (string_bytes text.new ≡ string_bytes text.old
        ++ reference_part (record_of request.now).reference) }
{
    match &request.reference {
        Some(id) => push_string(alloc, text, ",\"reference\":", id.as_str()),
        None => Ok(()),
    }
}

/// Appends the members `reference`, if the URL refers to a request, `rest` and `url`, each with a comma first, and the end
/// of the request.
fn push_url(alloc: Global, text: &mut String, request: &Request<'_>) -> Result<(), AllocError>
    ensures { OnOk result (string_bytes text.new ≡ string_bytes text.old
        ++ url_part (record_of request.now)) }
{
    push_reference(alloc, text, request)?;
    push_string(alloc, text, ",\"rest\":", request.url_rest())?;
    push_string(alloc, text, ",\"url\":", request.url)?;
    text.push_str("}")
}

/// Returns the body of the request at a position, if there is one.
fn body_at(bodies: &[Option<Span>], i: u32) -> Option<Span>
    ensures { result ≡ get_or bodies.now i None }
{
    match bodies.get(i as usize) {
        Some(body) => *body,
        None => None,
    }
}

/// Appends the members `body`, if there is a body, `group`, if there is a group, `headers`, `id`, `level` and `method`.
fn push_before_needs(
    alloc: Global,
    text: &mut String,
    request: &Request<'_>,
    level: u32,
    body: Option<Span>,
) -> Result<(), AllocError>
    ensures { OnOk result (string_bytes text.new ≡ string_bytes text.old
        ++ before_needs_part body level (record_of request.now)) }
{
    push_body(text, body)?;
    push_group(alloc, text, request.group)?;
    push_headers(alloc, text, request)?;
    push_id(alloc, text, request.id, level)?;
    push_string(alloc, text, "\"method\":", request.method.http_name())
}

/// Appends request `i`, with a comma first unless it is the first request.
fn push_full(
    alloc: Global,
    text: &mut String,
    plan: &Plan<'_>,
    bodies: &[Option<Span>],
    i: u32,
) -> Result<(), AllocError>
    requires { i < length (plan_records plan.now) }
    ensures { OnOk result (string_bytes text.new ≡ string_bytes text.old
        ++ element (full_planned (plan_records plan.now) bodies.now) i) }
{
    let _count = plan.len();
    let request = plan.request(i);
    push_open(text, i > 0)?;
    push_before_needs(alloc, text, request, plan.level(i), body_at(bodies, i))?;
    text.push_str(",\"needs\":[")?;
    push_needs(alloc, text, plan, plan.needs(i))?;
    push_url(alloc, text, request)
}

/// Returns a plan with what is to be sent of each request as a line of JSON: `{"requests":[..]}`, for each request
/// what [`crate::plan_json`] has, its method as HTTP names it, its URL with the id that it refers to, if any, and the
/// rest after that, its headers, and where its body is in the document, if it has one. `bodies` has the span of each
/// body, as [`odb_spans::bodies_in`] returns them.
///
/// Takes O(n) time for a text of n bytes.
///
/// # Errors
///
/// `AllocError` if an allocation fails.
pub fn full_plan_json(
    alloc: Global,
    plan: &Plan<'_>,
    bodies: &[Option<Span>],
) -> Result<String, AllocError>
    ensures { IfOk result (λ text. string_bytes text
        ≡ json_line (full_plan_value (plan_records plan.now) bodies.now)) }
{
    let mut text = String::from_str(alloc, "{\"requests\":[")?;
    for i in 0..plan.len() {
        push_full(alloc, &mut text, plan, bodies, i)?;
    }
    text.push_str("]}\n")?;
    Ok(text)
}
