//! The parts of one request.

ghost use Rattle.std.specs.Prelude.{◌≡◌, ◌≤◌, ◌<◌, ◌++◌, ℕ, List, All, length, slice_get, Some, IfOk, OnOk, string_bytes};
ghost use Rattle.odb_doc.specs.batch.Records.{Record, record_of};
ghost use Rattle.odb_check.specs.Needs.{needs_at};
ghost use Rattle.odb_check.specs.PlanGraph.{IsNeed};
ghost use Rattle.odb_check.specs.Plans.{plan_records, plan_graph};
ghost use Rattle.odb_check.specs.Texts.{further_text};
ghost use Rattle.odb_doc.specs.batch.UrlRests.{url_rest};
ghost use Rattle.odb_send.specs.Parts.{HasPart, HasParts, headers_text, needs_text};
ghost use Rattle.odb_send.specs.Pieces.{Extends};

use crate::piece::{push_part, push_part_if};
use odb_check::{Need, Plan};
use odb_doc::Request;
use odb_spans::Span;
use std::alloc::{AllocError, Global};

/// Where the parts of a request lie (OData JSON Format 4.01, section 19.1): the body in the document, and all
/// other parts in the text of [`crate::Requests`].
#[derive(Clone, Copy, Debug, Drop, PartialEq, Eq)]
pub struct RequestParts {
    /// The id.
    pub id: Span,
    /// The method in upper case.
    pub method: Span,
    /// The URL as the document has it, with its escapes in JSON resolved.
    pub url: Span,
    /// The part of the URL after the id that it refers to: `/Lines?x=1` of `$a/Lines?x=1`. The whole URL if it
    /// refers to no request.
    pub rest: Span,
    /// The position of the request that the URL refers to, if any.
    pub reference: Option<u32>,
    /// The headers as a JSON object of strings: names in lower case, in byte order. It is `{}` if there are none.
    pub headers: Span,
    /// The atomicity group, if the request is in one.
    pub group: Option<Span>,
    /// The ids and groups that the request depends on, with commas between them, in the order of the plan.
    pub needs: Span,
    /// The body in the document, if there is one. `null` is treated as absent.
    pub body: Option<Span>,
}

/// Appends the headers of a request, and returns where they lie.
fn push_headers_part(
    alloc: Global,
    text: &mut String,
    request: &Request<'_>,
) -> Result<Span, AllocError>
    ensures text { OnOk result (Extends (string_bytes text.old) (string_bytes text.new)) }
    ensures part { IfOk result (HasPart (string_bytes text.new)
        (headers_text (record_of request.now))) }
{
    let start = text.len();
    request.push_headers(alloc, text)?;
    Ok(Span {
        start,
        end: text.len(),
    })
}

/// Appends names of dependencies, each after a comma.
fn push_further(text: &mut String, plan: &Plan<'_>, needs: &[Need]) -> Result<(), AllocError>
    requires { All (IsNeed (plan_graph plan.now)) needs.now }
    ensures { OnOk result (string_bytes text.new
        ≡ string_bytes text.old ++ further_text (plan_records plan.now) needs.now) }
{
    for need in needs {
        text.push_str(",")?;
        text.push_str(plan.name_of(*need))?;
    }
    Ok(())
}

/// Appends names of dependencies with commas between them.
fn push_names(text: &mut String, plan: &Plan<'_>, needs: &[Need]) -> Result<(), AllocError>
    requires { All (IsNeed (plan_graph plan.now)) needs.now }
    ensures { OnOk result (string_bytes text.new
        ≡ string_bytes text.old ++ needs_text (plan_records plan.now) needs.now) }
{
    match needs {
        [] => Ok(()),
        [first, further @ ..] => {
            text.push_str(plan.name_of(*first))?;
            push_further(text, plan, further)
        }
    }
}

/// Appends the names of the dependencies of request `i`, and returns where they lie.
fn push_needs_part(text: &mut String, plan: &Plan<'_>, i: u32) -> Result<Span, AllocError>
    requires { i < length (plan_records plan.now) }
    ensures text { OnOk result (Extends (string_bytes text.old) (string_bytes text.new)) }
    ensures part { IfOk result (HasPart (string_bytes text.new)
        (needs_text (plan_records plan.now) (needs_at (plan_records plan.now) i))) }
{
    let _count = plan.len();
    let start = text.len();
    push_names(text, plan, plan.needs(i))?;
    Ok(Span {
        start,
        end: text.len(),
    })
}

/// Returns where the rest of the URL lies, by where the URL lies.
fn rest_in(request: &Request<'_>, url: Span) -> Span
    requires { length (record_of request.now).url ≤ url.end }
    ensures { (text : List ℕ) → HasPart text (record_of request.now).url url
        → HasPart text (url_rest (record_of request.now)) result }
{
    Span {
        start: url.end - request.url_rest().len(),
        end: url.end,
    }
}

/// Appends the parts of request `i`, and returns where they lie.
pub(crate) fn push_request(
    alloc: Global,
    text: &mut String,
    plan: &Plan<'_>,
    i: u32,
    body: Option<Span>,
) -> Result<RequestParts, AllocError>
    requires { i < length (plan_records plan.now) }
    ensures text { OnOk result (Extends (string_bytes text.old) (string_bytes text.new)) }
    ensures parts { IfOk result (λ parts. (r : Record) → slice_get (plan_records plan.now) i ≡ Some r
        → HasParts (plan_records plan.now) (string_bytes text.new) r parts) }
    ensures body { IfOk result (λ parts. parts.body ≡ body) }
{
    let request = plan.request(i);
    let id = push_part(text, request.id)?;
    let method = push_part(text, request.method.http_name())?;
    let url = push_part(text, request.url)?;
    let headers = push_headers_part(alloc, text, request)?;
    let group = push_part_if(text, request.group)?;
    let needs = push_needs_part(text, plan, i)?;
    Ok(RequestParts {
        id,
        method,
        url,
        rest: rest_in(request, url),
        reference: plan.referred(i),
        headers,
        group,
        needs,
        body,
    })
}
