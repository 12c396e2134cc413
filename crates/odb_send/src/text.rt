//! The text of the rest of a batch.

ghost use Rattle.std.specs.Prelude.{◌≡◌, ◌<◌, ◌++◌, true, false, length, option_map, slice_get, Some, string_bytes, IfOk, OnOk, IfSome};
ghost use Rattle.serde_json.specs.Data.{Data};
ghost use Rattle.serde_json.specs.Written.{comma_if};
ghost use Rattle.odb_check.specs.Plans.{plan_records};
ghost use Rattle.odb_check.specs.Units as all;
ghost use Rattle.odb_doc.specs.batch.Records.{Record, record_of};
ghost use Rattle.odb_send.specs.Marks.{AreTexts, IsTextIn, texts_left, url_in};
ghost use Rattle.odb_send.specs.Rests as rests;
ghost use Rattle.odb_send.specs.Texts as texts;
ghost use Rattle.odb_send.specs.Parts.{IsBatchIn};
ghost use Rattle.odb_spans.specs.Spans.{bytes_of};

use crate::changes::Change;
use crate::headers::push_headers;
use crate::names::push_kept_names;
use crate::rest::Rest;
use crate::urls::is_kept;
use odb_check::Plan;
use odb_doc::Request;
use odb_doc::text::{push_group, push_open, push_request_end};
use odb_spans::{Span, bodies_in};
use std::alloc::{AllocError, Global};

/// Appends the member `body` as the bytes that the document has, if there is a body.
fn push_body(text: &mut String, document: &[u8], body: Option<Span>) -> Result<(), AllocError>
    requires { IfSome body (IsTextIn document.now) }
    ensures { OnOk result (string_bytes text.new ≡ string_bytes text.old
        ++ texts.body_part (option_map (bytes_of document.now) body)) }
{
    let Some(span) = body else {
        return Ok(());
    };
    let Ok(bytes) = std::str::from_utf8(span.bytes_in(document)) else {
        return Ok(());
    };
    text.push_str("\"body\":")?;
    text.push_str(bytes)?;
    text.push_str(",")
}

/// Returns the URL of a request in the rest.
fn url_in<'a>(change: &'a Change, request: &'a Request<'_>) -> &'a str
    ensures { result.now ≡ url_in (rests.change_of change.now).url (record_of request.now) }
{
    match &change.url {
        Some(url) => url.as_str(),
        None => request.url,
    }
}

/// Appends request `i` as the rest has it, with a comma first if something stands before.
fn push_request(
    alloc: Global,
    text: &mut String,
    plan: &Plan<'_>,
    rest: &Rest,
    document: &[u8],
    body: Option<Span>,
    later: bool,
    i: u32,
) -> Result<(), AllocError>
    requires request { i < length (plan_records plan.now) }
    requires count { length (rests.kept rest.now) ≡ all.unit_count (plan_records plan.now) }
    requires changes { length (rests.changes rest.now) ≡ length (plan_records plan.now) }
    requires body { IfSome body (IsTextIn document.now) }
    ensures { OnOk result ((r : Record) → slice_get (plan_records plan.now) i ≡ Some r
        → string_bytes text.new ≡ string_bytes text.old ++ (comma_if later
        ++ texts.request_text (rests.rest_record (plan_records plan.now) (rests.kept rest.now)
        (rests.change_at (rests.changes rest.now) i) r) (option_map (bytes_of document.now) body))) }
{
    let request = plan.request(i);
    let change = &rest.changes[i as usize];
    push_open(text, later)?;
    push_group(alloc, text, request.group)?;
    push_body(text, document, body)?;
    push_kept_names(alloc, text, plan, &rest.kept, i)?;
    push_headers(alloc, text, request, change)?;
    push_request_end(
        alloc,
        text,
        request.id,
        request.method,
        url_in(change, request),
    )
}

/// Appends the requests of the rest, with commas between them.
fn push_requests(
    alloc: Global,
    text: &mut String,
    plan: &Plan<'_>,
    rest: &Rest,
    document: &[u8],
    bodies: &[Option<Span>],
) -> Result<(), AllocError>
    requires count { length (rests.kept rest.now) ≡ all.unit_count (plan_records plan.now) }
    requires changes { length (rests.changes rest.now) ≡ length (plan_records plan.now) }
    requires bodies { length bodies.now ≡ length (plan_records plan.now) }
    requires texts { AreTexts document.now bodies.now }
    ensures { OnOk result (string_bytes text.new ≡ string_bytes text.old
        ++ texts_left (plan_records plan.now) (rests.kept rest.now) (rests.changes rest.now)
        (texts.bodies_in document.now bodies.now) false 0) }
{
    let mut later = false;
    for i in 0..plan.len() {
        if is_kept(plan, &rest.kept, i) {
            push_request(
                alloc,
                text,
                plan,
                rest,
                document,
                bodies[i as usize],
                later,
                i,
            )?;
            later = true;
        }
    }
    Ok(())
}

/// Returns the text of the rest of a batch (OData JSON Format 4.01, section 19.1): its canonical text, in which
/// each body is the bytes that the document has. So a number such as `9.990` stays as it was written.
///
/// What `serde_json` reads from the text is the rest as a batch, and unless the text is too long for a document the
/// check accepts it ([`crate::laws::every_text`]).
///
/// `document` is the document of the batch, `plan` its plan and `rest` its rest. Takes O(n) for documents of n
/// bytes and a text of n bytes. Allocates the text, where the bodies lie, and one list of names or one string with
/// escapes at a time.
///
/// # Errors
///
/// If an allocation fails.
pub fn rest_text(
    alloc: Global,
    document: &[u8],
    plan: &Plan<'_>,
    rest: &Rest,
) -> Result<String, AllocError>
    requires document { (d : Data) × IsBatchIn document.now d (plan_records plan.now) }
    requires count { length (rests.kept rest.now) ≡ all.unit_count (plan_records plan.now) }
    requires changes { length (rests.changes rest.now) ≡ length (plan_records plan.now) }
    ensures { IfOk result (λ text. (d : Data) → IsBatchIn document.now d (plan_records plan.now)
        → texts.IsTextOf document.now d (plan_records plan.now) rest.now (string_bytes text)) }
{
    let bodies = bodies_in(alloc, document)?;
    let mut text = String::new(alloc);
    text.push_str("{\"requests\":[")?;
    push_requests(alloc, &mut text, plan, rest, document, &bodies)?;
    text.push_str("]}")?;
    Ok(text)
}
