//! The parts of the responses of a service.

ghost use Rattle.std.specs.Prelude.{◌≡◌, ◌<◌, length, IfOk, OnOk, string_bytes};
ghost use Rattle.std.specs.List.{AllZip};
ghost use Rattle.serde_json.specs.Data.{Data};
ghost use Rattle.odb_doc.specs.Documents.{IsJson};
ghost use Rattle.odb_reply.specs.ResponseDocuments.{entries, entry_of, ReadsAs, responses_in};
ghost use Rattle.odb_send.specs.Pieces.{Extends};
ghost use Rattle.odb_send.specs.ResponseParts.{AreResponsesOf, HasResponseParts, bodies_of, headers_of};

use crate::piece::{push_part, push_part_if};
use odb_reply::{Response, Responses};
use odb_spans::{Span, members_in};
use std::alloc::{AllocError, Global};

/// Where the parts of a response lie (OData JSON Format 4.01, section 19.5): headers and body in the document, id and group
/// in the text of [`ResponseList`].
#[derive(Clone, Copy, Debug, Drop, PartialEq, Eq)]
pub struct ResponseParts {
    /// The id.
    pub id: Span,
    /// The atomicity group, if it has one.
    pub group: Option<Span>,
    /// The status.
    pub status: u16,
    /// The headers, whatever their value is, if there are any. `null` is treated as absent.
    pub headers: Option<Span>,
    /// The body, if there is one. `null` is treated as absent.
    pub body: Option<Span>,
}

/// The responses of a service, in the order of their document.
#[derive(Drop)]
pub struct ResponseList {
    /// The text in which ids and groups lie.
    pub text: String,
    /// The parts of each response.
    pub parts: Vec<ResponseParts>,
}

/// Appends the parts of a response, and returns where they lie.
fn push_response(
    text: &mut String,
    response: &Response<'_>,
    headers: Option<Span>,
    body: Option<Span>,
) -> Result<ResponseParts, AllocError>
    ensures text { OnOk result (Extends (string_bytes text.old) (string_bytes text.new)) }
    ensures parts { IfOk result (HasResponseParts (string_bytes text.new) (entry_of response.now)) }
    ensures headers { IfOk result (λ parts. parts.headers ≡ headers) }
    ensures body { IfOk result (λ parts. parts.body ≡ body) }
{
    let id = push_part(text, response.id)?;
    let group = push_part_if(text, response.group)?;
    Ok(ResponseParts {
        id,
        group,
        status: response.status,
        headers,
        body,
    })
}

/// Returns the parts of responses, by where the headers and the body of each lie in the document.
fn with_members(
    alloc: Global,
    responses: &Responses<'_>,
    headers: &[Option<Span>],
    bodies: &[Option<Span>],
) -> Result<ResponseList, AllocError>
    requires headers { length headers.now ≡ length (entries responses.now) }
    requires bodies { length bodies.now ≡ length (entries responses.now) }
    ensures parts { IfOk result (λ found. AllZip (HasResponseParts (string_bytes found.text))
        (entries responses.now) found.parts.items) }
    ensures headers { IfOk result (λ found. headers_of found.parts.items ≡ headers.now) }
    ensures bodies { IfOk result (λ found. bodies_of found.parts.items ≡ bodies.now) }
{
    let mut text = String::new(alloc);
    let mut parts = Vec::with_capacity(alloc, bodies.len())?;
    for i in 0..responses.len() {
        let response = push_response(&mut text, responses.entry(i), headers[i], bodies[i])?;
        parts.push(response)?;
    }
    Ok(ResponseList { text, parts })
}

/// Returns the parts of the responses of a document, which [`Responses::read`] has read: the bytes of headers and bodies are
/// those of the document.
///
/// Costs O(n) for a document of n bytes, and copies ids and groups alone.
///
/// # Errors
///
/// If an allocation fails.
pub fn responses_of(
    alloc: Global,
    document: &[u8],
    responses: &Responses<'_>,
) -> Result<ResponseList, AllocError>
    requires { (d : Data) × IsJson document.now d × AllZip ReadsAs (responses_in d) (entries responses.now) }
    ensures { IfOk result (λ found. (d : Data) → IsJson document.now d
        → AllZip ReadsAs (responses_in d) (entries responses.now)
        → AreResponsesOf document.now d (entries responses.now) found) }
{
    let headers = members_in(alloc, document, "responses", "headers")?;
    let bodies = members_in(alloc, document, "responses", "body")?;
    with_members(alloc, responses, &headers, &bodies)
}
