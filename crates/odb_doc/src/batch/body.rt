//! The body of a request, and the rules on when it may have one and of which kind.

ghost use Rattle.std.specs.Prelude.{◌≡◌, ◌↔◌, false, map, IsTrue, IfOk};
ghost use Rattle.serde_json.specs.Data.{Data};
ghost use Rattle.serde_json.specs.View.{view};
ghost use Rattle.odb_doc.specs.batch.Bodies.{content_type};
ghost use Rattle.odb_doc.specs.batch.BodyKinds.{IsOfKind};
ghost use Rattle.odb_doc.specs.batch.MembersFound.{FitsBody, HasParts};
ghost use Rattle.odb_doc.specs.Headers.{lent_headers};
ghost use Rattle.odb_doc.specs.BrokenRules.{IsRequestObject};
ghost use Rattle.odb_doc.specs.batch.MediaTypes.{AllowsBody};

use crate::batch::folded::Headers;
use crate::batch::media_type::BodyKind;
use crate::batch::members::Members;
use crate::member::given;
use odb_names::{Method, is_base64url};
use serde_json::Value;
use std::alloc::{AllocError, Global};

/// Returns whether the value is a body of this kind.
fn is_of_kind(kind: BodyKind, body: &Value) -> bool
    ensures { IsTrue result ↔ IsOfKind kind (view body.now) }
{
    match kind {
        BodyKind::Any => true,
        BodyKind::Text => body.is_string(),
        BodyKind::Base64Url => matches!(body.as_str(), Some(text) if is_base64url(text)),
    }
}

/// Returns the value of the header `content-type`, or the empty text if there is none.
#[inline(always)]
fn content_type<'a>(headers: &Headers<'a>) -> &'a str
    ensures { result.now ≡ content_type (lent_headers headers.now) }
{
    headers.get("content-type").unwrap_or("")
}

/// Returns whether the media type in the headers allows the body.
#[inline(always)]
pub(crate) fn is_allowed(
    alloc: Global,
    headers: &Headers<'_>,
    body: &Value,
) -> Result<bool, AllocError>
    ensures { IfOk result (λ fit. IsTrue fit ↔ AllowsBody (content_type (lent_headers headers.now))
        (view body.now)) }
{
    odb_names::laws::one_reading();
    let kind = BodyKind::of(alloc, content_type(headers))?;
    Ok(is_of_kind(kind, body))
}

/// Returns whether a request with this method and these headers may have its body, or has none.
pub(crate) fn may_have_body(
    alloc: Global,
    members: &Members<'_>,
    method: Method,
    headers: &Headers<'_>,
) -> Result<bool, AllocError>
    ensures fits { IfOk result (λ may. IsTrue may → (d : Data)
        → HasParts d members.now method (lent_headers headers.now) → FitsBody d) }
    ensures breaks { IfOk result (λ may. may ≡ false → (d : Data)
        → HasParts d members.now method (lent_headers headers.now) → ¬ IsRequestObject d) }
{
    let Some(body) = given(members.body) else {
        return Ok(true);
    };
    if !method.takes_body() {
        return Ok(false);
    }
    is_allowed(alloc, headers, body)
}
