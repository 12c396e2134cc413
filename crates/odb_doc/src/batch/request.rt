//! A request of a batch.

ghost use Rattle.std.specs.Prelude.{IfNone, IfOk, IfSome, OnSome, bytes_eq};
ghost use Rattle.std.specs.List.{IsDistinct};
ghost use Rattle.std.specs.Option.{ForSome};
ghost use Rattle.std.proofs.Props.{props};
ghost use Rattle.serde_json.specs.View.{view};
ghost use Rattle.odb_names.specs.Identifiers.{IsRequestId};
ghost use Rattle.odb_doc.specs.BrokenRules.{IsRequestObject};
ghost use Rattle.odb_doc.specs.Names.{texts_in};

use crate::batch::body::may_have_body;
use crate::batch::depends_on::read_names;
use crate::batch::folded::Headers;
use crate::batch::headers::headers_of;
use crate::batch::line::RequestLine;
use crate::batch::members::Members;
use crate::batch::reference::reference_of;
use crate::member::given;
use odb_names::Method;
use serde_json::Value;
use smallvec::SmallVec;
use std::alloc::{AllocError, Global};

/// One request of a batch (OData JSON Format 4.01, section 19.1).
///
/// Its texts and its body are borrowed from the value of the document, but for the reference, which is
/// percent-decoded.
#[derive(Debug, Drop)]
pub struct Request<'a> {
    /// The identifier of the request.
    pub id: &'a str,
    /// The method of the request.
    pub method: Method,
    /// The URL as the document has it, also the empty text.
    pub url: &'a str,
    /// The atomicity group that the request is in, if any. `null` is treated as absent.
    pub group: Option<&'a str>,
    /// The identifiers and groups in `dependsOn`, each at its first place. One alone takes no allocation.
    pub names: SmallVec<&'a str, 1>,
    /// The identifier of the request to whose response the URL is relative, if it refers to one.
    pub reference: Option<String>,
    /// The headers by their names in lower case.
    pub headers: Headers<'a>,
    /// The body, if any. `null` is treated as absent.
    pub body: Option<&'a Value>,
    ghost id_form: { IsRequestId id.now },
    ghost group_form: { ForSome group (λ text. IsRequestId text.now) },
    ghost names_apart: { IsDistinct bytes_eq (texts_in names.items) } by { Prim.hlevel props },
}

impl<'a> Request<'a> {
    ghost use Rattle.odb_doc.specs.batch.Records.{ReadsAs, record_of};

    /// Reads an element of `requests`; `None` if it breaks a rule.
    pub(crate) fn read(alloc: Global, element: &'a Value) -> Result<Option<Self>, AllocError>
        ensures object { IfOk result (λ found. OnSome found (IsRequestObject (view element.now))) }
        ensures says { IfOk result (λ found. IfSome found (λ r. ReadsAs (view element.now) (record_of r))) }
        ensures none { IfOk result (λ found. IfNone found (¬ IsRequestObject (view element.now))) }
    {
        let members = Members::of(element);
        let Some(line) = RequestLine::read(element, &members) else {
            return Ok(None);
        };
        let Some(names) = read_names(alloc, &members)? else {
            return Ok(None);
        };
        let Some(headers) = headers_of(alloc, &members)? else {
            return Ok(None);
        };
        if !may_have_body(alloc, &members, line.method, &headers)? {
            return Ok(None);
        }
        let Some(reference) = reference_of(alloc, line.url)? else {
            return Ok(None);
        };
        Ok(Some(Request {
            id: line.id,
            method: line.method,
            url: line.url,
            group: line.group,
            names,
            reference,
            headers,
            body: given(members.body),
        }))
    }
}
