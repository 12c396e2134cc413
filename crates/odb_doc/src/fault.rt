//! The rules of a batch document, F01 to F23, and where one is broken.

ghost use Rattle.std.specs.Prelude.{◌≡◌};
ghost use Rattle.odb_doc.specs.declared.fault.DocFault.TheVariants as faults;
ghost use Rattle.odb_doc.specs.declared.fault.TextFault.TheVariants as texts;
ghost use Rattle.odb_doc.specs.Faults.{document_row, text_row};

use crate::refusal::{Fault, Refusal};
use std::alloc::{AllocError, AllocFailed};
use thiserror::Error;

/// Where a fault is.
#[derive(Clone, Copy, Debug, PartialEq, Eq)]
pub enum Place {
    /// The batch document as a whole.
    Batch,
    /// The request at this position of `requests`, counted from 0.
    Request(usize),
    /// The document of recorded outcomes as a whole.
    Outcomes,
    /// The outcome at this position of `outcomes`, counted from 0.
    Outcome(usize),
    /// The response document of a service as a whole.
    Responses,
    /// The response at this position of `responses`, counted from 0.
    Response(usize),
    /// The document of recorded events as a whole.
    Events,
    /// The event at this position of `events`, counted from 0.
    Event(usize),
}

/// A rule that a document as a whole breaks (OData JSON Format 4.01, section 19.1).
#[derive(Clone, Copy, Debug, PartialEq, Eq, Error)]
pub enum DocumentRule {
    /// F01: the document is larger than 16,777,216 bytes.
    #[error("the document is larger than 16,777,216 bytes")]
    TooLong,
    /// F02: the bytes are not valid JSON: not UTF-8, malformed, nested deeper than 127, or containing
    /// a number out of range.
    #[error("the document is not JSON")]
    NotJson,
    /// F03: the document is not an object.
    #[error("the document is not an object")]
    NotObject,
    /// F04: `requests` is missing or not an array.
    #[error("the document has no array `requests`")]
    NoRequests,
    /// F05: a member other than `requests` has a name without `@`.
    #[error("the document has an unknown member")]
    UnknownMember,
    /// F06: `requests` has more than 10,000 elements.
    #[error("the document has more than 10,000 requests")]
    TooMany,
}

/// A rule that one request breaks (OData JSON Format 4.01, section 19.1).
#[derive(Clone, Copy, Debug, PartialEq, Eq, Error)]
pub enum RequestRule {
    /// F10: the element is not an object.
    #[error("the request is not an object")]
    NotRequestObject,
    /// F11: there is a member `if`, whatever its value.
    #[error("the request has the member `if`, which is not supported")]
    IfMember,
    /// F12: a member that requests do not have has a name without `@`.
    #[error("the request has an unknown member")]
    UnknownRequestMember,
    /// F13: `id` is missing or not an identifier.
    #[error("`id` is missing or is not an identifier")]
    BadId,
    /// F14: `method` is missing or not the name of a method, in any ASCII case.
    #[error("`method` is missing or is not a known method")]
    BadMethod,
    /// F15: `url` is missing or not a string.
    #[error("`url` is missing or is not a string")]
    BadUrl,
    /// F16: `atomicityGroup` has a value other than null that is not an identifier.
    #[error("`atomicityGroup` is not an identifier")]
    BadGroup,
    /// F17: `dependsOn` has a value other than null that is not an array of strings.
    #[error("`dependsOn` is not an array of strings")]
    BadDependsOn,
    /// F18: `headers` has a value other than null that is not an object of strings.
    #[error("`headers` is not an object of strings")]
    BadHeaders,
    /// F19: two names in `headers` differ in ASCII case alone.
    #[error("`headers` has a name twice")]
    HeaderTwice,
    /// F20: a `delete` or a `get` has a `body` other than null.
    #[error("the method takes no `body`")]
    BodyNotAllowed,
    /// F21: the headers pass F18 and F19, and their `content-type` does not allow the `body`, which is
    /// not null.
    #[error("`body` is not of the kind that its media type asks for")]
    BadBody,
    /// F22: the last segment of the path of `url`, percent-decoded, is `$batch`.
    #[error("`url` names a batch")]
    NestedBatch,
    /// F23: `url` begins with `$`, and then neither with a reserved name nor with an identifier
    /// that ends the segment.
    #[error("`url` begins with `$` and refers to no request")]
    BadReference,
}

/// Why a document is not a batch.
#[derive(Clone, Copy, Debug, PartialEq, Eq, Error)]
pub enum DocFault {
    /// The document as a whole breaks this rule.
    #[error("{0}")]
    Document(DocumentRule),
    /// The request at this position, counted from 0, breaks this rule.
    #[error("request {at}: {rule}")]
    Request { at: usize, rule: RequestRule },
    /// An allocation failed. The document may have a fault or none.
    #[error("out of memory")]
    OutOfMemory,
}

/// Why a batch or its answers cannot be written as text.
#[derive(Clone, Copy, Debug, PartialEq, Eq, Error)]
pub enum TextFault {
    /// F50: the body to be written of the request at this position, counted from 0, contains a
    /// number that is not whole.
    #[error("request {at}: the body holds a number that is not whole")]
    NotWhole { at: usize },
    /// An allocation failed. Each body holds whole numbers alone.
    #[error("out of memory")]
    OutOfMemory,
}

impl DocumentRule {
    ghost use Rattle.odb_doc.specs.Faults.{document_label};
    ghost use Rattle.odb_doc.specs.Refusals.{code_of};

    /// Returns the code and the name.
    fn row(self) -> (&'static str, &'static str)
        ensures code { result.0.now ≡ code_of (document_label self).0 }
        ensures name { result.1.now ≡ (document_label self).1 }
    {
        match self {
            DocumentRule::TooLong => ("F01", "TooLong"),
            DocumentRule::NotJson => ("F02", "NotJson"),
            DocumentRule::NotObject => ("F03", "NotObject"),
            DocumentRule::NoRequests => ("F04", "NoRequests"),
            DocumentRule::UnknownMember => ("F05", "UnknownMember"),
            DocumentRule::TooMany => ("F06", "TooMany"),
        }
    }
}

impl RequestRule {
    ghost use Rattle.odb_doc.specs.Faults.{request_label};
    ghost use Rattle.odb_doc.specs.Refusals.{code_of};

    /// Returns the code and the name.
    fn row(self) -> (&'static str, &'static str)
        ensures code { result.0.now ≡ code_of (request_label self).0 }
        ensures name { result.1.now ≡ (request_label self).1 }
    {
        match self {
            RequestRule::NotRequestObject => ("F10", "NotRequestObject"),
            RequestRule::IfMember => ("F11", "IfMember"),
            RequestRule::UnknownRequestMember => ("F12", "UnknownRequestMember"),
            RequestRule::BadId => ("F13", "BadId"),
            RequestRule::BadMethod => ("F14", "BadMethod"),
            RequestRule::BadUrl => ("F15", "BadUrl"),
            RequestRule::BadGroup => ("F16", "BadGroup"),
            RequestRule::BadDependsOn => ("F17", "BadDependsOn"),
            RequestRule::BadHeaders => ("F18", "BadHeaders"),
            RequestRule::HeaderTwice => ("F19", "HeaderTwice"),
            RequestRule::BodyNotAllowed => ("F20", "BodyNotAllowed"),
            RequestRule::BadBody => ("F21", "BadBody"),
            RequestRule::NestedBatch => ("F22", "NestedBatch"),
            RequestRule::BadReference => ("F23", "BadReference"),
        }
    }
}

impl Fault for DocFault {
    ghost row = { document_row };

    fn refusal(&self) -> Option<Refusal> {
        match *self {
            DocFault::Document(rule) => Some(Refusal::new(rule.row(), Place::Batch)),
            DocFault::Request { at, rule } => Some(Refusal::new(rule.row(), Place::Request(at))),
            DocFault::OutOfMemory => None,
        }
    }
}

impl From<AllocError> for DocFault {
    ghost from_gives = { λ _ fault. fault ≡ faults.OutOfMemory };

    fn from(_error: AllocError) -> Self {
        DocFault::OutOfMemory
    }
}

impl<T: Drop> From<AllocFailed<T>> for DocFault {
    ghost from_gives = { λ _ fault. fault ≡ faults.OutOfMemory };

    fn from(_error: AllocFailed<T>) -> Self {
        DocFault::OutOfMemory
    }
}

impl Fault for TextFault {
    ghost row = { text_row };

    fn refusal(&self) -> Option<Refusal> {
        match *self {
            TextFault::NotWhole { at } => {
                Some(Refusal::new(("F50", "NotWhole"), Place::Request(at)))
            }
            TextFault::OutOfMemory => None,
        }
    }
}

impl From<AllocError> for TextFault {
    ghost from_gives = { λ _ fault. fault ≡ texts.OutOfMemory };

    fn from(_error: AllocError) -> Self {
        TextFault::OutOfMemory
    }
}
