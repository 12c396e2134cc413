//! Parses a document, and keeps what the parser reports of one that is not JSON.

ghost use Rattle.std.specs.Prelude.{◌≡◌, ◌<◌, length, IfErr, IfOk, IfSome, None, OnErr};
ghost use Rattle.serde_json.specs.Data.{Data};
ghost use Rattle.serde_json.specs.View.{view};
ghost use Rattle.odb_doc.specs.Documents.{IsDocument, IsJson, RefusesDocument};

use odb_doc::{DocFault, DocumentRule, MAX_DOCUMENT_BYTES};
use serde_json::{Error, Value};
use std::alloc::{AllocError, Global};

/// Where the parser stopped in a document that is not JSON.
#[derive(Clone, Copy, Debug, PartialEq, Eq)]
pub struct ParseError {
    /// Counted from 1.
    pub(crate) line: usize,
    /// Counted from 1, in bytes.
    pub(crate) column: usize,
    /// Whether bytes may follow with which the document is JSON.
    pub(crate) is_eof: bool,
}

impl ParseError {
    /// Returns what the parser reports.
    pub(crate) fn of(error: &Error) -> Self {
        ParseError {
            line: error.line(),
            column: error.column(),
            is_eof: error.is_eof(),
        }
    }
}

/// Returns the JSON value of a document, as [`odb_doc::parse`] does. If it is not JSON, `error` gets where the parser
/// stopped, by which [`crate::position_by`] finds the position without parsing it again.
///
/// # Errors
///
/// Those of [`odb_doc::parse`].
pub fn parse(
    alloc: Global,
    document: &[u8],
    error: &mut Option<ParseError>,
) -> Result<Value, DocFault>
    requires { error.old ≡ None }
    ensures ok { IfOk result (λ value. IsDocument document.now (view value)) }
    ensures err { IfErr result (λ fault. RefusesDocument fault document.now) }
    ensures error { IfSome error.new (λ _. (d : Data) → ¬ IsJson document.now d) }
{
    if document.len() > MAX_DOCUMENT_BYTES {
        return Err(DocFault::Document(DocumentRule::TooLong));
    }
    match Value::from_slice(alloc, document) {
        Ok(value) => Ok(value),
        Err(wrong) if wrong.is_memory() => Err(DocFault::OutOfMemory),
        Err(wrong) => {
            *error = Some(ParseError::of(&wrong));
            Err(DocFault::Document(DocumentRule::NotJson))
        }
    }
}

/// Returns where the parser stops in a document; `None` for JSON, and for a document that is too large to be parsed.
///
/// # Errors
///
/// If memory for the document's value cannot be allocated.
pub(crate) fn error_in(alloc: Global, document: &[u8]) -> Result<Option<ParseError>, AllocError>
    ensures fault { IfOk result (λ found. IfSome found (λ _. (d : Data) → ¬ IsJson document.now d)) }
    ensures memory { OnErr result (0 < length document.now) }
{
    if document.len() > MAX_DOCUMENT_BYTES {
        return Ok(None);
    }
    match Value::from_slice(alloc, document) {
        Ok(_) => Ok(None),
        Err(error) if error.is_memory() => Err(AllocError),
        Err(error) => Ok(Some(ParseError::of(&error))),
    }
}
