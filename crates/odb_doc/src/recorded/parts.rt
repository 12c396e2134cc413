//! An outcome that a caller makes of its parts.

ghost use Rattle.std.specs.Prelude.{◌≡◌, Ok, None, option_map, IfOk, IfSome};
ghost use Rattle.serde_json.specs.View.{view};
ghost use Rattle.odb_doc.specs.recorded.Parts.{AreNoParts, HasParts};

use crate::broken::Broken;
use crate::headers::headers_from;
use crate::member::unless_null;
use crate::recorded::event_fault::EventRule;
use crate::recorded::outcome::Outcome;
use crate::whole::has_whole_body;
use serde_json::Value;
use std::alloc::{AllocError, Global};

impl Outcome {
    /// Returns an outcome with this status, these headers and this body, by the rules that a report
    /// has in a document of events ([`crate::Events::read`]); or `None` if no report has such headers
    /// or such a body.
    ///
    /// The headers are an object of strings, of which no two names are equal in lower case, and the
    /// body holds whole numbers alone. Null is treated as absent.
    ///
    /// # Errors
    ///
    /// If memory for the headers and the body cannot be allocated.
    pub fn of_parts(
        alloc: Global,
        status: u16,
        headers: Option<Value>,
        body: Option<Value>,
    ) -> Result<Option<Outcome>, AllocError>
        ensures some { IfOk result (λ found. IfSome found
            (HasParts status (option_map view headers) (option_map view body))) }
        ensures none { result ≡ Ok None
            → AreNoParts (option_map view headers) (option_map view body) }
    {
        let headers = match headers_from(alloc, headers, EventRule::BadEvents) {
            Ok(headers) => headers,
            Err(Broken::Rule(_)) => return Ok(None),
            Err(Broken::OutOfMemory) => return Err(AllocError),
        };
        let body = unless_null(body);
        if !has_whole_body(body.as_ref()) {
            return Ok(None);
        }
        Ok(Some(Outcome::new(alloc, status, headers, body)?))
    }
}
