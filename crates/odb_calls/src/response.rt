//! A response of a service, as numbers that C may read.

ghost use Rattle.std.specs.Prelude.{◌≡◌};
ghost use Rattle.odb_calls.specs.Responses as calls;

use crate::request::Part;
use odb_send::ResponseParts;

/// Where the parts of a response lie: headers and body in the document, id and group in the text of the call.
#[repr(C)]
#[derive(Clone, Copy, Drop)]
pub struct Response {
    pub id: Part,
    pub group: Part,
    pub headers: Part,
    pub body: Part,
    /// The status, from 100 to 599.
    pub status: usize,
}

impl Response {
    /// Returns the parts of a response as numbers.
    pub(crate) fn of(parts: ResponseParts) -> Response
        ensures { result ≡ calls.response_of parts }
    {
        Response {
            id: Part::of(parts.id),
            group: Part::of_some(parts.group),
            headers: Part::of_some(parts.headers),
            body: Part::of_some(parts.body),
            status: parts.status as usize,
        }
    }
}
