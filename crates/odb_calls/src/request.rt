//! What is to be sent of a request, as numbers that C may read.

ghost use Rattle.std.specs.Prelude.{◌≡◌};
ghost use Rattle.odb_calls.specs.Requests as calls;

use odb_send::RequestParts;
use odb_spans::Span;

/// Where a part starts that a request does not have, and the position of a request to which no URL refers.
pub const NONE: usize = usize::MAX;

/// Where a part lies: `length` bytes from `start` on. `start` is [`NONE`] and `length` 0 if there is no such part.
#[repr(C)]
#[derive(Clone, Copy, Drop)]
pub struct Part {
    pub start: usize,
    pub length: usize,
}

/// Where the parts of a request lie: the body in the document, and all others in the text of the call.
#[repr(C)]
#[derive(Clone, Copy, Drop)]
pub struct Request {
    pub id: Part,
    pub method: Part,
    pub url: Part,
    pub rest: Part,
    pub headers: Part,
    pub group: Part,
    pub needs: Part,
    pub body: Part,
    /// The position of the request that the URL refers to, or [`NONE`].
    pub reference: usize,
}

impl Part {
    /// Returns the part that a span is.
    pub(crate) fn of(span: Span) -> Part
        ensures { result ≡ calls.part_of span }
    {
        Part {
            start: span.start,
            length: span.end.saturating_sub(span.start),
        }
    }

    /// Returns the part that a span is, if there is one.
    pub(crate) fn of_some(span: Option<Span>) -> Part
        ensures { result ≡ calls.part_if span }
    {
        match span {
            Some(span) => Part::of(span),
            None => Part {
                start: NONE,
                length: 0,
            },
        }
    }
}

/// Returns a position, or [`NONE`].
fn position_or_none(position: Option<u32>) -> usize
    ensures { result ≡ calls.position_if position }
{
    match position {
        Some(position) => position as usize,
        None => NONE,
    }
}

impl Request {
    /// Returns the parts of a request as numbers.
    pub(crate) fn of(parts: RequestParts) -> Request
        ensures { result ≡ calls.request_of parts }
    {
        Request {
            id: Part::of(parts.id),
            method: Part::of(parts.method),
            url: Part::of(parts.url),
            rest: Part::of(parts.rest),
            headers: Part::of(parts.headers),
            group: Part::of_some(parts.group),
            needs: Part::of(parts.needs),
            body: Part::of_some(parts.body),
            reference: position_or_none(parts.reference),
        }
    }
}
