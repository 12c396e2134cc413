//! How what is to be sent reaches the buffers of the caller.

ghost use Rattle.std.specs.Prelude.{map, string_bytes};
ghost use Rattle.odb_calls.specs.Lists.{Gives};
ghost use Rattle.odb_calls.specs.Requests as calls;

use crate::buffer::give_made;
use crate::request::Request;
use odb_send::Requests;

/// Copies the text and the requests to the buffers if both fit, sets how long they are, and returns the status.
pub fn give_requests(
    found: &Requests,
    text: &mut [u8],
    text_length: &mut usize,
    requests: &mut [Request],
    count: &mut usize,
) -> u32
    ensures { Gives (string_bytes found.now.text) (map calls.request_of found.now.parts.items) 0 result
        text_length.new count.new text.old text.new requests.old requests.new }
{
    give_made(
        found.text.as_str(),
        &found.parts,
        Request::of,
        text,
        text_length,
        requests,
        count,
    )
}
