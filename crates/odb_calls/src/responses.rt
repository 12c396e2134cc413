//! How the responses of a service reach the buffers of the caller.

ghost use Rattle.std.specs.Prelude.{map, string_bytes};
ghost use Rattle.odb_calls.specs.Lists.{Gives};
ghost use Rattle.odb_calls.specs.Responses as calls;

use crate::buffer::give_made;
use crate::response::Response;
use odb_send::ResponseList;

/// Copies the text and the responses to the buffers if both fit, sets how long they are, and returns the status.
pub fn give_responses(
    found: &ResponseList,
    text: &mut [u8],
    text_length: &mut usize,
    responses: &mut [Response],
    count: &mut usize,
) -> u32
    ensures { Gives (string_bytes found.now.text) (map calls.response_of found.now.parts.items) 0 result
        text_length.new count.new text.old text.new responses.old responses.new }
{
    give_made(
        found.text.as_str(),
        &found.parts,
        Response::of,
        text,
        text_length,
        responses,
        count,
    )
}
