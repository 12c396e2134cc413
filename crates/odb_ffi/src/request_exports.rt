//! The call for C that gives what is to be sent of each request of a batch.

ghost use Rattle.odb_calls.specs.Requests.{GivesRequests};

use odb_calls::answer::give;
use odb_calls::options::seed_of;
use odb_calls::request::Request;
use odb_calls::requests::give_requests;
use odb_engine::{Answer, Form};
use odb_live::requests_in;
use std::alloc::Global;

/// Gives what is to be sent of each request of the batch in a document, in the order of the batch: where its parts lie
/// in the text, and where its body lies in the document.
///
/// Sets `count` to the number of requests, and `text_length` to the length of the text. Returns 0, and `text` and
/// `requests` begin with them; or 5 if one of them has too little room, and both are as they were. Of a batch that is
/// refused `count` is 0 and `requests` is as it was, and it returns what [`crate::exports::odb_check_as`] does: 1,
/// and `text` begins with the line of the fault, or 5 if that is longer than `text`. If an allocation fails it returns 4,
/// both numbers are 0, and both buffers are as they were.
#[unsafe(no_mangle)]
pub extern "C" fn odb_requests(
    alloc: Global,
    batch: &[u8],
    text: &mut [u8],
    text_length: &mut usize,
    requests: &mut [Request],
    count: &mut usize,
    seed: u64,
) -> u32
    ensures { GivesRequests batch.now result text_length.new count.new text.old text.new requests.old
        requests.new }
{
    *count = 0;
    match requests_in(alloc, batch, seed_of(seed)) {
        Ok(found) => give_requests(&found, text, text_length, requests, count),
        Err(halt) => give(Answer::of(alloc, Form::Lines, Err(halt)), text, text_length),
    }
}
