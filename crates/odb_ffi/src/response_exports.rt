//! The call for C that gives the responses in the document of a service.

ghost use Rattle.odb_calls.specs.Responses.{GivesResponses};

use odb_calls::answer::give;
use odb_calls::response::Response;
use odb_calls::responses::give_responses;
use odb_engine::{Answer, Form};
use odb_live::responses_in;
use std::alloc::Global;

/// Gives each response in the document of a service, in its order: where its id and its group lie in the text, where its headers
/// and its body lie in the document, and its status. The responses need not fit a batch.
///
/// Sets `count` to the number of responses, and `text_length` to the length of the text. Returns 0, and `text` and
/// `responses` begin with them; or 5 if one of them has too little room, and both are as they were. If the document is
/// refused, `count` is 0 and `responses` is as it was: it returns 1, and `text` begins with the line of the fault, or 5 if that is
/// longer than `text`. If an allocation fails it returns 4, both numbers are 0, and both buffers are as they were.
#[unsafe(no_mangle)]
pub extern "C" fn odb_responses(
    alloc: Global,
    document: &[u8],
    text: &mut [u8],
    text_length: &mut usize,
    responses: &mut [Response],
    count: &mut usize,
) -> u32
    ensures { GivesResponses document.now result text_length.new count.new text.old text.new responses.old
        responses.new }
{
    *count = 0;
    match responses_in(alloc, document) {
        Ok(found) => give_responses(&found, text, text_length, responses, count),
        Err(halt) => give(Answer::of(alloc, Form::Lines, Err(halt)), text, text_length),
    }
}
