//! The call for C that gives headers as pairs.

ghost use Rattle.odb_calls.specs.Headers.{GivesHeaders};

use odb_calls::buffer::give_list;
use odb_calls::header::Header;
use odb_calls::headers::headers_of;
use odb_calls::status::{DONE, of_halt};
use std::alloc::Global;

/// Gives the headers of a JSON object as pairs, in byte order of their names: where the name of each, in lower case, and its value
/// lie in the text. There are none if there are no bytes, or if they are the JSON null.
///
/// Sets `count` to the number of headers, and `text_length` to the length of the text. Returns 0, and `text` and `pairs` begin with
/// them; or 5 if one of them has too little room, and both are as they were. Otherwise both numbers are 0, and both buffers are as they
/// were: returns 1 if the bytes are not what [`crate::run_exports::odb_run_report`] takes as headers, or 4 if an allocation fails.
#[unsafe(no_mangle)]
pub extern "C" fn odb_headers(
    alloc: Global,
    headers: &[u8],
    text: &mut [u8],
    text_length: &mut usize,
    pairs: &mut [Header],
    count: &mut usize,
) -> u32
    ensures { GivesHeaders headers.now result text_length.new count.new text.old text.new pairs.old
        pairs.new }
{
    *text_length = 0;
    *count = 0;
    match headers_of(alloc, headers) {
        Ok(found) => give_list(
            found.text.as_str(),
            &found.pairs,
            DONE,
            text,
            text_length,
            pairs,
            count,
        ),
        Err(halt) => of_halt(halt),
    }
}
