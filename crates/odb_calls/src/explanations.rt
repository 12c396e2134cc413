//! How the explanation of a fault reaches the buffer of the caller.

ghost use Rattle.odb_calls.specs.Explanations.{Explains};

use crate::buffer::give_text;
use crate::status::{DONE, WRONG_OPTION};
use odb_explain::explanation_of;

/// Copies the explanation of a code to the buffer if it fits, sets its length, and returns the status.
pub fn give_explanation(code: &[u8], text: &mut [u8], text_length: &mut usize) -> u32
    ensures { Explains code.now result text_length.new text.old text.new }
{
    *text_length = 0;
    match explanation_of(code) {
        Some(found) => give_text(found, DONE, text, text_length),
        None => WRONG_OPTION,
    }
}
