//! The call for C that gives what the packages for other languages need to know of the library.

ghost use Rattle.odb_calls.specs.Constants.{GivesConstants};

use odb_calls::buffer::give_text;
use odb_calls::constants::CONSTANTS;
use odb_calls::status::DONE;

/// Writes a JSON object with the names of the states, modes, orders, forms and steps by their numbers, the limits, and the
/// names of headers and ids that the packages for other languages treat apart.
///
/// Sets `text_length` to the length of the text, and returns 0, and `text` begins with it; or 5 if it is longer than `text`, which is
/// as it was. Allocates nothing.
#[unsafe(no_mangle)]
pub extern "C" fn odb_constants(text: &mut [u8], text_length: &mut usize) -> u32
    ensures { GivesConstants result text_length.new text.old text.new }
{
    give_text(CONSTANTS, DONE, text, text_length)
}
