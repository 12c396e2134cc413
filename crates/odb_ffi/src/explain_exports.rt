//! The call for C that explains a fault.

ghost use Rattle.odb_calls.specs.Explanations.{Explains};

use odb_calls::explanations::give_explanation;

/// Writes the explanation of the fault with this code, as `F41`, or of the cause of a start or a report that is refused, as `S4`:
/// what `odb_batch explain` prints of it, without the newline at its end.
///
/// Sets `text_length` to the length of the text, and returns 0, and `text` begins with it; or 5 if it is longer than `text`. Returns
/// 2, with the length 0, if there is no such code. Unless it returns 0, `text` is as it was. Allocates nothing.
#[unsafe(no_mangle)]
pub extern "C" fn odb_explain(code: &[u8], text: &mut [u8], text_length: &mut usize) -> u32
    ensures { Explains code.now result text_length.new text.old text.new }
{
    give_explanation(code, text, text_length)
}
