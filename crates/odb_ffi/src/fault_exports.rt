//! The call for C that gives all faults of a batch with where they are.

ghost use Rattle.odb_calls.specs.Faults.{GivesFaults};

use odb_calls::fault::Fault;
use odb_calls::faults::{all_faults, give_faults};
use odb_calls::status::OUT_OF_MEMORY;
use std::alloc::Global;

/// Gives all faults of the batch in a document, as [`crate::exports::odb_check_all_as`] finds them and in its order: the words of
/// each in the text, which has a line for each, and where its element begins and ends in the document, as
/// [`crate::place_exports::odb_where`] says. All positions are found in one scan.
///
/// Sets `count` to the number of faults, and `text_length` to the length of the text. Returns 0 if there are none, and else 1,
/// and `text` and `faults` begin with them; or 5 if one of them has too little room, and both are as they were. If an
/// allocation fails it returns 4, both numbers are 0, and both buffers are as they were.
#[unsafe(no_mangle)]
pub extern "C" fn odb_faults(
    alloc: Global,
    batch: &[u8],
    text: &mut [u8],
    text_length: &mut usize,
    faults: &mut [Fault],
    count: &mut usize,
    seed: u64,
) -> u32
    ensures { GivesFaults batch.now result text_length.new count.new text.old text.new faults.old
        faults.new }
{
    *text_length = 0;
    *count = 0;
    match all_faults(alloc, batch, seed) {
        Ok(found) => give_faults(&found, text, text_length, faults, count),
        Err(_) => OUT_OF_MEMORY,
    }
}
