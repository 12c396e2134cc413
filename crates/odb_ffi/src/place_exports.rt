//! The call for C that says where the element of a place begins and ends.

ghost use Rattle.odb_calls.specs.Places.{GivesPlace};

use odb_calls::position::Position;
use odb_calls::status::{DONE, OUT_OF_MEMORY, WRONG_OPTION};
use odb_spans::position_of;
use odb_text::place_of;
use std::alloc::Global;

/// Says where the element begins and ends in a document that a place names, as the line of a fault has it: `batch`,
/// `outcomes`, `responses` or `events` for the document, or the path to an element, as `/requests/3`.
///
/// Returns 0, and `position` is that of the element, or of the document's value if there is no such element. In a document
/// that is not JSON it is where reading stops, if the place is the document, and so is its end. Returns 2 if the text is no
/// place, and 4 if an allocation fails: then `position` is as it was.
#[unsafe(no_mangle)]
pub extern "C" fn odb_where(
    alloc: Global,
    document: &[u8],
    place: &[u8],
    position: &mut Position,
) -> u32
    ensures { GivesPlace document.now place.now result position.old position.new }
{
    let Some(place) = place_of(place) else {
        return WRONG_OPTION;
    };
    match position_of(alloc, document, place) {
        Ok(found) => {
            *position = Position::of(found);
            DONE
        }
        Err(_) => OUT_OF_MEMORY,
    }
}
