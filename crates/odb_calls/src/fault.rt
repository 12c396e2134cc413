//! A fault and where it is, as numbers that C may read.

use crate::position::Position;
use crate::request::Part;

/// Where the words of the line of a fault lie in the text of the call, and where the element lies in the document.
#[repr(C)]
#[derive(Clone, Copy, Drop)]
pub struct Fault {
    /// As `F41`.
    pub code: Part,
    /// As `ForwardName`.
    pub name: Part,
    /// `batch`, or the path to an element, as `/requests/3`.
    pub place: Part,
    /// Where the element of the place begins and ends.
    pub position: Position,
}
