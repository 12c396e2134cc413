//! A header, as numbers that C may read.

use crate::request::Part;

/// Where the name of a header, which is in lower case, and its value lie in the text of the call.
#[repr(C)]
#[derive(Clone, Copy, Drop)]
pub struct Header {
    pub name: Part,
    pub value: Part,
}
