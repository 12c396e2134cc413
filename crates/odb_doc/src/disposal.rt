//! Whether what is not needed any more is dropped, or leaked.

use std::mem::forget;

/// What happens to documents, and to what was made of them, once they are not needed any more.
///
/// What is written does not depend on it. Dropping takes time in proportion to the documents.
#[derive(Clone, Copy, Debug, PartialEq, Eq)]
pub enum Disposal {
    /// They are dropped.
    Drop,
    /// They are leaked, for a process that is about to exit.
    Leak,
}

impl Disposal {
    /// Drops the value, or leaks it.
    pub fn end<T: Drop>(self, value: T) {
        match self {
            Disposal::Drop => drop(value),
            Disposal::Leak => forget(value),
        }
    }
}
