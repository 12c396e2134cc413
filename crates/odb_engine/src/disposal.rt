//! A value that is dropped or leaked at its end.

use odb_doc::Disposal;

/// A value that is dropped or leaked when it goes out of scope.
pub struct DropOrLeak<T> {
    /// The value.
    pub value: T,
    /// What happens to it.
    pub disposal: Disposal,
}

impl<T: Drop> Drop for DropOrLeak<T> {
    fn drop(self) {
        let DropOrLeak { value, disposal } = self;
        disposal.end(value);
    }
}
