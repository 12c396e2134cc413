//! The form of a result: lines, or compact JSON.

/// The form of a result, and of the fault of a refused document.
#[derive(Clone, Copy, Debug, PartialEq, Eq)]
pub enum Form {
    /// Lines of words, for persons.
    Lines,
    /// One line of compact JSON, for machines. A canonical text, a response and a trace are the same in
    /// both forms.
    Json,
}
