//! Why a list could not be read: a rule that an element breaks, with its position, or out of memory.

ghost use Rattle.std.specs.Prelude.{◌≡◌};
ghost use Rattle.odb_doc.specs.declared.broken.Broken.TheVariants.{OutOfMemory};
ghost use Rattle.odb_doc.specs.BrokenRules.{broken_at};

use std::alloc::{AllocError, AllocFailed};

/// Why something could not be read from an element.
#[derive(Clone, Copy)]
pub(crate) enum Broken<R> {
    /// The element breaks this rule.
    Rule(R),
    /// An allocation failed. The element may break a rule or none.
    OutOfMemory,
}

impl<R: Copy> Broken<R> {
    /// Adds the position of the element in its list.
    pub(crate) fn at(self, at: usize) -> Broken<(usize, R)>
        ensures { result ≡ broken_at at self }
    {
        match self {
            Broken::Rule(rule) => Broken::Rule((at, rule)),
            Broken::OutOfMemory => Broken::OutOfMemory,
        }
    }
}

impl<R> From<AllocError> for Broken<R> {
    ghost from_gives = { λ _ broken. broken ≡ OutOfMemory };

    fn from(_error: AllocError) -> Self {
        Broken::OutOfMemory
    }
}

impl<R, T: Drop> From<AllocFailed<T>> for Broken<R> {
    ghost from_gives = { λ _ broken. broken ≡ OutOfMemory };

    fn from(_error: AllocFailed<T>) -> Self {
        Broken::OutOfMemory
    }
}
