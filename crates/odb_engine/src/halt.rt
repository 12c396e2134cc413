//! Why a command ends early: a refused document, or a failure.

ghost use Rattle.odb_engine.specs.Halts.{HaltsBy};

use odb_doc::{Fault, Refusal};
use std::alloc::AllocError;

/// Why an engine has no result.
#[derive(Clone, Copy, Debug, PartialEq, Eq)]
pub enum Halt {
    /// A document is refused, by this fault.
    Refused(Refusal),
    /// An input failed.
    Read,
    /// An allocation failed.
    OutOfMemory,
}

impl Halt {
    ghost use Rattle.std.specs.Prelude.{◌≡◌, Ok, IfOk};
    ghost use Rattle.odb_doc.specs.declared.refusal.Refusal.{Refusal};
    ghost use Rattle.odb_engine.specs.declared.halt.Halt.TheVariants as halts;
    ghost use Rattle.odb_engine.specs.Halts.{is_refused};

    /// Returns whether a document is refused.
    pub(crate) fn is_refused(self) -> bool
        ensures { result ≡ is_refused self }
    {
        matches!(self, Halt::Refused(_))
    }

    /// Returns the fault of a refused document.
    ///
    /// # Errors
    ///
    /// `AllocError` if and only if it is no fault: an allocation failed, or a read, which no read of memory does.
    pub(crate) fn refusal(self) -> Result<Refusal, AllocError>
        ensures ok { IfOk result (λ refusal. self ≡ halts.Refused refusal) }
        ensures all { (refusal : Refusal) → self ≡ halts.Refused refusal → result ≡ Ok refusal }
    {
        match self {
            Halt::Refused(refusal) => Ok(refusal),
            Halt::Read | Halt::OutOfMemory => Err(AllocError),
        }
    }
}

impl<T: Fault + Copy> From<T> for Halt {
    ghost from_gives = { λ fault halt. HaltsBy (T.Fault.row fault) halt };

    fn from(fault: T) -> Self {
        match fault.refusal() {
            Some(refusal) => Halt::Refused(refusal),
            None => Halt::OutOfMemory,
        }
    }
}
