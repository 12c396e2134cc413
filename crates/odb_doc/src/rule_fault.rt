//! Why something is refused: a rule that is broken at a position, or out of memory.

ghost use Rattle.std.specs.Prelude.{◌≡◌};
ghost use Rattle.odb_doc.specs.RuleFaults.{fault_row};
ghost use Rattle.odb_doc.specs.declared.rule_fault.RuleFault.TheVariants.{OutOfMemory};

use crate::refusal::{Fault, Refusal};
use std::alloc::{AllocError, AllocFailed};
use std::fmt::Display;
use thiserror::Error;

/// A rule that the elements of a list may break.
pub trait Rule: Copy + Display {
    ghost use Rattle.std.specs.Prelude.{◌≡◌, ℕ};
    ghost use Rattle.odb_doc.specs.Refusals.{Printed, printed};

    /// What is printed of the rule where it is broken at a position.
    ghost prints: { Self → ℕ → Printed };

    /// Returns what is printed of the rule, broken at a position that is counted from 0.
    fn refusal(self, at: usize) -> Refusal
        ensures { printed result ≡ prints self at };
}

/// Why a list is refused by rules on its elements, or could not be checked.
#[derive(Clone, Copy, Debug, PartialEq, Eq, Error)]
pub enum RuleFault<R: Display> {
    /// The element at this position, counted from 0, breaks this rule.
    #[error("position {at}: {rule}")]
    Broken { at: usize, rule: R },
    /// An allocation failed. That says nothing about the list.
    #[error("out of memory")]
    OutOfMemory,
}

impl<R: Rule> Fault for RuleFault<R> {
    ghost row = { fault_row R.prints };

    fn refusal(&self) -> Option<Refusal> {
        match *self {
            RuleFault::Broken { at, rule } => Some(rule.refusal(at)),
            RuleFault::OutOfMemory => None,
        }
    }
}

impl<R: Display> From<AllocError> for RuleFault<R> {
    ghost from_gives = { λ _ fault. fault ≡ OutOfMemory };

    fn from(_error: AllocError) -> Self {
        RuleFault::OutOfMemory
    }
}

impl<R: Display, T: Drop> From<AllocFailed<T>> for RuleFault<R> {
    ghost from_gives = { λ _ fault. fault ≡ OutOfMemory };

    fn from(_error: AllocFailed<T>) -> Self {
        RuleFault::OutOfMemory
    }
}
