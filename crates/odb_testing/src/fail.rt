//! The error of what callers write: each fault converts into it.

use std::fmt::Debug;

/// Some call has failed.
#[derive(Clone, Copy, Drop)]
pub struct Fail;

impl<E: Debug + Drop> From<E> for Fail {
    fn from(_error: E) -> Self {
        Fail
    }
}
