//! Why a request is not sent.

ghost use Rattle.std.specs.Prelude.{◌≡◌};
ghost use Rattle.odb_resolve.specs.Resolutions.{number_of};
ghost use Rattle.odb_resolve.specs.declared.refusal.ResolveError.TheVariants.{OutOfMemory};

use std::alloc::AllocError;
use thiserror::Error;

/// Why a request is not sent.
#[derive(Clone, Copy, Debug, PartialEq, Eq, Error)]
pub enum Refusal {
    /// 1: its URL, or the `Location` that it refers to, has a control character, or its URL does not continue a reference.
    #[error("the URL cannot be read")]
    Unreadable,
    /// 2: it leads out of the roots.
    #[error("the URL leads out of the service")]
    Outside,
    /// 3: the POST that it refers to was answered without a `Location`, or with an empty one.
    #[error("the request that the URL refers to was answered without a Location")]
    NoLocation,
    /// 4: the request whose ETag it names was answered without one.
    #[error("the request that a condition refers to was answered without an ETag")]
    NoTag,
    /// 5: a request that it refers to is not answered yet.
    #[error("the request that it refers to is not answered yet")]
    NotAnswered,
}

impl Refusal {
    /// Returns the number of the refusal, from 1 to 5.
    pub fn number(self) -> u8
        ensures { result ≡ number_of self }
    {
        match self {
            Refusal::Unreadable => 1,
            Refusal::Outside => 2,
            Refusal::NoLocation => 3,
            Refusal::NoTag => 4,
            Refusal::NotAnswered => 5,
        }
    }
}

/// Why [`resolve`](crate::resolve) returns nothing.
#[derive(Clone, Copy, Debug, PartialEq, Eq, Error)]
pub enum ResolveError {
    /// The request is not sent.
    #[error("{0}")]
    Refused(Refusal),
    /// An allocation failed. That says nothing about the request.
    #[error("out of memory")]
    OutOfMemory,
}

impl From<AllocError> for ResolveError {
    ghost from_gives = { λ _ error. error ≡ OutOfMemory };

    fn from(_: AllocError) -> ResolveError {
        ResolveError::OutOfMemory
    }
}
