//! The faults of a response document.

ghost use Rattle.std.specs.Prelude.{◌≡◌};
ghost use Rattle.odb_reply.specs.ResponseDocuments.{responses_row};
ghost use Rattle.odb_reply.specs.declared.response_fault.ResponseFault.TheVariants.{OutOfMemory};

use odb_doc::{Fault, Place, Refusal};
use std::alloc::{AllocError, AllocFailed};
use thiserror::Error;

/// Why a document is not a list of responses.
#[derive(Clone, Copy, Debug, PartialEq, Eq, Error)]
pub enum ResponseFault {
    /// F70: the document is not an object with an array `responses`.
    #[error("the document is not an object with an array `responses`")]
    Document,
    /// F70: the element at this position, counted from 0, cannot be read as a response. It has no
    /// string `id`, or no integer `status` between 100 and 599, or an `atomicityGroup` of another kind
    /// than null and string.
    #[error("response {at}: it is not an object with `id` and `status`, and maybe `atomicityGroup`")]
    Response { at: usize },
    /// Out of memory. That says nothing about the document.
    #[error("out of memory")]
    OutOfMemory,
}

impl Fault for ResponseFault {
    ghost row = { responses_row };

    fn refusal(&self) -> Option<Refusal> {
        let place = match *self {
            ResponseFault::Document => Place::Responses,
            ResponseFault::Response { at } => Place::Response(at),
            ResponseFault::OutOfMemory => return None,
        };
        Some(Refusal::new(("F70", "BadResponses"), place))
    }
}

impl From<AllocError> for ResponseFault {
    ghost from_gives = { λ _ fault. fault ≡ OutOfMemory };

    fn from(_error: AllocError) -> Self {
        ResponseFault::OutOfMemory
    }
}

impl<T: Drop> From<AllocFailed<T>> for ResponseFault {
    ghost from_gives = { λ _ fault. fault ≡ OutOfMemory };

    fn from(_error: AllocFailed<T>) -> Self {
        ResponseFault::OutOfMemory
    }
}
