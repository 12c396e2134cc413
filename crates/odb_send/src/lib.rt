//! What of an OData JSON batch is sent, and what may be sent again.
//!
//! A client of HTTP takes a method, a URL, headers and a body. [`requests_of`] returns where these lie for each
//! request of a planned batch: the body as bytes of the document, which stay as the client wrote them, and
//! all else in one text.
//!
//! Of the responses of a service [`responses_of`] returns the same: headers and bodies as bytes of the document.
//!
//! A service may leave requests unperformed: after a failed dependency, or because it had no capacity. They are the
//! rest of the batch, by the responses that the service gave. [`rest_of`] returns which requests these are, and
//! [`rest_text`] the batch that a client may send of them, with the bytes of their bodies. What holds of every rest
//! is in [`laws`].
#![tactic(auto)]

mod answers;
mod changes;
mod fault;
mod headers;
pub mod laws;
mod names;
mod next_part;
mod parts;
mod piece;
mod progress;
mod repeat;
mod requests;
mod responses;
mod rest;
mod text;
mod units;
mod urls;

pub use answers::Recorded;
pub use fault::{RestFault, RestRule};
pub use next_part::{fits_limit, part_of, positions_of};
pub use parts::RequestParts;
pub use requests::{Requests, requests_of};
pub use responses::{ResponseList, ResponseParts, responses_of};
pub use rest::{Rest, rest_of};
pub use text::rest_text;
