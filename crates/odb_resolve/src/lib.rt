//! Where a request of a batch is sent: its URL below a root of the service, and its conditions.
//!
//! [`resolve`] joins the request's URL to the base of the service (RFC 3986, section 5.2), puts the `Location`
//! of another request's answer in place of a reference (OData JSON Format 4.01, section 19.2) and its ETag
//! in place of `$id` in `If-Match` and `If-None-Match` (section 19.3). It returns a URL that begins with one of
//! the roots and stays below it, whether a server decodes its path never, once or twice; or the refusal.
//!
//! The crate decides nothing of order: the caller passes what others were answered.
#![tactic(auto)]

mod dots;
mod join;
mod parts;
mod refusal;
mod request;
mod resolution;
mod root;
mod run;
mod safety;
mod target;
mod text;

pub use refusal::{Refusal, ResolveError};
pub use request::{Answer, Known, Request, Service};
pub use resolution::{Resolved, resolve};
