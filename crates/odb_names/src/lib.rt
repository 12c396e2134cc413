//! The texts in an OData JSON batch that have a syntax of their own: identifiers, methods, base64url
//! and URLs.
//!
//! Each call decides a predicate or a relation of `specs/`, which names the section of OData JSON
//! Format 4.01, the rule of the OData ABNF 4.01 or the RFC that it is from. The crates above decide
//! what a batch makes of these texts.
#![tactic(auto)]

mod base64url;
mod identifier;
pub mod laws;
mod method;
mod run;
mod segment;
mod url;

pub use base64url::is_base64url;
pub use identifier::is_request_id;
pub use method::Method;
pub use segment::Front;
pub use url::{after_first_segment, front, is_nested_batch};
