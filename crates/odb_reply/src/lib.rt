//! The response to an OData JSON batch: as text, and as a service gave it.
//!
//! [`response_text`] returns the response of a finished run (OData JSON Format 4.01, section 19.5),
//! and [`write_responses`] writes it to an output through a buffer. Both refuse a run that answers a
//! body with a number that is not whole, since a value keeps only whole numbers exactly.
//! [`response_of`] repeats a body byte for byte that was reported as [`JsonText`], whatever numbers it
//! has. [`laws`] states what is true of every response. Which requests run, and how each is answered,
//! `odb_sched` decides.
//!
//! [`Responses::read`] reads the response document of a service, and [`match_responses`] checks that
//! its responses fit the batch of a plan; [`check_statuses`], that some run answers their statuses.
#![tactic(auto)]

mod completed;
mod fits;
mod json_text;
mod labels;
pub mod laws;
mod match_fault;
mod parts;
mod pass;
mod places;
mod possible;
mod response_fault;
mod responses;
mod status_fault;
mod strictness;
mod table;
mod text;
mod whole;
mod write;

pub use fits::match_responses;
pub use json_text::{BodyFault, JsonText};
pub use labels::{Label, Labels};
pub use match_fault::{MatchFault, MatchRule};
pub use possible::check_statuses;
pub use response_fault::ResponseFault;
pub use responses::{Response, Responses};
pub use status_fault::{StatusFault, StatusRule};
pub use strictness::Strictness;
pub use table::Table;
pub use text::{push_whole_response, response_of, response_text};
pub use write::{ReplyFault, write_responses};
