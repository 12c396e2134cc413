//! Live runs, and what their callers read of documents.
//!
//! [`open_run`] opens the run of a batch, which its caller drives: it starts requests, reports their outcomes or takes the
//! responses to a part of the batch, and asks for the next part and for the response. [`open_with_requests`] also returns
//! what is to be sent, by one reading of the batch. [`requests_in`] returns what is to be sent of each request of a batch, and
//! [`responses_in`] the parts of each response. Faults are those of [`odb_engine`], which has the commands. [`laws`] state what
//! holds of every live run and of its parts.
#![tactic(auto)]

pub mod laws;
mod planned;
mod requests;
mod responses;
mod run;

pub use requests::requests_in;
pub use responses::responses_in;
pub use run::{LiveRun, Opened, Part, Reply, open_run, open_with_requests};
