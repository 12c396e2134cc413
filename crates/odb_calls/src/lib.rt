//! What the calls of the C library do, over slices, numbers and live runs: all but pointers, which `odb_ffi` has.
//!
//! A call takes documents as bytes and options as numbers, writes what its command prints to a buffer of the caller, and
//! returns a status. Its contract is the relation that the command's engine states.
//!
//! - [`options`] and [`status`] name the numbers, [`constants`] what packages need to know beside them.
//! - [`answer`] does a task and copies its text to the caller's buffer; [`buffer`] copies texts and lists.
//! - [`live`] and [`units`] drive a run, [`next`] says which step it takes next, [`positions`] copies which requests are
//!   ready or running.
//! - [`parts`] gives what may be sent together, [`takes`] what it was answered, by `steps`; [`requests`] gives what is to be
//!   sent, [`responses`] what a service has answered, [`targets`] where a request is sent.
//! - [`faults`] gives all faults, [`report_faults`] why a report is refused, [`explanations`] what a fault means, [`headers`]
//!   headers as pairs.
//! - [`request`], [`response`], [`fault`], [`header`] and [`position`] are what these lists hold, with the layout of C.
//! - [`laws`] says what holds of every list of calls on a live run.
#![tactic(auto)]

pub mod answer;
pub mod buffer;
pub mod constants;
pub mod explanations;
pub mod fault;
pub mod faults;
pub mod header;
pub mod headers;
pub mod laws;
pub mod live;
pub mod next;
pub mod options;
mod outcome;
pub mod parts;
pub mod position;
pub mod positions;
pub mod report_faults;
pub mod request;
pub mod requests;
pub mod response;
pub mod responses;
pub mod status;
mod steps;
pub mod takes;
pub mod targets;
pub mod units;
