//! Executions of an OData JSON batch: a plan is run to its end.
//!
//! [`execute`] runs a plan (OData JSON Format 4.01, section 19.4; OData Protocol 4.01, section 11.7): a
//! [`Chooser`] decides the order, step by step or by an [`odb_sched::Order`] that it names, and a
//! [`Service`] performs the requests, as [`Recorded`] does by recorded outcomes (section 19.5).
//! An order is itself a chooser: [`First`], [`Last`] or [`Wide`]. The [`Trace`] has the steps and the
//! finished run. What holds of every execution is in [`laws`].
#![tactic(auto)]

mod chooser;
mod execution;
pub mod laws;
mod service;

pub use chooser::{Choice, Chooser};
pub use execution::{ExecFault, Trace, execute};
pub use odb_sched::Order::{First, Last, Wide};
pub use service::{Recorded, Service, ServiceFault};
