//! Checks the names of an OData JSON batch and makes its plan.
//!
//! The requests of a batch name each other by identifiers and atomicity groups (OData JSON Format
//! 4.01, sections 19.1 and 19.2). [`check_with`] and [`check`] report the first fault of these names,
//! or return the [`Plan`]: which requests form a unit, and what each request needs before it may
//! start. [`name_faults`] returns all faults of these names. A gateway that reads documents of strangers
//! calls [`check_with`] with [`Seed::random`].
#![tactic(auto)]

mod all_faults;
mod fault;
mod ids;
pub mod laws;
mod levels;
mod marks;
mod names;
mod need;
mod plan;
mod seed;
mod table;
mod tables;
mod text;
mod verdict;
mod walk;

pub use all_faults::name_faults;
pub use fault::{CheckFault, NameRule};
pub use need::Need;
pub use plan::Plan;
pub use seed::Seed;
pub use verdict::{check, check_with};
