//! Recorded outcomes and events: documents of what a service answered.

pub mod event;
pub mod event_fault;
pub mod events;
pub mod outcome;
pub mod outcome_fault;
pub mod outcomes;
pub mod parts;
