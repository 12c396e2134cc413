//! What a test asks of the plan of a document.

use odb_check::{Plan, check};
use odb_doc::{Batch, parse};
use serde_json::Value;
use std::alloc::Global;

/// What a test asks of the plan of a document.
pub trait OnPlan {
    /// Whether it holds. A call that runs out of memory, or finds a fault, does not hold.
    fn holds(&self, alloc: Global, plan: &Plan<'_>) -> bool;
}

fn holds_of_batch<T: OnPlan>(alloc: Global, batch: &Batch<'_>, task: &T) -> bool {
    match check(alloc, batch) {
        Ok(plan) => task.holds(alloc, &plan),
        Err(_) => false,
    }
}

fn holds_of_value<T: OnPlan>(alloc: Global, value: &Value, task: &T) -> bool {
    match Batch::read(alloc, value) {
        Ok(batch) => holds_of_batch(alloc, &batch, task),
        Err(_) => false,
    }
}

/// Whether a document is a batch that the check accepts, and its plan is what is asked for.
pub fn holds_of<T: OnPlan>(alloc: Global, document: &str, task: &T) -> bool {
    match parse(alloc, document.as_bytes()) {
        Ok(value) => holds_of_value(alloc, &value, task),
        Err(_) => false,
    }
}
