//! How finished runs end.

use odb_sched::{Done, Scheduler};
use std::alloc::Global;

/// How a run ends: the status that each request is answered, and the requests that have to be undone,
/// each with the status that it reported.
pub type End = (&'static [u16], &'static [(u32, u16)]);

/// What a test asks of a finished run.
pub trait OnDone {
    /// Whether it holds. A call that runs out of memory does not hold.
    fn holds(&self, alloc: Global, done: &Done<'_>) -> bool;
}

/// Whether a run ended as is asked for, if it is finished.
pub fn ended<T: OnDone>(alloc: Global, scheduler: Scheduler<'_>, task: &T) -> Option<bool> {
    if !scheduler.is_finished() {
        return None;
    }
    Some(task.holds(alloc, &scheduler.close()))
}

/// Whether the requests of a finished run are answered with these statuses.
pub fn are_answers(done: &Done<'_>, answers: &[u16]) -> bool {
    for i in 0..done.plan().len() {
        if answers.get(i as usize).copied() != Some(done.answer(i).status()) {
            return false;
        }
    }
    answers.len() == done.plan().len() as usize
}

/// Whether the plan has a request, and it reported this status.
fn is_reported(done: &Done<'_>, i: u32, status: u16) -> bool {
    if i >= done.plan().len() {
        return false;
    }
    match done.reported(i) {
        Some(outcome) => outcome.status == status,
        None => false,
    }
}

/// Whether the requests at these positions reported these statuses.
fn are_reported(done: &Done<'_>, positions: &[u32], reports: &[(u32, u16)]) -> bool {
    for (found, (i, status)) in positions.iter().zip(reports) {
        if found != i || !is_reported(done, *i, *status) {
            return false;
        }
    }
    positions.len() == reports.len()
}

/// Whether a finished run ended so.
pub fn is_end(alloc: Global, done: &Done<'_>, (answers, undone): End) -> bool {
    match done.undone(alloc) {
        Ok(found) => are_answers(done, answers) && are_reported(done, &found, undone),
        Err(_) => false,
    }
}
