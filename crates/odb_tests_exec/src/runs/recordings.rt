//! Recorded outcomes: each is given once, to the request whose id it names.

use super::THREE;
use odb_check::Plan;
use odb_doc::{Outcome, OutcomeFault, Outcomes, parse};
use odb_exec::{Recorded, Service, ServiceFault};
use odb_testing::plans::{OnPlan, holds_of};
use std::alloc::{AllocError, Global};

const RECORD: &[u8] = br#"{"outcomes":[{"id":"s","status":201,"headers":{"Location":"S"}},
    {"id":"unknown","status":500},{"id":"r","status":200,"body":[1]}]}"#;

/// The positions that are asked for, some of them twice, and the text of each outcome, if there is one.
const ASKED: &[(u32, Option<&str>)] = &[
    (0, Some("200 {} [1]")),
    (1, None),
    (0, None),
    (2, Some("201 {\"location\": \"S\"} -")),
    (2, None),
];

/// The body as JSON, `-` where there is none.
fn body_text(alloc: Global, outcome: &Outcome) -> Result<String, AllocError> {
    match outcome.body() {
        Some(value) => Ok(value.to_string(alloc)?),
        None => String::from_str(alloc, "-"),
    }
}

/// The headers, `{}` where there are none.
fn headers_text(alloc: Global, outcome: &Outcome) -> Result<String, AllocError> {
    match outcome.headers() {
        Some(headers) => format!(in alloc; "{headers:?}"),
        None => String::from_str(alloc, "{}"),
    }
}

/// The status, the headers and the body of an outcome.
fn outcome_text(alloc: Global, outcome: &Outcome) -> Result<String, AllocError> {
    let headers = headers_text(alloc, outcome)?;
    let body = body_text(alloc, outcome)?;
    format!(in alloc; "{} {headers} {body}", outcome.status)
}

/// Whether an outcome has this text.
fn is_outcome(alloc: Global, outcome: &Outcome, text: &str) -> bool {
    match outcome_text(alloc, outcome) {
        Ok(found) => found.as_str() == text,
        Err(_) => false,
    }
}

/// Whether the recorded service gives an outcome with this text for a position, or has none.
fn gives(
    alloc: Global,
    plan: &Plan<'_>,
    service: &mut Recorded,
    (i, wanted): (u32, Option<&str>),
) -> bool {
    if i >= plan.len() {
        return false;
    }
    match service.perform(i, plan.request(i)) {
        Ok(outcome) => match wanted {
            Some(text) => is_outcome(alloc, &outcome, text),
            None => false,
        },
        Err(fault) => wanted.is_none() && fault == ServiceFault::NoOutcome,
    }
}

/// Whether it gives what is asked for, one after another.
fn gives_all(alloc: Global, plan: &Plan<'_>, service: &mut Recorded) -> bool {
    for asked in ASKED {
        if !gives(alloc, plan, service, *asked) {
            return false;
        }
    }
    true
}

fn are_given(alloc: Global, plan: &Plan<'_>, outcomes: Outcomes) -> bool {
    match Recorded::new(alloc, plan, outcomes) {
        Ok(mut service) => gives_all(alloc, plan, &mut service),
        Err(_) => false,
    }
}

/// Reads a document of outcomes.
fn outcomes_in(alloc: Global, document: &[u8]) -> Result<Outcomes, OutcomeFault> {
    match parse(alloc, document) {
        Ok(value) => Outcomes::read(alloc, value),
        Err(_) => Err(OutcomeFault::OutOfMemory),
    }
}

/// Asks for outcomes.
struct Asking;

impl OnPlan for Asking {
    fn holds(&self, alloc: Global, plan: &Plan<'_>) -> bool {
        match outcomes_in(alloc, RECORD) {
            Ok(outcomes) => are_given(alloc, plan, outcomes),
            Err(_) => false,
        }
    }
}

#[test]
fn gives_each_outcome_once(rt: HostRuntime) {
    assert!(rt; holds_of(rt.alloc(), THREE, &Asking));
}
