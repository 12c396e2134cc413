//! Verdicts on batch documents: the first of all faults of a document is the first in the order of the rules, and a
//! document without one is accepted.

ghost use Rattle.std.specs.Prelude.{◌≡◌, ◌↔◌, IfSome, None};
ghost use Rattle.odb_doc.specs.Refusals.{printed};
ghost use Rattle.odb_engine.specs.Cascade.{Accepts};
ghost use Rattle.odb_engine.specs.FirstFault.{PrintsFirst};

use odb_doc::Refusal;
use odb_engine::laws::every_verdict;
use odb_engine::{Setup, faults_in};
use std::alloc::Global;

/// Returns the first of all faults of a document: `Some(None)` if there are none, and `None` if memory runs out.
fn first_fault(alloc: Global, document: &[u8]) -> Option<Option<Refusal>>
    ensures first { IfSome result (λ found. IfSome found (λ refusal. PrintsFirst document.now (printed refusal))) }
    ensures accepted { IfSome result (λ found. (found ≡ None) ↔ Accepts document.now (λ _. Unit {0})) }
{
    every_verdict();
    let faults = faults_in(alloc, document, Setup::plain()).ok()?;
    Some(faults.first().copied())
}

/// Documents, and the code of their first fault if they have one.
const VERDICTS: &[(&str, &str)] = &[
    (r#"{"requests":[]}"#, ""),
    ("{", "F02"),
    (r#"{"requests":[1],"other":2}"#, "F05"),
    (
        r#"{"requests":[{"id":"a","method":"get","url":"X","body":{}},
            {"id":"b","method":"get","url":"X","if":1}]}"#,
        "F20",
    ),
    (
        r#"{"requests":[{"id":"a","method":"get","url":"X","dependsOn":["x"]},
            {"id":"a","method":"get","url":"X"}]}"#,
        "F30",
    ),
];

/// Whether the first fault of a document has this code, and a document without one no code.
fn has_code(alloc: Global, document: &str, code: &str) -> bool {
    match first_fault(alloc, document.as_bytes()) {
        Some(Some(refusal)) => refusal.code == code,
        Some(None) => code.is_empty(),
        None => false,
    }
}

#[test]
fn the_first_fault_is_found_by_phase_position_and_number(rt: HostRuntime) {
    for (document, code) in VERDICTS {
        assert!(rt; has_code(rt.alloc(), document, code));
    }
}
