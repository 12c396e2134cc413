//! Texts of plans and faults: as JSON they are read as the values that they show, equal ones are of one plan, a label is
//! one string, and a drawing has a node for each request.

ghost use Rattle.std.specs.Prelude.{◌≡◌, ◌<◌, true, IfSome, length, map, slice_get, string_bytes};
ghost use Rattle.serde_json.specs.View.{view};
ghost use Rattle.odb_check.specs.Firsts.{joined_below};
ghost use Rattle.odb_check.specs.Needs.{needs_at};
ghost use Rattle.odb_check.specs.Plans.{plan_records};
ghost use Rattle.odb_doc.specs.Refusals.{printed};
ghost use Rattle.odb_tests_text.specs.Texts.{AreOnePlan, BeginsInNeeded, IsPlanText};
ghost use Rattle.odb_text.specs.Drawings.{arrow_line};
ghost use Rattle.odb_text.specs.DrawnLines.{marked, nodes_of};
ghost use Rattle.odb_text.specs.Lines.{unlocated};
ghost use Rattle.odb_text.specs.Results.{fault_value, plan_value};
ghost use Rattle.odb_text.specs.SamePlans.{IsSamePlan};
ghost use Rattle.odb_text.specs.Labels.{IsOneString};

use crate::documents::{OnBatch, holds_of};
use odb_check::{Need, Plan, check};
use odb_doc::text::push_quoted;
use odb_doc::{Batch, Place, Refusal, parse};
use odb_testing::PAIR;
use odb_testing::plans::{self, OnPlan};
use odb_text::laws::{every_arrow, every_label, every_line, every_result, one_plan};
use odb_text::{Located, drawing_text, fault_json, plan_json};
use serde_json::Value;
use std::alloc::Global;

/// Returns what the line of a plan as JSON is read as.
fn plan_read(alloc: Global, plan: &Plan<'_>) -> Option<Value>
    ensures { IfSome result (λ value. view value ≡ plan_value (plan_records plan.now)) }
{
    every_result();
    let _count = plan.len();
    let text = plan_json(alloc, plan).ok()?;
    parse(alloc, text.as_bytes()).ok()
}

/// Returns what the line of a fault as JSON is read as.
fn fault_read(alloc: Global, refusal: Refusal) -> Option<Value>
    ensures { IfSome result (λ value. view value ≡ fault_value (unlocated (printed refusal))) }
{
    every_result();
    let fault = Located {
        refusal,
        position: None,
    };
    let text = fault_json(alloc, fault).ok()?;
    parse(alloc, text.as_bytes()).ok()
}

/// Returns whether two plans have one line of JSON, and so are the same.
fn are_alike<'b>(alloc: Global, plan: &Plan<'b>, other: &Plan<'b>) -> Option<bool>
    ensures { IfSome result (λ alike. alike ≡ true
        → IsSamePlan (plan_records plan.now) (plan_records other.now)) }
{
    one_plan();
    let _counts = (plan.len(), other.len());
    let one = plan_json(alloc, plan).ok()?;
    let two = plan_json(alloc, other).ok()?;
    Some(one == two)
}

/// Returns the text of the plan of the batch in a value.
fn plan_text_of(alloc: Global, value: &Value) -> Option<String>
    ensures { IfSome result (λ text. IsPlanText (view value.now) (string_bytes text)) }
{
    let Ok(batch) = Batch::read(alloc, value) else {
        return None;
    };
    let Ok(plan) = check(alloc, &batch) else {
        return None;
    };
    let _count = plan.len();
    match plan.text(alloc) {
        Ok(text) => Some(text),
        Err(_) => None,
    }
}

/// Returns whether the plans of two batches have one text, and so are the same.
fn have_one_text(alloc: Global, value: &Value, different: &Value) -> Option<bool>
    ensures { IfSome result (λ alike. alike ≡ true
        → AreOnePlan (view value.now) (view different.now)) }
{
    one_plan();
    let one = plan_text_of(alloc, value)?;
    let two = plan_text_of(alloc, different)?;
    Some(one == two)
}

/// Returns a text as a label, which is one string.
fn label_of(alloc: Global, text: &str) -> Option<String>
    ensures { IfSome result (λ label. IsOneString (string_bytes label)) }
{
    every_label();
    let mut label = String::new(alloc);
    push_quoted(alloc, &mut label, text).ok()?;
    Some(label)
}

/// Returns the drawing of a plan, which has a node for each request and an arrow for each dependency.
fn drawing_of(alloc: Global, plan: &Plan<'_>) -> Option<String>
    ensures nodes { IfSome result (λ text. marked 91 (string_bytes text)
        ≡ joined_below (length (plan_records plan.now)) (λ i. nodes_of i (slice_get (plan_records plan.now) i))) }
    ensures arrows { IfSome result (λ text. marked 45 (string_bytes text)
        ≡ joined_below (length (plan_records plan.now))
        (λ i. map (arrow_line (plan_records plan.now) i) (needs_at (plan_records plan.now) i))) }
{
    every_line();
    drawing_text(alloc, plan).ok()
}

/// Returns what a request depends on, by the number of the dependency. The arrow of it begins at a request of that.
fn needed(plan: &Plan<'_>, i: u32, number: usize) -> Option<Need>
    requires { i < length (plan_records plan.now) }
    ensures { IfSome result (BeginsInNeeded (plan_records plan.now)) }
{
    every_arrow();
    let _count = plan.len();
    let needs = plan.needs(i);
    if number >= needs.len() {
        return None;
    }
    Some(needs[number])
}

/// Counts the lines of a text that have a word.
fn count_with(text: &str, word: &str) -> usize {
    text.lines().filter(|line| line.contains(word)).count()
}

/// The drawing of a plan, which has as many nodes, and as many arrows with this text.
#[derive(Drop)]
struct Drawing {
    nodes: usize,
    arrow: &'static str,
    arrows: usize,
}

impl OnPlan for Drawing {
    fn holds(&self, alloc: Global, plan: &Plan<'_>) -> bool {
        match drawing_of(alloc, plan) {
            Some(text) => {
                count_with(text.as_str(), " [label=") == self.nodes
                    && count_with(text.as_str(), self.arrow) == self.arrows
            }
            None => false,
        }
    }
}

/// The texts of a plan, which are as the laws have it of the plan and itself.
#[derive(Drop)]
struct ReadAgain;

impl OnBatch for ReadAgain {
    fn holds(&self, alloc: Global, _document: &[u8], value: &Value, plan: &Plan<'_>) -> bool {
        is_read(alloc, plan)
            && are_alike(alloc, plan, plan) == Some(true)
            && have_one_text(alloc, value, value) == Some(true)
    }
}

/// Whether the line of a plan as JSON is read as an object.
fn is_read(alloc: Global, plan: &Plan<'_>) -> bool {
    match plan_read(alloc, plan) {
        Some(read) => read.is_object(),
        None => false,
    }
}

#[test]
fn texts_as_json_are_read_again(rt: HostRuntime) {
    assert!(rt; holds_of(rt.alloc(), PAIR, &ReadAgain));
    let refusal = Refusal {
        code: "F02",
        name: "NotJson",
        place: Place::Batch,
    };
    assert!(rt; fault_read(rt.alloc(), refusal).is_some());
}

#[test]
fn a_label_is_one_string(rt: HostRuntime) {
    let label = label_of(rt.alloc(), "a\"]; evil \\");
    assert!(rt; label.is_some_and(|it| it.as_str() == "\"a\\\"]; evil \\\\\""));
}

/// A request that depends on a group of two.
const GROUP: &str = r#"{"requests":[{"id":"a","method":"get","url":"A"},
    {"id":"b","atomicityGroup":"g","method":"get","url":"B","dependsOn":["a"]},
    {"id":"c","atomicityGroup":"g","method":"get","url":"C"},
    {"id":"d","method":"get","url":"D","dependsOn":["g"]}]}"#;

/// What the request at a position depends on first.
#[derive(Drop)]
struct FirstNeed(u32, Option<Need>);

impl OnPlan for FirstNeed {
    fn holds(&self, _alloc: Global, plan: &Plan<'_>) -> bool {
        self.0 < plan.len() && needed(plan, self.0, 0) == self.1
    }
}

#[test]
fn an_arrow_begins_at_what_is_needed(rt: HostRuntime) {
    for (i, need) in [
        (0, None),
        (1, Some(Need::One(0))),
        (3, Some(Need::Group(1))),
    ] {
        assert!(rt; plans::holds_of(rt.alloc(), GROUP, &FirstNeed(i, need)));
    }
}

#[test]
fn a_drawing_has_a_node_for_each_request(rt: HostRuntime) {
    let drawing = Drawing {
        nodes: 2,
        arrow: "  0 -> 1",
        arrows: 1,
    };
    assert!(rt; plans::holds_of(rt.alloc(), PAIR, &drawing));
}
