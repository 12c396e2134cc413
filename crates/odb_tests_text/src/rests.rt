//! The rest of batches, with ample memory: what may be sent again by the responses of a service.

use crate::documents::{OnResponses, holds_of_responses};
use crate::laws::text_of_rest;
use odb_check::Plan;
use odb_reply::{Responses, Table};
use serde_json::Value;
use std::alloc::Global;
use std::rt::HostRuntime;
use std::test::Fail;

/// A batch, the responses to it, and its rest; no rest if a request of it lacks a Location or an ETag.
type Row = (&'static str, &'static str, Option<&'static str>);

const ROWS: &[Row] = &[
    // Nothing is left of a batch that has succeeded.
    (
        r#"{"requests":[{"id":"a","method":"get","url":"A"}]}"#,
        r#"{"responses":[{"id":"a","status":200}]}"#,
        Some(r#"{"requests":[]}"#),
    ),
    // What was done is no dependency any more. A body stays as it was written.
    (
        r#"{"requests":[{"id":"a","method":"post","url":"A","body":{}},
            {"id":"b","method":"Post","url":"$a/Lines?x=1","dependsOn":["a"],"headers":{"X-A":"1"},"body": {"Price" : 9.990}},
            {"id":"c","method":"get","url":"$b","dependsOn":["a","b"]}]}"#,
        r#"{"responses":[{"id":"a","status":201,"headers":{"location":"/s/A(1)"}},
            {"id":"b","status":503},{"id":"c","status":424}]}"#,
        Some(
            r#"{"requests":[{"body":{"Price" : 9.990},"headers":{"x-a":"1"},"id":"b","method":"post","url":"/s/A(1)/Lines?x=1"},{"dependsOn":["b"],"id":"c","method":"get","url":"$b"}]}"#,
        ),
    ),
    // What may not be sent again is left out, and so is what needs it.
    (
        r#"{"requests":[{"id":"a","method":"post","url":"A","body":{}},{"id":"b","method":"get","url":"B","dependsOn":["a"]},
            {"id":"c","method":"put","url":"C","body":1}]}"#,
        r#"{"responses":[{"id":"a","status":504},{"id":"b","status":424},{"id":"c","status":504}]}"#,
        Some(r#"{"requests":[{"body":1,"id":"c","method":"put","url":"C"}]}"#),
    ),
    // A group is sent again as a whole.
    (
        r#"{"requests":[{"id":"a","atomicityGroup":"g","method":"post","url":"A","body":{}},
            {"id":"b","atomicityGroup":"g","method":"delete","url":"$a","dependsOn":["a"]},{"id":"c","method":"get","url":"C","dependsOn":["g"]}]}"#,
        r#"{"responses":[{"id":"b","atomicityGroup":"g","status":429},{"id":"a","atomicityGroup":"g","status":201},{"id":"c","status":424}]}"#,
        Some(
            r#"{"requests":[{"atomicityGroup":"g","body":{},"id":"a","method":"post","url":"A"},{"atomicityGroup":"g","dependsOn":["a"],"id":"b","method":"delete","url":"$a"},{"dependsOn":["g"],"id":"c","method":"get","url":"C"}]}"#,
        ),
    ),
    // A condition that refers to what was done gets its ETag. One that refers within the rest stays, as other values do.
    (
        r#"{"requests":[{"id":"a","method":"post","url":"A"},
            {"id":"b","method":"patch","url":"B","dependsOn":["a"],"headers":{"If-Match":"$a","If-None-Match":"$x","X-A":"$a"}},
            {"id":"c","method":"get","url":"$b","dependsOn":["b"],"headers":{"if-none-match":"$b"}}]}"#,
        r#"{"responses":[{"id":"a","status":200,"headers":{"Etag":"W/\"1\"","etag":"2"}},{"id":"b","status":503},{"id":"c","status":424}]}"#,
        Some(
            r#"{"requests":[{"headers":{"if-match":"W/\"1\"","if-none-match":"$x","x-a":"$a"},"id":"b","method":"patch","url":"B"},{"dependsOn":["b"],"headers":{"if-none-match":"$b"},"id":"c","method":"get","url":"$b"}]}"#,
        ),
    ),
    // One that refers to a later request stays.
    (
        r#"{"requests":[{"id":"b","method":"get","url":"B","headers":{"if-match":"$a"}},{"id":"a","method":"get","url":"A"}]}"#,
        r#"{"responses":[{"id":"a","status":200,"headers":{"ETag":"1"}},{"id":"b","status":503}]}"#,
        Some(r#"{"requests":[{"headers":{"if-match":"$a"},"id":"b","method":"get","url":"B"}]}"#),
    ),
    // What has failed has no ETag.
    (
        r#"{"requests":[{"id":"a","method":"get","url":"A"},{"id":"b","method":"get","url":"B","headers":{"if-match":"$a"}}]}"#,
        r#"{"responses":[{"id":"a","status":404,"headers":{"ETag":"1"}},{"id":"b","status":503}]}"#,
        None,
    ),
    // No ETag is recorded.
    (
        r#"{"requests":[{"id":"a","method":"get","url":"A"},{"id":"b","method":"get","url":"B","dependsOn":["a"],"headers":{"if-match":"$a"}}]}"#,
        r#"{"responses":[{"id":"a","status":200,"headers":{"ETag":1}},{"id":"b","status":503}]}"#,
        None,
    ),
    // No Location is recorded, or it makes no URL.
    (
        r#"{"requests":[{"id":"a","method":"post","url":"A","body":{}},{"id":"b","method":"get","url":"$a/B","dependsOn":["a"]}]}"#,
        r#"{"responses":[{"id":"a","status":201,"headers":{"ETag":"1"}},{"id":"b","status":429}]}"#,
        None,
    ),
    (
        r#"{"requests":[{"id":"a","method":"post","url":"A","body":{}},{"id":"b","method":"get","url":"$a/B","dependsOn":["a"]}]}"#,
        r#"{"responses":[{"id":"a","status":201,"headers":{"Location":"$c"}},{"id":"b","status":429}]}"#,
        None,
    ),
];

/// The text of the rest, if there is one.
#[derive(Drop)]
struct RestText(Option<&'static str>);

impl OnResponses for RestText {
    fn holds(
        &self,
        alloc: Global,
        document: &[u8],
        value: &Value,
        plan: &Plan<'_>,
        given: &Value,
        _responses: &Responses<'_>,
        table: &Table,
    ) -> bool {
        match text_of_rest(alloc, document, value, plan, table, given) {
            Some(Ok(text)) => Some(text.as_str()) == self.0,
            Some(Err(_)) => self.0.is_none(),
            None => false,
        }
    }
}

#[test]
fn makes_the_rest(rt: HostRuntime) -> Result<(), Fail> {
    for (batch, responses, wanted) in ROWS {
        if !holds_of_responses(rt.alloc(), batch, responses, &RestText(*wanted)) {
            return Err(Fail::new(batch));
        }
    }
    Ok(())
}
