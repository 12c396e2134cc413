//! The text of responses to a library, also what no recorded outcome has, such as a null body; and the first
//! body that holds a number that is not whole.

use super::{Ending, TWO, USUAL, replies};
use odb_doc::{Fault, Place};
use odb_reply::ReplyFault;
use odb_testing::rows::expect;
use std::test::Fail;

/// A batch, how its requests end, and the text of the response, or the request whose body is refused.
type Example = (
    &'static str,
    &'static [Ending<'static>],
    Result<&'static str, usize>,
);

const EXAMPLES: &[Example] = &[
    // A body that is not answered may hold a number that is not whole.
    (
        USUAL,
        &[(200, &[], ""), (200, &[], "1.5"), (409, &[], "")],
        Ok(
            r#"{"responses":[{"id":"0","status":200},{"atomicityGroup":"group1","id":"1","status":424},{"atomicityGroup":"group1","id":"2","status":409},{"id":"3","status":424}]}"#,
        ),
    ),
    // Headers and bodies.
    (
        TWO,
        &[
            (
                200,
                &[("odata-version", "4.01"), ("Allow", "GET"), ("etag", "")],
                "[]",
            ),
            (599, &[], ""),
        ],
        Ok(
            r#"{"responses":[{"body":[],"headers":{"Allow":"GET","etag":"","odata-version":"4.01"},"id":"a","status":200},{"id":"b","status":599}]}"#,
        ),
    ),
    (
        TWO,
        &[
            (200, &[("etag", "W/\"1\\2\""), ("x\u{1}\n", "é\t€")], ""),
            (599, &[], ""),
        ],
        Ok(
            "{\"responses\":[{\"headers\":{\"etag\":\"W/\\\"1\\\\2\\\"\",\"x\\u0001\\n\":\"é\\t€\"},\"id\":\"a\",\"status\":200},{\"id\":\"b\",\"status\":599}]}",
        ),
    ),
    (
        TWO,
        &[(200, &[], "null"), (599, &[], "")],
        Ok(r#"{"responses":[{"body":null,"id":"a","status":200},{"id":"b","status":599}]}"#),
    ),
    // A fraction.
    (TWO, &[(200, &[], "1"), (200, &[], "1.5")], Err(1)),
    // An exponent in the first body, and a fraction in the second.
    (
        TWO,
        &[(500, &[], r#"{"a":[1e2]}"#), (200, &[], "1.5")],
        Err(0),
    ),
    // A number beyond 64 bits.
    (
        TWO,
        &[
            (200, &[], "18446744073709551615"),
            (200, &[], "18446744073709551616"),
        ],
        Err(1),
    ),
];

#[test]
fn has_a_response_for_each_request(rt: HostRuntime) -> Result<(), Fail> {
    for (document, endings, want) in EXAMPLES {
        let has_text = replies(rt.alloc(), document, endings, *want, usize::MAX);
        expect(has_text, want.unwrap_or("not refused"))?;
    }
    Ok(())
}

#[test]
fn a_refused_body_has_a_code_a_name_and_a_place(rt: HostRuntime) {
    let fault = ReplyFault::NotWhole { at: 7 };
    let is_request = fault.place() == Place::Request(7);
    assert!(rt; fault.code() == "F50" && fault.name() == "NotWhole" && is_request);
}
