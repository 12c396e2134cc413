//! Where the bodies of requests lie in documents that are hard to scan: the spans that the clauses of
//! `bodies_in` pin, as text.

use odb_spans::bodies_in;
use std::alloc::{AllocError, Global};
use std::rt::HostRuntime;
use std::test::Fail;

/// Documents, with the text of the body of each request.
const DOCUMENTS: &[(&str, &[Option<&str>])] = &[
    (r#"{"requests":[]}"#, &[]),
    (r#" { "requests" : [ ] } "#, &[]),
    // No body, and null.
    (
        r#"{"requests":[{"id":"1"},{"body":9.990},{"body":null}]}"#,
        &[None, Some("9.990"), None],
    ),
    // Blanks, which are not part of a body but within it.
    (
        "{\"requests\":[{\"body\": \t\n 12345678901234567890123 , \"id\":\"1\"}]}",
        &[Some("12345678901234567890123")],
    ),
    (
        "\r\n{ \"requests\" :\t[ { \"body\" : [ 1 , { \"a\" : -0.0E+5 } ] } ]\n}\n",
        &[Some("[ 1 , { \"a\" : -0.0E+5 } ]")],
    ),
    // A name that repeats, also with escapes.
    (
        r#"{"requests":[{"body":1,"body":2},{"body":1,"b\u006fdy":{"a":[1,2]}}]}"#,
        &[Some("2"), Some(r#"{"a":[1,2]}"#)],
    ),
    (
        r#"{"requests":[{"body":1,"body":null},{"body":null,"\u0062ody":3}]}"#,
        &[None, Some("3")],
    ),
    // Names that are not `body`.
    (
        r#"{"requests":[{"Body":1,"body ":2,"b\\ody":3,"\u0042ody":4,"bod":5,"bodyy":6,"":7}]}"#,
        &[None],
    ),
    // What is between two names is the text of the body's value, too.
    (
        r#"{"requests":[{"a":1,"body":"\u003a1,"}]}"#,
        &[Some(r#""\u003a1,""#)],
    ),
    // Brackets and quotes in strings.
    (
        r#"{"requests":[{"url":"]}\"{[","body":[ "]}\"\\" , {} ]},{"id":"\\","body":"\\\""}]}"#,
        &[Some(r#"[ "]}\"\\" , {} ]"#), Some(r#""\\\"""#)],
    ),
    // Characters that are not ASCII, and surrogates.
    (
        "{\"requests\":[{\"\u{fc}\":1,\"body\":\"\u{fc}\\ud83d\\ude00\"}]}",
        &[Some("\"\u{fc}\\ud83d\\ude00\"")],
    ),
    // `requests` twice, once with an escape, and annotations.
    (
        r#"{"requests":[{"body":1}],"@a":{"requests":[{"body":7}]},"\u0072equests":[{},{"body":2}]}"#,
        &[None, Some("2")],
    ),
    (
        r#"{"@x":"]","requests":[{"a@b":{"body":1},"body":{"body":2},"c@d":[]}],"z@y":[{"body":3}]}"#,
        &[Some(r#"{"body":2}"#)],
    ),
    // Literals, and values with nothing in them.
    (
        r#"{"requests":[{"body":true},{"body":false},{"body":"null"},{"body":""}]}"#,
        &[Some("true"), Some("false"), Some("\"null\""), Some("\"\"")],
    ),
    (
        r#"{"requests":[{"body":[]},{"body":{}},{"body":{"body":null}}]}"#,
        &[Some("[]"), Some("{}"), Some(r#"{"body":null}"#)],
    ),
    // Documents that are not batches.
    (r#"{"requests":[{"body":1}],"requests":4}"#, &[]),
    (
        r#"{"requests":[[{"body":3}],4,{"body":5}]}"#,
        &[None, None, Some("5")],
    ),
    (r#"[{"body":1}]"#, &[]),
    (r#""{""#, &[]),
];

/// Returns whether the bodies of the document have these texts.
fn has_bodies(alloc: Global, document: &str, want: &[Option<&str>]) -> Result<bool, AllocError> {
    let bytes = document.as_bytes();
    let found = bodies_in(alloc, bytes)?;
    if found.len() != want.len() {
        return Ok(false);
    }
    for (span, text) in found.iter().zip(want.iter()) {
        let same = match (span, text) {
            (Some(span), Some(text)) => {
                span.start <= span.end
                    && span.end <= bytes.len()
                    && span.bytes_in(bytes) == text.as_bytes()
            }
            (None, None) => true,
            _ => false,
        };
        if !same {
            return Ok(false);
        }
    }
    Ok(true)
}

#[test]
fn finds_each_body(rt: HostRuntime) -> Result<(), Fail> {
    for (document, want) in DOCUMENTS {
        if !has_bodies(rt.alloc(), document, want)? {
            return Err(Fail::new(*document));
        }
    }
    Ok(())
}
