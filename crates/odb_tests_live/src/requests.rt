//! What is to be sent of the requests of batches, with ample memory. The clauses say what each part is.

use odb_check::Seed;
use odb_engine::Halt;
use odb_live::requests_in;
use odb_send::{RequestParts, Requests};
use odb_spans::Span;
use std::rt::HostRuntime;
use std::test::Fail;

/// A document, and for each of its requests the id, the method, the URL, its rest, the headers, the group or none, the
/// dependencies, the body or none, and the position that the URL refers to, or none.
struct Row {
    document: &'static str,
    requests: &'static [&'static [Option<&'static str>]],
}

const NONE: Option<&str> = None;

const ROWS: &[Row] = &[
    Row {
        document: r#"{"requests":[]}"#,
        requests: &[],
    },
    Row {
        document: r#"{"requests":[{"id":"1","method":"Get","url":"A","headers":{"X-b":"2","A":"\n"}},{"id":"2","method":"post","url":"$1/B?x=1#y","dependsOn":["1"],"body": [9.990 ]}]}"#,
        requests: &[
            &[
                Some("1"),
                Some("GET"),
                Some("A"),
                Some("A"),
                Some(r#"{"a":"\n","x-b":"2"}"#),
                NONE,
                Some(""),
                NONE,
                NONE,
            ],
            &[
                Some("2"),
                Some("POST"),
                Some("$1/B?x=1#y"),
                Some("/B?x=1#y"),
                Some("{}"),
                NONE,
                Some("1"),
                Some("[9.990 ]"),
                Some("0"),
            ],
        ],
    },
    Row {
        document: r#"{"requests":[{"id":"1","method":"PUT","url":"\u0041","atomicityGroup":"g","body":{"n":12345678901234567890123}},{"id":"2","atomicityGroup":"g","method":"delete","url":"%241","dependsOn":["1"]}]}"#,
        requests: &[
            &[
                Some("1"),
                Some("PUT"),
                Some("A"),
                Some("A"),
                Some("{}"),
                Some("g"),
                Some(""),
                Some(r#"{"n":12345678901234567890123}"#),
                NONE,
            ],
            &[
                Some("2"),
                Some("DELETE"),
                Some("%241"),
                Some(""),
                Some("{}"),
                Some("g"),
                Some("1"),
                NONE,
                Some("0"),
            ],
        ],
    },
];

/// Returns whether the span of the bytes is this text, or there is neither.
fn is_part(bytes: &[u8], span: Option<Span>, want: Option<&str>) -> bool {
    match (span, want) {
        (Some(span), Some(text)) => {
            span.start <= span.end
                && span.end <= bytes.len()
                && span.bytes_in(bytes) == text.as_bytes()
        }
        (None, None) => true,
        _ => false,
    }
}

/// Returns whether the position is this number, or there is neither. No document here has more than ten requests.
fn is_position(position: Option<u32>, want: Option<&str>) -> bool {
    match (position, want) {
        (Some(position), Some(text)) => {
            text.len() == 1 && u32::from(text.as_bytes()[0]) == position.saturating_add(48)
        }
        (None, None) => true,
        _ => false,
    }
}

/// Returns whether the parts of a request are as wanted.
fn is_request(document: &[u8], text: &[u8], it: RequestParts, want: &[Option<&str>]) -> bool {
    let [
        id,
        method,
        url,
        rest,
        headers,
        group,
        needs,
        body,
        reference,
    ] = want
    else {
        return false;
    };
    is_part(text, Some(it.id), *id)
        && is_part(text, Some(it.method), *method)
        && is_part(text, Some(it.url), *url)
        && is_part(text, Some(it.rest), *rest)
        && is_part(text, Some(it.headers), *headers)
        && is_part(text, it.group, *group)
        && is_part(text, Some(it.needs), *needs)
        && is_part(document, it.body, *body)
        && is_position(it.reference, *reference)
}

/// Returns whether the requests are as wanted.
fn are_requests(found: &Requests, row: &Row) -> bool {
    let (document, text) = (row.document.as_bytes(), found.text.as_bytes());
    found.parts.len() == row.requests.len()
        && found
            .parts
            .iter()
            .zip(row.requests.iter())
            .all(|(it, want)| is_request(document, text, *it, want))
}

#[test]
fn finds_what_is_to_be_sent(rt: HostRuntime) -> Result<(), Fail> {
    for row in ROWS {
        match requests_in(rt.alloc(), row.document.as_bytes(), Seed::none()) {
            Ok(found) if are_requests(&found, row) => {}
            _ => return Err(Fail::new(row.document)),
        }
    }
    Ok(())
}

#[test]
fn refuses_a_batch(rt: HostRuntime) -> Result<(), Fail> {
    match requests_in(rt.alloc(), b"{}", Seed::none()) {
        Err(Halt::Refused(refusal)) if refusal.code == "F04" => Ok(()),
        _ => Err(Fail::new("F04")),
    }
}
