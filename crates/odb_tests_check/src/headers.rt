//! The headers of a request: their names in lower case, and their values by a name in any case.

use odb_doc::{Batch, Header, Headers, parse};
use std::alloc::{AllocError, Global};
use std::rt::HostRuntime;

const DOCUMENT: &[u8] = br#"{"requests":[{"id":"1","method":"get","url":"A",
    "headers":{"Prefer":"x","a":"1","X-b":"2","accept":""}},{"id":"2","method":"get","url":"A"}]}"#;

/// The headers of the first request in their order, and another way to write each name.
const HEADERS: &[(&str, &str, &str)] = &[
    ("a", "1", "A"),
    ("accept", "", "Accept"),
    ("prefer", "x", "PREFER"),
    ("x-b", "2", "x-b"),
];

/// Returns whether this is the header.
fn is_header(
    alloc: Global,
    header: Header<'_>,
    name: &str,
    value: &str,
) -> Result<bool, AllocError> {
    let found = header.name(alloc)?;
    Ok(found.as_str() == name && header.value == value)
}

/// Returns whether these are the headers, in their order and by their names.
fn has_headers(alloc: Global, headers: &Headers<'_>) -> Result<bool, AllocError> {
    let mut same = headers.len() == HEADERS.len() && headers.get("b").is_none();
    for (header, (name, value, other)) in headers.iter().zip(HEADERS.iter()) {
        let is_here = is_header(alloc, *header, name, value)?;
        same = same && is_here && headers.get(other) == Some(*value);
    }
    Ok(same)
}

/// Returns whether the requests of the document have their headers.
fn are_found(alloc: Global) -> bool {
    let Ok(value) = parse(alloc, DOCUMENT) else {
        return false;
    };
    let Ok(batch) = Batch::read(alloc, &value) else {
        return false;
    };
    if batch.len() != 2 {
        return false;
    }
    has_headers(alloc, &batch.request(0).headers) == Ok(true) && batch.request(1).headers.is_empty()
}

#[test]
fn gives_names_in_lower_case(rt: HostRuntime) {
    assert!(rt; are_found(rt.alloc()));
}
