//! URLs and conditions that refer to other requests.

use odb_resolve::{Answer, Known, Request, ResolveError, Resolved, Service, resolve};
use std::alloc::Global;

const BASE: &str = "http://host/odata/";

const SERVICE: Service<'static> = Service {
    base: BASE,
    roots: &[BASE],
};

/// The answer to a request for `Books?a` with this `Location`.
fn answered(location: Option<&'static str>, is_post: bool) -> Answer<'static> {
    Answer {
        url: "http://host/odata/Books?a",
        location,
        is_post,
        etag: Some("W/\"1\""),
    }
}

/// Returns whether what follows a reference to a request with this answer leads there: to a URL, or a refusal.
fn continues(alloc: Global, answer: Option<Answer<'_>>, url: &str, want: Result<&str, u8>) -> bool {
    let known = [Known { id: "a", answer }];
    let request = Request {
        url,
        reference: Some("a"),
        if_match: None,
        if_none_match: None,
    };
    is_sent(&resolve(alloc, &SERVICE, &known, &request), want)
}

fn is_sent(found: &Result<Resolved<'_>, ResolveError>, want: Result<&str, u8>) -> bool {
    match found {
        Ok(resolved) => want == Ok(resolved.url.as_str()),
        Err(ResolveError::Refused(refusal)) => want == Err(refusal.number()),
        Err(ResolveError::OutOfMemory) => false,
    }
}

/// What follows a reference to a POST that was answered with the `Location`, and where it leads.
const PLACES: &[(&str, &str, Result<&str, u8>)] = &[
    (
        "http://host/odata/Books(1)",
        "/Lines?$top=1#x",
        Ok("http://host/odata/Books(1)/Lines?$top=1"),
    ),
    ("Books(1)", "", Ok("http://host/odata/Books(1)")),
    (
        "Books(1)/?x#y",
        "/Lines",
        Ok("http://host/odata/Books(1)/Lines"),
    ),
    (
        "/odata/Books(1)//",
        "?a",
        Ok("http://host/odata/Books(1)?a"),
    ),
    (
        "../odata/Books('\u{fc}')",
        "/a b",
        Ok("http://host/odata/Books('%C3%BC')/a%20b"),
    ),
    (
        "Books(1)",
        "//evil/x",
        Ok("http://host/odata/Books(1)//evil/x"),
    ),
    ("Books(1)", "/../Users", Err(2)),
    ("Books(1)", "/./Users", Err(2)),
    ("Books(1)", "/%2e%2e/Users", Err(2)),
    ("http://evil/odata/Books(1)", "/Lines", Err(2)),
    (
        "http://host/",
        "/odata/Books",
        Ok("http://host/odata/Books"),
    ),
    ("Books(1)", "x", Err(1)),
    ("Books(1)", "/\n", Err(1)),
    ("Books\t", "/Lines", Err(1)),
];

#[test]
fn continues_the_location(rt: HostRuntime) {
    for (location, url, want) in PLACES {
        assert!(rt; continues(rt.alloc(), Some(answered(Some(location), true)), url, *want));
    }
}

#[test]
fn continues_the_url_of_what_has_no_location(rt: HostRuntime) {
    let want = Ok("http://host/odata/Books/1");
    assert!(rt; continues(rt.alloc(), Some(answered(None, false)), "/1", want));
    assert!(rt; continues(rt.alloc(), Some(answered(None, true)), "/1", Err(3)));
    assert!(rt; continues(rt.alloc(), Some(answered(Some(""), false)), "/1", want));
    assert!(rt; continues(rt.alloc(), Some(answered(Some(""), true)), "/1", Err(3)));
    assert!(rt; continues(rt.alloc(), None, "/1", Err(5)));
}

/// Returns whether a condition with this value is sent with the other one.
fn condition_is(alloc: Global, known: &[Known<'_>], value: &str, want: Result<&str, u8>) -> bool {
    let request = Request {
        url: "Books",
        reference: None,
        if_match: None,
        if_none_match: Some(value),
    };
    match resolve(alloc, &SERVICE, known, &request) {
        Ok(resolved) => resolved.if_match.is_none() && resolved.if_none_match == want.ok(),
        Err(ResolveError::Refused(refusal)) => want == Err(refusal.number()),
        Err(ResolveError::OutOfMemory) => false,
    }
}

const KNOWN: &[Known<'static>] = &[
    Known {
        id: "a",
        answer: Some(Answer {
            url: BASE,
            location: None,
            is_post: false,
            etag: Some("W/\"1\""),
        }),
    },
    Known {
        id: "b",
        answer: Some(Answer {
            url: BASE,
            location: None,
            is_post: false,
            etag: None,
        }),
    },
    Known {
        id: "c",
        answer: None,
    },
];

const CONDITIONS: &[(&str, Result<&str, u8>)] = &[
    ("$a", Ok("W/\"1\"")),
    ("$b", Err(4)),
    ("$c", Err(5)),
    ("$d", Ok("$d")),
    ("$", Ok("$")),
    ("\"x\"", Ok("\"x\"")),
    ("*", Ok("*")),
];

#[test]
fn replaces_a_reference_by_an_etag(rt: HostRuntime) {
    for (value, want) in CONDITIONS {
        assert!(rt; condition_is(rt.alloc(), KNOWN, value, *want));
    }
}
