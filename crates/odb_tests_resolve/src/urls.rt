//! URLs below one root, which is the base.

use odb_resolve::{Request, ResolveError, Service, resolve};
use std::alloc::Global;

/// What a URL leads to: the URL as it is sent, or the number of a refusal.
type Lead = Result<&'static str, u8>;

const UNREADABLE: Lead = Err(1);

const OUTSIDE: Lead = Err(2);

/// Returns whether a URL leads there, from a base that is the only root.
fn leads(alloc: Global, base: &str, url: &str, want: Lead) -> bool {
    let service = Service {
        base,
        roots: &[base],
    };
    let request = Request {
        url,
        reference: None,
        if_match: None,
        if_none_match: None,
    };
    match resolve(alloc, &service, &[], &request) {
        Ok(resolved) => want == Ok(resolved.url.as_str()),
        Err(ResolveError::Refused(refusal)) => want == Err(refusal.number()),
        Err(ResolveError::OutOfMemory) => false,
    }
}

/// URLs from the base `http://host/odata/`.
const FROM_HOST: &[(&str, Lead)] = &[
    // Keys in any script, written or percent-encoded.
    ("Books", Ok("http://host/odata/Books")),
    ("", Ok("http://host/odata/")),
    ("Books('a%20b')", Ok("http://host/odata/Books('a%20b')")),
    ("Books('a b')", Ok("http://host/odata/Books('a%20b')")),
    (
        "Books('a%C2%A0b')",
        Ok("http://host/odata/Books('a%C2%A0b')"),
    ),
    (
        "Books('a\u{a0}b')",
        Ok("http://host/odata/Books('a%C2%A0b')"),
    ),
    (
        "Books('\u{3000}')",
        Ok("http://host/odata/Books('%E3%80%80')"),
    ),
    (
        "Books('\u{200c}')",
        Ok("http://host/odata/Books('%E2%80%8C')"),
    ),
    (
        "Books('\u{200d}')",
        Ok("http://host/odata/Books('%E2%80%8D')"),
    ),
    ("Books('\u{ad}')", Ok("http://host/odata/Books('%C2%AD')")),
    (
        "Books('\u{feff}')",
        Ok("http://host/odata/Books('%EF%BB%BF')"),
    ),
    (
        "Books('\u{10ffff}')",
        Ok("http://host/odata/Books('%F4%8F%BF%BF')"),
    ),
    ("Books('100%')", Ok("http://host/odata/Books('100%')")),
    (
        "At(2020-01-01T00:00:00Z)",
        Ok("http://host/odata/At(2020-01-01T00:00:00Z)"),
    ),
    ("Books('a;..')", Ok("http://host/odata/Books('a;..')")),
    ("Books('a..b')", Ok("http://host/odata/Books('a..b')")),
    ("...", Ok("http://host/odata/...")),
    // Queries and fragments.
    (
        "Books?$filter=N eq '/../\\'",
        Ok("http://host/odata/Books?$filter=N%20eq%20'/../%5C'"),
    ),
    ("Books?a=%0A?b", Ok("http://host/odata/Books?a=%0A?b")),
    ("?a", Ok("http://host/odata/?a")),
    ("Books#x", Ok("http://host/odata/Books")),
    // Dot segments that stay below the root.
    ("./Books", Ok("http://host/odata/Books")),
    ("a/../Books", Ok("http://host/odata/Books")),
    ("a/b/..", Ok("http://host/odata/a/")),
    ("../odata/Books", Ok("http://host/odata/Books")),
    // The root, written with other escapes.
    ("/%6Fdata/Books", Ok("http://host/odata/Books")),
    ("/%6f%64ata/B%6foks", Ok("http://host/odata/B%6foks")),
    ("/odata%2FBooks", Ok("http://host/odata/Books")),
    ("/%6Fdata%2f", Ok("http://host/odata/")),
    ("/%6Fdata", OUTSIDE),
    ("/%6Gdata/Books", OUTSIDE),
    ("/%256Fdata/Books", OUTSIDE),
    ("/odata%2F..%2Fadmin", OUTSIDE),
    ("/%6Fdata/%2e%2e/admin", OUTSIDE),
    ("a//b", Ok("http://host/odata/a//b")),
    // Control characters.
    ("Books('\n')", UNREADABLE),
    ("Books('\u{7f}')", UNREADABLE),
    ("Books('%00')", OUTSIDE),
    ("Books('%09')", OUTSIDE),
    ("Books('%0D%0A')", OUTSIDE),
    ("Books('%1F')", OUTSIDE),
    ("Books('%7F')", OUTSIDE),
    ("Books('%250a')", OUTSIDE),
    ("Books('%C2%80')", OUTSIDE),
    ("Books('\u{85}')", OUTSIDE),
    ("Books('%C2%9F')", OUTSIDE),
    ("Books('%E2%80%A8')", OUTSIDE),
    ("Books('\u{2029}')", OUTSIDE),
    // Segments that lead up for a server that decodes once or twice.
    ("../admin", OUTSIDE),
    ("..", OUTSIDE),
    ("%2E%2E/admin", OUTSIDE),
    ("%2e./admin", OUTSIDE),
    (".%2e/admin", OUTSIDE),
    ("%252e%252e/admin", OUTSIDE),
    ("%252e%2e/admin", OUTSIDE),
    ("%25%32%65%2e/admin", OUTSIDE),
    ("%2e/admin", OUTSIDE),
    ("a%2F..%2Fb", OUTSIDE),
    ("a%252F..%252Fb", OUTSIDE),
    ("a%5C..%5Cb", OUTSIDE),
    ("a\\b", OUTSIDE),
    ("a%255Cb", OUTSIDE),
    ("..;x/admin", OUTSIDE),
    ("..%3bx/admin", OUTSIDE),
    ("..%253bx/admin", OUTSIDE),
    // Absolute URLs.
    ("/Books", OUTSIDE),
    ("/odata", OUTSIDE),
    ("/odatax/Books", OUTSIDE),
    ("/odata/Books", Ok("http://host/odata/Books")),
    ("http://host/odata/Books", Ok("http://host/odata/Books")),
    ("HTTP://HOST/odata/Books", Ok("http://host/odata/Books")),
    ("http://host:80/odata/Books", Ok("http://host/odata/Books")),
    ("http://host:/odata/Books", Ok("http://host/odata/Books")),
    ("//host/odata/Books", Ok("http://host/odata/Books")),
    (
        "http://host/odata/a/../Books",
        Ok("http://host/odata/Books"),
    ),
    ("http://host:443/odata/Books", OUTSIDE),
    ("http://host:8080/odata/Books", OUTSIDE),
    ("https://host/odata/Books", OUTSIDE),
    ("http://evil/odata/Books", OUTSIDE),
    ("http://host.evil/odata/Books", OUTSIDE),
    ("http://host@evil/odata/Books", OUTSIDE),
    ("http://evil@host/odata/Books", OUTSIDE),
    ("http:///odata/Books", OUTSIDE),
    ("http:/odata/Books", OUTSIDE),
    ("http:Books", OUTSIDE),
    ("//evil/odata/Books", OUTSIDE),
    ("\\\\evil/odata/Books", OUTSIDE),
    ("javascript:alert(1)", OUTSIDE),
];

/// Bases, each the only root, and URLs from them.
const FROM_OTHERS: &[(&str, &str, Lead)] = &[
    (
        "http://host:80/odata/",
        "http://host/odata/Books",
        Ok("http://host:80/odata/Books"),
    ),
    (
        "https://host/odata/",
        "https://host:443/odata/Books",
        Ok("https://host/odata/Books"),
    ),
    (
        "https://host:443/odata/",
        "https://host/odata/Books",
        Ok("https://host:443/odata/Books"),
    ),
    (
        "https://host/odata/",
        "https://host:80/odata/Books",
        OUTSIDE,
    ),
    (
        "http://host:8080/odata/",
        "http://host:8080/odata/Books",
        Ok("http://host:8080/odata/Books"),
    ),
    (
        "http://[::1]/odata/",
        "http://[::1]:80/odata/Books",
        Ok("http://[::1]/odata/Books"),
    ),
    (
        "http://[::1]:80/odata/",
        "http://[::1]/odata/Books",
        Ok("http://[::1]:80/odata/Books"),
    ),
    ("http://[::80]/odata/", "http://[::]/odata/Books", OUTSIDE),
    ("http://host/", "Books", Ok("http://host/Books")),
    ("http://host/", "/../x", Ok("http://host/x")),
];

#[test]
fn leads_below_the_root_or_is_refused(rt: HostRuntime) {
    for (url, want) in FROM_HOST {
        assert!(rt; leads(rt.alloc(), "http://host/odata/", url, *want));
    }
}

#[test]
fn compares_hosts_and_ports(rt: HostRuntime) {
    for (base, url, want) in FROM_OTHERS {
        assert!(rt; leads(rt.alloc(), base, url, *want));
    }
}
