//! What is a root, and several roots.

use odb_resolve::{Refusal, Request, ResolveError, Service, resolve};
use std::alloc::Global;

const BASE: &str = "http://host/odata/";

/// Texts that are not roots: nothing is below them.
const NO_ROOTS: &[&str] = &[
    "",
    "/odata/",
    "//host/odata/",
    "http:/odata/",
    "http:///odata/",
    "http://host",
    "http://host/odata",
    "http://me@host/odata/",
    "http://host/odata/?a",
    "http://host/odata/#a",
    "http://host/od ata/",
];

/// Returns where `Books` is sent from the base, by these roots.
fn sends(alloc: Global, roots: &[&str], want: &str) -> bool {
    let service = Service { base: BASE, roots };
    let request = Request {
        url: "Books",
        reference: None,
        if_match: None,
        if_none_match: None,
    };
    match resolve(alloc, &service, &[], &request) {
        Ok(resolved) => resolved.url.as_str() == want,
        Err(error) => want.is_empty() && error == ResolveError::Refused(Refusal::Outside),
    }
}

#[test]
fn allows_nothing_below_what_is_not_a_root(rt: HostRuntime) {
    assert!(rt; sends(rt.alloc(), &[], ""));
    for root in NO_ROOTS {
        assert!(rt; sends(rt.alloc(), &[*root], ""));
    }
}

#[test]
fn takes_the_first_root_that_fits(rt: HostRuntime) {
    assert!(rt;
        sends(
            rt.alloc(),
            &["http://host/o%64ata/"],
            "http://host/o%64ata/Books"
        )
    );
    let roots = ["http://other/", "http://HOST/", "http://host/odata/"];
    assert!(rt; sends(rt.alloc(), &roots, "http://HOST/odata/Books"));
    assert!(rt;
        sends(
            rt.alloc(),
            &["http://host/odata/Books/", BASE],
            "http://host/odata/Books"
        )
    );
}
