//! A command over a document.

use odb_engine::check_batch;
use odb_io::{Input, Output};
use odb_testing::fail::Fail;
use std::alloc::Global;

/// Returns what the check of a document writes: the line of its counts, or of its first fault.
fn check_line(alloc: Global, document: &[u8]) -> Result<Vec<u8>, Fail> {
    let mut output = Output::new(Vec::new(alloc));
    check_batch(alloc, &mut Input::new(document), &mut output)?;
    Ok(output.into_inner())
}

/// Whether the check of a document writes this.
fn is_line(alloc: Global, document: &[u8], line: &[u8]) -> bool {
    match check_line(alloc, document) {
        Ok(found) => found.as_slice() == line,
        Err(_) => false,
    }
}

#[test]
fn checks_a_document(rt: HostRuntime) {
    assert!(rt;
        is_line(
            rt.alloc(),
            b"{\"requests\":[]}",
            b"ok 0 requests 0 groups\n"
        )
    );
    assert!(rt; is_line(rt.alloc(), b"", b"fault F02 NotJson batch\n"));
}
