//! Long bodies: how much is written at once.

use super::{Ending, USUAL, replies};
use std::alloc::{AllocError, Global};

/// A JSON string of as many letters.
fn long_body(alloc: Global, letters: usize) -> Result<String, AllocError> {
    let letters = "x".repeat(alloc, letters)?;
    format!(in alloc; "\"{letters}\"")
}

/// The text of the response to the usual batch after endings with these bodies.
fn long_text(alloc: Global, first: &str, second: &str) -> Result<String, AllocError> {
    format!(in alloc;
        "{{\"responses\":[{{\"body\":{first},\"id\":\"0\",\"status\":200}},{{\"atomicityGroup\":\"group1\",\"body\":{second},\"id\":\"1\",\"status\":200}},{{\"atomicityGroup\":\"group1\",\"body\":{first},\"id\":\"2\",\"status\":201}},{{\"id\":\"3\",\"status\":200}}]}}"
    )
}

/// Endings of the usual requests with these bodies.
fn endings_with<'a>(first: &'a str, second: &'a str) -> [Ending<'a>; 4] {
    [
        (200, &[], first),
        (200, &[], second),
        (201, &[], first),
        (200, &[], ""),
    ]
}

/// Whether responses with these bodies are written, none of it in a write that is longer than this.
fn gives_bodies(
    alloc: Global,
    first: &str,
    second: &str,
    longest: usize,
) -> Result<bool, AllocError> {
    let want = long_text(alloc, first, second)?;
    let endings = endings_with(first, second);
    Ok(replies(alloc, USUAL, &endings, Ok(&want), longest))
}

/// Whether that holds of bodies with so many letters.
fn gives_letters(alloc: Global, row: &(usize, usize, usize)) -> Result<bool, AllocError> {
    let (first, second, longest) = *row;
    let first = long_body(alloc, first)?;
    let second = long_body(alloc, second)?;
    gives_bodies(alloc, &first, &second, longest)
}

/// How many letters two bodies have, and how many bytes the longest write may have.
const LONG: &[(usize, usize, usize)] = &[
    (70_000, 10, 136_000),
    (10, 70_000, 136_000),
    (40_000, 40_000, 106_000),
    (65_534, 65_533, 132_000),
    (1_100_000, 1, 1_166_000),
];

#[test]
fn long_bodies_are_written_whole(rt: HostRuntime) {
    for row in LONG {
        assert!(rt; gives_letters(rt.alloc(), row) == Ok(true));
    }
}
