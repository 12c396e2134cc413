//! What engines keep in memory of the documents that they have read: nothing if they are to drop
//! them, and all if they are to leave them. No clause can say so. Linux counts the pages of a process.

use super::{EXAMPLES, Example, called};
use odb_engine::{Disposal, Ended, Setup, answer_line};
use odb_io::{Input, Output};
use odb_testing::PAIR;
use std::alloc::Global;
use std::fs;

/// How often each engine is called, so that what it leaves adds up.
const CALLS: u32 = 1_000;

/// The pages that so many calls may take for other reasons: half a megabyte.
const SPARE_PAGES: u64 = 128;

/// As much as an engine takes for the bytes of a document.
const ROOM_BYTES: usize = 262_144;

/// How many pages this process has.
fn pages(rt: &HostRuntime) -> Option<u64> {
    let text = fs::read_to_string(rt, "/proc/self/statm").ok()?;
    text.split(' ').next()?.parse::<u64>().ok()
}

/// Whether memory is taken for the bytes of documents and freed, so many times.
fn is_taken_and_freed(alloc: Global) -> bool {
    let mut is_taken = true;
    for _ in 0..CALLS {
        is_taken &= Vec::<u8>::with_capacity(alloc, ROOM_BYTES).is_ok();
    }
    is_taken
}

/// Whether memory that was freed is taken again; `rt try` keeps it, and so shows nothing here.
fn reuses_memory(rt: &HostRuntime) -> Option<bool> {
    let before = pages(rt)?;
    let is_taken = is_taken_and_freed(rt.alloc());
    Some(is_taken && pages(rt)?.saturating_sub(before) <= SPARE_PAGES)
}

/// How the documents of an example reach its engine: by readers, or in a line of a log.
#[derive(Clone, Copy)]
enum Way {
    Readers,
    Line,
}

/// Answers the line with the documents of an example, and returns whether that is done.
fn is_answered(alloc: Global, example: Example, disposal: Disposal) -> bool {
    let (task, document, _text) = example;
    let line = if task.takes_second() {
        format!(in alloc; "[{PAIR},{document}]")
    } else {
        String::from_str(alloc, PAIR)
    };
    let setup = Setup {
        disposal,
        ..Setup::plain()
    };
    match line {
        Ok(line) => match answer_line(alloc, "", 1, line.as_bytes(), task, setup) {
            Ok(answer) => answer.ended == Ended::Done,
            Err(_) => false,
        },
        Err(_) => false,
    }
}

/// Calls the engine of an example, and returns whether it ended as it should.
fn is_done(alloc: Global, example: Example, way: Way, disposal: Disposal) -> bool {
    if let Way::Line = way {
        return is_answered(alloc, example, disposal);
    }
    let (task, document, _text) = example;
    called(
        alloc,
        (task, disposal),
        &mut Input::new(PAIR.as_bytes()),
        &mut Input::new(document.as_bytes()),
        &mut Output::new(Vec::new(alloc)),
    )
    .is_ok()
}

/// Calls an engine often, and returns whether each call ended as it should.
fn are_done(alloc: Global, example: Example, way: Way, disposal: Disposal) -> bool {
    let mut are_done = true;
    for _ in 0..CALLS {
        are_done &= is_done(alloc, example, way, disposal);
    }
    are_done
}

/// How many pages many calls of an engine take for good, if each ended as it should.
fn pages_taken(rt: &HostRuntime, example: Example, way: Way, disposal: Disposal) -> Option<u64> {
    let before = pages(rt)?;
    if !are_done(rt.alloc(), example, way, disposal) {
        return None;
    }
    Some(pages(rt)?.saturating_sub(before))
}

/// Whether an engine drops what it has read, and leaves it if it is to.
fn obeys(rt: &HostRuntime, example: Example, way: Way) -> Option<bool> {
    let dropped = pages_taken(rt, example, way, Disposal::Drop)?;
    let left = pages_taken(rt, example, way, Disposal::Leak)?;
    Some(dropped <= SPARE_PAGES && SPARE_PAGES < left)
}

#[test]
fn drops_or_leaves_what_it_has_read(rt: HostRuntime) {
    if reuses_memory(&rt) == Some(false) {
        return;
    }
    for example in &EXAMPLES {
        assert!(rt; obeys(&rt, *example, Way::Readers) == Some(true));
    }
}

#[test]
fn drops_or_leaves_what_it_has_read_of_a_line(rt: HostRuntime) {
    if reuses_memory(&rt) == Some(false) {
        return;
    }
    for example in &EXAMPLES {
        assert!(rt; obeys(&rt, *example, Way::Line) == Some(true));
    }
}
