//! Devices that are slow or fail: an engine writes its whole text, or reports which of them failed
//! and has written nothing, or a prefix of its text where the output failed.

use super::{EXAMPLES, Example, called};
use odb_engine::{Disposal, Ended, EngineFault};
use odb_io::{Input, Output};
use odb_testing::PAIR;
use odb_testing::devices::{Narrow, Pace, Slow, TURNS};
use std::alloc::Global;

/// The place of the output among the devices, after the batch and the second document.
const OUTPUT: usize = 2;

/// How an engine ended, and what it did to its devices.
#[derive(Clone, Copy)]
struct Calls {
    ended: Result<Ended, EngineFault>,
    /// How many bytes were written.
    written: usize,
    /// Whether they are a prefix of the text of the example.
    is_prefix: bool,
    /// How often each device was called.
    counts: [usize; 3],
    /// Whether the inputs counted as many reads as their readers did.
    are_counted: bool,
}

impl Calls {
    fn are_whole(&self, text: &str) -> bool {
        self.ended == Ok(Ended::Done)
            && self.is_prefix
            && self.written == text.len()
            && self.are_counted
    }

    /// Whether an input failed and nothing was written.
    fn are_cut_in_reading(&self) -> bool {
        self.ended == Err(EngineFault::Read) && self.written == 0 && self.are_counted
    }

    /// Whether the output failed and has received a prefix of the text.
    fn are_cut_in_writing(&self, text: &str) -> bool {
        self.ended == Err(EngineFault::Write) && self.is_prefix && self.written < text.len()
    }
}

/// Calls an engine whose devices work at these paces.
fn calls_of(alloc: Global, example: Example, paces: [Pace; 3], disposal: Disposal) -> Calls {
    let (task, document, text) = example;
    let mut batch = Input::new(Slow::new(PAIR.as_bytes(), paces[0]));
    let mut second = Input::new(Slow::new(document.as_bytes(), paces[1]));
    let mut output = Output::new(Narrow::new(alloc, paces[OUTPUT]));
    let ended = called(
        alloc,
        (task, disposal),
        &mut batch,
        &mut second,
        &mut output,
    );
    let reads = [batch.reads() as usize, second.reads() as usize];
    let counts = [batch.into_inner().calls, second.into_inner().calls];
    let Narrow { bytes, calls, .. } = output.into_inner();
    Calls {
        ended,
        written: bytes.len(),
        is_prefix: text.as_bytes().starts_with(&bytes),
        counts: [counts[0], counts[1], calls],
        are_counted: reads == counts,
    }
}

/// How many calls it takes to move so many bytes at these turns.
fn calls_for(bytes: usize, turns: [usize; 3]) -> usize {
    let mut left = bytes;
    for calls in 0..bytes {
        if left == 0 {
            return calls;
        }
        left = left.saturating_sub(turns[calls % 3]);
    }
    bytes
}

/// How often the reader of a document is called: also for its end, and of no document not at all.
fn reads_of(document: &str, turns: [usize; 3]) -> usize {
    if document.is_empty() {
        return 0;
    }
    calls_for(document.len(), turns).saturating_add(1)
}

/// How often each device is called at these turns where none fails, if the engine writes its text.
fn counts_of(
    alloc: Global,
    example: Example,
    turns: [usize; 3],
    disposal: Disposal,
) -> Option<[usize; 3]> {
    let (_task, document, text) = example;
    let calls = calls_of(alloc, example, [Pace::steady(turns); 3], disposal);
    let [batch, second, output] = calls.counts;
    let are_read = batch == reads_of(PAIR, turns) && second == reads_of(document, turns);
    let are_right = are_read && (turns != [1, 1, 1] || output == text.len());
    (are_right && calls.are_whole(text)).then_some(calls.counts)
}

/// Whether an engine ends as it may where this call of a device fails.
fn may_fail(
    alloc: Global,
    example: Example,
    turns: [usize; 3],
    (device, calls): (usize, usize),
) -> bool {
    let mut paces = [Pace::steady(turns); 3];
    if let Some(pace) = paces.get_mut(device) {
        pace.calls = calls;
    }
    let calls = calls_of(alloc, example, paces, Disposal::Drop);
    if device == OUTPUT {
        calls.are_cut_in_writing(example.2)
    } else {
        calls.are_cut_in_reading()
    }
}

/// Whether an engine ends as it may at these turns, and where each call of each device fails.
fn ends_as_it_may(alloc: Global, example: Example, turns: [usize; 3]) -> bool {
    let Some(counts) = counts_of(alloc, example, turns, Disposal::Drop) else {
        return false;
    };
    for (device, count) in counts.iter().enumerate() {
        for calls in 0..*count {
            if !may_fail(alloc, example, turns, (device, calls)) {
                return false;
            }
        }
    }
    counts_of(alloc, example, turns, Disposal::Leak) == Some(counts)
}

#[test]
fn each_call_of_a_device_may_fail(rt: HostRuntime) {
    for example in &EXAMPLES {
        for turns in &TURNS {
            assert!(rt; ends_as_it_may(rt.alloc(), *example, *turns));
        }
    }
}
