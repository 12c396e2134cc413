//! Faults with where they are: of a line in memory, and of documents whose readers are slow or fail.

use odb_engine::{
    Ended, EngineFault, Faults, Names, Setup, Task, answer_documents, answer_in_memory, answer_line,
};
use odb_io::{Input, Output};
use odb_sched::Mode;
use odb_testing::PAIR;
use odb_testing::devices::{Pace, Slow, TURNS};
use std::alloc::Global;

/// Responses that are not those of `PAIR`.
const RESPONSES: &str = "{\"responses\":[\n\t{\"id\":\"3\",\"status\":200}]}";

const FAULT: &str = "served.json:2:2: fault F71 UnknownResponse /responses/0\n";

const NAMES: Names<'static> = Names {
    batch: "batch.json",
    second: "served.json",
};

const CHECK: Task = Task::Check { all: false };

/// Returns the setup by which each fault is printed with where it is.
fn locating() -> Setup {
    Setup {
        faults: Faults {
            numbered: false,
            located: true,
        },
        ..Setup::plain()
    }
}

/// Matches `RESPONSES` against `PAIR` by readers of these paces. Returns how that ended, how often each reader was
/// called, and whether this text was written.
fn matched(
    alloc: Global,
    paces: (Pace, Pace),
    text: &str,
) -> (Result<Ended, EngineFault>, (usize, usize), bool) {
    let mut batch = Input::new(Slow::new(PAIR.as_bytes(), paces.0));
    let mut responses = Input::new(Slow::new(RESPONSES.as_bytes(), paces.1));
    let mut output = Output::new(Vec::new(alloc));
    let task = Task::Match {
        mode: Mode::Continue,
        strict: None,
    };
    let ended = answer_documents(
        alloc,
        &mut batch,
        &mut responses,
        &mut output,
        NAMES,
        task,
        locating(),
    );
    let calls = (batch.into_inner().calls, responses.into_inner().calls);
    let written = output.into_inner();
    (ended, calls, written.as_slice() == text.as_bytes())
}

/// Whether nothing is written by readers of these paces, of which one fails.
fn is_cut(alloc: Global, paces: (Pace, Pace)) -> bool {
    let (ended, _, empty) = matched(alloc, paces, "");
    ended == Err(EngineFault::Read) && empty
}

/// Whether nothing is written if one of so many calls of either reader fails.
fn are_cut(alloc: Global, turns: [usize; 3], calls: (usize, usize)) -> bool {
    let steady = || Pace::steady(turns);
    (0..calls.0).all(|calls| is_cut(alloc, (Pace { turns, calls }, steady())))
        && (0..calls.1).all(|calls| is_cut(alloc, (steady(), Pace { turns, calls })))
}

#[test]
fn a_fault_of_a_second_document_is_in_that(rt: HostRuntime) {
    for turns in &TURNS {
        let steady = (Pace::steady(*turns), Pace::steady(*turns));
        let (ended, calls, whole) = matched(rt.alloc(), steady, FAULT);
        assert!(rt; ended == Ok(Ended::Refused) && whole);
        assert!(rt; are_cut(rt.alloc(), *turns, calls));
    }
}

#[test]
fn a_fault_is_in_the_document_of_a_reader(rt: HostRuntime) {
    let document = b"{\"requests\":[\n7]}";
    let mut input = Input::new(Slow::new(document, Pace::steady(TURNS[0])));
    let mut none = Input::new(Slow::new(b"", Pace::steady(TURNS[0])));
    let mut output = Output::new(Vec::new(rt.alloc()));
    let ended = answer_documents(
        rt.alloc(),
        &mut input,
        &mut none,
        &mut output,
        NAMES,
        CHECK,
        locating(),
    );
    assert!(rt; ended == Ok(Ended::Refused));
    assert!(rt;
        output.into_inner().as_slice()
            == b"batch.json:2:1: fault F10 NotRequestObject /requests/0\n".as_slice()
    );
}

/// Returns whether the check of line 5 of a log writes this text of a fault.
fn is_reported(alloc: Global, line: &[u8], text: &str) -> bool {
    match answer_line(alloc, "log", 5, line, CHECK, locating()) {
        Ok(answer) => answer.ended == Ended::Refused && answer.text.as_slice() == text.as_bytes(),
        Err(_) => false,
    }
}

#[test]
fn a_fault_of_a_line_has_its_number(rt: HostRuntime) {
    assert!(rt; is_reported(rt.alloc(), b" 7", "log:5:2: fault F03 NotObject batch\n"));
}

/// Returns whether a match of documents in memory writes this text of a fault.
fn is_written(alloc: Global, batch: &str, text: &str) -> bool {
    let task = Task::Match {
        mode: Mode::Continue,
        strict: None,
    };
    let (batch, responses) = (batch.as_bytes(), RESPONSES.as_bytes());
    match answer_in_memory(alloc, batch, responses, NAMES, task, locating()) {
        Ok(answer) => answer.ended == Ended::Refused && answer.text.as_slice() == text.as_bytes(),
        Err(_) => false,
    }
}

#[test]
fn a_fault_of_documents_in_memory_is_in_one_of_them(rt: HostRuntime) {
    let not_json = "batch.json:1:2: fault F02 NotJson batch\n";
    assert!(rt; is_written(rt.alloc(), PAIR, FAULT));
    assert!(rt; is_written(rt.alloc(), "{", not_json));
}
