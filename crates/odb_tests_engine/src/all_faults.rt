//! All faults of a batch whose reader is slow or fails.

use odb_engine::{Ended, EngineFault, Form, Names, Setup, Task, answer_documents};
use odb_io::{Input, Output};
use odb_testing::PAIR;
use odb_testing::devices::{Pace, Slow, TURNS};
use std::alloc::Global;

/// Two requests with two faults each.
const FAULTY: &str =
    r#"{"requests":[{"id":"1","method":"get","url":"A","x":1,"headers":3},{"id":"2"}]}"#;

/// The names of documents whose faults are printed without.
const NAMES: Names<'static> = Names {
    batch: "",
    second: "",
};

/// Documents, and how their check ends and what it writes in a form.
const ROWS: &'static [(&'static str, Form, Ended, &'static str)] = &[
    (PAIR, Form::Lines, Ended::Done, "ok 2 requests 0 groups\n"),
    (
        PAIR,
        Form::Json,
        Ended::Done,
        "{\"groups\":0,\"requests\":2}\n",
    ),
    (
        FAULTY,
        Form::Lines,
        Ended::Refused,
        "fault F12 UnknownRequestMember /requests/0\nfault F18 BadHeaders /requests/0\n\
        fault F14 BadMethod /requests/1\nfault F15 BadUrl /requests/1\n",
    ),
    (
        FAULTY,
        Form::Json,
        Ended::Refused,
        "{\"faults\":[{\"code\":\"F12\",\"name\":\"UnknownRequestMember\",\"place\":\"/requests/0\"},\
        {\"code\":\"F18\",\"name\":\"BadHeaders\",\"place\":\"/requests/0\"},\
        {\"code\":\"F14\",\"name\":\"BadMethod\",\"place\":\"/requests/1\"},\
        {\"code\":\"F15\",\"name\":\"BadUrl\",\"place\":\"/requests/1\"}]}\n",
    ),
    (
        "{",
        Form::Lines,
        Ended::Refused,
        "fault F02 NotJson batch\n",
    ),
];

/// Checks a batch by a reader of this pace. Returns how that ended, how often the reader was called, and whether this
/// text was written.
fn checked(
    alloc: Global,
    batch: &str,
    form: Form,
    pace: Pace,
    text: &str,
) -> (Result<Ended, EngineFault>, usize, bool) {
    let mut input = Input::new(Slow::new(batch.as_bytes(), pace));
    let mut output = Output::new(Vec::new(alloc));
    let setup = Setup {
        form,
        ..Setup::plain()
    };
    let mut none = Input::new(b"".as_slice());
    let (names, check) = (NAMES, Task::Check { all: true });
    let ended = answer_documents(
        alloc,
        &mut input,
        &mut none,
        &mut output,
        names,
        check,
        setup,
    );
    let written = output.into_inner();
    (
        ended,
        input.into_inner().calls,
        written.as_slice() == text.as_bytes(),
    )
}

/// Whether nothing is written if one of the first calls of the reader fails.
fn is_cut(alloc: Global, batch: &str, turns: [usize; 3], calls: usize) -> bool {
    for call in 0..calls {
        let pace = Pace { turns, calls: call };
        let (ended, _, empty) = checked(alloc, batch, Form::Lines, pace, "");
        if ended != Err(EngineFault::Read) || !empty {
            return false;
        }
    }
    true
}

#[test]
fn all_faults_are_written_or_none(rt: HostRuntime) {
    for (batch, form, end, text) in ROWS {
        for turns in &TURNS {
            let pace = Pace::steady(*turns);
            let (ended, calls, whole) = checked(rt.alloc(), batch, *form, pace, text);
            assert!(rt; ended == Ok(*end) && whole);
            assert!(rt; is_cut(rt.alloc(), batch, *turns, calls));
        }
    }
}
