//! The engines over readers and writers of a library: each with ample memory, slow ones, and some
//! that fail. What the engines print is shown on the built program, in tests/cases/.

ghost use Rattle.std.specs.Prelude.{◌≡◌, false, IfOk};
ghost use Rattle.odb_engine.specs.Contents.Given.{ByReader};
ghost use Rattle.odb_engine.specs.Engines.{WritesText};
ghost use Rattle.odb_engine.specs.Inputs.{IsFresh, SomeDocument};
ghost use Rattle.odb_engine.specs.declared.form.Form.TheVariants.{Lines};
ghost use Rattle.odb_engine.specs.Tasks.{OfDocuments};

mod disposal;
mod failures;

use odb_check::Seed;
use odb_engine::{
    Disposal, Ended, EngineFault, Names, Setup, Task, answer_documents, canon_batch, check_batch,
    match_batch, plan_batch, replay_batch, run_batch,
};
use odb_io::{Input, Output};
use odb_reply::Strictness;
use odb_sched::{Mode, Order, Policy};
use std::alloc::Global;
use std::io::{Read, Write};

/// A task, its second document (empty where it takes none), and what it writes of `PAIR`.
pub type Example = (Task, &'static str, &'static str);

/// Outcomes of both requests.
pub const OUTCOMES: &str =
    r#"{"outcomes":[{"id":"2","status":204},{"id":"1","status":200,"body":["€"]}]}"#;

/// Events that finish a run.
pub const EVENTS: &str =
    r#"{"events":[{"start":"1"},{"report":"1","status":404,"headers":{"ETag":"€"}}]}"#;

/// A policy that bars no start by its width.
pub const FREE: Policy = Policy {
    mode: Mode::Continue,
    width: 10_000,
};

/// The names of documents whose faults are printed without.
const NAMES: Names<'static> = Names {
    batch: "",
    second: "",
};

pub const EXAMPLES: [Example; 13] = [
    (Task::Check { all: false }, "", "ok 2 requests 0 groups\n"),
    (Task::Check { all: true }, "", "ok 2 requests 0 groups\n"),
    (
        Task::Plan { full: false },
        "",
        "0 1 level 0 group * needs *\n1 2 level 1 group * needs 1\n",
    ),
    (
        Task::Plan { full: true },
        "",
        "{\"requests\":[\
        {\"headers\":{},\"id\":\"1\",\"level\":0,\"method\":\"GET\",\"needs\":[],\"rest\":\"A\",\"url\":\"A\"},\
        {\"body\":{\"length\":22,\"offset\":118},\"headers\":{},\"id\":\"2\",\"level\":1,\"method\":\"PUT\",\
        \"needs\":[\"1\"],\"rest\":\"B\",\"url\":\"B\"}]}\n",
    ),
    (
        Task::Draw,
        "",
        r#"digraph plan {
  compound=true; newrank=true; node [shape=box]
  0 [label="1\nget A"]
  { rank=same; node [shape=plaintext]; "level 0"; 0 }
  1 [label="2\nput B"]
  { rank=same; node [shape=plaintext]; "level 1"; 1 }
  0 -> 1
  "level 0" -> "level 1" [style=invis]
}
"#,
    ),
    (
        Task::Canon,
        "",
        "{\"requests\":[{\"id\":\"1\",\"method\":\"get\",\"url\":\"A\"},\
         {\"body\":{\"a\":[1],\"b\":\"€\"},\"dependsOn\":[\"1\"],\"id\":\"2\",\"method\":\"put\",\"url\":\"B\"}]}\n",
    ),
    (
        Task::Replay {
            policy: FREE,
            order: Order::Wide,
            traced: true,
        },
        OUTCOMES,
        "start 1\nreport 1 200\nstart 2\nreport 2 204\n\
         {\"responses\":[{\"body\":[\"€\"],\"id\":\"1\",\"status\":200},{\"id\":\"2\",\"status\":204}]}\n",
    ),
    (
        Task::Match {
            mode: Mode::Continue,
            strict: None,
        },
        r#"{"responses":[{"id":"2","status":204},{"id":"1","status":200,"body":["€"]}]}"#,
        "ok 2 responses\n1 200\n2 204\n",
    ),
    (
        Task::Match {
            mode: Mode::Stop,
            strict: None,
        },
        r#"{"responses":[{"id":"1","status":404}]}"#,
        "ok 2 responses\n1 404\n2 424\n",
    ),
    (
        Task::Match {
            mode: Mode::Continue,
            strict: Some(Strictness::Requests),
        },
        r#"{"responses":[{"id":"1","status":404},{"id":"2","status":424}]}"#,
        "ok 2 responses\n1 404\n2 424\n",
    ),
    (
        Task::Match {
            mode: Mode::Continue,
            strict: Some(Strictness::Units),
        },
        r#"{"responses":[{"id":"1","status":404},{"id":"2","status":424}]}"#,
        "ok 2 responses\n1 404\n2 424\n",
    ),
    (
        Task::Rest {
            mode: Mode::Continue,
        },
        r#"{"responses":[{"id":"1","status":200},{"id":"2","status":503}]}"#,
        "{\"requests\":[{\"body\":{\"b\":\"\\u20ac\",\"a\":[1]},\"id\":\"2\",\"method\":\"put\",\"url\":\"B\"}]}\n",
    ),
    (
        Task::Run { policy: FREE },
        EVENTS,
        "{\"responses\":[{\"headers\":{\"etag\":\"€\"},\"id\":\"1\",\"status\":404},\
         {\"id\":\"2\",\"status\":424}]}\n",
    ),
];

/// Does a task without a setup, by the function that is named after it where that takes every option of the task; the
/// second input is read by some.
pub fn called_plainly<R: Read, S: Read, W: Write>(
    alloc: Global,
    task: Task,
    batch: &mut Input<R>,
    second: &mut Input<S>,
    output: &mut Output<W>,
) -> Result<Ended, EngineFault>
    requires batch { IsFresh batch.old }
    requires second { IsFresh second.old }
    requires output { output.old.failed ≡ false }
    ensures { IfOk result (λ ended. SomeDocument (R.remaining batch.old.reader) (λ bytes.
        WritesText (W.contents output.old.writer) (W.contents output.new.writer)
        (OfDocuments task (ByReader (S.remaining second.old.reader)) bytes Lines ended))) }
{
    match task {
        Task::Canon => canon_batch(alloc, batch, output),
        Task::Run { policy } => run_batch(alloc, batch, second, output, policy),
        _ => answer_documents(alloc, batch, second, output, NAMES, task, Setup::plain()),
    }
}

/// Does a task: by its own function if what it reads is dropped, else with a seed.
fn called<R: Read, S: Read, W: Write>(
    alloc: Global,
    how: (Task, Disposal),
    batch: &mut Input<R>,
    second: &mut Input<S>,
    output: &mut Output<W>,
) -> Result<Ended, EngineFault>
    requires batch { IsFresh batch.old }
    requires second { IsFresh second.old }
    requires output { output.old.failed ≡ false }
{
    let (task, disposal) = how;
    if disposal == Disposal::Drop {
        return match task {
            Task::Check { all: false } => check_batch(alloc, batch, output),
            Task::Plan { full: false } => plan_batch(alloc, batch, output),
            Task::Replay {
                policy,
                mut order,
                traced,
            } => replay_batch(alloc, batch, second, output, policy, &mut order, traced),
            Task::Match {
                mode: Mode::Continue,
                strict: None,
            } => match_batch(alloc, batch, second, output),
            _ => called_plainly(alloc, task, batch, second, output),
        };
    }
    let setup = Setup {
        seed: Seed::new(7),
        disposal,
        ..Setup::plain()
    };
    answer_documents(alloc, batch, second, output, NAMES, task, setup)
}
