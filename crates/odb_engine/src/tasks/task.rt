//! The commands of the program as one enum, and what each writes.

ghost use Rattle.std.specs.Prelude.{◌≡◌, [], false, Err, IsTrue};
ghost use Rattle.odb_engine.specs.Contents.Given.{InMemory};
ghost use Rattle.odb_engine.specs.declared.form.Form.TheVariants.{Lines};
ghost use Rattle.odb_engine.specs.Inputs.{IsFresh, ReadsFew, SomeDocument};
ghost use Rattle.odb_engine.specs.Engines.{Ends};
ghost use Rattle.odb_engine.specs.Tasks.{OfDocuments, OfTask, takes_second};

use crate::ending::{Ended, EngineFault};
use crate::halt::Halt;
use crate::setup::Setup;
use crate::tasks::canon::canonical_text;
use crate::tasks::check::counts_text;
use crate::tasks::command::Command;
use crate::tasks::documents::answer_by_default;
use crate::tasks::match_responses::matched;
use crate::tasks::plan::{drawn_text, planned_by};
use crate::tasks::replay::replayed;
use crate::tasks::rest::left_over;
use crate::tasks::run::ran;
use crate::tasks::source::Slice;
use odb_check::Plan;
use odb_doc::{Batch, Place};
use odb_io::{Input, Output};
use odb_reply::Strictness;
use odb_sched::{Mode, Order, Policy};
use serde_json::Value;
use std::alloc::Global;
use std::io::{Read, Write};

/// What is done with a batch, and with a second document where one is named: a command, and its options.
#[derive(Clone, Copy, Debug)]
pub enum Task {
    /// Check it, and count its requests and groups. If `all` is set, all faults of a batch document that is refused are
    /// written, as [`crate::faults_in`] lists them.
    Check {
        all: bool,
    },
    /// Write its units, levels and dependencies. If `full` is set, write them as a line of JSON in each form, with what is
    /// to be sent of each request, and where its body is in the document (OData JSON Format 4.01, section 19.1).
    Plan {
        full: bool,
    },
    /// Draw its plan, in the language DOT of Graphviz.
    Draw,
    /// Write its canonical text.
    Canon,
    /// Match the responses of a service against it. In `Mode::Stop` the service stops at its first error, and may
    /// leave out responses after one. If `strict` is given, some such finished run has to answer their statuses, too.
    Match {
        mode: Mode,
        strict: Option<Strictness>,
    },
    /// Write what may be sent again by the responses of a service, as a batch of its own (OData JSON Format 4.01, sections
    /// 19.1 and 19.4), with each body as the bytes of the document. The mode is that of `Match`.
    Rest {
        mode: Mode,
    },
    /// Write the response of a run with recorded outcomes, in this order; after the trace of the steps if
    /// `traced` is set.
    Replay {
        policy: Policy,
        order: Order,
        traced: bool,
    },
    /// Write the response of a run with recorded events.
    Run {
        policy: Policy,
    },
}

impl Task {
    /// Returns whether it takes a second document.
    pub fn takes_second(self) -> bool
        ensures { result ≡ takes_second self }
    {
        self.second_place().is_some()
    }
}

impl Command for Task {
    ghost use Rattle.odb_engine.specs.Accepted.{lists_accepted, lists_alone, written_alike};
    ghost use Rattle.odb_engine.specs.Tasks as tasks;

    ghost writes = { tasks.OfValues };

    ghost lists_all = { tasks.lists_all };

    fn lists_all(&self) -> bool {
        match *self {
            Task::Check { all } => all,
            _ => false,
        }
    }

    ghost takes_bytes = { tasks.takes_bytes };

    fn takes_bytes(&self) -> bool {
        match *self {
            Task::Plan { full } => full,
            Task::Rest { .. } => true,
            _ => false,
        }
    }

    ghost second_place = { tasks.second_place };

    fn second_place(&self) -> Option<Place> {
        match *self {
            Task::Check { .. } | Task::Plan { .. } | Task::Draw | Task::Canon => None,
            Task::Match { .. } | Task::Rest { .. } => Some(Place::Responses),
            Task::Replay { .. } => Some(Place::Outcomes),
            Task::Run { .. } => Some(Place::Events),
        }
    }

    fn text(
        &mut self,
        alloc: Global,
        document: &[u8],
        batch: &Batch<'_>,
        plan: &Plan<'_>,
        second: Value,
        setup: Setup,
    ) -> Result<String, Halt> {
        match *self {
            Task::Check { .. } => counts_text(alloc, plan, setup.form),
            Task::Plan { full } => planned_by(alloc, document, plan, full, setup.form),
            Task::Draw => drawn_text(alloc, plan),
            Task::Canon => canonical_text(alloc, batch),
            Task::Match { mode, strict } => matched(alloc, plan, second, mode, strict, setup),
            Task::Rest { mode } => left_over(alloc, document, plan, second, mode, setup),
            Task::Replay {
                policy,
                order,
                traced,
            } => replayed(alloc, plan, second, order, policy, traced, setup.disposal),
            Task::Run { policy } => ran(alloc, plan, second, policy, setup.disposal),
        }
    }

    ghost alone = { lists_alone };

    ghost accepts = { lists_accepted };

    ghost alike = { written_alike };
}

/// Does a task on the document of a reader alone, without a setup.
pub(crate) fn answer_one<R: Read, W: Write>(
    alloc: Global,
    input: &mut Input<R>,
    output: &mut Output<W>,
    task: Task,
) -> Result<Ended, EngineFault>
    requires input { IsFresh input.old }
    requires output { output.old.failed ≡ false }
    ensures ends { SomeDocument (R.remaining input.old.reader) (λ bytes. Ends W.contents
        (OfDocuments task (InMemory []) bytes Lines) (IsTrue input.new.failed)
        output.old output.new result) }
    ensures memory { result ≡ Err EngineFault.OutOfMemory → output.new ≡ output.old }
    ensures reads { ReadsFew R.remaining input.old input.new }
{
    let mut none = Slice { bytes: &[] };
    answer_by_default(alloc, input, &mut none, output, task)
}
