//! That the engines accept what they write: a response as one to its batch, and a rest as a batch.

ghost use Rattle.std.specs.Prelude.{◌≡◌, ℕ, Bool, false, List, [], Option, Some};
ghost use Rattle.odb_sched.specs.declared.order.Order.{Order};
ghost use Rattle.odb_sched.specs.declared.policy.Mode.{Mode};
ghost use Rattle.odb_sched.specs.declared.policy.Policy.{Policy};
ghost use Rattle.odb_sched.specs.run.Choosing.{AllowsOrder};
ghost use Rattle.odb_reply.specs.declared.strictness.Strictness.{Strictness};
ghost use Rattle.odb_engine.specs.Cascade.{Accepts, Answers};
ghost use Rattle.odb_engine.specs.Contents.Given.{InMemory};
ghost use Rattle.odb_engine.specs.ReadAgain.{IsReadAgain};
ghost use Rattle.odb_engine.specs.Replays.{Replays};
ghost use Rattle.odb_engine.specs.Runs.{Runs};
ghost use Rattle.odb_engine.specs.Tasks.{OfDocuments};
ghost use Rattle.odb_engine.specs.Written.{Allows, IsDone, MayBeDocument};
ghost use Rattle.odb_engine.specs.declared.ending.Ended.TheVariants.{Done};
ghost use Rattle.odb_engine.specs.declared.form.Form.{Form};
ghost use Rattle.odb_engine.specs.declared.tasks.task.Task.TheVariants as tasks;

use super::read_again;

/// What a replay without a trace, or a run by recorded events, writes as its result is accepted by a match of the
/// same batch, in both modes, and however strict: it ends with a result, by documents of readers (`replay`, `run`) and in
/// memory (`replayed`, `ran`). So is each text that is read as responses that fit the batch (`fits`); but if its statuses
/// are those of a run in which groups were sent as one, it may be that only a match by units accepts it as strict.
pub fn every_match()
    ensures fits { (by : Strictness) (strict : Option Strictness) (mode : Mode) (bytes text : List ℕ)
        → Allows by strict → Accepts bytes (λ batch. IsReadAgain by batch text) → MayBeDocument text
        → IsDone (tasks.Match mode strict) bytes text }
    ensures replay { (order : Order) (policy : Policy) (form : Form) (strict : Option Strictness)
        (mode : Mode) (bytes outcomes text : List ℕ)
        → Answers (Replays (AllowsOrder order) policy false (Some outcomes)) bytes form Done text
        → MayBeDocument text → IsDone (tasks.Match mode strict) bytes text }
    ensures run { (policy : Policy) (form : Form) (strict : Option Strictness) (mode : Mode)
        (bytes events text : List ℕ)
        → Answers (Runs policy (Some events)) bytes form Done text
        → MayBeDocument text → IsDone (tasks.Match mode strict) bytes text }
    ensures replayed { (order : Order) (policy : Policy) (form : Form) (strict : Option Strictness)
        (mode : Mode) (bytes outcomes text : List ℕ)
        → OfDocuments (tasks.Replay policy order false) (InMemory outcomes) bytes form Done text
        → MayBeDocument text → IsDone (tasks.Match mode strict) bytes text }
    ensures ran { (policy : Policy) (form : Form) (strict : Option Strictness) (mode : Mode)
        (bytes events text : List ℕ)
        → OfDocuments (tasks.Run policy) (InMemory events) bytes form Done text
        → MayBeDocument text → IsDone (tasks.Match mode strict) bytes text }
{
    read_again();
    odb_doc::laws::every_value();
    odb_doc::laws::one_record();
    odb_doc::laws::one_history();
    odb_reply::laws::one_match();
    odb_reply::laws::every_completion();
    odb_sched::laws::every_possible_live();
}

/// What `rest` writes of a batch and its responses is a batch that the check accepts: it ends with a result, with all
/// faults or the first.
pub fn every_rest()
    ensures { (mode : Mode) (form : Form) (all : Bool) (bytes responses text : List ℕ)
        → OfDocuments (tasks.Rest mode) (InMemory responses) bytes form Done text
        → MayBeDocument text → IsDone (tasks.Check all) text [] }
{
    odb_send::laws::every_rest();
    odb_send::laws::every_text();
}
