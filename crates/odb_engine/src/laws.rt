//! What the contracts of the engines determine: for the same bytes of the documents, one text in each
//! form; and that a response is read again.
//!
//! The laws are clauses of functions that change nothing. They speak of the very relations that the
//! clauses `ends` of the engines cite.

ghost use Rattle.std.specs.Prelude.{◌≡◌, ◌↔◌, ℕ, Bool, true, false, List, [], Some, IfSome, slice_get};
ghost use Rattle.odb_sched.specs.run.Choosing.{AllowsOrder};
ghost use Rattle.odb_sched.specs.declared.order.Order.{Order};
ghost use Rattle.odb_sched.specs.declared.policy.Policy.{Policy};
ghost use Rattle.serde_json.specs.Data.{Data};
ghost use Rattle.odb_doc.specs.Documents.{IsDocument, IsJson};
ghost use Rattle.odb_doc.specs.Refusals.{Printed};
ghost use Rattle.odb_spans.specs.Positions.{pair};
ghost use Rattle.odb_engine.specs.AllFaults.{AreFaultsIn};
ghost use Rattle.odb_engine.specs.Cascade.{Accepts, Answers, IsLeast, IsOne};
ghost use Rattle.odb_engine.specs.FirstFault.{IsFirstFault, PrintsFirst, Rule};
ghost use Rattle.odb_engine.specs.declared.ending.Ended.{Ended};
ghost use Rattle.odb_engine.specs.declared.form.Form.{Form};
ghost use Rattle.odb_engine.specs.Contents.Given.{ByReader, InMemory};
ghost use Rattle.odb_engine.specs.Inputs.{IsDocumentOf};
ghost use Rattle.odb_engine.specs.declared.tasks.task.Task.{Task};
ghost use Rattle.odb_engine.specs.Tasks.{IsLineOf, OfDocuments, OfWholeLine, WritesParts, takes_bytes, takes_second};
ghost use Rattle.odb_engine.specs.Located.{LocatesDocuments};
ghost use Rattle.odb_engine.specs.lines.Numbers.{OfNumbered};
ghost use Rattle.odb_engine.specs.declared.ending.Ended.TheVariants.{Done};
ghost use Rattle.odb_reply.specs.declared.strictness.Strictness.TheVariants.{Requests};
ghost use Rattle.odb_engine.specs.ReadAgain.{IsReadAgain};
ghost use Rattle.odb_engine.specs.Replayed.{RunsAgain};
ghost use Rattle.odb_engine.specs.Replays.{Replays};
ghost use Rattle.odb_engine.specs.Runs.{Runs};

pub mod written;

/// The first fault of a batch document, in one order over its rules F01 to F46: by phase, then by position, then by
/// number (OData JSON Format 4.01, sections 19.1 and 19.2).
///
/// It is what is printed of a refused document (`first`). A document is accepted if and only if it has no first
/// fault (`exists`). The list of all faults is one (`one`): the first is this one (`head`), and it is empty if and only if the
/// document is accepted (`empty`). The relations are those of [`crate::check_batch`] and [`crate::faults_in`].
pub fn every_verdict()
    ensures first { (bytes : List ℕ) (refusal : Printed) → IsLeast bytes refusal ↔ PrintsFirst bytes refusal }
    ensures exists { (bytes : List ℕ) → Accepts bytes (λ _. Unit {0})
        ↔ ((rule : Rule) (at : ℕ) → ¬ IsFirstFault bytes rule at) }
    ensures head { (bytes : List ℕ) (refusals : List Printed) → AreFaultsIn bytes refusals
        → IfSome (slice_get refusals 0) (IsLeast bytes) }
    ensures empty { (bytes : List ℕ) (refusals : List Printed) → AreFaultsIn bytes refusals
        → (refusals ≡ []) ↔ Accepts bytes (λ _. Unit {0}) }
    ensures one { (bytes : List ℕ) (refusals others : List Printed) → AreFaultsIn bytes refusals
        → AreFaultsIn bytes others → refusals ≡ others }
{
    odb_doc::laws::one_fault();
    odb_check::laws::one_fault();
    odb_doc::laws::one_batch();
    odb_doc::laws::some_batch();
}

/// A reader that has `left` to give gives one document.
pub fn one_document()
    ensures { (left document other : List ℕ) → IsDocumentOf left document → IsDocumentOf left other
        → document ≡ other }
{}

/// Two texts that a task may write for the same bytes of a batch document and of a second document are equal,
/// and so are the ends: for each task with its options, in each form, and also if one of the documents is
/// refused. Likewise for a line of a log, with one document or with two. So what a task writes is a function of the bytes and
/// the form.
///
/// So it is if faults are printed with where they are, provided that the documents are JSON (`located`): where one that is not
/// JSON stops being so (F02) is tested. A fault of a line with its number, located or not, is one text too (`numbered`).
///
/// The relation `OfDocuments` is that of [`crate::answer_documents`], and `OfWholeLine` that of [`crate::answer_line`]. `left` is
/// what the second reader has left. `LocatesDocuments` is that of [`crate::answer_in_memory`], and `OfNumbered` that of
/// [`crate::answer_line`].
pub fn one_text()
    ensures task { (task : Task) (form : Form) (bytes left : List ℕ)
        → IsOne (OfDocuments task (ByReader (Some left)) bytes form) }
    ensures memory { (task : Task) (form : Form) (bytes second : List ℕ)
        → IsOne (OfDocuments task (InMemory second) bytes form) }
    ensures line { (task : Task) (form : Form) (line : List ℕ) → IsOne (OfWholeLine task line form) }
    ensures located { (task : Task) (form : Form) (batch_name batch second_name second : List ℕ) (d : Data)
        → IsJson batch d → (takes_second task ≡ true → (e : Data) × IsJson second e)
        → IsOne (LocatesDocuments task batch_name batch second_name second form) }
    ensures numbered { (numbers located : Bool) (task : Task) (form : Form) (name : List ℕ) (number : ℕ)
        (line : List ℕ) → (located ≡ true → (d : Data) × IsJson line d)
        → IsOne (OfNumbered numbers located name task number line form) }
{
    odb_doc::laws::one_batch();
    odb_doc::laws::one_fault();
    odb_check::laws::one_fault();
    odb_reply::laws::one_document();
    odb_reply::laws::one_match();
    odb_spans::laws::one_place();
    odb_spans::laws::one_pair();
    odb_spans::laws::one_position();
    odb_text::laws::every_result();
    odb_send::laws::one_rest();
    odb_reply::laws::one_status();
    odb_doc::laws::one_record();
    odb_exec::laws::every_order();
    odb_doc::laws::one_history();
    odb_sched::laws::every_cause();
}

/// What a task over two documents writes of a line `[batch, second]` is what it writes of the two documents, and
/// it ends alike: for `match`, `replay` and `run` with their options, in each form. What `rest` writes of a line is what it
/// writes of the two documents as they lie in the line (`parts`): its bodies are bytes of the batch.
///
/// The two documents are in memory, or the second is all that a reader has left. `IsLineOf` asks that the line
/// itself is a document too: so it has at most 16,777,216 bytes, and what is in it nests at most 126 deep.
pub fn every_pair()
    ensures memory { (task : Task) (form : Form) (batch second line text : List ℕ) (ended : Ended)
        → takes_second task ≡ true → takes_bytes task ≡ false → IsLineOf batch second line
        → (OfWholeLine task line form ended text)
        ↔ (OfDocuments task (InMemory second) batch form ended text) }
    ensures readers { (task : Task) (form : Form) (batch second line text : List ℕ) (ended : Ended)
        → takes_second task ≡ true → takes_bytes task ≡ false → IsLineOf batch second line
        → (OfWholeLine task line form ended text)
        ↔ (OfDocuments task (ByReader (Some second)) batch form ended text) }
    ensures parts { (task : Task) (form : Form) (line text : List ℕ) (batch second : Data) (ended : Ended)
        → takes_second task ≡ true → takes_bytes task ≡ true → IsDocument line (pair batch second)
        → OfWholeLine task line form ended text
        → WritesParts task line (pair batch second) form ended text }
{}

/// What a replay without a trace, or a run by recorded events, writes as its result is read again:
/// `serde_json` reads the text, with its newline, as a response document, its responses fit the
/// batch, and some finished run answers their statuses. So a match accepts it, unless it is longer than a document may be
/// (F01).
///
/// A body that was read from a document nests at most 124 deep, so a response of it at most 127.
pub fn read_again()
    ensures replay { (order : Order) (policy : Policy) (form : Form) (bytes outcomes text : List ℕ)
        → Answers (Replays (AllowsOrder order) policy false (Some outcomes)) bytes form Done text
        → Accepts bytes (λ batch. IsReadAgain Requests batch text) }
    ensures run { (policy : Policy) (form : Form) (bytes events text : List ℕ)
        → Answers (Runs policy (Some events)) bytes form Done text
        → Accepts bytes (λ batch. IsReadAgain Requests batch text) }
{
    odb_doc::laws::every_value();
    odb_doc::laws::one_record();
    odb_doc::laws::one_history();
}

/// A replay that is recorded as events is a run: each document of the events of its course, in which each report has
/// the outcome that is recorded for its request, runs to the same response under the same policy.
///
/// The steps of the course are those of the trace. It is the only course in the order of the replay, by
/// [`odb_exec::laws::every_order`]. The relations are those of [`crate::replay_batch`] and [`crate::run_batch`].
pub fn every_replay()
    ensures { (order : Order) (policy : Policy) (traced : Bool) (form : Form)
        (bytes outcomes text : List ℕ)
        → Answers (Replays (AllowsOrder order) policy traced (Some outcomes)) bytes form Done text
        → Accepts bytes (RunsAgain (AllowsOrder order) policy traced form bytes outcomes text) }
{
    odb_doc::laws::every_value();
    odb_doc::laws::one_record();
    odb_doc::laws::one_history();
}
