//! From the sources of the documents to the text that a command writes.

ghost use Rattle.std.specs.Prelude.{◌≡◌, ◌≢◌, ◌↔◌, ◌⊎◌, [], None, Some, true, map, Err, IfErr, IfOk, IfSome, OnOk};
ghost use Rattle.odb_doc.specs.Refusals.{printed};
ghost use Rattle.odb_doc.specs.batch.Batches.{records};
ghost use Rattle.odb_doc.specs.declared.fault.Place.TheVariants as places;
ghost use Rattle.odb_check.specs.LeastNameFault.{HasGoodNames};
ghost use Rattle.odb_check.specs.Plans.{plan_records};
ghost use Rattle.odb_check.specs.Seeds.{IsSeeded};
ghost use Rattle.odb_engine.specs.declared.halt.Halt.TheVariants as halts;
ghost use Rattle.serde_json.specs.Data.{Data};
ghost use Rattle.serde_json.specs.View.{view};
ghost use Rattle.odb_spans.specs.Positions.{is_in_batch};
ghost use Rattle.odb_engine.specs.Answered.{HasSecond, IsSecond, RefusesSecond};
ghost use Rattle.odb_engine.specs.Cascade.{AcceptsValue, AnswersValue};
ghost use Rattle.odb_engine.specs.AllFaults.{AreFaultsOf};
ghost use Rattle.odb_doc.specs.Documents.{IsJson};
ghost use Rattle.odb_engine.specs.Contents.{AreFaultsOfContent, IfRead, IsAskedFor, IsBytesOf, OfBatch, OfTaken, SomeContent, given_of};
ghost use Rattle.odb_engine.specs.Halts.{Found, RefusesNamesOf, Halted};

use crate::disposal::DropOrLeak;
use crate::halt::Halt;
use crate::setup::Setup;
use crate::tasks::all_faults::{batch_in, noted, plan_in};
use crate::tasks::source::{Document, Kept, Source};
use odb_check::{Plan, check_with};
use odb_doc::{Batch, Place, Refusal};
use serde_json::Value;
use std::alloc::Global;

/// What is written of a batch that the check accepts, by a second document if the command takes one.
///
/// [`crate::answer_documents`] is its engine. [`crate::Task`] has the commands of the program.
pub trait Command {
    ghost use Rattle.std.specs.Prelude.{◌≡◌, ◌≢◌, ℕ, Bool, Option, None, true, List, Err};
    ghost use Rattle.odb_doc.specs.batch.Records.{Record};
    ghost use Rattle.odb_doc.specs.batch.Batches.{records};
    ghost use Rattle.odb_doc.specs.declared.fault.Place.{Place};
    ghost use Rattle.odb_check.specs.Plans.{plan_records};
    ghost use Rattle.odb_check.specs.Seeds.{IsSeeded};
    ghost use Rattle.odb_engine.specs.declared.ending.Ended.{Ended};
    ghost use Rattle.odb_engine.specs.declared.ending.Ended.TheVariants.{Refused};
    ghost use Rattle.odb_engine.specs.declared.form.Form.{Form};
    ghost use Rattle.odb_engine.specs.declared.halt.Halt.TheVariants as halts;
    ghost use Rattle.odb_engine.specs.Halts.{Found};
    ghost use Rattle.odb_send.specs.Parts.{IsBatchIn};
    ghost use Rattle.serde_json.specs.Data.{Data};
    ghost use Rattle.serde_json.specs.View.{view};

    /// How it ends by the bytes of a batch document and by the value of the second document, for the requests of the
    /// batch, and what it has written then, in each form.
    ghost writes: { Self → List ℕ → Data → List Record → Form → Ended → List ℕ → Type 0 };

    /// That all faults of a refused batch document are written, and not the first alone.
    ghost lists_all: { Self → Bool };

    /// Returns whether all faults of a refused batch document are written. Then it writes of each batch that the check
    /// accepts.
    fn lists_all(&self) -> bool
        ensures { result ≡ lists_all self.now };

    /// That the bytes of the batch document matter.
    ghost takes_bytes: { Self → Bool };

    /// Returns whether it takes the bytes of the batch document, beside its value.
    fn takes_bytes(&self) -> bool
        ensures { result ≡ takes_bytes self.now };

    /// The place of the second document, if it takes one.
    ghost second_place: { Self → Option Place };

    /// Returns the place of the second document, if it takes one.
    fn second_place(&self) -> Option<Place>
        ensures { result ≡ second_place self.now };

    /// Returns what is written of a batch and its plan, which was made with the seed of the setup. `document` has the
    /// bytes of the batch, if the command takes them, and `second` is the value of the second document, or null.
    fn text(
        &mut self,
        alloc: Global,
        document: &[u8],
        batch: &Batch<'_>,
        plan: &Plan<'_>,
        second: Value,
        setup: Setup,
    ) -> Result<String, Halt>
        requires batch { records batch.now ≡ plan_records plan.now }
        requires seed { IsSeeded setup.seed.number plan.now }
        requires document { takes_bytes self.old ≡ true
            → (d : Data) × IsBatchIn document.now d (plan_records plan.now) }
        ensures found { Found (writes self.old document.now (view second) (plan_records plan.now)) setup.form
            result }
        ensures read { result ≢ Err halts.Read };

    ghost alone: { (command : Self) → lists_all command ≡ true → second_place command ≡ None };

    ghost accepts: { (command : Self) → lists_all command ≡ true → (document : List ℕ) (second : Data)
        (batch : List Record) (form : Form) (text : List ℕ) → ¬ writes command document second batch form Refused text };

    ghost alike: { (command : Self) (document other : List ℕ) → (takes_bytes command ≡ true → document ≡ other)
        → (second : Data) (batch : List Record) (form : Form) (ended : Ended) (text : List ℕ)
        → writes command document second batch form ended text → writes command other second batch form ended text };
}

/// Returns the plan of a batch. Here, and nowhere else, an engine uses the seed of its setup.
///
/// Takes O(n log n) time and O(n) memory for names of n bytes.
///
/// # Errors
///
/// `Refused` by the first fault of the names of its requests; `OutOfMemory` if an allocation fails. Never
/// `Read`.
pub fn plan_of<'a: 'b, 'b>(
    alloc: Global,
    batch: &'b Batch<'a>,
    setup: Setup,
) -> Result<DropOrLeak<Plan<'b>>, Halt>
    ensures good { OnOk result (HasGoodNames (records batch.now)) }
    ensures plan { IfOk result (λ plan. plan_records plan.value ≡ records batch.now) }
    ensures seed { IfOk result (λ plan. IsSeeded setup.seed.number plan.value) }
    ensures least { IfErr result (Halted (RefusesNamesOf (records batch.now))) }
    ensures read { result ≢ Err halts.Read }
{
    Ok(DropOrLeak {
        value: check_with(alloc, setup.seed, batch)?,
        disposal: setup.disposal,
    })
}

/// Returns the value of the second document, if there is one, and else null.
fn second_in<S: Source>(
    alloc: Global,
    place: Option<Place>,
    second: &mut S,
    kept: &mut Kept,
) -> Result<Value, Halt>
    requires second { S.is_fresh second.old }
    requires kept { kept.old.error ≡ None }
    ensures value { SomeContent (S.given second.old) (λ other.
        (IfOk result (λ value. IsSecond place other (view value)) × IfErr result (Halted (RefusesSecond place other)))
        × (S.has_bytes second.old → kept.old.asked ≡ true
        → IfRead (HasSecond place other (S.bytes_of second.new kept.new.bytes.items)) result)) }
    ensures error { IfSome kept.new.error (λ _. (d : Data) → ¬ IsJson (S.bytes_of second.new kept.new.bytes.items) d) }
    ensures read { (result ≡ Err halts.Read) ↔ S.has_failed second.new }
    ensures few { S.reads_few second.old second.new }
{
    match place {
        Some(place) => second.read(alloc, place, kept),
        None => Ok(Value::Null),
    }
}

/// Returns what a command writes of the batch in a value, which was read from the document if the command takes its bytes.
/// The second source is read only if the check accepts it. All faults of a batch that is refused are listed if the command
/// writes them.
pub(crate) fn text_in<S: Source, C: Command>(
    alloc: Global,
    document: &[u8],
    value: &Value,
    second: &mut S,
    command: &mut C,
    setup: Setup,
    kept: &mut Kept,
    faults: &mut Vec<Refusal>,
) -> Result<String, Halt>
    requires document { C.takes_bytes command.old ≡ true → IsJson document.now (view value.now) }
    requires second { S.is_fresh second.old }
    requires kept { kept.old.error ≡ None }
    ensures found { SomeContent (S.given second.old) (λ other. Found (AnswersValue (λ batch.
        OfTaken (C.second_place command.old) (λ value. C.writes command.old document.now value batch) (given_of other))
        (view value.now)) setup.form result
        × (S.has_bytes second.old → kept.old.asked ≡ true
        → IfErr result (Halted (λ refusal. (is_in_batch refusal.place ≡ true)
        ⊎ HasSecond (C.second_place command.old) other (S.bytes_of second.new kept.new.bytes.items))))) }
    ensures error { IfSome kept.new.error (λ _. (d : Data) → ¬ IsJson (S.bytes_of second.new kept.new.bytes.items) d) }
    ensures listed { C.lists_all command.old ≡ true
        → IfErr result (Halted (λ _. AreFaultsOf (view value.now) (map printed faults.new.items))) }
    ensures asked { (second.new ≡ second.old) ⊎ AcceptsValue (view value.now) (λ _. Unit {0}) }
    ensures read { (result ≡ Err halts.Read) ↔ S.has_failed second.new }
    ensures second { S.reads_few second.old second.new }
{
    let all = command.lists_all();
    let batch = DropOrLeak {
        value: batch_in(alloc, value, all, faults)?,
        disposal: setup.disposal,
    };
    let plan = plan_in(alloc, &batch.value, all, setup, faults)?;
    let other = second_in(alloc, command.second_place(), second, kept)?;
    command.text(alloc, document, &batch.value, &plan.value, other, setup)
}

/// Returns what a command writes of the batch that the first source gives, by the second source if it takes a
/// second document. The second source is read only if the check accepts the batch. All faults of a batch document that is
/// refused are listed in `faults`, which is empty before, if the command writes them.
///
/// # Errors
///
/// `Read` if and only if a read of one of the sources failed; `Refused` by the first fault of the batch, or
/// as the command refuses; `OutOfMemory` if an allocation fails.
pub fn text_of<R: Document, S: Source, C: Command>(
    alloc: Global,
    first: &mut R,
    second: &mut S,
    command: &mut C,
    setup: Setup,
    first_kept: &mut Kept,
    second_kept: &mut Kept,
    faults: &mut Vec<Refusal>,
) -> Result<String, Halt>
    requires first { R.is_fresh first.old }
    requires second { S.is_fresh second.old }
    requires first_kept { first_kept.old.error ≡ None }
    requires second_kept { second_kept.old.error ≡ None }
    requires bytes { C.takes_bytes command.old ≡ true → first_kept.old.asked ≡ true }
    requires faults { faults.old.items ≡ [] }
    ensures found { SomeContent (R.given first.old) (λ content. SomeContent (S.given second.old) (λ other.
        Found (OfBatch (C.second_place command.old) (C.writes command.old) (given_of other) content) setup.form result
        × (S.has_bytes second.old → first_kept.old.asked ≡ true → second_kept.old.asked ≡ true
        → IfErr result (Halted (λ refusal. IsBytesOf content (R.bytes_of first.new first_kept.new.bytes.items)
        × ((is_in_batch refusal.place ≡ true)
        ⊎ HasSecond (C.second_place command.old) other (S.bytes_of second.new second_kept.new.bytes.items))))))
        × ((C.lists_all command.old ≡ true
        → IfErr result (Halted (λ _. AreFaultsOfContent content (map printed faults.new.items))))
        × IsAskedFor (R.was_read first.old first.new content) content second.old second.new)) }
    ensures first_error { IfSome first_kept.new.error (λ _. (d : Data)
        → ¬ IsJson (R.bytes_of first.new first_kept.new.bytes.items) d) }
    ensures second_error { IfSome second_kept.new.error (λ _. (d : Data)
        → ¬ IsJson (S.bytes_of second.new second_kept.new.bytes.items) d) }
    ensures read { (result ≡ Err halts.Read) ↔ (R.has_failed first.new ⊎ S.has_failed second.new) }
    ensures first { R.reads_few first.old first.new }
    ensures second { S.reads_few second.old second.new }
{
    let value = match first.read(alloc, Place::Batch, first_kept) {
        Ok(value) => value,
        Err(halt) => return Err(noted(halt, command.lists_all(), faults)),
    };
    let value = DropOrLeak {
        value,
        disposal: setup.disposal,
    };
    let document = first.bytes(first_kept);
    text_in(
        alloc,
        document,
        &value.value,
        second,
        command,
        setup,
        second_kept,
        faults,
    )
}
