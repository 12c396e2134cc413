//! A document of recorded outcomes, by id.

ghost use Rattle.std.specs.Prelude.{◌==◌, ◌≡◌, ◌<◌, ℕ, List, length, slice_get, Some, false, map, option_map, bytes_eq, IfSome, MatchOption, IfOk, IfErr, OnOk, OnErr, All};
ghost use Rattle.std.specs.List.{AllZip, IsDistinct};
ghost use Rattle.std.specs.Map.{keys_of};
ghost use Rattle.std.proofs.Props.{props};
ghost use Rattle.serde_json.specs.Data.{Data, unsigned};
ghost use Rattle.serde_json.specs.View.{view, number_view};
ghost use Rattle.odb_doc.specs.declared.recorded.outcome_fault.OutcomeRule.{OutcomeRule};
ghost use Rattle.odb_doc.specs.declared.recorded.outcome_fault.OutcomeFault.TheVariants as faults;
ghost use Rattle.odb_doc.specs.BrokenRules.{OnPlace, OnRule};
ghost use Rattle.odb_doc.specs.recorded.LeastOutcomeFault.{AreOutcomes, BreaksOutcome, IsLeastOutcomeRule, IsOutcomesDocument, RefusesOutcomes};
ghost use Rattle.odb_doc.specs.recorded.RawOutcomes.{IsLeastBroken, IsRawOutcomeOf, Repeats, outcome_fault};
ghost use Rattle.odb_doc.specs.recorded.Outcomes.{AreOutcomesOf, IsOutcomesObject, IsStatus, IsWellFormedOutcome, ReadsAs, elements, ids, recorded};
ghost use Rattle.odb_doc.specs.Names.{texts_in};
ghost use Rattle.odb_doc.specs.SameTexts.{IsFirstRepeat};
ghost use Rattle.odb_doc.specs.WholeNumbers.{IsWhole};

use crate::broken::Broken;
use crate::disposal::Disposal;
use crate::member::{Object, text_at};
use crate::recorded::outcome::{Outcome, RawOutcome, raw_outcome_of};
use crate::recorded::outcome_fault::{OutcomeFault, OutcomeRule};
use crate::repeats::first_repeat;
use crate::status::is_status;
use crate::whole::has_whole_body;
use serde_json::{Number, Value};
use std::alloc::{AllocError, Global};

/// Recorded outcomes of requests, in the order of their document. No two have one id, each status is
/// from 200 to 599, and each body holds whole numbers alone.
#[derive(Debug, Drop)]
pub struct Outcomes {
    entries: Vec<(String, Outcome)>,
    ghost apart: { IsDistinct bytes_eq (keys_of (map recorded entries.items)) } by { Prim.hlevel props },
    ghost well_formed: { All IsWellFormedOutcome (map recorded entries.items) } by { Prim.hlevel props },
}

/// The hollowed-out JSON that remains after reading. Dropping it is slow for large documents; a
/// program about to exit can leak it instead: see [`Husk::end`].
#[derive(Drop)]
pub struct Husk {
    pub(crate) elements: Vec<Value>,
}

impl Husk {
    /// Drops or leaks what remains. The list of its elements is freed in any case: it is in one piece.
    pub fn end(self, disposal: Disposal) {
        for element in self.elements {
            disposal.end(element);
        }
    }
}

/// Returns the status, or `None` if it is not a whole number from 200 to 599.
fn status_of(status: Number) -> Option<u16>
    ensures { MatchOption result (¬ IsStatus (number_view status))
        (λ code. IsStatus (number_view status) × (number_view status ≡ unsigned code)) }
{
    let code = u16::try_from(status.as_u64()?).ok()?;
    is_status(code).then_some(code)
}

/// Returns the ids of the elements that have one.
fn ids_of<'a>(alloc: Global, elements: &'a [Value]) -> Result<Vec<&'a str>, AllocError>
    ensures ids { IfOk result (λ found. texts_in found.items ≡ ids (map view elements.now)) }
    ensures some { OnErr result (0 < length elements.now) }
{
    let mut found = Vec::with_capacity(alloc, elements.len())?;
    for element in elements {
        if let Some(id) = text_at(element, "id") {
            found.push(id)?;
        }
    }
    Ok(found)
}

/// Returns where an id repeats first, among the ids of the elements, or how many ids there are.
fn first_repeated_id(alloc: Global, elements: &[Value]) -> Result<usize, AllocError>
    ensures first { IfOk result (IsFirstRepeat (ids (map view elements.now))) }
    ensures some { OnErr result (0 < length elements.now) }
{
    let ids = ids_of(alloc, elements)?;
    first_repeat(alloc, ids.as_slice())
}

/// Returns the status of the outcome, or the first of the rules F61 to F63 that it breaks.
fn status_in(repeats: bool, raw: &RawOutcome) -> Result<u16, Broken<OutcomeRule>>
    ensures unbroken { OnOk result ((d : Data) (before : List (List ℕ)) → IsRawOutcomeOf d raw.now
        → Repeats repeats before d → (rule : OutcomeRule) → ¬ BreaksOutcome rule before d) }
    ensures status { IfOk result (λ code. IsStatus (number_view raw.now.status)
        × (number_view raw.now.status ≡ unsigned code)) }
    ensures whole { OnOk result (IfSome (option_map view raw.now.body) IsWhole) }
    ensures is_new { OnOk result (repeats ≡ false) }
    ensures first { IfErr result (λ broken. (d : Data) (before : List (List ℕ))
        → IsRawOutcomeOf d raw.now → Repeats repeats before d
        → OnRule (IsLeastBroken before d) broken) }
{
    if repeats {
        return Err(Broken::Rule(OutcomeRule::OutcomeTwice));
    }
    let Some(status) = status_of(raw.status) else {
        return Err(Broken::Rule(OutcomeRule::BadStatus));
    };
    if !has_whole_body(raw.body.as_ref()) {
        return Err(Broken::Rule(OutcomeRule::NotWhole));
    }
    Ok(status)
}

/// Reads one element, moving its values out, or returns the first rule that it breaks. `repeats` says
/// whether an earlier element has its id.
fn read_outcome(
    alloc: Global,
    repeats: bool,
    element: &mut Value,
) -> Result<(String, Outcome), Broken<OutcomeRule>>
    ensures unbroken { OnOk result ((before : List (List ℕ)) → Repeats repeats before (view element.old)
        → (rule : OutcomeRule) → ¬ BreaksOutcome rule before (view element.old)) }
    ensures says { IfOk result (λ entry. ReadsAs (view element.old) (recorded entry)) }
    ensures well_formed { IfOk result (λ entry. IsWellFormedOutcome (recorded entry)) }
    ensures is_new { OnOk result (repeats ≡ false) }
    ensures first { IfErr result (λ broken. (before : List (List ℕ))
        → Repeats repeats before (view element.old)
        → OnRule (IsLeastBroken before (view element.old)) broken) }
{
    let bad = OutcomeRule::BadOutcomes;
    let raw = raw_outcome_of(alloc, Object::Outcome, "id", element, bad)?;
    let status = status_in(repeats, &raw)?;
    let outcome = Outcome::new(alloc, status, raw.headers, raw.body)?;
    Ok((raw.id, outcome))
}

impl From<Broken<(usize, OutcomeRule)>> for OutcomeFault {
    ghost from_gives = { λ broken fault. fault ≡ outcome_fault broken };

    fn from(broken: Broken<(usize, OutcomeRule)>) -> Self {
        match broken {
            Broken::Rule((at, rule)) => OutcomeFault::Outcome { at, rule },
            Broken::OutOfMemory => OutcomeFault::OutOfMemory,
        }
    }
}

/// Reads the elements, moving their values out, or returns the first rule that one of them breaks.
fn outcomes_from(
    alloc: Global,
    elements: &mut Vec<Value>,
) -> Result<Vec<(String, Outcome)>, Broken<(usize, OutcomeRule)>>
    ensures unbroken { OnOk result (AreOutcomes (map view elements.old.items)) }
    ensures says { IfOk result (λ found. AllZip ReadsAs (map view elements.old.items)
        (map recorded found.items)) }
    ensures apart { IfOk result (λ found. IsDistinct bytes_eq
        (keys_of (map recorded found.items))) }
    ensures well_formed { IfOk result (λ found. All IsWellFormedOutcome (map recorded found.items)) }
    ensures first { IfErr result (OnPlace (IsLeastOutcomeRule (map view elements.old.items))) }
    ensures some { OnErr result (0 < length elements.old.items) }
{
    let repeat = first_repeated_id(alloc, elements.as_slice())?;
    let mut entries = Vec::with_capacity(alloc, elements.len())?;
    for element in elements {
        match read_outcome(alloc, entries.len() == repeat, element) {
            Ok(entry) => entries.push(entry)?,
            Err(broken) => return Err(broken.at(entries.len())),
        }
    }
    Ok(entries)
}

impl Outcomes {
    ghost use Rattle.odb_doc.specs.recorded.OutcomeLists.{entries};

    /// Reads the outcomes of a document: an object whose one member is `outcomes`, an array of objects
    /// with an `id`, a `status`, maybe `headers` and a `body`.
    ///
    /// `document` is the value that [`crate::parse`] made. Its ids, headers and bodies are moved out of
    /// it. Allocates the list of outcomes, lists of their ids and the maps of their headers. The ids need
    /// not be identifiers of requests.
    ///
    /// It takes O(n log n) for a document of n bytes, whatever its ids are: repeats are found by order
    /// and not by hash, so no choice of ids makes it slow.
    ///
    /// Example: `outcomes_in` in crates/odb_tests_exec/src/runs/recordings.rt.
    ///
    /// # Errors
    ///
    /// `Document`, which is F60 of the whole, if the document is not such an object; else, at the first
    /// element that has a fault, the least of F60 to F63 by number. `OutOfMemory` if an allocation fails,
    /// in place of the fault of an element or of outcomes.
    pub fn read(alloc: Global, document: Value) -> Result<Outcomes, OutcomeFault>
        ensures good { OnOk result (IsOutcomesDocument (view document)) }
        ensures outcomes { IfOk result (λ outcomes. AreOutcomesOf (view document) (entries outcomes)) }
        ensures least { IfErr result (λ fault. RefusesOutcomes fault (view document)) }
        ensures memory { IfErr result (λ fault. fault ≡ faults.OutOfMemory
            → IsOutcomesObject (view document) × (0 < length (elements (view document)))) }
    {
        let (outcomes, _emptied) = Outcomes::split(alloc, document)?;
        Ok(outcomes)
    }

    /// Reads the outcomes of a document, as [`Outcomes::read`] does, and returns what remains of it too.
    ///
    /// # Errors
    ///
    /// Those of [`Outcomes::read`]. Nothing remains of the document then.
    pub fn split(alloc: Global, document: Value) -> Result<(Outcomes, Husk), OutcomeFault>
        ensures good { OnOk result (IsOutcomesDocument (view document)) }
        ensures outcomes { IfOk result (λ parts. AreOutcomesOf (view document) (entries parts.0)) }
        ensures least { IfErr result (λ fault. RefusesOutcomes fault (view document)) }
        ensures memory { IfErr result (λ fault. fault ≡ faults.OutOfMemory
            → IsOutcomesObject (view document) × (0 < length (elements (view document)))) }
    {
        let Some(mut elements) = Object::Outcomes.elements_at(document, "outcomes") else {
            return Err(OutcomeFault::Document);
        };
        let entries = outcomes_from(alloc, &mut elements)?;
        Ok((Outcomes { entries }, Husk { elements }))
    }

    /// Returns how many outcomes there are.
    pub fn len(&self) -> usize
        ensures count { result ≡ length (entries self.now) }
        ensures apart { IsDistinct bytes_eq (keys_of (entries self.now)) }
        ensures well_formed { All IsWellFormedOutcome (entries self.now) }
    {
        self.entries.len()
    }

    /// Returns whether there are no outcomes.
    pub fn is_empty(&self) -> bool
        ensures { result ≡ (length (entries self.now) == 0) }
    {
        self.entries.is_empty()
    }

    /// Returns the id and the outcome at a position, counted from 0.
    pub fn entry(&self, k: usize) -> (&str, &Outcome)
        requires { k < length (entries self.now) }
        ensures value { slice_get (entries self.now) k ≡ Some (result.0.now, result.1.now) }
        ensures well_formed { IsWellFormedOutcome (result.0.now, result.1.now) }
    {
        let entry = &self.entries[k];
        (entry.0.as_str(), &entry.1)
    }

    /// Returns the ids and the outcomes, in the order of the document. It takes no memory.
    pub fn into_vec(self) -> Vec<(String, Outcome)>
        ensures value { map recorded result.items ≡ entries self }
        ensures apart { IsDistinct bytes_eq (keys_of (entries self)) }
        ensures well_formed { All IsWellFormedOutcome (entries self) }
    {
        let Outcomes { entries } = self;
        entries
    }
}
