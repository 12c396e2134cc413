//! The ids and the groups of the requests of a batch, once nothing of its document is held.

ghost use Rattle.std.specs.Prelude.{◌≡◌, ◌<◌, ◌↔◌, ℕ, None, All, Contains, IfOk, IfSome, IsTrue, OnOk, string_bytes};
ghost use Rattle.std.specs.List.Sorted.{IsPermutation};
ghost use Rattle.odb_doc.specs.batch.Records.{record_of};
ghost use Rattle.odb_check.specs.Plans.{plan_records};
ghost use Rattle.odb_reply.specs.Responses.{label_of, labels_of};
ghost use Rattle.odb_live.specs.LabelTables.{AreById, id_or_empty, owned_value, values_of};
ghost use Rattle.odb_live.specs.Labels.{id_lines};
ghost use Rattle.odb_live.specs.Labels as labels;
ghost use Rattle.odb_reply.specs.Labels.{label_value};

use odb_check::Plan;
use odb_check::laws::every_plan;
use odb_doc::Request;
use odb_reply::{Label, Labels};
use std::alloc::{AllocError, Global};
use std::marker::Model;

/// The id and the group of a request.
#[derive(Drop)]
struct OwnedLabel {
    id: String,
    group: Option<String>,
}

/// The ids and the groups of the requests of a batch, by position. They borrow nothing of the batch.
#[derive(Drop)]
pub(crate) struct OwnedLabels {
    labels: Vec<OwnedLabel>,
    /// The positions in the order of their ids.
    by_id: Vec<u32>,
}

impl Model for OwnedLabels {
    ghost use Rattle.std.specs.Prelude.{List};
    ghost use Rattle.odb_reply.specs.Responses.{LabelValue};

    ghost Value = { List LabelValue };

    ghost use Rattle.odb_live.specs.LabelTables.{kept_labels, IsTable};

    ghost view = { kept_labels };

    ghost invariant = { IsTable };
}

/// Returns the id at a position, and an empty text if there is none.
fn id_at(labels: &[OwnedLabel], i: u32) -> &[u8]
    ensures { result.now ≡ id_or_empty labels.now i }
{
    match labels.get(i as usize) {
        Some(label) => label.id.as_bytes(),
        None => b"",
    }
}

/// Sorts positions by their ids.
fn sort_by_id(labels: &[OwnedLabel], positions: &mut Vec<u32>) -> Result<(), AllocError>
    ensures permutation { IsPermutation positions.old.items positions.new.items }
    ensures sorted { OnOk result (AreById labels.now positions.new.items) }
{
    positions.sort_by(|i, j| id_at(labels, *i).cmp(id_at(labels, *j)))
}

/// Returns the position that has an id, among positions in the order of their ids.
fn search(labels: &[OwnedLabel], positions: &[u32], id: &[u8]) -> Option<u32>
    requires { AreById labels.now positions.now }
    ensures found { IfSome result (λ i. id_or_empty labels.now i ≡ id.now) }
    ensures among { IfSome result (λ i. Contains positions.now i) }
    ensures none { result ≡ None → (i : ℕ) → Contains positions.now i
        → ¬ (id_or_empty labels.now i ≡ id.now) }
{
    match positions.binary_search_by(|i| id_at(labels, *i).cmp(id)) {
        Ok(at) => Some(positions[at]),
        Err(_) => None,
    }
}

impl OwnedLabel {
    /// Returns the id and the group of a request.
    fn of(alloc: Global, request: &Request<'_>) -> Result<OwnedLabel, AllocError>
        ensures { IfOk result (λ label. owned_value label ≡ label_of (record_of request.now)) }
    {
        let group = match request.group {
            Some(group) => Some(String::from_str(alloc, group)?),
            None => None,
        };
        Ok(OwnedLabel {
            id: String::from_str(alloc, request.id)?,
            group,
        })
    }

    /// Returns whether it is the id and the group of a request.
    fn is_of(&self, request: &Request<'_>) -> bool
        ensures { IsTrue result ↔ (owned_value self.now ≡ label_of (record_of request.now)) }
    {
        self.id.as_str() == request.id && self.lent().group == request.group
    }

    /// Returns the same, borrowed.
    fn lent(&self) -> Label<'_>
        ensures { label_value result ≡ owned_value self.now }
    {
        let group = match &self.group {
            Some(group) => Some(group.as_str()),
            None => None,
        };
        Label {
            id: self.id.as_str(),
            group,
        }
    }
}

/// Returns the ids and the groups of the requests of a plan.
fn labels_in(alloc: Global, plan: &Plan<'_>) -> Result<Vec<OwnedLabel>, AllocError>
    ensures { IfOk result (λ labels. values_of labels.items
        ≡ labels_of (plan_records plan.now)) }
{
    let mut labels = Vec::with_capacity(alloc, plan.len() as usize)?;
    for i in 0..plan.len() {
        labels.push(OwnedLabel::of(alloc, plan.request(i))?)?;
    }
    Ok(labels)
}

/// Returns whether these are the ids and the groups of the requests of a plan.
fn are_labels_of(labels: &[OwnedLabel], plan: &Plan<'_>) -> bool
    ensures { IsTrue result ↔ (values_of labels.now ≡ labels_of (plan_records plan.now)) }
{
    if labels.len() != plan.len() as usize {
        return false;
    }
    for i in 0..plan.len() {
        if !labels[i as usize].is_of(plan.request(i)) {
            return false;
        }
    }
    true
}

/// Returns the positions below a number.
fn positions_below(alloc: Global, count: u32) -> Result<Vec<u32>, AllocError>
    ensures all { IfOk result (λ positions. (i : ℕ) → i < count → Contains positions.items i) }
    ensures within { IfOk result (λ positions. All (λ i. i < count) positions.items) }
{
    let mut positions = Vec::with_capacity(alloc, count as usize)?;
    for i in 0..count {
        positions.push(i)?;
    }
    Ok(positions)
}

impl OwnedLabels {
    /// Returns the ids and the groups of the requests of a plan.
    ///
    /// Takes O(n log n) comparisons for n requests.
    pub(crate) fn of(alloc: Global, plan: &Plan<'_>) -> Result<OwnedLabels, AllocError>
        ensures { IfOk result (λ labels. labels ≡ labels_of (plan_records plan.now)) }
    {
        every_plan(plan);
        let labels = labels_in(alloc, plan)?;
        let mut by_id = positions_below(alloc, plan.len())?;
        sort_by_id(&labels, &mut by_id)?;
        Ok(OwnedLabels { labels, by_id })
    }

    /// Returns whether these are the ids and the groups of the requests of a plan.
    pub(crate) fn are_of(&self, plan: &Plan<'_>) -> bool
        ensures { IsTrue result ↔ (self.now ≡ labels_of (plan_records plan.now)) }
    {
        are_labels_of(&self.labels, plan)
    }

    /// Returns the position of the request with this id, or `None` if there is none.
    ///
    /// Takes O(log n) comparisons of ids for n requests, and allocates nothing.
    pub(crate) fn position_of(&self, id: &[u8]) -> Option<u32>
        ensures { result ≡ labels.position_of self.now id.now }
    {
        search(&self.labels, &self.by_id, id)
    }

    /// Returns the ids, one a line, in the order of their positions.
    pub(crate) fn lines(&self, alloc: Global) -> Result<String, AllocError>
        ensures { IfOk result (λ text. string_bytes text ≡ id_lines self.now) }
    {
        let mut text = String::new(alloc);
        for label in &self.labels {
            text.push_str(&label.id)?;
            text.push('\n')?;
        }
        Ok(text)
    }
}

impl Labels for OwnedLabels {
    ghost labels = { λ labels. labels };

    fn label(&self, i: u32) -> Label<'_> {
        self.labels[i as usize].lent()
    }
}
