//! What the results as JSON are read as, what two equal texts of plans have in common, and what is drawn.
//!
//! The laws are clauses of functions that change nothing. They speak of the words that the calls of this crate cite.

ghost use Rattle.std.specs.Prelude.{◌≡◌, ◌<◌, ◌^◌, ◌++◌, ◌∷◌, [], ℕ, Contains, IfSome, List, None, Option, Some, codes, get_or, length, map, slice_get, slice_index};
ghost use Rattle.serde_json.specs.Read.{read};
ghost use Rattle.odb_doc.specs.Refusals.{Printed};
ghost use Rattle.std.specs.List.{AllByRecursion};
ghost use Rattle.serde_json.specs.Data.{Data, array, no_members, object, put};
ghost use Rattle.serde_json.specs.View.{items_of};
ghost use Rattle.odb_check.specs.declared.need.Need.TheVariants.{Group, One};
ghost use Rattle.odb_check.specs.Firsts.{joined_below, list_below};
ghost use Rattle.odb_check.specs.Levels.{level_at};
ghost use Rattle.odb_check.specs.Needs.{needs_at};
ghost use Rattle.odb_check.specs.Positions.{group_at};
ghost use Rattle.odb_check.specs.Texts.{plan_line, plan_text};
ghost use Rattle.odb_check.specs.Units.{unit_at};
ghost use Rattle.odb_doc.specs.batch.Records.{IsBatchOf, Record};
ghost use Rattle.odb_sched.specs.declared.event.Step.{Step};
ghost use Rattle.odb_sched.specs.run.Answers.{undone};
ghost use Rattle.odb_sched.specs.run.State.{State};
ghost use Rattle.odb_text.specs.DrawnLines.{clusters_of, lines_of, marked, nodes_of};
ghost use Rattle.odb_text.specs.Drawings.{arrow_line, arrow_start, drawing_text, rank_line};
ghost use Rattle.odb_text.specs.Rows.{row_at};
ghost use Rattle.odb_text.specs.Labels.{IsOneString, quoted};
ghost use Rattle.odb_text.specs.Lines.{unlocated};
ghost use Rattle.odb_text.specs.Traces.{step_line, trace_text, undo_line};
ghost use Rattle.odb_text.specs.SamePlans.{IsSamePlan};
ghost use Rattle.odb_spans.specs.declared.position.Position.{Position};
ghost use Rattle.odb_spans.specs.declared.span.Span.{Span};
ghost use Rattle.odb_text.specs.FullPlans.{full_plan_value};
ghost use Rattle.odb_text.specs.Results.{FitsWords, counts_value, fault_value, faults_value, json_line, located, located_object, match_value, plan_value};

/// A result or a fault as JSON is one line that is read as the value it shows: an object with the members that
/// docs/schemas/ lists.
///
/// `serde_json` reads the line, with its newline, as just this value. So does [`odb_doc::parse`], unless the line is
/// longer than a document may be (F01). The numbers of a batch that was read are far below 2^64. A fault with its
/// position is read as the same members in byte order (`located`, `all_located`): a line has those of the position last.
pub fn every_result()
    ensures fault { (refusal : Printed)
        → read (json_line (fault_value (unlocated refusal))) ≡ Some (fault_value (unlocated refusal)) }
    ensures faults { (refusals : List Printed) → read (json_line (faults_value (map unlocated refusals)))
        ≡ Some (faults_value (map unlocated refusals)) }
    ensures located { (refusal : Printed) (position : Position) → FitsWords position
        → read (json_line (fault_value (located (refusal, position))))
        ≡ Some (object (put (codes "fault") (located_object (refusal, position)) no_members)) }
    ensures all_located { (faults : List (Printed × Position))
        → AllByRecursion (λ fault. FitsWords fault.1) faults
        → read (json_line (faults_value (map located faults)))
        ≡ Some (object (put (codes "faults") (array (items_of (map located_object faults))) no_members)) }
    ensures counts { (requests groups : ℕ) → requests < 2 ^ 64 → groups < 2 ^ 64
        → read (json_line (counts_value requests groups)) ≡ Some (counts_value requests groups) }
    ensures plan { (batch : List Record) → length batch < 2 ^ 64
        → read (json_line (plan_value batch)) ≡ Some (plan_value batch) }
    ensures full { (value : Data) (batch : List Record) (bodies : List (Option Span))
        → IsBatchOf value batch → length batch < 2 ^ 64
        → ((i : ℕ) → IfSome (get_or bodies i None) (λ span. (span.start < 2 ^ 64) × (span.end < 2 ^ 64)))
        → read (json_line (full_plan_value batch bodies)) ≡ Some (full_plan_value batch bodies) }
    ensures statuses { (batch : List Record) (statuses : List ℕ)
        → ((i : ℕ) → slice_index statuses i < 2 ^ 64)
        → read (json_line (match_value batch statuses)) ≡ Some (match_value batch statuses) }
{
    odb_doc::laws::every_value();
}

/// Two plans with equal texts have the same requests: the same identifiers, groups and dependencies, in the same
/// order.
pub fn one_plan()
    ensures json { (batch other : List Record) → length batch < 2 ^ 64 → length other < 2 ^ 64
        → json_line (plan_value batch) ≡ json_line (plan_value other) → IsSamePlan batch other }
    ensures lines { (value : Data) (batch : List Record) (different : Data) (other : List Record)
        → IsBatchOf value batch → IsBatchOf different other → length batch < 2 ^ 64
        → length other < 2 ^ 64 → plan_text batch ≡ plan_text other → IsSamePlan batch other }
{
    every_result();
}

/// An arrow of a drawing begins at a request of what is depended on: at the request itself, or at the first one of
/// the group, from whose cluster it is drawn.
pub fn every_arrow()
    ensures one { (batch : List Record) (i r : ℕ) → Contains (needs_at batch i) (One r)
        → (arrow_start batch (One r) ≡ r) × (r < length batch) }
    ensures group { (batch : List Record) (i u : ℕ) → Contains (needs_at batch i) (Group u)
        → (unit_at batch (arrow_start batch (Group u)) ≡ u)
        × (arrow_start batch (Group u) < length batch) }
{}

/// A label of a drawing is one string, whatever the document has in it: it begins with a quotation mark and ends with the
/// next one that no backslash escapes. So no text of a document ends its label early.
pub fn every_label()
    ensures { (text : List ℕ) → IsOneString (quoted text) }
{}

/// A text has the lines that it is made of, and no others, whatever the document has in it.
///
/// - A plan has a line for each request, and a trace one for each step and for each request that is undone, in order.
/// - A drawing has a node for each request (its mark is `[`), a line of a cluster for each request with a group (`s`),
///   a rank for each request (`{`) and an arrow for each dependency of each request (`-`), in order, and no other
///   lines with these marks.
pub fn every_line()
    ensures plan { (value : Data) (batch : List Record) → IsBatchOf value batch → length batch < 2 ^ 64
        → lines_of (plan_text batch) ≡ list_below (length batch) (plan_line batch) }
    ensures trace { (value : Data) (state : State) (steps : List Step) → IsBatchOf value state.requests
        → lines_of (trace_text state steps) ≡ map (step_line state) steps
        ++ map (undo_line state) (undone state) }
    ensures nodes { (batch : List Record) → marked 91 (drawing_text batch)
        ≡ joined_below (length batch) (λ i. nodes_of i (slice_get batch i)) }
    ensures clusters { (batch : List Record) → marked 115 (drawing_text batch)
        ≡ joined_below (length batch) (λ i. clusters_of (unit_at batch i) i (group_at batch i)) }
    ensures ranks { (batch : List Record) → marked 123 (drawing_text batch)
        ≡ joined_below (length batch) (λ i. rank_line (level_at batch i) (row_at batch i) i ∷ []) }
    ensures arrows { (batch : List Record) → marked 45 (drawing_text batch)
        ≡ joined_below (length batch) (λ i. map (arrow_line batch i) (needs_at batch i)) }
{}
