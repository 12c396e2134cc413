//! A plan as a drawing in the language DOT of Graphviz.

ghost use Rattle.std.specs.Prelude.{◌≡◌, ◌<◌, ◌+◌, ◌++◌, All, codes, length, option_copied, IfOk, OnOk, string_bytes};
ghost use Rattle.std.specs.List.{flat_map};
ghost use Rattle.odb_names.specs.Methods.{method_name};
ghost use Rattle.odb_doc.specs.batch.Records.{record_of};
ghost use Rattle.odb_check.specs.Firsts.{joined_below, list_below};
ghost use Rattle.odb_check.specs.PlanGraph.{IsNeed};
ghost use Rattle.odb_check.specs.Plans.{plan_records, plan_graph};
ghost use Rattle.odb_text.specs.Drawings as drawings;
ghost use Rattle.odb_text.specs.Rows.{AreEnds, end_row, row_at};
ghost use Rattle.odb_text.specs.Labels.{shown};

use crate::label::push_shown;
use crate::rows::{Row, first_of_unit, rows_of};
use odb_check::{Need, Plan};
use odb_doc::Request;
use odb_doc::text::{push_quoted, push_quoted_lines};
use std::alloc::{AllocError, Global};
use std::fmt::Write;

/// Returns a text as the label of a node or of a cluster shows it.
fn shown_in_label(alloc: Global, piece: &str) -> Result<String, AllocError>
    ensures { IfOk result (λ label. string_bytes label ≡ shown piece.now) }
{
    let mut label = String::new(alloc);
    push_shown(&mut label, piece)?;
    Ok(label)
}

/// Returns the second line of the label of a request.
fn method_and_url(alloc: Global, request: &Request<'_>) -> Result<String, AllocError>
    ensures { IfOk result (λ line. string_bytes line
        ≡ method_name request.now.method ++ codes " " ++ shown request.now.url.now) }
{
    let mut line = String::new(alloc);
    line.push_str(request.method.name())?;
    line.push_str(" ")?;
    push_shown(&mut line, request.url)?;
    Ok(line)
}

/// Appends the node of a request.
fn push_node(
    alloc: Global,
    text: &mut String,
    i: u32,
    request: &Request<'_>,
) -> Result<(), AllocError>
    ensures { OnOk result (string_bytes text.new ≡ string_bytes text.old
        ++ drawings.node_line i (record_of request.now)) }
{
    write!(text, "  {i} [label=").map_err(|_| AllocError)?;
    let id = shown_in_label(alloc, request.id)?;
    push_quoted_lines(alloc, text, &id, &method_and_url(alloc, request)?)?;
    text.push_str("]\n")
}

/// Appends a request to the cluster of its group, if it has one.
fn push_cluster(
    alloc: Global,
    text: &mut String,
    unit: u32,
    i: u32,
    group: Option<&str>,
) -> Result<(), AllocError>
    ensures { OnOk result (string_bytes text.new ≡ string_bytes text.old
        ++ drawings.cluster_line unit i (option_copied group.entry)) }
{
    match group {
        Some(group) => {
            write!(text, "  subgraph cluster_{unit} {{ label=").map_err(|_| AllocError)?;
            push_quoted(alloc, text, &shown_in_label(alloc, group)?)?;
            write!(text, "; {i} }}\n").map_err(|_| AllocError)
        }
        None => Ok(()),
    }
}

/// Returns the start of a rank.
fn rank_start(row: u32) -> &'static str
    ensures { result.now ≡ drawings.rank_start row }
{
    if row == 0 {
        "  { rank=same; node [shape=plaintext]; "
    } else {
        "  { rank=same; node [shape=point style=invis]; "
    }
}

/// Appends the end of the name of a row.
fn push_row_end(text: &mut String, row: u32) -> Result<(), AllocError>
    ensures { OnOk result (string_bytes text.new
        ≡ string_bytes text.old ++ drawings.row_end row) }
{
    if row == 0 {
        text.push_str("\"")
    } else {
        write!(text, " row {row}\"").map_err(|_| AllocError)
    }
}

/// Appends the name of a row of a level.
fn push_row_name(text: &mut String, level: usize, row: u32) -> Result<(), AllocError>
    ensures { OnOk result (string_bytes text.new
        ≡ string_bytes text.old ++ drawings.row_name level row) }
{
    write!(text, "\"level {level}").map_err(|_| AllocError)?;
    push_row_end(text, row)
}

/// Appends the rank of a request.
fn push_rank(text: &mut String, level: usize, row: u32, i: u32) -> Result<(), AllocError>
    ensures { OnOk result (string_bytes text.new
        ≡ string_bytes text.old ++ drawings.rank_line level row i) }
{
    text.push_str(rank_start(row))?;
    push_row_name(text, level, row)?;
    write!(text, "; {i} }}\n").map_err(|_| AllocError)
}

/// Returns the request at which the arrow from a dependency begins.
fn arrow_start(plan: &Plan<'_>, need: Need) -> u32
    requires { IsNeed (plan_graph plan.now) need }
    ensures { result ≡ drawings.arrow_start (plan_records plan.now) need }
{
    match need {
        Need::One(r) => r,
        Need::Group(unit) => first_of_unit(plan, unit),
    }
}

/// Appends the end of the line of an arrow.
fn push_arrow_end(text: &mut String, need: Need) -> Result<(), AllocError>
    ensures { OnOk result (string_bytes text.new
        ≡ string_bytes text.old ++ drawings.arrow_end need) }
{
    match need {
        Need::One(_) => text.push_str("\n"),
        Need::Group(unit) => write!(text, " [ltail=cluster_{unit}]\n").map_err(|_| AllocError),
    }
}

/// Appends the arrow from a dependency to request `i`.
fn push_arrow(text: &mut String, plan: &Plan<'_>, i: u32, need: Need) -> Result<(), AllocError>
    requires { IsNeed (plan_graph plan.now) need }
    ensures { OnOk result (string_bytes text.new ≡ string_bytes text.old
        ++ drawings.arrow_line (plan_records plan.now) i need) }
{
    let start = arrow_start(plan, need);
    write!(text, "  {start} -> {i}").map_err(|_| AllocError)?;
    push_arrow_end(text, need)
}

/// Appends the arrows from the dependencies to request `i`.
fn push_arrows(text: &mut String, plan: &Plan<'_>, i: u32, needs: &[Need]) -> Result<(), AllocError>
    requires { All (IsNeed (plan_graph plan.now)) needs.now }
    ensures { OnOk result (string_bytes text.new ≡ string_bytes text.old
        ++ flat_map (drawings.arrow_line (plan_records plan.now) i) needs.now) }
{
    for need in needs {
        push_arrow(text, plan, i, *need)?;
    }
    Ok(())
}

/// Appends the lines of request `i`.
fn push_request(
    alloc: Global,
    text: &mut String,
    plan: &Plan<'_>,
    i: u32,
    row: u32,
) -> Result<(), AllocError>
    requires within { i < length (plan_records plan.now) }
    requires row { row ≡ row_at (plan_records plan.now) i }
    ensures { OnOk result (string_bytes text.new ≡ string_bytes text.old
        ++ drawings.lines_at (plan_records plan.now) i) }
{
    let _count = plan.len();
    let request = plan.request(i);
    push_node(alloc, text, i, request)?;
    push_cluster(alloc, text, plan.unit_of(i), i, request.group)?;
    push_rank(text, plan.level(i) as usize, row, i)?;
    push_arrows(text, plan, i, plan.needs(i))
}

/// Appends the lines of all requests, which are in these rows.
fn push_requests(
    alloc: Global,
    text: &mut String,
    plan: &Plan<'_>,
    rows: &[u32],
) -> Result<(), AllocError>
    requires { rows.now ≡ list_below (length (plan_records plan.now)) (row_at (plan_records plan.now)) }
    ensures { OnOk result (string_bytes text.new ≡ string_bytes text.old
        ++ joined_below (length (plan_records plan.now))
        (drawings.lines_at (plan_records plan.now))) }
{
    for i in 0..plan.len() {
        push_request(alloc, text, plan, i, rows[i as usize])?;
    }
    Ok(())
}

/// Returns the greatest level of a request.
fn greatest_level(plan: &Plan<'_>) -> u32
    ensures value { result ≡ drawings.greatest_level (plan_records plan.now) }
{
    let mut greatest = 0;
    for i in 0..plan.len() {
        greatest = plan.level(i).max(greatest);
    }
    greatest
}

/// Appends the line that puts a row above another one.
fn push_below(
    text: &mut String,
    level: usize,
    row: u32,
    next_level: usize,
    next_row: u32,
) -> Result<(), AllocError>
    ensures { OnOk result (string_bytes text.new
        ≡ string_bytes text.old ++ drawings.below_line level row next_level next_row) }
{
    text.push_str("  ")?;
    push_row_name(text, level, row)?;
    text.push_str(" -> ")?;
    push_row_name(text, next_level, next_row)?;
    text.push_str(" [style=invis]\n")
}

/// Appends the lines that put each row of a level above the next one, up to the row `end`.
fn push_rows_of(text: &mut String, level: usize, end: u32) -> Result<(), AllocError>
    ensures { OnOk result (string_bytes text.new ≡ string_bytes text.old
        ++ joined_below end (λ row. drawings.below_line level row level (row + 1))) }
{
    for row in 0..end {
        push_below(text, level, row, level, row + 1)?;
    }
    Ok(())
}

/// Returns the last row of a level.
fn end_of(plan: &Plan<'_>, ends: &[Row], level: usize) -> u32
    requires ends { AreEnds (plan_records plan.now) ends.now }
    requires within { level < length ends.now }
    ensures { result ≡ end_row (plan_records plan.now) level }
{
    ends[level].number
}

/// Appends the lines that put each row of a level above the next one, level by level.
fn push_rows(text: &mut String, plan: &Plan<'_>, ends: &[Row]) -> Result<(), AllocError>
    requires { AreEnds (plan_records plan.now) ends.now }
    ensures { OnOk result (string_bytes text.new ≡ string_bytes text.old
        ++ joined_below (length ends.now) (drawings.row_lines (plan_records plan.now))) }
{
    for level in 0..ends.len() {
        push_rows_of(text, level, end_of(plan, ends, level))?;
    }
    Ok(())
}

/// Appends the lines that put each level above the next one.
fn push_levels(
    text: &mut String,
    plan: &Plan<'_>,
    ends: &[Row],
    greatest: u32,
) -> Result<(), AllocError>
    requires ends { AreEnds (plan_records plan.now) ends.now }
    requires greatest { length ends.now ≡ greatest + 1 }
    ensures { OnOk result (string_bytes text.new ≡ string_bytes text.old
        ++ joined_below greatest (drawings.level_line (plan_records plan.now))) }
{
    for level in 0..greatest as usize {
        push_below(text, level, end_of(plan, ends, level), level + 1, 0)?;
    }
    Ok(())
}

/// Returns the drawing of a plan.
///
/// A request is a node, labeled with its identifier, method and URL. A group is a cluster, a dependency an
/// arrow, and a level one rank or more, with at most 12 requests each. A text of more than 40 characters
/// is cut to 38 and two points. Every text is quoted, so that none can change the drawing, and Graphviz
/// shows it as it is, with blanks for control characters. Takes O(n) time for n bytes of batch and text.
///
/// # Errors
///
/// `AllocError` if an allocation fails.
pub fn drawing_text(alloc: Global, plan: &Plan<'_>) -> Result<String, AllocError>
    ensures { IfOk result (λ text. string_bytes text
        ≡ drawings.drawing_text (plan_records plan.now)) }
{
    let greatest = greatest_level(plan);
    let rows = rows_of(alloc, plan, greatest)?;
    let mut text = String::from_str(
        alloc,
        "digraph plan {\n  compound=true; newrank=true; node [shape=box]\n",
    )?;
    push_requests(alloc, &mut text, plan, &rows.of_requests)?;
    push_rows(&mut text, plan, &rows.of_levels)?;
    push_levels(&mut text, plan, &rows.of_levels, greatest)?;
    text.push_str("}\n")?;
    Ok(text)
}
