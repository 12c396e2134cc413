//! Faults as lines of words, or as compact JSON, and where they are if that is printed: in front of their words, as compilers
//! have it, or as members of their JSON.

ghost use Rattle.std.specs.Prelude.{◌≡◌, ◌++◌, IfOk, OnOk, map, string_bytes};
ghost use Rattle.odb_doc.specs.Refusals.{printed};
ghost use Rattle.odb_text.specs.Lines as lines;
ghost use Rattle.odb_text.specs.Lines.{printed_at};
ghost use Rattle.odb_text.specs.ResultParts.{fault_part, listed_part, position_part};
ghost use Rattle.odb_text.specs.Results.{fault_value, faults_value, json_line};

use crate::lines::place_text;
use crate::results::push_string;
use odb_doc::Refusal;
use odb_doc::text::push_if;
use odb_spans::Position;
use std::alloc::{AllocError, Global};
use std::fmt::Write;

/// A fault, and where it is in its document if that is printed.
#[derive(Clone, Copy, Debug, PartialEq, Eq)]
pub struct Located {
    pub refusal: Refusal,
    pub position: Option<Position>,
}

/// Appends `NAME:LINE:COLUMN: ` if there is a position.
fn push_place(text: &mut String, name: &str, position: Option<Position>) -> Result<(), AllocError>
    ensures { OnOk result (string_bytes text.new
        ≡ string_bytes text.old ++ lines.position_text name.now position) }
{
    let Some(position) = position else {
        return Ok(());
    };
    let (line, column) = (position.line, position.column);
    write!(text, "{name}:{line}:{column}: ").map_err(|_| AllocError)
}

/// Appends the line of a fault.
fn push_line(alloc: Global, text: &mut String, name: &str, fault: Located) -> Result<(), AllocError>
    ensures { OnOk result (string_bytes text.new ≡ string_bytes text.old
        ++ lines.located_line name.now (printed_at fault)) }
{
    push_place(text, name, fault.position)?;
    let place = place_text(alloc, fault.refusal.place)?;
    let (code, name) = (fault.refusal.code, fault.refusal.name);
    write!(text, "fault {code} {name} {place}\n").map_err(|_| AllocError)
}

/// Returns the line of a fault: `fault CODE NAME PLACE`, where the place is `batch`, `outcomes`, `responses` or
/// `events`, or the path to an element, as `/requests/3`. With a position it is `NAME:LINE:COLUMN: fault CODE NAME PLACE`,
/// in the document of this name.
///
/// # Errors
///
/// `AllocError` if an allocation fails.
pub fn fault_line(alloc: Global, name: &str, fault: Located) -> Result<String, AllocError>
    ensures { IfOk result (λ line. string_bytes line ≡ lines.located_line name.now (printed_at fault)) }
{
    let mut line = String::new(alloc);
    push_line(alloc, &mut line, name, fault)?;
    Ok(line)
}

/// Returns a line for each fault of the document of this name, in this order, as [`fault_line`] does.
///
/// # Errors
///
/// `AllocError` if an allocation fails.
pub fn fault_lines(alloc: Global, name: &str, faults: &[Located]) -> Result<String, AllocError>
    ensures { IfOk result (λ text. string_bytes text
        ≡ lines.located_lines name.now (map printed_at faults.now)) }
{
    let mut text = String::new(alloc);
    for fault in faults {
        push_line(alloc, &mut text, name, *fault)?;
    }
    Ok(text)
}

/// Appends the members `code`, `name` and `place` of a fault.
fn push_members(alloc: Global, text: &mut String, refusal: Refusal) -> Result<(), AllocError>
    ensures { OnOk result (string_bytes text.new
        ≡ string_bytes text.old ++ fault_part (printed refusal)) }
{
    let place = place_text(alloc, refusal.place)?;
    push_string(alloc, text, "\"code\":", refusal.code)?;
    push_string(alloc, text, ",\"name\":", refusal.name)?;
    push_string(alloc, text, ",\"place\":", place.as_str())
}

/// Appends the members `line`, `column` and `offset`, each with a comma first, if there is a position.
fn push_position(text: &mut String, position: Option<Position>) -> Result<(), AllocError>
    ensures { OnOk result (string_bytes text.new ≡ string_bytes text.old ++ position_part position) }
{
    let Some(position) = position else {
        return Ok(());
    };
    let (line, column, offset) = (position.line, position.column, position.offset);
    write!(
        text,
        ",\"line\":{line},\"column\":{column},\"offset\":{offset}"
    )
    .map_err(|_| AllocError)
}

/// Appends a fault as an object of JSON, with a comma first if one comes before it.
fn push_listed(
    alloc: Global,
    text: &mut String,
    later: bool,
    fault: Located,
) -> Result<(), AllocError>
    ensures { OnOk result (string_bytes text.new ≡ string_bytes text.old
        ++ listed_part later (printed_at fault)) }
{
    push_if(text, later, ",")?;
    text.push_str("{")?;
    push_members(alloc, text, fault.refusal)?;
    push_position(text, fault.position)?;
    text.push_str("}")
}

/// Returns a fault as a line of JSON: `{"fault":{"code":CODE,"name":NAME,"place":PLACE}}`. With a position the members
/// `"line":LINE,"column":COLUMN,"offset":OFFSET` follow.
///
/// # Errors
///
/// `AllocError` if an allocation fails.
pub fn fault_json(alloc: Global, fault: Located) -> Result<String, AllocError>
    ensures { IfOk result (λ line. string_bytes line ≡ json_line (fault_value (printed_at fault))) }
{
    let mut text = String::from_str(alloc, "{\"fault\":")?;
    push_listed(alloc, &mut text, false, fault)?;
    text.push_str("}\n")?;
    Ok(text)
}

/// Returns faults as a line of JSON: `{"faults":[..]}`, each an object as in [`fault_json`], in this order.
///
/// # Errors
///
/// `AllocError` if an allocation fails.
pub fn faults_json(alloc: Global, faults: &[Located]) -> Result<String, AllocError>
    ensures { IfOk result (λ text. string_bytes text
        ≡ json_line (faults_value (map printed_at faults.now))) }
{
    let mut text = String::from_str(alloc, "{\"faults\":[")?;
    let mut later = false;
    for fault in faults {
        push_listed(alloc, &mut text, later, *fault)?;
        later = true;
    }
    text.push_str("]}\n")?;
    Ok(text)
}
