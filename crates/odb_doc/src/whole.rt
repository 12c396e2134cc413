//! Whether each number of a JSON value is whole.

ghost use Rattle.std.specs.Prelude.{◌≡◌, ◌↔◌, false, option_map, IsTrue, IfSome};
ghost use Rattle.serde_json.specs.Find.{is_float};
ghost use Rattle.serde_json.specs.View.{view, number_view, items_view, members_view};
ghost use Rattle.serde_json.specs.Written.{items_have_float, members_have_float};
ghost use Rattle.odb_doc.specs.canonical.HeldValues.{IsHeld, IsHeldNumber, AreOrdered, AreItemsHeld, AreMembersHeld};
ghost use Rattle.odb_doc.specs.WholeNumbers.{IsWhole};

use serde_json::{Map, Number, Value};

/// Returns whether the number is an integer of 64 bits.
fn is_integer(number: &Number) -> bool
    ensures value { IsTrue result ↔ (is_float (number_view number.now) ≡ false) }
    ensures held { IsTrue result → IsHeldNumber (number_view number.now) }
{
    number.as_u64().is_some() || number.as_i64().is_some()
}

/// Returns whether each number in the value is whole: digits without a fraction and an exponent, from
/// -9223372036854775808 to 18446744073709551615, which alone the reader holds without loss.
///
/// It goes as deep as the value nests: no deeper than 127 in one that was read.
#[cycle(whole)]
pub fn is_whole(value: &Value) -> bool
    ensures value { IsTrue result ↔ IsWhole (view value.now) }
    ensures held { IsTrue result → IsHeld (view value.now) }
{
    match value {
        Value::Null | Value::Bool(_) | Value::String(_) => true,
        Value::Number(number) => is_integer(number),
        Value::Array(items) => are_items_whole(items),
        Value::Object(members) => are_members_whole(members),
    }
}

#[cycle(whole)]
fn are_items_whole(items: &Vec<Value>) -> bool
    ensures value { IsTrue result ↔ (items_have_float (items_view items.now.items) ≡ false) }
    ensures held { IsTrue result → AreItemsHeld (items_view items.now.items) }
{
    for item in items {
        if !is_whole(item) {
            return false;
        }
    }
    true
}

#[cycle(whole)]
fn are_members_whole(members: &Map<String, Value>) -> bool
    ensures value { IsTrue result
        ↔ (members_have_float (members_view members.now.entries) ≡ false) }
    ensures held { IsTrue result → AreOrdered (members_view members.now.entries)
        × AreMembersHeld (members_view members.now.entries) }
{
    for (_, member) in members.iter() {
        if !is_whole(member) {
            return false;
        }
    }
    true
}

/// Returns whether the body, if any, holds whole numbers alone.
pub fn has_whole_body(body: Option<&Value>) -> bool
    ensures value { IsTrue result ↔ IfSome (option_map (λ body. view body.now) body.entry) IsWhole }
    ensures held { IsTrue result → IfSome (option_map (λ body. view body.now) body.entry) IsHeld }
{
    match body {
        Some(value) => is_whole(value),
        None => true,
    }
}
