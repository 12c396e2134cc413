//! Looking into the objects of documents.

ghost use Rattle.std.specs.Prelude.{◌≡◌, ◌↔◌, ◌∷◌, [], codes, length, IsSome, IsTrue, IfNone, IfSome, OnSome, map, option_and_then, option_map, string_bytes};
ghost use Rattle.std.specs.List.{list_any};
ghost use Rattle.std.specs.BTreeMap.{keys};
ghost use Rattle.serde_json.specs.Find.{get, as_str, as_array, as_object};
ghost use Rattle.serde_json.specs.View.{view, items_view, members_view};
ghost use Rattle.odb_doc.specs.Members as spec;

use serde_json::{Map, Value};

/// The objects in documents of outcomes and of events, each with members of its own.
#[derive(Clone, Copy)]
pub(crate) enum Object {
    Outcomes,
    Outcome,
    Events,
    Start,
    Report,
}

/// Returns whether the name is one that both outcomes and reports may have.
fn is_of_answer(name: &str) -> bool
    ensures { result ≡ spec.is_one_of (codes "status" ∷ codes "headers" ∷ codes "body" ∷ [])
        name.now }
{
    matches!(name, "status" | "headers" | "body")
}

impl Object {
    /// Returns whether the object may have a member of this name.
    pub(crate) fn may_have(self, name: &str) -> bool
        ensures { result ≡ spec.is_one_of (spec.members_of self) name.now }
    {
        match self {
            Object::Outcomes => name == "outcomes",
            Object::Outcome => name == "id" || is_of_answer(name),
            Object::Events => name == "events",
            Object::Start => name == "start",
            Object::Report => name == "report" || is_of_answer(name),
        }
    }

    fn has_other_among(self, members: &Map<String, Value>) -> bool
        ensures { result ≡ list_any (λ name. spec.is_other (spec.members_of self)
            (string_bytes name)) (keys members.now) }
    {
        members.keys().any(|name| !self.may_have(name.as_str()))
    }

    /// Returns whether a member of the value, even an annotation, is not one that the object may have.
    pub(crate) fn has_other(self, value: &Value) -> bool
        ensures { IsTrue result ↔ spec.HasOther self (view value.now) }
    {
        match value.as_object() {
            Some(members) => self.has_other_among(members),
            None => false,
        }
    }

    /// Moves out the array at `name`, which is the one member that the object may have.
    pub(crate) fn elements_at(self, document: Value, name: &str) -> Option<Vec<Value>>
        ensures none { IfNone result (¬ spec.IsListObject self name.now (view document)) }
        ensures object { OnSome result (spec.IsListObject self name.now (view document)) }
        ensures elements { IfSome result (λ found. spec.elements_at name.now (view document)
            ≡ map view found.items) }
    {
        if self.has_other(&document) {
            return None;
        }
        array_of(member_of(document, name)?)
    }
}

/// Returns whether the name contains `@`, as that of an annotation does.
pub(crate) fn is_annotation(name: &str) -> bool
    ensures { result ≡ spec.is_annotation name.now }
{
    name.as_bytes().iter().any(|byte| *byte == b'@')
}

/// Returns the elements of the array at a member; `None` if there is no array.
pub fn array_at<'a>(value: &'a Value, name: &str) -> Option<&'a [Value]>
    ensures array { IsSome result ↔ IsSome (spec.array_at name.now (view value.now)) }
    ensures elements { IfSome result (λ found. spec.elements_at name.now (view value.now)
        ≡ map view found.now) }
    ensures len { IfSome result (λ found. length (spec.elements_at name.now (view value.now))
        ≡ length found.now) }
{
    Some(value.get(name)?.as_array()?.as_slice())
}

/// Returns the string at a member; `None` if there is no string.
pub fn text_at<'a>(value: &'a Value, name: &str) -> Option<&'a str>
    ensures { option_map (λ text. text.now) result ≡ spec.text_at name.now (view value.now) }
{
    value.get(name).and_then(Value::as_str)
}

/// Returns the string at a member, if any.
pub(crate) fn text_in(member: Option<&Value>) -> Option<&str>
    ensures { option_map (λ text. text.now) result
        ≡ option_and_then as_str (option_map (λ v. view v.now) member.entry) }
{
    member.and_then(Value::as_str)
}

/// Returns the value at a member, if any. Null is treated as absent.
pub(crate) fn given(member: Option<&Value>) -> Option<&Value>
    ensures { option_map (λ v. view v.now) result ≡ spec.given (option_map (λ v. view v.now) member.entry) }
{
    member.filter(|value| !value.is_null())
}

/// Moves out the string that the value is.
pub(crate) fn text_of(value: Value) -> Option<String>
    ensures { option_map string_bytes result ≡ as_str (view value) }
{
    match value {
        Value::String(text) => Some(text),
        _ => None,
    }
}

/// Moves out the members of an object.
pub(crate) fn into_members(value: Value) -> Option<Map<String, Value>>
    ensures { option_map (λ members. members_view members.entries) result ≡ as_object (view value) }
{
    match value {
        Value::Object(members) => Some(members),
        _ => None,
    }
}

/// Moves out the elements of an array.
fn array_of(value: Value) -> Option<Vec<Value>>
    ensures { option_map (λ elements. items_view elements.items) result ≡ as_array (view value) }
{
    match value {
        Value::Array(elements) => Some(elements),
        _ => None,
    }
}

/// Moves the value at a member out of an object.
fn member_of(value: Value, name: &str) -> Option<Value>
    ensures { option_map view result ≡ get name.now (view value) }
{
    let mut members = into_members(value)?;
    members.remove(name)
}

/// Returns the value. Null is treated as absent.
pub(crate) fn unless_null(value: Option<Value>) -> Option<Value>
    ensures { option_map view result ≡ spec.given (option_map view value) }
{
    value.filter(|member| !member.is_null())
}
