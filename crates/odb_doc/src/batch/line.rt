//! The id, method, group and URL of a request.

ghost use Rattle.std.specs.Prelude.{ℕ, List, Option, MatchOption, IfNone, IfSome, option_map};
ghost use Rattle.serde_json.specs.Data.{Data};
ghost use Rattle.serde_json.specs.View.{view};
ghost use Rattle.odb_names.specs.declared.method.Method.{Method};
ghost use Rattle.odb_doc.specs.BrokenRules.{IsRequestObject};
ghost use Rattle.odb_doc.specs.batch.MembersFound.{AreMembersOf};
ghost use Rattle.odb_doc.specs.batch.Shapes.{HasId, HasMethod, HasGroup};

use crate::batch::members::Members;
use crate::member::{given, text_in};
use odb_names::{Method, is_request_id};
use serde_json::Value;

/// The members of a request that are one text each: id, method, URL and group.
#[derive(Clone, Copy)]
pub(crate) struct RequestLine<'a> {
    pub(crate) id: &'a str,
    pub(crate) method: Method,
    pub(crate) url: &'a str,
    pub(crate) group: Option<&'a str>,
}

/// Returns the identifier at `id`.
pub(crate) fn id_of<'a>(members: &Members<'a>) -> Option<&'a str>
    ensures { (d : Data) → AreMembersOf d members.now → MatchOption result
        ((id : List ℕ) → ¬ HasId d id) (λ id. HasId d id.now) }
{
    let id = text_in(members.id)?;
    is_request_id(id).then_some(id)
}

/// Returns the method that `method` names.
#[inline(always)]
pub(crate) fn method_of(members: &Members<'_>) -> Option<Method>
    ensures { (d : Data) → AreMembersOf d members.now → MatchOption result
        ((method : Method) → ¬ HasMethod d method) (HasMethod d) }
{
    Method::read(text_in(members.method)?)
}

/// Returns the group at `atomicityGroup`, if any; `None` if it is not an identifier.
#[inline(always)]
pub(crate) fn group_of<'a>(members: &Members<'a>) -> Option<Option<&'a str>>
    ensures { (d : Data) → AreMembersOf d members.now → MatchOption result
        ((group : Option (List ℕ)) → ¬ HasGroup d group)
        (λ group. HasGroup d (option_map (λ text. text.now) group)) }
{
    let Some(value) = given(members.group) else {
        return Some(None);
    };
    match value.as_str() {
        Some(id) if is_request_id(id) => Some(Some(id)),
        _ => None,
    }
}

impl<'a> RequestLine<'a> {
    ghost use Rattle.odb_doc.specs.batch.Lines.{IsLineOf};

    /// Reads the line of an element of `requests`; `None` if it breaks one of the rules F10 to F16.
    pub(crate) fn read(element: &'a Value, members: &Members<'a>) -> Option<Self>
        requires { AreMembersOf (view element.now) members.now }
        ensures line { IfSome result (IsLineOf (view element.now)) }
        ensures none { IfNone result (¬ IsRequestObject (view element.now)) }
    {
        if !element.is_object() {
            return None;
        }
        if members.condition.is_some() {
            return None;
        }
        if members.has_unknown {
            return None;
        }
        Some(RequestLine {
            id: id_of(members)?,
            method: method_of(members)?,
            url: text_in(members.url)?,
            group: group_of(members)?,
        })
    }
}
