//! An outcome: a status, optional headers and an optional body.

ghost use Rattle.std.specs.Prelude.{◌≡◌, ℕ, List, [], false, None, option_map, bytes_eq, codes, IfOk, IfErr};
ghost use Rattle.std.specs.BTreeMap.{get_by_text};
ghost use Rattle.std.specs.Option.{option_map_or};
ghost use Rattle.serde_json.specs.Data.{object, no_members};
ghost use Rattle.serde_json.specs.View.{view, members_view};
ghost use Rattle.odb_doc.specs.declared.member.Object.{Object};
ghost use Rattle.odb_doc.specs.BrokenRules.{OnlyIf};
ghost use Rattle.odb_doc.specs.Headers.{headers_in};
ghost use Rattle.odb_doc.specs.Members.{members_of, outcome_names};
ghost use Rattle.odb_doc.specs.recorded.Outcomes.{HasOutcome};
ghost use Rattle.odb_doc.specs.recorded.RawOutcomes.{AreFoundIn, HasRawOutcome, PutsPart};

use crate::broken::Broken;
use crate::headers::headers_from;
use crate::member::{Object, text_of, unless_null};
use serde_json::{Map, Number, Value};
use std::alloc::{AllocError, Global};
use std::collections::BTreeMap;
use std::marker::Model;

/// The headers and the body of an answer that has one of them.
#[derive(Debug, Drop)]
struct Content {
    headers: BTreeMap<String, String>,
    body: Option<Value>,
}

/// How a request ended: what its service answered (OData JSON Format 4.01, section 19.5).
///
/// Contracts compare outcomes by value: two are equal if their statuses, headers and bodies are. An outcome is small: what it
/// has beside its status lies in a box.
#[derive(Debug, Drop)]
pub struct Outcome {
    /// The HTTP status. A run takes those from 200 to 599.
    pub status: u16,
    content: Option<Box<Content>>,
}

impl Model for Outcome {
    ghost use Rattle.odb_doc.specs.recorded.OutcomeValues.{OutcomeValue, outcome_code};

    ghost Value = { OutcomeValue };

    ghost coded = { outcome_code };

    ghost use Rattle.odb_doc.specs.recorded.Contents.{body_of, headers_of};

    ghost view = { λ outcome. record {
      status = outcome.status;
      headers = headers_of outcome.content;
      body = body_of outcome.content;
    } };
}

impl Outcome {
    /// Returns an outcome of a status alone. It allocates nothing.
    pub fn bare(status: u16) -> Outcome
        ensures { result ≡ record { status = status; headers = []; body = None } }
    {
        Outcome {
            status,
            content: None,
        }
    }

    /// Returns an outcome of its status, its headers by their names, and its body, if there is one.
    ///
    /// # Errors
    ///
    /// If memory for the box cannot be allocated, which a status alone does not need.
    pub fn new(
        alloc: Global,
        status: u16,
        headers: BTreeMap<String, String>,
        body: Option<Value>,
    ) -> Result<Outcome, AllocError>
        ensures { IfOk result (λ outcome. outcome ≡ record {
          status = status;
          headers = headers_in headers;
          body = option_map view body;
        }) }
    {
        if headers.is_empty() && body.is_none() {
            return Ok(Outcome::bare(status));
        }
        let content = Box::new(alloc, Content { headers, body })?;
        Ok(Outcome {
            status,
            content: Some(content),
        })
    }

    /// Returns the headers of the answer by their names, which are in lower case if they were read; `None` if it has
    /// neither headers nor a body.
    pub fn headers(&self) -> Option<&BTreeMap<String, String>>
        ensures { option_map_or (λ headers. headers_in headers.now) result [] ≡ self.now.headers }
    {
        match &self.content {
            Some(content) => Some(&content.headers),
            None => None,
        }
    }

    /// Returns the body of the answer, if it has one.
    pub fn body(&self) -> Option<&Value>
        ensures { option_map (λ body. view body.now) result ≡ self.now.body }
    {
        match &self.content {
            Some(content) => content.body.as_ref(),
            None => None,
        }
    }
}

/// The members that an outcome may have, moved out of its object, and whether it has another one.
#[derive(Drop)]
pub(crate) struct Parts {
    pub(crate) id: Option<String>,
    pub(crate) status: Option<Number>,
    pub(crate) headers: Option<Value>,
    pub(crate) body: Option<Value>,
    pub(crate) has_other: bool,
}

/// The values in an object of the shape of an outcome.
#[derive(Drop)]
pub(crate) struct RawOutcome {
    pub(crate) id: String,
    pub(crate) status: Number,
    pub(crate) headers: BTreeMap<String, String>,
    pub(crate) body: Option<Value>,
}

/// Moves the value at a member out of its object, and leaves null in its place.
pub(crate) fn moved(members: &mut Map<String, Value>, name: &str) -> Option<Value>
    ensures value { result ≡ get_by_text members.old name.now }
    ensures others { (other : List ℕ) → bytes_eq name.now other ≡ false
        → get_by_text members.new other ≡ get_by_text members.old other }
{
    let value = members.get_mut(name)?;
    Some(value.take())
}

impl Parts {
    /// No members.
    fn none() -> Self
        ensures { (kind : Object) (name : List ℕ) → AreFoundIn kind name (object no_members) result }
    {
        Parts {
            id: None,
            status: None,
            headers: None,
            body: None,
            has_other: false,
        }
    }

    /// Moves the value of a member to its place, and leaves null. The id is at `id_name`.
    fn put(&mut self, kind: Object, id_name: &str, name: &str, value: &mut Value)
        requires { members_of kind ≡ outcome_names id_name.now }
        ensures { PutsPart kind id_name.now name.now (view value.old) self.old self.new }
    {
        if id_name == name {
            self.id = text_of(value.take());
        } else if name == "status" {
            self.status = value.as_number().copied();
        } else if name == "headers" {
            self.headers = Some(value.take());
        } else if name == "body" {
            self.body = Some(value.take());
        } else {
            self.has_other = true;
        }
    }

    /// Moves the members out of an object.
    fn among(kind: Object, id_name: &str, members: &mut Map<String, Value>) -> Self
        requires { members_of kind ≡ outcome_names id_name.now }
        ensures { AreFoundIn kind id_name.now (object (members_view members.old.entries)) result }
    {
        let mut parts = Parts::none();
        for (name, value) in members.iter_mut() {
            parts.put(kind, id_name, name.as_str(), value);
        }
        parts
    }
}

/// Moves the values out of the element, or returns `bad` if it does not have the shape of an outcome
/// with its id at `name`.
pub(crate) fn raw_outcome_of<R: Copy>(
    alloc: Global,
    kind: Object,
    name: &str,
    element: &mut Value,
    bad: R,
) -> Result<RawOutcome, Broken<R>>
    requires { members_of kind ≡ outcome_names name.now }
    ensures has { IfOk result (HasRawOutcome kind name.now (view element.old)) }
    ensures none { IfErr result (OnlyIf bad (¬ HasOutcome kind name.now (view element.old))) }
{
    let Some(members) = element.as_object_mut() else {
        return Err(Broken::Rule(bad));
    };
    let parts = Parts::among(kind, name, members);
    if parts.has_other {
        return Err(Broken::Rule(bad));
    }
    let headers = headers_from(alloc, parts.headers, bad)?;
    match (parts.id, parts.status) {
        (Some(id), Some(status)) => Ok(RawOutcome {
            id,
            status,
            headers,
            body: unless_null(parts.body),
        }),
        _ => Err(Broken::Rule(bad)),
    }
}
