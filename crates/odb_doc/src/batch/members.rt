//! The members of a request, found in one pass over its object.

ghost use Rattle.serde_json.specs.Data.{object, no_members};
ghost use Rattle.serde_json.specs.View.{view, members_view};
ghost use Rattle.odb_doc.specs.batch.MembersFound.{AreMembersOf, PutsMember};

use crate::member::is_annotation;
use serde_json::{Map, Value};

/// The values at the names that a request may have, and whether its object has an unknown name.
#[derive(Clone, Copy)]
pub(crate) struct Members<'a> {
    pub(crate) id: Option<&'a Value>,
    pub(crate) method: Option<&'a Value>,
    pub(crate) url: Option<&'a Value>,
    pub(crate) group: Option<&'a Value>,
    pub(crate) depends_on: Option<&'a Value>,
    pub(crate) condition: Option<&'a Value>,
    pub(crate) headers: Option<&'a Value>,
    pub(crate) body: Option<&'a Value>,
    pub(crate) has_unknown: bool,
}

impl<'a> Members<'a> {
    /// Records the member in its place. Inlined, it would move all nine values for each member.
    #[inline(never)]
    #[tactic(auto, unfolding(crate::specs::Members::is_unknown))]
    fn put(&mut self, name: &str, value: &'a Value)
        ensures { PutsMember name.now (view value.now) self.old self.new }
    {
        match name {
            "id" => self.id = Some(value),
            "url" => self.url = Some(value),
            "method" => self.method = Some(value),
            "dependsOn" => self.depends_on = Some(value),
            "headers" => self.headers = Some(value),
            "body" => self.body = Some(value),
            "atomicityGroup" => self.group = Some(value),
            "if" => self.condition = Some(value),
            _ => self.has_unknown = self.has_unknown || !is_annotation(name),
        }
    }

    /// No members.
    fn none() -> Self
        ensures { AreMembersOf (object no_members) result }
    {
        Members {
            id: None,
            method: None,
            url: None,
            group: None,
            depends_on: None,
            condition: None,
            headers: None,
            body: None,
            has_unknown: false,
        }
    }

    /// Finds the members of an object.
    #[inline(always)]
    fn among(members: &'a Map<String, Value>) -> Self
        ensures { AreMembersOf (object (members_view members.now.entries)) result }
    {
        let mut found = Members::none();
        for (name, value) in members.iter() {
            found.put(name.as_str(), value);
        }
        found
    }

    /// Finds the members of a value, which has none if it is not an object.
    #[inline(always)]
    pub(crate) fn of(element: &'a Value) -> Self
        ensures { AreMembersOf (view element.now) result }
    {
        match element.as_object() {
            Some(members) => Members::among(members),
            None => Members::none(),
        }
    }
}
