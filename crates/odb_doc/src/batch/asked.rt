//! The rules of a request, F10 to F23, each asked for itself, whatever others the request breaks.
//!
//! The reading of a request finds only that it breaks one, by the same tests; which one, and which others, is
//! asked here.

ghost use Rattle.std.specs.Prelude.{◌≡◌, ◌↔◌, IsTrue, IfNone, IfOk, IfSome};
ghost use Rattle.serde_json.specs.View.{view};
ghost use Rattle.odb_doc.specs.BrokenRules.{IsLeastRequestRule, IsRequestObject};
ghost use Rattle.odb_doc.specs.declared.fault.RequestRule.TheVariants as rules;
ghost use Rattle.odb_doc.specs.batch.Shapes.{BreaksRequest};

use crate::batch::body::is_allowed;
use crate::batch::depends_on::listed_names;
use crate::batch::headers::{has_name_twice, headers_of, listed_headers};
use crate::batch::line::{group_of, id_of, method_of};
use crate::batch::members::Members;
use crate::fault::RequestRule;
use crate::member::{given, text_in};
use odb_names::{Front, front, is_nested_batch};
use serde_json::Value;
use std::alloc::{AllocError, Global};

/// The rules of a request, by number.
pub(crate) const REQUEST_RULES: &'static [RequestRule] = &[
    RequestRule::NotRequestObject,
    RequestRule::IfMember,
    RequestRule::UnknownRequestMember,
    RequestRule::BadId,
    RequestRule::BadMethod,
    RequestRule::BadUrl,
    RequestRule::BadGroup,
    RequestRule::BadDependsOn,
    RequestRule::BadHeaders,
    RequestRule::HeaderTwice,
    RequestRule::BodyNotAllowed,
    RequestRule::BadBody,
    RequestRule::NestedBatch,
    RequestRule::BadReference,
];

/// An element of `requests` with its members.
#[derive(Clone, Copy)]
pub(crate) struct Asked<'a> {
    element: &'a Value,
    members: Members<'a>,
}

impl<'a> Asked<'a> {
    ghost use Rattle.odb_doc.specs.Asked.{HasMembers, asked};

    /// Finds the members of the element.
    pub(crate) fn of(element: &'a Value) -> Self
        ensures element { asked result ≡ view element.now }
        ensures members { HasMembers result }
    {
        Asked {
            element,
            members: Members::of(element),
        }
    }

    /// F13: whether the `id` of an object is missing or not an identifier.
    fn has_bad_id(&self) -> bool
        requires { HasMembers self.now }
        ensures { IsTrue result ↔ BreaksRequest rules.BadId (asked self.now) }
    {
        self.element.is_object() && id_of(&self.members).is_none()
    }

    /// F14: whether the `method` of an object is missing or no method.
    fn has_bad_method(&self) -> bool
        requires { HasMembers self.now }
        ensures { IsTrue result ↔ BreaksRequest rules.BadMethod (asked self.now) }
    {
        self.element.is_object() && method_of(&self.members).is_none()
    }

    /// F15: whether the `url` of an object is missing or not a string.
    fn has_bad_url(&self) -> bool
        requires { HasMembers self.now }
        ensures { IsTrue result ↔ BreaksRequest rules.BadUrl (asked self.now) }
    {
        self.element.is_object() && text_in(self.members.url).is_none()
    }

    /// F16: whether the `atomicityGroup` of an object is not an identifier.
    fn has_bad_group(&self) -> bool
        requires { HasMembers self.now }
        ensures { IsTrue result ↔ BreaksRequest rules.BadGroup (asked self.now) }
    {
        self.element.is_object() && group_of(&self.members).is_none()
    }

    /// F17: whether the `dependsOn` of an object is not an array of strings.
    fn has_bad_names(&self, alloc: Global) -> Result<bool, AllocError>
        requires { HasMembers self.now }
        ensures { IfOk result (λ bad. IsTrue bad ↔ BreaksRequest rules.BadDependsOn (asked self.now)) }
    {
        let names = listed_names(alloc, self.members.depends_on)?;
        Ok(self.element.is_object() && names.is_none())
    }

    /// F18: whether the `headers` of an object are not an object of strings.
    fn has_bad_headers(&self, alloc: Global) -> Result<bool, AllocError>
        requires { HasMembers self.now }
        ensures { IfOk result (λ bad. IsTrue bad ↔ BreaksRequest rules.BadHeaders (asked self.now)) }
    {
        let headers = listed_headers(alloc, self.members.headers)?;
        Ok(self.element.is_object() && headers.is_none())
    }

    /// F19: whether two names in `headers` differ in ASCII case alone.
    fn has_header_twice(&self, alloc: Global) -> Result<bool, AllocError>
        requires { HasMembers self.now }
        ensures { IfOk result (λ twice. IsTrue twice ↔ BreaksRequest rules.HeaderTwice (asked self.now)) }
    {
        let Some(value) = self.members.headers else {
            return Ok(false);
        };
        match value.as_object() {
            Some(headers) => has_name_twice(alloc, headers),
            None => Ok(false),
        }
    }

    /// F20: whether there is a `body`, though the method takes none.
    fn has_body_not_allowed(&self) -> bool
        requires { HasMembers self.now }
        ensures { IsTrue result ↔ BreaksRequest rules.BodyNotAllowed (asked self.now) }
    {
        match method_of(&self.members) {
            Some(method) => !method.takes_body() && given(self.members.body).is_some(),
            None => false,
        }
    }

    /// F21: whether the headers can be read, and their `content-type` does not allow the `body`.
    fn has_bad_body(&self, alloc: Global) -> Result<bool, AllocError>
        requires { HasMembers self.now }
        ensures { IfOk result (λ bad. IsTrue bad ↔ BreaksRequest rules.BadBody (asked self.now)) }
    {
        let Some(body) = given(self.members.body) else {
            return Ok(false);
        };
        match headers_of(alloc, &self.members)? {
            Some(headers) => Ok(!is_allowed(alloc, &headers, body)?),
            None => Ok(false),
        }
    }

    /// F22: whether the `url` names a batch.
    fn has_nested_batch(&self, alloc: Global) -> Result<bool, AllocError>
        requires { HasMembers self.now }
        ensures { IfOk result (λ nested. IsTrue nested ↔ BreaksRequest rules.NestedBatch (asked self.now)) }
    {
        match text_in(self.members.url) {
            Some(url) => is_nested_batch(alloc, url),
            None => Ok(false),
        }
    }

    /// F23: whether the `url` begins with `$` and refers to nothing.
    fn has_bad_reference(&self, alloc: Global) -> Result<bool, AllocError>
        requires { HasMembers self.now }
        ensures { IfOk result (λ bad. IsTrue bad ↔ BreaksRequest rules.BadReference (asked self.now)) }
    {
        match text_in(self.members.url) {
            Some(url) => Ok(matches!(front(alloc, url)?, Front::Bad)),
            None => Ok(false),
        }
    }

    /// Returns whether the request breaks the rule.
    pub(crate) fn breaks(&self, alloc: Global, rule: RequestRule) -> Result<bool, AllocError>
        requires { HasMembers self.now }
        ensures { IfOk result (λ broken. IsTrue broken ↔ BreaksRequest rule (asked self.now)) }
    {
        match rule {
            RequestRule::NotRequestObject => Ok(!self.element.is_object()),
            RequestRule::IfMember => Ok(self.members.condition.is_some()),
            RequestRule::UnknownRequestMember => Ok(self.members.has_unknown),
            RequestRule::BadId => Ok(self.has_bad_id()),
            RequestRule::BadMethod => Ok(self.has_bad_method()),
            RequestRule::BadUrl => Ok(self.has_bad_url()),
            RequestRule::BadGroup => Ok(self.has_bad_group()),
            RequestRule::BadDependsOn => self.has_bad_names(alloc),
            RequestRule::BadHeaders => self.has_bad_headers(alloc),
            RequestRule::HeaderTwice => self.has_header_twice(alloc),
            RequestRule::BodyNotAllowed => Ok(self.has_body_not_allowed()),
            RequestRule::BadBody => self.has_bad_body(alloc),
            RequestRule::NestedBatch => self.has_nested_batch(alloc),
            RequestRule::BadReference => self.has_bad_reference(alloc),
        }
    }

    /// Returns the first rule that the request breaks, if any.
    pub(crate) fn broken_rule(&self, alloc: Global) -> Result<Option<RequestRule>, AllocError>
        requires { HasMembers self.now }
        ensures none { IfOk result (λ first. IfNone first (IsRequestObject (asked self.now))) }
        ensures least { IfOk result (λ first. IfSome first (IsLeastRequestRule (asked self.now))) }
    {
        for rule in REQUEST_RULES {
            if self.breaks(alloc, *rule)? {
                return Ok(Some(*rule));
            }
        }
        Ok(None)
    }
}
