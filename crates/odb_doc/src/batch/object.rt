//! The batch document as a whole: its rules, F03 to F06, and its elements.

ghost use Rattle.std.specs.Prelude.{◌≡◌, ◌↔◌, IsTrue, IfNone, IfSome, OnSome, map, string_bytes};
ghost use Rattle.std.specs.BTreeMap.{keys};
ghost use Rattle.std.specs.List.{list_any};
ghost use Rattle.serde_json.specs.View.{view};
ghost use Rattle.odb_doc.specs.batch.LeastFault.{IsBatchObject, IsLeastDocumentRule};
ghost use Rattle.odb_doc.specs.batch.Shapes.{BreaksDocument, elements};
ghost use Rattle.odb_doc.specs.Members.{HasUnknown, document_names};
ghost use Rattle.odb_doc.specs.Members as spec;

use crate::fault::DocumentRule;
use crate::member::{array_at, is_annotation};
use serde_json::{Map, Value};

/// The limit of F06.
const MAX_REQUESTS: usize = 10_000;

/// The rules of a document of which a value was read, by number.
pub(crate) const DOCUMENT_RULES: &'static [DocumentRule] = &[
    DocumentRule::NotObject,
    DocumentRule::NoRequests,
    DocumentRule::UnknownMember,
    DocumentRule::TooMany,
];

/// Returns whether the name is neither that of an annotation nor `requests`.
#[tactic(auto, unfolding(crate::specs::Members::is_unknown))]
fn is_unknown(name: &str) -> bool
    ensures { result ≡ spec.is_unknown document_names name.now }
{
    !is_annotation(name) && name != "requests"
}

fn has_unknown_among(members: &Map<String, Value>) -> bool
    ensures { result ≡ list_any (λ name. spec.is_unknown document_names (string_bytes name))
        (keys members.now) }
{
    members.keys().any(|name| is_unknown(name.as_str()))
}

/// Returns whether a member of the document is neither an annotation nor `requests`.
fn has_unknown(document: &Value) -> bool
    ensures { IsTrue result ↔ HasUnknown document_names (view document.now) }
{
    match document.as_object() {
        Some(members) => has_unknown_among(members),
        None => false,
    }
}

/// Returns the elements of `requests`; `None` if the document as a whole breaks a rule. The array is looked
/// up once.
pub(crate) fn elements_of(document: &Value) -> Option<&[Value]>
    ensures none { IfNone result (¬ IsBatchObject (view document.now)) }
    ensures some { OnSome result (IsBatchObject (view document.now)) }
    ensures elements { IfSome result (λ found. elements (view document.now) ≡ map view found.now) }
{
    let elements = array_at(document, "requests")?;
    if has_unknown(document) || elements.len() > MAX_REQUESTS {
        return None;
    }
    Some(elements)
}

/// Returns the elements of `requests`, none if there is no array.
pub(crate) fn elements_in(document: &Value) -> &[Value]
    ensures { elements (view document.now) ≡ map view result.now }
{
    array_at(document, "requests").unwrap_or(&[])
}

/// Returns whether the document as a whole breaks the rule. A value was read of it, so it is not too long,
/// and is JSON.
pub(crate) fn breaks(document: &Value, rule: DocumentRule) -> bool
    ensures { IsTrue result ↔ BreaksDocument rule (view document.now) }
{
    match rule {
        DocumentRule::TooLong | DocumentRule::NotJson => false,
        DocumentRule::NotObject => !document.is_object(),
        DocumentRule::NoRequests => document.is_object()
            && array_at(document, "requests").is_none(),
        DocumentRule::UnknownMember => has_unknown(document),
        DocumentRule::TooMany => elements_in(document).len() > MAX_REQUESTS,
    }
}

/// Returns the first rule that the document as a whole breaks, if any.
pub(crate) fn broken_rule(document: &Value) -> Option<DocumentRule>
    ensures none { IfNone result (IsBatchObject (view document.now)) }
    ensures least { IfSome result (IsLeastDocumentRule (view document.now)) }
{
    for rule in DOCUMENT_RULES {
        if breaks(document, *rule) {
            return Some(*rule);
        }
    }
    None
}
