//! Where a request is sent, and under which conditions.

ghost use Rattle.std.specs.Prelude.{◌≡◌, drop, option_and_then, option_copied, string_bytes, IfErr, IfOk, Ok};
ghost use Rattle.odb_resolve.specs.Below.{IsSentBelow};
ghost use Rattle.odb_resolve.specs.Classes.{url_of_target};
ghost use Rattle.odb_resolve.specs.Resolutions.{Explains, allowed, answer_of, below_answer, condition, continues, is_unreadable, known_as, named_location, own_url, place_by, resolution, sending, text_in, url_by, value_of};

use crate::join::{extended, join};
use crate::parts::Parts;
use crate::refusal::{Refusal, ResolveError};
use crate::request::{Answer, Known, Request, Service};
use crate::root::within;
use crate::safety::is_ascii_control;
use crate::target::Target;
use std::alloc::Global;

/// What is sent of a request.
#[derive(Debug, Drop)]
pub struct Resolved<'a> {
    /// The absolute URL, in ASCII and without a fragment.
    pub url: String,
    /// The value of `If-Match`, without a reference.
    pub if_match: Option<&'a str>,
    /// The value of `If-None-Match`, without a reference.
    pub if_none_match: Option<&'a str>,
}

/// Returns whether the text has an ASCII control character, which no URL has.
fn is_unreadable(text: &str) -> bool
    ensures { result ≡ is_unreadable text.now }
{
    text.as_bytes().iter().any(|byte| is_ascii_control(*byte))
}

/// Returns whether the text may follow a reference.
fn continues(text: &str) -> bool
    ensures { result ≡ continues text.now }
{
    !is_unreadable(text) && matches!(text.as_bytes(), [] | [b'/' | b'?' | b'#', ..])
}

/// Returns the URL as it is sent, if it leads below a root.
fn allowed(alloc: Global, roots: &[&str], target: &Target<'_>) -> Result<String, ResolveError>
    ensures url { IfOk result (λ url. allowed roots.now (url_of_target target.now) ≡ Ok (string_bytes url)) }
    ensures refusal { IfErr result (λ error. Explains error (allowed roots.now (url_of_target target.now))) }
{
    match within(alloc, roots, target)? {
        Some(url) => Ok(url),
        None => Err(ResolveError::Refused(Refusal::Outside)),
    }
}

/// Returns where a request is sent that refers to no other.
fn own_url(alloc: Global, service: &Service<'_>, text: &str) -> Result<String, ResolveError>
    ensures url { IfOk result (λ url. own_url service.now text.now ≡ Ok (string_bytes url)) }
    ensures refusal { IfErr result (λ error. Explains error (own_url service.now text.now)) }
{
    if is_unreadable(text) {
        return Err(ResolveError::Refused(Refusal::Unreadable));
    }
    let base = Parts::read(service.base.as_bytes());
    let target = join(alloc, &base, &Parts::read(text.as_bytes()))?;
    allowed(alloc, service.roots, &target)
}

/// Returns the Location of an answer: an empty one names nothing, and is as none.
fn named_location<'a>(answer: &Answer<'a>) -> Option<&'a str>
    ensures { result ≡ named_location answer.now.location }
{
    match answer.location {
        Some(location) if location.is_empty() => None,
        location => location,
    }
}

/// Returns the URL of what a request has made or returned.
fn place<'a>(alloc: Global, answer: &Answer<'a>) -> Result<Target<'a>, ResolveError>
    ensures url { IfOk result (λ target. place_by answer.now (named_location answer.now.location) ≡ Ok (url_of_target target)) }
    ensures refusal { IfErr result (λ error. Explains error (place_by answer.now (named_location answer.now.location))) }
{
    let own = Parts::read(answer.url.as_bytes());
    match named_location(answer) {
        None if answer.is_post => Err(ResolveError::Refused(Refusal::NoLocation)),
        None => Ok(Target::copy(alloc, &own)?),
        Some(location) if is_unreadable(location) => Err(ResolveError::Refused(
            Refusal::Unreadable,
        )),
        Some(location) => Ok(join(alloc, &own, &Parts::read(location.as_bytes()))?),
    }
}

/// Returns where a request is sent that refers to another with this answer.
fn below_answer(
    alloc: Global,
    roots: &[&str],
    text: &str,
    answer: Option<Answer<'_>>,
) -> Result<String, ResolveError>
    ensures url { IfOk result (λ url. below_answer roots.now text.now answer.entry ≡ Ok (string_bytes url)) }
    ensures refusal { IfErr result (λ error. Explains error (below_answer roots.now text.now answer.entry)) }
{
    let Some(answer) = answer else {
        return Err(ResolveError::Refused(Refusal::NotAnswered));
    };
    let place = place(alloc, &answer)?;
    if !continues(text) {
        return Err(ResolveError::Refused(Refusal::Unreadable));
    }
    let target = extended(place, text.as_bytes())?;
    allowed(alloc, roots, &target)
}

/// Returns the request with the id.
fn known_as<'a>(known: &[Known<'a>], id: &[u8]) -> Option<Known<'a>>
    ensures { result ≡ known_as known.now id.now }
{
    known.iter().copied().find(|one| one.id.as_bytes() == id)
}

/// Returns the URL to which a request is sent.
fn url_of(
    alloc: Global,
    service: &Service<'_>,
    known: &[Known<'_>],
    request: &Request<'_>,
) -> Result<String, ResolveError>
    ensures url { IfOk result (λ url. url_by service.now known.now request.now.url.now request.now.reference ≡ Ok (string_bytes url)) }
    ensures refusal { IfErr result (λ error. Explains error (url_by service.now known.now request.now.url.now request.now.reference)) }
{
    match request.reference {
        None => own_url(alloc, service, request.url),
        Some(id) => {
            let answer = known_as(known, id.as_bytes()).and_then(|one| one.answer);
            below_answer(alloc, service.roots, request.url, answer)
        }
    }
}

/// Returns the value of a header, with the ETag in place of `$` and the id of a request.
fn value_of<'a>(known: &[Known<'a>], value: &'a str) -> Result<&'a str, ResolveError>
    ensures value { IfOk result (λ text. value_of known.now value.now ≡ Ok text.now) }
    ensures refusal { IfErr result (λ error. Explains error (value_of known.now value.now)) }
{
    let [b'$', id @ ..] = value.as_bytes() else {
        return Ok(value);
    };
    let Some(one) = known_as(known, id) else {
        return Ok(value);
    };
    let Some(answer) = one.answer else {
        return Err(ResolveError::Refused(Refusal::NotAnswered));
    };
    answer.etag.ok_or(ResolveError::Refused(Refusal::NoTag))
}

/// Returns the value of a header that the request may lack.
fn condition<'a>(
    known: &[Known<'a>],
    value: Option<&'a str>,
) -> Result<Option<&'a str>, ResolveError>
    ensures value { IfOk result (λ text. condition known.now value.entry ≡ Ok (text_in text)) }
    ensures refusal { IfErr result (λ error. Explains error (condition known.now value.entry)) }
{
    match value {
        None => Ok(None),
        Some(value) => Ok(Some(value_of(known, value)?)),
    }
}

/// Returns what is sent of a request: its URL, below one of the roots, and its conditions.
///
/// A URL is joined to the base, a reference is replaced by the `Location` of that answer, or by the URL to which its
/// request was sent (OData JSON Format 4.01, section 19.2), and `$` and an id in a condition by the ETag of that answer
/// (section 19.3). A condition that names none of `known` stays as it is. Bytes that no URL has are percent-encoded. Costs
/// O(lengths of the URLs and roots + length of `known`).
///
/// # Errors
///
/// The refusal of the URL, else of `If-Match`, else of `If-None-Match`; `OutOfMemory` if an allocation fails.
pub fn resolve<'a>(
    alloc: Global,
    service: &Service<'_>,
    known: &[Known<'a>],
    request: &Request<'a>,
) -> Result<Resolved<'a>, ResolveError>
    ensures sent { IfOk result (λ resolved. resolution service.now known.now request.now ≡ Ok (sending resolved)) }
    ensures refused { IfErr result (λ error. Explains error (resolution service.now known.now request.now)) }
    ensures below { IfOk result (λ resolved. IsSentBelow service.now.roots.now (string_bytes resolved.url)) }
{
    let url = url_of(alloc, service, known, request)?;
    let if_match = condition(known, request.if_match)?;
    let if_none_match = condition(known, request.if_none_match)?;
    Ok(Resolved {
        url,
        if_match,
        if_none_match,
    })
}
