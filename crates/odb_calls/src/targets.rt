//! Where a request is sent, by texts.

ghost use Rattle.std.specs.Prelude.{◌≡◌, Err, IfErr, IfOk, Ok, Some, map, string_bytes};
ghost use Rattle.odb_resolve.specs.Below.{IsSentBelow};
ghost use Rattle.odb_resolve.specs.Resolutions.{Explains, below_answer, own_url, text_in};
ghost use Rattle.odb_calls.specs.Returns.{Fills};
ghost use Rattle.odb_calls.specs.Targets as calls;

use crate::answer::give;
use crate::status::{OUT_OF_MEMORY, of_refusal};
use odb_engine::{Answer as Written, Ended};
use odb_resolve::{Answer, Known, Refusal, Request, ResolveError, Service, resolve};
use std::alloc::{AllocError, Global};
use std::str::from_utf8;

/// Returns the roots in a text, one a line.
fn roots_in<'a>(alloc: Global, text: &'a str) -> Result<Vec<&'a str>, AllocError>
    ensures { IfOk result (λ roots. map (λ root. root.now) roots.items ≡ calls.roots_in text.now) }
{
    text.split('\n').collect(alloc)
}

/// Returns where a request is sent that refers to no other.
fn own_url(alloc: Global, service: &Service<'_>, url: &str) -> Result<String, ResolveError>
    ensures sent { IfOk result (λ sent. own_url service.now url.now ≡ Ok (string_bytes sent)) }
    ensures refused { IfErr result (λ error. Explains error (own_url service.now url.now)) }
    ensures below { IfOk result (λ sent. IsSentBelow service.now.roots.now (string_bytes sent)) }
{
    let request = Request {
        url,
        reference: None,
        if_match: None,
        if_none_match: None,
    };
    match resolve(alloc, service, &[], &request) {
        Ok(resolved) => Ok(resolved.url),
        Err(error) => Err(error),
    }
}

/// Returns where a request is sent that refers to another with this answer.
fn url_below(
    alloc: Global,
    service: &Service<'_>,
    url: &str,
    answer: Answer<'_>,
) -> Result<String, ResolveError>
    ensures sent { IfOk result (λ sent. below_answer service.now.roots.now url.now (Some answer.entry) ≡ Ok (string_bytes sent)) }
    ensures refused { IfErr result (λ error. Explains error (below_answer service.now.roots.now url.now (Some answer.entry))) }
    ensures below { IfOk result (λ sent. IsSentBelow service.now.roots.now (string_bytes sent)) }
{
    let known = [Known {
        id: "",
        answer: Some(answer),
    }];
    let request = Request {
        url,
        reference: Some(""),
        if_match: None,
        if_none_match: None,
    };
    match resolve(alloc, service, &known, &request) {
        Ok(resolved) => Ok(resolved.url),
        Err(error) => Err(error),
    }
}

/// Returns a text, or `None` if it is empty.
fn some_text<'a>(text: &'a str) -> Option<&'a str>
    ensures { text_in result ≡ calls.some_text text.now }
{
    if text.is_empty() { None } else { Some(text) }
}

/// Returns what the request was answered that another one refers to.
fn answer_of<'a>(sent: &'a str, location: &'a str, post: u32) -> Answer<'a>
    ensures { calls.IsAnswer sent.now location.now post result }
{
    Answer {
        url: sent,
        location: some_text(location),
        is_post: post != 0,
        etag: None,
    }
}

/// Returns where a request is sent.
fn target<'a>(
    alloc: Global,
    service: &Service<'_>,
    url: &str,
    sent: &'a str,
    location: &'a str,
    post: u32,
) -> Result<String, ResolveError>
    ensures leads { IfOk result (λ text. calls.Leads service.now url.now sent.now location.now post (Ok (string_bytes text))) }
    ensures refused { IfErr result (calls.Refuses (λ refusal. calls.Leads service.now url.now sent.now location.now post (Err refusal))) }
    ensures below { IfOk result (λ text. IsSentBelow service.now.roots.now (string_bytes text)) }
{
    if sent.is_empty() {
        return own_url(alloc, service, url);
    }
    url_below(alloc, service, url, answer_of(sent, location, post))
}

/// Returns the service with a base and roots.
fn service_of<'a>(base: &'a str, roots: &'a [&'a str]) -> Service<'a>
    ensures base { result.base.now ≡ base.now }
    ensures roots { result.roots.now ≡ roots.now }
{
    Service { base, roots }
}

/// Returns where a request is sent, by texts: the roots are one a line.
fn target_in<'a>(
    alloc: Global,
    base: &'a str,
    roots: &'a str,
    url: &str,
    sent: &'a str,
    location: &'a str,
    post: u32,
) -> Result<String, ResolveError>
    ensures sent { IfOk result (λ text. calls.IsTarget base.now roots.now url.now sent.now location.now post (string_bytes text)) }
    ensures refused { IfErr result (calls.Refuses (calls.IsRefused base.now roots.now url.now sent.now location.now post)) }
{
    let roots = roots_in(alloc, roots)?;
    let service = service_of(base, &roots);
    target(alloc, &service, url, sent, location, post)
}

/// Returns where a request is sent, by the bytes of texts: `sent` is empty if the request refers to no other.
pub fn target_of<'a>(
    alloc: Global,
    base: &'a [u8],
    roots: &'a [u8],
    url: &[u8],
    sent: &'a [u8],
    location: &'a [u8],
    post: u32,
) -> Result<String, ResolveError>
    ensures sent { IfOk result (λ text. calls.IsTarget base.now roots.now url.now sent.now location.now post (string_bytes text)) }
    ensures refused { IfErr result (calls.Refuses (calls.IsRefused base.now roots.now url.now sent.now location.now post)) }
{
    let (Ok(base), Ok(roots), Ok(url), Ok(sent), Ok(location)) = (
        from_utf8(base),
        from_utf8(roots),
        from_utf8(url),
        from_utf8(sent),
        from_utf8(location),
    ) else {
        return Err(ResolveError::Refused(Refusal::Unreadable));
    };
    target_in(alloc, base, roots, url, sent, location, post)
}

/// Copies the URL of a request to the buffer if it fits, sets its length, and returns the status.
pub fn give_target(
    found: Result<String, ResolveError>,
    text: &mut [u8],
    text_length: &mut usize,
) -> u32
    ensures sent { IfOk found (λ url. Fills (string_bytes url) 0 result text_length.new text.old text.new) }
    ensures refused { IfErr found (λ error. calls.Ends error result text_length.new text.old text.new) }
{
    *text_length = 0;
    match found {
        Ok(url) => {
            let answer = Written {
                ended: Ended::Done,
                text: url.into_bytes(),
            };
            give(Ok(answer), text, text_length)
        }
        Err(ResolveError::Refused(refusal)) => of_refusal(refusal),
        Err(ResolveError::OutOfMemory) => OUT_OF_MEMORY,
    }
}
