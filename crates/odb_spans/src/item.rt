//! The items of an array.

ghost use Rattle.std.specs.Prelude.{◌≤◌, ◌<◌, length, IfOk, OnErr};
ghost use Rattle.odb_spans.specs.Parts.{FindsItems, GivesItemsAt, GivesNext};

use crate::byte::has_byte;
use crate::extent::value_end;
use crate::span::Span;
use crate::walk::next;
use std::alloc::{AllocError, Global};

/// Returns where the next item of an array lies, none at its end. `at` is after its opening bracket or
/// an item.
pub(crate) fn next_item(document: &[u8], at: usize) -> Option<Span>
    requires { at ≤ length document.now }
    ensures { GivesNext document.now at result }
{
    match next(document, at) {
        Some(start) => Some(Span {
            start,
            end: value_end(document, start),
        }),
        None => None,
    }
}

/// Returns where the items of an array lie, in order. `start` is after its opening bracket.
fn items_among(alloc: Global, document: &[u8], start: usize) -> Result<Vec<Span>, AllocError>
    requires { start ≤ length document.now }
    ensures { IfOk result (λ found. FindsItems document.now start found.items) }
{
    let mut at = start;
    let mut items = Vec::new(alloc);
    'items: loop {
        let Some(item) = next_item(document, at) else {
            return Ok(items);
        };
        items.push(item)?;
        at = item.end;
    }
}

/// Returns where the items of the value at `at` lie, in order; none if the value is not an array.
///
/// # Errors
///
/// If memory for the list cannot be allocated.
pub(crate) fn items_at(alloc: Global, document: &[u8], at: usize) -> Result<Vec<Span>, AllocError>
    requires { at ≤ length document.now }
    ensures found { IfOk result (λ found. GivesItemsAt document.now at found.items) }
    ensures memory { OnErr result (at < length document.now) }
{
    if has_byte(document, at, b'[') {
        items_among(alloc, document, at + 1)
    } else {
        Ok(Vec::new(alloc))
    }
}
