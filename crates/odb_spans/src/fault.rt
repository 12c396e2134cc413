//! Where a document that is not JSON goes wrong.

ghost use Rattle.std.specs.Prelude.{◌≤◌, ◌<◌, ◌+◌, length, IfOk, OnErr};

use crate::byte::has_byte;
use crate::extent::value_end;
use crate::front::Front;
use crate::parsing::ParseError;
use crate::walk::past_blanks;
use memchr::memchr;
use serde_json::Value;
use std::alloc::{AllocError, Global};

/// Returns how many bytes precede a line and a column, both counted from 1 and the column in bytes; at
/// most the length of the document.
fn bytes_before(document: &[u8], line: usize, column: usize) -> usize
    ensures { result ≤ length document.now }
{
    let (mut start, mut newlines) = (0, line.saturating_sub(1));
    while newlines > 0 {
        let found = memchr(b'\n', &document[start..]).unwrap_or(document.len());
        start = document
            .len()
            .min(start.saturating_add(found).saturating_add(1));
        newlines -= 1;
    }
    let columns = column.saturating_sub(1);
    document.len().min(start.saturating_add(columns))
}

/// Returns the document up to its first byte that is not UTF-8, or the whole document. `guess` is where the parser
/// stopped: there, if there is such a byte. A character that the document cuts at its end is not one.
fn utf8_part(document: &[u8], guess: usize) -> &[u8]
    requires { guess ≤ length document.now }
    ensures { length result.now ≤ length document.now }
{
    let end = document.len().min(guess.saturating_add(4));
    match str::from_utf8(&document[guess..end]) {
        Err(error) if error.error_len().is_some() && error.valid_up_to() == 0 => &document[..guess],
        _ => document,
    }
}

/// Returns whether bytes may follow with which these are JSON, or none need to.
fn begins_json(alloc: Global, bytes: &[u8]) -> Result<bool, AllocError> {
    match Value::from_slice(alloc, bytes) {
        Ok(_) => Ok(true),
        Err(error) if error.is_memory() => Err(AllocError),
        Err(error) => Ok(error.is_eof()),
    }
}

/// Returns a number between two others: the middle, or one that is within reach of a guess.
fn between(low: usize, high: usize, guess: usize, reach: usize) -> usize
    requires { low + 1 < high }
    ensures above { low < result }
    ensures below { result < high }
{
    let middle = low + (high - low) / 2;
    let near = middle
        .max(guess.saturating_sub(reach))
        .min(guess.saturating_add(reach));
    near.max(low + 1).min(high - 1)
}

/// Returns how far the token at a position reaches, with the byte after it, which may be what is wrong with a
/// number or a word.
fn token_end(text: &[u8], start: usize) -> usize
    requires { start ≤ length text.now }
    ensures after { start ≤ result }
    ensures within { result ≤ length text.now }
{
    let end = value_end(text, start);
    if end == text.len() || has_byte(text, start, b'"') {
        end
    } else {
        end + 1
    }
}

/// A prefix of a text, whose first bytes are replaced by fewer.
#[derive(Drop)]
struct Part {
    bytes: Vec<u8>,
    /// How many bytes are replaced.
    from: usize,
    /// How many bytes replace them.
    short: usize,
}

impl Part {
    /// Returns the prefix of `text` that ends at `end`, with the short form of `front` in place of its first bytes.
    fn after(alloc: Global, text: &[u8], front: Front, end: usize) -> Result<Self, AllocError>
        requires order { front.end ≤ end }
        requires within { end ≤ length text.now }
    {
        let mut bytes = front.shortened(alloc)?;
        let short = bytes.len();
        bytes.extend_from_slice(&text[front.end..end])?;
        Ok(Part {
            bytes,
            from: front.end,
            short,
        })
    }

    /// Returns whether the text is [`begins_json`] up to a position.
    fn begins_json(&self, alloc: Global, end: usize) -> Result<bool, AllocError> {
        let end = self.short.saturating_add(end.saturating_sub(self.from));
        begins_json(alloc, &self.bytes[..self.bytes.len().min(end)])
    }
}

/// Returns the first byte of a text that cannot be there, or the end of the text if it only ends too soon. `guess` is
/// where the parser stopped: where the token of that byte begins, or the token after it. If only half a surrogate pair is
/// wrong, the position is that of its string.
fn first_wrong(alloc: Global, text: &[u8], guess: usize, is_eof: bool) -> Result<usize, AllocError>
    requires { guess ≤ length text.now }
    ensures { IfOk result (λ at. at ≤ length text.now) }
{
    let start = past_blanks(text, guess);
    let end = token_end(text, start);
    if end == text.len() && is_eof {
        return Ok(end);
    }
    let front = Front::before(text, start);
    let part = Part::after(alloc, text, front, end)?;
    if end < text.len() && part.begins_json(alloc, end)? {
        return Ok(start);
    }
    let (mut good, mut bad, mut reach) = (front.end, end, 0_usize);
    'search: while good + 1 < bad {
        let at = between(good, bad, start, reach);
        if part.begins_json(alloc, at)? {
            good = at;
        } else {
            bad = at;
        }
        reach = reach.saturating_mul(2).max(1);
    }
    Ok(good)
}

/// Returns the first byte of a document that cannot be there, or its end if it ends too soon, by what the parser
/// reports of it.
///
/// Costs O(n) for a document of n bytes, and O(k log k) for a wrong token of k bytes. What of it is UTF-8 is parsed once
/// more if that is not all.
///
/// # Errors
///
/// If an allocation fails. Not for an empty document.
pub(crate) fn fault_in(
    alloc: Global,
    document: &[u8],
    error: ParseError,
) -> Result<usize, AllocError>
    ensures within { IfOk result (λ at. at ≤ length document.now) }
    ensures memory { OnErr result (0 < length document.now) }
{
    if document.is_empty() {
        return Ok(0);
    }
    let guess = bytes_before(document, error.line, error.column);
    let text = utf8_part(document, guess);
    if text.len() == document.len() {
        return first_wrong(alloc, document, guess, error.is_eof);
    }
    match Value::from_slice(alloc, text) {
        Ok(_) => Ok(text.len()),
        Err(error) if error.is_memory() => Err(AllocError),
        Err(error) if error.is_eof() => Ok(text.len()),
        Err(error) => {
            let guess = bytes_before(text, error.line(), error.column());
            first_wrong(alloc, text, guess, error.is_eof())
        }
    }
}
