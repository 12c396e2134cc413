//! A line and a column of a text.

ghost use Rattle.std.specs.Prelude.{◌≡◌, ◌≤◌, ◌<◌, ◌+◌, ℕ, count_by, get_or, length, take, false};
ghost use Rattle.std.specs.List.{after_last};
ghost use Rattle.odb_spans.specs.Positions.{IsPosition, span_of};
ghost use Rattle.odb_spans.specs.Positions as spec;

use crate::span::Span;
use memchr::{memchr, memrchr};

/// A position in a text, and where what begins there ends.
#[derive(Clone, Copy, Debug, Drop, PartialEq, Eq)]
pub struct Position {
    /// Counted from 1. A line ends with a newline.
    pub line: usize,
    /// Counted from 1, in characters of UTF-8: in bytes that begin one.
    pub column: usize,
    /// The number of bytes before the position.
    pub offset: usize,
    /// The number of bytes before the end.
    pub end: usize,
}

/// Returns whether the byte begins a character of UTF-8.
fn begins_character(byte: u8) -> bool
    ensures { result ≡ spec.begins_character byte }
{
    byte < 128 || byte >= 192
}

/// A place in a line of a text, after which no line ends up to some offset.
#[derive(Clone, Copy)]
struct Reached {
    offset: usize,
    /// The column there.
    column: usize,
}

/// Returns where the last line of a text before an offset begins, or a position that is in it already.
fn line_reached(text: &[u8], from: Position, offset: usize) -> Reached
    requires counts { IsPosition text.now from }
    requires order { from.offset ≤ offset }
    requires within { offset ≤ length text.now }
    ensures column { result.column ≡ 1 + count_by spec.begins_character
        (after_last spec.is_newline (take result.offset text.now)) }
    ensures order { result.offset ≤ offset }
    ensures few { result.column ≤ 1 + result.offset }
    ensures one_line { (k : ℕ) → result.offset ≤ k → k < offset
        → spec.is_newline (get_or text.now k 0) ≡ false }
{
    match memrchr(b'\n', &text[from.offset..offset]) {
        Some(last) => Reached {
            offset: from.offset + last + 1,
            column: 1,
        },
        None => Reached {
            offset: from.offset,
            column: from.column,
        },
    }
}

/// Returns the line of an offset, counted on from an earlier position newline by newline.
fn counted_line(text: &[u8], from: Position, offset: usize) -> usize
    requires counts { IsPosition text.now from }
    requires order { from.offset ≤ offset }
    requires within { offset ≤ length text.now }
    ensures { result ≡ 1 + count_by spec.is_newline (take offset text.now) }
{
    let mut line = from.line;
    for at in from.offset..offset {
        if text[at] == b'\n' {
            line += 1;
        }
    }
    line
}

/// Returns the line of an offset, counted on from an earlier position.
fn line_at(text: &[u8], from: Position, offset: usize) -> usize
    requires counts { IsPosition text.now from }
    requires order { from.offset ≤ offset }
    requires within { offset ≤ length text.now }
    ensures { result ≡ 1 + count_by spec.is_newline (take offset text.now) }
{
    match memchr(b'\n', &text[from.offset..offset]) {
        Some(_) => counted_line(text, from, offset),
        None => from.line,
    }
}

/// Returns the column of an offset in the same line, character by character.
fn counted_column(text: &[u8], from: Reached, offset: usize) -> usize
    requires column { from.column ≡ 1 + count_by spec.begins_character
        (after_last spec.is_newline (take from.offset text.now)) }
    requires few { from.column ≤ 1 + from.offset }
    requires order { from.offset ≤ offset }
    requires within { offset ≤ length text.now }
    requires one_line { (k : ℕ) → from.offset ≤ k → k < offset
        → spec.is_newline (get_or text.now k 0) ≡ false }
    ensures { result ≡ 1 + count_by spec.begins_character
        (after_last spec.is_newline (take offset text.now)) }
{
    let mut column = from.column;
    for at in from.offset..offset {
        if begins_character(text[at]) {
            column += 1;
        }
    }
    column
}

/// Returns the column of an offset in the same line. Of ASCII each byte is a character.
fn column_at(text: &[u8], from: Reached, offset: usize) -> usize
    requires column { from.column ≡ 1 + count_by spec.begins_character
        (after_last spec.is_newline (take from.offset text.now)) }
    requires few { from.column ≤ 1 + from.offset }
    requires order { from.offset ≤ offset }
    requires within { offset ≤ length text.now }
    requires one_line { (k : ℕ) → from.offset ≤ k → k < offset
        → spec.is_newline (get_or text.now k 0) ≡ false }
    ensures { result ≡ 1 + count_by spec.begins_character
        (after_last spec.is_newline (take offset text.now)) }
{
    if text[from.offset..offset].is_ascii() {
        from.column + (offset - from.offset)
    } else {
        counted_column(text, from, offset)
    }
}

impl Position {
    /// The start of every text.
    pub(crate) const START: Position = Position {
        line: 1,
        column: 1,
        offset: 0,
        end: 0,
    };

    /// Returns this position, or the start of the text if the offset comes before it.
    fn not_after(self, _text: &[u8], offset: usize) -> Self
        requires { IsPosition _text.now self }
        ensures counts { IsPosition _text.now result }
        ensures order { result.offset ≤ offset }
    {
        if offset < self.offset {
            Position::START
        } else {
            self
        }
    }

    /// Returns the line and the column at which a span begins, and its end. They are counted on from this position, or
    /// from the start of the text if the span begins before it.
    pub(crate) fn moved_to(self, text: &[u8], span: Span) -> Self
        requires counts { IsPosition text.now self }
        requires order { span.start ≤ span.end }
        requires within { span.end ≤ length text.now }
        ensures counts { IsPosition text.now result }
        ensures span { span_of result ≡ span }
    {
        let offset = span.start;
        let from = self.not_after(text, offset);
        let line = line_at(text, from, offset);
        let column = column_at(text, line_reached(text, from, offset), offset);
        Position {
            line,
            column,
            offset,
            end: span.end,
        }
    }

    /// Returns the line and the column at which a span begins, and its end.
    pub(crate) fn at(text: &[u8], span: Span) -> Self
        requires order { span.start ≤ span.end }
        requires within { span.end ≤ length text.now }
        ensures counts { IsPosition text.now result }
        ensures span { span_of result ≡ span }
    {
        Position::START.moved_to(text, span)
    }
}
