//! A position in a document, as numbers that C may read.

ghost use Rattle.std.specs.Prelude.{◌≡◌};
ghost use Rattle.odb_calls.specs.Places.{position_in};

use odb_spans::Position as Found;

/// Where an element begins and ends in a document.
#[repr(C)]
#[derive(Clone, Copy, Drop)]
pub struct Position {
    /// The line, from 1.
    pub line: usize,
    /// The column in the line, from 1, in characters.
    pub column: usize,
    /// How many bytes come before it.
    pub offset: usize,
    /// How many bytes come before its end.
    pub end: usize,
}

impl Position {
    /// Returns a position as numbers.
    pub fn of(found: Found) -> Position
        ensures { result ≡ position_in found }
    {
        Position {
            line: found.line,
            column: found.column,
            offset: found.offset,
            end: found.end,
        }
    }
}
