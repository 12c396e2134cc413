//! What is open before a position in a text, as a short text after which a parser expects the same.

ghost use Rattle.std.specs.Prelude.{◌≡◌, ◌≤◌, length, IfSome};

use memchr::memchr2;
use std::alloc::{AllocError, Global};

/// What a [`Front`] ends with.
#[derive(Clone, Copy, PartialEq, Eq)]
enum Last {
    Nothing,
    Open,
    Close,
    Comma,
}

/// The front of a text, up to a bracket or a comma.
#[derive(Clone, Copy)]
pub(crate) struct Front {
    /// How many bytes it has.
    pub(crate) end: usize,
    /// A bit for each open bracket, that of the innermost the lowest, set for `{`.
    open: u128,
    depth: u32,
    last: Last,
}

/// Returns where a string ends of which the bytes from a position are left: after its closing quote, or at `end`.
fn string_end(text: &[u8], from: usize, end: usize) -> usize
    requires order { from ≤ end }
    requires within { end ≤ length text.now }
    ensures after { from ≤ result }
    ensures within { result ≤ end }
{
    let mut at = from;
    while at < end {
        let found = memchr2(b'"', b'\\', &text[at..end]).unwrap_or(end);
        at = end.min(at.saturating_add(found));
        if at < end && text[at] == b'"' {
            return at + 1;
        }
        at = end.min(at.saturating_add(2));
    }
    end
}

impl Front {
    const NOTHING: Front = Front {
        end: 0,
        open: 0,
        depth: 0,
        last: Last::Nothing,
    };

    /// Returns the front that ends with this byte, if that is a bracket or a comma; `end` is where it ends.
    fn with(self, byte: u8, end: usize) -> Option<Self>
        ensures { IfSome result (λ front. front.end ≡ end) }
    {
        let (open, depth, last) = match byte {
            b'{' => (
                (self.open << 1) | 1,
                self.depth.saturating_add(1),
                Last::Open,
            ),
            b'[' => (self.open << 1, self.depth.saturating_add(1), Last::Open),
            b'}' | b']' => (self.open >> 1, self.depth.saturating_sub(1), Last::Close),
            b',' => (self.open, self.depth, Last::Comma),
            _ => return None,
        };
        Some(Front {
            end,
            open,
            depth,
            last,
        })
    }

    /// Returns the front of a text without its last two brackets and commas before a position: what is wrong with a
    /// text at which a parser stopped there comes after it.
    pub(crate) fn before(text: &[u8], position: usize) -> Self
        requires { position ≤ length text.now }
        ensures { result.end ≤ position }
    {
        let (mut front, mut second, mut last) = (Front::NOTHING, Front::NOTHING, Front::NOTHING);
        let mut at = 0;
        while at < position {
            let byte = text[at];
            at += 1;
            if byte == b'"' {
                at = string_end(text, at, position);
            } else if let Some(next) = last.with(byte, at) {
                (front, second, last) = (second, last, next);
            }
        }
        front
    }

    /// Returns a short text after which a parser expects what it expects after the front.
    pub(crate) fn shortened(self, alloc: Global) -> Result<Vec<u8>, AllocError> {
        let (mut reversed, mut open) = (Vec::new(alloc), self.open);
        if self.last == Last::Comma {
            reversed.push(b',')?;
        }
        let mut has_value = matches!(self.last, Last::Close | Last::Comma);
        if has_value {
            reversed.push(b'0')?;
        }
        for _ in 0..self.depth {
            let is_object = open & 1 == 1;
            if is_object && has_value {
                reversed.extend_from_slice(b":\"\"")?;
            }
            reversed.push(if is_object { b'{' } else { b'[' })?;
            (open, has_value) = (open >> 1, true);
        }
        reversed.reverse();
        Ok(reversed)
    }
}
