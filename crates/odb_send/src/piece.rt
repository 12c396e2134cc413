//! Pieces that are appended to a text, and where they lie in it.

ghost use Rattle.std.specs.Prelude.{◌≡◌, ◌≤◌, length, option_map, IfOk, OnOk, string_bytes};
ghost use Rattle.odb_send.specs.Parts.{HasPart, HasPartIf};
ghost use Rattle.odb_send.specs.Pieces.{Extends};

use odb_spans::Span;
use std::alloc::AllocError;

/// Appends a piece, and returns where it lies.
pub(crate) fn push_part(text: &mut String, piece: &str) -> Result<Span, AllocError>
    ensures text { OnOk result (Extends (string_bytes text.old) (string_bytes text.new)) }
    ensures part { IfOk result (HasPart (string_bytes text.new) piece.now) }
{
    let start = text.len();
    text.push_str(piece)?;
    Ok(Span {
        start,
        end: text.len(),
    })
}

/// Appends a piece, if there is one, and returns where it lies.
pub(crate) fn push_part_if(
    text: &mut String,
    piece: Option<&str>,
) -> Result<Option<Span>, AllocError>
    ensures text { OnOk result (Extends (string_bytes text.old) (string_bytes text.new)) }
    ensures part { IfOk result (HasPartIf (string_bytes text.new)
        (option_map (λ piece. piece.now) piece.entry)) }
{
    match piece {
        Some(piece) => Ok(Some(push_part(text, piece)?)),
        None => Ok(None),
    }
}
