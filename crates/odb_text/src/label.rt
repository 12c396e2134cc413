//! Texts as a drawing shows them.

ghost use Rattle.std.specs.Prelude.{◌≡◌, ◌++◌, nat_lt, chars, codes, length, OnOk, string_bytes};
ghost use Rattle.odb_text.specs.Labels as texts;

use std::alloc::AllocError;

/// Returns whether the text has more than 40 characters.
fn is_long(piece: &str) -> bool
    ensures { result ≡ nat_lt 40 (length (chars piece.now)) }
{
    piece.chars().count() > 40
}

/// Appends a character as Graphviz shows it.
fn push_shown_char(text: &mut String, c: char) -> Result<(), AllocError>
    ensures { OnOk result (string_bytes text.new ≡ string_bytes text.old ++ texts.shown_char c) }
{
    if c == '&' {
        text.push_str("&amp;")
    } else if c < ' ' {
        text.push_str(" ")
    } else {
        text.push(c)
    }
}

/// Appends the first characters of a text.
fn push_first(text: &mut String, piece: &str, count: u32) -> Result<(), AllocError>
    ensures { OnOk result (string_bytes text.new
        ≡ string_bytes text.old ++ texts.first_shown count piece.now) }
{
    let mut left = count;
    for c in piece.chars() {
        if left == 0 {
            return Ok(());
        }
        push_shown_char(text, c)?;
        left -= 1;
    }
    Ok(())
}

/// Appends the first 38 characters of a text and two points.
fn push_long(text: &mut String, piece: &str) -> Result<(), AllocError>
    ensures { OnOk result (string_bytes text.new
        ≡ string_bytes text.old ++ (texts.first_shown 38 piece.now ++ codes "..")) }
{
    push_first(text, piece, 38)?;
    text.push_str("..")
}

/// Appends a text, of which at most 40 characters are shown.
pub(crate) fn push_shown(text: &mut String, piece: &str) -> Result<(), AllocError>
    ensures { OnOk result (string_bytes text.new
        ≡ string_bytes text.old ++ texts.shown piece.now) }
{
    if is_long(piece) {
        push_long(text, piece)
    } else {
        push_first(text, piece, 40)
    }
}
