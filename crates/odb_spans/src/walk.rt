//! From one element of an array or an object to the next.

ghost use Rattle.std.specs.Prelude.{◌≡◌, ◌≤◌, ◌<◌, ℕ, List, ◌∷◌, length, get_or, true, false, IsUtf8};
ghost use Rattle.std.specs.Str.{IsCharBoundary};
ghost use Rattle.json.specs.Token.{Token};
ghost use Rattle.json.specs.Word.{is_space};
ghost use Rattle.json.specs.Lex as lexer;
ghost use Rattle.json.specs.Align.{is_blank, is_good};
ghost use Rattle.odb_spans.specs.Cuts.{IsClear, IsCut};
ghost use Rattle.odb_spans.specs.Walks.{Clears, Faces, IsInside, IsSolidAt, IsStart, Steps, lexemes_from, tokens_from};

use crate::byte::Kind;

/// Returns where the next byte is that is not blank.
pub(crate) fn past_blanks(text: &[u8], at: usize) -> usize
    requires { at ≤ length text.now }
    ensures same { lexemes_from text.now result ≡ lexemes_from text.now at }
    ensures after { at ≤ result }
    ensures within { result ≤ length text.now }
    ensures solid { IsSolidAt text.now result }
    ensures boundary { IsUtf8 text.now → IsCharBoundary text.now at
        → IsCharBoundary text.now result }
    ensures cut { IsCut text.now at → IsCut text.now result }
    ensures clear { IsCut text.now at → IsClear text.now at → IsClear text.now result }
    ensures blanks { (k : ℕ) → at ≤ k → k < result → is_space (get_or text.now k 0) ≡ true }
{
    let mut end = at;
    while end < text.len() {
        let Kind::Blank = Kind::of(text[end]) else {
            return end;
        };
        end += 1;
    }
    end
}

/// Returns where the value of the text begins.
pub(crate) fn value_start(text: &[u8]) -> usize
    ensures { IsStart text.now result }
{
    past_blanks(text, 0)
}

/// Returns where the next element, the next value or the closing bracket is, after a comma or a colon.
pub(crate) fn past_separator(text: &[u8], at: usize) -> usize
    requires { at ≤ length text.now }
    ensures faces { (q : lexer.Place) (t : Token) (ts : List Token) → IsInside q → is_good t ≡ true
        → tokens_from q text.now at ≡ t ∷ ts → Faces text.now result t ts }
    ensures colon { (t : Token) (ts : List Token) → is_good t ≡ true
        → tokens_from lexer.after_key text.now at ≡ t ∷ ts
        → tokens_from lexer.fresh text.now result ≡ t ∷ ts }
    ensures after { at ≤ result }
    ensures within { result ≤ length text.now }
    ensures solid { IsSolidAt text.now result }
    ensures boundary { IsUtf8 text.now → IsCharBoundary text.now at
        → IsCharBoundary text.now result }
    ensures cut { IsCut text.now at → IsCut text.now result }
    ensures clear { (t : Token) (ts : List Token) → is_good t ≡ true
        → tokens_from lexer.after_key text.now at ≡ t ∷ ts → IsCut text.now at
        → IsClear text.now result }
    ensures clears { Clears text.now at result }
{
    let first = past_blanks(text, at);
    let Some(kind) = Kind::at(text, first) else {
        return first;
    };
    if kind.is_separator() {
        past_blanks(text, first + 1)
    } else {
        first
    }
}

/// Returns where the next element of an array or the next name of an object begins, none at the end of the array or the
/// object. `at` is after its opening bracket or an element.
pub(crate) fn next(text: &[u8], at: usize) -> Option<usize>
    requires { at ≤ length text.now }
    ensures { Steps text.now at result }
{
    let first = past_separator(text, at);
    let Some(kind) = Kind::at(text, first) else {
        return None;
    };
    if kind.closes() { None } else { Some(first) }
}
