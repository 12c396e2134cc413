//! The explanations of the faults: the texts of docs/faults.md, which is compared with what the program prints of each
//! document there.
#![tactic(auto)]

ghost use Rattle.std.specs.Prelude.{◌≡◌, find, map, option_map};
ghost use Rattle.odb_explain.specs.Explanations.{explanation, has_code, with_code};

mod faults;

pub use faults::FAULTS;

/// Returns whether the first word of an explanation is the code.
fn has_code(text: &str, code: &[u8]) -> bool
    ensures { result ≡ has_code code.now text.now }
{
    let bytes = text.as_bytes();
    bytes.len() > code.len() && bytes.starts_with(code) && bytes[code.len()] == b' '
}

/// Returns the first of these explanations that has the code.
fn first_with<'a>(texts: &[&'a str], code: &[u8]) -> Option<&'a str>
    ensures { result ≡ find (λ text. has_code code.now text.now) texts.now }
{
    texts.iter().copied().find(|text| has_code(text, code))
}

/// Returns the first of these explanations that has the code, as its text.
fn text_with<'a>(texts: &[&'a str], code: &[u8]) -> Option<&'a str>
    ensures { option_map (λ text. text.now) result ≡ with_code code.now (map (λ text. text.now) texts.now) }
{
    first_with(texts, code)
}

/// Returns the explanation of the fault, or of the cause of an event that may not come, with this code, as `F41` or `S4`; `None`
/// if there is no such code.
#[tactic(auto, unfolding(crate::specs::Explanations::explanation))]
pub fn explanation_of(code: &[u8]) -> Option<&'static str>
    ensures { option_map (λ text. text.now) result ≡ explanation code.now }
{
    text_with(&FAULTS, code)
}
