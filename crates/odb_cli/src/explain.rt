//! The explanations of the faults, by code or name.

use crate::page::Page;
use odb_explain::FAULTS;

/// Splits a text at the first of these characters, which neither part has.
fn split(text: &str, end: char) -> (&str, &str) {
    text.split_once(end).unwrap_or((text, ""))
}

/// Adds the code, the name and the places of all faults.
pub fn add_table(page: &mut Page) {
    for text in &FAULTS {
        page.add_all(&[split(text, '\n').0, "\n"]);
    }
}

/// Tests whether the word is the code or the name with which an explanation begins, in any ASCII case.
fn is_named(text: &str, word: &str) -> bool {
    let (code, rest) = split(text, ' ');
    let (name, _) = split(rest, ' ');
    code.eq_ignore_ascii_case(word) || name.eq_ignore_ascii_case(word)
}

/// Adds an explanation, after an empty line if the page has another.
fn add_explanation(page: &mut Page, text: &str) {
    if !page.is_empty() {
        page.add("\n");
    }
    page.add_all(&[text, "\n"]);
}

/// Adds the explanations of the faults that have this code or name.
fn add_named(page: &mut Page, word: &str) {
    for text in &FAULTS {
        if is_named(text, word) {
            add_explanation(page, text);
        }
    }
}

/// Tests whether a fault has this code or name.
fn is_known(word: &str) -> bool {
    FAULTS.iter().any(|text| is_named(text, word))
}

/// Returns the first of these words that is not the code or the name of a fault.
pub fn first_unknown<'a>(words: &[&'a str]) -> Option<&'a str> {
    words.iter().copied().find(|word| !is_known(word))
}

/// Adds the explanations of the faults that have these codes or names, word by word.
pub fn add_explanations(page: &mut Page, words: &[&str]) {
    for word in words {
        add_named(page, word);
    }
}
