//! A text that is put together piece by piece.

use std::alloc::{AllocError, Global};

/// A text to which pieces are added. That memory ran out is noticed at the end.
#[derive(Drop)]
pub struct Page {
    text: String,
    is_whole: bool,
}

impl Page {
    /// Returns a page without a text.
    pub fn new(alloc: Global) -> Page {
        Page {
            text: String::new(alloc),
            is_whole: true,
        }
    }

    /// Adds a text.
    pub fn add(&mut self, piece: &str) {
        if self.text.push_str(piece).is_err() {
            self.is_whole = false;
        }
    }

    /// Adds a character.
    pub fn add_char(&mut self, piece: char) {
        if self.text.push(piece).is_err() {
            self.is_whole = false;
        }
    }

    /// Notes that memory ran out for a text that was to be added.
    pub fn fail(&mut self) {
        self.is_whole = false;
    }

    /// Adds texts, one after another.
    pub fn add_all(&mut self, pieces: &[&str]) {
        for piece in pieces {
            self.add(piece);
        }
    }

    /// Adds words, with a space before each.
    pub fn add_words(&mut self, words: &[&str]) {
        for word in words {
            self.add_all(&[" ", word]);
        }
    }

    /// Adds words as `add_words` does, between two texts; without words nothing.
    pub fn add_words_within(&mut self, before: &str, words: &[&str], after: &str) {
        if !words.is_empty() {
            self.add(before);
            self.add_words(words);
            self.add(after);
        }
    }

    /// Adds a character, if there is one, between two texts.
    pub fn add_char_within(&mut self, before: &str, piece: Option<char>, after: &str) {
        if let Some(piece) = piece {
            self.add(before);
            self.add_char(piece);
            self.add(after);
        }
    }

    /// Tests whether nothing was added.
    pub fn is_empty(&self) -> bool {
        self.is_whole && self.text.is_empty()
    }

    /// Returns the text, unless memory ran out.
    pub fn text(&self) -> Result<&str, AllocError> {
        if self.is_whole {
            Ok(self.text.as_str())
        } else {
            Err(AllocError)
        }
    }
}
