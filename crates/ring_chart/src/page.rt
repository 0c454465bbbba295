//! A text that grows.
use std::alloc::{AllocError, Global};

/// A text to which pieces are added. If an allocation fails, the piece is left out, and the page
/// remembers it. So only `text` returns the failure, and the functions that add pieces do not.
#[derive(Drop)]
pub struct Page {
    text: String,
    is_short: bool,
}

impl Page {
    /// Returns an empty page. Does not allocate.
    pub fn new(alloc: Global) -> Page {
        Page {
            text: String::new(alloc),
            is_short: false,
        }
    }

    /// Adds words.
    pub fn add(&mut self, words: &str) {
        if self.text.push_str(words).is_err() {
            self.is_short = true;
        }
    }

    /// Adds words, and then a number.
    pub fn add_number(&mut self, words: &str, number: u64) {
        self.add(words);
        if write!(self.text, "{number}").is_err() {
            self.is_short = true;
        }
    }

    /// Adds a number, with spaces before it up to eight characters.
    pub fn add_right(&mut self, number: u64) {
        if write!(self.text, "{number:>8}").is_err() {
            self.is_short = true;
        }
    }

    /// Adds a character `count` times.
    pub fn fill(&mut self, count: usize, character: char) {
        for _ in 0..count {
            if self.text.push(character).is_err() {
                self.is_short = true;
            }
        }
    }

    /// Returns the text, or `AllocError` if a piece was left out.
    pub fn text(self) -> Result<String, AllocError> {
        if self.is_short {
            Err(AllocError)
        } else {
            Ok(self.text)
        }
    }
}
