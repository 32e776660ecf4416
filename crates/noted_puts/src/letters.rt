//! Letters one after another, so that a put has no answer of its own.
use itoa::{Buffer, Integer};
use std::alloc::Global;

/// A text that grows. Whether memory was wanting is told at the end.
#[derive(Drop)]
pub struct Letters {
    text: String,
    is_cut: bool,
}

impl Letters {
    /// No letters yet.
    pub fn new(alloc: Global) -> Letters {
        Letters {
            text: String::new(alloc),
            is_cut: false,
        }
    }

    /// Puts a text behind the others.
    pub fn put(&mut self, text: &str) {
        if self.text.push_str(text).is_err() {
            self.is_cut = true;
        }
    }

    /// Puts a number in decimal.
    pub fn put_number<I: Integer>(&mut self, number: I) {
        let mut digits = Buffer::new();
        self.put(digits.format(number));
    }

    /// Puts a blank and then a number.
    pub fn put_next<I: Integer>(&mut self, number: I) {
        self.put(" ");
        self.put_number(number);
    }

    /// Puts a text, a blank and a number.
    pub fn put_with<I: Integer>(&mut self, text: &str, number: I) {
        self.put(text);
        self.put_next(number);
    }

    /// Notes that memory was wanting.
    pub fn cut(&mut self) {
        self.is_cut = true;
    }

    /// The text; none where memory was wanting.
    pub fn into_text(self) -> Option<String> {
        let Letters { text, is_cut } = self;
        if is_cut { None } else { Some(text) }
    }
}
