//! A sink that notes a failure, so that a put has no answer of its own.
use farm_base::Sink;
use itoa::{Buffer, Integer};

/// A sink, and whether it took all that was put.
#[derive(Drop)]
pub struct Noted<O> {
    sink: O,
    took_all: bool,
}

impl<O: Sink> Noted<O> {
    /// This sink, which took all so far.
    pub fn new(sink: O) -> Noted<O> {
        Noted {
            sink,
            took_all: true,
        }
    }

    /// Whether each put succeeded.
    pub fn took_all(&self) -> bool {
        self.took_all
    }

    /// Puts bytes.
    pub fn put_bytes(&mut self, bytes: &[u8]) {
        if self.sink.put(bytes).is_err() {
            self.took_all = false;
        }
    }

    /// Puts a text.
    pub fn put(&mut self, text: &str) {
        self.put_bytes(text.as_bytes());
    }

    /// Puts a number in decimal.
    pub fn put_number<I: Integer>(&mut self, number: I) {
        let mut digits = Buffer::new();
        self.put(digits.format(number));
    }

    /// Puts a number and then a text.
    pub fn put_counted<I: Integer>(&mut self, number: I, text: &str) {
        self.put_number(number);
        self.put(text);
    }
}
