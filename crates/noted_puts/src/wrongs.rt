//! What does not hold.
use crate::letters::Letters;
use std::alloc::Global;

/// What was tried and did not hold, a line each.
#[derive(Drop)]
pub struct Wrongs {
    lines: Letters,
}

impl Wrongs {
    /// Nothing was wrong yet.
    pub fn new(alloc: Global) -> Wrongs {
        Wrongs {
            lines: Letters::new(alloc),
        }
    }

    /// Notes what was tried, and of what, where it does not hold.
    pub fn see(&mut self, holds: bool, what: &str, of: &str) {
        if !holds {
            self.lines.put(what);
            self.lines.put(of);
            self.lines.put("\n");
        }
    }

    /// The lines; none where memory was wanting for them.
    pub fn into_text(self) -> Option<String> {
        let Wrongs { lines } = self;
        lines.into_text()
    }
}
