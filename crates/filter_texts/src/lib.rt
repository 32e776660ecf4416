//! Filters written as texts. What is written of a filter is read as that filter again.
//!
//! What is proved: `write`: a filter as a text again, exactly; what is written of a filter that a text says is read as
//! that filter (`law_written_again`, `law_answered_again`, `law_known_by_text`).
#![tactic(auto)]

mod laws;
mod words;
mod writer;

pub use laws::{law_answered_again, law_known_by_text, law_written_again};
pub use writer::write;
