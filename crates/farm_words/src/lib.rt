//! The words of the command line: clap's reading of a simple command, and the five forms that the
//! farm's program knows.
//!
//! What is proved: `read_words`: the command of the words, refused exactly where `clap`'s reading gives none or values
//! of no form; words spell one command at most (`law_one_command`), and plain words are their own values
//! (`law_plain_words`).
#![tactic(auto)]

mod command;
mod forms;
mod laws;
mod reading;

pub use command::{Command, WordsFault};
pub use laws::{law_one_command, law_plain_words};
pub use reading::read_words;
