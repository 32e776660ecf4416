//! Saved farms: the text in which a farm that stops in order keeps its styles, its updates and its clean
//! metatiles, both ways.
//!
//! What is proved: `write_saved`: the text of what is saved, which must be sound; `read_saved`: what the text says,
//! which is sound, or the first fault in reading order (`saved_in`); the first is read back by the second
//! (`law_reads_back`); in every valid plan the replay of what is saved resumes the history (`law_resumed`).
#![tactic(auto)]

mod fault;
mod fields;
mod laws;
mod lists;
mod reading_text;
mod writing;

pub use farm_history::{Kept, Past, Saved};
pub use fault::SavedFault;
pub use laws::{law_reads_back, law_resumed};
pub use reading_text::read_saved;
pub use writing::write_saved;
