//! Scripts: the lines that a farm is asked one after another, read whole, the first fault by its line.
//!
//! What is proved: `read_script`: the lines of the text that are not skipped, or the first line that is none
//! (`script_in`).
#![tactic(auto)]

mod lines;
mod script;
mod scripts;
mod words;

pub use script::{Script, ScriptFault, ScriptLine};
pub use scripts::read_script;
