//! The command `script`: a configuration and all that it names are read, and a script runs on the farm.
//!
//! What is proved: `script`: the files by their course, then the script's text of the history that was made, or the
//! front that says how it broke off; StoreFailed exactly where all lines were run and a put or read failed (`Scripts`).
#![tactic(auto)]

mod command;

pub use command::script;
