//! The command `load`: generated work runs on a farm, and a line sums it up.
//!
//! What is proved: `load`: the generated work's steps as events of one history (`IsLoad`), and the line that sums up
//! its clean tiles (`load_text`); in want of memory nothing is put.
#![tactic(auto)]

mod command;
mod steps;
mod totals;

pub use command::load;
