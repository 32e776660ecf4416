//! What texts are read as, in lines: texts of every kind that the readers read, each with its first fault, or with what was
//! read; and the rows of tables. The program `command_cases` puts these lines, and `case_calls` reads tables of its own by
//! the same rows.
//!
//! What is proved: which frame a table's line says, and that the text of a row stands within it (`frame_of`, `row`). What
//! texts are told by is compared, byte for byte, with what a second program made of them.
#![tactic(auto)]

mod change_told;
mod fault_told;
mod filter_told;
mod lines_told;
mod meta_told;
mod path_told;
mod rows;
mod saved_told;
mod texts;

pub use rows::{Frame, frame_of, row};
pub use texts::{put_row, run_texts};
