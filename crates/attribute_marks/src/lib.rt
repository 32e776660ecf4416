//! Marks of attributes: a feature that has none of the marks which a filter asks for has no attribute that it asks for, so
//! that most features are passed over without a look at them.
//!
//! What is proved: each mark is that of its name and value, and below 64; `marks_of` sets the bit of each attribute's mark
//! (that it sets no other is in no contract: a mark more passes over less); `shares` says whether a bit is set in both.
#![tactic(auto)]

mod marks;

pub use marks::{mark_of_text, mark_of_truth, mark_of_whole, marks_of, shares};
