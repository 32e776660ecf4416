//! A sink, letters and a list of what was wrong, which note what failed: a put has no answer of its own, and who puts has no
//! way out at each.
//!
//! Programs of cases and of benchmarks, and trials, tell by them. Nothing is proved of them but that they are safe.
#![tactic(auto)]

mod letters;
mod noted;
mod wrongs;

pub use letters::Letters;
pub use noted::Noted;
pub use wrongs::Wrongs;
