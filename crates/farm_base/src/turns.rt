//! The limit of turns as an ordinary error.

/// The limit of turns was drawn; the call was not run.
#[derive(Clone, Copy, PartialEq, Eq)]
pub struct Worn;
