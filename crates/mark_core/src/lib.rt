//! Marks at points: ellipses, with the stretch of each row computed, and no centre tested.
//!
//! What is proved: marks: after a call a bit is set exactly where it was set or its centre lies in the shape; after
//! want of memory only bits that belong were set. They go on any `Surface`, of whose bits the same is said.
#![tactic(auto)]

mod ellipses;
mod points;

pub use points::mark_points;
