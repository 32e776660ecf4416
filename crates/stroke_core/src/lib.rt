//! Strokes of lines and outlines of rings, in whole numbers: of each segment, join and cap the
//! stretch of each row is computed, and no centre is tested; but nothing is computed of a segment shorter than a pixel,
//! and the join at its end, where the surface knows that they are covered.
//!
//! What is proved: strokes and outlines: after a call a bit is set exactly where it was set or its centre lies in the
//! shape; after want of memory only bits that belong were set. They go on any `Surface`, of whose bits the same is
//! said. That they are set by stretches of columns no contract says.
#![tactic(auto)]

mod bodies;
mod caps;
mod disks;
mod kept;
mod lines;
mod numbers;
mod outlines;
mod segments;

pub use lines::stroke_lines;
pub use outlines::stroke_rings;
pub use plain_shapes::LineCap as Cap;
