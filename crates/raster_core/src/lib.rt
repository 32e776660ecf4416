//! Polygons by even-odd filling: the places where edges are crossed are listed, row by row, and between
//! them run the pixels of the polygon.
//!
//! What is proved: `find_crossings` lists the places, in order, whose parity says which centres lie in a polygon (even-odd),
//! and `run_at` gives the runs of pixels between them, by which `tile_render` paints. `fill_mask`, which no command
//! calls: after it a bit is set exactly where it was set or its centre lies in the polygon; after want of memory only
//! bits that belong were set.
#![tactic(auto)]

mod columns;
mod edges;
mod fill;
mod parities;
mod runs;

pub use columns::{Crossed, no_crossings};
pub use fill::{fill_mask, find_crossings};
pub use runs::{Run, run_at};
