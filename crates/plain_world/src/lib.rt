//! The world: points, tiles, metatiles, squares of the quadtree, and windows with the centres of their
//! pixels, all in whole world units.
//!
//! It stands on no other crate of the repository. All that names a tile stands on it: numbers (`merc_fixed`),
//! paths, containers, words and histories; so do shapes, data and drawings.
//!
//! What is proved: definitions, and laws of them that crates above carry in their contracts: overlap of squares by
//! points and by numbers (`merc_fixed::overlaps`), and windows that lie in the world.
#![tactic(auto)]

mod limits;
mod world;

pub use limits::MOST_SIDE;
pub use world::{Meta, Point, Square, Tile, Window};
