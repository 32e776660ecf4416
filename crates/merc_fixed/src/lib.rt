//! Tiles, metatiles, squares and windows of the fixed world of `2^30` by `2^30` units, in whole numbers.
//!
//! What is proved: tiles, metatiles, squares, windows, centres and Mercator coordinates: each function equals its
//! definition, `None` exactly outside its range.
#![tactic(auto)]

mod coordinates;
mod squares;
mod tiles;
mod windows;

pub use coordinates::{x_from_cm, y_from_cm};
pub use plain_world::{Meta, Point, Square, Tile, Window};
pub use squares::{meta_square, overlaps, tile_square};
pub use tiles::{index_place, meta_of, tile, tiles_across};
pub use windows::{centre, is_tile_size, meta_window, window};
